//! Frames, and the environment of a method.

ghost use Rattle.std.specs.Prelude.{◌≡◌, IfOk, Some, None, nat_le, if◌then◌else◌};
ghost use Rattle.jtypes.specs.Lists.{padded};
ghost use Rattle.jtypes.specs.Types.{is_long, slots_by, as_locals};
ghost use Rattle.jtypes.specs.declared.types.JType.TheVariants.{Top};
ghost use Rattle.frames.specs.Frames.{HasRoom};

use crate::{Signature, TypeStack, slots_of};
use jtypes::JType;
use locals::Locals;
use std::alloc::{AllocError, Global};
use std::marker::Model;

/// The environment of a method's instructions (JVMS §4.10.1.6). Both limits count slots.
#[derive(Drop)]
pub struct Environment {
    pub signature: Signature,
    pub max_stack: u16,
    pub max_locals: u16,
}

/// The environment of a method whose parameters fit in its locals, so that its initial frame exists (JVMS §4.10.1.6).
#[derive(Drop)]
pub struct MethodStart {
    environment: Environment,
}

impl Model for MethodStart {
    ghost use Rattle.frames.specs.declared.frame.Environment.{Environment};
    ghost use Rattle.frames.specs.Frames.{HasRoom};

    ghost Value = { Environment };

    ghost view = { λ s. s.environment };

    ghost invariant = { λ s. HasRoom s.environment };
}

/// A mutable frame: the types of a method's `max_locals` locals and of its operands (JVMS §4.10.1.4).
/// A long is one operand, but two locals, the second of which is `Top`.
#[derive(Drop)]
pub struct Flow {
    pub locals: Locals,
    pub stack: TypeStack,
}

/// Checks that the types fit in this number of slots.
pub fn have_room(types: &[JType], slots: usize) -> bool
    ensures { result ≡ nat_le (slots_by is_long types.now) slots }
{
    let mut left = slots;
    for t in types {
        let size = usize::from(slots_of(*t));
        if left < size {
            return false;
        }
        left -= size;
    }
    true
}

/// Returns the types as locals: `Top` follows each long.
pub fn as_locals(alloc: Global, types: &[JType]) -> Result<Vec<JType>, AllocError>
    ensures { IfOk result (λ locals. locals.items ≡ as_locals is_long (λ t. t) Top types.now) }
{
    let mut locals = Vec::new(alloc);
    for t in types {
        locals.push(*t)?;
        if *t == JType::Long {
            locals.push(JType::Top)?;
        }
    }
    Ok(locals)
}

/// Appends `Top` up to this number of locals.
pub fn padded(mut locals: Vec<JType>, count: usize) -> Result<Vec<JType>, AllocError>
    ensures { IfOk result (λ all. all.items ≡ padded Top count locals.items) }
{
    while locals.len() < count {
        locals.push(JType::Top)?;
    }
    Ok(locals)
}

impl MethodStart {
    /// Returns the start of a method, or `None` if its parameters don't fit in its locals.
    pub fn new(environment: Environment) -> Option<MethodStart>
        ensures { result ≡ (if nat_le (slots_by is_long environment.signature.params) environment.max_locals then Some environment else None) }
    {
        let params = environment.signature.params.as_slice();
        if have_room(params, usize::from(environment.max_locals)) {
            Some(MethodStart { environment })
        } else {
            None
        }
    }

    pub fn environment(&self) -> &Environment
        ensures same { result.now ≡ self.now }
        ensures room { HasRoom self.now }
    {
        &self.environment
    }

    pub fn into_environment(self) -> Environment
        ensures { result ≡ self }
    {
        self.environment
    }
}
