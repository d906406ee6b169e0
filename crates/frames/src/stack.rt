//! The types on the operand stack.

ghost use Rattle.std.specs.Prelude.{◌≡◌, ◌==◌, length, nat_le, [], ◌∷◌, IfOk, OnErr, if◌then◌else◌, MatchOption, slice_get};
ghost use Rattle.jtypes.specs.Types.{slots_by, is_long};

use jtypes::JType;
use std::alloc::{AllocError, Global};
use std::marker::Model;

/// The types on a method's operand stack; contracts see the list with the top first.
/// A long is one operand, and fills two slots (JVMS §2.6.2).
#[derive(Drop)]
pub struct TypeStack {
    types: Vec<JType>,
    slots: u16,
}

impl Model for TypeStack {
    ghost use Rattle.std.specs.Prelude.{◌≡◌, List, reverse};
    ghost use Rattle.jtypes.specs.declared.types.JType.{JType};
    ghost use Rattle.jtypes.specs.Types.{slots_by, is_long};

    ghost Value = { List JType };

    ghost view = { λ s. reverse s.types.items };

    ghost invariant = { λ s. slots_by is_long (reverse s.types.items) ≡ s.slots };
}

/// Returns the number of slots of a type: 2 for a long, else 1.
pub fn slots_of(t: JType) -> u16
    ensures { result ≡ slots_by is_long (t ∷ []) }
{
    match t {
        JType::Long => 2,
        JType::Top | JType::Int | JType::Null | JType::Ref(_) => 1,
    }
}

impl TypeStack {
    pub fn new(alloc: Global) -> TypeStack
        ensures { result ≡ [] }
    {
        TypeStack {
            types: Vec::new(alloc),
            slots: 0,
        }
    }

    /// Returns the number of operands; a long is one.
    pub fn len(&self) -> usize
        ensures { result ≡ length self.now }
    {
        self.types.len()
    }

    pub fn is_empty(&self) -> bool
        ensures { result ≡ (length self.now == 0) }
    {
        self.types.is_empty()
    }

    /// Returns the number of slots that the operands fill.
    pub fn slots(&self) -> u16
        ensures { result ≡ slots_by is_long self.now }
    {
        self.slots
    }

    /// Returns the operand at index `i` from the top, which has index 0.
    pub fn peek(&self, i: usize) -> Option<JType>
        ensures { result ≡ slice_get self.now i }
    {
        if i < self.types.len() {
            Some(self.types[self.types.len() - 1 - i])
        } else {
            None
        }
    }

    /// Pops the top operand.
    pub fn pop(&mut self) -> Option<JType>
        ensures { MatchOption result ((self.old ≡ []) × (self.new ≡ [])) (λ t. self.old ≡ t ∷ self.new) }
    {
        let t = self.types.pop()?;
        self.slots -= slots_of(t);
        Some(t)
    }

    /// Pushes an operand. Returns false, and changes nothing, if the operands would exceed `max` slots.
    pub fn push(&mut self, t: JType, max: u16) -> Result<bool, AllocError>
        ensures room { IfOk result (λ fits. fits ≡ nat_le (slots_by is_long (t ∷ self.old)) max) }
        ensures pushed { IfOk result (λ fits. self.new ≡ (if fits then t ∷ self.old else self.old)) }
        ensures err { OnErr result (self.new ≡ self.old) }
    {
        let size = slots_of(t);
        if max < size || max - size < self.slots {
            return Ok(false);
        }
        self.types.push(t)?;
        self.slots += size;
        Ok(true)
    }

    /// Returns a copy of the stack.
    pub fn copy(&self, alloc: Global) -> Result<TypeStack, AllocError>
        ensures { IfOk result (λ s. s ≡ self.now) }
    {
        Ok(TypeStack {
            types: Vec::from_slice(alloc, &self.types)?,
            slots: self.slots,
        })
    }
}
