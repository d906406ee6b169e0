//! A class with checked layout, shape, instructions and types.

ghost use Rattle.std.specs.Prelude.{◌≡◌, length, IfOk, IfErr};
ghost use Rattle.classfile.specs.View.{view_of};
ghost use Rattle.jtypes.specs.Profile.{Third};
ghost use Rattle.verdict.specs.Shaping.{HasGoodShape};
ghost use Rattle.typecheck.specs.Calls.{AreCallsOf};
ghost use Rattle.verdict.specs.Judging.{AreFound, AreTyped, HasInstructionsOf, IsTypedRow};
ghost use Rattle.verdict.specs.Spots.{IsLocated, IsToldOf};
ghost use Rattle.verdict.specs.TypedClasses.{IsTypedClass, type_spot};
ghost use Rattle.verdict.specs.Verdict.{TypesStand};

use crate::instructions::{Found, judge_instructions};
use crate::shape::{is_process, judge_shape};
use crate::shape_spot::shape_located;
use crate::spot::{Located, Spot};
use classfile::{ClassFile, CodeParts, contents_named, read_class};
use constpool::names;
use decode::Code;
use frames::{Environment, MemberView, MethodStart, method_signature};
use jtypes::Refusal;
use std::alloc::Global;
use typecheck::{Called, Typed, check_method};

/// A class whose methods are well typed: its class file, and a `Typed` for each method except the constructor, by ascending method index.
#[derive(Drop)]
pub struct TypedClass {
    pub class: ClassFile,
    pub methods: Vec<Typed>,
}

/// Locates a refusal of the types of a method: a `TypeMismatch` at its pc, any other at the method.
fn located(refusal: Refusal, method: usize) -> Located
    ensures refusal { result.refusal ≡ refusal }
    ensures spot { result.spot ≡ type_spot method refusal }
{
    let spot = match refusal {
        Refusal::TypeMismatch(place) => Spot::AtInstruction {
            method,
            place: place as usize,
        },
        _ => Spot::InMethod(method),
    };
    Located { refusal, spot }
}

/// Checks the types of the method with index `number`.
fn judge_method(
    alloc: Global,
    class: &ClassFile,
    members: &MemberView<'_>,
    number: usize,
    parts: &CodeParts,
    code: Code,
    calls: Vec<Called>,
) -> Result<Typed, Located>
    requires members { members.now ≡ view_of class.now.pool class.now.parts }
    requires code { HasInstructionsOf class.now.pool class.now.parts number parts.now code }
    requires calls { AreCallsOf members.now code calls.items }
    ensures number { IfOk result (λ t. t.number ≡ number) }
    ensures row { IfOk result (λ t. IsTypedRow class.now.pool class.now.parts t) }
    ensures err { IfErr result (IsLocated (TypesStand Third class.now.pool class.now.parts) class.now.pool class.now.parts) }
{
    let view = class.view();
    let Some(method) = view.method(number) else {
        return Err(Refusal::BadDescriptor.into());
    };
    let Some(member) = class.parts.methods.as_slice().get(number) else {
        return Err(Refusal::BadDescriptor.into());
    };
    let Some(signature) = method_signature(alloc, &view, &method)? else {
        return Err(Refusal::BadDescriptor.into());
    };
    let environment = Environment {
        signature,
        max_stack: parts.max_stack,
        max_locals: parts.max_locals,
    };
    // The shape check refuses a method whose parameters don't fit into its local variables.
    let Some(start) = MethodStart::new(environment) else {
        return Err(Refusal::BadCode.into());
    };
    let tables = contents_named(
        alloc,
        &class.pool,
        names::STACK_MAP_TABLE,
        parts.attributes.as_slice(),
    )?;
    let is_process = is_process(class, member);
    match check_method(
        alloc, number, is_process, start, &tables, code, calls, members,
    ) {
        Ok(typed) => Ok(typed),
        Err(refusal) => Err(located(refusal, number)),
    }
}

/// Checks the types of the methods in `found`.
fn judge_types(
    alloc: Global,
    class: &ClassFile,
    members: &MemberView<'_>,
    codes: &[CodeParts],
    found: Vec<Found>,
    constructor: usize,
) -> Result<Vec<Typed>, Located>
    requires members { members.now ≡ view_of class.now.pool class.now.parts }
    requires shape { HasGoodShape class.now.pool class.now.parts codes.now constructor }
    requires found { AreFound (view_of class.now.pool class.now.parts) codes.now constructor (length codes.now) found.items }
    ensures ok { IfOk result (λ rows. AreTyped class.now.pool class.now.parts constructor (length codes.now) rows.items) }
    ensures err { IfErr result (IsLocated (TypesStand Third class.now.pool class.now.parts) class.now.pool class.now.parts) }
{
    let mut methods = Vec::new(alloc);
    for Found {
        number,
        code,
        calls,
    } in found {
        methods.push(judge_method(alloc, class, members, number, &codes[number], code, calls)?)?;
    }
    Ok(methods)
}

/// Checks the layout, the shape, the instructions and the types of a class, and stops at the first level with a refusal (JVMS §4, §4.10.1).
/// Doesn't check array lengths, recursion and bounds.
pub fn type_class(alloc: Global, bytes: &[u8]) -> Result<TypedClass, Located>
    // The bytes are this class, no refusal of its layout, shape or instructions applies, and its methods are well typed.
    ensures ok { IfOk result (λ t. IsTypedClass bytes.now t.class.pool t.class.parts t.methods.items) }

    // The refusal applies to the bytes at the reported spot, unless it is out of memory.
    ensures err { IfErr result (IsToldOf bytes.now) }
{
    let class = read_class(alloc, bytes)?;
    let shape = match judge_shape(alloc, &class) {
        Ok(shape) => shape,
        Err(refusal) => return Err(shape_located(alloc, &class, refusal)?),
    };
    let methods = {
        let members = MemberView::new(alloc, &class)?;
        let instructions = judge_instructions(
            alloc,
            &class,
            &members,
            &shape.codes,
            shape.constructor,
        )?;
        judge_types(
            alloc,
            &class,
            &members,
            &shape.codes,
            instructions,
            shape.constructor,
        )?
    };
    Ok(TypedClass { class, methods })
}
