//! Decodes the code of a class's methods and resolves the members that it names.

ghost use Rattle.std.specs.Prelude.{◌≡◌, ◌⊎◌, true, length, IfOk, IfErr};
ghost use Rattle.jtypes.specs.Lists.{same_bytes};
ghost use Rattle.jtypes.specs.declared.refusal.Refusal.{Refusal};
ghost use Rattle.verdict.specs.declared.spot.Spot.{Spot};
ghost use Rattle.verdict.specs.Verdict.{InstructionsStand, class_of_exception, is_known};
ghost use Rattle.verdict.specs.Spots.{InstructionStandsAt, IsLocated};
ghost use Rattle.verdict.specs.Judging.{AreFound, IsGoodCode, IsUnknownAt};
ghost use Rattle.typecheck.specs.Calls.{AreCallsOf, call_at};
ghost use Rattle.verdict.specs.Shaping.{HasGoodShape};
ghost use Rattle.classfile.specs.View.{view_of};
ghost use Rattle.jtypes.specs.Profile.{Third};

use crate::spot::{Located, Spot};
use classfile::{ClassFile, CodeParts};
use constpool::{names, same_bytes};
use decode::{Code, Fault, Instruction, Placed, decode_at};
use frames::{MemberView, callee_at, constant_type};
use jtypes::{Exception, Refusal};
use std::alloc::Global;
use typecheck::Called;

/// The instructions of the method with index `number`, and their calls.
#[derive(Drop)]
pub struct Found {
    pub number: usize,
    pub code: Code,
    pub calls: Vec<Called>,
}

/// Returns the fault `UnknownMember` at the pc of the instruction.
fn unknown(p: &Placed) -> Fault
    ensures refusal { result.refusal ≡ Refusal.UnknownMember }
    ensures place { result.place ≡ p.now.place }
{
    Fault {
        refusal: Refusal::UnknownMember,
        place: p.place,
    }
}

/// Returns the name of an exception's class, in internal form (JVMS §4.2.1).
fn class_of_exception(exception: Exception) -> &'static [u8]
    ensures { result.now ≡ class_of_exception exception }
{
    match exception {
        Exception::Arithmetic => names::ARITHMETIC,
        Exception::EntryProcessor => names::ENTRY_PROCESSOR_EXCEPTION,
        Exception::IllegalArgument => names::ILLEGAL_ARGUMENT,
        Exception::IllegalState => names::ILLEGAL_STATE,
        Exception::UnsupportedOperation => names::UNSUPPORTED_OPERATION,
    }
}

/// Returns whether the class itself has the name of an exception's class.
fn is_called_so(view: &MemberView<'_>, exception: Exception) -> bool
    ensures { result ≡ same_bytes (class_of_exception exception) view.now.name }
{
    same_bytes(class_of_exception(exception), view.class().name())
}

/// Returns the resolved call if the instruction is an invoke, otherwise `None`.
/// Fails with `UnknownMember` if a method or type that the instruction names is unknown, or if it throws an exception that has the name of the class.
fn call_of(alloc: Global, view: &MemberView<'_>, p: &Placed) -> Result<Option<Called>, Fault>
    ensures call { IfOk result (λ call. call ≡ call_at view.now p.now) }
    ensures known { IfOk result (λ _. is_known view.now p.now.instruction ≡ true) }
    ensures err { IfErr result (λ f. (f.refusal ≡ Refusal.NoMemory) ⊎ IsUnknownAt view.now p.now f) }
{
    match p.instruction {
        Instruction::Invoke(kind, i) => match callee_at(alloc, view, kind, i)? {
            Some(callee) => {
                let place = p.place;
                Ok(Some(Called { place, callee }))
            }
            None => Err(unknown(p)),
        },
        Instruction::CheckCast(i) | Instruction::InstanceOf(i) => {
            match constant_type(view.class(), i) {
                Some(_) => Ok(None),
                None => Err(unknown(p)),
            }
        }
        Instruction::Throw(exception, _) if is_called_so(view, exception) => Err(unknown(p)),
        _ => Ok(None),
    }
}

/// Decodes the code of one method and resolves its calls.
/// A fault other than `NoMemory` has the pc of the refused instruction.
fn judge_code(
    alloc: Global,
    view: &MemberView<'_>,
    bytes: &[u8],
) -> Result<(Code, Vec<Called>), Fault>
    ensures code { IfOk result (λ found. IsGoodCode view.now bytes.now found.0) }
    ensures calls { IfOk result (λ found. AreCallsOf view.now found.0 found.1.items) }
    ensures err { IfErr result (λ f. (f.refusal ≡ Refusal.NoMemory) ⊎ InstructionStandsAt Third view.now bytes.now f.place f.refusal) }
{
    let code = decode_at(alloc, bytes, view.pool())?;
    let mut calls = Vec::new(alloc);
    for p in code.as_slice() {
        if let Some(called) = call_of(alloc, view, p)? {
            calls.push(called)?;
        }
    }
    Ok((code, calls))
}

/// Locates a fault at its pc in the method with index `method`.
fn located(fault: Fault, method: usize) -> Located
    ensures refusal { result.refusal ≡ fault.refusal }
    ensures spot { result.spot ≡ Spot.AtInstruction method fault.place }
{
    Located {
        refusal: fault.refusal,
        spot: Spot::AtInstruction {
            method,
            place: fault.place,
        },
    }
}

/// Returns the instructions and calls of each method except the constructor, in class file order.
/// The constructor is skipped because its code is part of the shape.
pub fn judge_instructions(
    alloc: Global,
    class: &ClassFile,
    view: &MemberView<'_>,
    codes: &[CodeParts],
    constructor: usize,
) -> Result<Vec<Found>, Located>
    requires shape { HasGoodShape class.now.pool class.now.parts codes.now constructor }
    requires view { view.now ≡ view_of class.now.pool class.now.parts }
    ensures ok { IfOk result (λ found. AreFound (view_of class.now.pool class.now.parts) codes.now constructor (length codes.now) found.items) }
    ensures err { IfErr result (IsLocated (InstructionsStand Third class.now.pool class.now.parts) class.now.pool class.now.parts) }
{
    let mut found = Vec::new(alloc);
    for number in 0..codes.len() {
        if number != constructor {
            match judge_code(alloc, view, codes[number].code.as_slice()) {
                Ok((code, calls)) => found.push(Found {
                    number,
                    code,
                    calls,
                })?,
                Err(fault) => return Err(located(fault, number)),
            }
        }
    }
    Ok(found)
}
