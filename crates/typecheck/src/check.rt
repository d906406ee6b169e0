//! Type checking of one method (JVMS §4.10.1).

ghost use Rattle.std.specs.Prelude.{not, Result, Option, ◌≡◌, ◌≢◌, ◌⊎◌, ◌<◌, ℕ, List, Any, length, map, is_some, option_copied, option_map, Some, IsSome, IfSome, Ok, Err, IfOk, IfErr, IsTrue, IsFalse};
ghost use Rattle.jtypes.specs.declared.refusal.Refusal.{Refusal};
ghost use Rattle.decode.specs.Places.{at_place, target_of, cases_of};
ghost use Rattle.jtypes.specs.declared.types.JType.{JType};
ghost use Rattle.frames.specs.Frames.{Frame, first_frame};
ghost use Rattle.frames.specs.Seen.{AreInOrder, AreKept, declared_seen, frame_kept, frame_seen};
ghost use Rattle.frames.specs.declared.frame.Environment.{Environment};
ghost use Rattle.frames.specs.StackMap.{IsDeclared};
ghost use Rattle.classfile.specs.View.{ClassView};
ghost use Rattle.transfer.specs.Transfer.{IsCalleeOf};
ghost use Rattle.typecheck.specs.Calls.{AreCallsOf, AreRising, callee_in, called_by};
ghost use Rattle.typecheck.specs.DeclaredPlaces.{ArePlacesOf};
ghost use Rattle.typecheck.specs.Typing.{IsWellTyped};
ghost use Rattle.typecheck.specs.Mismatch.{CheckRefuses, LacksFrame};
ghost use Rattle.typecheck.specs.Seen.{advanced, branched, branched_cases, declared_row, entered, flowing, flows, lacks_cases_row, lacks_targets_row, lacks_row_at, method_of, mismatch_at, passed, target_row, IsMet, IsUnmet};

use crate::assign::frame_assignable;
use crate::typed::callee_of;
use crate::{Called, Typed};
use decode::{Code, Instruction, Placed};
use frames::{Callee, Declared, Environment, Flow, Frames, MemberView, MethodStart, read_frames};
use jtypes::Refusal;
use std::alloc::{AllocError, Global};
use transfer::apply;

/// Returns the frame declared at a pc, by binary search.
fn declared_at(declared: &[Declared], place: usize) -> Option<&Declared>
    requires { AreInOrder declared.now }
    ensures { option_copied result ≡ declared_row declared.now place }
{
    let i = declared.partition_point(|d| d.place < place);
    match declared.get(i) {
        Some(d) if d.place == place => Some(d),
        _ => None,
    }
}

fn is_declared(declared: &[Declared], place: usize) -> bool
    requires { AreInOrder declared.now }
    ensures { result ≡ is_some (declared_row declared.now place) }
{
    declared_at(declared, place).is_some()
}

/// Returns the frame declared at a branch target.
fn declared_at_target(declared: &[Declared], target: i128) -> Option<&Declared>
    requires { AreInOrder declared.now }
    ensures { option_copied result ≡ target_row declared.now target }
{
    match usize::try_from(target) {
        Ok(place) => declared_at(declared, place),
        Err(_) => None,
    }
}

fn lacks_one(declared: &[Declared], target: i128) -> bool
    requires { AreInOrder declared.now }
    ensures { result ≡ not (is_some (target_row declared.now target)) }
{
    declared_at_target(declared, target).is_none()
}

/// Checks whether a case target of a switch has no declared frame.
fn lacks_case(declared: &[Declared], instruction: &Instruction) -> bool
    requires { AreInOrder declared.now }
    ensures { result ≡ lacks_cases_row declared.now (cases_of instruction.now) }
{
    for i in 0..instruction.case_count() {
        if lacks_one(declared, instruction.case_target(i)) {
            return true;
        }
    }
    false
}

/// Checks whether a target of an instruction has no declared frame.
fn lacks_target(declared: &[Declared], instruction: &Instruction) -> bool
    requires { AreInOrder declared.now }
    ensures { result ≡ lacks_targets_row declared.now instruction.now }
{
    match instruction.target() {
        Some(target) => { lacks_one(declared, target) || lacks_case(declared, instruction) }
        None => false,
    }
}

/// Checks whether a target of an instruction, or the instruction after a goto, a switch, a return or a throw, has no declared frame
/// (JVMS §4.10.1).
fn lacks_at(code: &Code, declared: &[Declared], p: &Placed) -> bool
    requires { AreInOrder declared.now }
    ensures { result ≡ lacks_row_at code.now declared.now p.now }
{
    lacks_target(declared, &p.instruction)
        || (!p.instruction.falls_through()
            && code.at(p.next).is_some()
            && !is_declared(declared, p.next))
}

/// Checks whether a declared frame is missing at some instruction of a method.
fn lacks_frame(code: &Code, declared: &[Declared]) -> bool
    requires { AreInOrder declared.now }
    ensures some { IsTrue result → (e : Environment) (rows : List (List JType)) → LacksFrame (method_of e code.now (declared_seen rows declared.now)) }
    ensures none { IsFalse result → (e : Environment) (rows : List (List JType)) → LacksFrame (method_of e code.now (declared_seen rows declared.now)) → ⊥ }
{
    for p in code.as_slice() {
        if lacks_at(code, declared, p) {
            return true;
        }
    }
    false
}

/// Returns the refusal of the instruction at a pc. It has the pc as a `u32`, and `u32::MAX` for larger ones.
fn mismatch(place: usize) -> Refusal
    ensures { result ≡ mismatch_at place }
{
    Refusal::TypeMismatch(u32::try_from(place).unwrap_or(u32::MAX))
}

/// Makes `flow` the frame with which an instruction is checked: the declared one, else the incoming one.
/// If the incoming frame isn't assignable to the declared one, the error has the pc `from`, where it comes from.
/// Without either frame the error is `BadStackMap`.
fn enter(
    alloc: Global,
    from: usize,
    flows: bool,
    flow: &mut Flow,
    declared: Option<&Declared>,
) -> Result<(), Refusal>
    requires { IfSome (option_copied declared) (λ d. d.row < length flow.old.locals.kept) }
    ensures ok { IfOk result (λ _. entered from (flowing flows flow.old) (option_map (frame_kept flow.old.locals.kept) (option_copied declared.entry)) ≡ Ok (frame_seen flow.new)) }
    ensures err { IfErr result (λ r. r ≢ Refusal.NoMemory → entered from (flowing flows flow.old) (option_map (frame_kept flow.old.locals.kept) (option_copied declared.entry)) ≡ Err r) }
    ensures kept { flow.new.locals.kept ≡ flow.old.locals.kept }
{
    let Some(d) = declared else {
        return if flows {
            Ok(())
        } else {
            Err(Refusal::BadStackMap)
        };
    };
    if flows && !frame_assignable(flow, d) {
        return Err(mismatch(from));
    }
    flow.stack = d.stack.copy(alloc)?;
    flow.locals.enter(d.row);
    Ok(())
}

/// Checks that the frame after an instruction is assignable to the frame declared at one of its targets.
fn meet(declared: &[Declared], p: &Placed, target: i128, outcome: &mut Flow) -> Result<(), Refusal>
    requires order { AreInOrder declared.now }
    requires rows { AreKept outcome.old.locals.kept declared.now }
    ensures ok { IfOk result (λ _. IsMet (declared_seen outcome.old.locals.kept declared.now) p.now (frame_seen outcome.old) target) }
    ensures err { IfErr result (λ r. r ≢ Refusal.NoMemory → IsUnmet (declared_seen outcome.old.locals.kept declared.now) p.now (frame_seen outcome.old) target r) }
    ensures same { outcome.new ≡ outcome.old }
{
    let Some(d) = declared_at_target(declared, target) else {
        return Err(Refusal::BadStackMap);
    };
    if !frame_assignable(outcome, d) {
        return Err(mismatch(p.place));
    }
    Ok(())
}

/// Checks one target after another one, `before`, that fits. An equal target isn't compared again:
/// thousands of cases can have one target, whose frame has thousands of operands.
fn meet_next(
    declared: &[Declared],
    p: &Placed,
    before: i128,
    target: i128,
    outcome: &mut Flow,
) -> Result<(), Refusal>
    requires order { AreInOrder declared.now }
    requires rows { AreKept outcome.old.locals.kept declared.now }
    requires before { IsMet (declared_seen outcome.old.locals.kept declared.now) p.now (frame_seen outcome.old) before }
    ensures ok { IfOk result (λ _. IsMet (declared_seen outcome.old.locals.kept declared.now) p.now (frame_seen outcome.old) target) }
    ensures err { IfErr result (λ r. r ≢ Refusal.NoMemory → IsUnmet (declared_seen outcome.old.locals.kept declared.now) p.now (frame_seen outcome.old) target r) }
    ensures same { outcome.new ≡ outcome.old }
{
    if target == before {
        Ok(())
    } else {
        meet(declared, p, target, outcome)
    }
}

/// Checks the case targets of a switch, whose default target fits.
fn meet_cases(
    declared: &[Declared],
    p: &Placed,
    default: i128,
    outcome: &mut Flow,
) -> Result<(), Refusal>
    requires order { AreInOrder declared.now }
    requires rows { AreKept outcome.old.locals.kept declared.now }
    requires default { IsMet (declared_seen outcome.old.locals.kept declared.now) p.now (frame_seen outcome.old) default }
    ensures ok { IfOk result (λ _. branched_cases (declared_seen outcome.old.locals.kept declared.now) p.now (frame_seen outcome.old) (cases_of p.now.instruction) ≡ Ok (flows p.now (frame_seen outcome.old))) }
    ensures err { IfErr result (λ r. r ≢ Refusal.NoMemory → branched_cases (declared_seen outcome.old.locals.kept declared.now) p.now (frame_seen outcome.old) (cases_of p.now.instruction) ≡ Err r) }
    ensures same { outcome.new ≡ outcome.old }
{
    let mut before = default;
    for i in 0..p.instruction.case_count() {
        let target = p.instruction.case_target(i);
        meet_next(declared, p, before, target, outcome)?;
        before = target;
    }
    Ok(())
}

/// Checks all targets of an instruction.
fn meet_targets(declared: &[Declared], p: &Placed, outcome: &mut Flow) -> Result<(), Refusal>
    requires order { AreInOrder declared.now }
    requires rows { AreKept outcome.old.locals.kept declared.now }
    ensures ok { IfOk result (λ _. branched (declared_seen outcome.old.locals.kept declared.now) p.now (frame_seen outcome.old) (target_of p.now.instruction) (cases_of p.now.instruction) ≡ Ok (flows p.now (frame_seen outcome.old))) }
    ensures err { IfErr result (λ r. r ≢ Refusal.NoMemory → branched (declared_seen outcome.old.locals.kept declared.now) p.now (frame_seen outcome.old) (target_of p.now.instruction) (cases_of p.now.instruction) ≡ Err r) }
    ensures same { outcome.new ≡ outcome.old }
{
    match p.instruction.target() {
        Some(target) => {
            meet(declared, p, target, outcome)?;
            meet_cases(declared, p, target, outcome)
        }
        None => Ok(()),
    }
}

/// Checks all targets of an instruction. Returns whether its frame flows to the next instruction.
fn leave(declared: &[Declared], p: &Placed, outcome: &mut Flow) -> Result<bool, Refusal>
    requires order { AreInOrder declared.now }
    requires rows { AreKept outcome.old.locals.kept declared.now }
    ensures ok { IfOk result (λ flows. branched (declared_seen outcome.old.locals.kept declared.now) p.now (frame_seen outcome.old) (target_of p.now.instruction) (cases_of p.now.instruction) ≡ Ok (flowing flows outcome.new)) }
    ensures err { IfErr result (λ r. r ≢ Refusal.NoMemory → branched (declared_seen outcome.old.locals.kept declared.now) p.now (frame_seen outcome.old) (target_of p.now.instruction) (cases_of p.now.instruction) ≡ Err r) }
    ensures same { outcome.new ≡ outcome.old }
{
    meet_targets(declared, p, outcome)?;
    Ok(p.instruction.falls_through())
}

/// Returns the method that an instruction calls; `None` if it isn't a call or doesn't resolve.
fn called_by<'c>(calls: &'c [Called], p: &Placed) -> Option<&'c Callee>
    ensures { (v : ClassView) → AreRising calls.now → callee_in calls.now p.now.place ≡ called_by v p.now.instruction → IsCalleeOf v p.now.instruction (option_copied result) }
{
    match p.instruction {
        Instruction::Invoke(..) => callee_of(calls, p.place),
        _ => None,
    }
}

/// Checks one instruction. `flows` says whether `flow` comes in, from the instruction at the pc `from`.
/// Makes `flow` the frame after the instruction, and returns whether it flows to the next one.
fn advance(
    alloc: Global,
    environment: &Environment,
    view: &MemberView<'_>,
    declared: &[Declared],
    callee: Option<&Callee>,
    p: &Placed,
    from: usize,
    flows: bool,
    flow: &mut Flow,
) -> Result<bool, Refusal>
    requires order { AreInOrder declared.now }
    requires rows { AreKept flow.old.locals.kept declared.now }
    requires callee { IsCalleeOf view.now p.now.instruction (option_copied callee) }
    ensures ok { IfOk result (λ next. advanced view.now environment.now (declared_seen flow.old.locals.kept declared.now) p.now from (flowing flows flow.old) ≡ Ok (flowing next flow.new)) }
    ensures err { IfErr result (λ r. r ≢ Refusal.NoMemory → advanced view.now environment.now (declared_seen flow.old.locals.kept declared.now) p.now from (flowing flows flow.old) ≡ Err r) }
    ensures kept { flow.new.locals.kept ≡ flow.old.locals.kept }
{
    enter(alloc, from, flows, flow, declared_at(declared, p.place))?;
    if apply(&p.instruction, environment, view, callee, flow)? {
        leave(declared, p, flow)
    } else {
        Err(mismatch(p.place))
    }
}

/// Checks the instructions in order, in one pass from the method's initial frame.
fn pass(
    alloc: Global,
    environment: &Environment,
    view: &MemberView<'_>,
    code: &Code,
    declared: &[Declared],
    calls: &[Called],
    flow: &mut Flow,
) -> Result<(), Refusal>
    requires order { AreInOrder declared.now }
    requires rows { AreKept flow.old.locals.kept declared.now }
    requires calls { AreCallsOf view.now code.now calls.now }
    requires first { frame_seen flow.old ≡ first_frame environment.now }
    ensures ok { IfOk result (λ _. passed view.now environment.now (declared_seen flow.old.locals.kept declared.now) 0 (Some (first_frame environment.now)) code.now ≡ Ok tt) }
    ensures err { IfErr result (λ r. r ≢ Refusal.NoMemory → passed view.now environment.now (declared_seen flow.old.locals.kept declared.now) 0 (Some (first_frame environment.now)) code.now ≡ Err r) }
    ensures kept { flow.new.locals.kept ≡ flow.old.locals.kept }
{
    let mut from = 0;
    let mut flows = true;
    for p in code.as_slice() {
        let callee = called_by(calls, p);
        flows = advance(
            alloc,
            environment,
            view,
            declared,
            callee,
            p,
            from,
            flows,
            flow,
        )?;
        from = p.place;
    }
    if flows {
        Err(Refusal::FallsOff)
    } else {
        Ok(())
    }
}

fn places_of(alloc: Global, declared: &[Declared]) -> Result<Vec<usize>, AllocError>
    requires { AreInOrder declared.now }
    ensures { IfOk result (λ places. (rows : List (List JType)) → ArePlacesOf (declared_seen rows declared.now) places.items) }
{
    let mut places = Vec::new(alloc);
    for d in declared {
        places.push(d.place)?;
    }
    Ok(places)
}

/// Type checks one method: its environment, its StackMapTable attributes, its instructions and the methods that these call.
/// The error is `BadStackMap`, `TypeMismatch` with the first pc that fails, or `FallsOff`, besides `NoMemory`.
pub fn check_method(
    alloc: Global,
    number: usize,
    is_process: bool,
    start: MethodStart,
    tables: &[&[u8]],
    code: Code,
    calls: Vec<Called>,
    view: &MemberView<'_>,
) -> Result<Typed, Refusal>
    requires calls { AreCallsOf view.now code calls.items }

    // The result has the given method.
    ensures method { IfOk result (λ t. (t.number ≡ number) × (t.is_process ≡ is_process)) }
    ensures body { IfOk result (λ t. (t.environment ≡ start) × (t.code ≡ code)) }

    // The method is well typed with the frames that its attributes declare. An error is justified: the frames are bad,
    // or they aren't and the error has the first pc that fails, or the method falls off its end.
    ensures typed { IfOk result (λ _. (ds : List (ℕ × Frame)) × IsDeclared view.now start code (map (λ t. t.now) tables.now) ds × IsWellTyped view.now (record { environment = start; code = code; declared = ds })) }
    ensures refused { IfErr result (CheckRefuses view.now start code (map (λ t. t.now) tables.now)) }

    // An instruction starts at pc 0. The result has the calls of its code, and the pcs of the declared frames.
    ensures starts { IfOk result (λ t. IsSome (at_place t.code 0)) }
    ensures calls { IfOk result (λ t. AreCallsOf view.now t.code t.calls.items) }
    ensures declared { IfOk result (λ t. (ds : List (ℕ × Frame)) × IsDeclared view.now start code (map (λ t. t.now) tables.now) ds × ArePlacesOf ds t.declared.items) }
{
    let frames = read_frames(alloc, &start, tables, &code, view.class())?;
    let Frames {
        declared,
        first: mut flow,
    } = frames;
    if lacks_frame(&code, &declared) {
        return Err(Refusal::BadStackMap);
    }
    pass(
        alloc,
        start.environment(),
        view,
        &code,
        &declared,
        &calls,
        &mut flow,
    )?;
    let declared = places_of(alloc, &declared)?;
    Ok(Typed {
        number,
        is_process,
        environment: start.into_environment(),
        code,
        calls,
        declared,
    })
}
