//! The bounds of a class, and their limits.

ghost use Rattle.std.specs.Prelude.{◌≡◌, ◌≢◌, ℕ, ◌<◌, ◌-◌, ◌^◌, Bool, false, length, get_or, Err, IsTrue, IsFalse, IfOk, IfErr};
ghost use Rattle.jtypes.specs.declared.refusal.Refusal.{Refusal};
ghost use Rattle.typecheck.specs.Typing.{Class, IsProcessOf};
ghost use Rattle.typecheck.specs.declared.typed.Typed.{Typed};
ghost use Rattle.bounds.specs.Lengths.{HaveLengths, OneLacksLength};
ghost use Rattle.bounds.specs.Told.{AreCostsOf};
ghost use Rattle.bounds.specs.Limits.{IsLimit, IsOfBounds, IsWithinLimits, Judges};
ghost use Rattle.bounds.specs.Table.{Costs, IsTable, LeadsOn};
ghost use Rattle.bounds.specs.Rows.{AreRowsOf, AreKnown, AreBelow, AreGrounded, AreAllKnown, AreNotRecursive, StaysKnown, StaysGrounded, Learns, LearnsUpTo, OneIsUnknown, IsCircleIn, IsAnswerFor};
ghost use Rattle.jtypes.specs.Profile.{Third};

use crate::costs::{Cost, greatest, is_ready, known_at};
use crate::lengths::all_have_lengths;
use jtypes::Refusal;
use std::alloc::Global;
use typecheck::Typed;

/// The maximum cost of an invocation of a class.
#[derive(Clone, Copy, Debug, PartialEq, Eq)]
pub struct Bounds {
    /// Executed instructions.
    pub steps: u32,
    /// Words of arrays: n + 1 for an array of n elements.
    pub words: u32,
    /// Slots of nested activations: their locals and operands.
    pub slots: u32,
    /// Nested activations.
    pub depth: u32,
}

/// The limit of executed instructions in an invocation.
pub const STEP_LIMIT: u32 = 4_000_000;
/// The limit of words of its arrays.
pub const WORD_LIMIT: u32 = 65_536;
/// The limit of slots of its nested activations.
pub const SLOT_LIMIT: u32 = 8_192;
/// The limit of nested activations.
pub const DEPTH_LIMIT: u32 = 64;

/// Computes the cost of a method whose callees' costs are known. Returns whether it wasn't known before.
fn learn_one(alloc: Global, method: &Typed, known: &mut [Option<Cost>]) -> Result<bool, Refusal>
    requires { method.now.number < length known.old }
    ensures table { StaysKnown method.now known.old known.new }
    ensures grounded { StaysGrounded method.now known.old known.new }
    ensures ok { IfOk result (λ b. Learns method.now b known.old known.new) }
    ensures err { IfErr result (λ r. r ≡ Refusal.NoMemory) }
{
    if known_at(known, method.number).is_some() || !is_ready(method, known) {
        return Ok(false);
    }
    let cost = greatest(alloc, method, known)?;
    known[method.number] = Some(cost);
    Ok(true)
}

/// Computes the costs of the methods whose callees' costs are known, in one round. Returns whether any is new.
fn learn(alloc: Global, methods: &[Typed], known: &mut [Option<Cost>]) -> Result<bool, Refusal>
    requires { AreBelow methods.now (length known.old) }
    ensures table { (c : Class) (set : ℕ → Bool) (t : Costs) → LeadsOn c set → IsTable c set t → AreRowsOf c set methods.now → AreKnown t known.old → AreKnown t known.new }
    ensures grounded { (c : Class) (set : ℕ → Bool) → AreRowsOf c set methods.now → AreGrounded c known.old → AreGrounded c known.new }
    ensures ok { IfOk result (λ b. LearnsUpTo methods.now (length methods.now) b known.old known.new) }
    ensures err { IfErr result (λ r. r ≡ Refusal.NoMemory) }
{
    let mut learnt = false;
    for method in methods {
        if learn_one(alloc, method, known)? {
            learnt = true;
        }
    }
    Ok(learnt)
}

/// Returns the greatest index of a method plus 1, or 0 without methods.
fn count_of(methods: &[Typed]) -> usize
    ensures { result < 2 ^ 64 - 1 → AreBelow methods.now result }
{
    let mut count = 0usize;
    for method in methods {
        count = count.max(method.number.saturating_add(1));
    }
    count
}

/// Checks that the cost of each method is known.
fn are_all_known(methods: &[Typed], known: &[Option<Cost>]) -> bool
    ensures all { IsTrue result → AreAllKnown methods.now known.now }
    ensures one { IsFalse result → OneIsUnknown methods.now known.now }
{
    for method in methods {
        if known_at(known, method.number).is_none() {
            return false;
        }
    }
    true
}

/// Returns the costs of the methods, by index. The error is `Recursive` if own calls form a cycle.
fn costs_of(alloc: Global, methods: &[Typed]) -> Result<Vec<Option<Cost>>, Refusal>
    ensures table { IfOk result (λ known. (c : Class) (set : ℕ → Bool) (t : Costs) → LeadsOn c set → IsTable c set t → AreRowsOf c set methods.now → AreKnown t known.items) }
    ensures grounded { IfOk result (λ known. (c : Class) (set : ℕ → Bool) → AreRowsOf c set methods.now → AreGrounded c known.items) }
    ensures all { IfOk result (λ known. AreAllKnown methods.now known.items) }
    ensures err { IfErr result (λ r. r ≢ Refusal.NoMemory → (r ≡ Refusal.Recursive) × IsCircleIn methods.now) }
{
    let mut known = vec![in alloc; None; count_of(methods)]?;
    let mut goes_on = true;
    while goes_on {
        goes_on = learn(alloc, methods, &mut known)?;
    }
    if are_all_known(methods, &known) {
        Ok(known)
    } else {
        Err(Refusal::Recursive)
    }
}

/// Returns the bounds if they are within the limits, else the refusal of a limit.
fn within_limits(cost: Cost) -> Result<Bounds, Refusal>
    ensures { Judges cost result }
{
    if cost.steps > STEP_LIMIT {
        Err(Refusal::StepLimit)
    } else if cost.words > WORD_LIMIT {
        Err(Refusal::WordLimit)
    } else if cost.slots > SLOT_LIMIT || cost.depth > DEPTH_LIMIT {
        Err(Refusal::FrameLimit)
    } else {
        Ok(Bounds {
            steps: cost.steps,
            words: cost.words,
            slots: cost.slots,
            depth: cost.depth,
        })
    }
}

/// Returns the bounds of a class, the maximum over all paths of `process`, from its methods except the constructor.
pub fn bound(alloc: Global, methods: &[Typed]) -> Result<Bounds, Refusal>
    ensures limits { IfOk result (IsWithinLimits Third) }
    // For typed methods of a class: the bounds are the class's, and some path exceeds a limit that is refused.
    ensures answer { (c : Class) (set : ℕ → Bool) → LeadsOn c set → AreRowsOf c set methods.now → IsAnswerFor c result }
    // For all of its typed methods, the class is recursive if the error is `Recursive`.
    ensures recursive { IfErr result (λ r. r ≡ Refusal.Recursive → IsCircleIn methods.now) }
    // With bounds, each `newarray` has its length, and no own calls of these methods form a cycle.
    ensures lengths { IfOk result (λ _. HaveLengths methods.now) }
    ensures ordered { IfOk result (λ _. AreNotRecursive methods.now) }
    // The second also holds if a limit is refused, and the first for every error except `LengthNotConstant`, which is checked first.
    ensures limit { IfErr result (λ r. IsLimit r → AreNotRecursive methods.now) }
    ensures judged { IfErr result (λ r. r ≢ Refusal.LengthNotConstant → HaveLengths methods.now) }
    ensures refusal { IfErr result IsOfBounds }
    // The remaining refusals: a `newarray` has no length, or there is no `process`.
    ensures lacking { result ≡ Err Refusal.LengthNotConstant → OneLacksLength methods.now }
    ensures process { result ≡ Err Refusal.NoProcess → (i : ℕ) (d : Typed) → i < length methods.now → (get_or methods.now i d).is_process ≡ false }
{
    if !all_have_lengths(methods) {
        return Err(Refusal::LengthNotConstant);
    }
    let known = costs_of(alloc, methods)?;
    for method in methods {
        if method.is_process {
            if let Some(cost) = known_at(&known, method.number) {
                return within_limits(cost);
            }
        }
    }
    Err(Refusal::NoProcess)
}

/// Returns the costs of a class's methods except the constructor, by index, without a check of the limits.
/// The error is `Recursive` if own calls form a cycle.
pub fn costs_by_number(alloc: Global, methods: &[Typed]) -> Result<Vec<Option<Cost>>, Refusal>
    // For typed methods of a class: each cost is the maximum of the method's paths, saturated at 32 bits.
    ensures costs { IfOk result (λ known. (c : Class) (set : ℕ → Bool) → LeadsOn c set → AreRowsOf c set methods.now → AreCostsOf c methods.now known.items) }
    ensures all { IfOk result (λ known. AreAllKnown methods.now known.items) }
    ensures err { IfErr result (λ r. r ≢ Refusal.NoMemory → (r ≡ Refusal.Recursive) × IsCircleIn methods.now) }
{
    costs_of(alloc, methods)
}
