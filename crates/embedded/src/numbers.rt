//! The numbers of the C interface: the structs of clients/c/jentry.h.

ghost use Rattle.std.specs.Prelude.{◌≡◌};
ghost use Rattle.sha1.specs.Sha1.{sha1};
ghost use Rattle.jtypes.specs.Entry.{after_effect};
ghost use Rattle.embedded.specs.Numbers.{accepted_in, refused_in, outcome_in, effect_in, text_in, left_in, done_in, before_in, not_run};

use crate::engine::Defined;
use jtypes::{Arg, Effect, JavaFault, Outcome, Refusal};
use machine::Done;
use sha1::Sha1;

/// The outcome of a call for whose number there is no class.
pub const NO_CLASS: u32 = 4;
/// The outcome of a call with more than eight arguments.
pub const MANY_ARGUMENTS: u32 = 5;
/// The outcome of a call with an invalid argument.
pub const NO_ARGUMENT: u32 = 6;

/// A verdict. If `refusal` is 0 the class is accepted: `number` is its number,
/// and `steps`, `words`, `slots` and `depth` are the bounds of its runs.
/// Otherwise `refusal` is the number of the refusal, and `detail` its detail. `id` is the SHA-1 of the bytes.
#[repr(C)]
#[derive(Clone, Copy, Debug, PartialEq, Eq)]
pub struct VerdictNumbers {
    pub refusal: u32,
    pub detail: u32,
    pub number: u32,
    pub steps: u32,
    pub words: u32,
    pub slots: u32,
    pub depth: u32,
    pub id: [u8; 20],
}

/// An argument. The kind is null (0), a Long (1) or an Integer (2), whose value must fit 32 bits.
#[repr(C)]
#[derive(Clone, Copy, Debug, PartialEq, Eq)]
pub struct ArgNumbers {
    pub kind: u32,
    pub unused: u32,
    pub value: i64,
}

/// A call of the class with this number. If `present` is 1 there is an entry with the value `before`, otherwise there is none.
#[repr(C)]
#[derive(Clone, Copy, Debug, PartialEq, Eq)]
pub struct CallNumbers {
    pub number: u32,
    pub present: u32,
    pub key: i64,
    pub before: i64,
}

/// The end of a call.
/// The outcome is null (0), a Long (1), an Integer (2), a Boolean (7), an exception (3, with its number as `value`),
/// or why nothing was run (4 to 6).
/// The effect is to keep (0), put (1) or delete (2) the entry; `put` is the value that is put.
/// `left` is how the entry is left: untouched (0), set (1) or removed (2). A set of the value that was there has the effect to keep.
/// `text` is 0 unless the processor threw the exception itself. Then it is the index of the exception's text in the class's constant pool,
/// or -1 without a text.
#[repr(C)]
#[derive(Clone, Copy, Debug, PartialEq, Eq)]
pub struct DoneNumbers {
    pub outcome: u32,
    pub effect: u32,
    pub value: i64,
    pub put: i64,
    pub steps: u32,
    pub words: u32,
    pub left: u32,
    pub text: i32,
}

/// Returns the verdict on an accepted class.
pub(crate) fn accepted(bytes: &[u8], defined: Defined) -> VerdictNumbers
    ensures { result ≡ accepted_in defined (sha1 bytes.now) }
{
    let bounds = defined.bounds;
    VerdictNumbers {
        refusal: 0,
        detail: 0,
        number: defined.number,
        steps: bounds.steps,
        words: bounds.words,
        slots: bounds.slots,
        depth: bounds.depth,
        id: Sha1::digest(bytes),
    }
}

/// Returns the verdict on a refused class.
pub fn refused(bytes: &[u8], refusal: Refusal) -> VerdictNumbers
    ensures { result ≡ refused_in refusal (sha1 bytes.now) }
{
    VerdictNumbers {
        refusal: u32::from(refusal.number()),
        detail: refusal.detail(),
        number: 0,
        steps: 0,
        words: 0,
        slots: 0,
        depth: 0,
        id: Sha1::digest(bytes),
    }
}

/// Returns the entry before a call.
pub(crate) fn before_of(call: &CallNumbers) -> Option<i64>
    ensures { result ≡ before_in call.now }
{
    if call.present == 1 {
        Some(call.before)
    } else {
        None
    }
}

/// Returns the text of an exception that the processor throws itself: its index, or -1 without one. Returns 0 for any other exception.
fn text_number(fault: JavaFault) -> i32
    ensures { result ≡ text_in fault }
{
    match fault {
        JavaFault::Thrown(_, 0) => -1,
        JavaFault::Thrown(_, text) => i32::from(text),
        _ => 0,
    }
}

/// Returns the number of an outcome, its value, and the text of an exception.
fn outcome_numbers(outcome: Outcome) -> (u32, i64, i32)
    ensures { result ≡ outcome_in outcome }
{
    match outcome {
        Outcome::Returned(Arg::Null) => (0, 0, 0),
        Outcome::Returned(Arg::Long(value)) => (1, value, 0),
        Outcome::Returned(Arg::Integer(value)) => (2, i64::from(value), 0),
        Outcome::Returned(Arg::Boolean(value)) => (7, i64::from(value), 0),
        Outcome::Threw(fault) => (3, i64::from(fault.number()), text_number(fault)),
    }
}

/// Returns the number of an effect, and the value that it puts, or 0.
fn effect_numbers(effect: Effect) -> (u32, i64)
    ensures { result ≡ effect_in effect }
{
    match effect {
        Effect::Keep => (0, 0),
        Effect::Put(value) => (1, value),
        Effect::Delete => (2, 0),
    }
}

/// Returns how the entry is left: untouched (0), set (1) or removed (2).
fn left_numbers(done: &Done, before: Option<i64>) -> u32
    ensures { result ≡ left_in done.now.untouched (after_effect done.now.effect before) }
{
    if done.untouched {
        return 0;
    }
    match (done.effect, before) {
        (Effect::Put(_), _) | (Effect::Keep, Some(_)) => 1,
        (Effect::Delete, _) | (Effect::Keep, None) => 2,
    }
}

/// Returns the end of a run on this entry.
pub(crate) fn done_numbers(done: Done, before: Option<i64>) -> DoneNumbers
    ensures { result ≡ done_in before done }
{
    let (outcome, value, text) = outcome_numbers(done.outcome);
    let (effect, put) = effect_numbers(done.effect);
    DoneNumbers {
        outcome,
        effect,
        value,
        put,
        steps: done.steps,
        words: done.words,
        left: left_numbers(&done, before),
        text,
    }
}

/// Returns the end of a call that was not run, with the reason as its outcome.
pub fn not_run(reason: u32) -> DoneNumbers
    ensures { result ≡ not_run reason }
{
    DoneNumbers {
        outcome: reason,
        effect: 0,
        value: 0,
        put: 0,
        steps: 0,
        words: 0,
        left: 0,
        text: 0,
    }
}
