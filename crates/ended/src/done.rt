//! The end of an invocation, and the result of one step.

use jtypes::{Effect, LoadAnswer, Outcome};

/// The end of an invocation: its outcome, its effect on the entry, the loader's answer if the loader was called,
/// the number of executed instructions, and the number of allocated array words.
///
/// `untouched` is true if the invocation called neither `setValue` nor `remove`, or threw and so discarded their changes.
/// It distinguishes a `setValue` of the current value, whose effect is `Keep`, from no call.
#[derive(Clone, Copy, Debug, PartialEq, Eq)]
pub struct Done {
    pub outcome: Outcome,
    pub effect: Effect,
    pub untouched: bool,
    pub asked: Option<LoadAnswer>,
    pub steps: u32,
    pub words: u32,
}

/// The result of a step: the invocation continues, or it has ended.
#[derive(Clone, Copy, PartialEq, Eq)]
pub enum Going {
    Going,
    Ended(Done),
}
