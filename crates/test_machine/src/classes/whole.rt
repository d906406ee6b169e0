//! Invocations of small classes, each run whole.

use super::{MADE_42, THREW, class_named};
use jtypes::{Arg, Args, Effect, JavaFault, NoLoader, Outcome};
use machine::{Done, Workspace, run};
use std::alloc::Global;
use verify::Verified;

/// Invokes a class on key 7 twice in one workspace, with one of these entries each; returns `None` when out of memory.
fn run_twice(
    alloc: Global,
    class: &Verified,
    entries: [Option<i64>; 2],
    args: &Args,
) -> Option<[Done; 2]> {
    match Workspace::new(alloc) {
        Ok(mut workspace) => {
            let first = run(class, 7, entries[0], args, &mut workspace, &NoLoader);
            let second = run(class, 7, entries[1], args, &mut workspace, &NoLoader);
            Some([first, second])
        }
        Err(_) => None,
    }
}

/// Does the same with the class of this name, without arguments.
fn done_twice(alloc: Global, name: &str, entries: [Option<i64>; 2]) -> Option<[Done; 2]> {
    match class_named(alloc, name) {
        Some(class) => run_twice(alloc, &class, entries, &Args::none()),
        None => None,
    }
}

#[test]
fn plus_adds_one(rt: HostRuntime) {
    let done = done_twice(rt.alloc(), "Plus", [Some(41), Some(41)]);
    assert_eq!(rt; done, Some([MADE_42, MADE_42]));
}

#[test]
fn an_exception_changes_nothing(rt: HostRuntime) {
    let done = done_twice(rt.alloc(), "NestFault", [Some(41), None]);
    assert_eq!(rt; done, Some([THREW, THREW]));
}

/// Returns the outcomes of two invocations, and their effects on the entry.
fn outcomes(done: Option<[Done; 2]>) -> Option<[(Outcome, Effect); 2]> {
    match done {
        Some(done) => Some([
            (done[0].outcome, done[0].effect),
            (done[1].outcome, done[1].effect),
        ]),
        None => None,
    }
}

#[test]
fn an_entry_is_removed(rt: HostRuntime) {
    let removed = (Outcome::Returned(Arg::Long(3)), Effect::Delete);
    let never_there = (Outcome::Returned(Arg::Long(2)), Effect::Keep);
    let done = done_twice(rt.alloc(), "SetRemove", [Some(5), None]);
    assert_eq!(rt; outcomes(done), Some([removed, never_there]));
}

/// The result of CallArr, whose array occupies all words.
const MADE_65535: Done = Done {
    outcome: Outcome::Returned(Arg::Long(65_535)),
    effect: Effect::Keep,
    untouched: true,
    asked: None,
    steps: 9,
    words: 65_536,
};

#[test]
fn all_words_are_there_for_the_next_run(rt: HostRuntime) {
    let done = done_twice(rt.alloc(), "CallArr", [None, None]);
    assert_eq!(rt; done, Some([MADE_65535, MADE_65535]));
}

/// Classes with a switch on the entry's value, each with two values, and what it returns for them in how many steps.
static SWITCHED: [(&str, [i64; 2], [(Arg, u32); 2]); 4] = [
    ("Table", [1, 2], [(Arg::Long(1), 9), (Arg::Null, 8)]),
    ("Table", [3, 0], [(Arg::Long(0), 9), (Arg::Long(0), 9)]),
    ("Look", [-5, 9], [(Arg::Long(1), 9), (Arg::Null, 8)]),
    ("Look", [5, 10], [(Arg::Long(0), 9), (Arg::Long(0), 9)]),
];

/// Returns the outcomes and the steps of two invocations.
fn told(done: Option<[Done; 2]>) -> Option<[(Outcome, u32); 2]> {
    match done {
        Some(done) => Some([
            (done[0].outcome, done[0].steps),
            (done[1].outcome, done[1].steps),
        ]),
        None => None,
    }
}

#[test]
fn switches_lead_where_their_keys_do(rt: HostRuntime) {
    for (name, values, [first, second]) in SWITCHED {
        let done = done_twice(rt.alloc(), name, [Some(values[0]), Some(values[1])]);
        let want = [
            (Outcome::Returned(first.0), first.1),
            (Outcome::Returned(second.0), second.1),
        ];
        assert!(rt; told(done) == Some(want), "{name}");
    }
}

/// Returns the outcome and the steps of an invocation of Counter on the entry 41 with these arguments.
fn counted(alloc: Global, args: &[Arg]) -> Option<(Outcome, u32)> {
    let args = Args::of(args)?;
    match class_named(alloc, "Counter") {
        Some(class) => {
            let [done, _] = run_twice(alloc, &class, [Some(41), Some(41)], &args)?;
            Some((done.outcome, done.steps))
        }
        None => None,
    }
}

/// Arguments of Counter, each with the outcome and the steps.
static COUNTED: [(&[Arg], Outcome, u32); 4] = [
    (&[Arg::Long(1)], Outcome::Returned(Arg::Long(42)), 24),
    (&[Arg::Integer(1)], Outcome::Threw(JavaFault::ClassCast), 14),
    (&[Arg::Null], Outcome::Threw(JavaFault::NullPointer), 15),
    (&[], Outcome::Threw(JavaFault::ArrayIndexOutOfBounds), 13),
];

#[test]
fn arguments_are_given(rt: HostRuntime) {
    for (args, outcome, steps) in COUNTED {
        assert_eq!(rt; counted(rt.alloc(), args), Some((outcome, steps)));
    }
}
