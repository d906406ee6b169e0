//! Invocations of small classes, step by step.

ghost use Rattle.std.specs.Prelude.{false};
ghost use Rattle.verdict.specs.Machine.{State};
ghost use Rattle.machine.specs.Running.{IsRunningWith};

use super::{MADE_42, THREW, class_named};
use jtypes::{Args, NoLoader};
use machine::{Done, Going, Workspace, one_state_runs, run};
use std::alloc::Global;
use verify::Verified;

/// Steps the running invocation until it ends. Returns the steps and the result, `None` if it has not ended after `most` steps.
fn stepped(class: &Verified, workspace: &mut Workspace, most: u32) -> Option<(u32, Done)>
    requires { (s : State) × IsRunningWith false class.now s workspace.old }
{
    for count in 1..=most {
        match workspace.step(class, &NoLoader) {
            Going::Going => {}
            Going::Ended(done) => return Some((count, done)),
        }
    }
    None
}

/// Starts an invocation on key 7, and steps it until it ends, at most `most` times.
fn started(alloc: Global, class: &Verified, before: Option<i64>, most: u32) -> Option<(u32, Done)> {
    match Workspace::new(alloc) {
        Ok(mut workspace) => {
            workspace.start(class, 7, before, &Args::none());
            stepped(class, &mut workspace, most)
        }
        Err(_) => None,
    }
}

#[test]
fn plus_adds_one_in_14_steps(rt: HostRuntime) {
    let Some(plus) = class_named(rt.alloc(), "Plus") else {
        panic!(rt; "no class");
    };
    let told = started(rt.alloc(), &plus, Some(41), 14);
    assert_eq!(rt; told, Some((14, MADE_42)));
    assert_eq!(rt; started(rt.alloc(), &plus, Some(41), 13), None);
}

#[test]
fn an_exception_ends_an_invocation(rt: HostRuntime) {
    let Some(class) = class_named(rt.alloc(), "NestFault") else {
        panic!(rt; "no class");
    };
    let told = started(rt.alloc(), &class, None, 10);
    assert_eq!(rt; told, Some((10, THREW)));
}

/// Steps an invocation of the first class at most `most` times, and then runs the second class in the same workspace.
fn left_and_run(
    alloc: Global,
    first: &Verified,
    most: u32,
    second: &Verified,
) -> Option<(Option<(u32, Done)>, Done)> {
    match Workspace::new(alloc) {
        Ok(mut workspace) => {
            workspace.start(first, 7, Some(41), &Args::none());
            let told = stepped(first, &mut workspace, most);
            one_state_runs(first, &workspace);
            let done = run(
                second,
                7,
                Some(41),
                &Args::none(),
                &mut workspace,
                &NoLoader,
            );
            Some((told, done))
        }
        Err(_) => None,
    }
}

/// Does the same with the classes of these names.
fn left_and_run_of(
    alloc: Global,
    first: &str,
    most: u32,
    second: &str,
) -> Option<(Option<(u32, Done)>, Done)> {
    match (class_named(alloc, first), class_named(alloc, second)) {
        (Some(first), Some(second)) => left_and_run(alloc, &first, most, &second),
        _ => None,
    }
}

#[test]
fn a_run_is_not_changed_by_one_left_in_a_call(rt: HostRuntime) {
    let told = left_and_run_of(rt.alloc(), "NestFault", 8, "Plus");
    assert_eq!(rt; told, Some((None, MADE_42)));
}

#[test]
fn an_invocation_starts_anew(rt: HostRuntime) {
    let told = left_and_run_of(rt.alloc(), "Plus", 13, "Plus");
    assert_eq!(rt; told, Some((None, MADE_42)));
}
