//! Rounds of the same work, measured in CPU time of this thread.

ghost use Rattle.std.specs.Prelude.{◌≡◌, ◌*◌, ◌/◌, ◌<◌, length};
ghost use Rattle.std.specs.Duration.{as_nanos};

use crate::line::Call;
use crate::report::Failure;
use jtypes::NoLoader;
use machine::{Done, Workspace, run};
use std::alloc::Global;
use std::time::{CpuClock, Duration};
use verify::{Verified, verify};

/// The number of rounds.
pub const ROUNDS: usize = 9;

/// The time of one unit of work, in tenths of a nanosecond, in the fastest round and in the median one.
#[derive(Clone, Copy, PartialEq, Eq)]
pub struct Times {
    pub least: u128,
    pub median: u128,
}

/// Returns the time of one of `count` units of work, in tenths of a nanosecond.
pub fn tenths(time: Duration, count: u32) -> u128
    requires { 0 < count }
    ensures { result ≡ as_nanos time * 10 / count }
{
    time.as_nanos() * 10 / u128::from(count)
}

/// Returns the least and the median of these times, which it sorts.
pub fn times_of(times: &mut [u128]) -> Times
    requires { 0 < length times.old }
{
    times.sort_unstable();
    Times {
        least: times[0],
        median: times[times.len() / 2],
    }
}

/// Runs a call `count` times. Returns the instructions of all runs.
fn run_often(class: &Verified, call: &Call, count: u32, workspace: &mut Workspace) -> u64 {
    let mut steps = 0u64;
    for _ in 0..count {
        let done = run(
            class,
            call.key,
            call.before,
            &call.args,
            workspace,
            &NoLoader,
        );
        steps = steps.wrapping_add(u64::from(done.steps));
    }
    steps
}

/// Verifies a class `count` times. Returns how often it is accepted.
fn verify_often(alloc: Global, bytes: &[u8], count: u32) -> u64 {
    let mut accepted = 0u64;
    for _ in 0..count {
        if verify(alloc, bytes).is_ok() {
            accepted = accepted.wrapping_add(1);
        }
    }
    accepted
}

/// Returns the CPU time of this thread.
pub fn now(clock: &impl CpuClock) -> Result<Duration, Failure> {
    match clock.thread_cpu_time() {
        Ok(time) => Ok(time),
        Err(_) => Err(Failure::NoClock),
    }
}

/// Measures all rounds. Returns the times, and the sum of the results of `work`.
pub fn rounds<F: FnMut(u32) -> u64>(
    clock: &impl CpuClock,
    count: u32,
    mut work: F,
) -> Result<(Times, u64), Failure>
    requires counted { 0 < count }
    requires callable { F.IsAlwaysCallable work }
{
    let mut times = [0u128; ROUNDS];
    let mut told = 0u64;
    for time in times.iter_mut() {
        let begin = now(clock)?;
        told = told.wrapping_add(work(count));
        *time = tenths(now(clock)?.saturating_sub(begin), count);
    }
    Ok((times_of(&mut times), told))
}

/// Returns the times of running a call, and the instructions of all runs.
pub fn runs(
    clock: &impl CpuClock,
    class: &Verified,
    call: &Call,
    count: u32,
    workspace: &mut Workspace,
) -> Result<(Times, u64), Failure>
    requires { 0 < count }
{
    rounds(clock, count, |n| run_often(class, call, n, workspace))
}

/// Returns the times of verifying a class, and how often it is accepted.
pub fn verdicts(
    clock: &impl CpuClock,
    alloc: Global,
    bytes: &[u8],
    count: u32,
) -> Result<(Times, u64), Failure>
    requires { 0 < count }
{
    rounds(clock, count, |n| verify_often(alloc, bytes, n))
}
