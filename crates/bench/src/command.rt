//! Execution of one command.

use crate::alone::on_stripe;
use crate::calls::{LEAST_KEYS, MOST_KEYS, calls};
use crate::file::read_class;
use crate::line::{Call, Request, Work, parse};
use crate::measure::{runs, verdicts};
use crate::report::{Failure, cost, of_calls, of_rounds, of_runs, of_stripe, of_verdicts};
use crate::rounds::rounds;
use jtypes::NoLoader;
use machine::{Workspace, run};
use std::alloc::Global;
use std::rt::Files;
use std::sync::Wait;
use std::thread::Threads;
use std::time::{Clock, CpuClock};
use verify::{Verified, verify};

fn running(
    clock: &impl CpuClock,
    alloc: Global,
    class: &Verified,
    call: &Call,
    count: u32,
) -> Result<String, Failure> {
    let mut workspace = Workspace::new(alloc)?;
    let done = run(
        class,
        call.key,
        call.before,
        &call.args,
        &mut workspace,
        &NoLoader,
    );
    if count == 0 {
        return Ok(cost(alloc, done.steps, done.words)?);
    }
    let (times, all) = runs(clock, class, call, count, &mut workspace)?;
    Ok(of_runs(alloc, times, done.steps, all)?)
}

fn verifying(
    clock: &impl CpuClock,
    alloc: Global,
    bytes: &[u8],
    count: u32,
) -> Result<String, Failure> {
    if count == 0 {
        return Err(Failure::BadCommandLine);
    }
    let (times, accepted) = verdicts(clock, alloc, bytes, count)?;
    Ok(of_verdicts(alloc, times, accepted)?)
}

/// The maximum number of seats of a cache.
const MOST_SEATS: usize = 16;

/// The maximum number of jobs of a round.
const MOST_JOBS: u32 = 4096;

fn calling<R: Threads + Wait + Clock + Sync>(
    rt: &R,
    alloc: Global,
    bytes: &[u8],
    keys: u32,
    seats: usize,
) -> Result<String, Failure> {
    if keys < LEAST_KEYS || keys > MOST_KEYS || seats == 0 || seats > MOST_SEATS {
        return Err(Failure::BadCommandLine);
    }
    let times = calls(rt, alloc, bytes, keys, seats)?;
    Ok(of_calls(alloc, times, seats)?)
}

fn serving<R: Threads + Wait + Clock + Sync>(
    rt: &R,
    alloc: Global,
    bytes: &[u8],
    jobs: u32,
    seats: usize,
) -> Result<String, Failure> {
    if jobs == 0 || jobs > MOST_JOBS || seats == 0 || seats > MOST_SEATS {
        return Err(Failure::BadCommandLine);
    }
    let (times, sum) = rounds(rt, alloc, bytes, jobs, seats)?;
    Ok(of_rounds(alloc, times, jobs, sum)?)
}

fn striping(
    clock: &impl CpuClock,
    alloc: Global,
    class: &Verified,
    keys: u32,
) -> Result<String, Failure> {
    if keys == 0 || keys > MOST_KEYS {
        return Err(Failure::BadCommandLine);
    }
    let times = on_stripe(clock, alloc, class, keys)?;
    Ok(of_stripe(alloc, times, keys)?)
}

/// Measures runs of a class, or without `call` calls on one stripe.
fn on_class<R: CpuClock>(
    clock: &R,
    alloc: Global,
    bytes: &[u8],
    call: Option<&Call>,
    count: u32,
) -> Result<String, Failure> {
    let Ok(class) = verify(alloc, bytes) else {
        return Err(Failure::Refused);
    };
    match call {
        Some(call) => running(clock, alloc, &class, call, count),
        None => striping(clock, alloc, &class, count),
    }
}

/// Executes a command line, and returns its line of output.
pub fn measured<R: CpuClock + Clock + Threads + Wait + Sync + Files>(
    rt: &R,
    alloc: Global,
    words: &[&str],
) -> Result<String, Failure> {
    let Some(Request { file, count, work }) = parse(words) else {
        return Err(Failure::BadCommandLine);
    };
    let bytes = read_class(rt, alloc, file)?;
    match work {
        Work::Verifying => verifying(rt, alloc, &bytes, count),
        Work::Running(call) => on_class(rt, alloc, &bytes, Some(&call), count),
        Work::Striping => on_class(rt, alloc, &bytes, None, count),
        Work::Calling { seats } => calling(rt, alloc, &bytes, count, seats),
        Work::Serving { seats } => serving(rt, alloc, &bytes, count, seats),
    }
}
