//! Rounds of jobs, measured in wall-clock time: opening a cache, running the jobs and closing it.

ghost use Rattle.std.specs.Prelude.{◌≡◌, ◌<◌, ◌≤◌, length, IfOk};
ghost use Rattle.std.specs.List.{All};
ghost use Rattle.boxcar.specs.Table.{Shelves};
ghost use Rattle.registry.specs.Ids.{IsOf};
ghost use Rattle.cache.specs.Opened.{IsSeatCount};
ghost use Rattle.claims.specs.Counters.{IsJobCount};
ghost use Rattle.invokeall.specs.Jobs.{IsCallable};

use crate::calls::{defined, filled, now, sum_of};
use crate::measure::{Times, tenths, times_of};
use crate::report::Failure;
use cache::NoGate;
use invokeall::{Job, calls_for};
use jtypes::NoLoader;
use registry::{ClassId, Registry};
use std::alloc::{AllocError, Global};
use std::sync::Wait;
use std::thread::Threads;
use std::time::{Clock, Duration};
use stripe::{ArgSlice, Tables};
use workers::{PoolRound, STEPS_PER_WORKER, WorkspacePool, cost_of, run_by_workers, workers_for};

/// The number of rounds.
const ROUNDS: usize = 201;

/// Returns `count` invocations of a class, each on a different key.
pub fn jobs_of<'j>(
    alloc: Global,
    class: &'j ClassId,
    args: ArgSlice<'j>,
    count: u32,
) -> Result<Vec<Job<'j>>, AllocError>
    ensures count { IfOk result (λ jobs. length jobs.items ≡ count) }
    ensures callable { (registry : Shelves) → IsOf registry class.now → IfOk result (λ jobs. All (IsCallable registry) jobs.items) }
{
    let mut jobs = Vec::new(alloc);
    for key in 0..count {
        let key = i64::from(key);
        jobs.push(Job::Invoke { class, key, args })?;
    }
    Ok(jobs)
}

/// Runs a round of jobs with an estimated cost of `steps` instructions. Returns its time, and the tables that it leaves.
pub fn one<R: Threads + Wait + Clock + Sync>(
    rt: &R,
    alloc: Global,
    registry: &Registry,
    tables: Tables,
    seats: usize,
    steps: u64,
    jobs: &[Job<'_>],
    kept: &mut WorkspacePool,
) -> Result<(Duration, Tables), Failure>
    requires seats { IsSeatCount seats }
    requires jobs { IsJobCount (length jobs.now) }
    requires callable { All (IsCallable registry.now) jobs.now }
{
    let calls = calls_for(alloc, registry, jobs)?;
    let begin = now(rt)?;
    let workers = workers_for(steps, seats, STEPS_PER_WORKER);
    let round = PoolRound {
        registry,
        calls: &calls,
        gate: &NoGate,
        loader: &NoLoader,
    };
    let Ok(left) = run_by_workers(rt, alloc, tables, workers, &round, kept) else {
        return Err(Failure::NoMemory);
    };
    let time = now(rt)?.saturating_duration_since(begin);
    if left.answers.iter().any(|answer| answer.is_err()) {
        return Err(Failure::NoMemory);
    }
    Ok((time, left.tables))
}

/// Returns the times of a round, in tenths of a nanosecond, and the tables afterwards.
fn timed<R: Threads + Wait + Clock + Sync>(
    rt: &R,
    alloc: Global,
    registry: &Registry,
    mut tables: Tables,
    seats: usize,
    steps: u64,
    jobs: &[Job<'_>],
) -> Result<(Times, Tables), Failure>
    requires seats { IsSeatCount seats }
    requires jobs { IsJobCount (length jobs.now) }
    requires callable { All (IsCallable registry.now) jobs.now }
{
    let mut times = [0u128; ROUNDS];
    let mut kept = WorkspacePool::with_workspaces(alloc, seats);
    for time in times.iter_mut() {
        let (taken, left) = one(rt, alloc, registry, tables, seats, steps, jobs, &mut kept)?;
        *time = tenths(taken, 1);
        tables = left;
    }
    Ok((times_of(&mut times), tables))
}

/// Returns the times of a round of `jobs` invocations of a class, and the sum of the entries after all rounds.
fn timed_on<R: Threads + Wait + Clock + Sync>(
    rt: &R,
    alloc: Global,
    registry: &Registry,
    class: &ClassId,
    jobs: u32,
    seats: usize,
) -> Result<(Times, i64), Failure>
    requires class { IsOf registry.now class.now }
    requires seats { IsSeatCount seats }
    requires jobs { IsJobCount jobs }
{
    let list = jobs_of(alloc, class, ArgSlice::none(), jobs)?;
    let tables = filled(rt, alloc, registry, class, jobs)?;
    let steps = cost_of(registry.class(class)).saturating_mul(u64::from(jobs));
    let (times, tables) = timed(rt, alloc, registry, tables, seats, steps, &list)?;
    Ok((times, sum_of(&tables, jobs)))
}

/// Returns the times of a round of `jobs` invocations on present entries, by up to `seats` workers,
/// and the sum of the entries after all rounds.
pub fn rounds<R: Threads + Wait + Clock + Sync>(
    rt: &R,
    alloc: Global,
    bytes: &[u8],
    jobs: u32,
    seats: usize,
) -> Result<(Times, i64), Failure>
    requires seats { IsSeatCount seats }
    requires jobs { IsJobCount jobs }
{
    let registry = Registry::new(alloc)?;
    let class = defined(rt, alloc, &registry, bytes)?;
    timed_on(rt, alloc, &registry, &class, jobs, seats)
}
