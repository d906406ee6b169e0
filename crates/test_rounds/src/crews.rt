//! Rounds by one worker and by several.

ghost use Rattle.std.specs.Prelude.{◌≡◌};
ghost use Rattle.std.specs.List.{All};
ghost use Rattle.boxcar.specs.Table.{Shelves};
ghost use Rattle.registry.specs.Ids.{IsOf};
ghost use Rattle.invokeall.specs.Jobs.{IsCallable};

use cache::NoGate;
use invokeall::{Job, JobReply, calls_for};
use jtypes::{Arg, Args, NoLoader, Outcome};
use registry::{ClassId, Registry};
use rowclasses as rows;
use std::alloc::Global;
use std::sync::Wait;
use std::test::Fail;
use std::thread::Threads;
use stripe::{ArgSlice, Reply, Tables};
use workers::{
    CALL_COST, PoolRound, RoundLeft, WorkspacePool, cost_of, run_by_workers, workers_for,
};

/// Returns the answer to an invocation that returned this `Long`.
fn returned(n: i64) -> JobReply {
    Ok(Reply::Result(Outcome::Returned(Arg::Long(n))))
}

/// Runs a round of these jobs by 1 to 16 workers, and returns what it leaves.
fn round<R: Threads + Wait + Sync>(
    rt: &R,
    alloc: Global,
    registry: &Registry,
    tables: Tables,
    workers: usize,
    jobs: &[Job<'_>],
) -> Option<RoundLeft>
    requires { All (IsCallable registry.now) jobs.now }
{
    if workers == 0 || workers > 16 || jobs.len() > 4096 {
        return None;
    }
    let mut kept = WorkspacePool::new(alloc);
    let calls = calls_for(alloc, registry, jobs).ok()?;
    let round = PoolRound {
        registry,
        calls: &calls,
        gate: &NoGate,
        loader: &NoLoader,
    };
    match run_by_workers(rt, alloc, tables, workers, &round, &mut kept) {
        Ok(left) => Some(left),
        Err(_) => None,
    }
}

/// Returns puts on the keys 2, 3 and 5.
fn three_puts<'j>() -> [Job<'j>; 3]
    ensures { (registry : Shelves) → All (IsCallable registry) result }
{
    [
        Job::Put { key: 2, value: 41 },
        Job::Put { key: 3, value: 7 },
        Job::Put { key: 5, value: 50 },
    ]
}

/// Returns a job of each kind, each on a different key.
fn on_own_keys<'j>(class: &'j ClassId, args: &'j Args) -> [Job<'j>; 5]
    ensures { (registry : Shelves) → IsOf registry class.now → All (IsCallable registry) result }
{
    [
        Job::Put { key: 1, value: 5 },
        Job::Invoke {
            class,
            key: 2,
            args: ArgSlice::of(args),
        },
        Job::Get { key: 3 },
        Job::Contains { key: 4 },
        Job::Remove { key: 5 },
    ]
}

/// Returns a job of each kind, on the keys 1 and 3.
fn on_two_keys<'j>(class: &'j ClassId, args: &'j Args) -> [Job<'j>; 5]
    ensures { (registry : Shelves) → IsOf registry class.now → All (IsCallable registry) result }
{
    [
        Job::Put { key: 1, value: 5 },
        Job::Invoke {
            class,
            key: 1,
            args: ArgSlice::of(args),
        },
        Job::Get { key: 1 },
        Job::Remove { key: 3 },
        Job::Contains { key: 3 },
    ]
}

/// Runs a round of `three_puts` and then a round of these jobs on two stripes, and returns what the latter leaves.
fn behind_puts<R: Threads + Wait + Sync>(
    rt: &R,
    alloc: Global,
    registry: &Registry,
    workers: usize,
    jobs: &[Job<'_>],
) -> Option<RoundLeft>
    requires { All (IsCallable registry.now) jobs.now }
{
    match Tables::new(alloc, 2) {
        Ok(tables) => match round(rt, alloc, registry, tables, workers, &three_puts()) {
            Some(left) => round(rt, alloc, registry, left.tables, workers, jobs),
            None => None,
        },
        Err(_) => None,
    }
}

/// Returns the entries of the keys 1 to 5.
fn entries_in(tables: &Tables) -> [Option<i64>; 5] {
    [
        tables.entry(1),
        tables.entry(2),
        tables.entry(3),
        tables.entry(4),
        tables.entry(5),
    ]
}

/// Checks the answers and the entries that a round of these jobs leaves after a round of `three_puts`.
fn leaves<R: Threads + Wait + Sync>(
    rt: &R,
    alloc: Global,
    registry: &Registry,
    workers: usize,
    jobs: &[Job<'_>],
    answers: &[JobReply],
    entries: [Option<i64>; 5],
) -> bool
    requires { All (IsCallable registry.now) jobs.now }
{
    match behind_puts(rt, alloc, registry, workers, jobs) {
        Some(left) => left.answers.as_slice() == answers && entries_in(&left.tables) == entries,
        None => false,
    }
}

/// Checks what a round of `on_own_keys` leaves.
fn own_keys_are_right<R: Threads + Wait + Sync>(
    rt: &R,
    alloc: Global,
    registry: &Registry,
    class: &ClassId,
    workers: usize,
) -> bool
    requires { IsOf registry.now class.now }
{
    let args = Args::none();
    let jobs = on_own_keys(class, &args);
    let answers = [
        Ok(Reply::Done),
        returned(42),
        Ok(Reply::Value(Some(7))),
        Ok(Reply::Flag(false)),
        Ok(Reply::Flag(true)),
    ];
    let entries = [Some(5), Some(42), Some(7), None, None];
    leaves(rt, alloc, registry, workers, &jobs, &answers, entries)
}

/// Does the same by 1 and by 4 workers, in a new registry, which defines the class.
fn own_keys_by_each<R: Threads + Wait + Sync>(
    rt: &R,
    alloc: Global,
    plus: &[u8],
) -> Option<[bool; 2]> {
    match Registry::new(alloc) {
        Ok(registry) => match registry.define(rt, alloc, plus) {
            Ok(class) => Some([
                own_keys_are_right(rt, alloc, &registry, &class, 1),
                own_keys_are_right(rt, alloc, &registry, &class, 4),
            ]),
            Err(_) => None,
        },
        Err(_) => None,
    }
}

#[test]
fn jobs_on_own_keys_have_one_outcome(rt: HostRuntime) -> Result<(), Fail> {
    let alloc = rt.alloc();
    let plus = rows::plus(alloc)?;
    assert_eq!(rt; own_keys_by_each(&rt, alloc, &plus), Some([true; 2]));
    Ok(())
}

/// Checks that one worker runs the jobs of `on_two_keys` in order.
fn two_keys_are_right<R: Threads + Wait + Sync>(
    rt: &R,
    alloc: Global,
    registry: &Registry,
    class: &ClassId,
) -> bool
    requires { IsOf registry.now class.now }
{
    let args = Args::none();
    let jobs = on_two_keys(class, &args);
    let answers = [
        Ok(Reply::Done),
        returned(6),
        Ok(Reply::Value(Some(6))),
        Ok(Reply::Flag(true)),
        Ok(Reply::Flag(false)),
    ];
    let entries = [Some(6), Some(41), None, None, Some(50)];
    leaves(rt, alloc, registry, 1, &jobs, &answers, entries)
}

/// Does the same in a new registry, which defines the class.
fn two_keys<R: Threads + Wait + Sync>(rt: &R, alloc: Global, plus: &[u8]) -> Option<bool> {
    match Registry::new(alloc) {
        Ok(registry) => match registry.define(rt, alloc, plus) {
            Ok(class) => Some(two_keys_are_right(rt, alloc, &registry, &class)),
            Err(_) => None,
        },
        Err(_) => None,
    }
}

#[test]
fn one_worker_keeps_the_order(rt: HostRuntime) -> Result<(), Fail> {
    let alloc = rt.alloc();
    let plus = rows::plus(alloc)?;
    assert_eq!(rt; two_keys(&rt, alloc, &plus), Some(true));
    Ok(())
}

/// Checks that a round without jobs leaves the entries unchanged, by 1 and by 4 workers.
fn no_jobs_by_each<R: Threads + Wait + Sync>(rt: &R, alloc: Global) -> Option<[bool; 2]> {
    let entries = [None, Some(41), Some(7), None, Some(50)];
    match Registry::new(alloc) {
        Ok(registry) => Some([
            leaves(rt, alloc, &registry, 1, &[], &[], entries),
            leaves(rt, alloc, &registry, 4, &[], &[], entries),
        ]),
        Err(_) => None,
    }
}

#[test]
fn no_jobs_leave_the_entries(rt: HostRuntime) -> Result<(), Fail> {
    assert_eq!(rt; no_jobs_by_each(&rt, rt.alloc()), Some([true; 2]));
    Ok(())
}

/// Returns how many of four workers a round gets for each of eight shares, in instructions.
/// The round has five calls, one of them an invocation of at most 14 instructions, and an estimated cost of 974 instructions.
fn worths(registry: &Registry, class: &ClassId) -> [usize; 8]
    requires { IsOf registry.now class.now }
{
    let steps = cost_of(registry.class(class)).saturating_add(4 * CALL_COST);
    let mut worths = [0; 8];
    let shares = [0, 1, 243, 244, 324, 325, 487, 488];
    for (worth_of, share) in worths.iter_mut().zip(shares) {
        *worth_of = workers_for(steps, 4, share);
    }
    worths
}

/// Does the same in a new registry, which defines the class.
fn worths_of<R: Threads + Wait + Sync>(rt: &R, alloc: Global, plus: &[u8]) -> Option<[usize; 8]> {
    match Registry::new(alloc) {
        Ok(registry) => match registry.define(rt, alloc, plus) {
            Ok(class) => Some(worths(&registry, &class)),
            Err(_) => None,
        },
        Err(_) => None,
    }
}

#[test]
fn a_round_is_worth_a_worker_for_each_share(rt: HostRuntime) -> Result<(), Fail> {
    let alloc = rt.alloc();
    let plus = rows::plus(alloc)?;
    assert_eq!(rt;
        worths_of(&rt, alloc, &plus),
        Some([4, 4, 4, 3, 3, 2, 2, 1])
    );
    Ok(())
}
