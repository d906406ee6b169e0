//! Rounds on a cache, by several workers.

ghost use Rattle.std.specs.Prelude.{◌≡◌, ◌<◌, ◌≤◌, length, IfOk, IfSome};
ghost use Rattle.std.specs.List.{All};
ghost use Rattle.boxcar.specs.Table.{Shelves};
ghost use Rattle.registry.specs.Ids.{IsOf};
ghost use Rattle.claims.specs.Counters.{IsWorkerCount};
ghost use Rattle.cache.specs.Opened.{AreSeats};
ghost use Rattle.invokeall.specs.Jobs.{IsCallable};
ghost use Rattle.invokeall.specs.Rounds.{IsAtHome};

mod holding;
mod racing;

use cache::{Cache, Gate, NoGate, Seat};
use invokeall::{Job, JobReply, invoke_all, run_round};
use jtypes::{Arg, Args, JavaFault, NoLoader, Outcome};
use machine::Workspace;
use registry::{ClassId, Registry};
use rowclasses as rows;
use std::alloc::{AllocError, Global};
use std::sync::Wait;
use std::test::Fail;
use std::thread::Threads;
use stripe::{ArgSlice, Reply, Tables};

/// The call of a job.
#[derive(Clone, Copy)]
enum Ask {
    Put(i64, i64),
    /// An invocation on this key.
    Run(i64),
}

/// What a round leaves: the tables and the answers.
#[derive(Drop)]
struct AfterRound {
    tables: Tables,
    answers: Vec<JobReply>,
}

/// Returns the answer to an invocation that returned this `Long`.
fn returned(n: i64) -> JobReply {
    Ok(Reply::Result(Outcome::Returned(Arg::Long(n))))
}

fn job_of<'j>(class: &'j ClassId, args: &'j Args, ask: &Ask) -> Job<'j>
    ensures { (registry : Shelves) → IsOf registry class.now → IsCallable registry result }
{
    match *ask {
        Ask::Put(key, value) => Job::Put { key, value },
        Ask::Run(key) => Job::Invoke {
            class,
            key,
            args: ArgSlice::of(args),
        },
    }
}

fn jobs_of<'j>(
    alloc: Global,
    class: &'j ClassId,
    args: &'j Args,
    asks: &[Ask],
) -> Result<Vec<Job<'j>>, AllocError>
    ensures { (registry : Shelves) → IsOf registry class.now → IfOk result (λ jobs. All (IsCallable registry) jobs.items) }
{
    let mut jobs = Vec::new(alloc);
    for ask in asks {
        jobs.push(job_of(class, args, ask))?;
    }
    Ok(jobs)
}

/// Returns `count` workspaces.
fn workspaces(alloc: Global, count: usize) -> Result<Vec<Workspace>, AllocError>
    ensures { IfOk result (λ v. length v.items ≡ count) }
{
    let mut list = Vec::new(alloc);
    for _ in 0..count {
        list.push(Workspace::new(alloc)?)?;
    }
    Ok(list)
}

/// Opens a cache on these tables, with `seats` seats.
fn opened<'a>(
    alloc: Global,
    registry: &'a Registry,
    tables: Tables,
    seats: usize,
) -> Option<(Cache<'a, 'static, NoLoader>, Vec<Seat<'a>>)>
    ensures registry { IfSome result (λ r. r.0.registry ≡ registry.now) }
    ensures count { IfSome result (λ r. IsWorkerCount (length r.1.items)) }
    ensures home { IfSome result (λ r. All (IsAtHome r.0) r.1.items) }
    ensures seats { IfSome result (λ r. AreSeats r.0 r.1.items) }
{
    match Cache::open(alloc, registry, tables, 4096, seats, &NoLoader) {
        Ok(opened) => Some(opened),
        Err(_) => None,
    }
}

/// Runs a round on a cache that is opened for it, with `seats` seats.
fn ran<R: Threads + Wait + Sync + AllocGlobal, G: Gate + Sync>(
    rt: &R,
    alloc: Global,
    registry: &Registry,
    tables: Tables,
    seats: usize,
    jobs: &[Job<'_>],
    gate: &G,
) -> Option<AfterRound>
    requires { All (IsCallable registry.now) jobs.now }
{
    if jobs.len() > 4096 {
        return None;
    }
    let (cache, mut seats) = opened(alloc, registry, tables, seats)?;
    let Ok(mut spaces) = workspaces(alloc, seats.len()) else {
        return None;
    };
    match run_round(rt, &cache, jobs, &mut seats, &mut spaces, gate) {
        Ok(answers) => Some(AfterRound {
            tables: cache.close(seats).tables,
            answers,
        }),
        Err(_) => None,
    }
}

/// Does the same with the jobs of `asks`; each invocation has the argument 1.
fn done<R: Threads + Wait + Sync + AllocGlobal, G: Gate + Sync>(
    rt: &R,
    alloc: Global,
    registry: &Registry,
    class: &ClassId,
    tables: Tables,
    seats: usize,
    asks: &[Ask],
    gate: &G,
) -> Option<AfterRound>
    requires { IsOf registry.now class.now }
{
    match Args::of(&[Arg::Long(1)]) {
        Some(args) => match jobs_of(alloc, class, &args, asks) {
            Ok(jobs) => ran(rt, alloc, registry, tables, seats, &jobs, gate),
            Err(_) => None,
        },
        None => None,
    }
}

/// Returns the tables after a round of `first` by one worker, on `stripes` empty stripes.
fn begun<R: Threads + Wait + Sync + AllocGlobal>(
    rt: &R,
    alloc: Global,
    registry: &Registry,
    class: &ClassId,
    stripes: usize,
    first: &[Ask],
) -> Option<Tables>
    requires { IsOf registry.now class.now }
{
    match Tables::new(alloc, stripes) {
        Ok(tables) => match done(rt, alloc, registry, class, tables, 1, first, &NoGate) {
            Some(left) => Some(left.tables),
            None => None,
        },
        Err(_) => None,
    }
}

/// Runs a round of `first` by one worker, and then a round of `asks` with `seats` seats.
fn behind<R: Threads + Wait + Sync + AllocGlobal, G: Gate + Sync>(
    rt: &R,
    alloc: Global,
    registry: &Registry,
    class: &ClassId,
    stripes: usize,
    first: &[Ask],
    seats: usize,
    asks: &[Ask],
    gate: &G,
) -> Option<AfterRound>
    requires { IsOf registry.now class.now }
{
    match begun(rt, alloc, registry, class, stripes, first) {
        Some(tables) => done(rt, alloc, registry, class, tables, seats, asks, gate),
        None => None,
    }
}

/// Does the same in a new registry, which defines the class.
fn asked<R: Threads + Wait + Sync + AllocGlobal, G: Gate + Sync>(
    rt: &R,
    alloc: Global,
    bytes: &[u8],
    stripes: usize,
    first: &[Ask],
    seats: usize,
    asks: &[Ask],
    gate: &G,
) -> Option<AfterRound> {
    match Registry::new(alloc) {
        Ok(registry) => match registry.define(rt, alloc, bytes) {
            Ok(class) => {
                behind(
                    rt, alloc, &registry, &class, stripes, first, seats, asks, gate,
                )
            }
            Err(_) => None,
        },
        Err(_) => None,
    }
}

/// Returns a put of each key below 100, with the key as its value.
fn own_puts() -> [Ask; 100] {
    let mut asks = [Ask::Put(0, 0); 100];
    for key in 0..100 {
        asks[key] = Ask::Put(key as i64, key as i64);
    }
    asks
}

/// Returns an invocation on each key below 100.
fn runs() -> [Ask; 100] {
    let mut asks = [Ask::Run(0); 100];
    for key in 0..100 {
        asks[key] = Ask::Run(key as i64);
    }
    asks
}

/// Checks that 100 invocations of Plus return each key plus 1, with `seats` seats.
fn hundred<R: Threads + Wait + Sync + AllocGlobal>(
    rt: &R,
    alloc: Global,
    plus: &[u8],
    seats: usize,
) -> bool {
    let Some(left) = asked(rt, alloc, plus, 4, &own_puts(), seats, &runs(), &NoGate) else {
        return false;
    };
    let mut is_right = left.answers.len() == 100;
    for (key, answer) in left.answers.iter().enumerate() {
        is_right = is_right && *answer == returned(key as i64 + 1);
    }
    is_right
}

#[test]
fn each_job_has_its_own_answer(rt: HostRuntime) -> Result<(), Fail> {
    let alloc = rt.alloc();
    let plus = rows::plus(alloc)?;
    let are_right = [
        hundred(&rt, alloc, &plus, 1),
        hundred(&rt, alloc, &plus, 2),
        hundred(&rt, alloc, &plus, 16),
    ];
    assert_eq!(rt; are_right, [true; 3]);
    Ok(())
}

/// Returns the results of `invoke_all` of a class on these keys, on a cache opened on these tables.
fn gathered<R: Threads + Wait + Sync + AllocGlobal>(
    rt: &R,
    alloc: Global,
    registry: &Registry,
    class: &ClassId,
    tables: Tables,
    seats: usize,
    keys: &[i64],
) -> Option<Vec<(i64, JobReply)>>
    requires { IsOf registry.now class.now }
{
    if keys.len() > 4096 {
        return None;
    }
    let (cache, mut seats) = opened(alloc, registry, tables, seats)?;
    let Ok(mut spaces) = workspaces(alloc, seats.len()) else {
        return None;
    };
    match invoke_all(
        rt,
        &cache,
        class,
        keys,
        ArgSlice::none(),
        &mut seats,
        &mut spaces,
        &NoGate,
    ) {
        Ok(results) => Some(results),
        Err(_) => None,
    }
}

/// Does the same after a round of `first` on four stripes.
fn gathered_behind<R: Threads + Wait + Sync + AllocGlobal>(
    rt: &R,
    alloc: Global,
    registry: &Registry,
    class: &ClassId,
    first: &[Ask],
    seats: usize,
    keys: &[i64],
) -> Option<Vec<(i64, JobReply)>>
    requires { IsOf registry.now class.now }
{
    match begun(rt, alloc, registry, class, 4, first) {
        Some(tables) => gathered(rt, alloc, registry, class, tables, seats, keys),
        None => None,
    }
}

/// Does the same in a new registry, which defines the class.
fn collected<R: Threads + Wait + Sync + AllocGlobal>(
    rt: &R,
    alloc: Global,
    bytes: &[u8],
    first: &[Ask],
    seats: usize,
    keys: &[i64],
) -> Option<Vec<(i64, JobReply)>> {
    match Registry::new(alloc) {
        Ok(registry) => match registry.define(rt, alloc, bytes) {
            Ok(class) => gathered_behind(rt, alloc, &registry, &class, first, seats, keys),
            Err(_) => None,
        },
        Err(_) => None,
    }
}

/// Checks the results of Ratio on the keys 1, 2, 2 and 3: a `Long` for key 1, one exception for key 2, no result for key 3.
fn are_ratios<R: Threads + Wait + Sync + AllocGlobal>(
    rt: &R,
    alloc: Global,
    ratio: &[u8],
    seats: usize,
) -> bool {
    let first = [Ask::Put(1, 2), Ask::Put(2, 0), Ask::Put(3, 1)];
    let Some(results) = collected(rt, alloc, ratio, &first, seats, &[1, 2, 2, 3]) else {
        return false;
    };
    let threw = Ok(Reply::Result(Outcome::Threw(JavaFault::Arithmetic)));
    results.as_slice() == [(1, returned(0)), (2, threw)].as_slice()
}

/// Does the same with 1, 2 and 4 seats.
fn ratios_by_each<R: Threads + Wait + Sync + AllocGlobal>(
    rt: &R,
    alloc: Global,
    ratio: &[u8],
) -> [bool; 3] {
    [
        are_ratios(rt, alloc, ratio, 1),
        are_ratios(rt, alloc, ratio, 2),
        are_ratios(rt, alloc, ratio, 4),
    ]
}

#[test]
fn doubles_and_nulls_are_dropped(rt: HostRuntime) -> Result<(), Fail> {
    let alloc = rt.alloc();
    let are_right = match rows::class_named(alloc, "Ratio")? {
        Some(ratio) => Some(ratios_by_each(&rt, alloc, &ratio)),
        None => None,
    };
    assert_eq!(rt; are_right, Some([true; 3]));
    Ok(())
}

/// Returns the `Long` that the entry processor of a job returned, `None` for any other answer.
fn long_of(answers: &[JobReply], job: usize) -> Option<i64> {
    match *answers.get(job)? {
        Ok(Reply::Result(Outcome::Returned(Arg::Long(n)))) => Some(n),
        _ => None,
    }
}

/// Returns the numbers that the invocations of the jobs 1 and 2 returned, and the entry of key 5 after the round.
fn outcome_of(left: &AfterRound) -> Option<(i64, i64, i64)> {
    match (
        long_of(&left.answers, 1),
        long_of(&left.answers, 2),
        left.tables.entry(5),
    ) {
        (Some(one), Some(other), Some(after)) => Some((one, other, after)),
        _ => None,
    }
}

/// Runs a round with a put of 1 and two invocations of Counter on key 5, and returns the outcome.
fn beside_a_put<R: Threads + Wait + Sync + AllocGlobal>(
    rt: &R,
    alloc: Global,
    counter: &[u8],
) -> Option<(i64, i64, i64)> {
    let asks = [Ask::Put(5, 1), Ask::Run(5), Ask::Run(5)];
    match asked(rt, alloc, counter, 1, &[], 4, &asks, &NoGate) {
        Some(left) => outcome_of(&left),
        None => None,
    }
}

/// The possible outcomes of a put of 1 and two invocations of Counter, for the six orders of the three calls.
static OUTCOMES: [(i64, i64, i64); 6] = [
    (2, 3, 3),
    (3, 2, 3),
    (1, 2, 2),
    (2, 1, 2),
    (1, 2, 1),
    (2, 1, 1),
];

/// Checks that some order of the three calls has this outcome.
fn is_possible(outcome: Option<(i64, i64, i64)>) -> bool {
    outcome.is_some_and(|outcome| OUTCOMES.contains(&outcome))
}

#[test]
fn a_thousand_rounds_are_each_in_some_order(rt: HostRuntime) -> Result<(), Fail> {
    let alloc = rt.alloc();
    let counter = rows::counter(alloc)?;
    let mut are_possible = true;
    for _ in 0..1000 {
        are_possible = are_possible && is_possible(beside_a_put(&rt, alloc, &counter));
    }
    assert!(rt; are_possible);
    Ok(())
}
