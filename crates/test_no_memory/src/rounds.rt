//! Rounds and `invoke_all` on 48 keys of a cache.

ghost use Rattle.std.specs.Prelude.{◌≡◌, length, IfOk, IfSome};
ghost use Rattle.std.specs.List.{All};
ghost use Rattle.boxcar.specs.Table.{Shelves};
ghost use Rattle.registry.specs.Ids.{IsOf};
ghost use Rattle.claims.specs.Counters.{IsWorkerCount};
ghost use Rattle.cache.specs.Opened.{AreSeats};
ghost use Rattle.invokeall.specs.Jobs.{IsCallable};
ghost use Rattle.invokeall.specs.Rounds.{IsAtHome};

use cache::{Cache, InvokeRefusal, NoGate, Seat};
use invokeall::{Job, JobReply, invoke_all, run_round};
use jtypes::{Arg, Args, JavaFault, NoLoader, Outcome};
use machine::Workspace;
use registry::{ClassId, Registry};
use rowclasses as rows;
use std::alloc::{AllocError, Global};
use std::process::Abort;
use std::sync::Wait;
use std::test::Fail;
use std::thread::Threads;
use stripe::{ArgSlice, Reply, Tables};

/// The number of keys, which are 0 to 47.
const KEYS: usize = 48;

/// The entries, indexed by key.
type Entries = [Option<i64>; KEYS];

fn entries_of(tables: &Tables) -> Entries {
    let mut entries = [None; KEYS];
    for (key, entry) in entries.iter_mut().enumerate() {
        *entry = tables.entry(key as i64);
    }
    entries
}

/// The job of a round on each key.
#[derive(Clone, Copy, PartialEq, Eq)]
enum Work {
    /// Puts the key itself as the value.
    Put,
    /// Invokes an entry processor that adds 1.
    Plus,
}

/// Checks that the entry `now` of a key follows from its entry `before` and the answer `told` to the job on it.
/// A job that is out of memory must leave the entry unchanged.
fn is_told(work: Work, key: i64, before: Option<i64>, told: &JobReply, now: Option<i64>) -> bool {
    match (work, before, told) {
        (_, _, Err(InvokeRefusal::NoMemory)) => now == before,
        (Work::Put, _, Ok(Reply::Done)) => now == Some(key),
        (Work::Plus, Some(n), Ok(Reply::Result(Outcome::Returned(Arg::Long(m))))) => {
            *m == n.wrapping_add(1) && now == Some(*m)
        }
        (Work::Plus, None, Ok(Reply::Result(Outcome::Threw(JavaFault::NullPointer)))) => {
            now.is_none()
        }
        _ => false,
    }
}

/// Checks `is_told` for each key. Without answers no entry may have changed.
fn are_told(work: Work, before: &Entries, answers: Option<&[JobReply]>, now: &Entries) -> bool {
    let Some(answers) = answers else {
        return now == before;
    };
    if answers.len() != KEYS {
        return false;
    }
    for key in 0..KEYS {
        if !is_told(work, key as i64, before[key], &answers[key], now[key]) {
            return false;
        }
    }
    true
}

/// Checks `is_told` for the results of `invoke_all`, which lists each key once, in ascending order.
/// Without results no entry may have changed.
fn are_listed(before: &Entries, results: Option<&[(i64, JobReply)]>, now: &Entries) -> bool {
    let Some(results) = results else {
        return now == before;
    };
    if results.len() != KEYS {
        return false;
    }
    for key in 0..KEYS {
        let (listed, told) = &results[key];
        if *listed != key as i64 || !is_told(Work::Plus, *listed, before[key], told, now[key]) {
            return false;
        }
    }
    true
}

/// Returns one job for each key.
fn jobs_for<'j>(
    alloc: Global,
    work: Work,
    class: &'j ClassId,
    args: &'j Args,
) -> Result<Vec<Job<'j>>, AllocError>
    ensures callable { (registry : Shelves) → IsOf registry class.now → IfOk result (λ jobs. All (IsCallable registry) jobs.items) }
    ensures count { IfOk result (λ jobs. length jobs.items ≡ 48) }
{
    let mut jobs = Vec::new(alloc);
    for place in 0..KEYS {
        let key = place as i64;
        jobs.push(match work {
            Work::Put => Job::Put { key, value: key },
            Work::Plus => Job::Invoke {
                class,
                key,
                args: ArgSlice::of(args),
            },
        })?;
    }
    Ok(jobs)
}

/// Returns `count` workspaces.
fn workspaces(alloc: Global, count: usize) -> Result<Vec<Workspace>, AllocError>
    ensures { IfOk result (λ v. length v.items ≡ count) }
{
    let mut list = Vec::new(alloc);
    for _ in 0..count {
        list.push(Workspace::new(alloc)?)?;
    }
    Ok(list)
}

/// Opens a cache on these tables, with `seats` seats; returns the tables if it is refused.
fn opened<'a>(
    alloc: Global,
    registry: &'a Registry,
    tables: Tables,
    seats: usize,
) -> Result<(Cache<'a, 'static, NoLoader>, Vec<Seat<'a>>), Tables>
    ensures registry { IfOk result (λ r. r.0.registry ≡ registry.now) }
    ensures count { IfOk result (λ r. IsWorkerCount (length r.1.items)) }
    ensures home { IfOk result (λ r. All (IsAtHome r.0) r.1.items) }
    ensures seats { IfOk result (λ r. AreSeats r.0 r.1.items) }
{
    match Cache::open(alloc, registry, tables, 64, seats, &NoLoader) {
        Ok(opened) => Ok(opened),
        Err((_, tables)) => Err(tables),
    }
}

/// The answers, `None` if there are none, and the tables after the cache is closed.
type AnswersLeft<A> = (Option<Vec<A>>, Tables);

/// Runs a round on a cache opened for it, with `count` seats.
fn round<R: Threads + Wait + Sync + AllocGlobal>(
    rt: &R,
    alloc: Global,
    registry: &Registry,
    tables: Tables,
    count: usize,
    jobs: &[Job<'_>],
) -> AnswersLeft<JobReply>
    requires callable { All (IsCallable registry.now) jobs.now }
    requires few { length jobs.now ≡ 48 }
{
    let (cache, mut seats) = match opened(alloc, registry, tables, count) {
        Ok(opened) => opened,
        Err(tables) => return (None, tables),
    };
    let Ok(mut spaces) = workspaces(alloc, seats.len()) else {
        return (None, cache.close(seats).tables);
    };
    match run_round(rt, &cache, jobs, &mut seats, &mut spaces, &NoGate) {
        Ok(answers) => (Some(answers), cache.close(seats).tables),
        Err(AllocError) => (None, cache.close(seats).tables),
    }
}

/// Returns 64 keys: each key once, and the keys 0 to 15 a second time.
fn keys_and_doubles() -> [i64; 64] {
    let mut keys = [0; 64];
    for place in 0..64 {
        keys[place] = (place % KEYS) as i64;
    }
    keys
}

/// Invokes the class on each key by one `invoke_all`; returns `None` when out of memory.
fn listed<'a, R: Threads + Wait + Sync + AllocGlobal>(
    rt: &R,
    alloc: Global,
    cache: &Cache<'a, '_, NoLoader>,
    class: &'a ClassId,
    seats: &mut Vec<Seat<'a>>,
) -> Option<Vec<(i64, JobReply)>>
    requires class { IsOf cache.now.registry class.now }
    requires count { IsWorkerCount (length seats.old.items) }
    requires home { All (IsAtHome cache.now) seats.old.items }
    requires seats { AreSeats cache.now seats.old.items }
    ensures { AreSeats cache.now seats.new.items }
{
    let Ok(mut spaces) = workspaces(alloc, seats.len()) else {
        return None;
    };
    let keys = keys_and_doubles();
    match invoke_all(
        rt,
        cache,
        class,
        &keys,
        ArgSlice::none(),
        seats,
        &mut spaces,
        &NoGate,
    ) {
        Ok(results) => Some(results),
        Err(AllocError) => None,
    }
}

/// Does the same on a cache opened for it, with `count` seats.
fn plus_on_all<R: Threads + Wait + Sync + AllocGlobal>(
    rt: &R,
    alloc: Global,
    registry: &Registry,
    tables: Tables,
    count: usize,
    class: &ClassId,
) -> AnswersLeft<(i64, JobReply)>
    requires { IsOf registry.now class.now }
{
    let (cache, mut seats) = match opened(alloc, registry, tables, count) {
        Ok(opened) => opened,
        Err(tables) => return (None, tables),
    };
    let results = listed(rt, alloc, &cache, class, &mut seats);
    (results, cache.close(seats).tables)
}

/// Runs a round of this work with `count` workers. Returns whether the entries follow from the answers, and the tables.
fn work_is_right<R: Threads + Wait + Sync + AllocGlobal>(
    rt: &R,
    alloc: Global,
    registry: &Registry,
    class: &ClassId,
    count: usize,
    work: Work,
    tables: Tables,
) -> Result<(bool, Tables), AllocError>
    requires { IsOf registry.now class.now }
{
    let args = Args::none();
    let jobs = jobs_for(alloc, work, class, &args)?;
    let before = entries_of(&tables);
    let (answers, tables) = round(rt, alloc, registry, tables, count, &jobs);
    let is_told = are_told(work, &before, answers.as_deref(), &entries_of(&tables));
    Ok((is_told, tables))
}

/// Checks a round of puts, a round of invocations and one `invoke_all` on all keys, each with `count` workers.
fn all_are_right<R: Threads + Wait + Sync + AllocGlobal>(
    rt: &R,
    alloc: Global,
    registry: &Registry,
    class: &ClassId,
    count: usize,
) -> Result<bool, AllocError>
    requires { IsOf registry.now class.now }
{
    let Ok(tables) = Tables::new(alloc, 4) else {
        return Err(AllocError);
    };
    let (is_put, tables) = work_is_right(rt, alloc, registry, class, count, Work::Put, tables)?;
    let (is_run, tables) = work_is_right(rt, alloc, registry, class, count, Work::Plus, tables)?;
    let before = entries_of(&tables);
    let (results, tables) = plus_on_all(rt, alloc, registry, tables, count, class);
    let is_listed = are_listed(&before, results.as_deref(), &entries_of(&tables));
    Ok(is_put && is_run && is_listed)
}

/// Does the same with Plus, in a new registry.
fn rounds_are_right<R: Threads + Wait + Sync + AllocGlobal>(
    rt: &R,
    alloc: Global,
    count: usize,
) -> Result<bool, AllocError> {
    let registry = Registry::new(alloc)?;
    let Ok(class) = registry.define(rt, alloc, &rows::plus(alloc)?) else {
        return Err(AllocError);
    };
    all_are_right(rt, alloc, &registry, &class, count)
}

/// When an allocation outside the rounds is refused, nothing is checked.
#[test]
fn rounds_do_what_they_tell_or_nothing(rt: HostRuntime) {
    for count in [1, 4] {
        if let Ok(are_right) = rounds_are_right(&rt, rt.alloc(), count) {
            assert!(rt; are_right, "{count} workers");
        }
    }
}
