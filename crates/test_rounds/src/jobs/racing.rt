//! Three concurrent rounds on one cache, each with one call on the same absent key, in an unspecified order.
//! One round makes all calls on a key in the order of its jobs, so it takes several rounds to see another order.

ghost use Rattle.std.specs.Prelude.{◌≡◌, length, IfOk, IfSome};
ghost use denote.Param.Send.{IsSync};
ghost use Rattle.std.specs.List.{All};
ghost use Rattle.boxcar.specs.Table.{Shelves};
ghost use Rattle.registry.specs.Ids.{IsOf};
ghost use Rattle.claims.specs.Counters.{IsWorkerCount};
ghost use Rattle.invokeall.specs.Jobs.{IsCallable};
ghost use Rattle.invokeall.specs.Rounds.{IsAtHome};

use super::{OUTCOMES, long_of, opened, workspaces};
use cache::{Cache, Gate, InvokeRefusal, Seat};
use invokeall::{Job, JobReply, run_round};
use jtypes::{Arg, NoLoader};
use machine::Workspace;
use registry::{ClassId, Registry};
use rowclasses as rows;
use std::alloc::{AllocError, Global};
use std::sync::Wait;
use std::sync::atomic::{AtomicBool, Ordering};
use std::test::Fail;
use std::thread;
use std::thread::{Threads, join_mut};
use std::time::{Clock, Duration};
use stripe::{ArgSlice, Reply, Tables};

/// Delays each call at its start, and records whether another call starts meanwhile.
#[derive(Drop)]
struct Holding<'s, R> {
    rt: &'s R,
    is_held: AtomicBool,
    have_met: AtomicBool,
}

impl<'s, R: Clock> Gate for Holding<'s, R> {
    fn started(&self, _job: usize) {
        if self.is_held.swap(true, Ordering::AcqRel) {
            self.have_met.store(true, Ordering::Release);
        }
        thread::sleep(self.rt, Duration::from_micros(200));
        self.is_held.store(false, Ordering::Release);
    }

    fn answered(&self, _job: usize) {}
}

/// The seats and the workspaces of a round, and its answers.
#[derive(Drop)]
struct Caller<'a> {
    seats: Vec<Seat<'a>>,
    spaces: Vec<Workspace>,
    answers: Vec<JobReply>,
}

/// What the concurrent rounds share, and their delays in microseconds.
#[derive(Drop)]
struct Race<'s, 'a, R> {
    rt: &'s R,
    cache: &'s Cache<'a, 'static, NoLoader>,
    counter: &'a ClassId,
    gate: &'s Holding<'s, R>,
    delays: [u64; 3],
}

/// The argument of each increment.
static ONE: [Arg; 1] = [Arg::Long(1)];

/// Returns the job of a caller: the first puts 1 on key 5, any other increments the entry.
fn job_at<'a>(counter: &'a ClassId, place: usize) -> Job<'a>
    ensures { (registry : Shelves) → IsOf registry counter.now → IsCallable registry result }
{
    if place == 0 {
        Job::Put { key: 5, value: 1 }
    } else {
        Job::Invoke {
            class: counter,
            key: 5,
            args: ArgSlice { items: &ONE },
        }
    }
}

/// Runs the round of the caller at index `place`, after its delay.
fn call<'a, R: Threads + Wait + Clock + Sync + AllocGlobal>(
    race: &Race<'_, 'a, R>,
    place: usize,
    caller: &mut Caller<'a>,
)
    requires class { IsOf race.now.cache.now.registry race.now.counter.now }
    requires seats { IsWorkerCount (length caller.old.seats.items) }
    requires spaces { length caller.old.spaces.items ≡ length caller.old.seats.items }
    requires home { All (IsAtHome race.now.cache.now) caller.old.seats.items }
{
    let delay = race.delays.get(place).copied().unwrap_or(0);
    thread::sleep(race.rt, Duration::from_micros(delay));
    let jobs = [job_at(race.counter, place)];
    let (seats, spaces) = (&mut caller.seats, &mut caller.spaces);
    if let Ok(answers) = run_round(race.rt, race.cache, &jobs, seats, spaces, race.gate) {
        caller.answers = answers;
    }
}

/// Runs the rounds of the callers at the indexes 1 and 2 concurrently.
fn call_both<'a, R: Threads + Wait + Clock + Sync + AllocGlobal>(
    race: &Race<'_, 'a, R>,
    second: &mut Caller<'a>,
    third: &mut Caller<'a>,
)
    requires class { IsOf race.now.cache.now.registry race.now.counter.now }
    requires second { IsWorkerCount (length second.old.seats.items) × (length second.old.spaces.items ≡ length second.old.seats.items) × All (IsAtHome race.now.cache.now) second.old.seats.items }
    requires third { IsWorkerCount (length third.old.seats.items) × (length third.old.spaces.items ≡ length third.old.seats.items) × All (IsAtHome race.now.cache.now) third.old.seats.items }
{
    let mut one = ||
        requires { IsSync R.row × IsOf race.now.cache.now.registry race.now.counter.now × IsWorkerCount (length second.now.seats.items) × (length second.now.spaces.items ≡ length second.now.seats.items) × All (IsAtHome race.now.cache.now) second.now.seats.items }
    { call(race, 1, second) };
    let mut other = ||
        requires { IsSync R.row × IsOf race.now.cache.now.registry race.now.counter.now × IsWorkerCount (length third.now.seats.items) × (length third.now.spaces.items ≡ length third.now.seats.items) × All (IsAtHome race.now.cache.now) third.now.seats.items }
    { call(race, 2, third) };
    join_mut(race.rt, &mut one, &mut other);
}

/// Runs the rounds of three callers concurrently.
fn call_all<'a, R: Threads + Wait + Clock + Sync + AllocGlobal>(
    race: &Race<'_, 'a, R>,
    first: &mut Caller<'a>,
    second: &mut Caller<'a>,
    third: &mut Caller<'a>,
)
    requires class { IsOf race.now.cache.now.registry race.now.counter.now }
    requires first { IsWorkerCount (length first.old.seats.items) × (length first.old.spaces.items ≡ length first.old.seats.items) × All (IsAtHome race.now.cache.now) first.old.seats.items }
    requires second { IsWorkerCount (length second.old.seats.items) × (length second.old.spaces.items ≡ length second.old.seats.items) × All (IsAtHome race.now.cache.now) second.old.seats.items }
    requires third { IsWorkerCount (length third.old.seats.items) × (length third.old.spaces.items ≡ length third.old.seats.items) × All (IsAtHome race.now.cache.now) third.old.seats.items }
{
    let mut one = ||
        requires { IsSync R.row × IsOf race.now.cache.now.registry race.now.counter.now × IsWorkerCount (length first.now.seats.items) × (length first.now.spaces.items ≡ length first.now.seats.items) × All (IsAtHome race.now.cache.now) first.now.seats.items }
    { call(race, 0, first) };
    let mut others = ||
        requires second { IsSync R.row × IsOf race.now.cache.now.registry race.now.counter.now × IsWorkerCount (length second.now.seats.items) × (length second.now.spaces.items ≡ length second.now.seats.items) × All (IsAtHome race.now.cache.now) second.now.seats.items }
        requires third { IsWorkerCount (length third.now.seats.items) × (length third.now.spaces.items ≡ length third.now.seats.items) × All (IsAtHome race.now.cache.now) third.now.seats.items }
    { call_both(race, second, third) };
    join_mut(race.rt, &mut one, &mut others);
}

/// Returns a caller with this seat and one workspace.
fn caller_at<'a>(alloc: Global, seat: Seat<'a>) -> Result<Caller<'a>, AllocError>
    ensures seats { IfOk result (λ c. IsWorkerCount (length c.seats.items)) }
    ensures spaces { IfOk result (λ c. length c.spaces.items ≡ length c.seats.items) }
    ensures table { IfOk result (λ c. All (λ s. s.table ≡ seat.entry.table) c.seats.items) }
{
    let mut seats = Vec::new(alloc);
    seats.push(seat)?;
    Ok(Caller {
        seats,
        spaces: workspaces(alloc, 1)?,
        answers: Vec::new(alloc),
    })
}

/// Returns a caller with the last of these seats, `None` if there is none, or when out of memory.
fn next_caller<'a>(
    alloc: Global,
    _cache: &Cache<'a, 'static, NoLoader>,
    seats: &mut Vec<Seat<'a>>,
) -> Option<Caller<'a>>
    requires { All (IsAtHome _cache.now) seats.old.items }
    ensures seats { IfSome result (λ c. IsWorkerCount (length c.seats.items)) }
    ensures spaces { IfSome result (λ c. length c.spaces.items ≡ length c.seats.items) }
    ensures home { IfSome result (λ c. All (IsAtHome _cache.now) c.seats.items) }
    ensures others { All (IsAtHome _cache.now) seats.new.items }
{
    match seats.pop() {
        Some(seat) => caller_at(alloc, seat).ok(),
        None => None,
    }
}

/// The numbers that the two increments returned, and the entry after all calls.
type Outcome = (i64, i64, i64);

fn outcome_of(
    second: &Caller<'_>,
    third: &Caller<'_>,
    left: Result<Reply, InvokeRefusal>,
) -> Option<Outcome> {
    match (
        long_of(&second.answers, 0),
        long_of(&third.answers, 0),
        left,
    ) {
        (Some(one), Some(other), Ok(Reply::Value(Some(after)))) => Some((one, other, after)),
        _ => None,
    }
}

/// Makes a put and two increments, each in a separate round, and returns the outcome.
/// Returns `None` if a call started while another was delayed.
fn raced<'a, R: Threads + Wait + Clock + Sync + AllocGlobal>(
    rt: &R,
    alloc: Global,
    registry: &'a Registry,
    counter: &'a ClassId,
    delays: [u64; 3],
) -> Option<Outcome>
    requires { IsOf registry.now counter.now }
{
    let tables = Tables::new(alloc, 1).ok()?;
    let (cache, mut seats) = opened(alloc, registry, tables, 4)?;
    let mut first = next_caller(alloc, &cache, &mut seats)?;
    let mut second = next_caller(alloc, &cache, &mut seats)?;
    let mut third = next_caller(alloc, &cache, &mut seats)?;
    let mut reader = seats.pop()?;
    let gate = Holding {
        rt,
        is_held: AtomicBool::new(false),
        have_met: AtomicBool::new(false),
    };
    let race = Race {
        rt,
        cache: &cache,
        counter,
        gate: &gate,
        delays,
    };
    call_all(&race, &mut first, &mut second, &mut third);
    if gate.have_met.load(Ordering::Acquire) {
        return None;
    }
    outcome_of(&second, &third, cache.get(rt, &mut reader, 5))
}

/// Does the same in a new registry, which defines the class.
fn raced_anew<R: Threads + Wait + Clock + Sync + AllocGlobal>(
    rt: &R,
    alloc: Global,
    bytes: &[u8],
    delays: [u64; 3],
) -> Option<Outcome> {
    match Registry::new(alloc) {
        Ok(registry) => match registry.define(rt, alloc, bytes) {
            Ok(counter) => raced(rt, alloc, &registry, &counter, delays),
            Err(_) => None,
        },
        Err(_) => None,
    }
}

/// The delays of the three callers in microseconds: none, and those that favour each order.
static DELAYS: [[u64; 3]; 7] = [
    [0, 0, 0],
    [0, 300, 600],
    [0, 600, 300],
    [300, 0, 600],
    [300, 600, 0],
    [600, 0, 300],
    [600, 300, 0],
];

/// Marks this outcome as seen; returns false if no order of the calls has it.
fn is_marked(seen: &mut [bool; 6], outcome: Outcome) -> bool {
    let mut is_known = false;
    for (mark, known) in seen.iter_mut().zip(OUTCOMES) {
        if known == outcome {
            *mark = true;
            is_known = true;
        }
    }
    is_known
}

/// Marks the outcomes of a race with each of the delays; returns false if one of them is impossible.
fn race_all<R: Threads + Wait + Clock + Sync + AllocGlobal>(
    rt: &R,
    alloc: Global,
    counter: &[u8],
    seen: &mut [bool; 6],
) -> bool {
    let mut are_known = true;
    for delays in DELAYS {
        let outcome = raced_anew(rt, alloc, counter, delays);
        are_known = are_known && outcome.is_some_and(|outcome| is_marked(seen, outcome));
    }
    are_known
}

#[test]
fn calls_of_three_rounds_on_one_key_come_in_several_orders(rt: HostRuntime) -> Result<(), Fail> {
    let counter = rows::counter(rt.alloc())?;
    let mut seen = [false; 6];
    for _ in 0..20 {
        assert!(rt; race_all(&rt, rt.alloc(), &counter, &mut seen));
    }
    assert!(rt;
        seen.iter().filter(|is_seen| **is_seen).count() > 1,
        "one order alone"
    );
    Ok(())
}
