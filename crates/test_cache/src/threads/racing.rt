//! Three callers, each with one call on the same absent key, in an unspecified order.

ghost use Rattle.std.specs.Prelude.{◌≡◌};
ghost use Rattle.registry.specs.Ids.{IsOf};

use super::following::Marks;
use super::{ONE, Work, count_in, worked};
use cache::{Cache, Closed, Seat};
use jtypes::NoLoader;
use machine::Workspace;
use registry::{ClassId, Registry};
use rowclasses as rows;
use std::alloc::Global;
use std::sync::Wait;
use std::test::Fail;
use std::thread;
use std::thread::Threads;
use std::time::{Clock, Duration};
use stripe::ArgSlice;

/// Returns the delay of a caller in microseconds.
pub fn delay_at(delays: [u64; 3], place: usize) -> u64 {
    delays.get(place).copied().unwrap_or(0)
}

/// After `delay` microseconds, the first caller puts 1 on key 5, and any other increments the entry.
pub fn race<'a, R: Wait + Clock>(
    rt: &R,
    alloc: Global,
    cache: &Cache<'a, 'static, NoLoader>,
    seat: &mut Seat<'a>,
    counter: &ClassId,
    place: usize,
    delay: u64,
)
    requires seat { seat.old.table ≡ cache.now.table }
    requires class { IsOf cache.now.registry counter.now }
    ensures table { seat.new.table ≡ seat.old.table }
    ensures caller { seat.new.caller ≡ seat.old.caller }
    ensures made { seat.new.made ≡ seat.old.made }
{
    let Ok(mut workspace) = Workspace::new(alloc) else {
        return;
    };
    thread::sleep(rt, Duration::from_micros(delay));
    if place == 0 {
        let _put = cache.put(rt, seat, 5, 1);
    } else {
        let one = ArgSlice { items: &ONE };
        let _counted = cache.invoke(rt, seat, &mut workspace, counter, 5, one);
    }
}

/// The numbers that the two increments returned, and the entry after all calls.
type Outcome = (i64, i64, i64);

/// Returns the `Long` that the first call at a seat returned.
fn count_of(closed: &Closed<'_>, seat: usize) -> Option<i64> {
    count_in(closed.receipts.get(seat)?.first()?)
}

fn outcome_of(closed: &Closed<'_>) -> Option<Outcome> {
    match (
        count_of(closed, 1),
        count_of(closed, 2),
        closed.tables.entry(5),
    ) {
        (Some(one), Some(other), Some(after)) => Some((one, other, after)),
        _ => None,
    }
}

/// Makes a put and two increments, each after its delay, and returns the outcome.
fn raced<R: Threads + Wait + Clock + Sync>(
    rt: &R,
    alloc: Global,
    bytes: &[u8],
    delays: [u64; 3],
) -> Option<Outcome> {
    match Registry::new(alloc) {
        Ok(registry) => match registry.define(rt, alloc, bytes) {
            Ok(counter) => {
                let (marks, work) = (Marks::new(), Work::Race(delays));
                match worked(rt, alloc, &registry, &counter, 1, 3, work, &marks) {
                    Ok(closed) => outcome_of(&closed),
                    Err(_) => None,
                }
            }
            Err(_) => None,
        },
        Err(_) => None,
    }
}

/// The possible outcomes, for the six orders of the calls.
static OUTCOMES: [Outcome; 6] = [
    (2, 3, 3),
    (3, 2, 3),
    (1, 2, 2),
    (2, 1, 2),
    (1, 2, 1),
    (2, 1, 1),
];

/// The delays of the three callers in microseconds: none, and those that favour each order.
static DELAYS: [[u64; 3]; 7] = [
    [0, 0, 0],
    [0, 300, 600],
    [0, 600, 300],
    [300, 0, 600],
    [300, 600, 0],
    [600, 0, 300],
    [600, 300, 0],
];

/// Marks this outcome as seen; returns false if no order of the calls has it.
fn is_marked(seen: &mut [bool; 6], outcome: Outcome) -> bool {
    let mut is_known = false;
    for (mark, known) in seen.iter_mut().zip(OUTCOMES) {
        if known == outcome {
            *mark = true;
            is_known = true;
        }
    }
    is_known
}

/// Marks the outcomes of a race with each of the delays; returns false if one of them is impossible.
fn race_all<R: Threads + Wait + Clock + Sync>(
    rt: &R,
    alloc: Global,
    counter: &[u8],
    seen: &mut [bool; 6],
) -> bool {
    let mut are_known = true;
    for delays in DELAYS {
        let outcome = raced(rt, alloc, counter, delays);
        are_known = are_known && outcome.is_some_and(|outcome| is_marked(seen, outcome));
    }
    are_known
}

#[test]
fn calls_of_three_seats_on_one_key_come_in_several_orders(rt: HostRuntime) -> Result<(), Fail> {
    let counter = rows::counter(rt.alloc())?;
    let mut seen = [false; 6];
    for _ in 0..20 {
        assert!(rt; race_all(&rt, rt.alloc(), &counter, &mut seen));
    }
    assert!(rt;
        seen.iter().filter(|is_seen| **is_seen).count() > 1,
        "one order alone"
    );
    Ok(())
}
