//! Calls on caches, by several threads.

mod following;
mod racing;

ghost use Rattle.std.specs.Prelude.{◌≡◌, ◌<◌, ℕ, length, slice_index_or, IfOk};
ghost use Rattle.std.specs.List.{All};
ghost use Rattle.cache.specs.Opened.{AreFresh};
ghost use Rattle.registry.specs.Ids.{IsOf};

use self::following::{Marks, follow};
use self::racing::{delay_at, race};
use cache::{Cache, Closed, Gate, Receipt, Seat};
use jtypes::{Arg, NoLoader, Outcome};
use machine::Workspace;
use registry::{ClassId, Registry};
use rowclasses as rows;
use std::alloc::{AllocError, Global};
use std::sync::{Barrier, Wait};
use std::test::Fail;
use std::thread;
use std::thread::Threads;
use std::time::Clock;
use stripe::{ArgSlice, OpenRefusal, Reply, Tables};

/// The work of a worker, by its index.
trait Shift<W> {
    ghost accepts: { Self → W → Type 0 };

    ghost leaves: { Self → W → W → Type 0 };

    fn serve(&self, place: usize, worker: &mut W)
        requires { accepts self.now worker.old }
        ensures { leaves self.now worker.old worker.new };
}

/// Calls `serve` for each worker, on at most 16 threads.
fn serve_all<R: Threads + Sync, W: Send, S: Shift<W> + Sync>(rt: &R, crew: &mut Vec<W>, shift: &S)
    requires ready { All (S.accepts shift.now) crew.old.items }
    ensures count { length crew.new.items ≡ length crew.old.items }
    ensures left { (i : ℕ) (d : W) → i < length crew.old.items → S.leaves shift.now (slice_index_or crew.old.items i d) (slice_index_or crew.new.items i d) }
{
    let workers = crew.as_mut_slice();
    thread::for_each_mut(rt, workers, 16, &|place, worker| shift.serve(place, worker));
}

/// A gate where a call that has started waits at a barrier for another one.
#[derive(Drop)]
struct Meeting<'s, R> {
    rt: &'s R,
    barrier: &'s Barrier,
}

impl<'s, R: Wait> Gate for Meeting<'s, R> {
    fn started(&self, _job: usize) {
        self.barrier.wait(self.rt);
    }

    fn answered(&self, _job: usize) {}
}

/// The calls of each caller.
#[derive(Clone, Copy)]
enum Work {
    /// Puts and gets on key 1, 500 times.
    PutAndGet,
    /// Increments the entry of key 0, 100 times.
    Count,
    /// The first caller puts on key 0, any other on key 1. No call ends before two have started.
    Meet,
    /// Both callers put on key 0. After the answer to the first, its gate waits for the answer to the second.
    Follow,
    /// After its delay in microseconds, the first caller puts on key 5, and any other increments the entry.
    Race([u64; 3]),
}

/// The work of the callers of a cache, and what they share.
#[derive(Drop)]
struct Callers<'s, 'a, R> {
    rt: &'s R,
    alloc: Global,
    cache: &'s Cache<'a, 'static, NoLoader>,
    counter: &'s ClassId,
    barrier: &'s Barrier,
    marks: &'s Marks,
    work: Work,
}

impl<'s, 'a, R: Wait + Clock> Shift<Seat<'a>> for Callers<'s, 'a, R> {
    ghost use Rattle.std.specs.Prelude.{◌≡◌};
    ghost use Rattle.registry.specs.Ids.{IsOf};

    ghost accepts = { λ s seat. (seat.table ≡ s.cache.now.table) × IsOf s.cache.now.registry s.counter.now };

    ghost leaves = { λ s old new. (new.table ≡ old.table) × (new.caller ≡ old.caller) × (new.made ≡ old.made) };

    fn serve(&self, place: usize, seat: &mut Seat<'a>) {
        match self.work {
            Work::PutAndGet => put_and_get(self.rt, self.cache, seat),
            Work::Count => count(self.rt, self.alloc, self.cache, seat, self.counter),
            Work::Meet => meet(self.rt, self.cache, seat, place, self.barrier),
            Work::Follow => follow(self.rt, self.cache, seat, place, self.marks),
            Work::Race(delays) => {
                let delay = delay_at(delays, place);
                race(
                    self.rt,
                    self.alloc,
                    self.cache,
                    seat,
                    self.counter,
                    place,
                    delay,
                )
            }
        }
    }
}

/// Puts and gets on key 1, 500 times.
fn put_and_get<'a, R: Wait>(rt: &R, cache: &Cache<'a, 'static, NoLoader>, seat: &mut Seat<'a>)
    requires { seat.old.table ≡ cache.now.table }
    ensures table { seat.new.table ≡ seat.old.table }
    ensures caller { seat.new.caller ≡ seat.old.caller }
    ensures made { seat.new.made ≡ seat.old.made }
{
    for value in 0..500 {
        let _put = cache.put(rt, seat, 1, value);
        let _got = cache.get(rt, seat, 1);
    }
}

/// Increments the entry of key 0, 100 times.
fn count<'a, R: Wait>(
    rt: &R,
    alloc: Global,
    cache: &Cache<'a, 'static, NoLoader>,
    seat: &mut Seat<'a>,
    counter: &ClassId,
)
    requires seat { seat.old.table ≡ cache.now.table }
    requires class { IsOf cache.now.registry counter.now }
    ensures table { seat.new.table ≡ seat.old.table }
    ensures caller { seat.new.caller ≡ seat.old.caller }
    ensures made { seat.new.made ≡ seat.old.made }
{
    let Ok(mut workspace) = Workspace::new(alloc) else {
        return;
    };
    for _ in 0..100 {
        count_one(rt, cache, seat, &mut workspace, counter);
    }
}

/// The argument of each increment.
static ONE: [Arg; 1] = [Arg::Long(1)];

/// Increments the entry of key 0 by an invocation of Counter.
fn count_one<'a, R: Wait>(
    rt: &R,
    cache: &Cache<'a, 'static, NoLoader>,
    seat: &mut Seat<'a>,
    workspace: &mut Workspace,
    counter: &ClassId,
)
    requires seat { seat.old.table ≡ cache.now.table }
    requires class { IsOf cache.now.registry counter.now }
    ensures table { seat.new.table ≡ seat.old.table }
    ensures caller { seat.new.caller ≡ seat.old.caller }
    ensures made { seat.new.made ≡ seat.old.made }
{
    let one = ArgSlice { items: &ONE };
    let _counted = cache.invoke(rt, seat, workspace, counter, 0, one);
}

/// Puts 7 on key 0 if the caller is the first, else on key 1; the call waits until another one has started.
fn meet<'a, R: Wait>(
    rt: &R,
    cache: &Cache<'a, 'static, NoLoader>,
    seat: &mut Seat<'a>,
    place: usize,
    barrier: &Barrier,
)
    requires { seat.old.table ≡ cache.now.table }
    ensures table { seat.new.table ≡ seat.old.table }
    ensures caller { seat.new.caller ≡ seat.old.caller }
    ensures made { seat.new.made ≡ seat.old.made }
{
    let key = if place == 0 { 0 } else { 1 };
    let _put = cache.put_at(rt, seat, key, 7, place, &Meeting { rt, barrier });
}

/// Opens a cache with `stripes` stripes and `seats` seats.
fn opened<'a>(
    alloc: Global,
    registry: &'a Registry,
    stripes: usize,
    seats: usize,
) -> Result<(Cache<'a, 'static, NoLoader>, Vec<Seat<'a>>), OpenRefusal>
    ensures registry { IfOk result (λ r. r.0.registry ≡ registry.now) }
    ensures seats { IfOk result (λ r. AreFresh r.0.table r.0.seats r.1.items) }
{
    let tables = Tables::new(alloc, stripes)?;
    match Cache::open(alloc, registry, tables, 4096, seats, &NoLoader) {
        Ok(opened) => Ok(opened),
        Err((refusal, _tables)) => Err(refusal),
    }
}

/// Does the work with one caller for each seat, on at most 16 threads, and closes the cache.
fn worked<'a, R: Threads + Wait + Clock + Sync>(
    rt: &R,
    alloc: Global,
    registry: &'a Registry,
    counter: &ClassId,
    stripes: usize,
    seats: usize,
    work: Work,
    marks: &Marks,
) -> Result<Closed<'a>, OpenRefusal>
    requires { IsOf registry.now counter.now }
{
    let (cache, mut seats) = opened(alloc, registry, stripes, seats)?;
    let callers = Callers {
        rt,
        alloc,
        cache: &cache,
        counter,
        barrier: &Barrier::new(2),
        marks,
        work,
    };
    serve_all(rt, &mut seats, &callers);
    Ok(cache.close(seats))
}

/// Returns how many seats have exactly `receipts` receipts.
fn seats_of(closed: &Closed<'_>, receipts: usize) -> usize {
    closed
        .receipts
        .iter()
        .filter(|list| list.len() == receipts)
        .count()
}

/// Returns how many records a stripe has, `None` if there is no such stripe.
fn records(closed: &Closed<'_>, stripe: usize) -> Option<usize> {
    match closed.histories.get(stripe) {
        Some(history) => Some(history.len()),
        None => None,
    }
}

/// Returns the `Long` that an invocation returned, `None` for any other reply.
fn count_in(receipt: &Receipt<'_>) -> Option<i64> {
    match receipt.reply {
        Reply::Result(Outcome::Returned(Arg::Long(count))) => Some(count),
        _ => None,
    }
}

/// Checks that each invocation at a seat returned a greater number than the one before it.
fn counts_rise(seat: &[Receipt<'_>]) -> bool {
    let mut last = 0i64;
    for receipt in seat {
        match count_in(receipt) {
            Some(count) if last < count => last = count,
            _ => return false,
        }
    }
    true
}

/// Returns the numbers that the invocations at all seats returned.
fn counts(alloc: Global, closed: &Closed<'_>) -> Result<Vec<i64>, AllocError> {
    let mut counts = Vec::new(alloc);
    for seat in &closed.receipts {
        for receipt in seat {
            if let Some(count) = count_in(receipt) {
                counts.push(count)?;
            }
        }
    }
    Ok(counts)
}

/// The state after the work of all callers.
#[derive(Clone, Copy, Debug, PartialEq, Eq)]
struct Sums {
    /// The number of seats with the expected number of receipts.
    seats: usize,
    /// The numbers of records of the stripes 0 and 1.
    records: (Option<usize>, Option<usize>),
    /// The entries of the keys 0 and 1.
    entries: (Option<i64>, Option<i64>),
    /// Whether the invocations returned the numbers 1 to 1,600, each once, and in ascending order at each seat.
    are_numbered: bool,
}

/// Checks that the invocations returned the numbers 1 to 1,600, each once, and in ascending order at each seat.
fn are_numbered(alloc: Global, closed: &Closed<'_>) -> bool {
    match counts(alloc, closed) {
        Ok(counts) => {
            counts.len() == 1600
                && (1..=1600).all(|count| counts.contains(&count))
                && closed.receipts.iter().all(|seat| counts_rise(seat))
        }
        Err(_) => false,
    }
}

fn sums_of(alloc: Global, closed: &Closed<'_>, receipts: usize) -> Sums {
    Sums {
        seats: seats_of(closed, receipts),
        records: (records(closed, 0), records(closed, 1)),
        entries: (closed.tables.entry(0), closed.tables.entry(1)),
        are_numbered: are_numbered(alloc, closed),
    }
}

/// Does the work in a new registry, which defines the class of these bytes. Each seat is expected to have `receipts` receipts.
fn summed<R: Threads + Wait + Clock + Sync>(
    rt: &R,
    alloc: Global,
    bytes: &[u8],
    stripes: usize,
    seats: usize,
    work: Work,
    receipts: usize,
    marks: &Marks,
) -> Option<Sums> {
    match Registry::new(alloc) {
        Ok(registry) => match registry.define(rt, alloc, bytes) {
            Ok(counter) => {
                match worked(rt, alloc, &registry, &counter, stripes, seats, work, marks) {
                    Ok(closed) => Some(sums_of(alloc, &closed, receipts)),
                    Err(_) => None,
                }
            }
            Err(_) => None,
        },
        Err(_) => None,
    }
}

fn is_sync<T: Sync>(_: &T) {}

fn is_send<T: Send>(_: &T) {}

/// Returns how many seats a cache has. It compiles only if the cache is `Sync` and a seat is `Send`.
fn seats_handed(alloc: Global, registry: &Registry) -> Option<usize> {
    match opened(alloc, registry, 2, 2) {
        Ok((cache, seats)) => {
            is_sync(&cache);
            for seat in &seats {
                is_send(seat);
            }
            Some(seats.len())
        }
        Err(_) => None,
    }
}

#[test]
fn threads_share_a_cache_and_hand_seats_on(rt: HostRuntime) -> Result<(), Fail> {
    let registry = Registry::new(rt.alloc())?;
    assert_eq!(rt; seats_handed(rt.alloc(), &registry), Some(2));
    Ok(())
}

#[test]
fn two_callers_put_and_get(rt: HostRuntime) -> Result<(), Fail> {
    let counter = rows::counter(rt.alloc())?;
    let wanted = Sums {
        seats: 2,
        records: (Some(2000), None),
        entries: (None, Some(499)),
        are_numbered: false,
    };
    let sums = summed(
        &rt,
        rt.alloc(),
        &counter,
        1,
        2,
        Work::PutAndGet,
        1000,
        &Marks::new(),
    );
    assert_eq!(rt; sums, Some(wanted));
    Ok(())
}

#[test]
fn four_callers_count(rt: HostRuntime) -> Result<(), Fail> {
    let counter = rows::counter(rt.alloc())?;
    let wanted = Sums {
        seats: 4,
        records: (Some(400), None),
        entries: (Some(400), None),
        are_numbered: false,
    };
    let sums = summed(
        &rt,
        rt.alloc(),
        &counter,
        1,
        4,
        Work::Count,
        100,
        &Marks::new(),
    );
    assert_eq!(rt; sums, Some(wanted));
    Ok(())
}

#[test]
fn sixteen_callers_count(rt: HostRuntime) -> Result<(), Fail> {
    let counter = rows::counter(rt.alloc())?;
    let wanted = Sums {
        seats: 16,
        records: (Some(1600), None),
        entries: (Some(1600), None),
        are_numbered: true,
    };
    let sums = summed(
        &rt,
        rt.alloc(),
        &counter,
        1,
        16,
        Work::Count,
        100,
        &Marks::new(),
    );
    assert_eq!(rt; sums, Some(wanted));
    Ok(())
}

#[test]
fn calls_on_two_stripes_meet(rt: HostRuntime) -> Result<(), Fail> {
    let counter = rows::counter(rt.alloc())?;
    let wanted = Sums {
        seats: 2,
        records: (Some(1), Some(1)),
        entries: (Some(7), Some(7)),
        are_numbered: false,
    };
    let sums = summed(
        &rt,
        rt.alloc(),
        &counter,
        2,
        2,
        Work::Meet,
        1,
        &Marks::new(),
    );
    assert_eq!(rt; sums, Some(wanted));
    Ok(())
}

#[test]
fn an_answer_is_told_when_the_stripe_is_free(rt: HostRuntime) -> Result<(), Fail> {
    let counter = rows::counter(rt.alloc())?;
    let wanted = Sums {
        seats: 2,
        records: (Some(2), None),
        entries: (Some(7), None),
        are_numbered: false,
    };
    let marks = Marks::new();
    let sums = summed(&rt, rt.alloc(), &counter, 1, 2, Work::Follow, 1, &marks);
    assert_eq!(rt; sums, Some(wanted));
    assert!(rt; marks.seen());
    Ok(())
}
