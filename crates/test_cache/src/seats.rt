//! Calls on caches, on one thread.

ghost use Rattle.std.specs.Prelude.{◌≡◌, IfOk};
ghost use Rattle.cache.specs.Opened.{IsSeat};
ghost use Rattle.registry.specs.Ids.{IsOf};

use cache::{Cache, Closed, InvokeRefusal, NoGate, Receipt, Seat};
use jtypes::{Arg, NoLoader, Outcome};
use machine::Workspace;
use registry::{ClassId, Registry};
use rowclasses as rows;
use std::alloc::{AllocError, Global};
use std::sync::Wait;
use std::test::Fail;
use std::time::Duration;
use stripe::{ArgSlice, Call, OpenRefusal, Record, Reply, Tables};

/// The result of a call.
type Told = Result<Reply, InvokeRefusal>;

/// A call that isn't an invocation.
#[derive(Clone, Copy)]
enum Plain {
    Get,
    Put(i64),
    Remove,
    Contains,
}

/// Returns the reply to an invocation that returned this `Long`.
fn returned(n: i64) -> Reply {
    Reply::Result(Outcome::Returned(Arg::Long(n)))
}

/// Returns why a cache is not opened, `None` if it is.
fn refused(
    alloc: Global,
    registry: &Registry,
    stripes: usize,
    journal: usize,
    seats: usize,
) -> Option<OpenRefusal> {
    let tables = match Tables::new(alloc, stripes) {
        Ok(tables) => tables,
        Err(refusal) => return Some(refusal),
    };
    match Cache::open(alloc, registry, tables, journal, seats, &NoLoader) {
        Ok(_) => None,
        Err((refusal, _tables)) => Some(refusal),
    }
}

/// Opens a cache with one seat, which has the receipts of its first two calls preallocated.
fn opened<'a>(
    alloc: Global,
    registry: &'a Registry,
    stripes: usize,
    journal: usize,
) -> Result<(Cache<'a, 'static, NoLoader>, Seat<'a>), OpenRefusal>
    ensures registry { IfOk result (λ r. r.0.registry ≡ registry.now) }
    ensures count { IfOk result (λ r. r.0.seats ≡ 1) }
    ensures seat { IfOk result (λ r. IsSeat r.0.table 1 0 r.1) }
{
    let tables = Tables::new(alloc, stripes)?;
    match Cache::open_for(alloc, registry, tables, journal, 1, 2, &NoLoader) {
        Ok((cache, mut seats)) => {
            let seat = seats.remove(0);
            Ok((cache, seat))
        }
        Err((refusal, _tables)) => Err(refusal),
    }
}

/// Makes a call that isn't an invocation.
fn asked<'a, R: Wait>(
    rt: &R,
    cache: &Cache<'a, 'static, NoLoader>,
    seat: &mut Seat<'a>,
    key: i64,
    call: Plain,
) -> Told
    requires { seat.old.table ≡ cache.now.table }
    ensures table { seat.new.table ≡ seat.old.table }
    ensures caller { seat.new.caller ≡ seat.old.caller }
    ensures made { seat.new.made ≡ seat.old.made }
{
    match call {
        Plain::Get => cache.get(rt, seat, key),
        Plain::Put(value) => cache.put(rt, seat, key, value),
        Plain::Remove => cache.remove(rt, seat, key),
        Plain::Contains => cache.contains_key(rt, seat, key),
    }
}

/// Invokes a class with no arguments.
fn invoked<'a, R: Wait>(
    rt: &R,
    cache: &Cache<'a, 'static, NoLoader>,
    seat: &mut Seat<'a>,
    workspace: &mut Workspace,
    class: &ClassId,
    key: i64,
) -> Told
    requires seat { seat.old.table ≡ cache.now.table }
    requires class { IsOf cache.now.registry class.now }
    ensures table { seat.new.table ≡ seat.old.table }
    ensures caller { seat.new.caller ≡ seat.old.caller }
    ensures made { seat.new.made ≡ seat.old.made }
{
    cache.invoke(rt, seat, workspace, class, key, ArgSlice::none())
}

/// Closes a cache that has one seat.
fn closed<'a>(
    alloc: Global,
    cache: Cache<'a, 'static, NoLoader>,
    seat: Seat<'a>,
) -> Result<Closed<'a>, AllocError>
    requires count { cache.seats ≡ 1 }
    requires seat { IsSeat cache.table 1 0 seat }
{
    let mut seats = Vec::new(alloc);
    seats.push(seat)?;
    Ok(cache.close(seats))
}

/// Makes each kind of call on a key, in the order put, invoke, get, contains, remove.
fn asked_all<'a, R: Wait>(
    rt: &R,
    cache: &Cache<'a, 'static, NoLoader>,
    seat: &mut Seat<'a>,
    workspace: &mut Workspace,
    plus: &ClassId,
    key: i64,
) -> [Told; 5]
    requires seat { seat.old.table ≡ cache.now.table }
    requires class { IsOf cache.now.registry plus.now }
    ensures table { seat.new.table ≡ seat.old.table }
    ensures caller { seat.new.caller ≡ seat.old.caller }
    ensures made { seat.new.made ≡ seat.old.made }
{
    let put = asked(rt, cache, seat, key, Plain::Put(5));
    let result = invoked(rt, cache, seat, workspace, plus, key);
    let got = asked(rt, cache, seat, key, Plain::Get);
    let there = asked(rt, cache, seat, key, Plain::Contains);
    let removed = asked(rt, cache, seat, key, Plain::Remove);
    [put, result, got, there, removed]
}

/// Checks the results of `asked_all` with Plus.
fn are_answers(told: &[Told; 5]) -> bool {
    told.as_slice()
        == [
            Ok(Reply::Done),
            Ok(returned(6)),
            Ok(Reply::Value(Some(6))),
            Ok(Reply::Flag(true)),
            Ok(Reply::Flag(true)),
        ]
        .as_slice()
}

/// Does the same on key 1 in a new workspace, with the receipts preallocated; returns `None` when out of memory.
fn asked_in_new<'a, R: Wait>(
    rt: &R,
    alloc: Global,
    cache: &Cache<'a, 'static, NoLoader>,
    seat: &mut Seat<'a>,
    plus: &ClassId,
) -> Option<[Told; 5]>
    requires seat { seat.old.table ≡ cache.now.table }
    requires class { IsOf cache.now.registry plus.now }
    ensures table { seat.new.table ≡ seat.old.table }
    ensures caller { seat.new.caller ≡ seat.old.caller }
    ensures made { seat.new.made ≡ seat.old.made }
{
    if seat.expect(5).is_err() {
        return None;
    }
    match Workspace::new(alloc) {
        Ok(mut workspace) => Some(asked_all(rt, cache, seat, &mut workspace, plus, 1)),
        Err(_) => None,
    }
}

/// Makes these calls on a cache of two stripes and closes it. Returns `None` if a call has a wrong result.
fn called<'a, R: Wait>(
    rt: &R,
    alloc: Global,
    registry: &'a Registry,
    plus: &ClassId,
) -> Option<Closed<'a>>
    requires { IsOf registry.now plus.now }
{
    match opened(alloc, registry, 2, 16) {
        Ok((cache, mut seat)) => {
            let told = asked_in_new(rt, alloc, &cache, &mut seat, plus);
            let closed = closed(alloc, cache, seat);
            match told {
                Some(told) if are_answers(&told) => closed.ok(),
                _ => None,
            }
        }
        Err(_) => None,
    }
}

/// Returns the number of records of a stripe, and the number of receipts of the first seat.
fn counts(closed: &Closed<'_>, stripe: usize) -> Option<(usize, usize)> {
    let Some(history) = closed.histories.get(stripe) else {
        return None;
    };
    let Some(receipts) = closed.receipts.first() else {
        return None;
    };
    Some((history.len(), receipts.len()))
}

/// Checks that a receipt names the record at index `place` of a stripe, and has its reply.
fn is_named(record: &Record<'_>, receipt: &Receipt<'_>, stripe: usize, place: usize) -> bool {
    let names = receipt.stripe == stripe && receipt.place == place;
    names && record.number as usize == place && record.reply == receipt.reply
}

/// Returns the reply in the first seat's receipt at index `place`, if it names the record at the same index of this stripe.
fn named(closed: &Closed<'_>, stripe: usize, place: usize) -> Option<Reply> {
    let history = closed.histories.get(stripe)?;
    let receipts = closed.receipts.first()?;
    let record = history.get(place)?;
    let receipt = receipts.get(place)?;
    if is_named(record, receipt, stripe, place) {
        Some(receipt.reply)
    } else {
        None
    }
}

/// Does the same for the indexes 0 to 4.
fn named_all(closed: &Closed<'_>, stripe: usize) -> [Option<Reply>; 5] {
    let mut told = [None; 5];
    for place in 0..5 {
        told[place] = named(closed, stripe, place);
    }
    told
}

/// Checks that the receipts of these calls name the five records of stripe 1.
fn are_receipts(closed: &Closed<'_>) -> bool {
    let are_five = counts(closed, 0) == Some((0, 5)) && counts(closed, 1) == Some((5, 5));
    let are_named = named_all(closed, 1).as_slice()
        == [
            Some(Reply::Done),
            Some(returned(6)),
            Some(Reply::Value(Some(6))),
            Some(Reply::Flag(true)),
            Some(Reply::Flag(true)),
        ]
        .as_slice();
    are_five && are_named
}

#[test]
fn counts_outside_are_refused(rt: HostRuntime) -> Result<(), Fail> {
    let alloc = rt.alloc();
    let registry = Registry::new(alloc)?;
    for (stripes, journal, seats) in [
        (0, 1, 1),
        (65, 1, 1),
        (1, 0, 1),
        (1, 4097, 1),
        (1, 1, 0),
        (1, 1, 17),
    ] {
        assert_eq!(rt;
            refused(alloc, &registry, stripes, journal, seats),
            Some(OpenRefusal::BadCount)
        );
    }
    for (stripes, journal, seats) in [(1, 1, 1), (64, 16, 16), (1, 4096, 1)] {
        assert_eq!(rt; refused(alloc, &registry, stripes, journal, seats), None);
    }
    Ok(())
}

/// Checks the results and the receipts of these calls, and that key 1 has no entry after them.
fn one_key<R: Wait>(rt: &R, alloc: Global, registry: &Registry, plus: &ClassId) -> bool
    requires { IsOf registry.now plus.now }
{
    match called(rt, alloc, registry, plus) {
        Some(closed) => are_receipts(&closed) && closed.tables.entry(1) == None,
        None => false,
    }
}

/// Does the same in a new registry, which defines the class.
fn one_key_is_right<R: Wait>(rt: &R, alloc: Global, bytes: &[u8]) -> bool {
    match Registry::new(alloc) {
        Ok(registry) => match registry.define(rt, alloc, bytes) {
            Ok(plus) => one_key(rt, alloc, &registry, &plus),
            Err(_) => false,
        },
        Err(_) => false,
    }
}

#[test]
fn calls_on_one_key(rt: HostRuntime) -> Result<(), Fail> {
    let plus = rows::plus(rt.alloc())?;
    assert!(rt; one_key_is_right(&rt, rt.alloc(), &plus));
    Ok(())
}

/// The results of a put of 5 and a get on key 1, where a stripe holds one record, and the state after them: the entry, and the numbers of
/// records and receipts.
type Full = (Told, Told, Option<(Option<i64>, Option<(usize, usize)>)>);

fn full<R: Wait>(rt: &R, alloc: Global, registry: &Registry) -> Option<Full> {
    match opened(alloc, registry, 1, 1) {
        Ok((cache, mut seat)) => {
            let put = asked(rt, &cache, &mut seat, 1, Plain::Put(5));
            let got = asked(rt, &cache, &mut seat, 1, Plain::Get);
            let left = match closed(alloc, cache, seat) {
                Ok(closed) => Some((closed.tables.entry(1), counts(&closed, 0))),
                Err(_) => None,
            };
            Some((put, got, left))
        }
        Err(_) => None,
    }
}

#[test]
fn a_full_stripe_refuses(rt: HostRuntime) -> Result<(), Fail> {
    let registry = Registry::new(rt.alloc())?;
    let put = Ok(Reply::Done);
    let got = Err(InvokeRefusal::JournalFull);
    let left = Some((Some(5), Some((1, 1))));
    assert!(rt; full(&rt, rt.alloc(), &registry) == Some((put, got, left)));
    Ok(())
}

/// Opens a cache of two stripes with two seats.
fn opened_for_two<'a>(
    alloc: Global,
    registry: &'a Registry,
) -> Result<(Cache<'a, 'static, NoLoader>, Seat<'a>, Seat<'a>), OpenRefusal>
    ensures first { IfOk result (λ r. r.1.table ≡ r.0.table) }
    ensures second { IfOk result (λ r. r.2.table ≡ r.0.table) }
{
    let tables = Tables::new(alloc, 2)?;
    match Cache::open(alloc, registry, tables, 4, 2, &NoLoader) {
        Ok((cache, mut seats)) => {
            let first = seats.remove(0);
            let second = seats.remove(0);
            Ok((cache, first, second))
        }
        Err((refusal, _tables)) => Err(refusal),
    }
}

/// Returns the results of calls at two seats. By `call_at` the first seat puts and gets on key 1 and puts on key 2.
/// Then the second seat gets key 1, whose stripe the first seat unlocked before it locked that of key 2; after `leave` it gets key 2.
fn held_and_left<R: Wait>(rt: &R, alloc: Global, registry: &Registry) -> Option<[Told; 5]> {
    let mut workspace = Workspace::new(alloc).ok()?;
    let Ok((cache, mut first, mut second)) = opened_for_two(alloc, registry) else {
        return None;
    };
    let spaces = &mut workspace;
    let put = Call::Put { key: 1, value: 5 };
    let one = cache.call_at(rt, &mut first, spaces, put, 0, &NoGate);
    let again = cache.call_at(rt, &mut first, spaces, Call::Get { key: 1 }, 0, &NoGate);
    let put = Call::Put { key: 2, value: 6 };
    let other = cache.call_at(rt, &mut first, spaces, put, 0, &NoGate);
    let left = cache.get(rt, &mut second, 1);
    cache.leave(&mut first);
    let given = cache.get(rt, &mut second, 2);
    Some([one, again, other, left, given])
}

#[test]
fn a_stripe_is_held_on_until_it_is_left(rt: HostRuntime) -> Result<(), Fail> {
    let registry = Registry::new(rt.alloc())?;
    let done = Ok(Reply::Done);
    let five = Ok(Reply::Value(Some(5)));
    let six = Ok(Reply::Value(Some(6)));
    assert!(rt; held_and_left(&rt, rt.alloc(), &registry) == Some([done, five, done, five, six]));
    Ok(())
}

/// Returns which of six calls of `hold_within` on two stripes succeed, with no time to wait or with a millisecond.
/// The first seat locks the stripe of key 1. The second seat can't lock it for key 3 at once, or for key 1 in time, but that of key 2.
/// After `leave` of the first seat, the second seat locks the stripe of key 1, and the first seat that of key 2.
fn held_within<R: Wait>(rt: &R, alloc: Global, registry: &Registry) -> Option<[bool; 6]> {
    let Ok((cache, mut first, mut second)) = opened_for_two(alloc, registry) else {
        return None;
    };
    let soon = Duration::from_millis(1);
    let one = cache.hold_within(rt, &mut first, 1, Duration::ZERO);
    let at_once = cache.hold_within(rt, &mut second, 3, Duration::ZERO);
    let later = cache.hold_within(rt, &mut second, 1, soon);
    let other = cache.hold_within(rt, &mut second, 2, soon);
    cache.leave(&mut first);
    let left = cache.hold_within(rt, &mut second, 1, Duration::ZERO);
    let back = cache.hold_within(rt, &mut first, 2, Duration::ZERO);
    Some([one, at_once, later, other, left, back])
}

#[test]
fn a_stripe_is_held_within_a_time(rt: HostRuntime) -> Result<(), Fail> {
    let registry = Registry::new(rt.alloc())?;
    let held = [true, false, false, true, true, true];
    assert!(rt; held_within(&rt, rt.alloc(), &registry) == Some(held));
    Ok(())
}
