//! Calls on a cache, measured in wall-clock time.
//!
//! A round opens one cache, makes the calls and closes it.
//! Only the calls are timed, from the start of the threads of the seats to the end of the last one.

ghost use Rattle.std.specs.Prelude.{◌≡◌, ◌<◌, IfOk};
ghost use Rattle.cache.specs.Opened.{AreFresh};
ghost use Rattle.registry.specs.Ids.{IsOf};

use crate::crew::{Callers, Kind, serve_all};
use crate::measure::{ROUNDS, Times, tenths, times_of};
use crate::report::Failure;
use cache::{Cache, Closed, Seat};
use jtypes::{NoLoader, Refusal};
use registry::{ClassId, Registry};
use std::alloc::{AllocError, Global};
use std::sync::Wait;
use std::thread::Threads;
use std::time::{Clock, Duration, Instant};
use stripe::{MOST_RECORDS, Tables};

/// The number of stripes of a cache.
const STRIPES: u32 = 16;

/// The calls of a round: the capacity of the histories of all stripes.
const CALLS: u32 = 65_536;

/// The distance between the keys of consecutive calls, so that they are far from each other in a table.
const STEP: u32 = 7919;

pub const LEAST_KEYS: u32 = STRIPES;

pub const MOST_KEYS: u32 = 1_000_000;

/// The times of an invocation and of a put: the time of a round, divided by the calls of all seats.
/// `sums` has the sums of the entries after the invocations and after the puts.
#[derive(Clone, Copy)]
pub struct CallTimes {
    pub invoke: Times,
    pub put: Times,
    pub sums: [i64; 2],
}

/// Returns the wall-clock time.
pub fn now(clock: &impl Clock) -> Result<Instant, Failure> {
    match Instant::now(clock) {
        Ok(time) => Ok(time),
        Err(_) => Err(Failure::NoClock),
    }
}

/// Defines a class file in a registry.
pub fn defined<R: Wait>(
    rt: &R,
    alloc: Global,
    registry: &Registry,
    bytes: &[u8],
) -> Result<ClassId, Failure>
    ensures { IfOk result (λ id. IsOf registry.now id) }
{
    match registry.define(rt, alloc, bytes) {
        Ok(id) => Ok(id),
        Err(Refusal::NoMemory) => Err(Failure::NoMemory),
        Err(_) => Err(Failure::Refused),
    }
}

/// Returns empty tables with the stripes of a cache.
pub fn empty(alloc: Global) -> Result<Tables, Failure> {
    match Tables::new(alloc, STRIPES as usize) {
        Ok(tables) => Ok(tables),
        Err(_) => Err(Failure::NoMemory),
    }
}

/// Returns the keys from `from` up to `to`, exclusive.
pub fn keys_from(alloc: Global, from: u32, to: u32) -> Result<Vec<i64>, AllocError> {
    let mut keys = Vec::new(alloc);
    for key in from..to {
        keys.push(i64::from(key))?;
    }
    Ok(keys)
}

/// Returns the keys from `from` up to `to`, exclusive, for one seat.
fn part(alloc: Global, from: u32, to: u32) -> Result<Vec<Vec<i64>>, AllocError> {
    let mut plan = Vec::new(alloc);
    plan.push(keys_from(alloc, from, to)?)?;
    Ok(plan)
}

/// Returns an empty list of keys for each seat.
fn no_keys(alloc: Global, seats: usize) -> Result<Vec<Vec<i64>>, AllocError> {
    let mut plan = Vec::new(alloc);
    for _ in 0..seats {
        plan.push(Vec::new(alloc))?;
    }
    Ok(plan)
}

/// Returns the index in its stripe of a call's key. The indices of consecutive calls are far apart.
pub fn row_at(number: u32, rows: u32) -> u32
    requires { 0 < rows }
{
    number.wrapping_mul(STEP) % rows
}

/// Returns the key of a call. Consecutive calls are on consecutive stripes.
fn key_at(number: u32, rows: u32) -> i64
    requires { 0 < rows }
{
    let row = row_at(number / STRIPES, rows);
    i64::from(row) * i64::from(STRIPES) + i64::from(number % STRIPES)
}

/// Returns the keys of each seat's calls in a round. No two seats have keys of one stripe.
pub fn shared_out(
    alloc: Global,
    round: u32,
    keys: u32,
    seats: usize,
) -> Result<Vec<Vec<i64>>, AllocError>
    requires keys { 15 < keys }
    requires seats { 0 < seats }
{
    let mut plan = no_keys(alloc, seats)?;
    let first = round.wrapping_mul(CALLS);
    for number in 0..CALLS {
        let place = (number % STRIPES) as usize % seats;
        let key = key_at(first.wrapping_add(number), keys / STRIPES);
        if let Some(list) = plan.get_mut(place) {
            list.push(key)?;
        }
    }
    Ok(plan)
}

/// Returns whether each key of a seat is in one of the stripes of that seat.
fn are_apart(plan: &[Vec<i64>], seats: usize) -> bool
    requires { 0 < seats }
{
    for (place, keys) in plan.iter().enumerate() {
        for key in keys {
            if key.rem_euclid(i64::from(STRIPES)) as usize % seats != place {
                return false;
            }
        }
    }
    true
}

/// Returns whether `are_apart` holds of each plan.
fn are_all_apart(plans: &[Vec<Vec<i64>>], seats: usize) -> bool
    requires { 0 < seats }
{
    for plan in plans {
        if !are_apart(plan, seats) {
            return false;
        }
    }
    true
}

/// Returns the number of calls of a plan.
fn planned(plan: &[Vec<i64>]) -> usize {
    let mut calls = 0usize;
    for keys in plan {
        calls = calls.wrapping_add(keys.len());
    }
    calls
}

/// Returns the number of answered calls of a cache.
fn answered(closed: &Closed<'_>) -> usize {
    let mut calls = 0usize;
    for receipts in &closed.receipts {
        calls = calls.wrapping_add(receipts.len());
    }
    calls
}

/// Opens a cache with these entries and `seats` seats.
fn opened<'a>(
    alloc: Global,
    registry: &'a Registry,
    tables: Tables,
    seats: usize,
) -> Result<(Cache<'a, 'static, NoLoader>, Vec<Seat<'a>>), Failure>
    ensures registry { IfOk result (λ r. r.0.registry ≡ registry.now) }
    ensures seats { IfOk result (λ r. AreFresh r.0.table r.0.seats r.1.items) }
{
    match Cache::open(alloc, registry, tables, MOST_RECORDS, seats, &NoLoader) {
        Ok(opened) => Ok(opened),
        Err(_) => Err(Failure::NoMemory),
    }
}

/// Opens a cache, makes the calls of a plan, and closes it. Returns the time of the calls, and the tables that they leave.
pub fn lived<R: Threads + Wait + Clock + Sync>(
    rt: &R,
    alloc: Global,
    registry: &Registry,
    class: &ClassId,
    kind: Kind,
    plan: &[Vec<i64>],
    tables: Tables,
) -> Result<(Duration, Tables), Failure>
    requires { IsOf registry.now class.now }
{
    let (cache, mut seats) = opened(alloc, registry, tables, plan.len())?;
    let callers = Callers {
        rt,
        alloc,
        cache: &cache,
        class,
        kind,
        plan,
    };
    let begin = now(rt)?;
    serve_all(rt, &mut seats, &callers);
    let time = now(rt)?.saturating_duration_since(begin);
    let closed = cache.close(seats);
    if answered(&closed) != planned(plan) {
        return Err(Failure::NoMemory);
    }
    Ok((time, closed.tables))
}

/// Returns the sum of the entries of the first `keys` keys.
pub fn sum_of(tables: &Tables, keys: u32) -> i64 {
    let mut sum = 0i64;
    for key in 0..keys {
        if let Some(value) = tables.entry(i64::from(key)) {
            sum = sum.wrapping_add(value);
        }
    }
    sum
}

/// Returns tables with `keys` entries, put in as many rounds as needed.
pub fn filled<R: Threads + Wait + Clock + Sync>(
    rt: &R,
    alloc: Global,
    registry: &Registry,
    class: &ClassId,
    keys: u32,
) -> Result<Tables, Failure>
    requires { IsOf registry.now class.now }
{
    let mut tables = empty(alloc)?;
    for round in 0..keys.div_ceil(CALLS) {
        let from = round.wrapping_mul(CALLS);
        let plan = part(alloc, from, keys.min(from.wrapping_add(CALLS)))?;
        let (_time, left) = lived(rt, alloc, registry, class, Kind::Put, &plan, tables)?;
        tables = left;
    }
    Ok(tables)
}

/// Returns the times of a call of this kind, and the tables afterwards.
fn timed<R: Threads + Wait + Clock + Sync>(
    rt: &R,
    alloc: Global,
    registry: &Registry,
    class: &ClassId,
    kind: Kind,
    plans: &[Vec<Vec<i64>>],
    mut tables: Tables,
) -> Result<(Times, Tables), Failure>
    requires { IsOf registry.now class.now }
{
    let mut times = [0u128; ROUNDS];
    for (time, plan) in times.iter_mut().zip(plans) {
        let (taken, left) = lived(rt, alloc, registry, class, kind, plan, tables)?;
        *time = tenths(taken, CALLS);
        tables = left;
    }
    Ok((times_of(&mut times), tables))
}

/// Returns the plan of each round.
fn plans(alloc: Global, keys: u32, seats: usize) -> Result<Vec<Vec<Vec<i64>>>, AllocError>
    requires keys { 15 < keys }
    requires seats { 0 < seats }
{
    let mut list = Vec::new(alloc);
    for round in 0..ROUNDS as u32 {
        list.push(shared_out(alloc, round, keys, seats)?)?;
    }
    Ok(list)
}

/// Returns the times of an invocation and of a put, by these plans.
fn timed_on<R: Threads + Wait + Clock + Sync>(
    rt: &R,
    alloc: Global,
    registry: &Registry,
    class: &ClassId,
    plans: &[Vec<Vec<i64>>],
    keys: u32,
) -> Result<CallTimes, Failure>
    requires { IsOf registry.now class.now }
{
    let tables = filled(rt, alloc, registry, class, keys)?;
    let (invoke, tables) = timed(rt, alloc, registry, class, Kind::Invoke, plans, tables)?;
    let invoked = sum_of(&tables, keys);
    let (put, tables) = timed(rt, alloc, registry, class, Kind::Put, plans, tables)?;
    Ok(CallTimes {
        invoke,
        put,
        sums: [invoked, sum_of(&tables, keys)],
    })
}

/// Returns the times of calls by `seats` seats on a cache with `keys` keys.
pub fn calls<R: Threads + Wait + Clock + Sync>(
    rt: &R,
    alloc: Global,
    bytes: &[u8],
    keys: u32,
    seats: usize,
) -> Result<CallTimes, Failure>
    requires keys { 15 < keys }
    requires seats { 0 < seats }
{
    let plans = plans(alloc, keys, seats)?;
    if !are_all_apart(&plans, seats) {
        return Err(Failure::NotApart);
    }
    let registry = Registry::new(alloc)?;
    let class = defined(rt, alloc, &registry, bytes)?;
    timed_on(rt, alloc, &registry, &class, &plans, keys)
}
