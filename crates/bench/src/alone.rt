//! Calls on one stripe, measured in CPU time of this thread.
//!
//! A round makes as many calls as the history of a stripe may have records.
//! Only the calls are timed, not the conversion of the tables to a stripe and back.

ghost use Rattle.std.specs.Prelude.{◌≡◌, ◌<◌, false, None, length, IfOk};
ghost use Rattle.stripe.specs.History.{stripe_of};
ghost use Rattle.stripe.specs.Kept.{IsEnd};
ghost use Rattle.stripe.specs.Seen.{call_of};

use crate::calls::{MOST_KEYS, keys_from, row_at};
use crate::measure::{ROUNDS, Times, now, rounds, tenths, times_of};
use crate::report::Failure;
use jtypes::{Args, NoLoader};
use machine::{Done, Workspace, run};
use std::alloc::{AllocError, Global};
use std::time::{CpuClock, Duration};
use stripe::{ArgSlice, Call, MOST_RECORDS, Stripe, Tables, stripe_of};
use verify::Verified;

/// The calls of a round: the capacity of a stripe's history.
const CALLS: u32 = MOST_RECORDS as u32;

/// The kind of the calls of a round.
#[derive(Clone, Copy)]
pub enum Kind<'a> {
    Put,
    Remove,
    Invoke(&'a Verified),
}

/// The times of the calls: a put on a present key and on an absent key, an invocation, and the run of its class.
#[derive(Clone, Copy)]
pub struct StripeTimes {
    pub there: Times,
    pub absent: Times,
    pub invoke: Times,
    pub run: Times,
}

/// Shows that a key is in the only stripe.
fn has_one_stripe(key: i64)
    ensures { stripe_of 1 key ≡ 0 }
{
    let _place = stripe_of(1, key);
}

/// Returns the result of the run if the call is an invocation, else none. The run is on the entry `before`.
fn end_of(call: &Call<'_>, before: Option<i64>, workspace: &mut Workspace) -> Option<Done>
    ensures { IsEnd false before (call_of call.now) result None }
{
    match call {
        Call::Invoke { class, key, args } => {
            Some(run(class, *key, before, &args.args(), workspace, &NoLoader))
        }
        Call::Get { .. } => None,
        Call::Put { .. } => None,
        Call::Remove { .. } => None,
        Call::Contains { .. } => None,
    }
}

/// Makes a call: begins it, runs the class if it is an invocation, and commits it.
fn make<'a>(stripe: &mut Stripe<'a>, number: u32, call: Call<'a>, workspace: &mut Workspace)
    requires one { (stripe.old.stripes ≡ 1) × (stripe.old.place ≡ 0) }
    requires idle { stripe.old.running ≡ None }
    ensures one { (stripe.new.stripes ≡ 1) × (stripe.new.place ≡ 0) }
    ensures idle { stripe.new.running ≡ None }
{
    has_one_stripe(call.key());
    let Ok(before) = stripe.begin(0, number, call, &NoLoader) else {
        return;
    };
    let done = end_of(&call, before, workspace);
    let _record = stripe.commit(done, None);
}

/// Makes a call of this kind.
fn ask<'a>(
    stripe: &mut Stripe<'a>,
    number: u32,
    kind: Kind<'a>,
    key: i64,
    workspace: &mut Workspace,
)
    requires one { (stripe.old.stripes ≡ 1) × (stripe.old.place ≡ 0) }
    requires idle { stripe.old.running ≡ None }
    ensures one { (stripe.new.stripes ≡ 1) × (stripe.new.place ≡ 0) }
    ensures idle { stripe.new.running ≡ None }
{
    has_one_stripe(key);
    match kind {
        Kind::Put => {
            let _told = stripe.put(0, number, key, 7);
        }
        Kind::Remove => {
            let _told = stripe.remove(0, number, key);
        }
        Kind::Invoke(class) => {
            let args = ArgSlice::none();
            make(stripe, number, Call::Invoke { class, key, args }, workspace);
        }
    }
}

/// Makes a call of this kind on each key.
fn ask_all<'a>(stripe: &mut Stripe<'a>, kind: Kind<'a>, keys: &[i64], workspace: &mut Workspace)
    requires one { (stripe.old.stripes ≡ 1) × (stripe.old.place ≡ 0) }
    requires idle { stripe.old.running ≡ None }
    ensures one { (stripe.new.stripes ≡ 1) × (stripe.new.place ≡ 0) }
    ensures idle { stripe.new.running ≡ None }
{
    let mut number = 0u32;
    for key in keys {
        ask(stripe, number, kind, *key, workspace);
        number = number.wrapping_add(1);
    }
}

/// Makes the calls of one round. Returns their time, and the tables that they leave.
fn asked<'a>(
    clock: &impl CpuClock,
    alloc: Global,
    kind: Kind<'a>,
    keys: &[i64],
    tables: Tables,
    workspace: &mut Workspace,
) -> Result<(Duration, Tables), Failure>
    requires { length tables ≡ 1 }
    ensures { IfOk result (λ r. length r.1 ≡ 1) }
{
    let Ok((mut stripes, mut rest)) = tables.split(alloc, MOST_RECORDS) else {
        return Err(Failure::NoMemory);
    };
    let mut stripe = stripes.remove(0);
    let begin = now(clock)?;
    ask_all(&mut stripe, kind, keys, workspace);
    let time = now(clock)?.saturating_sub(begin);
    let answered = stripe.history().len();
    rest.add(stripe);
    let (tables, _histories) = rest.finish();
    if answered != keys.len() {
        return Err(Failure::NoMemory);
    }
    Ok((time, tables))
}

/// Returns a table with `keys` entries, put in as many rounds as needed.
fn filled(
    clock: &impl CpuClock,
    alloc: Global,
    keys: u32,
    workspace: &mut Workspace,
) -> Result<Tables, Failure>
    ensures { IfOk result (λ tables. length tables ≡ 1) }
{
    let Ok(mut tables) = Tables::new(alloc, 1) else {
        return Err(Failure::NoMemory);
    };
    for round in 0..keys.div_ceil(CALLS) {
        let from = round.wrapping_mul(CALLS);
        let list = keys_from(alloc, from, keys.min(from.wrapping_add(CALLS)))?;
        let (_time, left) = asked(clock, alloc, Kind::Put, &list, tables, workspace)?;
        tables = left;
    }
    Ok(tables)
}

/// Returns the keys of a round, out of `keys` keys from `first` on.
fn plan(alloc: Global, round: u32, first: u32, keys: u32) -> Result<Vec<i64>, AllocError>
    requires { 0 < keys }
{
    let mut list = Vec::new(alloc);
    let from = round.wrapping_mul(CALLS);
    for number in 0..CALLS {
        let row = row_at(from.wrapping_add(number), keys);
        list.push(i64::from(first) + i64::from(row))?;
    }
    Ok(list)
}

/// Returns the keys of each round, out of `keys` keys from `first` on.
fn plans(alloc: Global, first: u32, keys: u32) -> Result<Vec<Vec<i64>>, AllocError>
    requires { 0 < keys }
{
    let mut list = Vec::new(alloc);
    for round in 0..ROUNDS as u32 {
        list.push(plan(alloc, round, first, keys)?)?;
    }
    Ok(list)
}

/// Returns the times of a call of this kind, and the tables afterwards.
fn timed<'a>(
    clock: &impl CpuClock,
    alloc: Global,
    kind: Kind<'a>,
    plans: &[Vec<i64>],
    mut tables: Tables,
    workspace: &mut Workspace,
) -> Result<(Times, Tables), Failure>
    requires { length tables ≡ 1 }
    ensures { IfOk result (λ r. length r.1 ≡ 1) }
{
    let mut times = [0u128; ROUNDS];
    for (time, keys) in times.iter_mut().zip(plans) {
        let (taken, left) = asked(clock, alloc, kind, keys, tables, workspace)?;
        *time = tenths(taken, CALLS);
        tables = left;
    }
    Ok((times_of(&mut times), tables))
}

/// Returns the times of a put on an absent key. After each round its keys are removed.
fn timed_absent(
    clock: &impl CpuClock,
    alloc: Global,
    plans: &[Vec<i64>],
    mut tables: Tables,
    workspace: &mut Workspace,
) -> Result<Times, Failure>
    requires { length tables ≡ 1 }
{
    let mut times = [0u128; ROUNDS];
    for (time, keys) in times.iter_mut().zip(plans) {
        let (taken, more) = asked(clock, alloc, Kind::Put, keys, tables, workspace)?;
        let (_time, left) = asked(clock, alloc, Kind::Remove, keys, more, workspace)?;
        *time = tenths(taken, CALLS);
        tables = left;
    }
    Ok(times_of(&mut times))
}

/// Returns the entries of these keys.
fn found(
    alloc: Global,
    tables: &Tables,
    keys: &[i64],
) -> Result<Vec<(i64, Option<i64>)>, AllocError> {
    let mut entries = Vec::new(alloc);
    for key in keys {
        entries.push((*key, tables.entry(*key)))?;
    }
    Ok(entries)
}

/// Runs a class on each of these entries. Returns the instructions of all runs.
fn run_on_each(class: &Verified, entries: &[(i64, Option<i64>)], workspace: &mut Workspace) -> u64 {
    let args = Args::none();
    let mut steps = 0u64;
    for (key, before) in entries {
        let done = run(class, *key, *before, &args, workspace, &NoLoader);
        steps = steps.wrapping_add(u64::from(done.steps));
    }
    steps
}

/// Returns the times of a run on the entries of the first round's keys.
fn timed_runs(
    clock: &impl CpuClock,
    alloc: Global,
    class: &Verified,
    tables: &Tables,
    keys: &[i64],
    workspace: &mut Workspace,
) -> Result<Times, Failure> {
    let entries = found(alloc, tables, keys)?;
    let (run, _steps) = rounds(
        clock,
        CALLS,
        |_count| run_on_each(class, &entries, workspace),
    )?;
    Ok(run)
}

/// Returns the times of an invocation, of a run of its class and of a put on a present key, and the tables afterwards.
fn timed_there(
    clock: &impl CpuClock,
    alloc: Global,
    class: &Verified,
    plans: &[Vec<i64>],
    keys: &[i64],
    workspace: &mut Workspace,
    tables: Tables,
) -> Result<([Times; 3], Tables), Failure>
    requires { length tables ≡ 1 }
    ensures { IfOk result (λ r. length r.1 ≡ 1) }
{
    let run = timed_runs(clock, alloc, class, &tables, keys, workspace)?;
    let (invoke, tables) = timed(clock, alloc, Kind::Invoke(class), plans, tables, workspace)?;
    let (there, tables) = timed(clock, alloc, Kind::Put, plans, tables, workspace)?;
    Ok(([invoke, run, there], tables))
}

/// Returns the times of `timed_there` for a stripe with the first `keys` keys.
fn timed_some(
    clock: &impl CpuClock,
    alloc: Global,
    class: &Verified,
    keys: u32,
    workspace: &mut Workspace,
) -> Result<([Times; 3], Tables), Failure>
    requires { 0 < keys }
    ensures { IfOk result (λ r. length r.1 ≡ 1) }
{
    let first = plan(alloc, 0, 0, keys)?;
    let plans = plans(alloc, 0, keys)?;
    let tables = filled(clock, alloc, keys, workspace)?;
    timed_there(clock, alloc, class, &plans, &first, workspace, tables)
}

/// Returns the times of calls on one stripe with `keys` keys.
pub fn on_stripe(
    clock: &impl CpuClock,
    alloc: Global,
    class: &Verified,
    keys: u32,
) -> Result<StripeTimes, Failure>
    requires { 0 < keys }
{
    let mut workspace = Workspace::new(alloc)?;
    let ([invoke, run, there], tables) = timed_some(clock, alloc, class, keys, &mut workspace)?;
    let others = plans(alloc, keys, MOST_KEYS)?;
    let absent = timed_absent(clock, alloc, &others, tables, &mut workspace)?;
    Ok(StripeTimes {
        there,
        absent,
        invoke,
        run,
    })
}
