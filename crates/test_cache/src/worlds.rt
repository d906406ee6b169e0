//! Events in worlds.

use jtypes::{Arg, JavaFault, NoLoader, Outcome};
use rowclasses as rows;
use std::alloc::Global;
use stripe::{ArgSlice, BeginRefusal, Call, OpenRefusal, Record, Reply, Tables, stripe_of};
use verify::{Verified, verify};
use world::{Applied, Event, World};

/// Returns the verified class with this name, `None` if there is no such class or it is refused.
fn class_named(alloc: Global, name: &str) -> Option<Verified> {
    match rows::class_named(alloc, name) {
        Ok(Some(bytes)) => verify(alloc, &bytes).ok(),
        _ => None,
    }
}

/// Returns the verified class Plus, `None` if it is refused.
fn plus(alloc: Global) -> Option<Verified> {
    match rows::plus(alloc) {
        Ok(bytes) => verify(alloc, &bytes).ok(),
        Err(_) => None,
    }
}

/// Opens a world of `stripes` empty stripes with `journal` records each; returns `None` if it is refused.
fn opened<'a>(alloc: Global, stripes: usize, journal: usize) -> Option<World<'a, NoLoader>> {
    match Tables::new(alloc, stripes) {
        Ok(tables) => World::new(alloc, tables, journal, &NoLoader).ok(),
        Err(_) => None,
    }
}

/// Returns an invocation of a class on a key, without arguments.
fn invoke<'a>(class: &'a Verified, key: i64) -> Call<'a> {
    Call::Invoke {
        class,
        key,
        args: ArgSlice::none(),
    }
}

/// Returns the start of a call by caller 0.
fn start(call: Call<'_>) -> Event<'_> {
    Event::Start { caller: 0, call }
}

/// Applies the events in order, and returns their results.
fn applied_all<'a>(world: &mut World<'a, NoLoader>, events: &[Event<'a>; 24]) -> [Applied; 24] {
    let mut told = [Applied::Ignored; 24];
    for place in 0..24 {
        told[place] = world.apply(events[place]);
    }
    told
}

/// Returns events on two stripes. With two records a stripe, the event at index 22 finds a full history.
fn table<'a>(plus: &'a Verified) -> [Event<'a>; 24] {
    let mut events = [Event::Step { stripe: 1 }; 24];
    let finish = Event::Finish { stripe: 1 };
    events[0] = start(Call::Put { key: 1, value: 5 });
    events[2] = finish;
    events[3] = start(invoke(plus, 1));
    events[4] = Event::Start {
        caller: 1,
        call: Call::Get { key: 3 },
    };
    events[5] = finish;
    events[21] = finish;
    events[22] = Event::Start {
        caller: 1,
        call: Call::Get { key: 1 },
    };
    events[23] = start(Call::Put { key: 2, value: 7 });
    events
}

/// Returns the expected results of the events of `table`.
fn told_of_table() -> [Applied; 24] {
    let mut told = [Applied::Done; 24];
    told[1] = Applied::Ignored;
    told[4] = Applied::Ignored;
    told[5] = Applied::Ignored;
    told[20] = Applied::Ignored;
    told[22] = Applied::Refused(BeginRefusal::JournalFull);
    told
}

/// Returns the entries of the keys 1 and 2.
fn entries_of(world: &World<'_, NoLoader>) -> (Option<i64>, Option<i64>) {
    (world.entry(1), world.entry(2))
}

/// Returns the number of records of a stripe, and the number and the key of its last record.
/// Returns `None` if there is no such stripe, or it has no record.
fn last_of(world: &World<'_, NoLoader>, stripe: usize) -> Option<(usize, u32, i64)> {
    if stripe >= world.stripes() {
        return None;
    }
    let records = world.history(stripe);
    match records.last() {
        Some(last) => Some((records.len(), last.number, last.call.key())),
        None => None,
    }
}

/// Applies the events of `table` one by one. Returns their results, the entries of the keys 1 and 2, and the last record of stripe 1.
fn one_by_one(
    alloc: Global,
    plus: &Verified,
) -> Option<
    (
        [Applied; 24],
        (Option<i64>, Option<i64>),
        Option<(usize, u32, i64)>,
    ),
> {
    match opened(alloc, 2, 2) {
        Some(mut world) => {
            let told = applied_all(&mut world, &table(plus));
            Some((told, entries_of(&world), last_of(&world, 1)))
        }
        None => None,
    }
}

#[test]
fn events_are_done_in_any_order(rt: HostRuntime) {
    let Some(plus) = plus(rt.alloc()) else {
        panic!(rt; "plus is refused");
    };
    let wanted = (told_of_table(), (Some(6), None), Some((2, 1, 1)));
    assert!(rt; one_by_one(rt.alloc(), &plus) == Some(wanted));
}

/// The result of `World::run`, and the entries of the keys 1 and 2 after it.
type Ran = (
    Result<(), (usize, BeginRefusal)>,
    (Option<i64>, Option<i64>),
);

/// Runs the events of `table`, and then further events.
fn stopped_run(alloc: Global, plus: &Verified) -> Option<[Ran; 2]> {
    let rest = [
        start(Call::Put { key: 2, value: 7 }),
        Event::Finish { stripe: 0 },
    ];
    match opened(alloc, 2, 2) {
        Some(mut world) => {
            let first = world.run(&table(plus));
            let stopped = (first, entries_of(&world));
            let second = world.run(&rest);
            Some([stopped, (second, entries_of(&world))])
        }
        None => None,
    }
}

#[test]
fn a_run_stops_at_a_refusal(rt: HostRuntime) {
    let Some(plus) = plus(rt.alloc()) else {
        panic!(rt; "plus is refused");
    };
    let stopped = Err((22, BeginRefusal::JournalFull));
    let wanted = [(stopped, (Some(6), None)), (Ok(()), (Some(6), Some(7)))];
    assert!(rt; stopped_run(rt.alloc(), &plus) == Some(wanted));
}

/// The caller, the number and the reply of a record, and the entry after it.
type Row = (u8, u32, Reply, Option<i64>);

/// Checks that the records are these, in order.
fn are_rows(records: &[Record<'_>], rows: &[Row]) -> bool {
    if records.len() != rows.len() {
        return false;
    }
    for place in 0..rows.len() {
        let record = &records[place];
        let row = (record.caller, record.number, record.reply, record.after);
        if row != rows[place] {
            return false;
        }
    }
    true
}

/// Checks that the world has no open call, and closes it: it must have these records, and no entry for either of the keys.
fn closes_with(world: World<'_, NoLoader>, rows: &[Row], keys: (i64, i64)) -> bool {
    if !world.is_idle() {
        return false;
    }
    let (tables, records) = world.close();
    let entries = (tables.entry(keys.0), tables.entry(keys.1));
    are_rows(&records, rows) && entries == (None, None)
}

/// Starts and finishes each of these calls, none of them an invocation; returns false if one of them isn't done.
fn are_made<'a>(world: &mut World<'a, NoLoader>, stripes: usize, calls: &[Call<'a>]) -> bool {
    if stripes == 0 || stripes > 64 {
        return false;
    }
    for call in calls {
        let stripe = stripe_of(stripes, call.key());
        let started = world.apply(start(*call));
        let finished = world.apply(Event::Finish { stripe });
        if started != Applied::Done || finished != Applied::Done {
            return false;
        }
    }
    true
}

/// Checks the replies and the records of calls on a negative key in a world of `stripes` stripes.
fn one_key(alloc: Global, stripes: usize) -> bool {
    let key = -7;
    let calls = [
        Call::Get { key },
        Call::Put { key, value: 5 },
        Call::Get { key },
        Call::Contains { key },
        Call::Remove { key },
        Call::Remove { key },
        Call::Contains { key },
    ];
    let rows = [
        (0, 0, Reply::Value(None), None),
        (0, 1, Reply::Done, Some(5)),
        (0, 2, Reply::Value(Some(5)), Some(5)),
        (0, 3, Reply::Flag(true), Some(5)),
        (0, 4, Reply::Flag(true), None),
        (0, 5, Reply::Flag(false), None),
        (0, 6, Reply::Flag(false), None),
    ];
    match opened(alloc, stripes, 7) {
        Some(mut world) => {
            are_made(&mut world, stripes, &calls) && closes_with(world, &rows, (key, key))
        }
        None => false,
    }
}

#[test]
fn calls_on_one_key(rt: HostRuntime) {
    assert!(rt; one_key(rt.alloc(), 1));
    assert!(rt; one_key(rt.alloc(), 64));
}

/// Applies 40 steps and a finish to each of the stripes 0, 1 and 2; returns the results of the finishes.
fn finish_all(world: &mut World<'_, NoLoader>) -> [Applied; 3] {
    let mut told = [Applied::Ignored; 3];
    for stripe in 0..3 {
        for _ in 0..40 {
            let _applied = world.apply(Event::Step { stripe });
        }
        told[stripe] = world.apply(Event::Finish { stripe });
    }
    told
}

/// Starts two invocations on two stripes, and then runs both: Plus, which throws on an absent key, and SetRemove by another caller.
/// Returns the results of the starts and of the finishes, and whether the records are those of SetRemove and Plus, in this order.
fn turns(
    alloc: Global,
    plus: &Verified,
    set_remove: &Verified,
) -> Option<([Applied; 2], [Applied; 3], bool)> {
    let null = Reply::Result(Outcome::Threw(JavaFault::NullPointer));
    let two = Reply::Result(Outcome::Returned(Arg::Long(2)));
    let rows = [(9, 0, two, None), (0, 0, null, None)];
    let other = Event::Start {
        caller: 9,
        call: invoke(set_remove, 4),
    };
    match opened(alloc, 2, 4) {
        Some(mut world) => {
            let begun = [world.apply(start(invoke(plus, -1))), world.apply(other)];
            let ended = finish_all(&mut world);
            let is_left = closes_with(world, &rows, (-1, 4));
            Some((begun, ended, is_left))
        }
        None => None,
    }
}

#[test]
fn calls_on_two_stripes_take_turns(rt: HostRuntime) {
    let Some(plus) = plus(rt.alloc()) else {
        panic!(rt; "plus is refused");
    };
    let Some(set_remove) = class_named(rt.alloc(), "SetRemove") else {
        panic!(rt; "no class");
    };
    let ended = [Applied::Done, Applied::Done, Applied::Ignored];
    let wanted = ([Applied::Done; 2], ended, true);
    assert!(rt; turns(rt.alloc(), &plus, &set_remove) == Some(wanted));
}

/// The number of stripes, the number of finished calls, and the last record of each of two stripes.
type Histories = (
    usize,
    usize,
    Option<(usize, u32, i64)>,
    Option<(usize, u32, i64)>,
);

/// Returns the histories of a world.
fn histories_of(world: &World<'_, NoLoader>) -> Histories {
    (
        world.stripes(),
        world.finished().len(),
        last_of(world, 0),
        last_of(world, 1),
    )
}

/// Makes three calls and returns the histories, `None` if a call isn't done.
fn behind_three(world: &mut World<'_, NoLoader>) -> Option<Histories> {
    let calls = [
        Call::Put { key: 1, value: 5 },
        Call::Get { key: 2 },
        Call::Get { key: -1 },
    ];
    if are_made(world, 2, &calls) && world.is_idle() {
        Some(histories_of(world))
    } else {
        None
    }
}

fn three_calls(alloc: Global) -> Option<Histories> {
    match opened(alloc, 2, 3) {
        Some(mut world) => behind_three(&mut world),
        None => None,
    }
}

#[test]
fn histories_are_by_stripe(rt: HostRuntime) {
    let wanted = (2, 3, Some((1, 1, 2)), Some((2, 2, -1)));
    assert!(rt; three_calls(rt.alloc()) == Some(wanted));
}

/// Returns why a world of three stripes isn't opened, and the number of stripes of the tables that are returned; `None` if it is opened.
fn refused(alloc: Global, journal: usize) -> Option<(OpenRefusal, usize)> {
    match Tables::new(alloc, 3) {
        Ok(tables) => match World::new(alloc, tables, journal, &NoLoader) {
            Ok(_) => None,
            Err((refusal, again)) => Some((refusal, again.stripes())),
        },
        Err(_) => None,
    }
}

/// Returns the result of a step on stripe 64 of a world of `stripes` stripes.
fn stepped_outside(alloc: Global, stripes: usize, journal: usize) -> Option<Applied> {
    match opened(alloc, stripes, journal) {
        Some(mut world) => Some(world.apply(Event::Step { stripe: 64 })),
        None => None,
    }
}

#[test]
fn counts_outside_are_refused(rt: HostRuntime) {
    for journal in [0, 4097, usize::MAX] {
        let told = refused(rt.alloc(), journal);
        assert_eq!(rt; told, Some((OpenRefusal::BadCount, 3)));
    }
    for (stripes, journal) in [(1, 1), (1, 4096), (64, 4096)] {
        let told = stepped_outside(rt.alloc(), stripes, journal);
        assert_eq!(rt; told, Some(Applied::Ignored));
    }
}
