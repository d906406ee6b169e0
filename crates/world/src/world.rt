//! A world of calls on a cache.

ghost use Rattle.std.specs.Prelude.{◌≡◌, ◌↔◌, ℕ, ℤ, ◌<◌, ◌≤◌, length, map, slice_index, take, false, IsTrue, Err, IfOk, IfErr, OnOk};

use crate::event::{Applied, Event};
use crate::room::{give_back, room_for, seated};
use crate::seat::{Seat, are_idle};
use jtypes::Loader;
use std::alloc::Global;
use std::marker::Model;
use std::snapshot::Snapshot;
use stripe::{BeginRefusal, Call, MOST_RECORDS, OpenRefusal, Record, Rest, Tables, stripe_of};

/// The number of callers. A caller is identified by a byte.
const CALLERS: usize = 256;

/// Returns a start count of zero for each caller.
fn no_starts() -> [u32; CALLERS]
    ensures callers { length result ≡ 256 }
    ensures none { (caller : ℕ) → slice_index result caller ≡ 0 }
{
    [0; CALLERS]
}

/// The stripes of a cache, each with at most one running call, and the finished calls.
/// A `get` or a `getValue` of an absent key asks the loader, if there is one.
#[derive(Drop)]
pub struct World<'a, L: Loader> {
    seats: Vec<Seat<'a>>,
    finished: Vec<Record<'a>>,
    starts: [u32; CALLERS],
    journal: usize,
    rest: Rest<'a>,
    opening: Snapshot<Tables>,
    loader: &'a L,
}

impl<'a, L: Loader> Model for World<'a, L> {
    ghost use Rattle.std.specs.Coded.{codes};
    ghost use Rattle.stripe.specs.Stored.{stored_code};
    ghost use Rattle.world.specs.World as definition;

    ghost Value = { definition.ReadThrough L };

    ghost coded = { Prim.hlevel (codes, stored_code, L.code) };

    ghost use Rattle.world.specs.Inside.{IsSound, reading};

    ghost view = { reading L.ASKS };

    ghost invariant = { λ w. IsSound (L.gives w.loader.now) L.ASKS w };
}

impl<'a, L: Loader> World<'a, L> {
    ghost use Rattle.std.specs.Prelude.{◌≡◌, ◌↔◌, ℕ, ℤ, ◌<◌, ◌≤◌, length, map, take, false, IsTrue, Err, IfOk, IfErr, OnOk};
    ghost use Rattle.stripe.specs.declared.refusal.BeginRefusal.{BeginRefusal};
    ghost use Rattle.stripe.specs.declared.refusal.BeginRefusal.TheVariants.{JournalFull, NoMemory};
    ghost use Rattle.stripe.specs.declared.refusal.OpenRefusal.TheVariants.{BadCount};
    ghost use Rattle.stripe.specs.History.{IsLegal, AreGiven};
    ghost use Rattle.stripe.specs.Seen.{call_of, record_of};
    ghost use Rattle.stripe.specs.Stored.{entry_among};
    ghost use Rattle.stripe.specs.Tables.{IsJournal};
    ghost use Rattle.world.specs.World.{Start, Step, Finish, opened, opening_entries, entries_now, history_of, Happens};
    ghost use Rattle.world.specs.Seen.{event_of};
    ghost use Rattle.world.specs.Refused.{is_possible, is_start_on_full, is_start_on_absent, IsApplied, KeepsEntries, RunsWithRoom, IsStopped, NoneRuns};
    ghost use Rattle.world.specs.Forward.{GoesForward};
    ghost use Rattle.world.specs.Lawful.{IsLawful};

    /// Opens a world without calls on these tables. `journal` is the capacity of each stripe's history, from 1 to 4,096 records.
    /// An error returns the tables.
    pub fn new(
        alloc: Global,
        tables: Tables,
        journal: usize,
        loader: &'a L,
    ) -> Result<World<'a, L>, (OpenRefusal, Tables)>
        ensures opened { IfOk result (λ w. w.world ≡ opened L.ASKS tables journal) }
        ensures loader { IfOk result (λ w. w.loader ≡ loader.now) }
        ensures count { IfErr result (λ e. (e.0 ≡ BadCount) ↔ (¬ IsJournal journal)) }
        ensures journal { OnOk result (IsJournal journal) }
        ensures given { IfErr result (λ e. e.1 ≡ tables) }
    {
        if journal == 0 || journal > MOST_RECORDS {
            return Err((OpenRefusal::BadCount, tables));
        }
        let stripes = tables.stripes();
        let Ok(room) = room_for(alloc, stripes, journal) else {
            return Err((OpenRefusal::NoMemory, tables));
        };
        let opening = Snapshot::of(&tables);
        let (split, rest) = tables.split(alloc, journal)?;
        Ok(World {
            seats: seated(split, room.workspaces, room.seats),
            finished: room.finished,
            starts: no_starts(),
            journal,
            rest,
            opening,
            loader,
        })
    }

    /// Applies an event, if it is possible.
    ///
    /// An event that is refused because a history is full or memory is exhausted changes nothing.
    /// It corresponds to no event of the definitions.
    pub fn apply(&mut self, event: Event<'a>) -> Applied
        ensures applied { IsApplied (L.gives self.old.loader) self.old.world (event_of event.entry) result self.new.world }
        ensures held { KeepsEntries self.old.world self.new.world }
        ensures forward { result ≡ Applied.Done → GoesForward self.old.world (event_of event.entry) self.new.world }
        ensures loader { self.new.loader ≡ self.old.loader }
    {
        match event {
            Event::Start { caller, call } => self.start(caller, call),
            Event::Step { stripe } => self.step(stripe),
            Event::Finish { stripe } => self.finish(stripe),
        }
    }

    /// Starts a call, if none runs on its stripe.
    fn start(&mut self, caller: u8, call: Call<'a>) -> Applied
        ensures applied { IsApplied (L.gives self.old.loader) self.old.world (Start caller (call_of call.entry)) result self.new.world }
        ensures held { KeepsEntries self.old.world self.new.world }
        ensures forward { result ≡ Applied.Done → GoesForward self.old.world (Start caller (call_of call.entry)) self.new.world }
        ensures loader { self.new.loader ≡ self.old.loader }
    {
        let place = stripe_of(self.seats.len(), call.key());
        let number = self.starts[caller as usize];
        let seat = &mut self.seats[place];
        let applied = seat.start(caller, number, call, self.loader);
        if let Applied::Done = applied {
            self.starts[caller as usize] = number + 1;
        }
        applied
    }

    /// Runs one instruction of the call that runs on a stripe.
    fn step(&mut self, stripe: usize) -> Applied
        ensures applied { IsApplied (L.gives self.old.loader) self.old.world (Step stripe) result self.new.world }
        ensures held { KeepsEntries self.old.world self.new.world }
        ensures forward { result ≡ Applied.Done → GoesForward self.old.world (Step stripe) self.new.world }
        ensures loader { self.new.loader ≡ self.old.loader }
    {
        if stripe >= self.seats.len() {
            return Applied::Ignored;
        }
        let seat = &mut self.seats[stripe];
        seat.step(self.loader)
    }

    /// Finishes and records the call that runs on a stripe, if it is final.
    fn finish(&mut self, stripe: usize) -> Applied
        ensures applied { IsApplied (L.gives self.old.loader) self.old.world (Finish stripe) result self.new.world }
        ensures held { KeepsEntries self.old.world self.new.world }
        ensures loader { self.new.loader ≡ self.old.loader }
    {
        if stripe >= self.seats.len() {
            return Applied::Ignored;
        }
        let seat = &mut self.seats[stripe];
        let Some(record) = seat.finish() else {
            return Applied::Ignored;
        };
        self.finished.push_reserved(record);
        Applied::Done
    }

    /// Applies these events in order, up to the first that is refused. An error returns the index of that event, from 0.
    pub fn run(&mut self, events: &[Event<'a>]) -> Result<(), (usize, BeginRefusal)>
        ensures ok { OnOk result (RunsWithRoom (L.gives self.old.loader) self.old.world (map event_of events.now) self.new.world) }
        ensures stopped { IfErr result (λ e. IsStopped (L.gives self.old.loader) self.old.world (map event_of events.now) e.0 e.1 self.new.world) }
        ensures opening { self.new.world.opening ≡ self.old.world.opening }
        ensures lawful { IsLawful L.ASKS self.new.world.opening self.new.world.finished (entries_now self.new.world) }
        ensures given { AreGiven (L.gives self.new.loader) self.new.world.finished }
        ensures loader { self.new.loader ≡ self.old.loader }
    {
        for (place, event) in events.iter().enumerate() {
            if let Applied::Refused(refusal) = self.apply(*event) {
                self.is_legal();
                return Err((place, refusal));
            }
        }
        self.is_legal();
        Ok(())
    }

    /// The finished calls are a legal history from the opening entries, and so are those of each stripe.
    /// Each call answers on the entry that the earlier ones leave, and the loader gives each of its recorded answers.
    pub fn is_legal(&self)
        ensures legal { IsLegal L.ASKS (opening_entries self.now.world) self.now.world.finished }
        ensures lawful { IsLawful L.ASKS self.now.world.opening self.now.world.finished (entries_now self.now.world) }
        ensures given { AreGiven (L.gives self.now.loader) self.now.world.finished }
        ensures loads { self.now.world.loads ≡ L.ASKS }
    {
        let _seats = &self.seats;
    }

    /// Returns the number of stripes.
    pub fn stripes(&self) -> usize
        ensures { result ≡ length self.now.world.opening }
    {
        self.seats.len()
    }

    /// Returns the finished calls of a stripe in order: its history.
    pub fn history(&self, stripe: usize) -> &[Record<'a>]
        requires { stripe < length self.now.world.opening }
        ensures history { map record_of result.now ≡ history_of self.now.world stripe }
        ensures few { length result.now ≤ self.now.world.journal }
    {
        let seat = &self.seats[stripe];
        seat.history()
    }

    /// Returns the finished calls in order.
    pub fn finished(&self) -> &[Record<'a>]
        ensures { map record_of result.now ≡ self.now.world.finished }
    {
        &self.finished
    }

    /// Returns the entry of a key after the finished calls.
    pub fn entry(&self, key: i64) -> Option<i64>
        ensures { result ≡ entries_now self.now.world key }
    {
        let place = stripe_of(self.seats.len(), key);
        let seat = &self.seats[place];
        seat.entry(key)
    }

    /// Returns whether no call runs.
    pub fn is_idle(&self) -> bool
        ensures { IsTrue result ↔ NoneRuns self.now.world }
    {
        are_idle(&self.seats)
    }

    /// Returns the tables, and the finished calls in order. No call may be running.
    pub fn close(self) -> (Tables, Vec<Record<'a>>)
        requires { NoneRuns self.world }
        ensures finished { map record_of result.1.items ≡ self.entry.world.finished }
        ensures legal { IsLegal L.ASKS (opening_entries self.entry.world) self.entry.world.finished }
        ensures left { (k : ℤ) → entry_among result.0 k ≡ entries_now self.entry.world k }
        ensures stripes { length result.0 ≡ length self.entry.world.opening }
        ensures lawful { IsLawful L.ASKS self.entry.world.opening (map record_of result.1.items) (entry_among result.0) }
        ensures given { AreGiven (L.gives self.entry.loader) self.entry.world.finished }
    {
        let World {
            seats,
            finished,
            rest,
            ..
        } = self;
        (give_back(seats, rest), finished)
    }
}
