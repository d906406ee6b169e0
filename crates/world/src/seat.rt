//! A stripe and the call that runs on it.

ghost use Rattle.std.specs.Prelude.{◌≡◌, ◌↔◌, ◌≤◌, IfSome, IfNone, IsSome, IsTrue, None, Some, map, length, suc, if◌then◌else◌};
ghost use Rattle.jtypes.specs.Profile.{Third};
ghost use Rattle.bounds.specs.Paths.{step_limit};
ghost use Rattle.verdict.specs.Machine.{State};
ghost use Rattle.ended.specs.declared.done.Done.{Done as DoneSeen};
ghost use Rattle.interpreter.specs.AskLoader.{KeepsGiven};
ghost use Rattle.machine.specs.Running.{IsRunningWith};
ghost use Rattle.stripe.specs.Seen.{call_of};
ghost use Rattle.world.specs.Going.{is_ended};
ghost use Rattle.world.specs.Seated.{AreIdle};
ghost use Rattle.world.specs.Stepping.{IsCounted, StepsOn};

use crate::event::Applied;
use jtypes::{LoadAnswer, Loader};
use machine::{Done, Going, Workspace};
use mutentry::effect_leads_from_before_to_now;
use soundness::starts_and_counts;
use std::marker::Model;
use stripe::{Call, Record, Stripe, ask};
use verify::{Verified, is_checked};

/// A stripe, the workspace of its calls, the end of the running invocation if it has ended, and the loader's answer to a `get`.
#[derive(Drop)]
pub struct Seat<'a> {
    stripe: Stripe<'a>,
    workspace: Workspace,
    done: Option<Done>,
    asked: Option<LoadAnswer>,
}

impl<'a> Model for Seat<'a> {
    ghost use Rattle.std.specs.Coded.{codes};
    ghost use Rattle.stripe.specs.Stored.{stored_code};
    ghost use Rattle.world.specs.Seated.{Seated};

    ghost Value = { Seated };

    ghost coded = { Prim.hlevel (codes, stored_code) };

    ghost use Rattle.world.specs.Seating.{IsSound, seated};

    ghost view = { seated };

    ghost invariant = { IsSound };
}

/// Returns whether a call is final. An invocation is final once it has ended, any other call from its start.
fn is_ended(call: &Call<'_>, done: &Option<Done>) -> bool
    ensures { result ≡ is_ended (call_of call.now) done.now }
{
    match call {
        Call::Invoke { .. } => done.is_some(),
        Call::Get { .. } => true,
        Call::Put { .. } => true,
        Call::Remove { .. } => true,
        Call::Contains { .. } => true,
    }
}

/// Runs one instruction of an invocation of the class.
fn one_step<L: Loader>(workspace: &mut Workspace, class: &Verified, loader: &L) -> Going
    requires { (s : State) × IsRunningWith L.ASKS class.now s workspace.old }
    ensures steps { (s : State) → IsRunningWith L.ASKS class.now s workspace.old → StepsOn (L.gives loader.now) class.now s result workspace.new }
    ensures counts { (s : State) → IsRunningWith L.ASKS class.now s workspace.old → result ≡ Going.Going → workspace.new.steps ≡ suc workspace.old.steps }
    ensures few { (s : State) → IsRunningWith L.ASKS class.now s workspace.old → result ≡ Going.Going → workspace.new.steps ≤ step_limit Third }
    ensures counted { IsCounted class.now workspace.new }
    ensures given { KeepsGiven (L.gives loader.now) workspace.old workspace.new }
    ensures told { (d : DoneSeen) → result ≡ Going.Ended d → d.asked ≡ workspace.new.entry.now.asked }
    ensures key { workspace.new.key ≡ workspace.old.key }
{
    is_checked(class);
    starts_and_counts();
    let _bounds = class.bounds();
    let _linked = class.linked();
    workspace.step(class, loader)
}

impl<'a> Seat<'a> {
    ghost use Rattle.std.specs.Prelude.{◌≡◌, ◌↔◌, ◌<◌, IfSome, IfNone, IsSome, IsTrue, None, Some, map, length, false, if◌then◌else◌};
    ghost use Rattle.stripe.specs.declared.refusal.BeginRefusal.TheVariants.{JournalFull, NoMemory};
    ghost use Rattle.stripe.specs.History.{key_of};
    ghost use Rattle.stripe.specs.Kept.{IsOf, entry_of, is_absent};
    ghost use Rattle.stripe.specs.Seen.{call_of, record_of};
    ghost use Rattle.world.specs.Refused.{works, is_final};
    ghost use Rattle.world.specs.Seated.{IsEnded, Starts, Turns, HasLoader, AnswerIsGiven};
    ghost use Rattle.world.specs.Forward.{turns_on};

    /// Returns the seat of a stripe on which no call runs.
    pub fn new(stripe: Stripe<'a>, workspace: Workspace) -> Seat<'a>
        requires { stripe.running ≡ None }
        ensures stripe { result.stripe ≡ stripe.entry }
        ensures idle { result.running ≡ None }
    {
        Seat {
            stripe,
            workspace,
            done: None,
            asked: None,
        }
    }

    /// Starts a call, if none runs. A `get` of an absent key asks the loader, if there is one.
    pub fn start<L: Loader>(
        &mut self,
        caller: u8,
        number: u32,
        call: Call<'a>,
        loader: &L,
    ) -> Applied
        requires { IsOf self.old.stripe (key_of (call_of call)) }
        ensures ignored { (result ≡ Applied.Ignored) ↔ IsSome self.old.running }
        ensures done { result ≡ Applied.Done → Starts (L.gives loader.now) self.old (record { caller = caller; number = number; call = call_of call.entry; loads = L.ASKS }) self.new }
        ensures same { ¬ (result ≡ Applied.Done) → self.new ≡ self.old }
        ensures full { (result ≡ Applied.Refused JournalFull) ↔ ((self.old.running ≡ None) × (length self.old.stripe.records ≡ self.old.stripe.journal)) }
        ensures memory { result ≡ Applied.Refused NoMemory → IsTrue (is_absent L.ASKS self.old.stripe.stored (call_of call.entry)) }
    {
        if self.stripe.open().is_some() {
            return Applied::Ignored;
        }
        match self.stripe.begin(caller, number, call, loader) {
            Ok(before) => {
                self.done = None;
                self.asked = None;
                match call {
                    Call::Invoke { class, key, args } => {
                        self.workspace.start(class, key, before, &args.args());
                    }
                    Call::Get { key } => self.asked = ask(loader, key, before),
                    Call::Put { .. } => {}
                    Call::Remove { .. } => {}
                    Call::Contains { .. } => {}
                }
                Applied::Done
            }
            Err(refusal) => Applied::Refused(refusal),
        }
    }

    /// Runs one instruction of the running call, unless the call is final.
    pub fn step<L: Loader>(&mut self, loader: &L) -> Applied
        requires { HasLoader L.ASKS self.old.stripe }
        ensures answer { result ≡ (if works (Some self.old.running) then Applied.Done else Applied.Ignored) }
        ensures stripe { self.new.stripe ≡ self.old.stripe }
        ensures turns { Turns (L.gives loader.now) self.old.running self.new.running }
        ensures given { AnswerIsGiven (L.gives loader.now) self.old.running → AnswerIsGiven (L.gives loader.now) self.new.running }
        ensures nearer { result ≡ Applied.Done → turns_on (Some self.new.running) < turns_on (Some self.old.running) }
    {
        effect_leads_from_before_to_now();
        let Some(open) = self.stripe.open() else {
            return Applied::Ignored;
        };
        if is_ended(&open.call, &self.done) {
            return Applied::Ignored;
        }
        let Call::Invoke { class, .. } = open.call else {
            unreachable!()
        };
        match one_step(&mut self.workspace, class, loader) {
            Going::Going => {}
            Going::Ended(done) => self.done = Some(done),
        }
        Applied::Done
    }

    /// Finishes the running call, if it is final, and returns its record.
    pub fn finish(&mut self) -> Option<Record<'a>>
        ensures ended { IfSome result (λ r. IsEnded self.old (record_of r) self.new) }
        ensures same { IfNone result (self.new ≡ self.old) }
        ensures running { IfNone result (is_final (Some self.old.running) ≡ false) }
    {
        effect_leads_from_before_to_now();
        let open = self.stripe.open()?;
        if !is_ended(&open.call, &self.done) {
            return None;
        }
        let record = self.stripe.commit(self.done, self.asked);
        self.done = None;
        self.asked = None;
        Some(record)
    }

    /// Returns whether no call runs.
    pub fn is_idle(&self) -> bool
        ensures { IsTrue result ↔ (self.now.running ≡ None) }
    {
        self.stripe.open().is_none()
    }

    /// Returns the stripe.
    pub fn into_stripe(self) -> Stripe<'a>
        ensures stripe { result ≡ self.entry.stripe }
        ensures idle { self.entry.running ≡ None → result.running ≡ None }
    {
        let Seat { stripe, .. } = self;
        stripe
    }

    /// Returns the records of the stripe.
    pub fn history(&self) -> &[Record<'a>]
        ensures { map record_of result.now ≡ self.now.stripe.records }
    {
        self.stripe.history()
    }

    /// Returns the entry of a key of the stripe.
    pub fn entry(&self, key: i64) -> Option<i64>
        ensures { result ≡ entry_of self.now.stripe key }
    {
        self.stripe.entry(key)
    }
}

/// Returns whether no call runs on any of these seats.
pub fn are_idle(seats: &[Seat<'_>]) -> bool
    ensures { IsTrue result ↔ AreIdle seats.now }
{
    for seat in seats {
        if !seat.is_idle() {
            return false;
        }
    }
    true
}
