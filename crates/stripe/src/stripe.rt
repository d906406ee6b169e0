//! The stripe: begin and commit of calls.

ghost use Rattle.std.specs.Prelude.{◌≡◌, ◌↔◌, ℕ, ℤ, ◌<◌, ◌≤◌, length, map, option_map, None, Some, Err, IfSome, IfOk, OnOk, OnErr, IsTrue};
ghost use Rattle.std.specs.FinMap as stored;

use crate::call::{Call, OpenCall, Record, ask};
use crate::key::stripe_of;
use crate::refusal::BeginRefusal;
use crate::table::Table;
use ended::Done;
use jtypes::{LoadAnswer, Loader, NoLoader};
use std::marker::Model;

/// A stripe of a cache: the entries of its keys, its open call, if any, and the history of its calls.
///
/// `begin` opens a call. The caller runs the class of an invocation. `commit` stores the entry that the call leaves and writes the record.
/// `Tables::split` preallocates the records, so a commit allocates no memory.
#[derive(Drop)]
pub struct Stripe<'a> {
    pub(crate) stripes: usize,
    pub(crate) place: usize,
    pub(crate) table: Table,
    pub(crate) records: Vec<Record<'a>>,
    pub(crate) journal: usize,
    pub(crate) running: Option<OpenCall<'a>>,
}

impl<'a> Model for Stripe<'a> {
    ghost use Rattle.std.specs.Coded.{codes};
    ghost use Rattle.stripe.specs.Kept.{Kept};
    ghost use Rattle.stripe.specs.Stored.{stored_code};

    ghost Value = { Kept };

    ghost coded = { Prim.hlevel (codes, stored_code) };

    ghost use Rattle.stripe.specs.Inside.{IsSound, kept};

    ghost view = { kept };

    ghost invariant = { IsSound };
}

impl<'a> Stripe<'a> {
    ghost use Rattle.std.specs.Prelude.{◌≡◌, ◌↔◌, ℕ, ℤ, Bool, false, ◌<◌, ◌≤◌, length, map, option_map, None, Some, Err, IfSome, IfOk, OnOk, OnErr, IsTrue};
    ghost use Rattle.std.specs.FinMap as stored;
    ghost use Rattle.stripe.specs.declared.refusal.BeginRefusal.TheVariants.{JournalFull, NoMemory};
    ghost use Rattle.stripe.specs.History.{Begun, Entries, Get, Put, Remove, Contains, key_of};
    ghost use Rattle.stripe.specs.Stored.{HasValues};
    ghost use Rattle.stripe.specs.Kept.{IsOf, AreOf, IsKept, IsHeld, CanCommit, IsPlain, IsMade, IsRecord, is_absent, entry_of, begun, committed, asked_by};
    ghost use Rattle.jtypes.specs.Loading.{IsGiven};
    ghost use Rattle.stripe.specs.Seen.{call_of, begun_of, record_of};

    /// Returns the records of the committed calls, in order.
    pub fn history(&self) -> &[Record<'a>]
        ensures records { map record_of result.now ≡ self.now.records }
        ensures few { length self.now.records ≤ self.now.journal }
        ensures of { AreOf self.now }
    {
        &self.records
    }

    /// Proves that only the key of an open call that may create an entry is stored without a value.
    pub fn has_values(&self)
        ensures held { (k : ℤ) → stored.get self.now.stored k ≡ Some None → IsHeld self.now.running k }
        ensures idle { self.now.running ≡ None → HasValues self.now.stored }
    {
        let _table = &self.table;
    }

    /// Returns the open call, if any, with the entry that it found.
    pub fn open(&self) -> Option<OpenCall<'a>>
        ensures running { option_map begun_of result ≡ self.now.running }
        ensures before { IfSome result (λ c. c.before ≡ entry_of self.now (key_of (call_of c.call))) }
        ensures of { IfSome result (λ c. IsOf self.now (key_of (call_of c.call))) }
        ensures room { IfSome result (λ _. length self.now.records < self.now.journal) }
    {
        self.running
    }

    /// Returns the entry of a key.
    pub fn entry(&self, key: i64) -> Option<i64>
        ensures { result ≡ entry_of self.now key }
    {
        self.table.entry(key)
    }

    /// Returns whether a call on a key may begin: no call is open, and the key belongs to this stripe.
    pub fn is_ready(&self, key: i64) -> bool
        ensures idle { IsTrue result → self.now.running ≡ None }
        ensures of { IsTrue result → IsOf self.now key }
    {
        let stripes = self.stripes;
        let place = self.place;
        self.running.is_none() && stripes > 0 && stripes <= 64 && stripe_of(stripes, key) == place
    }

    /// Begins a call, and returns the entry that it finds. An error leaves the stripe unchanged.
    /// If there is no entry, an `Invoke` or a `Put` preallocates a slot for it, and so does a `Get` with a loader, which isn't asked yet.
    pub fn begin<L: Loader>(
        &mut self,
        caller: u8,
        number: u32,
        call: Call<'a>,
        _loader: &L,
    ) -> Result<Option<i64>, BeginRefusal>
        requires idle { self.old.running ≡ None }
        requires of { IsOf self.old (key_of (call_of call)) }
        ensures entry { IfOk result (λ entry. entry ≡ entry_of self.old (key_of (call_of call.entry))) }
        ensures begun { OnOk result (self.new ≡ begun self.old (record { caller = caller; number = number; call = call_of call.entry; loads = L.ASKS })) }
        ensures err { OnErr result (self.new ≡ self.old) }
        ensures full { (result ≡ Err JournalFull) ↔ (length self.old.records ≡ self.old.journal) }
        ensures memory { result ≡ Err NoMemory → IsTrue (is_absent L.ASKS self.old.stored (call_of call.entry)) }
        ensures entries { (k : ℤ) → entry_of self.new k ≡ entry_of self.old k }
        ensures kept { (loads : Bool) (opening : Entries) → IsKept loads opening self.old → IsKept loads opening self.new }
    {
        if self.records.len() == self.journal {
            return Err(BeginRefusal::JournalFull);
        }
        let loads = L::ASKS;
        let before = self.table.find(&call, loads)?;
        self.running = Some(OpenCall {
            caller,
            number,
            call,
            loads,
            before,
        });
        Ok(before)
    }

    /// Commits the open call, and returns its record.
    /// `done` is the end of an invocation, `asked` the loader's answer to a `get`, if it was asked.
    #[inline(always)]
    pub fn commit(&mut self, done: Option<Done>, asked: Option<LoadAnswer>) -> Record<'a>
        requires { CanCommit self.old done asked }
        ensures record { (b : Begun) → self.old.running ≡ Some b → IsRecord b (entry_of self.old (key_of b.call)) (record_of result) }
        ensures committed { self.new ≡ committed self.old (record_of result) }
        ensures entry { entry_of self.new (key_of (call_of result.call)) ≡ result.after }
        ensures others { (k : ℤ) → ¬ (k ≡ key_of (call_of result.call)) → entry_of self.new k ≡ entry_of self.old k }
        ensures asked { result.asked ≡ asked_by done asked }
        ensures kept { (b : Begun) (opening : Entries) → self.old.running ≡ Some b → IsKept b.loads opening self.old → IsKept b.loads opening self.new }
    {
        let Some(begun) = self.running else {
            unreachable!()
        };
        let record = begun.record(done, asked);
        self.table.leave(record.call.key(), record.after);
        self.records.push_reserved(record);
        self.running = None;
        record
    }

    /// Begins and commits a call that is neither an invocation nor a `get`.
    fn make(&mut self, caller: u8, number: u32, call: Call<'a>) -> Result<Record<'a>, BeginRefusal>
        requires idle { self.old.running ≡ None }
        requires of { IsOf self.old (key_of (call_of call)) }
        requires plain { IsPlain (call_of call) }
        ensures ok { IfOk result (λ r. IsMade self.old (record { caller = caller; number = number; call = call_of call.entry; loads = false }) (record_of r) self.new) }
        ensures err { OnErr result (self.new ≡ self.old) }
        ensures full { (result ≡ Err JournalFull) ↔ (length self.old.records ≡ self.old.journal) }
        ensures memory { result ≡ Err NoMemory → IsTrue (is_absent false self.old.stored (call_of call.entry)) }
        ensures kept { (loads : Bool) (opening : Entries) → IsKept loads opening self.old → IsKept loads opening self.new }
    {
        self.begin(caller, number, call, &NoLoader)?;
        Ok(self.commit(None, None))
    }

    /// Makes a `get` (JSR 107, `Cache`) of this caller and number. The loader, if any, is asked for an absent entry.
    pub fn get<L: Loader>(
        &mut self,
        caller: u8,
        number: u32,
        key: i64,
        loader: &L,
    ) -> Result<Record<'a>, BeginRefusal>
        requires idle { self.old.running ≡ None }
        requires of { IsOf self.old key }
        ensures ok { IfOk result (λ r. IsMade self.old (record { caller = caller; number = number; call = Get key; loads = L.ASKS }) (record_of r) self.new) }
        ensures given { IfOk result (λ r. IsGiven (L.gives loader.now) key r.asked) }
        ensures err { OnErr result (self.new ≡ self.old) }
        ensures full { (result ≡ Err JournalFull) ↔ (length self.old.records ≡ self.old.journal) }
        ensures memory { result ≡ Err NoMemory → IsTrue (is_absent L.ASKS self.old.stored (Get key)) }
        ensures kept { (opening : Entries) → IsKept L.ASKS opening self.old → IsKept L.ASKS opening self.new }
    {
        let before = self.begin(caller, number, Call::Get { key }, loader)?;
        Ok(self.commit(None, ask(loader, key, before)))
    }

    /// Makes a `put` (JSR 107, `Cache`) of this caller and number.
    pub fn put(
        &mut self,
        caller: u8,
        number: u32,
        key: i64,
        value: i64,
    ) -> Result<Record<'a>, BeginRefusal>
        requires idle { self.old.running ≡ None }
        requires of { IsOf self.old key }
        ensures ok { IfOk result (λ r. IsMade self.old (record { caller = caller; number = number; call = Put key value; loads = false }) (record_of r) self.new) }
        ensures err { OnErr result (self.new ≡ self.old) }
        ensures full { (result ≡ Err JournalFull) ↔ (length self.old.records ≡ self.old.journal) }
        ensures memory { result ≡ Err NoMemory → IsTrue (is_absent false self.old.stored (Put key value)) }
        ensures kept { (loads : Bool) (opening : Entries) → IsKept loads opening self.old → IsKept loads opening self.new }
    {
        self.make(caller, number, Call::Put { key, value })
    }

    /// Makes a `remove` (JSR 107, `Cache`) of this caller and number.
    pub fn remove(&mut self, caller: u8, number: u32, key: i64) -> Result<Record<'a>, BeginRefusal>
        requires idle { self.old.running ≡ None }
        requires of { IsOf self.old key }
        ensures ok { IfOk result (λ r. IsMade self.old (record { caller = caller; number = number; call = Remove key; loads = false }) (record_of r) self.new) }
        ensures err { OnErr result (self.new ≡ self.old) }
        ensures full { (result ≡ Err JournalFull) ↔ (length self.old.records ≡ self.old.journal) }
        ensures memory { ¬ (result ≡ Err NoMemory) }
        ensures kept { (loads : Bool) (opening : Entries) → IsKept loads opening self.old → IsKept loads opening self.new }
    {
        self.make(caller, number, Call::Remove { key })
    }

    /// Makes a `containsKey` (JSR 107, `Cache`) of this caller and number.
    pub fn contains(
        &mut self,
        caller: u8,
        number: u32,
        key: i64,
    ) -> Result<Record<'a>, BeginRefusal>
        requires idle { self.old.running ≡ None }
        requires of { IsOf self.old key }
        ensures ok { IfOk result (λ r. IsMade self.old (record { caller = caller; number = number; call = Contains key; loads = false }) (record_of r) self.new) }
        ensures err { OnErr result (self.new ≡ self.old) }
        ensures full { (result ≡ Err JournalFull) ↔ (length self.old.records ≡ self.old.journal) }
        ensures memory { ¬ (result ≡ Err NoMemory) }
        ensures kept { (loads : Bool) (opening : Entries) → IsKept loads opening self.old → IsKept loads opening self.new }
    {
        self.make(caller, number, Call::Contains { key })
    }
}
