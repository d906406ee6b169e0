//! The table of a stripe's entries.

ghost use Rattle.std.specs.Prelude.{◌≡◌, None, Some, IsSome, IsTrue, IfOk, OnOk, OnErr};
ghost use Rattle.std.specs.FinMap as map;
ghost use Rattle.std.specs.Result.{IsOkUnless};
ghost use Rattle.stripe.specs.History.{key_of};
ghost use Rattle.stripe.specs.Kept.{held, is_absent};
ghost use Rattle.stripe.specs.Seen.{call_of};
ghost use Rattle.stripe.specs.Stored.{left, entry_in};
ghost use Rattle.stripe.specs.declared.refusal.BeginRefusal.TheVariants.{NoMemory};

use crate::call::Call;
use crate::refusal::BeginRefusal;
use indexmap::IndexMap;
use std::alloc::Global;
use std::marker::Model;

/// The entries of a stripe. A stored key has a value, or none yet while a call is open. The order of the hash table is not observable.
#[derive(Drop)]
pub struct Table {
    stored: IndexMap<i64, Option<i64>>,
}

impl Model for Table {
    ghost use Rattle.std.specs.FinMap as map;
    ghost use Rattle.stripe.specs.Stored.{Stored, stored_code};

    ghost Value = { Stored };

    ghost coded = { stored_code };

    ghost view = { λ t. map.from_entries t.stored.entries };
}

impl Table {
    /// Returns an empty table.
    pub fn new(alloc: Global) -> Table
        ensures { result ≡ map.empty }
    {
        Table {
            stored: IndexMap::new(alloc),
        }
    }

    /// Returns the item that is stored under a key. `Some(None)` is a slot without a value.
    fn get(&self, key: i64) -> Option<Option<i64>>
        ensures { result ≡ map.get self.now key }
    {
        self.stored.get(&key).copied()
    }

    /// Stores a slot without a value under a key.
    fn hold(&mut self, key: i64) -> Result<(), BeginRefusal>
        ensures ok { OnOk result (self.new ≡ map.insert self.old key None) }
        ensures err { OnErr result (self.new ≡ self.old) }
        ensures memory { IsOkUnless result NoMemory }
    {
        self.stored.insert(key, None)?;
        Ok(())
    }

    /// Returns the entry of a key. A slot without a value is no entry.
    pub fn entry(&self, key: i64) -> Option<i64>
        ensures { result ≡ entry_in self.now key }
    {
        self.get(key).flatten()
    }

    /// Returns the entry of a call's key. If the key is absent and the call may create an entry, it preallocates the slot.
    /// `loads` says whether there is a loader to ask.
    pub fn find(&mut self, call: &Call<'_>, loads: bool) -> Result<Option<i64>, BeginRefusal>
        ensures entry { IfOk result (λ entry. entry ≡ entry_in self.old (key_of (call_of call.now))) }
        ensures held { OnOk result (self.new ≡ held loads self.old (call_of call.now)) }
        ensures err { OnErr result (self.new ≡ self.old) }
        ensures absent { OnErr result (IsTrue (is_absent loads self.old (call_of call.now))) }
        ensures memory { IsOkUnless result NoMemory }
    {
        let key = call.key();
        let found = self.get(key);
        if found.is_none() && call.may_make(loads) {
            self.hold(key)?;
        }
        Ok(found.flatten())
    }

    /// Stores a value under a key that has a slot.
    fn write(&mut self, key: i64, value: i64)
        requires { IsSome (map.get self.old key) }
        ensures { self.new ≡ map.insert self.old key (Some value) }
    {
        self.stored.insert(key, Some(value)).unwrap();
    }

    /// Removes a key.
    fn remove(&mut self, key: i64)
        ensures { self.new ≡ map.remove self.old key }
    {
        self.stored.swap_remove(&key);
    }

    /// Sets the entry of a key. A value needs a slot under the key.
    pub fn leave(&mut self, key: i64, entry: Option<i64>)
        requires { IsSome entry → IsSome (map.get self.old key) }
        ensures { self.new ≡ left self.old key entry }
    {
        match entry {
            Some(value) => self.write(key, value),
            None => self.remove(key),
        }
    }
}
