//! The state of an entry during an invocation.

ghost use Rattle.std.specs.Prelude.{◌≡◌, ◌↔◌, ℤ, IsTrue, is_some, true, Ok};
ghost use Rattle.jtypes.specs.Entry.{Entry, effect, after_effect};
ghost use Rattle.jtypes.specs.Library.{set_reply};
ghost use Rattle.jtypes.specs.declared.types.Value.TheVariants.{Ref};
ghost use Rattle.jtypes.specs.declared.types.Effect.TheVariants.{Keep};
ghost use Rattle.jtypes.specs.Loading.{answer_of, entry_at_start, left_by, loaded, may_ask};
ghost use Rattle.jtypes.specs.declared.loader.LoadAnswer.TheVariants.{Failed};
ghost use Rattle.jtypes.specs.declared.operations.Native.TheVariants.{SetValue, Remove};
ghost use Rattle.mutentry.specs.Change.{Change, with_now, AnswersSet};

use jtypes::{Effect, JavaFault, LoadAnswer, RefValue};
use std::marker::Model;

/// The entry before an invocation, and the entry as the invocation has changed it.
///
/// A change reaches the cache only when the invocation returns (JSR 107, `EntryProcessor`), so the state has both.
#[derive(Clone, Copy)]
pub struct EntryState {
    before: Option<i64>,
    current: Option<i64>,
    untouched: bool,
    asked: Option<LoadAnswer>,
}

impl Model for EntryState {
    ghost use Rattle.mutentry.specs.Change.{Change};

    ghost Value = { Change };

    ghost view = { λ s. record { before = s.before; now = record { entry = s.current; untouched = s.untouched; asked = s.asked } } };

    ghost inverse = { λ c. record { before = c.before; current = c.now.entry; untouched = c.now.untouched; asked = c.now.asked } };
}

impl EntryState {
    /// Returns the state at the start of an invocation on this entry.
    pub fn of(entry: Option<i64>) -> EntryState
        ensures before { result.before ≡ entry }
        ensures now { result.now ≡ entry_at_start entry }
    {
        EntryState {
            before: entry,
            current: entry,
            untouched: true,
            asked: None,
        }
    }

    /// Returns the entry before the invocation.
    pub fn before(&self) -> Option<i64>
        ensures { result ≡ self.now.before }
    {
        self.before
    }

    /// `MutableEntry.exists` (JSR 107).
    pub fn exists(&self) -> bool
        ensures { result ≡ is_some self.now.now.entry }
    {
        self.current.is_some()
    }

    /// `MutableEntry.getValue` (JSR 107): the value, or `None` if the entry doesn't exist.
    pub fn get_value(&self) -> Option<i64>
        ensures { result ≡ self.now.now.entry }
    {
        self.current
    }

    /// `MutableEntry.setValue` (JSR 107), which creates the entry if it doesn't exist.
    ///
    /// Null throws `NullPointerException`, and a reference other than a `Long` throws `ClassCastException`.
    /// This rule is the project's. Neither changes the entry.
    pub fn set_value(&mut self, value: RefValue) -> Result<(), JavaFault>
        ensures { AnswersSet (set_reply (Ref value)) result self.old self.new }
    {
        match value {
            RefValue::Null => Err(JavaFault::NullPointer),
            RefValue::Long(number) => {
                self.current = Some(number);
                self.untouched = false;
                Ok(())
            }
            _ => Err(JavaFault::ClassCast),
        }
    }

    /// `MutableEntry.remove` (JSR 107).
    pub fn remove(&mut self)
        ensures { self.new ≡ with_now self.old (left_by Remove self.old.now None) }
    {
        self.current = None;
        self.untouched = false;
    }

    /// Returns whether `getValue` calls the loader, if there is one: the entry didn't exist before, no call changed it,
    /// and no load happened yet.
    pub fn needs_load(&self) -> bool
        ensures { result ≡ may_ask true self.now.before self.now.now }
    {
        let absent = self.before.is_none();
        absent && self.untouched && self.asked.is_none()
    }

    /// Records the answer of the loader. A loaded value becomes the value of the entry.
    pub fn loaded(&mut self, value: Option<i64>)
        ensures { self.new ≡ with_now self.old (loaded (answer_of (Ok value)) self.old.now) }
    {
        if value.is_some() {
            self.current = value;
        }
        self.asked = Some(LoadAnswer::of(Ok(value)));
    }

    /// Records that the loader failed. The entry doesn't change.
    pub fn load_failed(&mut self)
        ensures { self.new ≡ with_now self.old (loaded Failed self.old.now) }
    {
        self.asked = Some(LoadAnswer::Failed);
    }

    /// Returns whether no call of `setValue` or `remove` changed the entry; a `setValue` that throws doesn't.
    pub fn is_untouched(&self) -> bool
        ensures { result ≡ self.now.now.untouched }
    {
        self.untouched
    }

    /// Returns the answer of the loader, or `None` if it wasn't called.
    pub fn asked(&self) -> Option<LoadAnswer>
        ensures { result ≡ self.now.now.asked }
    {
        self.asked
    }

    /// Returns the effect that changes the entry before the invocation to the current entry.
    pub fn effect(self) -> Effect
        ensures { result ≡ effect self.before self.now.entry }
    {
        match (self.before, self.current) {
            (before, current) if before == current => Effect::Keep,
            (_, Some(value)) => Effect::Put(value),
            (_, None) => Effect::Delete,
        }
    }
}

/// The effect changes the entry before to the entry now, and is `Keep` exactly if they are equal.
pub fn effect_leads_from_before_to_now()
    ensures leads { (before now : Entry) → after_effect (effect before now) before ≡ now }
    ensures keeps { (before now : Entry) → (effect before now ≡ Keep) ↔ (before ≡ now) }
{}
