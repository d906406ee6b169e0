//! The locals of a table's frames, computed entry by entry.

ghost use Rattle.std.specs.Prelude.{◌≡◌, ◌<◌, ◌++◌, ◌∷◌, [], true, length, slice_index_or, option_map, option_and_then, reverse, IfOk};
ghost use Rattle.frames.specs.Frames.{row_with};
ghost use Rattle.frames.specs.Listing.{IsListing, IsKept, IsAfter, IsChanged};
ghost use Rattle.frames.specs.Reading.{within, locals_after, stack_after};
ghost use Rattle.frames.specs.declared.entries.Change.TheVariants.{Chop, Append};

use crate::entries::Change;
use crate::frame::{as_locals, have_room, padded};
use crate::{Flow, MethodStart, TypeStack};
use jtypes::JType;
use locals::Locals;
use std::alloc::{AllocError, Global};

/// The locals of a table's frames, computed entry by entry.
/// `types` has the current locals with a long as one; `locals` has them padded to `max_locals`, and keeps those of all entries.
#[derive(Drop)]
pub struct Listing {
    alloc: Global,
    max_locals: usize,
    types: Vec<JType>,
    /// The number of locals that `types` fill; a long fills two.
    slots: usize,
    locals: Locals,
    /// The index of the last kept locals.
    number: usize,
}

impl Listing {
    /// Returns the method's parameters, kept at index 0.
    pub fn at_start(alloc: Global, start: &MethodStart) -> Result<Listing, AllocError>
        ensures listing { IfOk result (λ l. IsListing l × IsKept l) }
        ensures types { IfOk result (λ l. (l.types.items ≡ start.now.signature.params) × (l.max_locals ≡ start.now.max_locals)) }
        ensures kept { IfOk result (λ l. l.locals.kept ≡ row_with start.now.max_locals start.now.signature.params ∷ []) }
    {
        let environment = start.environment();
        let max_locals = usize::from(environment.max_locals);
        let types = Vec::from_slice(alloc, environment.signature.params.as_slice())?;
        let listed = as_locals(alloc, &types)?;
        let mut locals = Locals::new(alloc, max_locals)?;
        locals.put(0, &listed)?;
        locals.keep()?;
        Ok(Listing {
            alloc,
            max_locals,
            types,
            slots: listed.len(),
            locals,
            number: 0,
        })
    }

    /// Drops the last `count` types. Returns false if there are fewer.
    fn chop(&mut self, count: u8) -> Result<bool, AllocError>
        requires { IsListing self.old }
        ensures { IfOk result (λ yes. IsAfter self.old (option_and_then (within self.old.max_locals) (locals_after self.old.types.items (Chop count))) yes self.new) }
    {
        let count = usize::from(count);
        if self.types.len() < count {
            return Ok(false);
        }
        let left = self.types.len() - count;
        let gone = as_locals(self.alloc, &self.types[left..])?.len();
        let blank = vec![in self.alloc; JType::Top; gone]?;
        self.types.truncate(left);
        self.slots -= gone;
        self.locals.put(self.slots, &blank)?;
        Ok(true)
    }

    /// Appends types. Returns false if all of them exceed `max_locals`.
    fn append(&mut self, types: &[JType]) -> Result<bool, AllocError>
        requires { IsListing self.old }
        ensures { IfOk result (λ yes. IsAfter self.old (within self.old.max_locals (self.old.types.items ++ types.now)) yes self.new) }
    {
        if !have_room(types, self.max_locals - self.slots) {
            return Ok(false);
        }
        let listed = as_locals(self.alloc, types)?;
        self.locals.put(self.slots, &listed)?;
        self.types.extend_from_slice(types)?;
        self.slots += listed.len();
        Ok(true)
    }

    /// Replaces the types. Returns false if the new ones exceed `max_locals`.
    fn replace(&mut self, types: &[JType]) -> Result<bool, AllocError>
        requires { IsListing self.old }
        ensures { IfOk result (λ yes. IsAfter self.old (within self.old.max_locals types.now) yes self.new) }
    {
        if !have_room(types, self.max_locals) {
            return Ok(false);
        }
        let listed = as_locals(self.alloc, types)?;
        let slots = listed.len();
        let listed = padded(listed, self.slots)?;
        self.locals.put(0, &listed)?;
        self.types.clear();
        self.types.extend_from_slice(types)?;
        self.slots = slots;
        Ok(true)
    }

    /// Keeps the current locals at a new index.
    fn keep(&mut self) -> Result<(), AllocError>
        ensures kept { IfOk result (λ _. self.new.locals.kept ≡ self.old.locals.kept ++ self.old.locals.row ∷ []) }
        ensures number { IfOk result (λ _. self.new.number ≡ length self.old.locals.kept) }
        ensures row { self.new.locals.row ≡ self.old.locals.row }
        ensures types { (self.new.types ≡ self.old.types) × (self.new.slots ≡ self.old.slots) }
        ensures max { self.new.max_locals ≡ self.old.max_locals }
    {
        self.number = self.locals.kept_len();
        self.locals.keep()
    }

    /// Changes the locals to those of an entry's frame, and keeps them unless the entry repeats the locals before it.
    /// Returns false if more types are chopped than there are, or if the new ones exceed `max_locals`.
    pub fn change(&mut self, change: &Change) -> Result<bool, AllocError>
        requires listing { IsListing self.old }
        requires kept { IsKept self.old }
        ensures { IfOk result (λ yes. IsChanged self.old change.now yes self.new) }
    {
        let changed = match change {
            Change::Same | Change::OneItem(_) => return Ok(true),
            Change::Chop(count) => self.chop(*count)?,
            Change::Append(types) => self.append(types.as_slice())?,
            Change::Full(types, _) => self.replace(types.as_slice())?,
        };
        if changed {
            self.keep()?;
        }
        Ok(changed)
    }

    /// Returns the index of the last kept locals.
    pub fn number(&self) -> usize
        ensures { result ≡ self.now.number }
    {
        self.number
    }

    /// Returns the method's initial frame, the locals kept first and no operands. It has all kept locals.
    pub fn into_first(self) -> Flow
        requires { 0 < length self.locals.kept }
        ensures row { result.locals.row ≡ slice_index_or self.locals.kept 0 [] }
        ensures kept { result.locals.kept ≡ self.locals.kept }
        ensures stack { result.stack ≡ [] }
    {
        let mut locals = self.locals;
        locals.enter(0);
        Flow {
            locals,
            stack: TypeStack::new(self.alloc),
        }
    }
}

/// Returns the stack of these types, given with the bottom first, or `None` if they exceed `max` slots.
fn stack_with(alloc: Global, types: &[JType], max: u16) -> Result<Option<TypeStack>, AllocError>
    ensures { IfOk result (λ stack. stack ≡ option_map reverse (within max types.now)) }
{
    let mut stack = TypeStack::new(alloc);
    for t in types {
        if !stack.push(*t, max)? {
            return Ok(None);
        }
    }
    Ok(Some(stack))
}

/// Returns the operand stack of an entry's frame, or `None` if it exceeds `max` slots.
pub fn stack_of(alloc: Global, change: &Change, max: u16) -> Result<Option<TypeStack>, AllocError>
    ensures { IfOk result (λ stack. stack ≡ option_map reverse (within max (stack_after change.now))) }
{
    match change {
        Change::Same | Change::Chop(_) | Change::Append(_) => Ok(Some(TypeStack::new(alloc))),
        Change::OneItem(t) => stack_with(alloc, &[*t], max),
        Change::Full(_, types) => stack_with(alloc, types.as_slice(), max),
    }
}
