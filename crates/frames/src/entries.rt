//! The entries of a StackMapTable.

ghost use Rattle.std.specs.Prelude.{◌≡◌};
ghost use Rattle.jtypes.specs.Layout.{Takes, first};
ghost use Rattle.frames.specs.StackMap.{object_type, class_item, stack_type, local_type, one_item, one_item_extended, with_delta, append, full, entry, table};

use crate::constant_type;
use classfile::ClassView;
use jtypes::{Cursor, Items, JType, Reader, Refusal, row};
use std::alloc::Global;

/// The change from the frame before an entry to the entry's frame. `Chop` has the number of dropped locals.
/// `Full` has the locals, then the operands with the bottom first. A long is one local here.
#[derive(Drop)]
pub enum Change {
    Same,
    OneItem(JType),
    Chop(u8),
    Append(Items<JType>),
    Full(Items<JType>, Items<JType>),
}

/// An entry of a StackMapTable: its `offset_delta`, and the change of the frame (JVMS §4.7.4).
#[derive(Drop)]
pub struct Entry {
    pub delta: u16,
    pub change: Change,
}

#[derive(Drop)]
struct LocalTypes<'a> {
    view: &'a ClassView<'a>,
}

impl<'a> Reader for LocalTypes<'a> {
    type Item = JType;

    ghost layout = { λ r. local_type r.view.now };

    fn read(&self, _alloc: Global, cursor: &mut Cursor<'_>) -> Result<JType, Refusal> {
        read_local_type(self.view, cursor)
    }
}

#[derive(Drop)]
struct StackTypes<'a> {
    view: &'a ClassView<'a>,
}

impl<'a> Reader for StackTypes<'a> {
    type Item = JType;

    ghost layout = { λ r. stack_type r.view.now };

    fn read(&self, _alloc: Global, cursor: &mut Cursor<'_>) -> Result<JType, Refusal> {
        read_stack_type(self.view, cursor)
    }
}

#[derive(Drop)]
struct Entries<'a> {
    view: &'a ClassView<'a>,
}

impl<'a> Reader for Entries<'a> {
    type Item = Entry;

    ghost layout = { λ r. entry r.view.now };

    fn read(&self, alloc: Global, cursor: &mut Cursor<'_>) -> Result<Entry, Refusal> {
        read_entry(alloc, self.view, cursor)
    }
}

#[tactic(auto, unfolding(crate::specs::StackMap::class_item, crate::specs::StackMap::object_type))]
fn read_class_item(view: &ClassView<'_>, cursor: &mut Cursor<'_>) -> Result<JType, Refusal>
    ensures { Takes (λ x. x) result (first (class_item view.now) cursor.old) cursor.new }
{
    let i = cursor.u16()?;
    match constant_type(view, i) {
        Some(class) => Ok(JType::Ref(class)),
        None => Err(Refusal::BadStackMap),
    }
}

#[tactic(auto, unfolding(crate::specs::StackMap::stack_type))]
fn read_stack_type(view: &ClassView<'_>, cursor: &mut Cursor<'_>) -> Result<JType, Refusal>
    ensures { Takes (λ x. x) result (first (stack_type view.now) cursor.old) cursor.new }
{
    match cursor.u8()? {
        1 => Ok(JType::Int),
        4 => Ok(JType::Long),
        5 => Ok(JType::Null),
        7 => read_class_item(view, cursor),
        _ => Err(Refusal::BadStackMap),
    }
}

#[tactic(auto, unfolding(crate::specs::StackMap::local_type))]
fn read_local_type(view: &ClassView<'_>, cursor: &mut Cursor<'_>) -> Result<JType, Refusal>
    ensures { Takes (λ x. x) result (first (local_type view.now) cursor.old) cursor.new }
{
    match cursor.u8()? {
        0 => Ok(JType::Top),
        1 => Ok(JType::Int),
        4 => Ok(JType::Long),
        5 => Ok(JType::Null),
        7 => read_class_item(view, cursor),
        _ => Err(Refusal::BadStackMap),
    }
}

#[tactic(auto, unfolding(crate::specs::StackMap::one_item))]
fn read_one_item(
    view: &ClassView<'_>,
    delta: u16,
    cursor: &mut Cursor<'_>,
) -> Result<Entry, Refusal>
    ensures { Takes (λ x. x) result (first (one_item view.now delta) cursor.old) cursor.new }
{
    let change = Change::OneItem(read_stack_type(view, cursor)?);
    Ok(Entry { delta, change })
}

#[tactic(auto, unfolding(crate::specs::StackMap::one_item_extended))]
fn read_one_item_extended(view: &ClassView<'_>, cursor: &mut Cursor<'_>) -> Result<Entry, Refusal>
    ensures { Takes (λ x. x) result (first (one_item_extended view.now) cursor.old) cursor.new }
{
    let delta = cursor.u16()?;
    read_one_item(view, delta, cursor)
}

#[tactic(auto, unfolding(crate::specs::StackMap::with_delta))]
fn read_with_delta(change: Change, cursor: &mut Cursor<'_>) -> Result<Entry, Refusal>
    ensures { Takes (λ x. x) result (first (with_delta change) cursor.old) cursor.new }
{
    let delta = cursor.u16()?;
    Ok(Entry { delta, change })
}

#[tactic(auto, unfolding(crate::specs::StackMap::append))]
fn read_append(
    alloc: Global,
    view: &ClassView<'_>,
    count: u8,
    cursor: &mut Cursor<'_>,
) -> Result<Entry, Refusal>
    ensures { Takes (λ x. x) result (first (append view.now count) cursor.old) cursor.new }
{
    let delta = cursor.u16()?;
    let types = row(alloc, &LocalTypes { view }, usize::from(count), cursor)?;
    let change = Change::Append(types);
    Ok(Entry { delta, change })
}

#[tactic(auto, unfolding(crate::specs::StackMap::full))]
fn read_full(alloc: Global, view: &ClassView<'_>, cursor: &mut Cursor<'_>) -> Result<Entry, Refusal>
    ensures { Takes (λ x. x) result (first (full view.now) cursor.old) cursor.new }
{
    let delta = cursor.u16()?;
    let count = cursor.u16()?;
    let locals = row(alloc, &LocalTypes { view }, usize::from(count), cursor)?;
    let count = cursor.u16()?;
    let stack = row(alloc, &StackTypes { view }, usize::from(count), cursor)?;
    let change = Change::Full(locals, stack);
    Ok(Entry { delta, change })
}

/// Reads an entry, by its first byte, the `frame_type` (JVMS §4.7.4, `stack_map_frame`).
#[tactic(auto, unfolding(crate::specs::StackMap::entry))]
fn read_entry(
    alloc: Global,
    view: &ClassView<'_>,
    cursor: &mut Cursor<'_>,
) -> Result<Entry, Refusal>
    ensures { Takes (λ x. x) result (first (entry view.now) cursor.old) cursor.new }
{
    let kind = cursor.u8()?;
    match kind {
        0..=63 => Ok(Entry {
            delta: u16::from(kind),
            change: Change::Same,
        }),
        64..=127 => read_one_item(view, u16::from(kind - 64), cursor),
        128..=246 => Err(Refusal::BadStackMap),
        247 => read_one_item_extended(view, cursor),
        248..=250 => read_with_delta(Change::Chop(251 - kind), cursor),
        251 => read_with_delta(Change::Same, cursor),
        252..=254 => read_append(alloc, view, kind - 251, cursor),
        255 => read_full(alloc, view, cursor),
    }
}

/// Reads a table from the front of the bytes: a 16-bit count, then the entries.
#[tactic(auto, unfolding(crate::specs::StackMap::table))]
pub fn read_table(
    alloc: Global,
    view: &ClassView<'_>,
    cursor: &mut Cursor<'_>,
) -> Result<Items<Entry>, Refusal>
    ensures { Takes (λ x. x) result (first (table view.now) cursor.old) cursor.new }
{
    let count = cursor.u16()?;
    row(alloc, &Entries { view }, usize::from(count), cursor)
}
