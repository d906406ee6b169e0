//! The frames that a StackMapTable attribute declares.

ghost use Rattle.std.specs.Prelude.{◌≡◌, ◌≢◌, ◌⊎◌, ◌<◌, ◌^◌, ℕ, List, map, option_map, true, IfOk, IfErr, IfSome};
ghost use Rattle.jtypes.specs.declared.refusal.Refusal.{Refusal};
ghost use Rattle.frames.specs.Frames.{Frame, row_with, first_frame};
ghost use Rattle.frames.specs.Listing.{IsListing, IsKept, IsChanged};
ghost use Rattle.frames.specs.StackMap.{IsDeclared, place_after};
ghost use Rattle.frames.specs.Seen.{AreInOrder, AreKept, AreRead, frame_seen, frames_seen};
ghost use Rattle.frames.specs.Reading.{entries_of, standing, next_listed, reached, framed, frames_of};

use crate::entries::{Entry, read_table};
use crate::listing::{Listing, stack_of};
use crate::{Environment, Flow, MethodStart, TypeStack};
use classfile::ClassView;
use decode::Code;
use jtypes::{Cursor, Items, Refusal};
use std::alloc::{AllocError, Global};

/// A declared frame and the pc of its instruction (JVMS §4.7.4). `Frames::first` keeps its locals.
#[derive(Drop)]
pub struct Declared {
    pub place: usize,
    /// The index of the frame's locals among those that `Frames::first` keeps.
    pub row: usize,
    pub stack: TypeStack,
}

/// The frames that a method's StackMapTable declares, by increasing pc, and the method's initial frame, which keeps their locals.
#[derive(Drop)]
pub struct Frames {
    pub declared: Vec<Declared>,
    pub first: Flow,
}

/// Reads the entries of a table. Returns `None` for a malformed table and for trailing bytes, an error if out of memory.
fn entries_of(
    alloc: Global,
    view: &ClassView<'_>,
    content: &[u8],
) -> Result<Option<Items<Entry>>, AllocError>
    ensures { IfOk result (λ entries. entries ≡ entries_of view.now content.now) }
{
    let mut cursor = Cursor::new(content);
    match read_table(alloc, view, &mut cursor) {
        Ok(entries) => Ok(if cursor.is_empty() {
            Some(entries)
        } else {
            None
        }),
        Err(Refusal::NoMemory) => Err(AllocError),
        Err(_) => Ok(None),
    }
}

/// Returns the pc of an entry's frame, if an instruction starts there.
/// The first pc is `delta`, and a later one is `delta + 1` after the pc before.
fn place_of(code: &Code, before: Option<usize>, delta: u16) -> Option<usize>
    ensures place { result ≡ standing code.now (place_after before delta) }
    ensures fits { IfSome result (λ place. place < 2 ^ 64) }
{
    if code.as_slice().is_empty() {
        return None;
    }
    let delta = usize::from(delta);
    let place = match before {
        None => delta,
        // A sum that overflows is past the pc of every instruction.
        Some(place) => place.checked_add(delta + 1)?,
    };
    match code.at(place) {
        Some(_) => Some(place),
        None => None,
    }
}

/// The pc and the operand stack of an entry's frame.
#[derive(Drop)]
struct Next {
    place: usize,
    stack: TypeStack,
}

/// Returns the pc and the operand stack of an entry's frame, and makes `listing` the frame's locals.
/// Returns `None` if no instruction starts at the pc, too few locals exist to chop, or the frame exceeds the method's limits.
#[tactic(auto, unfolding(crate::specs::Reading::next_listed))]
fn next_frame(
    alloc: Global,
    environment: &Environment,
    code: &Code,
    before: Option<usize>,
    listing: &mut Listing,
    entry: &Entry,
) -> Result<Option<Next>, AllocError>
    requires listing { IsListing listing.old }
    requires kept { IsKept listing.old }
    requires max { listing.old.max_locals ≡ environment.now.max_locals }
    ensures frame { IfOk result (λ next. option_map reached (next_listed environment.now code.now before listing.old.types.items entry.now) ≡ option_map (λ n. record { place = n.place; locals = listing.new.types.items; stack = n.stack }) next) }
    ensures changed { IfOk result (λ next. IfSome next (λ _. IsChanged listing.old entry.now.change true listing.new)) }
    ensures fits { IfOk result (λ next. IfSome next (λ n. n.place < 2 ^ 64)) }
{
    let Some(place) = place_of(code, before, entry.delta) else {
        return Ok(None);
    };
    if !listing.change(&entry.change)? {
        return Ok(None);
    }
    match stack_of(alloc, &entry.change, environment.max_stack)? {
        Some(stack) => Ok(Some(Next { place, stack })),
        None => Ok(None),
    }
}

/// Returns the frames of the entries, and the initial frame. Returns `None` if one of the entries gives no valid frame.
fn frames_from(
    alloc: Global,
    start: &MethodStart,
    code: &Code,
    entries: &[Entry],
) -> Result<Option<Frames>, AllocError>
    ensures read { IfOk result (λ fs. IfSome fs (AreRead start.now)) }
    ensures frames { IfOk result (λ fs. option_map frames_seen fs ≡ framed start.now code.now None start.now.signature.params entries.now) }
{
    let mut declared = Vec::new(alloc);
    let mut before = None;
    let environment = start.environment();
    let mut listing = Listing::at_start(alloc, start)?;
    for entry in entries {
        let next = next_frame(alloc, environment, code, before, &mut listing, entry)?;
        let Some(next) = next else {
            return Ok(None);
        };
        let Next { place, stack } = next;
        let row = listing.number();
        declared.push(Declared { place, row, stack })?;
        before = Some(place);
    }
    let first = listing.into_first();
    Ok(Some(Frames { declared, first }))
}

/// Returns the frames of at most one table. Returns `None` for two tables, or for a table that declares no valid frames.
fn frames_of(
    alloc: Global,
    start: &MethodStart,
    tables: &[&[u8]],
    code: &Code,
    view: &ClassView<'_>,
) -> Result<Option<Frames>, AllocError>
    ensures read { IfOk result (λ fs. IfSome fs (AreRead start.now)) }
    ensures frames { IfOk result (λ fs. option_map frames_seen fs ≡ frames_of view.now start.now code.now (map (λ t. t.now) tables.now)) }
{
    match tables {
        [] => frames_from(alloc, start, code, &[]),
        [content] => match entries_of(alloc, view, content)? {
            None => Ok(None),
            Some(entries) => frames_from(alloc, start, code, entries.as_slice()),
        },
        _ => Ok(None),
    }
}

/// Reads the frames that a method's StackMapTable attributes declare, and the method's initial frame.
/// At most one attribute is allowed; two of them or a malformed one give the error `BadStackMap`.
pub fn read_frames(
    alloc: Global,
    start: &MethodStart,
    tables: &[&[u8]],
    code: &Code,
    view: &ClassView<'_>,
) -> Result<Frames, Refusal>
    // The declared frames, by increasing pc, and the initial frame.
    ensures declared { IfOk result (λ fs. IsDeclared view.now start.now code.now (map (λ t. t.now) tables.now) (frames_seen fs)) }
    ensures order { IfOk result (λ fs. AreInOrder fs.declared.items) }
    ensures first { IfOk result (λ fs. frame_seen fs.first ≡ first_frame start.now) }
    ensures rows { IfOk result (λ fs. AreKept fs.first.locals.kept fs.declared.items) }

    // Besides `NoMemory` the only error is `BadStackMap`: the attributes declare no frames.
    ensures one { IfErr result (λ r. (r ≡ Refusal.NoMemory) ⊎ (r ≡ Refusal.BadStackMap)) }
    ensures refusal { IfErr result (λ r. r ≢ Refusal.NoMemory → (r ≡ Refusal.BadStackMap) × ((ds : List (ℕ × Frame)) → IsDeclared view.now start.now code.now (map (λ t. t.now) tables.now) ds → ⊥)) }
{
    match frames_of(alloc, start, tables, code, view)? {
        Some(frames) => Ok(frames),
        None => Err(Refusal::BadStackMap),
    }
}
