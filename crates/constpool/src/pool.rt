//! The constant pool.

ghost use Rattle.std.specs.Prelude.{◌≡◌, ◌≢◌, ◌≤◌, length, take, drop, IfOk, IfErr};
ghost use Rattle.std.specs.Option.{option_copied};
ghost use Rattle.jtypes.specs.declared.refusal.Refusal.{Refusal};
ghost use Rattle.jtypes.specs.Layout.{Gives, Takes, first, IsLaidOut, Stands};
ghost use Rattle.constpool.specs.Pool.{pool};
ghost use Rattle.constpool.specs.Lookup.{constant_at, slot_refers, refers};

use crate::Constant;
use crate::reading::read_slots;
use jtypes::{Cursor, Refusal};
use std::alloc::Global;
use std::marker::Model;

/// A constant pool: a slot for each index from 1 (JVMS §4.4).
///
/// The second index of a `Long` or a `Double` has no constant (JVMS §4.4.5).
#[derive(Drop)]
pub struct Pool {
    slots: Vec<Option<Constant>>,
}

impl Model for Pool {
    ghost use Rattle.std.specs.Prelude.{List};
    ghost use Rattle.constpool.specs.Lookup.{Slot};

    ghost Value = { List Slot };

    ghost view = { λ p. p.slots.items };
}

impl Pool {
    /// Returns the constant at an index, or `None` at 0, at the second index of a `Long` or a `Double`, and past the end.
    pub fn constant(&self, i: u16) -> Option<&Constant>
        ensures { option_copied result ≡ constant_at self.now i }
    {
        if i == 0 {
            return None;
        }
        match self.slots.get(usize::from(i) - 1) {
            Some(Some(constant)) => Some(constant),
            _ => None,
        }
    }

    fn slot_refers(&self, slot: &Option<Constant>) -> bool
        ensures { result ≡ slot_refers self.now slot.now }
    {
        match slot {
            None => true,
            Some(constant) => self.constant_refers(constant),
        }
    }

    /// Returns whether each pool index in each constant is that of a constant with the required tag.
    #[tactic(auto, unfolding(crate::specs::Lookup::refers))]
    fn refers(&self) -> bool
        ensures { result ≡ refers self.now }
    {
        self.slots.iter().all(|slot| self.slot_refers(slot))
    }
}

#[tactic(auto, unfolding(crate::specs::Pool::pool))]
fn read_whole(alloc: Global, cursor: &mut Cursor<'_>) -> Result<Pool, Refusal>
    ensures { Takes (λ x. x) result (first pool cursor.old) cursor.new }
{
    let count = cursor.u16()?;
    if count == 0 {
        return Err(Refusal::BadPool);
    }
    let slots = read_slots(alloc, count - 1, cursor)?;
    let pool = Pool { slots };
    if !pool.refers() {
        return Err(Refusal::BadPool);
    }
    Ok(pool)
}

/// Reads a constant pool, which begins with its count. Returns it with its length in bytes (JVMS §4.1, §4.4).
pub fn read_pool(alloc: Global, bytes: &[u8]) -> Result<(Pool, usize), Refusal>
    ensures used { IfOk result (λ x. x.1 ≤ length bytes.now) }

    // The bytes that were read are this pool.
    ensures found { IfOk result (λ x. IsLaidOut pool (take x.1 bytes.now) x.0) }

    // A pool is returned only if no refusal applies, and a refusal that is returned applies, except `NoMemory`.
    ensures accepted { IfOk result (λ _. (r : Refusal) → Stands pool bytes.now r → ⊥) }
    ensures refused { IfErr result (λ r. r ≢ Refusal.NoMemory → Stands pool bytes.now r) }

    // Of the refusals that apply, the first one in the order of the read is returned.
    ensures exact { Gives (λ x. (x.0, drop x.1 bytes.now)) result (first pool bytes.now) }
{
    let mut cursor = Cursor::new(bytes);
    let pool = read_whole(alloc, &mut cursor)?;
    Ok((pool, bytes.len() - cursor.rest().len()))
}
