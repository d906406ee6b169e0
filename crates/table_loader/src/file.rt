//! The file format of a table.

ghost use Rattle.std.specs.Prelude.{◌≡◌, List, None, IfOk, IfSome};
ghost use Rattle.jtypes.specs.Layout.{Takes, first, many};
ghost use Rattle.table_loader.specs.Rows.{long, pair, AreRowsOf};
ghost use Rattle.table_loader.specs.declared.table.Pair.{Pair};

use crate::Pair;
use jtypes::{Cursor, Refusal};
use std::alloc::{AllocError, Global};

/// The length of a pair in bytes.
const ROW: usize = 16;

#[tactic(auto, unfolding(crate::specs::Rows::long))]
fn read_long(cursor: &mut Cursor<'_>) -> Result<i64, Refusal>
    ensures { Takes (λ x. x) result (first long cursor.old) cursor.new }
{
    let bits = cursor.u64()?;
    Ok(bits.cast_signed())
}

#[tactic(auto, unfolding(crate::specs::Rows::pair))]
fn read_pair(cursor: &mut Cursor<'_>) -> Result<Pair, Refusal>
    ensures { Takes (λ x. x) result (first pair cursor.old) cursor.new }
{
    let key = read_long(cursor)?;
    let value = read_long(cursor)?;
    Ok(Pair { key, value })
}

/// Reads `count` pairs.
fn read_rows(alloc: Global, count: usize, cursor: &mut Cursor<'_>) -> Result<Vec<Pair>, Refusal>
    ensures { Takes (λ rows. rows.items) result (first (many count pair) cursor.old) cursor.new }
{
    let mut rows = Vec::new(alloc);
    for _ in 0..count {
        let one = read_pair(cursor)?;
        rows.push(one)?;
    }
    Ok(rows)
}

/// Returns the pairs of a file, or `None` if its length is not a multiple of 16 bytes.
pub fn rows_of(alloc: Global, bytes: &[u8]) -> Result<Option<Vec<Pair>>, AllocError>
    ensures some { IfOk result (λ o. IfSome o (λ rows. AreRowsOf bytes.now rows.items)) }
    ensures none { IfOk result (λ o. o ≡ None → (rows : List Pair) → ¬ AreRowsOf bytes.now rows) }
{
    let count = bytes.len() / ROW;
    if count * ROW != bytes.len() {
        return Ok(None);
    }
    let mut cursor = Cursor::new(bytes);
    match read_rows(alloc, count, &mut cursor) {
        Ok(rows) => Ok(Some(rows)),
        Err(_) => Err(AllocError),
    }
}
