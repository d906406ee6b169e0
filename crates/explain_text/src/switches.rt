//! Switches as text: keys and branch targets (JVMS §6.5, `tableswitch` and `lookupswitch`).

use crate::writer::Text;
use jtypes::Cursor;

/// The maximum number of cases that are shown.
const SHOWN: u8 = 4;

/// The operands of a switch before its cases.
#[derive(Clone, Copy)]
struct Head {
    default: i32,
    /// The first key of a `tableswitch`, whose keys are consecutive.
    low: Option<i32>,
    count: i64,
}

/// Returns the branch target at this offset from the pc of an instruction.
pub fn target_of(pc: usize, offset: i32) -> i128 {
    pc as i128 + i128::from(offset)
}

fn read_number(cursor: &mut Cursor<'_>) -> Option<i32> {
    match cursor.u32() {
        Ok(n) => Some(n.cast_signed()),
        Err(_) => None,
    }
}

/// Skips the padding after the opcode at a pc, up to a multiple of four, and returns the offset of the default.
fn read_default(pc: usize, cursor: &mut Cursor<'_>) -> Option<i32> {
    match cursor.part(3 - pc % 4) {
        Ok(_) => read_number(cursor),
        Err(_) => None,
    }
}

/// Reads the head of a `tableswitch` with this default. The count is 0 or negative if the last key is less than the first.
fn read_keys(default: i32, cursor: &mut Cursor<'_>) -> Option<Head> {
    match (read_number(cursor), read_number(cursor)) {
        (Some(low), Some(high)) => Some(Head {
            default,
            low: Some(low),
            count: i64::from(high) - i64::from(low) + 1,
        }),
        _ => None,
    }
}

/// Reads the head of a `lookupswitch` with this default.
fn read_count(default: i32, cursor: &mut Cursor<'_>) -> Option<Head> {
    match read_number(cursor) {
        Some(count) => Some(Head {
            default,
            low: None,
            count: i64::from(count),
        }),
        None => None,
    }
}

/// Reads the head of the switch with this opcode at a pc.
fn read_head(opcode: u8, pc: usize, cursor: &mut Cursor<'_>) -> Option<Head> {
    match read_default(pc, cursor) {
        Some(default) if opcode == 0xAA => read_keys(default, cursor),
        Some(default) => read_count(default, cursor),
        None => None,
    }
}

/// Returns the key of the case with index `i`.
fn read_key(head: Head, i: u8, cursor: &mut Cursor<'_>) -> Option<i64> {
    if let Some(low) = head.low {
        return Some(i64::from(low) + i64::from(i));
    }
    match read_number(cursor) {
        Some(key) => Some(i64::from(key)),
        None => None,
    }
}

/// Writes the case with index `i`. Returns false if it is cut off.
fn put_case(text: &mut Text, pc: usize, head: Head, i: u8, cursor: &mut Cursor<'_>) -> bool {
    match (read_key(head, i, cursor), read_number(cursor)) {
        (Some(key), Some(offset)) => {
            text.put_value(" ", key);
            text.put_value(" -> ", target_of(pc, offset));
            text.put(",");
            true
        }
        _ => false,
    }
}

/// Writes the first cases of a switch. Returns false if they are cut off.
fn put_cases(text: &mut Text, pc: usize, head: Head, cursor: &mut Cursor<'_>) -> bool {
    for i in 0..SHOWN {
        if i64::from(i) < head.count && !put_case(text, pc, head, i, cursor) {
            return false;
        }
    }
    true
}

/// Writes the number of cases of a switch.
fn put_count(text: &mut Text, count: i64) {
    text.put_value(" of ", count);
    text.put(if count == 1 { " case:" } else { " cases:" });
}

/// Writes the operands of the switch with this opcode at a pc: the number of cases, the first cases and the default.
/// Returns false if they are cut off.
pub fn put_switch(text: &mut Text, opcode: u8, pc: usize, cursor: &mut Cursor<'_>) -> bool {
    let Some(head) = read_head(opcode, pc, cursor) else {
        return false;
    };
    put_count(text, head.count);
    if !put_cases(text, pc, head, cursor) {
        return false;
    }
    if head.count > i64::from(SHOWN) {
        text.put(" ..,");
    }
    text.put_value(" default -> ", target_of(pc, head.default));
    true
}
