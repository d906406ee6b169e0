//! Source lines.

use classfile::{ClassFile, CodeParts, contents_named};
use jtypes::Cursor;
use std::alloc::{AllocError, Global};

/// The attribute with the source lines of a method's code (JVMS §4.7.12).
const LINE_NUMBER_TABLE: &[u8] = b"LineNumberTable";

/// A source line, and the pc at which its code begins.
#[derive(Clone, Copy)]
struct Line {
    pc: usize,
    number: u16,
}

fn read_line(cursor: &mut Cursor<'_>) -> Option<Line> {
    match (cursor.u16(), cursor.u16()) {
        (Ok(pc), Ok(number)) => Some(Line {
            pc: usize::from(pc),
            number,
        }),
        _ => None,
    }
}

/// Returns the later of two lines, of those that begin at or before this pc.
fn later_of(found: Option<Line>, line: Line, pc: usize) -> Option<Line> {
    match found {
        _ if line.pc > pc => found,
        Some(other) if other.pc > line.pc => found,
        _ => Some(line),
    }
}

/// Returns the line of a pc by a table, or none if the table is malformed or has no line for it.
fn line_in_table(table: &[u8], pc: usize) -> Option<Line> {
    let mut cursor = Cursor::new(table);
    let Ok(count) = cursor.u16() else {
        return None;
    };
    let mut found = None;
    for _ in 0..count {
        match read_line(&mut cursor) {
            Some(line) => found = later_of(found, line, pc),
            None => return None,
        }
    }
    if cursor.is_empty() { found } else { None }
}

/// Returns the line number of a pc by these tables.
fn number_in_tables(tables: &[&[u8]], pc: usize) -> Option<u16> {
    let mut found = None;
    for table in tables {
        if let Some(line) = line_in_table(table, pc) {
            found = later_of(found, line, pc);
        }
    }
    match found {
        Some(line) => Some(line.number),
        None => None,
    }
}

/// Returns the source line of a pc if the class file has it.
pub fn line_of(
    alloc: Global,
    class: &ClassFile,
    parts: &CodeParts,
    pc: usize,
) -> Result<Option<u16>, AllocError> {
    let attributes = parts.attributes.as_slice();
    let tables = contents_named(alloc, &class.pool, LINE_NUMBER_TABLE, attributes)?;
    Ok(number_in_tables(&tables, pc))
}
