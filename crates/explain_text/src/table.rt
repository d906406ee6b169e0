//! The first entry of a `StackMapTable` with a type outside the profile (JVMS §4.7.4).

use classfile::ClassView;
use frames::constant_type;
use jtypes::Cursor;

/// A verification type outside the profile.
#[derive(Clone, Copy)]
pub enum UnknownType {
    /// A class or an array type, by its index in the constant pool.
    Class(u16),
    Float,
    Double,
    /// An object whose constructor hasn't run.
    Uninitialised,
}

/// The pc of an entry, and its type outside the profile.
#[derive(Clone, Copy)]
pub struct BadEntry {
    pub pc: usize,
    pub unknown: UnknownType,
}

/// Reads the operand of an object type or of an uninitialized type: the index of a class, or the pc of the `new`.
fn read_object(
    view: &ClassView<'_>,
    cursor: &mut Cursor<'_>,
    is_class: bool,
) -> Option<Result<(), UnknownType>> {
    match cursor.u16() {
        Ok(_) if !is_class => Some(Err(UnknownType::Uninitialised)),
        Ok(i) if constant_type(view, i).is_none() => Some(Err(UnknownType::Class(i))),
        Ok(_) => Some(Ok(())),
        Err(_) => None,
    }
}

/// Reads a verification type. The error is a type outside the profile, and none is malformed.
fn read_type(view: &ClassView<'_>, cursor: &mut Cursor<'_>) -> Option<Result<(), UnknownType>> {
    let Ok(tag) = cursor.u8() else {
        return None;
    };
    match tag {
        0 | 1 | 4 | 5 => Some(Ok(())),
        2 => Some(Err(UnknownType::Float)),
        3 => Some(Err(UnknownType::Double)),
        6 => Some(Err(UnknownType::Uninitialised)),
        7 | 8 => read_object(view, cursor, tag == 7),
        _ => None,
    }
}

/// Reads `count` types and returns the first one outside the profile. None is malformed.
fn read_types(
    view: &ClassView<'_>,
    cursor: &mut Cursor<'_>,
    count: u16,
) -> Option<Option<UnknownType>> {
    for _ in 0..count {
        match read_type(view, cursor) {
            Some(Ok(())) => {}
            Some(Err(unknown)) => return Some(Some(unknown)),
            None => return None,
        }
    }
    Some(None)
}

/// Returns the offset delta of an entry with this tag.
fn read_delta(cursor: &mut Cursor<'_>, tag: u8) -> Option<usize> {
    match tag {
        0..=63 => Some(usize::from(tag)),
        64..=127 => Some(usize::from(tag - 64)),
        _ => match cursor.u16() {
            Ok(delta) => Some(usize::from(delta)),
            Err(_) => None,
        },
    }
}

/// Returns the first type outside the profile of an entry with this tag.
fn read_unknown_type(
    view: &ClassView<'_>,
    cursor: &mut Cursor<'_>,
    tag: u8,
) -> Option<Option<UnknownType>> {
    match tag {
        0..=63 | 248..=251 => Some(None),
        64..=127 | 247 => read_types(view, cursor, 1),
        252..=254 => read_types(view, cursor, u16::from(tag - 251)),
        255 => read_full(view, cursor),
        _ => None,
    }
}

/// Reads an entry: its offset delta, and its first type outside the profile.
fn read_entry(
    view: &ClassView<'_>,
    cursor: &mut Cursor<'_>,
) -> Option<(usize, Option<UnknownType>)> {
    let Ok(tag) = cursor.u8() else {
        return None;
    };
    match (
        read_delta(cursor, tag),
        read_unknown_type(view, cursor, tag),
    ) {
        (Some(delta), Some(unknown)) => Some((delta, unknown)),
        _ => None,
    }
}

/// Reads a count and as many types.
fn read_counted(view: &ClassView<'_>, cursor: &mut Cursor<'_>) -> Option<Option<UnknownType>> {
    match cursor.u16() {
        Ok(count) => read_types(view, cursor, count),
        Err(_) => None,
    }
}

/// Reads the locals and the operands of a full frame.
fn read_full(view: &ClassView<'_>, cursor: &mut Cursor<'_>) -> Option<Option<UnknownType>> {
    match read_counted(view, cursor) {
        Some(None) => read_counted(view, cursor),
        found => found,
    }
}

/// Returns the first entry with a type outside the profile, or none if the table has none, or is malformed before it.
pub fn bad_entry(view: &ClassView<'_>, table: &[u8]) -> Option<BadEntry> {
    let mut cursor = Cursor::new(table);
    let Ok(count) = cursor.u16() else {
        return None;
    };
    let mut next = 0usize;
    for _ in 0..count {
        let Some((delta, found)) = read_entry(view, &mut cursor) else {
            return None;
        };
        let pc = next.saturating_add(delta);
        if let Some(unknown) = found {
            return Some(BadEntry { pc, unknown });
        }
        next = pc.saturating_add(1);
    }
    None
}
