//! The pc that is shown for a refusal in a method.

use crate::table::{BadEntry, bad_entry};
use classfile::{Attribute, ClassFile, CodeParts, Member, contents_named, parts_of_code};
use constpool::{names, same_bytes};
use jtypes::{Cursor, Refusal};
use std::alloc::{AllocError, Global};
use verdict::{Located, Spot};

/// A pc, and whether its instruction is refused. If not, the pc only gives the source line of the method.
#[derive(Clone, Copy)]
pub struct Shown {
    pub pc: usize,
    pub is_instruction: bool,
}

/// Returns a pc that only gives the source line of its method.
fn of_method(pc: usize) -> Shown {
    Shown {
        pc,
        is_instruction: false,
    }
}

fn of_instruction(pc: usize) -> Shown {
    Shown {
        pc,
        is_instruction: true,
    }
}

/// Returns the content of the first of these attributes with this name.
fn first_named<'a>(
    alloc: Global,
    class: &ClassFile,
    name: &[u8],
    attributes: &'a [Attribute],
) -> Result<Option<&'a [u8]>, AllocError> {
    let contents = contents_named(alloc, &class.pool, name, attributes)?;
    Ok(contents.first().copied())
}

/// Returns the content of the first `Code` attribute of a method if it has one.
fn code_content<'a>(
    alloc: Global,
    class: &ClassFile,
    method: &'a Member,
) -> Result<Option<&'a [u8]>, AllocError> {
    first_named(alloc, class, names::CODE, method.attributes.as_slice())
}

/// Returns the parts of the first `Code` attribute of a method if it has one.
pub fn code_of(
    alloc: Global,
    class: &ClassFile,
    method: &Member,
) -> Result<Option<CodeParts>, AllocError> {
    match code_content(alloc, class, method)? {
        Some(content) => parts_of_code(alloc, content),
        None => Ok(None),
    }
}

/// Returns whether an index of the constant pool is the constructor of `Object`.
fn is_object_init(class: &ClassFile, i: u16) -> bool {
    match class.pool.method(i) {
        Some(member) => {
            same_bytes(member.class, names::OBJECT) && same_bytes(member.name, names::INIT)
        }
        None => false,
    }
}

fn index_of(high: u8, low: u8) -> u16 {
    u16::from(high) * 256 + u16::from(low)
}

/// Returns the first pc where a constructor differs from a load of `this`, a call of the constructor of `Object`, and a return.
fn constructor_difference(class: &ClassFile, code: &[u8]) -> Shown {
    match code {
        [0x2A, 0xB7, high, low, rest @ ..] if is_object_init(class, index_of(*high, *low)) => {
            match rest {
                [0xB1, ..] => of_method(0),
                _ => of_instruction(4),
            }
        }
        [0x2A, ..] => of_instruction(1),
        _ => of_instruction(0),
    }
}

/// Returns a cursor at the entries of the exception table of a `Code` attribute (JVMS §4.7.3).
fn exception_table(content: &[u8]) -> Option<Cursor<'_>> {
    let mut cursor = Cursor::new(content);
    let (Ok(_), Ok(length)) = (cursor.part(4), cursor.u32()) else {
        return None;
    };
    match (cursor.part(length as usize), cursor.u16()) {
        (Ok(_), Ok(_)) => Some(cursor),
        _ => None,
    }
}

/// Returns the start pc and the handler pc of the first entry of an exception table.
fn first_handler(content: &[u8]) -> Option<(usize, usize)> {
    let mut cursor = exception_table(content)?;
    match (cursor.u16(), cursor.u16(), cursor.u16()) {
        (Ok(start), Ok(_), Ok(handler)) => Some((usize::from(start), usize::from(handler))),
        _ => None,
    }
}

/// Returns the pc for an exception table: of the `monitorenter` right before the first entry, or of that entry's handler.
fn handler_location(content: &[u8], code: &[u8]) -> Shown {
    match first_handler(content) {
        Some((start, _)) if start > 0 && code.get(start - 1) == Some(&0xC2) => {
            of_method(start - 1)
        }
        Some((_, handler)) => of_method(handler),
        None => of_method(0),
    }
}

fn handler_location_of(
    alloc: Global,
    class: &ClassFile,
    method: &Member,
    parts: &CodeParts,
) -> Result<Shown, AllocError> {
    match code_content(alloc, class, method)? {
        Some(content) => Ok(handler_location(content, parts.code.as_slice())),
        None => Ok(of_method(0)),
    }
}

/// Returns the first entry of the `StackMapTable` of a method's code with a type outside the profile.
pub fn bad_entry_of(
    alloc: Global,
    class: &ClassFile,
    parts: &CodeParts,
) -> Result<Option<BadEntry>, AllocError> {
    let attributes = parts.attributes.as_slice();
    match first_named(alloc, class, names::STACK_MAP_TABLE, attributes)? {
        Some(table) => Ok(bad_entry(&class.view(), table)),
        None => Ok(None),
    }
}

/// Returns the pc that is shown for a refusal of a method that is at no instruction.
fn method_location(
    alloc: Global,
    class: &ClassFile,
    method: &Member,
    parts: &CodeParts,
    refusal: Refusal,
) -> Result<Shown, AllocError> {
    match refusal {
        Refusal::ConstructorForm => Ok(constructor_difference(class, parts.code.as_slice())),
        Refusal::ExceptionTable => handler_location_of(alloc, class, method, parts),
        Refusal::BadStackMap => match bad_entry_of(alloc, class, parts)? {
            Some(entry) => Ok(of_instruction(entry.pc)),
            None => Ok(of_method(0)),
        },
        _ => Ok(of_method(0)),
    }
}

/// Returns the pc that is shown for a refusal in a method.
pub fn shown_location(
    alloc: Global,
    class: &ClassFile,
    method: &Member,
    parts: &CodeParts,
    located: Located,
) -> Result<Shown, AllocError> {
    match located.spot {
        Spot::AtInstruction { method: _, place } => Ok(of_instruction(place)),
        _ => method_location(alloc, class, method, parts, located.refusal),
    }
}
