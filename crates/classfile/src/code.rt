//! `Code` attributes, and attributes by name.

ghost use Rattle.std.specs.Prelude.{◌≡◌, IfOk, map, is_some};
ghost use Rattle.std.specs.List.{list_all};
ghost use Rattle.jtypes.specs.Layout.{Takes, first};
ghost use Rattle.constpool.specs.Lookup.{utf8_at};
ghost use Rattle.classfile.specs.Code.{plain_attribute, code_parts, parts_of_code, is_named, attributes_are_named, contents_named};

use crate::rows::PlainAttributeReader;
use crate::{Attribute, CodeParts};
use constpool::{Pool, same_bytes};
use jtypes::{Cursor, Items, Refusal, row};
use std::alloc::{AllocError, Global};

#[tactic(auto, unfolding(crate::specs::Code::plain_attribute))]
pub fn read_plain_attribute(alloc: Global, cursor: &mut Cursor<'_>) -> Result<Attribute, Refusal>
    ensures { Takes (λ x. x) result (first plain_attribute cursor.old) cursor.new }
{
    let name = cursor.u16()?;
    let length = cursor.u32()?;
    let content = cursor.part(length as usize)?;
    let content = Items::new(Vec::from_slice(alloc, content)?);
    Ok(Attribute { name, content })
}

#[tactic(auto, unfolding(crate::specs::Code::code_parts))]
fn read_code_parts(alloc: Global, cursor: &mut Cursor<'_>) -> Result<CodeParts, Refusal>
    ensures { Takes (λ x. x) result (first code_parts cursor.old) cursor.new }
{
    let max_stack = cursor.u16()?;
    let max_locals = cursor.u16()?;
    let length = cursor.u32()?;
    let code = cursor.part(length as usize)?;
    let exceptions = cursor.u16()?;
    cursor.part(8 * usize::from(exceptions))?;
    let count = cursor.u16()?;
    let attributes = row(alloc, &PlainAttributeReader, usize::from(count), cursor)?;
    let code = Items::new(Vec::from_slice(alloc, code)?);
    Ok(CodeParts {
        max_stack,
        max_locals,
        code,
        exceptions,
        attributes,
    })
}

/// Parses the bytes of a `Code` attribute after its length. Returns `None` if its items don't fill them (JVMS §4.7.3).
#[tactic(auto, unfolding(crate::specs::Code::parts_of_code))]
pub fn parts_of_code(alloc: Global, content: &[u8]) -> Result<Option<CodeParts>, AllocError>
    ensures { IfOk result (λ found. found ≡ parts_of_code content.now) }
{
    let mut cursor = Cursor::new(content);
    match read_code_parts(alloc, &mut cursor) {
        Ok(parts) => Ok(if cursor.is_empty() { Some(parts) } else { None }),
        Err(Refusal::NoMemory) => Err(AllocError),
        Err(_) => Ok(None),
    }
}

/// Returns whether the `Utf8` constant at an index is this name.
#[tactic(auto, unfolding(crate::specs::Code::is_named))]
pub fn is_named(pool: &Pool, name: &[u8], i: u16) -> bool
    ensures { result ≡ is_named pool.now name.now i }
{
    match pool.utf8(i) {
        Some(text) => same_bytes(text, name),
        None => false,
    }
}

fn has_name(pool: &Pool, attribute: &Attribute) -> bool
    ensures { result ≡ is_some (utf8_at pool.now attribute.now.name) }
{
    pool.utf8(attribute.name).is_some()
}

fn have_names(pool: &Pool, attributes: &[Attribute]) -> bool
    ensures { result ≡ list_all (λ a. is_some (utf8_at pool.now a.name)) attributes.now }
{
    attributes.iter().all(|attribute| has_name(pool, attribute))
}

/// Returns whether the name of each attribute of a `Code` is a `Utf8` constant. True without parts.
pub fn attributes_are_named(pool: &Pool, parts: &Option<CodeParts>) -> bool
    ensures { result ≡ attributes_are_named pool.now parts.now }
{
    match parts {
        None => true,
        Some(parts) => have_names(pool, parts.attributes.as_slice()),
    }
}

/// Returns the contents of the attributes with this name, in order.
pub fn contents_named<'a>(
    alloc: Global,
    pool: &Pool,
    name: &[u8],
    attributes: &'a [Attribute],
) -> Result<Vec<&'a [u8]>, AllocError>
    ensures { IfOk result (λ found. map (λ content. content.now) found.items ≡ contents_named pool.now name.now attributes.now) }
{
    let mut contents = Vec::new(alloc);
    for attribute in attributes {
        if is_named(pool, name, attribute.name) {
            contents.push(attribute.content.as_slice())?;
        }
    }
    Ok(contents)
}
