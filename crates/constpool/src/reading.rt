//! Reading of the constant pool.

ghost use Rattle.std.specs.Prelude.{◌≡◌, false};
ghost use Rattle.std.specs.List.{list_all};
ghost use Rattle.jtypes.specs.Layout.{Takes, first};
ghost use Rattle.constpool.specs.Pool.{is_text_byte, utf8, integer, long, method_handle, body, constant, slot, slots, takes_two};

use crate::Constant;
use jtypes::{Cursor, Items, Refusal};
use std::alloc::Global;

fn is_text_byte(b: u8) -> bool
    ensures { result ≡ is_text_byte b }
{
    b != 0 && b < 0xF0
}

fn is_text(bytes: &[u8]) -> bool
    ensures { result ≡ list_all is_text_byte bytes.now }
{
    bytes.iter().all(|b| is_text_byte(*b))
}

#[tactic(auto, unfolding(crate::specs::Pool::utf8))]
fn read_utf8(alloc: Global, cursor: &mut Cursor<'_>) -> Result<Constant, Refusal>
    ensures { Takes (λ x. x) result (first utf8 cursor.old) cursor.new }
{
    let length = cursor.u16()?;
    let text = cursor.part(usize::from(length))?;
    if !is_text(text) {
        return Err(Refusal::BadPool);
    }
    let text = Vec::from_slice(alloc, text)?;
    Ok(Constant::Utf8(Items::new(text)))
}

#[tactic(auto, unfolding(crate::specs::Pool::integer))]
fn read_integer(cursor: &mut Cursor<'_>) -> Result<Constant, Refusal>
    ensures { Takes (λ x. x) result (first integer cursor.old) cursor.new }
{
    let bits = cursor.u32()?;
    Ok(Constant::Integer(bits.cast_signed()))
}

#[tactic(auto, unfolding(crate::specs::Pool::long))]
fn read_long(cursor: &mut Cursor<'_>) -> Result<Constant, Refusal>
    ensures { Takes (λ x. x) result (first long cursor.old) cursor.new }
{
    let bits = cursor.u64()?;
    Ok(Constant::Long(bits.cast_signed()))
}

#[tactic(auto, unfolding(crate::specs::Pool::method_handle))]
fn read_method_handle(cursor: &mut Cursor<'_>) -> Result<Constant, Refusal>
    ensures { Takes (λ x. x) result (first method_handle cursor.old) cursor.new }
{
    let kind = cursor.u8()?;
    let member = cursor.u16()?;
    Ok(Constant::MethodHandle(kind, member))
}

/// Reads the bytes of a constant after its tag (JVMS §4.4, Table 4.4-A).
#[tactic(auto, unfolding(crate::specs::Pool::body, crate::specs::Pool::index_of, crate::specs::Pool::indexes_of))]
fn read_body(alloc: Global, tag: u8, cursor: &mut Cursor<'_>) -> Result<Constant, Refusal>
    ensures { Takes (λ x. x) result (first (body tag) cursor.old) cursor.new }
{
    match tag {
        1 => read_utf8(alloc, cursor),
        3 => read_integer(cursor),
        4 => Ok(Constant::Float(cursor.u32()?)),
        5 => read_long(cursor),
        6 => Ok(Constant::Double(cursor.u64()?)),
        7 => Ok(Constant::Class(cursor.u16()?)),
        8 => Ok(Constant::String(cursor.u16()?)),
        9 => Ok(Constant::Fieldref(cursor.u16()?, cursor.u16()?)),
        10 => Ok(Constant::Methodref(cursor.u16()?, cursor.u16()?)),
        11 => Ok(Constant::InterfaceMethodref(cursor.u16()?, cursor.u16()?)),
        12 => Ok(Constant::NameAndType(cursor.u16()?, cursor.u16()?)),
        15 => read_method_handle(cursor),
        16 => Ok(Constant::MethodType(cursor.u16()?)),
        18 => Ok(Constant::InvokeDynamic(cursor.u16()?, cursor.u16()?)),
        _ => Err(Refusal::BadPool),
    }
}

#[tactic(auto, unfolding(crate::specs::Pool::constant))]
fn read_constant(alloc: Global, cursor: &mut Cursor<'_>) -> Result<Constant, Refusal>
    ensures { Takes (λ x. x) result (first constant cursor.old) cursor.new }
{
    let tag = cursor.u8()?;
    read_body(alloc, tag, cursor)
}

#[tactic(auto, unfolding(crate::specs::Pool::slot))]
fn read_slot(
    alloc: Global,
    second: bool,
    cursor: &mut Cursor<'_>,
) -> Result<Option<Constant>, Refusal>
    ensures { Takes (λ x. x) result (first (slot second) cursor.old) cursor.new }
{
    if second {
        return Ok(None);
    }
    let constant = read_constant(alloc, cursor)?;
    Ok(Some(constant))
}

/// Returns whether the constant uses the next index too (JVMS §4.4.5).
fn takes_two(slot: &Option<Constant>) -> bool
    ensures { result ≡ takes_two slot.now }
{
    matches!(slot, Some(Constant::Long(_) | Constant::Double(_)))
}

pub fn read_slots(
    alloc: Global,
    count: u16,
    cursor: &mut Cursor<'_>,
) -> Result<Vec<Option<Constant>>, Refusal>
    ensures { Takes (λ x. x.items) result (first (slots count false) cursor.old) cursor.new }
{
    let mut slots = Vec::new(alloc);
    let mut second = false;
    for _ in 0..count {
        let slot = read_slot(alloc, second, cursor)?;
        second = takes_two(&slot);
        slots.push(slot)?;
    }
    if second {
        return Err(Refusal::BadPool);
    }
    Ok(slots)
}
