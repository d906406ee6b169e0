//! An instruction as text: its mnemonic and its operands (JVMS §6.5).

use crate::constants::put_constant;
use crate::mnemonics::mnemonic;
use crate::switches::{put_switch, target_of};
use crate::writer::Text;
use constpool::Pool;
use jtypes::Cursor;

/// The meaning of an operand of one byte.
#[derive(Clone, Copy)]
enum OfByte {
    Number,
    /// The index of a local, or the number of dimensions.
    Count,
    Constant,
}

/// The meaning of an operand of two bytes.
#[derive(Clone, Copy)]
enum OfShort {
    Number,
    Local,
    Constant,
    Offset,
}

/// The operands of an opcode.
#[derive(Clone, Copy)]
enum Operands {
    Nothing,
    Byte(OfByte),
    Short(OfShort),
    WideBranch,
    Increment,
    ArrayType,
    Dimensions,
    Switch,
    Widened,
}

fn operands_of(opcode: u8) -> Operands {
    match opcode {
        0x10 => Operands::Byte(OfByte::Number),
        0x11 => Operands::Short(OfShort::Number),
        0x12 => Operands::Byte(OfByte::Constant),
        0x13 | 0x14 | 0xB2..=0xBB | 0xBD | 0xC0 | 0xC1 => Operands::Short(OfShort::Constant),
        0x15..=0x19 | 0x36..=0x3A | 0xA9 => Operands::Byte(OfByte::Count),
        0x84 => Operands::Increment,
        0x99..=0xA8 | 0xC6 | 0xC7 => Operands::Short(OfShort::Offset),
        0xC8 | 0xC9 => Operands::WideBranch,
        0xAA | 0xAB => Operands::Switch,
        0xBC => Operands::ArrayType,
        0xC5 => Operands::Dimensions,
        0xC4 => Operands::Widened,
        _ => Operands::Nothing,
    }
}

/// Returns the name of an array's element type by its code (JVMS §6.5, `newarray`).
fn element_name(code: u8) -> &'static str {
    match code {
        4 => "boolean",
        5 => "char",
        6 => "float",
        7 => "double",
        8 => "byte",
        9 => "short",
        10 => "int",
        11 => "long",
        _ => "?",
    }
}

fn put_named(text: &mut Text, pool: &Pool, i: u16) {
    text.put(" ");
    put_constant(text, pool, i);
}

/// Writes the pc of a branch target.
fn put_target(text: &mut Text, pc: usize, offset: i32) {
    text.put_value(" ", target_of(pc, offset));
}

/// Writes the element type of a new array. Returns false if it is cut off.
fn put_element(text: &mut Text, cursor: &mut Cursor<'_>) -> bool {
    text.put(" ");
    let Ok(code) = cursor.u8() else {
        return false;
    };
    text.put(element_name(code));
    true
}

/// Writes an operand of one byte. Returns false if it is cut off.
fn put_byte(text: &mut Text, pool: &Pool, of: OfByte, cursor: &mut Cursor<'_>) -> bool {
    let Ok(byte) = cursor.u8() else {
        return false;
    };
    match of {
        OfByte::Number => text.put_value(" ", byte.cast_signed()),
        OfByte::Count => text.put_value(" ", byte),
        OfByte::Constant => put_named(text, pool, u16::from(byte)),
    }
    true
}

/// Writes an operand of two bytes. Returns false if it is cut off.
fn put_short(
    text: &mut Text,
    pool: &Pool,
    pc: usize,
    of: OfShort,
    cursor: &mut Cursor<'_>,
) -> bool {
    let Ok(short) = cursor.u16() else {
        return false;
    };
    match of {
        OfShort::Number => text.put_value(" ", short.cast_signed()),
        OfShort::Local => text.put_value(" ", short),
        OfShort::Constant => put_named(text, pool, short),
        OfShort::Offset => put_target(text, pc, i32::from(short.cast_signed())),
    }
    true
}

/// Writes the target of a branch with an offset of four bytes. Returns false if it is cut off.
fn put_wide_target(text: &mut Text, pc: usize, cursor: &mut Cursor<'_>) -> bool {
    let Ok(offset) = cursor.u32() else {
        return false;
    };
    put_target(text, pc, offset.cast_signed());
    true
}

/// Writes the operands of `wide`: an opcode, a local, and for `iinc` a number. Returns false if they are cut off.
fn put_widened(text: &mut Text, pool: &Pool, pc: usize, cursor: &mut Cursor<'_>) -> bool {
    let Ok(opcode) = cursor.u8() else {
        return false;
    };
    text.put(" ");
    put_mnemonic(text, opcode);
    put_short(text, pool, pc, OfShort::Local, cursor)
        && (opcode != 0x84 || put_short(text, pool, pc, OfShort::Number, cursor))
}

/// Writes the operands of the opcode at a pc. Returns false if they are cut off.
fn put_operands(
    text: &mut Text,
    pool: &Pool,
    pc: usize,
    opcode: u8,
    cursor: &mut Cursor<'_>,
) -> bool {
    match operands_of(opcode) {
        Operands::Nothing => true,
        Operands::Byte(of) => put_byte(text, pool, of, cursor),
        Operands::Short(of) => put_short(text, pool, pc, of, cursor),
        Operands::WideBranch => put_wide_target(text, pc, cursor),
        Operands::Increment => {
            put_byte(text, pool, OfByte::Count, cursor)
                && put_byte(text, pool, OfByte::Number, cursor)
        }
        Operands::ArrayType => put_element(text, cursor),
        Operands::Dimensions => {
            put_short(text, pool, pc, OfShort::Constant, cursor)
                && put_byte(text, pool, OfByte::Count, cursor)
        }
        Operands::Switch => put_switch(text, opcode, pc, cursor),
        Operands::Widened => put_widened(text, pool, pc, cursor),
    }
}

fn put_mnemonic(text: &mut Text, opcode: u8) {
    match mnemonic(opcode) {
        Some(name) => text.put(name),
        None => text.put_value("opcode ", opcode),
    }
}

/// Writes the instruction at a pc, up to the operand that is cut off if there is one.
pub fn put_instruction(text: &mut Text, pool: &Pool, code: &[u8], pc: usize) {
    if let Some(opcode) = code.get(pc) {
        put_mnemonic(text, *opcode);
        let mut cursor = Cursor::new(&code[pc + 1..]);
        let _ = put_operands(text, pool, pc, *opcode, &mut cursor);
    }
}
