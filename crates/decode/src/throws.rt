//! The throw of a new exception: `new`, `dup`, its text if it has one, its constructor, and `athrow` (JVMS §6.5).

ghost use Rattle.std.specs.Prelude.{◌≡◌, ℕ, List};
ghost use Rattle.jtypes.specs.declared.refusal.Refusal.{Refusal};
ghost use Rattle.jtypes.specs.Layout.{Takes, first};
ghost use Rattle.constpool.specs.Lookup.{constant_at, class_at, method_at};
ghost use Rattle.decode.specs.declared.instruction.Form.TheVariants as form;
ghost use Rattle.decode.specs.Code.{is_text, maker_descriptor, is_maker, exception_of, thrown_if, made_and_thrown, thrown_with, thrown_by, operands};

use crate::instruction::Instruction;
use crate::reading::class_index;
use constpool::{Constant, Pool, names, same_bytes};
use jtypes::{Cursor, Exception, Refusal};

const DUP: u8 = 0x59;

const LDC: u8 = 0x12;

const LDC_W: u8 = 0x13;

const INVOKESPECIAL: u8 = 0xB7;

const ATHROW: u8 = 0xBF;

/// Returns whether the constant at an index is a `String`.
fn is_text(pool: &Pool, index: u16) -> bool
    ensures { result ≡ is_text (constant_at pool.now index) }
{
    matches!(pool.constant(index), Some(Constant::String(_)))
}

/// Returns the descriptor of the constructor of an exception: without a text, or with the text at an index other than 0.
fn maker_descriptor(text: u16) -> &'static [u8]
    ensures { result.now ≡ maker_descriptor text }
{
    if text == 0 {
        b"()V"
    } else {
        b"(Ljava/lang/String;)V"
    }
}

/// Returns whether `maker` is the index of the constructor of a class.
fn is_maker(pool: &Pool, class: u16, text: u16, maker: u16) -> bool
    ensures { result ≡ is_maker (class_at pool.now class) (maker_descriptor text) (method_at pool.now maker) }
{
    let Some(name) = pool.class(class) else {
        return false;
    };
    let Some(member) = pool.method(maker) else {
        return false;
    };
    same_bytes(member.class, name)
        && same_bytes(member.name, names::INIT)
        && same_bytes(member.descriptor, maker_descriptor(text))
}

/// Returns the exception of a class, if a processor may throw it.
fn exception_of(pool: &Pool, class: u16) -> Option<Exception>
    ensures { result ≡ exception_of (class_at pool.now class) }
{
    let name = pool.class(class)?;
    if same_bytes(name, names::ARITHMETIC) {
        Some(Exception::Arithmetic)
    } else if same_bytes(name, names::ENTRY_PROCESSOR_EXCEPTION) {
        Some(Exception::EntryProcessor)
    } else if same_bytes(name, names::ILLEGAL_ARGUMENT) {
        Some(Exception::IllegalArgument)
    } else if same_bytes(name, names::ILLEGAL_STATE) {
        Some(Exception::IllegalState)
    } else if same_bytes(name, names::UNSUPPORTED_OPERATION) {
        Some(Exception::UnsupportedOperation)
    } else {
        None
    }
}

/// Returns the throw of an exception, if the profile has its class.
#[tactic(auto, unfolding(crate::specs::Code::thrown_if))]
fn thrown_if(opcode: u8, text: u16, exception: Option<Exception>) -> Result<Instruction, Refusal>
    ensures { (rest : List ℕ) → Takes (λ x. x) result (first (thrown_if opcode text exception) rest) rest }
{
    match exception {
        Some(exception) => Ok(Instruction::Throw(exception, text)),
        None => Err(Refusal::OutsideProfile(opcode)),
    }
}

/// Reads what follows the opcode of `invokespecial`: the constructor, and `athrow`.
#[tactic(auto, unfolding(crate::specs::Code::made_and_thrown))]
fn read_made(
    pool: &Pool,
    opcode: u8,
    class: u16,
    text: u16,
    cursor: &mut Cursor<'_>,
) -> Result<Instruction, Refusal>
    ensures { Takes (λ x. x) result (first (made_and_thrown pool.now opcode class text) cursor.old) cursor.new }
{
    let maker = cursor.u16_operand()?;
    let last = cursor.u8_operand()?;
    if !is_maker(pool, class, text, maker) || last != ATHROW {
        return Err(Refusal::OutsideProfile(opcode));
    }
    thrown_if(opcode, text, exception_of(pool, class))
}

/// Reads what follows the index of `ldc` or `ldc_w`.
#[tactic(auto, unfolding(crate::specs::Code::thrown_with))]
fn read_with_text(
    pool: &Pool,
    opcode: u8,
    class: u16,
    text: u16,
    cursor: &mut Cursor<'_>,
) -> Result<Instruction, Refusal>
    ensures { Takes (λ x. x) result (first (thrown_with pool.now opcode class text) cursor.old) cursor.new }
{
    let call = cursor.u8_operand()?;
    if is_text(pool, text) && call == INVOKESPECIAL {
        read_made(pool, opcode, class, text, cursor)
    } else {
        Err(Refusal::OutsideProfile(opcode))
    }
}

/// Reads what follows `dup`, by the next opcode.
#[tactic(auto, unfolding(crate::specs::Code::thrown_by))]
fn read_by(
    pool: &Pool,
    opcode: u8,
    class: u16,
    next: u8,
    cursor: &mut Cursor<'_>,
) -> Result<Instruction, Refusal>
    ensures { Takes (λ x. x) result (first (thrown_by pool.now opcode class next) cursor.old) cursor.new }
{
    match next {
        INVOKESPECIAL => read_made(pool, opcode, class, 0, cursor),
        LDC => {
            let text = u16::from(cursor.u8_operand()?);
            read_with_text(pool, opcode, class, text, cursor)
        }
        LDC_W => {
            let text = cursor.u16_operand()?;
            read_with_text(pool, opcode, class, text, cursor)
        }
        _ => Err(Refusal::OutsideProfile(opcode)),
    }
}

/// Reads the throw of a new exception behind the opcode of `new`.
#[tactic(auto, unfolding(crate::specs::Code::operands))]
pub(crate) fn read_throw(
    pool: &Pool,
    opcode: u8,
    cursor: &mut Cursor<'_>,
) -> Result<Instruction, Refusal>
    ensures { (at : ℕ) → Takes (λ x. x) result (first (operands pool.now at opcode form.Throw) cursor.old) cursor.new }
{
    let class = class_index(pool, cursor.u16_operand()?)?;
    if cursor.u8_operand()? != DUP {
        return Err(Refusal::OutsideProfile(opcode));
    }
    let next = cursor.u8_operand()?;
    read_by(pool, opcode, class, next, cursor)
}
