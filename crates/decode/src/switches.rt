//! Decoding of switches (JVMS §6.5, `tableswitch` and `lookupswitch`).

ghost use Rattle.std.specs.Prelude.{◌≡◌, ◌≤ℤ◌, ℕ, List, pos};
ghost use Rattle.std.specs.Int.{int_gap};
ghost use Rattle.jtypes.specs.Layout.{Takes, first};
ghost use Rattle.constpool.specs.Lookup.{Slot};
ghost use Rattle.decode.specs.declared.instruction.Form.TheVariants as form;
ghost use Rattle.decode.specs.Code.{padding, far_target, switch_case, keys_between, keys_rise, operands};

use crate::instruction::{Case, Cases, Instruction};
use crate::reading::{read_far_target, signed_word};
use jtypes::{Cursor, Reader, Refusal, row};
use std::alloc::Global;

/// Reads the targets of the `tableswitch` at pc `place`.
#[derive(Drop)]
struct TargetReader {
    place: usize,
}

impl Reader for TargetReader {
    type Item = i128;

    ghost layout = { λ r. far_target r.place };

    fn read(&self, _alloc: Global, cursor: &mut Cursor<'_>) -> Result<i128, Refusal> {
        read_far_target(self.place, cursor)
    }
}

/// Reads the cases of the `lookupswitch` at pc `place`.
#[derive(Drop)]
struct CaseReader {
    place: usize,
}

impl Reader for CaseReader {
    type Item = Case;

    ghost layout = { λ r. switch_case r.place };

    #[tactic(auto, unfolding(crate::specs::Code::switch_case))]
    fn read(&self, _alloc: Global, cursor: &mut Cursor<'_>) -> Result<Case, Refusal> {
        let key = signed_word(cursor)?;
        let target = read_far_target(self.place, cursor)?;
        Ok(Case { key, target })
    }
}

/// Returns the number of bytes between the opcode at pc `place` and the next pc that is a multiple of 4.
fn padding(place: usize) -> usize
    ensures { result ≡ padding place }
{
    3 - place % 4
}

/// Returns the number of keys from `low` to `high`, both included.
fn keys_between(low: i32, high: i32) -> usize
    requires { low ≤ℤ high }
    ensures { result ≡ keys_between low high }
{
    (i64::from(high) - i64::from(low)) as usize + 1
}

/// Converts a count that isn't negative.
fn size_of(count: i32) -> usize
    requires { pos 0 ≤ℤ count }
    ensures { result ≡ int_gap (pos 0) count }
{
    count as usize
}

/// Returns whether the keys are strictly increasing.
fn keys_rise(cases: &[Case]) -> bool
    ensures { result ≡ keys_rise cases.now }
{
    for i in 1..cases.len() {
        if !cases[i - 1].is_below(&cases[i]) {
            return false;
        }
    }
    true
}

/// Reads the operands of `tableswitch`. Returns `BadOperand` if the low key is above the high one.
#[tactic(auto, unfolding(crate::specs::Code::operands))]
pub fn read_table_switch(
    alloc: Global,
    place: usize,
    cursor: &mut Cursor<'_>,
) -> Result<Instruction, Refusal>
    ensures { (pool : List Slot) (opcode : ℕ) → Takes (λ x. x) result (first (operands pool place opcode form.TableSwitch) cursor.old) cursor.new }
{
    cursor.operand_part(padding(place))?;
    let default = read_far_target(place, cursor)?;
    let low = signed_word(cursor)?;
    let high = signed_word(cursor)?;
    if low > high {
        return Err(Refusal::BadOperand);
    }
    let targets = row(
        alloc,
        &TargetReader { place },
        keys_between(low, high),
        cursor,
    )?;
    Ok(Instruction::Switch(default, Cases::Table(low, targets)))
}

/// Reads the operands of `lookupswitch`. Returns `BadOperand` if the count is negative or the keys aren't strictly increasing.
#[tactic(auto, unfolding(crate::specs::Code::operands))]
pub fn read_lookup_switch(
    alloc: Global,
    place: usize,
    cursor: &mut Cursor<'_>,
) -> Result<Instruction, Refusal>
    ensures { (pool : List Slot) (opcode : ℕ) → Takes (λ x. x) result (first (operands pool place opcode form.LookupSwitch) cursor.old) cursor.new }
{
    cursor.operand_part(padding(place))?;
    let default = read_far_target(place, cursor)?;
    let count = signed_word(cursor)?;
    if count < 0 {
        return Err(Refusal::BadOperand);
    }
    let cases = row(alloc, &CaseReader { place }, size_of(count), cursor)?;
    if keys_rise(cases.as_slice()) {
        Ok(Instruction::Switch(default, Cases::Lookup(cases)))
    } else {
        Err(Refusal::BadOperand)
    }
}
