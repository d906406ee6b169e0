//! Whether the branch targets of methods fit pcs.

ghost use Rattle.std.specs.Prelude.{◌≡◌, ℕ, ◌<◌, All, get_or, length, IsTrue};
ghost use Rattle.decode.specs.declared.instruction.Placed.{Placed};
ghost use Rattle.decode.specs.Places.{cases_of};
ghost use Rattle.search.specs.After.{IsPlace, HasPlaces};
ghost use Rattle.loop_bounds.specs.Methods.{HavePlaces};

use decode::{Instruction, Placed};
use typecheck::Typed;

/// Returns whether a branch target fits a pc.
fn fits(target: i128) -> bool
    ensures { IsTrue result → IsPlace target }
{
    target < 18_446_744_073_709_551_616
}

/// Returns whether the case targets of a switch fit pcs.
fn cases_fit(instruction: &Instruction) -> bool
    ensures { IsTrue result → All IsPlace (cases_of instruction.now) }
{
    for i in 0..instruction.case_count() {
        if !fits(instruction.case_target(i)) {
            return false;
        }
    }
    true
}

/// Returns whether the branch targets of an instruction fit pcs.
fn has_places(instruction: &Instruction) -> bool
    ensures { IsTrue result → HasPlaces instruction.now }
{
    match instruction {
        Instruction::Branch(_, target) | Instruction::Goto(target) => fits(*target),
        Instruction::Switch(default, _) => fits(*default) && cases_fit(instruction),
        _ => true,
    }
}

/// Returns whether the branch targets of instructions fit pcs.
fn all_have_places(code: &[Placed]) -> bool
    ensures { IsTrue result → (i : ℕ) (d : Placed) → i < length code.now → HasPlaces (get_or code.now i d).instruction }
{
    for p in code {
        if !has_places(&p.instruction) {
            return false;
        }
    }
    true
}

/// Returns whether the branch targets of methods fit pcs. Those of decoded methods do.
pub fn have_places(methods: &[Typed]) -> bool
    ensures { IsTrue result → HavePlaces methods.now }
{
    for m in methods {
        if !all_have_places(m.code.as_slice()) {
            return false;
        }
    }
    true
}
