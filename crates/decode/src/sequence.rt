//! A decoded code: its instructions by pc.

ghost use Rattle.std.specs.Prelude.{ℤ, Some, ◌<◌, slice_get, ◌≡◌, ◌≢◌, ◌==◌, ◌↔◌, length, IsTrue, IfSome, IfNone, Any, pos};
ghost use Rattle.std.specs.Option.{option_copied};
ghost use Rattle.jtypes.specs.declared.refusal.Refusal.{Refusal};
ghost use Rattle.decode.specs.Places.{cases_of, at_place, before_place, BranchStands};
ghost use Rattle.decode.specs.Faults.{BranchStandsAt};
ghost use Rattle.decode.specs.Reading.{RisesFrom, HaveRisingKeys, IsRefusalAt, IsCasesRefusal, IsTargetRefusal};

use crate::fault::Fault;
use crate::instruction::Placed;
use jtypes::Refusal;
use std::marker::Model;

/// The instructions of a code, in the order of their pcs.
#[derive(Drop)]
pub struct Code {
    placed: Vec<Placed>,
}

impl Model for Code {
    ghost use Rattle.std.specs.Prelude.{List};
    ghost use Rattle.decode.specs.declared.instruction.Placed.{Placed};
    ghost use Rattle.decode.specs.Reading.{RisesFrom, HaveRisingKeys};

    ghost Value = { List Placed };

    ghost view = { λ c. c.placed.items };

    ghost invariant = { λ c. RisesFrom 0 c.placed.items × HaveRisingKeys c.placed.items };
}

impl Code {
    pub(crate) fn new(placed: Vec<Placed>) -> Code
        requires rising { RisesFrom 0 placed.items }
        requires keys { HaveRisingKeys placed.items }
        ensures { result ≡ placed.items }
    {
        Code { placed }
    }

    /// Returns the instructions in order: the first is at pc 0, and each other one begins at the end of the one before it.
    /// The keys of each `lookupswitch` are strictly increasing.
    pub fn as_slice(&self) -> &[Placed]
        ensures value { result.now ≡ self.now }
        ensures rising { RisesFrom 0 self.now }
        ensures keys { HaveRisingKeys self.now }
    {
        self.placed.as_slice()
    }

    /// Returns the number of instructions.
    pub fn len(&self) -> usize
        ensures { result ≡ length self.now }
    {
        self.placed.len()
    }

    pub fn is_empty(&self) -> bool
        ensures { result ≡ (length self.now == 0) }
    {
        self.placed.is_empty()
    }

    /// Returns the instruction at a pc, if one begins there, by binary search.
    pub fn at(&self, place: usize) -> Option<&Placed>
        ensures { option_copied result ≡ at_place self.now place }
    {
        let i = self.placed.partition_point(|p| p.place < place);
        match self.placed.get(i) {
            Some(p) if p.place == place => Some(p),
            _ => None,
        }
    }

    /// Returns the instruction that ends at a pc, if there is one, by binary search.
    pub fn before(&self, place: usize) -> Option<&Placed>
        ensures { option_copied result ≡ before_place self.now place }
    {
        let i = self.placed.partition_point(|p| p.next < place);
        match self.placed.get(i) {
            Some(p) if p.next == place => Some(p),
            _ => None,
        }
    }

    /// Returns whether an instruction begins at a target.
    fn has_start(&self, target: i128) -> bool
        requires { RisesFrom 0 self.now }
        ensures { IsTrue result ↔ Any (λ p. pos p.place ≡ target) self.now }
    {
        match usize::try_from(target) {
            Ok(place) => self.at(place).is_some(),
            Err(_) => false,
        }
    }

    /// Returns the refusal of one branch target of the instruction at a pc, if any.
    fn refusal_at(&self, place: usize, target: i128) -> Option<Refusal>
        requires { RisesFrom 0 self.now }
        ensures { IsRefusalAt self.now place target result }
    {
        if target <= place as i128 {
            Some(Refusal::BackwardBranch)
        } else if !self.has_start(target) {
            Some(Refusal::BadTarget)
        } else {
            None
        }
    }

    /// Returns the refusal of case target `i` of a switch, if any.
    fn refusal_of_case(&self, p: &Placed, i: usize) -> Option<Refusal>
        requires rising { RisesFrom 0 self.now }
        requires there { i < length (cases_of p.now.instruction) }
        ensures { (target : ℤ) → slice_get (cases_of p.now.instruction) i ≡ Some target → IsRefusalAt self.now p.now.place target result }
    {
        self.refusal_at(p.place, p.instruction.case_target(i))
    }

    /// Returns the first refusal of a case target of a switch, if any.
    fn refusal_of_cases(&self, p: &Placed) -> Option<Refusal>
        requires { RisesFrom 0 self.now }
        ensures { IsCasesRefusal self.now p.now result }
    {
        for i in 0..p.instruction.case_count() {
            if let Some(refusal) = self.refusal_of_case(p, i) {
                return Some(refusal);
            }
        }
        None
    }

    /// Returns the first refusal of a branch target of an instruction, if any.
    fn refusal_of(&self, p: &Placed) -> Option<Refusal>
        requires { RisesFrom 0 self.now }
        ensures { IsTargetRefusal self.now p.now result }
    {
        match p.instruction.target() {
            Some(target) => match self.refusal_at(p.place, target) {
                Some(refusal) => Some(refusal),
                None => self.refusal_of_cases(p),
            },
            None => None,
        }
    }

    /// Returns the first refusal of a branch target, with the pc of the branch.
    pub(crate) fn target_fault(&self) -> Option<Fault>
        ensures some { IfSome result (λ f. (f.refusal ≢ Refusal.NoMemory) × BranchStandsAt self.now f.place f.refusal) }
        ensures none { IfNone result ((r : Refusal) → BranchStands self.now r → ⊥) }
    {
        for p in self.as_slice() {
            if let Some(refusal) = self.refusal_of(p) {
                return Some(Fault {
                    refusal,
                    place: p.place,
                });
            }
        }
        None
    }
}
