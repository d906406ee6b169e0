//! The maximum cost of the paths through one method.

ghost use Rattle.std.specs.Prelude.{◌≡◌, ◌+◌, min, max, ◌-◌, length, slice_get, slice_set, IfOk};
ghost use Rattle.decode.specs.Places.{cases_of, pushed_before};
ghost use Rattle.typecheck.specs.Typing.{own_number};
ghost use Rattle.typecheck.specs.Calls.{AreRising};
ghost use Rattle.typecheck.specs.DeclaredPlaces.{ArePlacesRising};
ghost use Rattle.bounds.specs.Cells.{either, one_before, call_before, slots_of, words_by, cell_at, cell_at_target, cell_among, known_at, callee_cell, cell_by, size_by};
ghost use Rattle.bounds.specs.Lengths.{has_length, is_among, is_length};
ghost use Rattle.bounds.specs.Rows.{is_known, are_known, IsCostOf};

use decode::{Code, Instruction, Placed};
use frames::Reached;
use std::alloc::{AllocError, Global};
use typecheck::Typed;

/// The steps and words of a path, and the maximum slots and depth of its nested activations. Sums saturate, far above every limit.
#[derive(Clone, Copy, PartialEq, Eq)]
pub struct Cost {
    pub steps: u32,
    pub words: u32,
    pub slots: u32,
    pub depth: u32,
}

impl Cost {
    /// The cost without a path.
    const NONE: Cost = Cost {
        steps: 0,
        words: 0,
        slots: 0,
        depth: 0,
    };

    /// Returns the maximum of each measure.
    fn or(self, other: Cost) -> Cost
        ensures { result ≡ either self other }
    {
        Cost {
            steps: self.steps.max(other.steps),
            words: self.words.max(other.words),
            slots: self.slots.max(other.slots),
            depth: self.depth.max(other.depth),
        }
    }

    /// Returns the cost with one instruction before it, which allocates this number of words.
    fn after_one(self, words: u32) -> Cost
        ensures { result ≡ one_before words self }
    {
        Cost {
            steps: self.steps.saturating_add(1),
            words: self.words.saturating_add(words),
            slots: self.slots,
            depth: self.depth,
        }
    }

    /// Returns the cost with a call and its callee before it, in an activation of `own_slots` slots.
    fn after_call(self, own_slots: u32, callee: Cost) -> Cost
        ensures { result ≡ call_before own_slots callee self }
    {
        Cost {
            steps: self.steps.saturating_add(callee.steps).saturating_add(1),
            words: self.words.saturating_add(callee.words),
            slots: self.slots.max(callee.slots.saturating_add(own_slots)),
            depth: self.depth.max(callee.depth.saturating_add(1)),
        }
    }
}

/// Returns the slots of one activation: its locals and its operands.
fn own_slots(method: &Typed) -> u32
    ensures { result ≡ slots_of method.now }
{
    u32::from(method.environment.max_locals) + u32::from(method.environment.max_stack)
}

/// Returns the words of a new array, one more than the constant length before it; 0 for other instructions.
fn words_at(method: &Typed, p: &Placed) -> u32
    ensures { result ≡ words_by method.now p.now.place p.now.instruction }
{
    match p.instruction {
        Instruction::NewArray(_) => match pushed_before(method, p.place) {
            Some(n) => u32::try_from(n).unwrap_or(0).saturating_add(1),
            None => 1,
        },
        _ => 0,
    }
}

/// Returns the int constant that is pushed directly before a pc.
fn pushed_before(method: &Typed, place: usize) -> Option<i32>
    ensures { result ≡ pushed_before method.now.code place }
{
    method.code.before(place)?.instruction.pushed_int()
}

/// Checks that an array length is constant and from 0 to 65,535.
fn is_length(length: Option<i32>) -> bool
    ensures { result ≡ is_length length }
{
    match length {
        Some(n) => 0 <= n && n <= 65_535,
        None => false,
    }
}

/// Checks that a frame is declared at a pc, by binary search.
fn is_declared(method: &Typed, place: usize) -> bool
    ensures { ArePlacesRising method.now.declared.items → result ≡ is_among method.now.declared.items place }
{
    method.declared.binary_search(&place).is_ok()
}

/// Checks that a `newarray` has a constant length before it and no declared frame. Returns true for other instructions.
pub fn has_length(method: &Typed, p: &Placed) -> bool
    ensures { ArePlacesRising method.now.declared.items → result ≡ has_length method.now p.now p.now.instruction }
{
    match p.instruction {
        Instruction::NewArray(_) => {
            is_length(pushed_before(method, p.place)) && !is_declared(method, p.place)
        }
        _ => true,
    }
}

/// Returns the cost from a pc on; `costs` has an entry for each pc.
fn cost_at(costs: &[Cost], place: usize) -> Cost
    ensures { result ≡ cell_at costs.now place }
{
    costs.get(place).copied().unwrap_or(Cost::NONE)
}

fn cost_at_target(costs: &[Cost], target: i128) -> Cost
    ensures { result ≡ cell_at_target costs.now target }
{
    match usize::try_from(target) {
        Ok(place) => cost_at(costs, place),
        Err(_) => Cost::NONE,
    }
}

/// Returns the maximum of `default` and the costs at the case targets of a switch.
fn cost_of_cases(p: &Placed, costs: &[Cost], default: Cost) -> Cost
    ensures { result ≡ cell_among costs.now (cases_of p.now.instruction) default }
{
    let mut greatest = default;
    let mut left = p.instruction.case_count();
    while left > 0 {
        left -= 1;
        greatest = cost_at_target(costs, p.instruction.case_target(left)).or(greatest);
    }
    greatest
}

/// Returns the cost of a method by its index, if it is known.
pub fn known_at(known: &[Option<Cost>], number: usize) -> Option<Cost>
    ensures { result ≡ known_at known.now number }
{
    match known.get(number) {
        Some(cost) => *cost,
        None => None,
    }
}

/// Returns the cost of the own method that is called at a pc, if it is known; `None` for a library method.
fn callee_cost(method: &Typed, place: usize, known: &[Option<Cost>]) -> Option<Cost>
    ensures { AreRising method.now.calls.items → result ≡ callee_cell method.now place known.now }
{
    match method.callee(place) {
        Some(callee) => match callee.reached {
            Reached::Own(k) => known_at(known, k),
            Reached::Library(_) => None,
        },
        None => None,
    }
}

/// Returns the cost from an instruction on, by the costs at the pcs after it.
fn cost_of(method: &Typed, p: &Placed, costs: &[Cost], known: &[Option<Cost>]) -> Cost
    ensures { AreRising method.now.calls.items → result ≡ cell_by method.now p.now costs.now known.now p.now.instruction }
{
    let slots = own_slots(method);
    let next = cost_at(costs, p.next);
    match p.instruction {
        Instruction::Return(_) | Instruction::ReturnVoid | Instruction::Throw(..) => Cost {
            steps: 1,
            words: 0,
            slots,
            depth: 1,
        },
        Instruction::Goto(target) => cost_at_target(costs, target).after_one(0),
        Instruction::Branch(_, target) => { cost_at_target(costs, target).or(next).after_one(0) }
        Instruction::Switch(default, _) => {
            cost_of_cases(p, costs, cost_at_target(costs, default)).after_one(0)
        }
        Instruction::Invoke(_, _) => match callee_cost(method, p.place, known) {
            Some(callee) => next.after_call(slots, callee),
            None => next.after_one(0),
        },
        _ => next.after_one(words_at(method, p)),
    }
}

/// Checks that a call reaches a library method, or an own method whose cost is known.
fn is_known(known: &[Option<Cost>], reached: Reached) -> bool
    ensures { result ≡ is_known known.now (own_number reached) }
{
    match reached {
        Reached::Own(k) => known_at(known, k).is_some(),
        Reached::Library(_) => true,
    }
}

/// Checks that each own call of a method reaches a method whose cost is known.
pub fn is_ready(method: &Typed, known: &[Option<Cost>]) -> bool
    ensures { result ≡ are_known known.now method.now.calls.items }
{
    for called in &method.calls {
        if !is_known(known, called.callee.reached) {
            return false;
        }
    }
    true
}

/// Returns the pc of the last instruction plus 1, or 0 without instructions.
fn size_of(code: &Code) -> usize
    ensures { result ≡ size_by (slice_get code.now (length code.now - 1)) }
{
    match code.as_slice().last() {
        Some(p) => p.place.saturating_add(1),
        None => 0,
    }
}

/// Writes the cost at a pc; does nothing past the end.
fn put(costs: &mut [Cost], place: usize, cost: Cost)
    ensures { costs.new ≡ slice_set costs.old place cost }
{
    if place < costs.len() {
        costs[place] = cost;
    }
}

/// Returns the maximum cost of a method's paths, by those of the methods that it calls.
/// One pass from the last instruction to the first is enough, since every branch goes forward.
pub fn greatest(alloc: Global, method: &Typed, known: &[Option<Cost>]) -> Result<Cost, AllocError>
    ensures { IfOk result (λ cost. IsCostOf method.now known.now cost) }
{
    let code = method.code.as_slice();
    let mut costs = vec![in alloc; Cost::NONE; size_of(&method.code)]?;
    let mut left = code.len();
    while left > 0 {
        left -= 1;
        let p = &code[left];
        let cost = cost_of(method, p, &costs, known);
        put(&mut costs, p.place, cost);
    }
    Ok(cost_at(&costs, 0))
}
