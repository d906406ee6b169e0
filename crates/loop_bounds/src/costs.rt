//! The costs of points, by those of the points after them.

ghost use Rattle.std.specs.Prelude.{◌≡◌, reverse, length, IfOk, is_some};
ghost use Rattle.decode.specs.Places.{pushed_before};
ghost use Rattle.typecheck.specs.Typing.{own_of};
ghost use Rattle.typecheck.specs.Calls.{AreRising, callee_in};
ghost use Rattle.bounds.specs.Cells.{either, one_before, call_before, slots_of, words_by, cell_at};
ghost use Rattle.search.specs.Points.{point_seen};
ghost use Rattle.search.specs.Orders.{items_of, AreBelow, IsOrder};
ghost use Rattle.loop_bounds.specs.Methods.{HasNumber};
ghost use Rattle.loop_bounds.specs.Found.{points_seen, EachHasMethod};
ghost use Rattle.loop_bounds.specs.Tables.{greatest_cell, call_cell, cell_by, AreCosts, IsCellOf};

use crate::methods::row_of;
use bounds::Cost;
use decode::Instruction;
use frames::Reached;
use search::Point;
use std::alloc::{AllocError, Global};
use typecheck::Typed;

/// The cost without a path.
const NONE: Cost = Cost {
    steps: 0,
    words: 0,
    slots: 0,
    depth: 0,
};

/// Returns the maximum of each measure.
fn either(a: Cost, b: Cost) -> Cost
    ensures { result ≡ either a b }
{
    Cost {
        steps: a.steps.max(b.steps),
        words: a.words.max(b.words),
        slots: a.slots.max(b.slots),
        depth: a.depth.max(b.depth),
    }
}

/// Returns a cost with one instruction before it, which allocates this number of words.
fn after_one(words: u32, next: Cost) -> Cost
    ensures { result ≡ one_before words next }
{
    Cost {
        steps: next.steps.saturating_add(1),
        words: next.words.saturating_add(words),
        slots: next.slots,
        depth: next.depth,
    }
}

/// Returns a cost with a call and its callee before it, in an activation of `own_slots` slots.
fn after_call(own_slots: u32, callee: Cost, next: Cost) -> Cost
    ensures { result ≡ call_before own_slots callee next }
{
    Cost {
        steps: next.steps.saturating_add(callee.steps).saturating_add(1),
        words: next.words.saturating_add(callee.words),
        slots: next.slots.max(callee.slots.saturating_add(own_slots)),
        depth: next.depth.max(callee.depth.saturating_add(1)),
    }
}

/// Returns the slots of one activation: its locals and its operands.
fn own_slots(method: &Typed) -> u32
    ensures { result ≡ slots_of method.now }
{
    u32::from(method.environment.max_locals) + u32::from(method.environment.max_stack)
}

/// Returns the int constant that is pushed directly before a pc.
fn pushed_before(method: &Typed, place: usize) -> Option<i32>
    ensures { result ≡ pushed_before method.now.code place }
{
    method.code.before(place)?.instruction.pushed_int()
}

/// Returns the words of a new array, one more than the constant length before it; 0 for other instructions.
fn words_at(method: &Typed, place: usize, instruction: &Instruction) -> u32
    ensures { result ≡ words_by method.now place instruction.now }
{
    match instruction {
        Instruction::NewArray(_) => match pushed_before(method, place) {
            Some(n) => u32::try_from(n).unwrap_or(0).saturating_add(1),
            None => 1,
        },
        _ => 0,
    }
}

/// Returns the cost of a point by its number.
fn cost_at(costs: &[Cost], number: usize) -> Cost
    ensures { result ≡ cell_at costs.now number }
{
    costs.get(number).copied().unwrap_or(NONE)
}

/// Returns the maximum of the costs of points.
fn greatest(costs: &[Cost], numbers: &[usize]) -> Cost
    ensures { result ≡ greatest_cell costs.now numbers.now }
{
    let mut most = NONE;
    let mut left = numbers.len();
    while left > 0 {
        left -= 1;
        most = either(cost_at(costs, numbers[left]), most);
    }
    most
}

/// Returns whether an own method is called at a pc.
fn calls_own(method: &Typed, place: usize) -> bool
    ensures { AreRising method.now.calls.items → result ≡ is_some (own_of (callee_in method.now.calls.items place)) }
{
    match method.callee(place) {
        Some(callee) => match callee.reached {
            Reached::Own(_) => true,
            Reached::Library(_) => false,
        },
        None => false,
    }
}

/// Returns the cost of the call of an own method. The first of the points after it is the callee's start.
fn cost_of_call(method: &Typed, costs: &[Cost], numbers: &[usize]) -> Cost
    ensures { result ≡ call_cell method.now costs.now numbers.now }
{
    if numbers.is_empty() {
        return NONE;
    }
    after_call(
        own_slots(method),
        cost_at(costs, numbers[0]),
        greatest(costs, &numbers[1..]),
    )
}

/// Returns the cost of an instruction, by the costs of the points after it.
fn cost_by(
    method: &Typed,
    place: usize,
    instruction: &Instruction,
    costs: &[Cost],
    numbers: &[usize],
) -> Cost
    ensures { AreRising method.now.calls.items → result ≡ cell_by method.now place instruction.now costs.now numbers.now }
{
    if instruction.is_return() {
        Cost {
            steps: 1,
            words: 0,
            slots: own_slots(method),
            depth: 1,
        }
    } else if calls_own(method, place) {
        cost_of_call(method, costs, numbers)
    } else {
        after_one(
            words_at(method, place, instruction),
            greatest(costs, numbers),
        )
    }
}

/// Returns the cost of a point, by the costs of the points after it.
fn cost_of(methods: &[Typed], k: &Point, costs: &[Cost], numbers: &[usize]) -> Cost
    ensures { HasNumber methods.now k.now.method → IsCellOf methods.now costs.now (point_seen k.now) numbers.now result }
{
    let Some(i) = row_of(methods, k.method) else {
        return NONE;
    };
    match methods[i].code.at(k.node.place) {
        Some(p) => cost_by(&methods[i], k.node.place, &p.instruction, costs, numbers),
        None => NONE,
    }
}

/// Returns the costs of points by their numbers. In the order each point comes after those that it leads to.
pub fn costs_of(
    alloc: Global,
    methods: &[Typed],
    points: &[Point],
    links: &[Vec<usize>],
    order: &[usize],
) -> Result<Vec<Cost>, AllocError>
    requires size { length links.now ≡ length points.now }
    requires methods { EachHasMethod methods.now (points_seen points.now) }
    requires below { AreBelow (length points.now) (reverse order.now) }
    requires order { IsOrder (items_of links.now) (reverse order.now) }
    ensures { IfOk result (λ costs. AreCosts methods.now (points_seen points.now) (items_of links.now) (reverse order.now) costs.items) }
{
    let mut costs = vec![in alloc; NONE; points.len()]?;
    for i in 0..order.len() {
        let n = order[i];
        costs[n] = cost_of(methods, &points[n], &costs, &links[n]);
    }
    Ok(costs)
}
