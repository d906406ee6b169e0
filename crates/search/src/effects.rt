//! What instructions leave known of the local variables and operands.

ghost use Rattle.std.specs.Prelude.{◌≡◌, IfOk, Some, None, drop, length, get_or, slice_set, slice_get, option_copied, if◌then◌else◌};
ghost use Rattle.jtypes.specs.Arithmetic as arithmetic;
ghost use Rattle.unrolled.specs.Known as spec;
ghost use Rattle.unrolled.specs.Graph as graph;
ghost use Rattle.search.specs.Seen.{known_seen, locals_seen, operands_seen, following_seen};
ghost use Rattle.search.specs.Numbers.{number_of};

use crate::arithmetic::{of_one, of_two, of_unknown};
use crate::known::Known;
use crate::node::{Following, Node, local, set_local};
use crate::operands::{drop_top, peek, pop, pop_known, push};
use crate::values::{incremented, kept, length_known, new_array, unknown_of};
use frames::Callee;
use jtypes::{Kind, Operation};
use std::alloc::AllocError;

/// Pops an operand into local variable `n`; the store of a long also writes the next one.
pub fn store(x: &mut Node, kind: Kind, n: u16, f: &Following)
    ensures locals { locals_seen x.new.locals.items ≡ graph.stored kind n (graph.kept ((following_seen f.now).ints n) (get_or (operands_seen x.old.operands.items) 0 spec.Narrow)) (locals_seen x.old.locals.items) }
    ensures operands { operands_seen x.new.operands.items ≡ drop 1 (operands_seen x.old.operands.items) }
{
    let n = usize::from(n);
    let k = kept(f.follows(n), pop_known(&mut x.operands));
    set_local(&mut x.locals, n, k);
    match kind {
        Kind::Long => set_local(&mut x.locals, n + 1, Known::Narrow),
        Kind::Int | Kind::Reference => (),
    }
}

/// Adds a constant to local variable `n`.
pub fn increment(locals: &mut [Known], n: u16, by: i16)
    ensures { locals_seen locals.new ≡ slice_set (locals_seen locals.old) n (graph.incremented by (spec.known_local (locals_seen locals.old) n)) }
{
    let n = usize::from(n);
    let k = incremented(by, local(locals, n));
    set_local(locals, n, k);
}

/// Returns the int at index `i` from the top, if it is known.
pub fn number_at(operands: &[Known], i: usize) -> Option<i32>
    ensures { result ≡ number_of (slice_get (operands_seen operands.now) i) }
{
    match peek(operands, i) {
        Some(Known::Number(n)) => Some(n),
        _ => None,
    }
}

/// Returns whether an operation pops two operands; it pops one otherwise.
pub fn takes_two(operation: Operation) -> bool
    ensures { length (arithmetic.takes_of operation) ≡ (if result then 2 else 1) }
{
    !matches!(
        operation,
        Operation::NegateInt | Operation::NegateLong | Operation::Convert(_)
    )
}

/// Returns what is known of the result of an operation that pops one operand.
fn result_of_one(operation: Operation, operands: &[Known]) -> Known
    requires { length (arithmetic.takes_of operation) ≡ 1 }
    ensures { known_seen result ≡ graph.result_known operation (operands_seen operands.now) }
{
    match number_at(operands, 0) {
        Some(a) => of_one(operation, a),
        None => of_unknown(operation),
    }
}

/// Returns what is known of the result of an operation that pops two operands.
fn result_of_two(operation: Operation, operands: &[Known]) -> Known
    requires { length (arithmetic.takes_of operation) ≡ 2 }
    ensures { known_seen result ≡ graph.result_known operation (operands_seen operands.now) }
{
    let Some(b) = number_at(operands, 0) else {
        return of_unknown(operation);
    };
    match number_at(operands, 1) {
        Some(a) => of_two(operation, a, b),
        None => of_unknown(operation),
    }
}

/// Returns what is known of the result of an operation on the top operands.
pub fn result_known(operation: Operation, operands: &[Known]) -> Known
    ensures { known_seen result ≡ graph.result_known operation (operands_seen operands.now) }
{
    if takes_two(operation) {
        result_of_two(operation, operands)
    } else {
        result_of_one(operation, operands)
    }
}

/// Replaces a length on top by a new array.
pub fn create_array(operands: &mut Vec<Known>) -> Result<(), AllocError>
    ensures { IfOk result (λ _. operands_seen operands.new.items ≡ graph.with_array (operands_seen operands.old.items)) }
{
    match pop(operands) {
        Some(length) => push(operands, new_array(length)),
        None => Ok(()),
    }
}

/// Replaces an array on top by its length.
pub fn measure(operands: &mut Vec<Known>) -> Result<(), AllocError>
    ensures { IfOk result (λ _. operands_seen operands.new.items ≡ graph.on_top graph.length_known (operands_seen operands.old.items)) }
{
    match pop(operands) {
        Some(array) => push(operands, length_known(array)),
        None => Ok(()),
    }
}

/// Replaces the top by an int of which nothing is known.
pub fn forget_top(operands: &mut Vec<Known>) -> Result<(), AllocError>
    ensures { IfOk result (λ _. operands_seen operands.new.items ≡ graph.on_top (λ _. spec.Narrow) (operands_seen operands.old.items)) }
{
    match pop(operands) {
        Some(_) => push(operands, Known::Narrow),
        None => Ok(()),
    }
}

/// Pops a call's arguments and pushes its result, of which only the type is known. Without a callee nothing changes.
pub fn call(operands: &mut Vec<Known>, callee: Option<&Callee>) -> Result<(), AllocError>
    ensures { IfOk result (λ _. operands_seen operands.new.items ≡ graph.called (option_copied callee.entry) (operands_seen operands.old.items)) }
{
    let Some(callee) = callee else {
        return Ok(());
    };
    drop_top(operands, callee.params.as_slice().len());
    match callee.result {
        Some(t) => push(operands, unknown_of(t)),
        None => Ok(()),
    }
}
