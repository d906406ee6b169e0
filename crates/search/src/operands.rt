//! What is known of the operands, as a stack with the top last.

ghost use Rattle.std.specs.Prelude.{◌≡◌, [], ◌∷◌, IfOk, MatchOption, drop, get_or, slice_get, option_map};
ghost use Rattle.unrolled.specs.Known as spec;
ghost use Rattle.search.specs.Seen.{known_seen, operands_seen};

use crate::known::Known;
use std::alloc::AllocError;

/// Returns what is known of the operand at index `i` from the top, which has index 0.
pub fn peek(operands: &[Known], i: usize) -> Option<Known>
    ensures { option_map known_seen result ≡ slice_get (operands_seen operands.now) i }
{
    if i < operands.len() {
        Some(operands[operands.len() - 1 - i])
    } else {
        None
    }
}

/// Pushes an operand.
pub fn push(operands: &mut Vec<Known>, k: Known) -> Result<(), AllocError>
    ensures { IfOk result (λ _. operands_seen operands.new.items ≡ known_seen k ∷ operands_seen operands.old.items) }
{
    operands.push(k)?;
    Ok(())
}

/// Pops the top operand.
pub fn pop(operands: &mut Vec<Known>) -> Option<Known>
    ensures { MatchOption result ((operands_seen operands.old.items ≡ []) × (operands_seen operands.new.items ≡ [])) (λ k. operands_seen operands.old.items ≡ known_seen k ∷ operands_seen operands.new.items) }
{
    operands.pop()
}

/// Pops the top operand and returns what is known of it; of none, nothing.
pub fn pop_known(operands: &mut Vec<Known>) -> Known
    ensures top { known_seen result ≡ get_or (operands_seen operands.old.items) 0 spec.Narrow }
    ensures rest { operands_seen operands.new.items ≡ drop 1 (operands_seen operands.old.items) }
{
    match pop(operands) {
        Some(k) => k,
        None => Known::Narrow,
    }
}

/// Pops `count` operands, or all if there are fewer.
pub fn drop_top(operands: &mut Vec<Known>, count: usize)
    ensures { operands_seen operands.new.items ≡ drop count (operands_seen operands.old.items) }
{
    operands.truncate(operands.len().saturating_sub(count));
}

/// Pops `count` operands, or all if there are fewer, and pushes one.
pub fn replace(operands: &mut Vec<Known>, count: usize, k: Known) -> Result<(), AllocError>
    ensures { IfOk result (λ _. operands_seen operands.new.items ≡ known_seen k ∷ drop count (operands_seen operands.old.items)) }
{
    drop_top(operands, count);
    push(operands, k)
}
