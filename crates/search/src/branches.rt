//! Tests of branches that what is known decides.

ghost use Rattle.std.specs.Prelude.{◌≡◌, drop};
ghost use Rattle.unrolled.specs.Graph as graph;
ghost use Rattle.search.specs.Seen.{operands_seen};

use crate::comparisons::compared;
use crate::known::Known;
use crate::operands::{drop_top, peek};
use jtypes::Test;

/// Returns the answer of a test, if it follows from what is known of the operands.
pub fn decided(test: Test, operands: &[Known]) -> Option<bool>
    ensures { result ≡ graph.decided test (operands_seen operands.now) }
{
    let top = peek(operands, 0)?;
    match test {
        Test::WithZero(c) => compared(c, top, Known::Number(0)),
        Test::OfInts(c) => compared(c, peek(operands, 1)?, top),
        Test::IsNull => match top {
            Known::Sized(_) | Known::Arguments => Some(false),
            _ => None,
        },
        Test::IsNonNull => match top {
            Known::Sized(_) | Known::Arguments => Some(true),
            _ => None,
        },
    }
}

/// Pops the operands of a test.
pub fn drop_tested(test: Test, operands: &mut Vec<Known>)
    ensures { operands_seen operands.new.items ≡ graph.tested_rest test (operands_seen operands.old.items) }
{
    match test {
        Test::OfInts(_) => drop_top(operands, 2),
        Test::WithZero(_) | Test::IsNull | Test::IsNonNull => drop_top(operands, 1),
    }
}
