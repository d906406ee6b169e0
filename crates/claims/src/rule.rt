//! The invariant of a counter's word, and the effect of each operation on the ghost state. No value of these types is constructed.

use crate::known::{Known, Terms};
use atomic_table::{Join, Play, Split, TableRule};

/// The invariant of the counter: each job number below the word was claimed exactly once.
pub struct Once;

impl TableRule<u8, Known, Terms> for Once {
    ghost use Rattle.std.specs.Prelude.{[]};
    ghost use Rattle.claims.specs.Views.{hand};
    ghost use Rattle.claims.specs.Rule.{IsOnce};

    ghost holds = { IsOnce };

    ghost first = { λ k. hand k.jobs k.workers k.workers 0 [] };
}

/// The operation that claims the next number.
pub struct Next;

impl Play<u8, Known> for Next {
    ghost use Rattle.claims.specs.Rule.{on_next};

    ghost then = { on_next };
}

/// The split of one claimer, and the join of claimers when the counter is closed.
pub struct OneClaimer;

impl Split<Known> for OneClaimer {
    ghost use Rattle.claims.specs.Views.{without_one, one_alone};

    ghost left = { without_one };

    ghost right = { one_alone };
}

impl Join<Known> for OneClaimer {
    ghost use Rattle.claims.specs.Views.{together, spent};

    ghost both = { together };

    ghost spent = { spent };
}
