//! The invariant of the stripe locks, and the effect of each lock operation on the ghost state. No value of these types is constructed.

use crate::known::{Known, Terms};
use atomic_table::{Join, Play, Split, TableRule};
use jtypes::Loader;
use stripe::Stripe;

/// The invariant of the lock table. The word of a stripe is 0 if the stripe is unlocked, and nonzero if a seat holds it.
pub struct Locks;

impl<'a, L: Loader> TableRule<Stripe<'a>, Known, Terms<L>> for Locks {
    ghost use Rattle.cache.specs.Guarded.{Guarded};
    ghost use Rattle.cache.specs.Views.{first_view};

    ghost holds = { λ k s. Guarded L.ASKS (L.gives k.loader.value) k s };

    ghost first = { λ _. first_view };
}

/// The operation that locks a stripe, if it is unlocked.
pub struct Take;

impl<'a> Play<Stripe<'a>, Known> for Take {
    ghost use Rattle.cache.specs.Plays.{on_take};

    ghost then = { on_take };
}

/// The operation that unlocks a stripe, all of whose records are noted.
pub struct Return;

impl<'a> Play<Stripe<'a>, Known> for Return {
    ghost use Rattle.cache.specs.Plays.{on_return};

    ghost then = { on_return };
}

/// The operation that unlocks a stripe whose history is full, and sets the flag of the stripe in the seat's view.
pub struct Fill;

impl<'a> Play<Stripe<'a>, Known> for Fill {
    ghost use Rattle.cache.specs.Plays.{on_fill};

    ghost then = { on_fill };
}

/// The operation that adds the receipt of a held stripe's new record to the seat's view.
pub struct Note;

impl<'a> Play<Stripe<'a>, Known> for Note {
    ghost use Rattle.cache.specs.Plays.{on_note};

    ghost then = { on_note };
}

/// The split that makes a further seat, and the join of two seats when the cache is closed.
pub struct OneMore;

impl Split<Known> for OneMore {
    ghost use Rattle.cache.specs.Views.{cut_left, cut_right};

    ghost left = { cut_left };

    ghost right = { cut_right };
}

impl Join<Known> for OneMore {
    ghost use Rattle.cache.specs.Views.{joined, spent};

    ghost both = { joined };

    ghost spent = { spent };
}
