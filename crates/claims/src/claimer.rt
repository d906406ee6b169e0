//! The claimers of a counter.

ghost use Rattle.std.specs.Prelude.{◌≡◌, ◌<◌, ◌≤◌, [], ◌∷◌, ◌++◌, ℕ, List, length};
ghost use Rattle.claims.specs.Views.{hand};
ghost use Rattle.claims.specs.Rule.{HasNext};

use crate::counter::Counter;
use crate::ends::{Board, Place};
use crate::rule::Next;
use std::marker::Model;

/// A worker's handle to a counter, with which it claims job numbers.
#[derive(Drop)]
pub struct Claimer {
    pub(crate) place: Place,
    /// Whether a claim found no number left.
    pub(crate) done: bool,
}

impl Model for Claimer {
    ghost use Rattle.claims.specs.Counters.{Share};

    ghost Value = { Share };

    ghost use Rattle.std.specs.Coded.{codes};
    ghost use Rattle.atomic_table.specs.Seated.{table_id_coded};

    ghost coded = { Prim.hlevel (codes, table_id_coded) };

    ghost use Rattle.claims.specs.Inside.{IsClaimer, share};

    ghost view = { share };

    ghost invariant = { IsClaimer };
}

impl Claimer {
    ghost use Rattle.std.specs.Prelude.{◌≡◌, ◌<◌, ◌≤◌, false, length, IfSome, IfNone};
    ghost use Rattle.claims.specs.Counters.{with_number, at_end, IsAbove};

    /// Claims the next number, which no other claimer gets. Returns none once all numbers are claimed.
    pub fn claim(&mut self, counter: &Counter) -> Option<usize>
        requires { self.old.counter ≡ counter.now }
        ensures counter { self.new.counter ≡ self.old.counter }
        ensures job { IfSome result (λ n. n < counter.now.jobs) }
        ensures later { IfSome result (λ n. length self.old.drawn ≤ n) }
        ensures rising { IfSome result (IsAbove self.old.drawn) }
        ensures some { IfSome result (λ n. (self.old.done ≡ false) × (self.new ≡ with_number self.old n)) }
        ensures none { IfNone result (self.new ≡ at_end self.old) }
    {
        if self.done {
            return None;
        }
        let number = draw(&counter.table.shared, &mut self.place);
        if number < counter.jobs as u64 {
            return Some(number as usize);
        }
        self.done = true;
        None
    }
}

/// Reads and increments the counter atomically. The number may be out of the range of the jobs.
fn draw(board: &Board, place: &mut Place) -> u64
    requires table { place.old.table_id ≡ board.now.table_id }
    requires board { 0 < board.now.table_id.words }
    requires open { (drawn : List ℕ) × (place.old.me ≡ (hand board.now.key.jobs board.now.key.workers 1 0 drawn, [])) }
    ensures table { place.new.table_id ≡ place.old.table_id }
    ensures next { HasNext place.old.me.0 result place.new.me.0 × (place.new.me.1 ≡ place.old.me.1) }
{
    board.fetch_add::<Next>(place, 0, 1)
}
