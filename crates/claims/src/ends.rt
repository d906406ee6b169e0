//! The split and the join of claimers.

ghost use Rattle.std.specs.Prelude.{◌≡◌, ◌+◌, ◌<◌, ◌≤◌, [], ◌∷◌, ℕ, length, vec_capacity};
ghost use mathlib.Core.Option.{some};
ghost use lib.ListN.{get_elem?};
ghost use Rattle.claims.specs.Views.{hand};
ghost use Rattle.claims.specs.Counters.{Share, IsWorkerCount, AreFresh, fresh};
ghost use Rattle.claims.specs.Inside.{numbering, view_of};

use crate::claimer::Claimer;
use crate::known::{Known, Terms};
use crate::rule::{Once, OneClaimer};
use atomic_table::{Seat, Shared};

/// The shared word of a counter, with its invariant.
pub type Board = Shared<u8, Known, Terms, Once>;

/// The table handle of a claimer.
pub type Place = Seat<u8, Known>;

/// Pushes one claimer for each worker to the preallocated `list`.
pub fn cut_all(board: &Board, place: Place, list: &mut Vec<Claimer>, workers: usize)
    requires count { IsWorkerCount workers × (board.now.key.workers ≡ workers) }
    requires board { (place.table_id ≡ board.now.table_id) × (0 < board.now.table_id.words) }
    requires first { place.me ≡ (hand board.now.key.jobs workers workers 0 [], []) }
    requires room { (list.old.items ≡ []) × (workers ≤ vec_capacity list.old) }
    ensures { AreFresh (numbering board.now.table_id board.now.key) list.new.items }
{
    let mut place = place;
    for _ in 1..workers {
        let cut = board.split_seat::<OneClaimer>(&mut place);
        list.push_reserved(Claimer {
            place: cut,
            done: false,
        });
    }
    list.push_reserved(Claimer { place, done: false });
}

/// Joins all claimers into the first, and returns its table handle.
pub fn join_all(board: &Board, first: Claimer, rest: Vec<Claimer>) -> Place
    requires board { 0 < board.now.table_id.words }
    requires first { first.counter ≡ numbering board.now.table_id board.now.key }
    requires rest { (c : ℕ) (s : Share) → get_elem? rest.items c ≡ some s → s.counter ≡ numbering board.now.table_id board.now.key }
    ensures table { result.table_id ≡ board.now.table_id }
    ensures joined { result.me ≡ (view_of board.now.key (first ∷ rest.items), []) }
{
    let Claimer { mut place, .. } = first;
    for claimer in rest {
        let Claimer { place: other, .. } = claimer;
        board.join_seat::<OneClaimer>(&mut place, other);
    }
    place
}
