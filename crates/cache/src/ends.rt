//! The split and the join of seats, and the return of the stripes.

ghost use Rattle.std.specs.Prelude.{◌≡◌, ◌+◌, ◌<◌, ◌≤◌, [], ◌∷◌, ℕ, suc, length, vec_len, vec_capacity, IfOk, IfErr};
ghost use mathlib.Core.Option.{some};
ghost use lib.ListN.{get_elem?};
ghost use Rattle.stripe.specs.Tables.{IsCount, fresh_stripes, none_back};
ghost use Rattle.cache.specs.Views.{seat_view, part, none_full, first_view};
ghost use Rattle.cache.specs.Opened.{Sitting, IsSeatCount, AreFresh, HaveRoom, fresh_seat, view_of};
ghost use Rattle.cache.specs.Closing.{receipts_seen, receipts_in};
ghost use Rattle.cache.specs.Inside.{IsBoard};
ghost use Rattle.cache.specs.Ends.{AreLists, AreReady, CanComeBack, IsEmptyList, IsUnpacked, tables_of};

use crate::known::{Known, Terms};
use crate::locks::{Locks, OneMore};
use crate::receipt::Receipt;
use crate::seat::Seat;
use crate::steps::{Board, Place, leave};
use atomic_table::Table;
use jtypes::Loader;
use std::alloc::Global;
use stripe::{Rest, Stripe, Tables};

/// The table that owns the stripes and their locks.
pub type Locked<'a, L> = Table<Stripe<'a>, Known, Terms<L>, Locks, Global>;

/// Splits all seats but the first from the first one, each with one of the lists of receipts, and pushes them to `list`.
fn cut_all<'a, L: Loader>(
    board: &Board<'a, L>,
    pass: &mut Place<'a>,
    list: &mut Vec<Seat<'a>>,
    lists: &mut Vec<Vec<Receipt<'a>>>,
    seats: usize,
    calls: usize,
)
    requires count { IsSeatCount seats }
    requires board { (pass.old.table_id ≡ board.now.table_id) × (0 < board.now.table_id.words) }
    requires first { pass.old.me ≡ (first_view, []) }
    requires room { (list.old.items ≡ []) × (seats ≤ vec_capacity list.old) }
    requires lists { AreLists seats calls lists.old.items }
    ensures table { pass.new.table_id ≡ pass.old.table_id }
    ensures pass { pass.new.me ≡ (seat_view seats (part 0 [] none_full), []) }
    ensures count { (length list.new.items + 1 ≡ seats) × (vec_capacity list.old ≤ vec_capacity list.new) }
    ensures seats { (c : ℕ) (s : Sitting) → get_elem? list.new.items c ≡ some s → s ≡ fresh_seat pass.old.table_id seats calls (suc c) }
    ensures lists { AreLists 1 calls lists.new.items }
{
    for number in 1..seats {
        let cut = board.split_seat::<OneMore>(pass);
        list.push_reserved(Seat {
            pass: cut,
            caller: number as u8,
            made: 0,
            receipts: lists.remove(0),
            full: [false; 64],
            room: calls,
            held: None,
        });
    }
}

/// Returns the first seat, before any call, with this list of receipts.
fn first_seat<'a>(
    pass: Place<'a>,
    receipts: Vec<Receipt<'a>>,
    seats: usize,
    calls: usize,
) -> Seat<'a>
    requires count { IsSeatCount seats }
    requires first { pass.me ≡ (seat_view seats (part 0 [] none_full), []) }
    requires receipts { IsEmptyList calls receipts }
    ensures { result ≡ fresh_seat pass.entry.table_id seats calls 0 }
{
    Seat {
        pass,
        caller: 0,
        made: seats as u8,
        receipts,
        full: [false; 64],
        room: calls,
        held: None,
    }
}

/// Returns the lock table of these new stripes, all unlocked, and its first handle. An error returns the stripes.
pub fn locked<'a, L: Loader>(
    alloc: Global,
    stripes: Vec<Stripe<'a>>,
    terms: &Terms<L>,
) -> Result<(Locked<'a, L>, Place<'a>), Vec<Stripe<'a>>>
    requires count { IsCount (length terms.now.tables.value) }
    requires fresh { stripes.items ≡ fresh_stripes terms.now.journal terms.now.tables.value }
    ensures words { IfOk result (λ t. t.0.shared.table_id.words ≡ length terms.now.tables.value) }
    ensures slots { IfOk result (λ t. t.0.shared.table_id.slots ≡ length terms.now.tables.value) }
    ensures key { IfOk result (λ t. t.0.shared.key ≡ terms.now) }
    ensures first { IfOk result (λ t. (t.1.table_id ≡ t.0.shared.table_id) × (t.1.me ≡ (first_view, []))) }
    ensures err { IfErr result (λ s. s.items ≡ stripes.entry.items) }
{
    let words = [0u64; 64];
    let count = stripes.len();
    match Table::new(alloc, &words[..count], stripes, terms) {
        Ok(made) => Ok(made),
        Err(refused) => Err(refused.slots),
    }
}

/// Returns all seats of a cache, in the preallocated `list`. Each has one of the lists of receipts.
pub fn seated<'a, L: Loader>(
    board: &Board<'a, L>,
    mut pass: Place<'a>,
    mut list: Vec<Seat<'a>>,
    mut lists: Vec<Vec<Receipt<'a>>>,
    seats: usize,
    calls: usize,
) -> Vec<Seat<'a>>
    requires count { IsSeatCount seats }
    requires board { (pass.table_id ≡ board.now.table_id) × (0 < board.now.table_id.words) }
    requires first { pass.me ≡ (first_view, []) }
    requires room { (list.items ≡ []) × (seats ≤ vec_capacity list) }
    requires lists { AreLists seats calls lists.items }
    ensures fresh { AreFresh pass.entry.table_id seats result.items }
    ensures room { HaveRoom calls result.items }
{
    cut_all(board, &mut pass, &mut list, &mut lists, seats, calls);
    let receipts = lists.remove(0);
    first_in(&mut list, first_seat(pass, receipts, seats, calls));
    list
}

/// Inserts the first seat at index 0. The list has capacity for it.
fn first_in<'a>(list: &mut Vec<Seat<'a>>, first: Seat<'a>)
    requires { vec_len list.old < vec_capacity list.old }
    ensures { list.new.items ≡ first.entry ∷ list.old.items }
{
    if list.insert(0, first).is_err() {
        unreachable!()
    }
}

/// Unlocks the stripe that each seat holds, joins all seats into the first, and pushes the receipts of each seat to `lists`.
pub fn join_all<'a, L: Loader>(
    board: &Board<'a, L>,
    first: Seat<'a>,
    rest: Vec<Seat<'a>>,
    lists: &mut Vec<Vec<Receipt<'a>>>,
) -> Place<'a>
    requires board { (first.table ≡ board.now.table_id) × IsBoard board.now.table_id board.now.key }
    requires rest { (c : ℕ) (s : Sitting) → get_elem? rest.items c ≡ some s → s.table ≡ board.now.table_id }
    requires room { (lists.old.items ≡ []) × (length rest.items + 1 ≤ vec_capacity lists.old) }
    ensures table { result.table_id ≡ board.now.table_id }
    ensures joined { result.me ≡ (view_of first.entry.made (first.entry ∷ rest.entry.items), []) }
    ensures lists { receipts_seen lists.new.items ≡ receipts_in (first.entry ∷ rest.entry.items) }
{
    let Seat {
        mut pass,
        receipts,
        mut held,
        ..
    } = first;
    leave(board, &mut pass, &mut held);
    lists.push_reserved(receipts);
    for seat in rest {
        let Seat {
            pass: mut other,
            receipts,
            mut held,
            ..
        } = seat;
        leave(board, &mut other, &mut held);
        board.join_seat::<OneMore>(&mut pass, other);
        lists.push_reserved(receipts);
    }
    pass
}

/// Closes the table and adds its stripes to `rest`, in order.
pub fn unpack<'a, L: Loader>(table: Locked<'a, L>, pass: Place<'a>, rest: &mut Rest<'a>)
    requires table { pass.table_id ≡ table.shared.table_id }
    requires ready { CanComeBack L.ASKS (L.gives table.shared.key.loader.value) table.shared.key table.shared.table_id.slots pass.id pass.me.0 }
    requires rest { rest.old ≡ none_back table.shared.table_id.slots }
    ensures { IsUnpacked L.ASKS (L.gives table.entry.shared.key.loader.value) table.entry.shared.key table.entry.shared.table_id.slots pass.entry.id pass.entry.me.0 rest.new }
{
    let mut closed = table.close_with(pass);
    for i in 0..closed.slot_count() {
        rest.add(closed.take(i));
    }
    closed.free();
}

/// Returns the tables of these stripes, which have no open call. Their histories are dropped.
pub fn rejoined<'a>(stripes: Vec<Stripe<'a>>, mut rest: Rest<'a>) -> Tables
    requires stripes { AreReady (length stripes.items) stripes.items }
    requires rest { rest ≡ none_back (length stripes.items) }
    ensures { result ≡ tables_of stripes.entry.items }
{
    for stripe in stripes {
        rest.add(stripe);
    }
    let (tables, _histories) = rest.finish();
    tables
}
