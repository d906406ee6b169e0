//! The steps of a call: lock the stripe, begin, commit and unlock.

ghost use Rattle.std.specs.Prelude.{◌≡◌, ◌<◌, ◌∷◌, [], ℕ, length, Some, None, Err, IfOk, OnErr, IsTrue, IsFalse, true};
ghost use Rattle.stripe.specs.History.{Begun, key_of};
ghost use Rattle.stripe.specs.Kept.{Kept, CanCommit, asked_by, may_make};
ghost use Rattle.stripe.specs.Seen.{call_of, record_of};
ghost use Rattle.stripe.specs.declared.refusal.BeginRefusal.TheVariants.{JournalFull, NoMemory};
ghost use Rattle.cache.specs.Views.{Part, seat_view, holding, filled_part};
ghost use Rattle.cache.specs.Inside.{IsBoard};
ghost use Rattle.cache.specs.Steps.{IsIdle, Holds, IsKnown, CanBegin, HasBegun, HasCommitted, HasNoted, CanReturn, CanFill, CanTell};

use crate::known::{Known, Terms};
use crate::locks::{Fill, Locks, Note, Return, Take};
use atomic_table::{Seat as Pass, Shared};
use jtypes::{LoadAnswer, Loader};
use machine::Done;
use std::hint;
use std::sync::Wait;
use std::time::Duration;
use stripe::{BeginRefusal, Call, Record, Stripe};

/// The stripes with their locks.
pub type Board<'a, L> = Shared<Stripe<'a>, Known, Terms<L>, Locks>;

/// The table handle of a seat, with which it locks, accesses and unlocks stripes.
pub type Place<'a> = Pass<Stripe<'a>, Known>;

/// The word of an unlocked stripe.
const FREE: u64 = 0;

/// The word of a locked stripe without a known waiter.
const HELD: u64 = 1;

/// The word of a locked stripe on which another seat may sleep until the unlock.
const AWAITED: u64 = 2;

/// The number of times that a seat polls a locked stripe before it sleeps. The polls take less time than a sleep and a wakeup.
const LOOKS: u32 = 100;

/// Locks a stripe if it is unlocked, and returns whether it did. The word becomes `mark` either way.
fn try_take<'a, L: Loader>(
    board: &Board<'a, L>,
    pass: &mut Place<'a>,
    index: usize,
    mark: u64,
) -> bool
    requires table { pass.old.table_id ≡ board.now.table_id }
    requires board { IsBoard board.now.table_id board.now.key }
    requires index { index < board.now.table_id.words }
    requires idle { IsIdle pass.old.me }
    requires some { 0 < mark }
    ensures table { pass.new.table_id ≡ pass.old.table_id }
    ensures taken { IsTrue result → (made : ℕ) (p : Part) → pass.old.me ≡ (seat_view made p, []) → Holds board.now.table_id.slots index made p pass.new.me }
    ensures left { IsFalse result → pass.new.me ≡ pass.old.me }
{
    board.swap::<Take>(pass, index, mark) == FREE
}

/// Locks a stripe if it is unlocked, and returns whether it did. The word of a locked stripe is unchanged, so it keeps the mark `AWAITED`.
fn take_free<'a, L: Loader>(board: &Board<'a, L>, pass: &mut Place<'a>, index: usize) -> bool
    requires table { pass.old.table_id ≡ board.now.table_id }
    requires board { IsBoard board.now.table_id board.now.key }
    requires index { index < board.now.table_id.words }
    requires idle { IsIdle pass.old.me }
    ensures table { pass.new.table_id ≡ pass.old.table_id }
    ensures taken { IsTrue result → (made : ℕ) (p : Part) → pass.old.me ≡ (seat_view made p, []) → Holds board.now.table_id.slots index made p pass.new.me }
    ensures left { IsFalse result → pass.new.me ≡ pass.old.me }
{
    board.compare_exchange::<Take>(pass, index, FREE, HELD) == FREE
}

/// Wakes one seat that sleeps on the stripe, if `word`, the word before the unlock, is `AWAITED`.
fn wake<L: Loader>(board: &Board<'_, L>, index: usize, word: u64)
    requires { index < board.now.table_id.words }
{
    if word == AWAITED {
        board.wake_one(index);
    }
}

/// Polls a locked stripe until it is unlocked, at most `LOOKS` times.
fn watch<L: Loader>(board: &Board<'_, L>, index: usize)
    requires { index < board.now.table_id.words }
{
    for _ in 0..LOOKS {
        if board.peek(index) == FREE {
            return;
        }
        hint::spin_loop();
    }
}

/// Locks a stripe. If another seat holds it, it first polls the stripe and then sleeps until the unlock.
///
/// A seat that has waited locks the stripe with the mark `AWAITED`, since further seats may sleep on it. So its unlock wakes one of them.
#[inline(always)]
pub fn take<'a, L: Loader, R: Wait>(
    rt: &R,
    board: &Board<'a, L>,
    pass: &mut Place<'a>,
    index: usize,
)
    requires table { pass.old.table_id ≡ board.now.table_id }
    requires board { IsBoard board.now.table_id board.now.key }
    requires index { index < board.now.table_id.words }
    requires idle { IsIdle pass.old.me }
    ensures table { pass.new.table_id ≡ pass.old.table_id }
    ensures taken { (made : ℕ) (p : Part) → pass.old.me ≡ (seat_view made p, []) → Holds board.now.table_id.slots index made p pass.new.me }
{
    if try_take(board, pass, index, HELD) {
        return;
    }
    watch(board, index);
    for _ in rt.forever() {
        if try_take(board, pass, index, AWAITED) {
            return;
        }
        board.park(rt, index, AWAITED as u32);
    }
    unreachable!()
}

/// Locks a stripe and returns whether it did. It sleeps at most `patience` for the unlock, and doesn't wait if that is zero.
///
/// After a wait it writes the mark `AWAITED` whether it locks the stripe or not, since further seats may sleep on it.
fn take_within<'a, L: Loader, R: Wait>(
    rt: &R,
    board: &Board<'a, L>,
    pass: &mut Place<'a>,
    index: usize,
    patience: Duration,
) -> bool
    requires table { pass.old.table_id ≡ board.now.table_id }
    requires board { IsBoard board.now.table_id board.now.key }
    requires index { index < board.now.table_id.words }
    requires idle { IsIdle pass.old.me }
    ensures table { pass.new.table_id ≡ pass.old.table_id }
    ensures taken { IsTrue result → (made : ℕ) (p : Part) → pass.old.me ≡ (seat_view made p, []) → Holds board.now.table_id.slots index made p pass.new.me }
    ensures left { IsFalse result → pass.new.me ≡ pass.old.me }
{
    if take_free(board, pass, index) {
        return true;
    }
    if patience.is_zero() {
        return false;
    }
    watch(board, index);
    if try_take(board, pass, index, AWAITED) {
        return true;
    }
    board.park_timeout(rt, index, AWAITED as u32, patience);
    try_take(board, pass, index, AWAITED)
}

/// Begins a call on the stripe that the seat holds, and returns the entry that the call finds.
pub fn begin<'a, L: Loader>(
    board: &Board<'a, L>,
    pass: &mut Place<'a>,
    index: usize,
    caller: u8,
    number: u32,
    call: Call<'a>,
    loader: &L,
) -> Result<Option<i64>, BeginRefusal>
    requires table { pass.old.table_id ≡ board.now.table_id }
    requires held { CanBegin index (record { caller = caller; number = number; call = call_of call; loads = L.ASKS }) pass.old.me.1 }
    ensures table { pass.new.table_id ≡ pass.old.table_id }
    ensures view { pass.new.me.0 ≡ pass.old.me.0 }
    ensures ok { IfOk result (λ before. (y : Kept) → pass.old.me.1 ≡ (index, y) ∷ [] → HasBegun L.ASKS index (record { caller = caller; number = number; call = call_of call.entry; loads = L.ASKS }) before y pass.new.me.1) }
    ensures err { OnErr result (pass.new.me.1 ≡ pass.old.me.1) }
    ensures memory { result ≡ Err NoMemory → may_make L.ASKS (call_of call.entry) ≡ true }
    ensures full { result ≡ Err JournalFull → (y : Kept) → pass.old.me.1 ≡ (index, y) ∷ [] → length y.records ≡ y.journal }
{
    pass.slot_mut(board, index)
        .begin(caller, number, call, loader)
}

/// Commits the open call of the held stripe. Returns its record and the record's index in the history.
#[inline(always)]
pub fn commit<'a, L: Loader>(
    board: &Board<'a, L>,
    pass: &mut Place<'a>,
    index: usize,
    done: Option<Done>,
    asked: Option<LoadAnswer>,
) -> (Record<'a>, usize)
    requires table { pass.old.table_id ≡ board.now.table_id }
    requires held { (y : Kept) × (pass.old.me.1 ≡ (index, y) ∷ []) × CanCommit y done asked }
    ensures table { pass.new.table_id ≡ pass.old.table_id }
    ensures view { pass.new.me.0 ≡ pass.old.me.0 }
    ensures committed { (y : Kept) (b : Begun) → pass.old.me.1 ≡ (index, y) ∷ [] → y.running ≡ Some b → HasCommitted index b (asked_by done asked) y (record_of result.0) result.1 pass.new.me.1 }
{
    let stripe = pass.slot_mut(board, index);
    let place = stripe.history().len();
    (stripe.commit(done, asked), place)
}

/// Adds the receipt of the stripe's new record to the seat's ghost view. The seat still holds the stripe, so its word is unchanged.
pub fn note<'a, L: Loader>(board: &Board<'a, L>, pass: &mut Place<'a>, index: usize)
    requires table { pass.old.table_id ≡ board.now.table_id }
    requires board { IsBoard board.now.table_id board.now.key }
    requires index { index < board.now.table_id.words }
    requires held { CanTell L.ASKS (L.gives board.now.key.loader.value) index pass.old.me }
    ensures table { pass.new.table_id ≡ pass.old.table_id }
    ensures noted { HasNoted index pass.old.me pass.new.me }
{
    board.load::<Note>(pass, index);
}

/// Unlocks the stripe, all of whose records are noted, and wakes a seat that may sleep on it.
pub fn give_back<'a, L: Loader>(board: &Board<'a, L>, pass: &mut Place<'a>, index: usize)
    requires table { pass.old.table_id ≡ board.now.table_id }
    requires index { index < board.now.table_id.words }
    requires held { CanReturn index pass.old.me }
    ensures table { pass.new.table_id ≡ pass.old.table_id }
    ensures given { (made : ℕ) (p : Part) (y : Kept) → pass.old.me.0 ≡ holding made p index y → pass.new.me ≡ (seat_view made p, []) }
{
    let word = board.swap::<Return>(pass, index, FREE);
    wake(board, index, word);
}

/// Unlocks the stripe, whose history is full, and sets its flag in the seat's ghost view. Wakes a seat that may sleep on it.
pub fn give_full<'a, L: Loader>(board: &Board<'a, L>, pass: &mut Place<'a>, index: usize)
    requires table { pass.old.table_id ≡ board.now.table_id }
    requires index { index < board.now.table_id.words }
    requires held { CanFill index pass.old.me }
    ensures table { pass.new.table_id ≡ pass.old.table_id }
    ensures given { (made : ℕ) (p : Part) (y : Kept) → pass.old.me.0 ≡ holding made p index y → pass.new.me ≡ (seat_view made (filled_part p index), []) }
{
    let word = board.swap::<Fill>(pass, index, FREE);
    wake(board, index, word);
}

/// Unlocks the stripe that the seat holds, if any.
pub fn leave<'a, L: Loader>(board: &Board<'a, L>, pass: &mut Place<'a>, held: &mut Option<usize>)
    requires table { pass.old.table_id ≡ board.now.table_id }
    requires board { IsBoard board.now.table_id board.now.key }
    requires known { (made : ℕ) × (p : Part) × IsKnown board.now.table_id.slots made p held.old pass.old.me }
    ensures table { pass.new.table_id ≡ pass.old.table_id }
    ensures none { held.new ≡ None }
    ensures left { (made : ℕ) (p : Part) → IsKnown board.now.table_id.slots made p held.old pass.old.me → pass.new.me ≡ (seat_view made p, []) }
{
    if let Some(index) = *held {
        give_back(board, pass, index);
        *held = None;
    }
}

/// Locks this stripe, unless the seat already holds it. A different stripe that the seat holds is unlocked first.
#[inline(always)]
pub fn hold<'a, L: Loader, R: Wait>(
    rt: &R,
    board: &Board<'a, L>,
    pass: &mut Place<'a>,
    held: &mut Option<usize>,
    index: usize,
)
    requires table { pass.old.table_id ≡ board.now.table_id }
    requires board { IsBoard board.now.table_id board.now.key }
    requires index { index < board.now.table_id.words }
    requires known { (made : ℕ) × (p : Part) × IsKnown board.now.table_id.slots made p held.old pass.old.me }
    ensures table { pass.new.table_id ≡ pass.old.table_id }
    ensures held { held.new ≡ Some index }
    ensures holds { (made : ℕ) (p : Part) → IsKnown board.now.table_id.slots made p held.old pass.old.me → Holds board.now.table_id.slots index made p pass.new.me }
{
    if let Some(stripe) = *held {
        if stripe == index {
            return;
        }
    }
    leave(board, pass, held);
    take(rt, board, pass, index);
    *held = Some(index);
}

/// Unlocks the stripe that the seat holds, if any, then locks this one if it can within `patience`.
/// Returns whether the seat holds it. If not, it holds no stripe.
pub fn hold_within<'a, L: Loader, R: Wait>(
    rt: &R,
    board: &Board<'a, L>,
    pass: &mut Place<'a>,
    held: &mut Option<usize>,
    index: usize,
    patience: Duration,
) -> bool
    requires table { pass.old.table_id ≡ board.now.table_id }
    requires board { IsBoard board.now.table_id board.now.key }
    requires index { index < board.now.table_id.words }
    requires known { (made : ℕ) × (p : Part) × IsKnown board.now.table_id.slots made p held.old pass.old.me }
    ensures table { pass.new.table_id ≡ pass.old.table_id }
    ensures held { IsTrue result → held.new ≡ Some index }
    ensures none { IsFalse result → held.new ≡ None }
    ensures known { (made : ℕ) (p : Part) → IsKnown board.now.table_id.slots made p held.old pass.old.me → IsKnown board.now.table_id.slots made p held.new pass.new.me }
{
    leave(board, pass, held);
    if !take_within(rt, board, pass, index, patience) {
        return false;
    }
    *held = Some(index);
    true
}
