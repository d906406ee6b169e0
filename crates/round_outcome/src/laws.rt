//! The laws of round outcomes.

ghost use Rattle.round_outcome.specs.Example.{NoValueFromNowhere, left_by_round, no_answers, no_entries, replies, round};
ghost use Rattle.round_outcome.specs.Outcome.{IsDone};
ghost use Rattle.std.specs.Prelude.{false};
ghost use Rattle.round_outcome.specs.Statements.{CachesHandOutHistories, CallsAreFiled, HistoriesFollow, NoneIsFiled, RefusedCallsAreFiled, RoundsAreDone, WorldsHandOutHistories};

use jtypes::Loader;

/// Proves that the concatenated histories of a closed cache are one legal history of the calls that its seats have receipts of, each once
/// with its reply, from the entries that the cache was opened with to those that it returns.
///
/// Its precondition is that each receipt has the stripe of its call's key. `calls_are_filed` proves it of the calls of a cache.
pub fn what_a_cache_hands_out_is_an_outcome<L: Loader>(_loader: &L)
    ensures { CachesHandOutHistories L L.ASKS (L.gives _loader.now) }
{}

/// Proves that each receipt of a seat has the stripe of its call's key: this holds without receipts, and each answered or refused call
/// preserves it.
pub fn calls_are_filed<L: Loader>(_loader: &L)
    ensures none { NoneIsFiled }
    ensures more { CallsAreFiled L }
    ensures refused { RefusedCallsAreFiled L }
{}

/// Proves that the finished calls of a world are a legal history, from the entries that the world was opened with to its current entries.
pub fn what_a_world_hands_out_is_an_outcome<L: Loader>(_loader: &L)
    ensures { WorldsHandOutHistories L.ASKS (L.gives _loader.now) }
{}

/// Proves that a round is done if it has a reply or a refusal for each call, each refused call may create an entry, and the answered calls
/// are, in some order, those of a history.
pub fn who_answers_an_outcome_is_done<L: Loader>(_loader: &L)
    ensures { RoundsAreDone L.ASKS (L.gives _loader.now) }
{}

/// Proves that two histories, the second from the entries that the first leaves, concatenate to one history of the calls of both.
pub fn histories_follow_one_another<L: Loader>(_loader: &L)
    ensures { HistoriesFollow L.ASKS (L.gives _loader.now) }
{}

/// Proves that an example round of four calls, with one refusal, is done, and that its history has another order than the calls.
/// Proves that a round is not done if a `get` returns a value that no call stored.
pub fn a_small_round_is_done()
    ensures done { IsDone false no_answers no_entries round replies left_by_round }
    ensures nowhere { NoValueFromNowhere }
{}
