//! The laws of legal histories and runs of a world.

ghost use Rattle.history_runs.specs.Example.{CrossedHistories};
ghost use Rattle.history_runs.specs.Statements.{CachesAreRuns, CachesAreSettled, CachesOfOneStripeAreRuns, InterleavingsAreRuns, LegalHistoriesAreRuns, RunsAreInterleavings, RunsAreLegalHistories};

use jtypes::Loader;

/// The finished calls of each run of a world, from opened tables on, are a legal history.
/// - legal: so are those of each stripe, they leave the world's entries, and the loader may give each answer in them.
/// - stripes: they interleave the stripes' histories, of which all holds that `Settles` says of the histories of a closed cache.
pub fn runs_are_legal_histories<L: Loader>(_loader: &L)
    ensures legal { RunsAreLegalHistories L.ASKS (L.gives _loader.now) }
    ensures stripes { RunsAreInterleavings L.ASKS (L.gives _loader.now) }
{}

/// Each legal history, with answers that the loader may give, is the list of finished calls of a run,
/// if each caller's records have the numbers 0, 1, 2 and so on in order, as a world numbers calls.
/// The run starts each call, steps it to its end and finishes it before the next call starts.
/// If each stripe has at most `journal` of the records, no event is a start on a full history.
pub fn legal_histories_are_runs<L: Loader>(_loader: &L)
    ensures { LegalHistoriesAreRuns L.ASKS (L.gives _loader.now) }
{}

/// The calls of a closed cache are those of a run of a world that starts, steps and finishes one call after the other.
/// - settled: what `Settles` says of the histories alone.
/// - interleaved: for each interleaving of such histories whose records are numbered in order, a run finishes exactly these records.
/// - runs: a run finishes the records of all histories, one history after the other, except for the calls' numbers.
///   It leaves the entries that the cache returns. The preconditions are that there is a stripe, and that each receipt has the stripe
///   of its call's key, as `calls_are_filed` of round_outcome proves.
/// - one_stripe: a cache of one stripe has a run that finishes exactly its history, numbers included.
pub fn closed_caches_are_runs<L: Loader>(_loader: &L)
    ensures settled { CachesAreSettled L L.ASKS (L.gives _loader.now) }
    ensures interleaved { InterleavingsAreRuns L.ASKS (L.gives _loader.now) }
    ensures runs { CachesAreRuns L L.ASKS (L.gives _loader.now) }
    ensures one_stripe { CachesOfOneStripeAreRuns L L.ASKS (L.gives _loader.now) }
{}

/// `Settles` allows histories of two stripes that no run of a world has: on each stripe the second call of one caller
/// precedes the first call of the other. `Settles` says nothing of the order of calls on different stripes.
pub fn crossed_histories_have_no_run<L: Loader>(_loader: &L)
    ensures { CrossedHistories L L.ASKS (L.gives _loader.now) }
{}
