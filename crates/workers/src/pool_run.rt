//! The run of a round: opens a cache, runs the round on it and closes it.

ghost use Rattle.std.specs.Prelude.{◌≡◌, ◌<◌, ◌≤◌, length, map, IfOk, IfErr};
ghost use Rattle.std.specs.List.{All};
ghost use Rattle.claims.specs.Counters.{IsJobCount};
ghost use Rattle.stripe.specs.Stored.{entry_among};
ghost use Rattle.cache.specs.Opened.{IsSeatCount, AreFresh, HaveRoom};
ghost use Rattle.round_outcome.specs.Outcome.{IsDone};
ghost use Rattle.invokeall.specs.Jobs.{all_seen};
ghost use Rattle.invokeall.specs.Rounds.{reply_of};
ghost use Rattle.workers.specs.Buffers.{CanHold, HasPlace};

use crate::buffers::{PoolBuffers, WorkspacePool, buffers_for};
use crate::single::run_by_one;
use cache::{Cache, Closed, Gate, Seat};
use invokeall::{JobReply, Round, run_in};
use jtypes::Loader;
use registry::Registry;
use std::alloc::Global;
use std::sync::Wait;
use std::thread::Threads;
use stripe::{Call, MOST_RECORDS, Tables};

/// The most calls that a single worker makes in order. It makes more calls stripe by stripe, so that their entries stay in the CPU cache.
const FEW: usize = 512;

/// The calls of a round, with the class registry and the loader of its cache.
/// The gate observes each call, and the loader is asked for absent entries.
#[derive(Drop)]
pub struct PoolRound<'s, 'a, G, L> {
    pub registry: &'a Registry,
    pub calls: &'s [Call<'a>],
    pub gate: &'s G,
    pub loader: &'s L,
}

/// The result of a round.
#[derive(Drop)]
pub struct RoundLeft {
    /// The entries after the round.
    pub tables: Tables,
    /// The answer to each call, in the order of the calls. A refused call was out of memory and may create an entry. It changed no entry.
    pub answers: Vec<JobReply>,
}

/// Returns the number of seats or of records that a round needs: as many as calls, from 1 to `most`.
fn needed(calls: usize, most: usize) -> usize
    requires { 0 < most }
    ensures some { 0 < result }
    ensures few { result ≤ most }
    ensures enough { calls ≤ most → calls ≤ result }
{
    if calls == 0 {
        1
    } else if calls < most {
        calls
    } else {
        most
    }
}

/// Makes the calls by `workers` workers, or by one for each call if there are fewer calls.
/// There are as many threads as workers, calls or stripes, whichever are fewest. A single one is the caller's. Several are new threads,
/// for which the caller waits.
///
/// All buffers of the round itself are allocated before the first call.
/// If that fails, no call is made, and the error returns the tables unchanged.
/// The workspaces come from `kept`, and return to it after the round.
pub fn run_by_workers<'a, R: Threads + Wait + Sync, G: Gate + Sync, L: Loader + Sync>(
    rt: &R,
    alloc: Global,
    tables: Tables,
    workers: usize,
    round: &PoolRound<'_, 'a, G, L>,
    kept: &mut WorkspacePool,
) -> Result<RoundLeft, Tables>
    requires workers { IsSeatCount workers }
    requires calls { IsJobCount (length round.now.calls.now) }
    ensures done { IfOk result (λ left. IsDone L.ASKS (L.gives round.now.loader.now) (entry_among tables) (all_seen round.now.calls.now) (map reply_of left.answers.items) (entry_among left.tables)) }
    ensures placed { IfOk result (λ left. All HasPlace left.answers.items) }
    ensures stripes { IfOk result (λ left. length left.tables ≡ length tables) }
    ensures kept { IfErr result (λ e. e ≡ tables) }
{
    let many = round.calls.len();
    let seats = needed(many, workers);
    let records = needed(many, MOST_RECORDS);
    if seats == 1 && many <= FEW {
        return run_by_one(rt, alloc, tables, records, round, kept);
    }
    let Ok(buffers) = buffers_for(alloc, many, tables.stripes(), seats, kept) else {
        return Err(tables);
    };
    match Cache::open_for(
        alloc,
        round.registry,
        tables,
        records,
        seats,
        many,
        round.loader,
    ) {
        Ok((cache, seats)) => Ok(run_on(rt, cache, seats, round, buffers, kept)),
        Err((_, tables)) => Err(tables),
    }
}

/// Makes the calls on a new cache, and closes it.
fn run_on<'a, R: Threads + Wait + Sync, G: Gate + Sync, L: Loader + Sync>(
    rt: &R,
    cache: Cache<'a, '_, L>,
    mut seats: Vec<Seat<'a>>,
    round: &PoolRound<'_, 'a, G, L>,
    buffers: PoolBuffers<'a>,
    kept: &mut WorkspacePool,
) -> RoundLeft
    requires count { IsSeatCount cache.seats }
    requires journal { length (all_seen round.now.calls.now) ≤ cache.journal }
    requires seats { AreFresh cache.table cache.seats seats.items }
    requires receipts { HaveRoom (length (all_seen round.now.calls.now)) seats.items }
    requires buffers { CanHold (length (all_seen round.now.calls.now)) cache.seats buffers }
    ensures done { IsDone L.ASKS (L.gives cache.entry.loader) (entry_among cache.entry.tables) (all_seen round.now.calls.now) (map reply_of result.answers.items) (entry_among result.tables) }
    ensures placed { All HasPlace result.answers.items }
    ensures stripes { length result.tables ≡ length cache.entry.tables }
{
    let PoolBuffers {
        round: round_buffers,
        mut workspaces,
    } = buffers;
    let round = Round {
        cache: &cache,
        calls: round.calls,
        gate: round.gate,
    };
    let answers = run_in(rt, &round, &mut seats, &mut workspaces, round_buffers);
    let Closed { tables, .. } = cache.close(seats);
    kept.keep_all(workspaces);
    RoundLeft { tables, answers }
}
