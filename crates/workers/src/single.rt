//! The run of a round by one worker: opens a cache, makes the calls and closes it.

ghost use Rattle.std.specs.Prelude.{◌≡◌, ◌≤◌, length, map, IfOk, IfErr};
ghost use Rattle.std.specs.List.{All};
ghost use Rattle.stripe.specs.Stored.{entry_among};
ghost use Rattle.cache.specs.Opened.{AreFresh, HaveRoom};
ghost use Rattle.round_outcome.specs.Outcome.{IsDone};
ghost use Rattle.invokeall.specs.Jobs.{all_seen};
ghost use Rattle.invokeall.specs.Rounds.{reply_of};
ghost use Rattle.invokeall.specs.Buffers.{HasRoom};
ghost use Rattle.workers.specs.Buffers.{HasPlace};

use crate::buffers::WorkspacePool;
use crate::pool_run::{PoolRound, RoundLeft};
use cache::{Cache, Closed, Gate, Seat};
use invokeall::{JobReply, Round, run_alone};
use jtypes::Loader;
use machine::Workspace;
use std::alloc::Global;
use std::sync::Wait;
use stripe::Tables;

/// Makes the calls by one worker, in order, on the caller's thread. An error returns the tables, and no call was made.
/// It needs no groups of calls.
pub fn run_by_one<'a, R: Wait, G: Gate, L: Loader>(
    rt: &R,
    alloc: Global,
    tables: Tables,
    records: usize,
    round: &PoolRound<'_, 'a, G, L>,
    kept: &mut WorkspacePool,
) -> Result<RoundLeft, Tables>
    requires records { length round.now.calls.now ≤ records }
    ensures done { IfOk result (λ left. IsDone L.ASKS (L.gives round.now.loader.now) (entry_among tables) (all_seen round.now.calls.now) (map reply_of left.answers.items) (entry_among left.tables)) }
    ensures placed { IfOk result (λ left. All HasPlace left.answers.items) }
    ensures stripes { IfOk result (λ left. length left.tables ≡ length tables) }
    ensures kept { IfErr result (λ e. e ≡ tables) }
{
    let Ok(answers) = Vec::with_capacity(alloc, round.calls.len()) else {
        return Err(tables);
    };
    let Ok(mut workspace) = kept.workspace(alloc) else {
        return Err(tables);
    };
    let calls = round.calls.len();
    match Cache::open_for(
        alloc,
        round.registry,
        tables,
        records,
        1,
        calls,
        round.loader,
    ) {
        Ok((cache, seats)) => {
            let left = run_at_one(rt, cache, seats, round, &mut workspace, answers);
            kept.keep(workspace);
            Ok(left)
        }
        Err((_, tables)) => Err(tables),
    }
}

/// Makes the calls on a new cache of one seat, and closes it.
fn run_at_one<'a, R: Wait, G: Gate, L: Loader>(
    rt: &R,
    cache: Cache<'a, '_, L>,
    mut seats: Vec<Seat<'a>>,
    round: &PoolRound<'_, 'a, G, L>,
    workspace: &mut Workspace,
    mut answers: Vec<JobReply>,
) -> RoundLeft
    requires count { cache.seats ≡ 1 }
    requires journal { length (all_seen round.now.calls.now) ≤ cache.journal }
    requires seats { AreFresh cache.table cache.seats seats.items }
    requires receipts { HaveRoom (length (all_seen round.now.calls.now)) seats.items }
    requires room { HasRoom (length round.now.calls.now) answers }
    ensures done { IsDone L.ASKS (L.gives cache.entry.loader) (entry_among cache.entry.tables) (all_seen round.now.calls.now) (map reply_of result.answers.items) (entry_among result.tables) }
    ensures placed { All HasPlace result.answers.items }
    ensures stripes { length result.tables ≡ length cache.entry.tables }
{
    let round = Round {
        cache: &cache,
        calls: round.calls,
        gate: round.gate,
    };
    run_alone(rt, &round, &mut seats[0], workspace, &mut answers);
    let Closed { tables, .. } = cache.close(seats);
    RoundLeft { tables, answers }
}
