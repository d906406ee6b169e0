//! Execution of the jobs of a round.

ghost use Rattle.std.specs.Prelude.{◌≡◌, ◌≤◌, length, map, IfOk, IfErr};
ghost use Rattle.std.specs.List.{All};
ghost use Rattle.stripe.specs.Stored.{entry_among};
ghost use Rattle.round_outcome.specs.Outcome.{IsDone};
ghost use Rattle.invokeall.specs.Jobs.{all_seen};
ghost use Rattle.invokeall.specs.Rounds.{reply_of};
ghost use Rattle.invokeall.specs.Buffers.{HasRoom};
ghost use Rattle.workers.specs.Buffers.{HasPlace};

use crate::context::Server;
use cache::{Gate, InvokeRefusal};
use invokeall::JobReply;
use jtypes::Loader;
use round_robin::run_in_turns;
use std::alloc::Global;
use std::sync::Wait;
use std::thread::Threads;
use stripe::{Call, Reply, Tables};
use workers::{PoolRound, WorkspacePool, run_by_workers, workers_for};

/// The result of a round: the tables of entries, and the answer to each job. A refused job is out of memory.
#[derive(Drop)]
pub struct RoundLeft {
    pub tables: Tables,
    pub answers: Vec<JobReply>,
}

/// Returns the answer with this reply, or the refusal `NoMemory` without one.
fn answer_with(reply: &Option<Reply>) -> JobReply
    ensures reply { reply_of result ≡ reply.now }
    ensures placed { HasPlace result }
{
    match *reply {
        Some(reply) => Ok(reply),
        None => Err(InvokeRefusal::NoMemory),
    }
}

/// Pushes the answers with these replies. The list is empty before, and its capacity is preallocated.
fn answer_all(replies: &[Option<Reply>], answers: &mut Vec<JobReply>)
    requires { HasRoom (length replies.now) answers.old }
    ensures replies { map reply_of answers.new.items ≡ replies.now }
    ensures placed { All HasPlace answers.new.items }
{
    for reply in replies {
        answers.push_reserved(answer_with(reply));
    }
}

/// Runs the jobs one after another on this thread.
fn run_alone<L: Loader>(
    alloc: Global,
    tables: Tables,
    calls: &[Call<'_>],
    loader: &L,
) -> Result<RoundLeft, Tables>
    requires { length calls.now ≤ 4096 }
    ensures done { IfOk result (λ left. IsDone L.ASKS (L.gives loader.now) (entry_among tables) (all_seen calls.now) (map reply_of left.answers.items) (entry_among left.tables)) }
    ensures placed { IfOk result (λ left. All HasPlace left.answers.items) }
    ensures stripes { IfOk result (λ left. length left.tables ≡ length tables) }
    ensures kept { IfErr result (λ e. e ≡ tables) }
{
    let Ok(mut answers) = Vec::with_capacity(alloc, calls.len()) else {
        return Err(tables);
    };
    match run_in_turns(alloc, tables, calls, loader) {
        Ok(round_robin::TurnsLeft { tables, replies }) => {
            answer_all(replies.as_slice(), &mut answers);
            Ok(RoundLeft { tables, answers })
        }
        Err(tables) => Err(tables),
    }
}

/// Runs the calls on these tables: one after another if the settings have no workers, else on as many workers as `steps` justify.
/// If there is no memory for it, returns the tables unchanged.
pub fn run_jobs<'a, T: Threads + Wait + Sync, G: Gate + Sync, L: Loader + Sync>(
    server: &Server<'a, T, G, L>,
    tables: Tables,
    steps: u64,
    calls: &[Call<'a>],
    workspaces: &mut WorkspacePool,
) -> Result<RoundLeft, Tables>
    requires jobs { length calls.now ≤ 4096 }
    requires workers { server.now.settings.workers ≤ 16 }
    ensures done { IfOk result (λ left. IsDone L.ASKS (L.gives server.now.loader.now) (entry_among tables) (all_seen calls.now) (map reply_of left.answers.items) (entry_among left.tables)) }
    ensures placed { IfOk result (λ left. All HasPlace left.answers.items) }
    ensures stripes { IfOk result (λ left. length left.tables ≡ length tables) }
    ensures kept { IfErr result (λ e. e ≡ tables) }
{
    let settings = server.settings;
    if settings.workers == 0 {
        return run_alone(server.alloc, tables, calls, server.loader);
    }
    let workers = workers_for(steps, settings.workers, settings.share);
    let round = PoolRound {
        registry: server.registry,
        calls,
        gate: server.gate,
        loader: server.loader,
    };
    match run_by_workers(server.rt, server.alloc, tables, workers, &round, workspaces) {
        Ok(workers::RoundLeft { tables, answers }) => Ok(RoundLeft { tables, answers }),
        Err(tables) => Err(tables),
    }
}
