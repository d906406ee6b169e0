//! The run of a round of jobs.

ghost use Rattle.std.specs.Prelude.{◌≡◌, ◌<◌, ◌≤◌, ℕ, length, slice_index_or, IfOk, OnErr, OnOk};
ghost use Rattle.std.specs.List.{All};
ghost use Rattle.claims.specs.Counters.{IsJobCount, IsWorkerCount};
ghost use Rattle.invokeall.specs.declared.worker.Worker.{Worker};
ghost use Rattle.invokeall.specs.Jobs.{IsCallable, calls_of, all_seen};
ghost use Rattle.invokeall.specs.Groups.{AreGroups};
ghost use Rattle.cache.specs.Opened.{HaveRoom};
ghost use Rattle.invokeall.specs.Rounds.{IsRound, IsAtHome, NeedMemory};
ghost use Rattle.invokeall.specs.Buffers.{CanHold};
ghost use Rattle.invokeall.specs.Workers.{IsReady, HasWorked};

use crate::buffers::{RoundBuffers, buffers_for, collect, into_parts, make_workers};
use crate::groups::Groups;
use crate::job::{Job, JobReply, calls_for};
use crate::round_task::{Round, RoundTask};
use crate::threads::run_on_threads;
use crate::worker::Worker;
use cache::{Cache, Gate, Seat};
use claims::Counter;
use jtypes::Loader;
use machine::Workspace;
use std::alloc::AllocError;
use std::mem;
use std::sync::Wait;
use std::thread::Threads;

/// Runs the jobs by one worker for each seat, each with a workspace. Returns the answers in the order of the jobs.
///
/// A group has all jobs whose keys belong to one stripe, or to one part of a stripe.
/// A worker claims one group after the other, and makes the calls of its jobs in order, until no group is left.
/// It defers a group whose stripe another worker holds until all groups are claimed.
/// There are as many threads as workers, jobs or stripes, whichever are fewest. A single one is the caller's. Several are new threads.
///
/// All buffers of the round itself are allocated before the first claim. The error is out of memory then, and no job has run.
/// Later a job may be refused by its answer. If each seat has the receipts of as many calls as jobs preallocated (`Seat::expect`), no job is
/// refused out of memory, unless it may create an entry.
pub fn run_round<'a, R: Threads + Wait + Sync + AllocGlobal, G: Gate + Sync, L: Loader + Sync>(
    rt: &R,
    cache: &Cache<'a, '_, L>,
    jobs: &[Job<'a>],
    seats: &mut Vec<Seat<'a>>,
    workspaces: &mut Vec<Workspace>,
    gate: &G,
) -> Result<Vec<JobReply>, AllocError>
    requires jobs { IsJobCount (length jobs.now) }
    requires seats { IsWorkerCount (length seats.old.items) }
    requires workspaces { length workspaces.old.items ≡ length seats.old.items }
    requires home { All (IsAtHome cache.now) seats.old.items }
    requires callable { All (IsCallable cache.now.registry) jobs.now }
    ensures ok { IfOk result (λ answers. IsRound cache.now (calls_of jobs.now) seats.old.items seats.new.items answers.items) }
    ensures memory { IfOk result (λ answers. HaveRoom (length (calls_of jobs.now)) seats.old.items → NeedMemory L.ASKS (calls_of jobs.now) answers.items) }
    ensures workspaces { OnOk result (length workspaces.new.items ≡ length workspaces.old.items) }
    ensures err { OnErr result ((seats.new.items ≡ seats.old.items) × (workspaces.new.items ≡ workspaces.old.items)) }
{
    let alloc = rt.alloc();
    let buffers = buffers_for(alloc, jobs.len(), cache.stripes(), seats.len())?;
    let calls = calls_for(alloc, cache.registry(), jobs)?;
    let round = Round {
        cache,
        calls: &calls,
        gate,
    };
    Ok(run_in(rt, &round, seats, workspaces, buffers))
}

/// Makes the calls of a round as `run_round` does, in preallocated buffers.
/// It allocates no buffers itself, so it returns no error. A call may be refused by its answer.
pub fn run_in<'a, R: Threads + Wait + Sync, G: Gate + Sync, L: Loader + Sync>(
    rt: &R,
    round: &Round<'_, 'a, '_, G, L>,
    seats: &mut Vec<Seat<'a>>,
    workspaces: &mut Vec<Workspace>,
    buffers: RoundBuffers<'a>,
) -> Vec<JobReply>
    requires some_seat { 0 < length seats.old.items }
    requires workspaces { length workspaces.old.items ≡ length seats.old.items }
    requires home { All (IsAtHome round.now.cache.now) seats.old.items }
    requires buffers { CanHold (length (all_seen round.now.calls.now)) (length seats.old.items) buffers }
    ensures round { IsRound round.now.cache.now (all_seen round.now.calls.now) seats.old.items seats.new.items result.items }
    ensures memory { HaveRoom (length (all_seen round.now.calls.now)) seats.old.items → NeedMemory L.ASKS (all_seen round.now.calls.now) result.items }
    ensures workspaces { length workspaces.new.items ≡ length workspaces.old.items }
{
    let calls = round.calls;
    let RoundBuffers {
        counter,
        groups,
        claimers,
        lists,
        mut workers,
        mut rows,
        seats: back,
        workspaces: spaces,
        mut spent,
        mut answers,
    } = buffers;
    let groups = groups.of(calls);
    let old = mem::replace(seats, back);
    let used = mem::replace(workspaces, spaces);
    make_workers(old, used, claimers, lists, &mut workers);
    run_all(rt, round, &counter, &groups, workers.as_mut_slice());
    into_parts(workers, seats, workspaces, &mut spent, &mut rows);
    counter.close(spent);
    collect(rows, answers.as_mut_slice());
    answers
}

/// Returns the number of threads: one for each worker, and at most the number of calls and of stripes.
fn threads_for(calls: usize, stripes: usize, workers: usize) -> usize {
    calls.min(stripes).min(workers)
}

/// Runs all workers.
fn run_all<'a, R: Threads + Wait + Sync, G: Gate + Sync, L: Loader + Sync>(
    rt: &R,
    round: &Round<'_, 'a, '_, G, L>,
    counter: &Counter,
    groups: &Groups,
    workers: &mut [Worker<'a>],
)
    requires counter { counter.now.jobs ≡ length groups.now.firsts.items }
    requires few { counter.now.jobs ≤ 64 }
    requires groups { AreGroups (all_seen round.now.calls.now) groups.now }
    requires ready { All (IsReady round.now.cache.now counter.now (length (all_seen round.now.calls.now))) workers.old }
    ensures { (i : ℕ) (d : Worker) → i < length workers.old → HasWorked L.ASKS round.now.cache.now counter.now groups.now (all_seen round.now.calls.now) (slice_index_or workers.old i d) (slice_index_or workers.new i d) }
{
    let Round { cache, calls, gate } = *round;
    let task = RoundTask {
        rt,
        cache,
        counter,
        groups,
        calls,
        gate,
    };
    let threads = threads_for(calls.len(), cache.stripes(), workers.len());
    run_on_threads(rt, &task, threads, workers);
}
