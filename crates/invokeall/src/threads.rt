//! The run of workers on several threads.

ghost use Rattle.std.specs.Prelude.{◌≡◌, ◌<◌, ℕ, length, slice_index_or};
ghost use Rattle.std.specs.List.{All};
ghost use denote.Param.Send.{IsSync, IsSend};
ghost use Rattle.invokeall.specs.Tasks.{AreServed};

use std::thread::{Threads, join_mut};

/// The task of each worker, on whichever thread it runs.
pub trait WorkerTask<W> {
    ghost accepts: { Self → W → Type 0 };

    ghost leaves: { Self → W → W → Type 0 };

    fn serve(&self, worker: &mut W)
        requires { accepts self.now worker.old }
        ensures { leaves self.now worker.old worker.new };
}

/// Runs the task for each worker, one after the other, on the current thread.
fn run_in_sequence<W, S: WorkerTask<W>>(task: &S, workers: &mut [W])
    requires { All (S.accepts task.now) workers.old }
    ensures { AreServed (S.leaves task.now) workers.old workers.new }
{
    for i in 0..workers.len() {
        task.serve(&mut workers[i]);
    }
}

/// Runs the task for each worker, on at most `threads` threads.
/// A single thread is the caller's.
/// Several are all new threads, for which the caller waits. If the caller ran a worker itself, the first thread that it starts might wait
/// for the caller's processor while other processors are idle.
pub fn run_on_threads<R: Threads + Sync, W: Send, S: WorkerTask<W> + Sync>(
    rt: &R,
    task: &S,
    threads: usize,
    workers: &mut [W],
)
    requires ready { All (S.accepts task.now) workers.old }
    ensures { AreServed (S.leaves task.now) workers.old workers.new }
{
    if threads < 2 || workers.len() < 2 {
        run_in_sequence(task, workers);
    } else {
        run_on_thread(rt, task, threads, workers);
    }
}

/// Runs the task for each worker, on at most `threads` new threads. The last thread runs all remaining workers.
#[cycle(serving)]
fn run_on_thread<R: Threads + Sync, W: Send, S: WorkerTask<W> + Sync>(
    rt: &R,
    task: &S,
    threads: usize,
    workers: &mut [W],
)
    requires some_thread { 0 < threads }
    requires some_worker { 0 < length workers.old }
    requires ready { All (S.accepts task.now) workers.old }
    ensures { AreServed (S.leaves task.now) workers.old workers.new }
{
    if threads == 1 || workers.len() < 2 {
        spawn_rest(rt, task, workers);
        return;
    }
    let (first, others) = workers.split_at_mut(1);
    spawn_first(rt, task, threads - 1, first, others);
}

/// Runs the task for each worker, one after the other, on one new thread.
fn spawn_rest<R: Threads + Sync, W: Send, S: WorkerTask<W> + Sync>(
    rt: &R,
    task: &S,
    workers: &mut [W],
)
    requires ready { All (S.accepts task.now) workers.old }
    ensures { AreServed (S.leaves task.now) workers.old workers.new }
{
    let mut all = ||
        requires { IsSync S.row × IsSend W.row × All (S.accepts task.now) workers.now }
        ensures { AreServed (S.leaves task.entry.now) workers.entry.now workers.exit.now }
    { run_in_sequence(task, workers) };
    let mut nothing = || {};
    join_mut(rt, &mut all, &mut nothing);
}

/// Runs the task for the first worker on a new thread, and for `others` on at most `threads` further threads.
#[cycle(serving)]
fn spawn_first<R: Threads + Sync, W: Send, S: WorkerTask<W> + Sync>(
    rt: &R,
    task: &S,
    threads: usize,
    first: &mut [W],
    others: &mut [W],
)
    requires some_thread { 0 < threads }
    requires some_worker { 0 < length others.old }
    requires first { All (S.accepts task.now) first.old }
    requires others { All (S.accepts task.now) others.old }
    ensures first { AreServed (S.leaves task.now) first.old first.new }
    ensures others { AreServed (S.leaves task.now) others.old others.new }
{
    let mut one = ||
        requires { IsSync S.row × IsSend W.row × All (S.accepts task.now) first.now }
        ensures { AreServed (S.leaves task.entry.now) first.entry.now first.exit.now }
    { run_in_sequence(task, first) };
    let mut rest = ||
        requires { IsSync R.row × IsSync S.row × IsSend W.row × (0 < threads) × (0 < length others.now) × All (S.accepts task.now) others.now }
        ensures { AreServed (S.leaves task.entry.now) others.entry.now others.exit.now }
    { run_on_thread(rt, task, threads, others) };
    join_mut(rt, &mut one, &mut rest);
}
