//! The workers of a round.

ghost use Rattle.std.specs.Prelude.{◌≡◌, ◌<◌, ◌≤◌, ◌++◌, ℕ, List, length, vec_capacity, IsTrue, IsFalse};
ghost use mathlib.Core.Option.{some};
ghost use lib.ListN.{get_elem?};
ghost use Rattle.stripe.specs.Seen.{call_of as seen_call};
ghost use Rattle.invokeall.specs.declared.worker.Worker.{Worker};
ghost use Rattle.invokeall.specs.Jobs.{all_seen};
ghost use Rattle.invokeall.specs.Groups.{AreGroups, AreDifferent, groups_in, members};
ghost use Rattle.invokeall.specs.Workers.{IsReady, HasAnswered, HasWorked, numbers};

use crate::job::JobReply;
use crate::round_task::RoundTask;
use crate::threads::WorkerTask;
use cache::{Gate, Seat};
use claims::Claimer;
use jtypes::Loader;
use machine::Workspace;
use std::sync::Wait;
use std::time::Duration;
use stripe::Call;

/// Unused padding, as long as two cache lines of 64 bytes. It prevents false sharing between the data before it and the data after it.
#[derive(Drop)]
pub struct CacheLinePad {
    words: [u64; 16],
}

impl CacheLinePad {
    pub fn new() -> CacheLinePad {
        CacheLinePad { words: [0; 16] }
    }
}

/// A worker of a round: its seat, its workspace, its claimer, and the answers to its calls, each with the number of the call.
/// Workers are adjacent in memory and each writes its fields at each call, so it has padding at both ends.
#[derive(Drop)]
pub struct Worker<'a> {
    pub before: CacheLinePad,
    pub seat: Seat<'a>,
    pub workspace: Workspace,
    pub claimer: Claimer,
    pub answers: Vec<(usize, JobReply)>,
    pub behind: CacheLinePad,
}

impl<'s, 'a, 'l, R: Wait, G: Gate, L: Loader> WorkerTask<Worker<'a>>
    for RoundTask<'s, 'a, 'l, R, G, L> {
    ghost use Rattle.std.specs.Prelude.{◌≡◌, ◌≤◌, length};
    ghost use Rattle.invokeall.specs.Jobs.{all_seen};
    ghost use Rattle.invokeall.specs.Groups.{AreGroups};
    ghost use Rattle.invokeall.specs.Workers.{IsReady, HasWorked};

    ghost accepts = { λ s w. IsReady s.cache.now s.counter.now (length (all_seen s.calls.now)) w × (s.counter.now.jobs ≡ length s.groups.now.firsts.items) × (s.counter.now.jobs ≤ 64) × AreGroups (all_seen s.calls.now) s.groups.now };

    ghost leaves = { λ s v w. HasWorked L.ASKS s.cache.now s.counter.now s.groups.now (all_seen s.calls.now) v w };

    fn serve(&self, worker: &mut Worker<'a>) {
        work(self, worker)
    }
}

/// The most milliseconds that a worker sleeps for the stripe of a deferred group, before it tries the next deferred group.
const PATIENCE: u64 = 1;

/// Claims groups and makes their calls, until no group is left.
/// A group whose stripe another worker holds is deferred until all groups are claimed.
/// So a worker waits for a stripe only after it has found no group left to claim.
pub fn work<'a, R: Wait, G: Gate, L: Loader>(
    task: &RoundTask<'_, 'a, '_, R, G, L>,
    worker: &mut Worker<'a>,
)
    requires counter { task.now.counter.now.jobs ≡ length task.now.groups.now.firsts.items }
    requires few { task.now.counter.now.jobs ≤ 64 }
    requires groups { AreGroups (all_seen task.now.calls.now) task.now.groups.now }
    requires ready { IsReady task.now.cache.now task.now.counter.now (length (all_seen task.now.calls.now)) worker.old }
    ensures { HasWorked L.ASKS task.now.cache.now task.now.counter.now task.now.groups.now (all_seen task.now.calls.now) worker.old worker.new }
{
    let mut later = [false; 64];
    while let Some(group) = worker.claimer.claim(task.counter) {
        later[group] = !work_within(task, group, worker, Duration::ZERO);
    }
    let patience = Duration::from_millis(PATIENCE);
    for _ in task.rt.forever() {
        let mut is_done = true;
        for put_off in 0..task.groups.firsts.len() {
            if later[put_off] {
                later[put_off] = !work_within(task, put_off, worker, patience);
                is_done = is_done && !later[put_off];
            }
        }
        if is_done {
            return;
        }
    }
    unreachable!()
}

/// Makes the calls of one group, if it can lock its stripe within `patience`, and returns whether it did.
/// An empty group needs no lock.
#[inline(always)]
fn work_within<'a, R: Wait, G: Gate, L: Loader>(
    task: &RoundTask<'_, 'a, '_, R, G, L>,
    group: usize,
    worker: &mut Worker<'a>,
    patience: Duration,
) -> bool
    requires group { group < length task.now.groups.now.firsts.items }
    requires groups { AreGroups (all_seen task.now.calls.now) task.now.groups.now }
    requires home { worker.old.seat.table ≡ task.now.cache.now.table }
    requires free { AreDifferent (length (all_seen task.now.calls.now)) (numbers worker.old.answers.items ++ members (groups_in task.now.groups.now (all_seen task.now.calls.now)) group (length (all_seen task.now.calls.now))) }
    requires room { length (all_seen task.now.calls.now) ≤ vec_capacity worker.old.answers }
    ensures claimer { worker.new.claimer ≡ worker.old.claimer }
    ensures made { IsTrue result → (v : Worker) (before : List ℕ) → HasAnswered L.ASKS task.now.cache.now (all_seen task.now.calls.now) v worker.old before → HasAnswered L.ASKS task.now.cache.now (all_seen task.now.calls.now) v worker.new (before ++ members (groups_in task.now.groups.now (all_seen task.now.calls.now)) group (length (all_seen task.now.calls.now))) }
    ensures put_off { IsFalse result → (v : Worker) (before : List ℕ) → HasAnswered L.ASKS task.now.cache.now (all_seen task.now.calls.now) v worker.old before → HasAnswered L.ASKS task.now.cache.now (all_seen task.now.calls.now) v worker.new before }
{
    let RoundTask {
        rt,
        cache,
        groups,
        calls,
        ..
    } = *task;
    let first = groups.first(group);
    if first < calls.len() {
        let key = calls[first].key();
        if !cache.hold_within(rt, &mut worker.seat, key, patience) {
            return false;
        }
    }
    work_on(task, group, worker);
    true
}

/// Makes the calls of one group, in order.
/// The stripe is unlocked after the last call. Then the end of each call is reported to the gate.
#[inline(always)]
fn work_on<'a, R: Wait, G: Gate, L: Loader>(
    task: &RoundTask<'_, 'a, '_, R, G, L>,
    group: usize,
    worker: &mut Worker<'a>,
)
    requires group { group < length task.now.groups.now.firsts.items }
    requires groups { AreGroups (all_seen task.now.calls.now) task.now.groups.now }
    requires home { worker.old.seat.table ≡ task.now.cache.now.table }
    requires free { AreDifferent (length (all_seen task.now.calls.now)) (numbers worker.old.answers.items ++ members (groups_in task.now.groups.now (all_seen task.now.calls.now)) group (length (all_seen task.now.calls.now))) }
    requires room { length (all_seen task.now.calls.now) ≤ vec_capacity worker.old.answers }
    ensures claimer { worker.new.claimer ≡ worker.old.claimer }
    ensures answered { (v : Worker) (before : List ℕ) → HasAnswered L.ASKS task.now.cache.now (all_seen task.now.calls.now) v worker.old before → HasAnswered L.ASKS task.now.cache.now (all_seen task.now.calls.now) v worker.new (before ++ members (groups_in task.now.groups.now (all_seen task.now.calls.now)) group (length (all_seen task.now.calls.now))) }
{
    let RoundTask {
        rt,
        cache,
        groups,
        calls,
        gate,
        ..
    } = *task;
    let before = worker.answers.len();
    let mut number = groups.first(group);
    while number < calls.len() {
        let Worker {
            seat,
            workspace,
            ..
        } = worker;
        let call = call_numbered(calls, number);
        let answer = cache.call_at(rt, seat, workspace, call, number, gate);
        worker.answers.push_reserved((number, answer));
        number = groups.next(number);
    }
    cache.leave(&mut worker.seat);
    report_answered(gate, worker.answers.as_slice(), before);
}

/// Reports the ends of the calls of all answers after the first `before` to the gate. Their stripe is unlocked.
fn report_answered<G: Gate>(gate: &G, answers: &[(usize, JobReply)], before: usize) {
    for (number, _) in answers.iter().skip(before) {
        gate.answered(*number);
    }
}

/// Returns the call of this number.
pub fn call_numbered<'a>(calls: &[Call<'a>], number: usize) -> Call<'a>
    requires { number < length calls.now }
    ensures { get_elem? (all_seen calls.now) number ≡ some (seen_call result) }
{
    calls[number]
}
