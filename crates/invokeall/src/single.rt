//! The run of a round by one worker.

ghost use Rattle.std.specs.Prelude.{◌≡◌, ◌≤◌, ◌∷◌, [], length};
ghost use Rattle.invokeall.specs.Jobs.{all_seen};
ghost use Rattle.invokeall.specs.Rounds.{IsRound, NeedMemory};
ghost use Rattle.invokeall.specs.Buffers.{HasRoom};

use crate::job::JobReply;
use crate::round_task::Round;
use crate::worker::call_numbered;
use cache::{Gate, Seat};
use jtypes::Loader;
use machine::Workspace;
use std::sync::Wait;

/// Makes the calls in order at one seat, and pushes their answers, for which there is capacity.
/// If the seat has their receipts preallocated (`Seat::expect`), no call is refused out of memory, unless it may create an entry.
/// It reports the ends of the calls to the gate after the last one, when the seat holds no stripe.
pub fn run_alone<'a, R: Wait, G: Gate, L: Loader>(
    rt: &R,
    round: &Round<'_, 'a, '_, G, L>,
    seat: &mut Seat<'a>,
    workspace: &mut Workspace,
    answers: &mut Vec<JobReply>,
)
    requires home { seat.old.table ≡ round.now.cache.now.table }
    requires room { HasRoom (length round.now.calls.now) answers.old }
    ensures round { IsRound round.now.cache.now (all_seen round.now.calls.now) (seat.old ∷ []) (seat.new ∷ []) answers.new.items }
    ensures memory { length (all_seen round.now.calls.now) ≤ seat.old.room → NeedMemory L.ASKS (all_seen round.now.calls.now) answers.new.items }
{
    let Round { cache, calls, gate } = *round;
    for number in 0..calls.len() {
        let call = call_numbered(calls, number);
        let answer = cache.call_at(rt, seat, workspace, call, number, gate);
        answers.push_reserved(answer);
    }
    cache.leave(seat);
    report_all(gate, calls.len());
}

/// Reports the ends of the first `count` calls to the gate. The seat holds no stripe.
fn report_all<G: Gate>(gate: &G, count: usize) {
    for number in 0..count {
        gate.answered(number);
    }
}
