//! The run of a round, from tables to tables.

ghost use Rattle.std.specs.Prelude.{◌≡◌, ◌≤◌, length, map, replicate, IfOk, IfErr, None};
ghost use Rattle.stripe.specs.Seen.{call_of};
ghost use Rattle.stripe.specs.Stored.{entry_among};
ghost use Rattle.round_outcome.specs.Outcome.{IsDone, AreRefused};
ghost use Rattle.round_robin.specs.Scheduling.{stage, IsGoing, IsRoom};

use crate::scheduler::{Scheduler, SchedulerBuffers};
use jtypes::Loader;
use round_outcome::{what_a_world_hands_out_is_an_outcome, who_answers_an_outcome_is_done};
use std::alloc::{AllocError, Global};
use stripe::{Call, Reply, Tables};
use world::World;

/// The result of a round.
#[derive(Drop)]
pub struct TurnsLeft {
    /// The entries after the round.
    pub tables: Tables,
    /// The reply to each call, in the order of the calls, or none if the call was refused out of memory.
    pub replies: Vec<Option<Reply>>,
}

/// Allocates the buffers of a round.
fn room_for(alloc: Global, calls: usize, stripes: usize) -> Result<SchedulerBuffers, AllocError>
    ensures { IfOk result (λ r. IsRoom calls stripes r) }
{
    Ok(SchedulerBuffers {
        numbers: vec![in alloc; None; stripes]?,
        replies: vec![in alloc; None; calls]?,
    })
}

/// Runs these calls on one thread, without blocking. The calls start in order, each once no earlier call runs on the stripe of its key.
/// Calls on different stripes run interleaved, one instruction at a time.
/// An error is out of memory before the first call, and returns the tables unchanged.
pub fn run_in_turns<'a, L: Loader>(
    alloc: Global,
    tables: Tables,
    calls: &[Call<'a>],
    loader: &L,
) -> Result<TurnsLeft, Tables>
    requires calls { length calls.now ≤ 4096 }
    ensures done { IfOk result (λ left. IsDone L.ASKS (L.gives loader.now) (entry_among tables) (map call_of calls.now) left.replies.items (entry_among left.tables)) }
    ensures refused { IfOk result (λ left. AreRefused L.ASKS (map call_of calls.now) left.replies.items) }
    ensures stripes { IfOk result (λ left. length left.tables ≡ length tables) }
    ensures kept { IfErr result (λ e. e ≡ tables) }
{
    what_a_world_hands_out_is_an_outcome(loader);
    who_answers_an_outcome_is_done(loader);
    let Ok(room) = room_for(alloc, calls.len(), tables.stripes()) else {
        return Err(tables);
    };
    let records = if calls.is_empty() { 1 } else { calls.len() };
    match World::new(alloc, tables, records, loader) {
        Ok(world) => {
            let mut course = Scheduler::new(calls, world, room);
            course.run();
            let (world, replies) = course.end();
            world.is_legal();
            let (tables, _records) = world.close();
            Ok(TurnsLeft { tables, replies })
        }
        Err((_, tables)) => Err(tables),
    }
}
