//! The cost model, which chooses the number of workers of a round.

ghost use Rattle.std.specs.Prelude.{◌≡◌, ◌<◌, ◌≤◌};
ghost use Rattle.workers.specs.Costs.{IsCost};

use verify::Verified;

/// The number of instructions that justifies a further worker. With less work, the start and the end of its thread cost more than it saves.
pub const STEPS_PER_WORKER: u32 = 524_288;

/// The estimated cost in instructions of a call without its class: to lock a stripe, find and store an entry, and write a record.
pub const CALL_COST: u64 = 192;

/// Returns the estimated maximum cost in instructions of an invocation of this class: `CALL_COST` plus the step bound of the class.
pub fn cost_of(class: &Verified) -> u64
    ensures { IsCost class.now result }
{
    CALL_COST + u64::from(class.bounds().steps)
}

/// Returns the number of workers for a round with an estimated cost of `steps` instructions: one for each `share`, from 1 to `most`.
/// It returns `most` if `share` is 0.
pub fn workers_for(steps: u64, most: usize, share: u32) -> usize
    requires { 0 < most }
    ensures some { 0 < result }
    ensures few { result ≤ most }
    ensures all { share ≡ 0 → result ≡ most }
{
    if share == 0 {
        return most;
    }
    match usize::try_from(steps / u64::from(share)) {
        Ok(0) => 1,
        Ok(shares) if shares < most => shares,
        _ => most,
    }
}
