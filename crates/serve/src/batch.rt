//! The plan of a round: the work of each request, and the calls of its jobs.

ghost use Rattle.std.specs.Prelude.{◌≡◌, ◌<◌, ◌≤◌, ◌++◌, ◌∷◌, [], length, OnOk, IfOk};
ghost use Rattle.stripe.specs.History.{Invoke, Get, Put, Remove, Contains};
ghost use Rattle.stripe.specs.Rows.{arguments};
ghost use Rattle.stripe.specs.Seen.{call_of as seen_call};
ghost use Rattle.invokeall.specs.Collected.{different, invocations};
ghost use Rattle.invokeall.specs.Jobs.{all_seen};
ghost use Rattle.serve.specs.Rounds.{Job, part, one, each, most_jobs};
ghost use Rattle.serve.specs.Kept.{Grows, calls_of};

use crate::keys::Keys;
use bumpalo::Bump;
use indexmap::IndexSet;
use jtypes::{Arg, Refusal};
use std::alloc::{AllocError, Global};
use stripe::{ArgSlice, Call};
use verify::Verified;
use wire::Denial;
use workers::{CALL_COST, cost_of};

/// The maximum number of jobs of a round.
pub const MOST_JOBS: usize = 4096;

/// How a request is answered: with a known reply, or from the answers to its jobs.
#[derive(Clone, Copy)]
pub enum Work<'r> {
    Defined { class: u32, steps: u32, words: u32 },
    Refused(Refusal),
    Denied(Denial),
    /// The number of the protocol.
    Version,
    /// A class was forgotten.
    Forgotten,
    /// The answer to the job with this index.
    Job(u32),
    /// The answers to the jobs from this index on, one for each of the keys.
    JobForEach(u32, Keys<'r>),
}

/// The work of each request of a round, and the calls of its jobs. The arguments of the calls are in the round's arena.
#[derive(Drop)]
pub struct Batch<'r> {
    pub works: Vec<Work<'r>>,
    pub calls: Vec<Call<'r>>,
    /// The estimated cost of the calls in instructions, saturated at `u64::MAX`.
    pub steps: u64,
}

/// The capacity to preallocate for a round, in requests and calls: the size of the previous round.
#[derive(Clone, Copy)]
pub struct Room {
    pub works: usize,
    pub calls: usize,
}

/// Returns an empty vector of capacity `room`, or without capacity if there is no memory for it.
pub fn no_items<T>(alloc: Global, room: usize) -> Vec<T>
    ensures { result.items ≡ [] }
{
    match Vec::with_capacity(alloc, room) {
        Ok(items) => items,
        Err(AllocError) => Vec::new(alloc),
    }
}

/// Returns a plan without requests, with this capacity preallocated if there is memory for it.
pub fn no_requests<'r>(alloc: Global, room: Room) -> Batch<'r>
    ensures works { result.works.items ≡ [] }
    ensures calls { result.calls.items ≡ [] }
{
    Batch {
        works: no_items(alloc, room.works),
        calls: no_items(alloc, room.calls),
        steps: 0,
    }
}

/// Returns the capacity that these requests and calls need.
pub fn room_of(plan: &Batch<'_>) -> Room {
    Room {
        works: plan.works.len(),
        calls: plan.calls.len(),
    }
}

pub fn get<'r>(key: &i64) -> Call<'r>
    ensures { seen_call result ≡ Get key.now }
{
    Call::Get { key: *key }
}

pub fn put<'r>(key: &i64, value: &i64) -> Call<'r>
    ensures { seen_call result ≡ Put key.now value.now }
{
    Call::Put {
        key: *key,
        value: *value,
    }
}

pub fn remove<'r>(key: &i64) -> Call<'r>
    ensures { seen_call result ≡ Remove key.now }
{
    Call::Remove { key: *key }
}

pub fn contains<'r>(key: &i64) -> Call<'r>
    ensures { seen_call result ≡ Contains key.now }
{
    Call::Contains { key: *key }
}

/// Adds the work of a request. The calls are unchanged.
pub fn tell<'r>(plan: &mut Batch<'r>, work: Work<'r>) -> Result<(), AllocError>
    ensures works { OnOk result (plan.new.works.items ≡ plan.old.works.items ++ work.entry ∷ []) }
    ensures calls { plan.new.calls ≡ plan.old.calls }
{
    plan.works.push(work)?;
    Ok(())
}

/// Adds the cost of `calls` calls of `steps` instructions each.
fn add_cost(plan: &mut Batch<'_>, steps: u64, calls: usize)
    ensures works { plan.new.works ≡ plan.old.works }
    ensures calls { plan.new.calls ≡ plan.old.calls }
{
    let more = steps.saturating_mul(calls as u64);
    plan.steps = plan.steps.saturating_add(more);
}

/// Adds a request with this job, of an estimated cost of `steps` instructions.
fn add_job<'r>(plan: &mut Batch<'r>, call: Call<'r>, steps: u64) -> Result<(), AllocError>
    requires { length plan.old.calls.items < most_jobs }
    ensures { OnOk result (Grows plan.old plan.new (part (Job (length (calls_of plan.old))) (seen_call call.entry ∷ []))) }
{
    let at = plan.calls.len();
    plan.calls.push(call)?;
    add_cost(plan, steps, 1);
    tell(plan, Work::Job(at as u32))
}

/// Adds a request with this job, which runs no class. It is denied with `TooManyJobs` if the round is full.
pub fn push_call<'r>(plan: &mut Batch<'r>, call: Call<'r>) -> Result<(), AllocError>
    ensures { OnOk result (Grows plan.old plan.new (one (length (calls_of plan.old)) (seen_call call.entry))) }
{
    let at = plan.calls.len();
    if at >= MOST_JOBS {
        return tell(plan, Work::Denied(Denial::TooManyJobs));
    }
    add_job(plan, call, CALL_COST)
}

/// Copies the arguments into the arena.
fn keep<'r>(arena: &'r Bump, args: &[Arg]) -> Result<ArgSlice<'r>, AllocError>
    requires { length args.now ≤ 8 }
    ensures { IfOk result (λ kept. arguments kept ≡ args.now) }
{
    if args.is_empty() {
        return Ok(ArgSlice::none());
    }
    let items = arena.try_alloc_slice_copy(args)?;
    Ok(ArgSlice { items })
}

/// Returns the call that invokes a class on a key.
fn invocation<'r>(class: &'r Verified, key: &i64, args: ArgSlice<'r>) -> Call<'r>
    ensures { seen_call result ≡ Invoke class.now key.now (arguments args.entry) }
{
    Call::Invoke {
        class,
        key: *key,
        args,
    }
}

/// Adds a request that invokes a class on a key. It is denied with `TooManyJobs` if the round is full.
#[inline(always)]
pub fn one_invocation<'r>(
    arena: &'r Bump,
    plan: &mut Batch<'r>,
    class: &'r Verified,
    key: &i64,
    args: &[Arg],
) -> Result<(), AllocError>
    requires { length args.now ≤ 8 }
    ensures { OnOk result (Grows plan.old plan.new (one (length (calls_of plan.old)) (Invoke class.now key.now args.now))) }
{
    let at = plan.calls.len();
    if at >= MOST_JOBS {
        return tell(plan, Work::Denied(Denial::TooManyJobs));
    }
    let kept = keep(arena, args)?;
    add_job(plan, invocation(class, key, kept), cost_of(class))
}

/// Adds a request that invokes a class on each of these keys once, duplicates dropped.
/// It is denied with `TooManyJobs` if the round has no capacity for all of them.
pub fn many_jobs<'r>(
    alloc: Global,
    arena: &'r Bump,
    plan: &mut Batch<'r>,
    class: &'r Verified,
    keys: &[i64],
    args: &[Arg],
) -> Result<(), AllocError>
    requires { length args.now ≤ 8 }
    ensures { OnOk result (Grows plan.old plan.new (each (length (calls_of plan.old)) (different keys.now) args.now class.now)) }
{
    let set = once_each(alloc, keys)?;
    let at = plan.calls.len();
    if at > MOST_JOBS || set.len() > MOST_JOBS - at {
        return tell(plan, Work::Denied(Denial::TooManyJobs));
    }
    let items = arena.try_alloc_slice_copy(set.as_slice())?;
    let different = Keys { items };
    let kept = keep(arena, args)?;
    push_calls(&mut plan.calls, class, different.items, kept)?;
    add_cost(plan, cost_of(class), different.items.len());
    tell(plan, Work::JobForEach(at as u32, different))
}

fn push_calls<'r>(
    calls: &mut Vec<Call<'r>>,
    class: &'r Verified,
    keys: &[i64],
    args: ArgSlice<'r>,
) -> Result<(), AllocError>
    ensures { OnOk result (all_seen calls.new.items ≡ all_seen calls.old.items ++ invocations class.now (arguments args.entry) keys.now) }
{
    for key in keys {
        calls.push(invocation(class, key, args))?;
    }
    Ok(())
}

/// Returns the keys without duplicates, in the order of first occurrence.
fn once_each(alloc: Global, keys: &[i64]) -> Result<IndexSet<i64>, AllocError>
    ensures { IfOk result (λ set. set.keys ≡ different keys.now) }
{
    let mut set = IndexSet::new(alloc);
    for key in keys {
        if set.insert(*key).is_err() {
            return Err(AllocError);
        }
    }
    Ok(set)
}
