//! `invokeAll` (JSR 107, `Cache`).

ghost use Rattle.std.specs.Prelude.{◌≡◌, length, IfOk, OnErr, OnOk};
ghost use Rattle.std.specs.List.{All};
ghost use Rattle.registry.specs.Ids.{IsOf, class_of};
ghost use Rattle.claims.specs.Counters.{IsJobCount, IsWorkerCount};
ghost use Rattle.invokeall.specs.Jobs.{IsCallable, calls_of};
ghost use Rattle.invokeall.specs.Rounds.{IsAtHome};
ghost use Rattle.invokeall.specs.Buffers.{HasRoom};
ghost use Rattle.invokeall.specs.Collected.{IsInvokedAll, different, invocations, is_null as is_null_answer, listed};
ghost use Rattle.boxcar.specs.Table.{Shelves};
ghost use Rattle.stripe.specs.Rows.{arguments};

use crate::job::{Job, JobReply};
use crate::round::run_round;
use cache::{Cache, Gate, Seat};
use indexmap::IndexSet;
use jtypes::{Arg, Loader, Outcome};
use machine::Workspace;
use registry::ClassId;
use std::alloc::{AllocError, Global};
use std::sync::Wait;
use std::thread::Threads;
use stripe::{ArgSlice, Reply};

/// Returns the distinct keys, in the order of their first occurrences. The error is out of memory.
fn once_each(alloc: Global, keys: &[i64]) -> Result<IndexSet<i64>, AllocError>
    ensures { IfOk result (λ set. set.keys ≡ different keys.now) }
{
    let mut set = IndexSet::new(alloc);
    for key in keys {
        if set.insert(*key).is_err() {
            return Err(AllocError);
        }
    }
    Ok(set)
}

/// Returns an `Invoke` job for each key.
fn jobs_for<'j>(
    alloc: Global,
    class: &'j ClassId,
    keys: &[i64],
    args: ArgSlice<'j>,
) -> Result<Vec<Job<'j>>, AllocError>
    ensures calls { IfOk result (λ jobs. calls_of jobs.items ≡ invocations (class_of class.now) (arguments args.entry) keys.now) }
    ensures callable { (registry : Shelves) → IsOf registry class.now → IfOk result (λ jobs. All (IsCallable registry) jobs.items) }
{
    let mut jobs = Vec::with_capacity(alloc, keys.len())?;
    for key in keys {
        jobs.push_reserved(Job::Invoke {
            class,
            key: *key,
            args,
        });
    }
    Ok(jobs)
}

/// Returns whether the entry processor returned null.
fn is_null(answer: &JobReply) -> bool
    ensures { result ≡ is_null_answer answer.now }
{
    matches!(answer, Ok(Reply::Result(Outcome::Returned(Arg::Null))))
}

/// Returns a key with its answer.
fn entry(key: &i64, answer: &JobReply) -> (i64, JobReply)
    ensures { result ≡ (key.now, answer.now) }
{
    (*key, *answer)
}

/// Pushes each key with its answer to `results`, except the keys whose entry processor returned null.
fn list(keys: &[i64], answers: &[JobReply], results: &mut Vec<(i64, JobReply)>)
    requires count { length answers.now ≡ length keys.now }
    requires room { HasRoom (length keys.now) results.old }
    ensures { results.new.items ≡ listed keys.now answers.now }
{
    for i in 0..keys.len() {
        if !is_null(&answers[i]) {
            results.push_reserved(entry(&keys[i], &answers[i]));
        }
    }
}

/// Runs `invokeAll` as a round of one invocation for each distinct key. Returns the results in the order of the keys.
/// A key whose entry processor returned null has no result. A key whose entry processor threw has the exception (`EntryProcessorResult`),
/// and a key whose call was refused has the refusal.
/// The error is out of memory before the first call, and leaves the seats and the workspaces unchanged.
pub fn invoke_all<'a, R: Threads + Wait + Sync + AllocGlobal, G: Gate + Sync, L: Loader + Sync>(
    rt: &R,
    cache: &Cache<'a, '_, L>,
    class: &'a ClassId,
    keys: &[i64],
    args: ArgSlice<'a>,
    seats: &mut Vec<Seat<'a>>,
    workspaces: &mut Vec<Workspace>,
    gate: &G,
) -> Result<Vec<(i64, JobReply)>, AllocError>
    requires keys { IsJobCount (length keys.now) }
    requires seats { IsWorkerCount (length seats.old.items) }
    requires workspaces { length workspaces.old.items ≡ length seats.old.items }
    requires home { All (IsAtHome cache.now) seats.old.items }
    requires class { IsOf cache.now.registry class.now }
    ensures ok { IfOk result (λ results. IsInvokedAll cache.now (class_of class.now) keys.now (arguments args.entry) seats.old.items seats.new.items results.items) }
    ensures workspaces { OnOk result (length workspaces.new.items ≡ length workspaces.old.items) }
    ensures err { OnErr result ((seats.new.items ≡ seats.old.items) × (workspaces.new.items ≡ workspaces.old.items)) }
{
    let alloc = rt.alloc();
    let set = once_each(alloc, keys)?;
    let keys = set.as_slice();
    let mut results = Vec::with_capacity(alloc, keys.len())?;
    let jobs = jobs_for(alloc, class, keys, args)?;
    let answers = run_round(rt, cache, jobs.as_slice(), seats, workspaces, gate)?;
    list(keys, answers.as_slice(), &mut results);
    Ok(results)
}
