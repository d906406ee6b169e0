//! A job counter and its claimers, on one thread.

ghost use Rattle.claims.specs.Counters.{IsJobCount, IsWorkerCount, AreAll};

use claims::{Claimer, Counter, open};
use std::alloc::{AllocError, Global};
use std::test::Fail;

/// Accepts only what threads may share.
fn is_sync<T: Sync>(_: &T) {}

/// Accepts only what may be moved to another thread.
fn is_send<T: Send>(_: &T) {}

/// Claims a job number with the claimer at `index`.
fn claim(counter: &Counter, claimers: &mut Vec<Claimer>, index: usize) -> Option<usize>
    requires { AreAll counter.now claimers.old.items }
    ensures { AreAll counter.now claimers.new.items }
{
    let claimer = claimers.get_mut(index)?;
    claimer.claim(counter)
}

/// Returns what two claimers of a counter of `jobs` jobs claim in six alternate calls.
fn told(alloc: Global, jobs: usize) -> Result<[Option<usize>; 6], AllocError>
    requires { IsJobCount jobs }
{
    let (counter, mut claimers) = open(alloc, jobs, 2)?;
    let told = [
        claim(&counter, &mut claimers, 0),
        claim(&counter, &mut claimers, 1),
        claim(&counter, &mut claimers, 0),
        claim(&counter, &mut claimers, 1),
        claim(&counter, &mut claimers, 0),
        claim(&counter, &mut claimers, 1),
    ];
    counter.close(claimers);
    Ok(told)
}

/// Returns the number of claimers for `workers` workers. It compiles only if the counter is `Sync` and a claimer is `Send`.
fn opened(alloc: Global, workers: usize) -> Result<usize, AllocError>
    requires { IsWorkerCount workers }
{
    let (counter, claimers) = open(alloc, 4096, workers)?;
    is_sync(&counter);
    for claimer in &claimers {
        is_send(claimer);
    }
    let count = claimers.len();
    counter.close(claimers);
    Ok(count)
}

#[test]
fn each_number_is_given_once(rt: HostRuntime) -> Result<(), Fail> {
    let told = told(rt.alloc(), 3)?;
    assert_eq!(rt; told, [Some(0), Some(1), Some(2), None, None, None]);
    Ok(())
}

#[test]
fn without_jobs_none_is_given(rt: HostRuntime) -> Result<(), Fail> {
    let told = told(rt.alloc(), 0)?;
    assert_eq!(rt; told, [None; 6]);
    Ok(())
}

#[test]
fn each_worker_has_a_claimer(rt: HostRuntime) -> Result<(), Fail> {
    for workers in [1, 2, 16] {
        assert_eq!(rt; opened(rt.alloc(), workers)?, workers);
    }
    Ok(())
}
