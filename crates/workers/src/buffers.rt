//! The buffers of a round, which are allocated before its first job runs.

ghost use Rattle.std.specs.Prelude.{◌≡◌, length, IfOk};
ghost use Rattle.claims.specs.Counters.{IsJobCount};
ghost use Rattle.stripe.specs.Tables.{IsCount};
ghost use Rattle.cache.specs.Opened.{IsSeatCount};
ghost use Rattle.workers.specs.Buffers.{CanHold};

use invokeall::RoundBuffers;
use machine::Workspace;
use std::alloc::{AllocError, Global};

/// The workspaces that a round keeps for the next one. To allocate a workspace takes longer than a short call.
#[derive(Drop)]
pub struct WorkspacePool {
    pub workspaces: Vec<Workspace>,
}

impl WorkspacePool {
    /// Returns an empty pool.
    pub fn new(alloc: Global) -> WorkspacePool {
        WorkspacePool {
            workspaces: Vec::new(alloc),
        }
    }

    /// Returns a pool with a workspace for each of `workers` workers, or with fewer if it is out of memory.
    /// If it is allocated before all other long-lived data, its workspaces are adjacent in memory, and not between data of other workers.
    pub fn with_workspaces(alloc: Global, workers: usize) -> WorkspacePool {
        let mut kept = WorkspacePool::new(alloc);
        for _ in 0..workers {
            let Ok(workspace) = Workspace::new(alloc) else {
                return kept;
            };
            kept.keep(workspace);
        }
        kept
    }

    /// Adds a workspace to the pool, or drops it if it is out of memory.
    pub fn keep(&mut self, workspace: Workspace) {
        let _ = self.workspaces.push(workspace);
    }

    /// Adds these workspaces to the pool, as `keep` does.
    pub fn keep_all(&mut self, workspaces: Vec<Workspace>) {
        for workspace in workspaces {
            self.keep(workspace);
        }
    }

    /// Returns a workspace from the pool, or a new one if the pool is empty.
    pub fn workspace(&mut self, alloc: Global) -> Result<Workspace, AllocError> {
        match self.workspaces.pop() {
            Some(workspace) => Ok(workspace),
            None => Workspace::new(alloc),
        }
    }
}

/// The buffers of a round, without those of its cache.
#[derive(Drop)]
pub struct PoolBuffers<'a> {
    pub round: RoundBuffers<'a>,
    pub workspaces: Vec<Workspace>,
}

/// Allocates the buffers of a round of `jobs` jobs by `workers` workers, on a cache of `stripes` stripes.
/// The workspaces come from the pool, and are allocated once that is empty.
pub fn buffers_for<'a>(
    alloc: Global,
    jobs: usize,
    stripes: usize,
    workers: usize,
    kept: &mut WorkspacePool,
) -> Result<PoolBuffers<'a>, AllocError>
    requires jobs { IsJobCount jobs }
    requires stripes { IsCount stripes }
    requires workers { IsSeatCount workers }
    ensures { IfOk result (CanHold jobs workers) }
{
    let round = invokeall::buffers_for(alloc, jobs, stripes, workers)?;
    let workspaces = workspaces(alloc, workers, kept)?;
    Ok(PoolBuffers { round, workspaces })
}

/// Returns `count` workspaces, from the pool first.
fn workspaces(
    alloc: Global,
    count: usize,
    kept: &mut WorkspacePool,
) -> Result<Vec<Workspace>, AllocError>
    ensures { IfOk result (λ v. length v.items ≡ count) }
{
    let mut list = Vec::new(alloc);
    for _ in 0..count {
        list.push(kept.workspace(alloc)?)?;
    }
    Ok(list)
}
