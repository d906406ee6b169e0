//! The buffers of a round, which move to the workers and back.

ghost use Rattle.std.specs.Prelude.{◌≡◌, length, IfOk};
ghost use Rattle.std.specs.List.{All};
ghost use Rattle.stripe.specs.Tables.{IsCount};
ghost use Rattle.claims.specs.Counters.{IsJobCount, IsWorkerCount};
ghost use Rattle.invokeall.specs.Buffers.{put_all, entries_of, seats_of, claimers_of, rows_of, HasRoom, CanHold};

use crate::groups::{Groups, groups_for, no_groups};
use crate::job::JobReply;
use crate::worker::{CacheLinePad, Worker};
use cache::{InvokeRefusal, Seat};
use claims::{Claimer, Counter, open};
use machine::Workspace;
use std::alloc::{AllocError, Global};

/// A list of answers, each with the number of its job.
pub type Row = Vec<(usize, JobReply)>;

/// The buffers of a round, which are allocated before the first claim.
#[derive(Drop)]
pub struct RoundBuffers<'a> {
    pub counter: Counter,
    pub groups: Groups,
    pub claimers: Vec<Claimer>,
    pub lists: Vec<Row>,
    pub workers: Vec<Worker<'a>>,
    pub rows: Vec<Row>,
    pub seats: Vec<Seat<'a>>,
    pub workspaces: Vec<Workspace>,
    pub spent: Vec<Claimer>,
    /// The answer to each call, at the call's number. Until there is one, it is the refusal `NoMemory`.
    pub answers: Vec<JobReply>,
}

/// Allocates the buffers of a round of `jobs` jobs by `count` workers, on a cache of `stripes` stripes. `run_in` uses them.
pub fn buffers_for<'a>(
    alloc: Global,
    jobs: usize,
    stripes: usize,
    count: usize,
) -> Result<RoundBuffers<'a>, AllocError>
    requires jobs { IsJobCount jobs }
    requires stripes { IsCount stripes }
    requires workers { IsWorkerCount count }
    ensures { IfOk result (CanHold jobs count) }
{
    let many = groups_for(stripes, count);
    let groups = no_groups(alloc, jobs, many)?;
    let lists = empty_rows(alloc, jobs, count)?;
    let workers = Vec::with_capacity(alloc, count)?;
    let rows = Vec::with_capacity(alloc, count)?;
    let seats = Vec::with_capacity(alloc, count)?;
    let workspaces = Vec::with_capacity(alloc, count)?;
    let spent = Vec::with_capacity(alloc, count)?;
    let answers = vec![in alloc; Err(InvokeRefusal::NoMemory); jobs]?;
    let (counter, claimers) = open(alloc, many, count)?;
    Ok(RoundBuffers {
        counter,
        groups,
        claimers,
        lists,
        workers,
        rows,
        seats,
        workspaces,
        spent,
        answers,
    })
}

/// Returns an empty list for each worker, with capacity for the answers to all jobs.
fn empty_rows(alloc: Global, jobs: usize, count: usize) -> Result<Vec<Row>, AllocError>
    ensures { IfOk result (λ v. (length v.items ≡ count) × All (HasRoom jobs) v.items) }
{
    let mut rows = Vec::new(alloc);
    for _ in 0..count {
        let row = Vec::with_capacity(alloc, jobs)?;
        rows.push(row)?;
    }
    Ok(rows)
}

/// Pushes a worker for each seat, in order.
pub fn make_workers<'a>(
    seats: Vec<Seat<'a>>,
    mut workspaces: Vec<Workspace>,
    mut claimers: Vec<Claimer>,
    mut lists: Vec<Row>,
    workers: &mut Vec<Worker<'a>>,
)
    requires workspaces { length workspaces.items ≡ length seats.items }
    requires claimers { length claimers.items ≡ length seats.items }
    requires lists { length lists.items ≡ length seats.items }
    requires room { HasRoom (length seats.items) workers.old }
    ensures seats { seats_of workers.new.items ≡ seats.entry.items }
    ensures claimers { claimers_of workers.new.items ≡ claimers.items }
    ensures lists { rows_of workers.new.items ≡ lists.items }
{
    for seat in seats {
        workers.push_reserved(Worker {
            before: CacheLinePad::new(),
            seat,
            workspace: workspaces.remove(0),
            claimer: claimers.remove(0),
            answers: lists.remove(0),
            behind: CacheLinePad::new(),
        });
    }
}

/// Moves the seats, the workspaces, the claimers and the answers of the workers to these lists, in order.
pub fn into_parts<'a>(
    workers: Vec<Worker<'a>>,
    seats: &mut Vec<Seat<'a>>,
    workspaces: &mut Vec<Workspace>,
    claimers: &mut Vec<Claimer>,
    rows: &mut Vec<Row>,
)
    requires seats { HasRoom (length workers.items) seats.old }
    requires workspaces { HasRoom (length workers.items) workspaces.old }
    requires claimers { HasRoom (length workers.items) claimers.old }
    requires rows { HasRoom (length workers.items) rows.old }
    ensures seats { seats.new.items ≡ seats_of workers.entry.items }
    ensures workspaces { length workspaces.new.items ≡ length workers.entry.items }
    ensures claimers { claimers.new.items ≡ claimers_of workers.entry.items }
    ensures rows { rows.new.items ≡ rows_of workers.entry.items }
{
    for worker in workers {
        let Worker {
            seat,
            workspace,
            claimer,
            answers,
            ..
        } = worker;
        seats.push_reserved(seat);
        workspaces.push_reserved(workspace);
        claimers.push_reserved(claimer);
        rows.push_reserved(answers);
    }
}

/// Writes each answer of all lists to the index of its job.
pub fn collect(rows: Vec<Row>, answers: &mut [JobReply])
    ensures { answers.new ≡ put_all answers.old (entries_of rows.items) }
{
    for row in rows {
        put(row.as_slice(), answers);
    }
}

fn put(row: &[(usize, JobReply)], answers: &mut [JobReply])
    ensures { answers.new ≡ put_all answers.old row.now }
{
    for (number, answer) in row {
        if *number < answers.len() {
            answers[*number] = *answer;
        }
    }
}
