//! Calls on absent keys with a loader (JSR 107, `CacheLoader`), on one thread and by workers.

ghost use Rattle.std.specs.Prelude.{true};
ghost use Rattle.std.specs.List.{All};
ghost use Rattle.boxcar.specs.Table.{Shelves};
ghost use Rattle.registry.specs.Ids.{IsOf};
ghost use Rattle.invokeall.specs.Jobs.{IsCallable};

use cache::NoGate;
use invokeall::{Job, JobReply, calls_for};
use jtypes::{Arg, Args, JavaFault, LoadFailed, Loader, Outcome};
use registry::{ClassId, Registry};
use round_robin::run_in_turns;
use rowclasses as rows;
use std::alloc::{AllocError, Global};
use std::sync::Wait;
use std::test::Fail;
use std::thread::Threads;
use stripe::{ArgSlice, Call, Reply, Tables};
use verify::Verified;
use workers::{PoolRound, WorkspacePool, run_by_workers};

/// A loader: key 7 has the value 41, key 9 has 0, key 13 fails, and any other key has no value.
struct Few;

impl Loader for Few {
    const ASKS: bool = true;

    ghost ASKS = { true };

    ghost gives = { λ _ _ _. Unit {0} };

    fn load(&self, key: i64) -> Result<Option<i64>, LoadFailed> {
        match key {
            7 => Ok(Some(41)),
            9 => Ok(Some(0)),
            13 => Err(LoadFailed),
            _ => Ok(None),
        }
    }
}

/// An invocation of a class on an absent key, its outcome, and the entry after it.
struct Row {
    class: &'static str,
    key: i64,
    args: &'static [Arg],
    outcome: Outcome,
    entry: Option<i64>,
}

static ROWS: [Row; 7] = [
    Row {
        class: "Plus",
        key: 7,
        args: &[],
        outcome: Outcome::Returned(Arg::Long(42)),
        entry: Some(42),
    },
    Row {
        class: "Plus",
        key: 8,
        args: &[],
        outcome: Outcome::Threw(JavaFault::NullPointer),
        entry: None,
    },
    Row {
        class: "Plus",
        key: 13,
        args: &[],
        outcome: Outcome::Threw(JavaFault::CacheLoader),
        entry: None,
    },
    Row {
        class: "Unbox",
        key: 7,
        args: &[],
        outcome: Outcome::Returned(Arg::Long(41)),
        entry: Some(41),
    },
    Row {
        class: "Counter",
        key: 7,
        args: &[Arg::Long(1)],
        outcome: Outcome::Returned(Arg::Long(1)),
        entry: Some(1),
    },
    Row {
        class: "SetRemove",
        key: 7,
        args: &[],
        outcome: Outcome::Returned(Arg::Long(2)),
        entry: None,
    },
    Row {
        class: "Ratio",
        key: 9,
        args: &[],
        outcome: Outcome::Threw(JavaFault::Arithmetic),
        entry: None,
    },
];

/// Returns the class file of the class with this name, empty if there is no such class.
fn bytes_of(alloc: Global, name: &str) -> Result<Vec<u8>, AllocError> {
    match name {
        "Plus" => rows::plus(alloc),
        "Unbox" => rows::unbox(alloc),
        "Counter" => rows::counter(alloc),
        _ => Ok(rows::class_named(alloc, name)?.unwrap_or(Vec::new(alloc))),
    }
}

/// Whether a round has the expected replies, and the entry of a key after it; `None` if the round is not run.
type Left = Option<(bool, Option<i64>)>;

/// Checks that the answers have these replies; `None` is a refusal.
fn have(answers: &[JobReply], replies: &[Option<Reply>]) -> bool {
    answers.len() == replies.len()
        && answers
            .iter()
            .zip(replies)
            .all(|(answer, reply)| (*answer).ok() == *reply)
}

/// Runs a round of these jobs by four workers.
fn by_workers<R: Threads + Wait + Sync>(
    rt: &R,
    alloc: Global,
    registry: &Registry,
    jobs: &[Job<'_>],
    replies: &[Option<Reply>],
    key: i64,
) -> Left
    requires { All (IsCallable registry.now) jobs.now }
{
    if jobs.len() > 4096 {
        return None;
    }
    match Tables::new(alloc, 2) {
        Ok(tables) => {
            let mut kept = WorkspacePool::new(alloc);
            let calls = calls_for(alloc, registry, jobs).ok()?;
            let round = PoolRound {
                registry,
                calls: &calls,
                gate: &NoGate,
                loader: &Few,
            };
            match run_by_workers(rt, alloc, tables, 4, &round, &mut kept) {
                Ok(left) => Some((have(&left.answers, replies), left.tables.entry(key))),
                Err(_) => None,
            }
        }
        Err(_) => None,
    }
}

/// Runs a round of these calls round-robin, on this thread.
fn by_turns(alloc: Global, calls: &[Call<'_>], replies: &[Option<Reply>], key: i64) -> Left {
    if calls.len() > 4096 {
        return None;
    }
    match Tables::new(alloc, 2) {
        Ok(tables) => match run_in_turns(alloc, tables, calls, &Few) {
            Ok(left) => Some((left.replies.as_slice() == replies, left.tables.entry(key))),
            Err(_) => None,
        },
        Err(_) => None,
    }
}

/// Returns one invocation as a job.
fn one_job<'j>(class: &'j ClassId, key: i64, args: &'j Args) -> [Job<'j>; 1]
    ensures { (registry : Shelves) → IsOf registry class.now → All (IsCallable registry) result }
{
    [Job::Invoke {
        class,
        key,
        args: ArgSlice::of(args),
    }]
}

/// Returns the same invocation as a call.
fn one_call<'a>(class: &'a Verified, key: i64, args: &'a Args) -> [Call<'a>; 1] {
    [Call::Invoke {
        class,
        key,
        args: ArgSlice::of(args),
    }]
}

/// Runs the invocation of a `Row` round-robin and by four workers.
fn row_by_each<R: Threads + Wait + Sync>(
    rt: &R,
    alloc: Global,
    registry: &Registry,
    class: &ClassId,
    row: &Row,
) -> Option<[Left; 2]>
    requires { IsOf registry.now class.now }
{
    let args = Args::of(row.args)?;
    let key = row.key;
    let replies = [Some(Reply::Result(row.outcome))];
    let calls = one_call(registry.class(class), key, &args);
    let jobs = one_job(class, key, &args);
    Some([
        by_turns(alloc, &calls, &replies, key),
        by_workers(rt, alloc, registry, &jobs, &replies, key),
    ])
}

/// Does the same in a new registry, which defines the class.
fn row_of_its_class<R: Threads + Wait + Sync>(
    rt: &R,
    alloc: Global,
    bytes: &[u8],
    row: &Row,
) -> Option<[Left; 2]> {
    match Registry::new(alloc) {
        Ok(registry) => match registry.define(rt, alloc, bytes) {
            Ok(class) => row_by_each(rt, alloc, &registry, &class, row),
            Err(_) => None,
        },
        Err(_) => None,
    }
}

#[test]
fn calls_on_absent_keys_are_loaded(rt: HostRuntime) -> Result<(), Fail> {
    let alloc = rt.alloc();
    for row in ROWS.iter() {
        let bytes = bytes_of(alloc, row.class)?;
        let left = Some((true, row.entry));
        assert_eq!(rt; row_of_its_class(&rt, alloc, &bytes, row), Some([left; 2]));
    }
    Ok(())
}

/// Returns jobs on different absent keys, none of them an invocation.
fn plain_jobs<'j>() -> [Job<'j>; 5]
    ensures { (registry : Shelves) → All (IsCallable registry) result }
{
    [
        Job::Get { key: 7 },
        Job::Get { key: 8 },
        Job::Get { key: 13 },
        Job::Contains { key: 9 },
        Job::Remove { key: -7 },
    ]
}

/// Makes the calls of `plain_jobs` round-robin and by four workers. Returns whether they have these replies, and the entry of key 7.
fn plainly<R: Threads + Wait + Sync>(
    rt: &R,
    alloc: Global,
    replies: &[Option<Reply>],
) -> Option<[Left; 2]> {
    let calls = [
        Call::Get { key: 7 },
        Call::Get { key: 8 },
        Call::Get { key: 13 },
        Call::Contains { key: 9 },
        Call::Remove { key: -7 },
    ];
    match Registry::new(alloc) {
        Ok(registry) => Some([
            by_turns(alloc, &calls, replies, 7),
            by_workers(rt, alloc, &registry, &plain_jobs(), replies, 7),
        ]),
        Err(_) => None,
    }
}

#[test]
fn a_get_asks_a_loader(rt: HostRuntime) -> Result<(), Fail> {
    let replies = [
        Some(Reply::Value(Some(41))),
        Some(Reply::Value(None)),
        Some(Reply::Result(Outcome::Threw(JavaFault::CacheLoader))),
        Some(Reply::Flag(false)),
        Some(Reply::Flag(false)),
    ];
    let left = Some((true, Some(41)));
    assert_eq!(rt; plainly(&rt, rt.alloc(), &replies), Some([left; 2]));
    Ok(())
}
