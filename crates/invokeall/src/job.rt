//! The jobs of a round.

ghost use Rattle.std.specs.Prelude.{◌≡◌, length, IfOk};
ghost use Rattle.std.specs.List.{All};
ghost use Rattle.stripe.specs.Seen.{call_of as seen_call};
ghost use Rattle.invokeall.specs.Jobs.{call_of, calls_of, all_seen, IsCallable};

use cache::InvokeRefusal;
use registry::{ClassId, Registry};
use std::alloc::{AllocError, Global};
use stripe::{ArgSlice, Call, Reply};

/// A call for a worker of a round to make (JSR 107, `Cache`).
#[derive(Clone, Copy)]
pub enum Job<'a> {
    /// `invoke`, of the entry processor of this class.
    Invoke {
        class: &'a ClassId,
        key: i64,
        args: ArgSlice<'a>,
    },
    /// `get`
    Get {
        key: i64,
    },
    /// `put`
    Put {
        key: i64,
        value: i64,
    },
    /// `remove`
    Remove {
        key: i64,
    },
    /// `containsKey`
    Contains {
        key: i64,
    },
}

/// The answer to a job: the reply to its call, or the refusal of the cache.
pub type JobReply = Result<Reply, InvokeRefusal>;

/// Returns the call of a job, with its class looked up in the registry.
fn call_for<'a>(registry: &'a Registry, job: &Job<'a>) -> Call<'a>
    requires { IsCallable registry.now job.now }
    ensures { seen_call result ≡ call_of job.now }
{
    match job {
        Job::Invoke { class, key, args } => Call::Invoke {
            class: registry.class(class),
            key: *key,
            args: *args,
        },
        Job::Get { key } => Call::Get { key: *key },
        Job::Put { key, value } => Call::Put {
            key: *key,
            value: *value,
        },
        Job::Remove { key } => Call::Remove { key: *key },
        Job::Contains { key } => Call::Contains { key: *key },
    }
}

/// Returns the calls of the jobs, in order. The classes of the jobs are in this registry.
pub fn calls_for<'a>(
    alloc: Global,
    registry: &'a Registry,
    jobs: &[Job<'a>],
) -> Result<Vec<Call<'a>>, AllocError>
    requires { All (IsCallable registry.now) jobs.now }
    ensures calls { IfOk result (λ calls. all_seen calls.items ≡ calls_of jobs.now) }
    ensures count { IfOk result (λ calls. length calls.items ≡ length jobs.now) }
{
    let mut calls = Vec::with_capacity(alloc, jobs.len())?;
    for job in jobs {
        calls.push_reserved(call_for(registry, job));
    }
    Ok(calls)
}
