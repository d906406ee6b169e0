//! Adding requests to a round.

ghost use Rattle.std.specs.Prelude.{◌≢◌, ◌≤◌, length, OnOk};
ghost use Rattle.wire.specs.Requests.{with_args, Invoke, InvokeAll, RoundEnd};
ghost use Rattle.serve.specs.Kept.{AreOf, HasFew, classes_of, Adding};

use crate::batch::{
    Batch, Work, contains, get, many_jobs, one_invocation, push_call, put, remove, tell,
};
use crate::classes::{class_at, define, forget};
use crate::context::RoundSource;
use jtypes::Arg;
use registry::ClassId;
use std::alloc::AllocError;
use std::sync::Wait;
use wire::{Denial, Request};

/// Adds an invocation of the class with this number, on this key with these arguments, to the round.
/// It is denied with `UnknownClass` if no accepted class has the number.
#[inline(always)]
pub fn add_invoke<'r>(
    source: &RoundSource<'r>,
    ids: &[Option<ClassId>],
    plan: &mut Batch<'r>,
    class: usize,
    key: &i64,
    args: &[Arg],
) -> Result<(), AllocError>
    requires few { length args.now ≤ 8 }
    requires known { AreOf source.now.registry.now ids.now }
    ensures { OnOk result (Adding (classes_of ids.now) plan.old (Invoke class key.now args.now) plan.new (classes_of ids.now)) }
{
    match class_at(source.registry, ids, class) {
        Some(class) => one_invocation(source.arena, plan, class, key, args),
        None => tell(plan, Work::Denied(Denial::UnknownClass)),
    }
}

fn add_invoke_all<'r>(
    source: &RoundSource<'r>,
    ids: &[Option<ClassId>],
    plan: &mut Batch<'r>,
    class: usize,
    keys: &[i64],
    args: &[Arg],
) -> Result<(), AllocError>
    requires few { length args.now ≤ 8 }
    requires known { AreOf source.now.registry.now ids.now }
    ensures { OnOk result (Adding (classes_of ids.now) plan.old (InvokeAll class keys.now args.now) plan.new (classes_of ids.now)) }
{
    match class_at(source.registry, ids, class) {
        Some(class) => many_jobs(source.alloc, source.arena, plan, class, keys, args),
        None => tell(plan, Work::Denied(Denial::UnknownClass)),
    }
}

/// Adds a request other than `RoundEnd`, with these arguments, to the round.
pub fn add<'r, T: Wait>(
    rt: &T,
    source: &RoundSource<'r>,
    ids: &mut Vec<Option<ClassId>>,
    plan: &mut Batch<'r>,
    request: Request,
    args: &[Arg],
) -> Result<(), AllocError>
    requires known { AreOf source.now.registry.now ids.old.items }
    requires inside { with_args args.now request ≢ RoundEnd }
    requires few { HasFew (with_args args.now request) }
    ensures ok { OnOk result (Adding (classes_of ids.old.items) plan.old (with_args args.now request) plan.new (classes_of ids.new.items)) }
    ensures known { AreOf source.now.registry.now ids.new.items }
{
    add_behind(rt, source, ids, plan, &request, args)
}

fn add_behind<'r, T: Wait>(
    rt: &T,
    source: &RoundSource<'r>,
    ids: &mut Vec<Option<ClassId>>,
    plan: &mut Batch<'r>,
    request: &Request,
    args: &[Arg],
) -> Result<(), AllocError>
    requires known { AreOf source.now.registry.now ids.old.items }
    requires inside { with_args args.now request.now ≢ RoundEnd }
    requires few { HasFew (with_args args.now request.now) }
    ensures ok { OnOk result (Adding (classes_of ids.old.items) plan.old (with_args args.now request.now) plan.new (classes_of ids.new.items)) }
    ensures known { AreOf source.now.registry.now ids.new.items }
{
    match request {
        Request::Define(bytes) => {
            let work = define(rt, source.alloc, source.registry, ids, bytes.as_slice());
            tell(plan, work)
        }
        Request::Put { key, value } => push_call(plan, put(key, value)),
        Request::Get { key } => push_call(plan, get(key)),
        Request::Remove { key } => push_call(plan, remove(key)),
        Request::Contains { key } => push_call(plan, contains(key)),
        Request::Invoke { class, key } => {
            add_invoke(source, ids.as_slice(), plan, *class as usize, key, args)
        }
        Request::InvokeAll { class, keys } => {
            add_invoke_all(
                source,
                ids.as_slice(),
                plan,
                *class as usize,
                keys.as_slice(),
                args,
            )
        }
        Request::RoundEnd => Ok(()),
        Request::Version => tell(plan, Work::Version),
        Request::Forget { class } => {
            let work = forget(ids, *class as usize);
            tell(plan, work)
        }
    }
}
