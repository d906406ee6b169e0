//! Seats of a cache that make calls on threads.

ghost use Rattle.std.specs.Prelude.{◌≡◌, ◌<◌, ℕ, length, slice_index_or};
ghost use Rattle.std.specs.List.{All};
ghost use Rattle.registry.specs.Ids.{IsOf};

use cache::{Cache, Seat};
use jtypes::NoLoader;
use machine::Workspace;
use registry::ClassId;
use std::alloc::Global;
use std::sync::Wait;
use std::thread;
use std::thread::Threads;
use stripe::ArgSlice;

/// The kind of the calls of a round.
#[derive(Clone, Copy)]
pub enum Kind {
    Invoke,
    Put,
}

/// The work of a worker, given its index among all workers.
pub trait Shift<W> {
    ghost accepts: { Self → W → Type 0 };

    ghost leaves: { Self → W → W → Type 0 };

    fn serve(&self, place: usize, worker: &mut W)
        requires { accepts self.now worker.old }
        ensures { leaves self.now worker.old worker.new };
}

/// Runs `shift.serve` for each worker, on threads.
pub fn serve_all<R: Threads + Sync, W: Send, S: Shift<W> + Sync>(
    rt: &R,
    crew: &mut Vec<W>,
    shift: &S,
)
    requires ready { All (S.accepts shift.now) crew.old.items }
    ensures count { length crew.new.items ≡ length crew.old.items }
    ensures left { (i : ℕ) (d : W) → i < length crew.old.items → S.leaves shift.now (slice_index_or crew.old.items i d) (slice_index_or crew.new.items i d) }
{
    let workers = crew.as_mut_slice();
    thread::for_each_mut(rt, workers, 16, &|place, worker| shift.serve(place, worker));
}

/// The callers of a cache, with the keys of each one's calls.
#[derive(Drop)]
pub struct Callers<'s, 'a, R> {
    pub rt: &'s R,
    pub alloc: Global,
    pub cache: &'s Cache<'a, 'static, NoLoader>,
    pub class: &'s ClassId,
    pub kind: Kind,
    pub plan: &'s [Vec<i64>],
}

impl<'s, 'a, R: Wait> Shift<Seat<'a>> for Callers<'s, 'a, R> {
    ghost use Rattle.std.specs.Prelude.{◌≡◌};
    ghost use Rattle.registry.specs.Ids.{IsOf};

    ghost accepts = { λ s seat. (seat.table ≡ s.cache.now.table) × IsOf s.cache.now.registry s.class.now };

    ghost leaves = { λ s old new. (new.table ≡ old.table) × (new.caller ≡ old.caller) × (new.made ≡ old.made) };

    fn serve(&self, place: usize, seat: &mut Seat<'a>) {
        if let Some(keys) = self.plan.get(place) {
            match self.kind {
                Kind::Invoke => invokes(self.rt, self.alloc, self.cache, seat, self.class, keys),
                Kind::Put => puts(self.rt, self.cache, seat, keys),
            }
        }
    }
}

/// Invokes the class on each key.
fn invokes<'a, R: Wait>(
    rt: &R,
    alloc: Global,
    cache: &Cache<'a, 'static, NoLoader>,
    seat: &mut Seat<'a>,
    class: &ClassId,
    keys: &[i64],
)
    requires seat { seat.old.table ≡ cache.now.table }
    requires class { IsOf cache.now.registry class.now }
    ensures table { seat.new.table ≡ seat.old.table }
    ensures caller { seat.new.caller ≡ seat.old.caller }
    ensures made { seat.new.made ≡ seat.old.made }
{
    let Ok(mut workspace) = Workspace::new(alloc) else {
        return;
    };
    for key in keys {
        let _told = cache.invoke(rt, seat, &mut workspace, class, *key, ArgSlice::none());
    }
}

/// Puts an entry on each key.
fn puts<'a, R: Wait>(
    rt: &R,
    cache: &Cache<'a, 'static, NoLoader>,
    seat: &mut Seat<'a>,
    keys: &[i64],
)
    requires { seat.old.table ≡ cache.now.table }
    ensures table { seat.new.table ≡ seat.old.table }
    ensures caller { seat.new.caller ≡ seat.old.caller }
    ensures made { seat.new.made ≡ seat.old.made }
{
    for key in keys {
        let _told = cache.put(rt, seat, *key, 7);
    }
}
