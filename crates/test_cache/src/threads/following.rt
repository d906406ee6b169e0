//! Two calls on one stripe. The gate of the first waits for the answer to the second.

ghost use Rattle.std.specs.Prelude.{◌≡◌};

use cache::{Cache, Gate, Seat};
use jtypes::NoLoader;
use std::sync::Wait;
use std::sync::atomic::{AtomicBool, Ordering};
use std::thread;
use std::time::{Clock, Duration};

/// The progress of the two calls.
#[derive(Drop)]
pub struct Marks {
    /// The first call has begun.
    begun: AtomicBool,
    /// The second call was answered.
    answered: AtomicBool,
    /// After the answer to the first call, its gate saw that the second was answered.
    seen: AtomicBool,
}

impl Marks {
    pub fn new() -> Marks {
        Marks {
            begun: AtomicBool::new(false),
            answered: AtomicBool::new(false),
            seen: AtomicBool::new(false),
        }
    }

    pub fn seen(&self) -> bool {
        self.seen.load(Ordering::Acquire)
    }
}

/// Waits until a mark is set, for about ten seconds at most; returns whether it is set.
fn is_set_in_time<R: Clock>(rt: &R, mark: &AtomicBool) -> bool {
    for _ in 0..100_000 {
        if mark.load(Ordering::Acquire) {
            return true;
        }
        thread::sleep(rt, Duration::from_micros(100));
    }
    false
}

/// The gate of both calls.
#[derive(Drop)]
struct Following<'s, R> {
    rt: &'s R,
    marks: &'s Marks,
}

impl<'s, R: Clock> Gate for Following<'s, R> {
    fn started(&self, job: usize) {
        if job == 0 {
            self.marks.begun.store(true, Ordering::Release);
        }
    }

    fn answered(&self, job: usize) {
        if job == 0 {
            let seen = is_set_in_time(self.rt, &self.marks.answered);
            self.marks.seen.store(seen, Ordering::Release);
        } else {
            self.marks.answered.store(true, Ordering::Release);
        }
    }
}

/// Puts 7 on key 0: the first caller at once, any other after the first call has begun.
pub fn follow<'a, R: Wait + Clock>(
    rt: &R,
    cache: &Cache<'a, 'static, NoLoader>,
    seat: &mut Seat<'a>,
    place: usize,
    marks: &Marks,
)
    requires { seat.old.table ≡ cache.now.table }
    ensures table { seat.new.table ≡ seat.old.table }
    ensures caller { seat.new.caller ≡ seat.old.caller }
    ensures made { seat.new.made ≡ seat.old.made }
{
    if place > 0 {
        let _begun = is_set_in_time(rt, &marks.begun);
    }
    let _put = cache.put_at(rt, seat, 0, 7, place, &Following { rt, marks });
}
