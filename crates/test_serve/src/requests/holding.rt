//! A gate that blocks one call until another is answered.

use cache::Gate;
use std::sync::atomic::{AtomicBool, Ordering};
use std::thread;
use std::time::{Clock, Duration};

/// Blocks the call of job `held` at its start until job `other` is answered, for about ten seconds at most.
/// A single worker that makes the call of `held` first can't answer `other` meanwhile.
#[derive(Drop)]
pub struct Holding<'s, R> {
    rt: &'s R,
    held: usize,
    other: usize,
    answered: AtomicBool,
    seen: AtomicBool,
}

impl<'s, R> Holding<'s, R> {
    pub fn new(rt: &'s R, held: usize, other: usize) -> Holding<'s, R> {
        Holding {
            rt,
            held,
            other,
            answered: AtomicBool::new(false),
            seen: AtomicBool::new(false),
        }
    }

    /// Returns whether job `held` saw the answer to job `other`.
    pub fn saw(&self) -> bool {
        self.seen.load(Ordering::Acquire)
    }
}

impl<'s, R: Clock> Gate for Holding<'s, R> {
    fn started(&self, job: usize) {
        if job != self.held {
            return;
        }
        for _ in 0..100_000 {
            if self.answered.load(Ordering::Acquire) {
                self.seen.store(true, Ordering::Release);
                return;
            }
            thread::sleep(self.rt, Duration::from_micros(100));
        }
    }

    fn answered(&self, job: usize) {
        if job == self.other {
            self.answered.store(true, Ordering::Release);
        }
    }
}
