//! Calls that are answered while a call on another stripe is blocked.

use super::{Ask, asked, returned};
use cache::Gate;
use rowclasses as rows;
use std::alloc::Global;
use std::sync::Wait;
use std::sync::atomic::{AtomicBool, AtomicUsize, Ordering};
use std::test::Fail;
use std::thread;
use std::thread::Threads;
use std::time::{Clock, Duration};

/// Blocks the call of job 0 at its start until job 1 is answered, for about ten seconds at most.
#[derive(Drop)]
struct Holding<'s, R> {
    rt: &'s R,
    answered: AtomicBool,
    seen: AtomicBool,
}

impl<'s, R: Clock> Gate for Holding<'s, R> {
    fn started(&self, job: usize) {
        if job != 0 {
            return;
        }
        for _ in 0..100_000 {
            if self.answered.load(Ordering::Acquire) {
                self.seen.store(true, Ordering::Release);
                return;
            }
            thread::sleep(self.rt, Duration::from_micros(100));
        }
    }

    fn answered(&self, job: usize) {
        if job == 1 {
            self.answered.store(true, Ordering::Release);
        }
    }
}

/// Checks that a call on one stripe is answered while a call on another is blocked.
fn meet<R: Threads + Wait + Clock + Sync + AllocGlobal>(
    rt: &R,
    alloc: Global,
    counter: &[u8],
    count: usize,
) -> bool {
    let gate = Holding {
        rt,
        answered: AtomicBool::new(false),
        seen: AtomicBool::new(false),
    };
    let asks = [Ask::Run(0), Ask::Run(1)];
    let Some(left) = asked(rt, alloc, counter, count, &[], count, &asks, &gate) else {
        return false;
    };
    let both = [returned(1), returned(1)];
    gate.seen.load(Ordering::Acquire) && left.answers.as_slice() == both.as_slice()
}

#[test]
fn stripes_do_not_wait_for_one_another(rt: HostRuntime) -> Result<(), Fail> {
    let alloc = rt.alloc();
    let counter = rows::counter(alloc)?;
    let meet_by = [
        meet(&rt, alloc, &counter, 2),
        meet(&rt, alloc, &counter, 16),
    ];
    assert_eq!(rt; meet_by, [true; 2]);
    Ok(())
}

/// For jobs on the keys 0 to 63 and 16 stripes: blocks the call of job 0 at its start until the 60 jobs on the other stripes are answered,
/// for about ten seconds at most.
#[derive(Drop)]
struct HoldingStripe<'s, R> {
    rt: &'s R,
    answered: AtomicUsize,
    seen: AtomicBool,
}

impl<'s, R: Clock> Gate for HoldingStripe<'s, R> {
    fn started(&self, job: usize) {
        if job != 0 {
            return;
        }
        for _ in 0..100_000 {
            if self.answered.load(Ordering::Acquire) == 60 {
                self.seen.store(true, Ordering::Release);
                return;
            }
            thread::sleep(self.rt, Duration::from_micros(100));
        }
    }

    fn answered(&self, job: usize) {
        if job % 16 != 0 {
            self.answered.fetch_add(1, Ordering::AcqRel);
        }
    }
}

/// Checks that `workers` workers make all calls on the other stripes while one call is blocked, and each call in the end.
fn all_meet<R: Threads + Wait + Clock + Sync + AllocGlobal>(
    rt: &R,
    alloc: Global,
    counter: &[u8],
    workers: usize,
) -> bool {
    let gate = HoldingStripe {
        rt,
        answered: AtomicUsize::new(0),
        seen: AtomicBool::new(false),
    };
    let mut asks = [Ask::Run(0); 64];
    for key in 0..64 {
        asks[key] = Ask::Run(key as i64);
    }
    let Some(left) = asked(rt, alloc, counter, 16, &[], workers, &asks, &gate) else {
        return false;
    };
    let all = [returned(1); 64];
    gate.seen.load(Ordering::Acquire) && left.answers.as_slice() == all.as_slice()
}

#[test]
fn a_held_stripe_holds_up_no_call_of_another(rt: HostRuntime) -> Result<(), Fail> {
    let alloc = rt.alloc();
    let counter = rows::counter(alloc)?;
    let meet_by = [
        all_meet(&rt, alloc, &counter, 2),
        all_meet(&rt, alloc, &counter, 16),
    ];
    assert_eq!(rt; meet_by, [true; 2]);
    Ok(())
}
