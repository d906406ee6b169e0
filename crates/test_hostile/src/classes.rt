//! Class files that are truncated, or changed in one byte, count or length.

use jtypes::{Arg, Args, Effect, NoLoader, Outcome, Refusal};
use machine::{Done, Workspace, run};
use rowclasses as rows;
use std::alloc::{AllocError, Global};
use std::process::Abort;
use std::test::Fail;
use verify::{Verified, verify};

/// Returns the class file of the class with this name, empty if there is no such class.
fn bytes_of(alloc: Global, name: &str) -> Result<Vec<u8>, AllocError> {
    Ok(rows::class_named(alloc, name)?.unwrap_or(Vec::new(alloc)))
}

/// Checks that each proper prefix of a class file is refused as `Truncated`.
fn fronts_are_truncated(alloc: Global, class: &[u8]) -> bool {
    for end in 0..class.len() {
        if !matches!(verify(alloc, &class[..end]), Err(Refusal::Truncated)) {
            return false;
        }
    }
    true
}

#[test]
fn each_front_is_truncated(rt: HostRuntime) -> Result<(), Fail> {
    let alloc = rt.alloc();
    let plus = rows::plus(alloc)?;
    assert_eq!(rt; plus.len(), 727);
    assert!(rt; fronts_are_truncated(alloc, &plus));
    let counter = rows::counter(alloc)?;
    assert_eq!(rt; counter.len(), 764);
    assert!(rt; fronts_are_truncated(alloc, &counter));
    Ok(())
}

/// A count or length in a class file, by its offset and size in bytes, and the refusal if it has its greatest value.
struct Great {
    place: usize,
    size: usize,
    refusal: Refusal,
}

/// The count of the constant pool, the lengths, counts and maxima in `process`, in their order, and the count of the class's attributes.
static OF_PLUS: [Great; 8] = [
    Great {
        place: 8,
        size: 2,
        refusal: Refusal::BadPool,
    },
    Great {
        place: 679,
        size: 4,
        refusal: Refusal::Truncated,
    },
    Great {
        place: 683,
        size: 2,
        refusal: Refusal::FrameLimit,
    },
    Great {
        place: 685,
        size: 2,
        refusal: Refusal::FrameLimit,
    },
    Great {
        place: 687,
        size: 4,
        refusal: Refusal::BadCode,
    },
    Great {
        place: 721,
        size: 2,
        refusal: Refusal::BadCode,
    },
    Great {
        place: 723,
        size: 2,
        refusal: Refusal::BadCode,
    },
    Great {
        place: 725,
        size: 2,
        refusal: Refusal::Truncated,
    },
];

/// The length of the `StackMapTable` attribute, and the count of its entries.
static OF_COUNTER: [Great; 2] = [
    Great {
        place: 753,
        size: 4,
        refusal: Refusal::BadCode,
    },
    Great {
        place: 757,
        size: 2,
        refusal: Refusal::BadStackMap,
    },
];

/// Checks that a class has this refusal if this count or length has its greatest value.
fn is_refused(alloc: Global, mut class: Vec<u8>, great: &Great) -> bool {
    for byte in class.iter_mut().skip(great.place).take(great.size) {
        *byte = 0xFF;
    }
    match verify(alloc, &class) {
        Ok(_) => false,
        Err(refusal) => refusal == great.refusal,
    }
}

#[test]
fn great_counts_are_refused(rt: HostRuntime) -> Result<(), Fail> {
    let alloc = rt.alloc();
    for great in &OF_PLUS {
        assert!(rt;
            is_refused(alloc, rows::plus(alloc)?, great),
            "Plus at {}",
            great.place
        );
    }
    for great in &OF_COUNTER {
        assert!(rt;
            is_refused(alloc, rows::counter(alloc)?, great),
            "Counter at {}",
            great.place
        );
    }
    Ok(())
}

/// The number of other values that a byte may have.
const OTHERS: usize = 255;

/// The numbers of classes that are refused and accepted, and of runs that returned and threw.
#[derive(Clone, Copy, Default)]
struct Counts {
    refused: usize,
    accepted: usize,
    returned: usize,
    threw: usize,
}

/// Returns the argument 1.
fn one() -> Args {
    Args::of(&[Arg::Long(1)]).unwrap_or(Args::none())
}

/// Checks that a run is within the bounds of its class, and that the entry is kept if it threw.
fn is_bounded(class: &Verified, done: Done) -> bool {
    let bounds = class.bounds();
    let is_kept = match done.outcome {
        Outcome::Returned(_) => true,
        Outcome::Threw(_) => done.effect == Effect::Keep,
    };
    done.steps <= bounds.steps && done.words <= bounds.words && is_kept
}

impl Counts {
    /// Counts one class, and its runs on key 7 without an entry and with 41, each without an argument and with 1.
    /// Returns false if a run is out of bounds.
    fn add(&mut self, alloc: Global, class: &[u8], space: &mut Workspace) -> bool {
        let Ok(class) = verify(alloc, class) else {
            self.refused = self.refused.saturating_add(1);
            return true;
        };
        self.accepted = self.accepted.saturating_add(1);
        for before in [None, Some(41)] {
            if !self.add_run(&class, before, &Args::none(), space)
                || !self.add_run(&class, before, &one(), space)
            {
                return false;
            }
        }
        true
    }

    /// Counts one run; returns false if it is out of bounds.
    fn add_run(
        &mut self,
        class: &Verified,
        before: Option<i64>,
        args: &Args,
        space: &mut Workspace,
    ) -> bool {
        let done = run(class, 7, before, args, space, &NoLoader);
        match done.outcome {
            Outcome::Returned(_) => self.returned = self.returned.saturating_add(1),
            Outcome::Threw(_) => self.threw = self.threw.saturating_add(1),
        }
        is_bounded(class, done)
    }

    /// Counts a class with each of its bytes changed to each other value; returns false if a run is out of bounds.
    fn add_changed(&mut self, alloc: Global, class: &mut [u8], space: &mut Workspace) -> bool {
        for place in 0..class.len() {
            for bits in 1..=255 {
                flip(class, place, bits);
                let is_bounded = self.add(alloc, class, space);
                flip(class, place, bits);
                if !is_bounded {
                    return false;
                }
            }
        }
        true
    }
}

/// Inverts these bits of the byte at offset `place`.
fn flip(class: &mut [u8], place: usize, bits: u8) {
    if let Some(byte) = class.get_mut(place) {
        *byte ^= bits;
    }
}

/// Verifies each changed class and runs those that are accepted, and checks the counts.
fn is_judged_and_run(rt: &impl Abort, alloc: Global, mut class: Vec<u8>) -> Result<(), Fail> {
    let mut space = Workspace::new(alloc)?;
    let mut counts = Counts::default();
    assert!(rt; counts.add_changed(alloc, &mut class, &mut space));
    let judged = counts.refused.saturating_add(counts.accepted);
    assert_eq!(rt; judged, class.len().saturating_mul(OTHERS));
    let ran = counts.returned.saturating_add(counts.threw);
    assert_eq!(rt; ran, counts.accepted.saturating_mul(4));
    assert!(rt; 0 < counts.returned && 0 < counts.threw && 0 < counts.refused);
    Ok(())
}

#[test]
fn changed_plus_is_judged_and_run(rt: HostRuntime) -> Result<(), Fail> {
    is_judged_and_run(&rt, rt.alloc(), rows::plus(rt.alloc())?)
}

#[test]
fn changed_counter_is_judged_and_run(rt: HostRuntime) -> Result<(), Fail> {
    is_judged_and_run(&rt, rt.alloc(), rows::counter(rt.alloc())?)
}

#[test]
fn changed_ratio_is_judged_and_run(rt: HostRuntime) -> Result<(), Fail> {
    is_judged_and_run(&rt, rt.alloc(), bytes_of(rt.alloc(), "Ratio")?)
}
