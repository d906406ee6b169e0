//! Sixteen concurrent calls.

use cache::Gate;
use jtypes::NoLoader;
use rowclasses as rows;
use serve::{Settings, serve};
use std::alloc::{AllocError, Global};
use std::sync::atomic::{AtomicUsize, Ordering};
use std::test::Fail;
use std::thread;
use std::time::{Clock, Duration};
use wire::{Counted, Protocol};

/// The number of jobs, each on a different stripe.
const JOBS: usize = 16;

/// Blocks each job but the last at the start of its call until the last is answered, for about ten seconds at most.
#[derive(Drop)]
struct Holding<'s, R> {
    rt: &'s R,
    /// How often the last job was answered.
    last: AtomicUsize,
    /// How many jobs saw the answer to the last.
    saw: AtomicUsize,
}

impl<'s, R: Clock> Gate for Holding<'s, R> {
    fn started(&self, job: usize) {
        if job == JOBS - 1 {
            return;
        }
        for _ in 0..100_000 {
            if self.last.load(Ordering::SeqCst) > 0 {
                self.saw.fetch_add(1, Ordering::SeqCst);
                return;
            }
            thread::sleep(self.rt, Duration::from_micros(100));
        }
    }

    fn answered(&self, job: usize) {
        if job == JOBS - 1 {
            self.last.fetch_add(1, Ordering::SeqCst);
        }
    }
}

static ROUND_END: [u8; 5] = [0, 0, 0, 1, 8];

/// Returns a stream of two rounds: the first defines Counter, the second invokes it on sixteen keys.
fn script(alloc: Global) -> Result<Vec<u8>, AllocError> {
    let mut input = Vec::new(alloc);
    input.extend_from_slice(&[0, 0, 2, 0xFD, 1])?;
    input.extend_from_slice(&rows::counter(alloc)?)?;
    input.extend_from_slice(&ROUND_END)?;
    for key in 0..16 {
        input.extend_from_slice(&[
            0, 0, 0, 0x17, 6, 0, 0, 0, 0, 0, 0, 0, 0, 0, 0, 0, key, 1, 1, 0, 0, 0, 0, 0, 0, 0, 1,
        ])?;
    }
    input.extend_from_slice(&ROUND_END)?;
    Ok(input)
}

/// The reply to an invocation that returned the `Long` 1.
static ONE: [u8; 15] = [0, 0, 0, 0x0B, 6, 0, 1, 0, 0, 0, 0, 0, 0, 0, 1];

#[test]
fn sixteen_stripes_work_at_once(rt: HostRuntime) -> Result<(), Fail> {
    let alloc = rt.alloc();
    let input = script(alloc)?;
    let gate = Holding {
        rt: &rt,
        last: AtomicUsize::new(0),
        saw: AtomicUsize::new(0),
    };
    let settings = Settings {
        workers: 16,
        stripes: 16,
        share: 0,
        protocol: Protocol::One,
    };
    let mut reader = Counted::new(input.as_slice());
    let mut writer = Counted::new(Vec::new(alloc));
    let result = serve(&rt, &mut reader, &mut writer, settings, &gate, &NoLoader);
    assert_eq!(rt; result, Ok(()));
    assert_eq!(rt; gate.last.load(Ordering::SeqCst), 1);
    assert_eq!(rt; gate.saw.load(Ordering::SeqCst), JOBS - 1);
    // The first 22 bytes are the reply to the definition and the end of its round, the last 5 the end of the second round.
    let output = writer.into_inner();
    assert_eq!(rt; output.len(), 22 + 15 * JOBS + 5);
    assert!(rt;
        output[22..22 + 15 * JOBS]
            .chunks(15)
            .all(|reply| reply == &ONE[..])
    );
    Ok(())
}
