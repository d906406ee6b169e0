//! The output of the program.

use crate::alone::StripeTimes;
use crate::calls::CallTimes;
use crate::measure::Times;
use std::alloc::{AllocError, Global};

/// Why nothing was measured.
#[derive(Clone, Copy, PartialEq, Eq)]
pub enum Failure {
    BadCommandLine,
    CannotRead,
    Refused,
    /// Two seats have keys of one stripe.
    NotApart,
    NoClock,
    NoMemory,
    CannotWrite,
}

impl From<AllocError> for Failure {
    fn from(_e: AllocError) -> Self {
        Failure::NoMemory
    }
}

impl Failure {
    pub fn status(self) -> u8 {
        match self {
            Failure::BadCommandLine => 1,
            Failure::Refused => 2,
            _ => 3,
        }
    }

    pub fn text(self) -> &'static str {
        match self {
            Failure::BadCommandLine => {
                "usage: bench run FILE COUNT KEY VALUE [ARGS..] | bench verify FILE COUNT | bench calls FILE KEYS SEATS | bench rounds FILE JOBS SEATS | bench stripe FILE KEYS\n"
            }
            Failure::CannotRead => "error: cannot read the file\n",
            Failure::Refused => "error: the class is refused\n",
            Failure::NotApart => "error: two seats have keys of one stripe\n",
            Failure::NoClock => "error: no clock\n",
            Failure::NoMemory => "error: no memory\n",
            Failure::CannotWrite => "error: cannot write\n",
        }
    }
}

/// Formats the cost of one invocation.
pub fn cost(alloc: Global, steps: u32, words: u32) -> Result<String, AllocError> {
    format!(in alloc; "steps {steps} words {words}\n")
}

/// Formats the times of an invocation of `steps` instructions and of one instruction, and the instructions of all rounds.
pub fn of_runs(alloc: Global, times: Times, steps: u32, all: u64) -> Result<String, AllocError> {
    let each = if steps == 0 {
        0
    } else {
        times.median.saturating_mul(10) / u128::from(steps)
    };
    let (least, median) = (times.least, times.median);
    format!(in alloc;
        "run {}.{} ns, at least {}.{} ns, {steps} steps, {}.{:02} ns a step, {all} steps in all\n",
        median / 10,
        median % 10,
        least / 10,
        least % 10,
        each / 100,
        each % 100
    )
}

/// Formats the times of a verdict, and how often the class was accepted in all rounds.
pub fn of_verdicts(alloc: Global, times: Times, accepted: u64) -> Result<String, AllocError> {
    let (least, median) = (times.least / 1000, times.median / 1000);
    format!(in alloc;
        "verify {}.{} us, at least {}.{} us, {accepted} times accepted\n",
        median / 10,
        median % 10,
        least / 10,
        least % 10
    )
}

/// Formats the times of calls on a cache, and the sums of the entries after the invocations and at the end.
pub fn of_calls(alloc: Global, times: CallTimes, seats: usize) -> Result<String, AllocError> {
    let CallTimes { invoke, put, sums } = times;
    format!(in alloc;
        "invoke {}.{} ns, at least {}.{} ns, put {}.{} ns, at least {}.{} ns, by {seats} seats, entries of {} and {} in all\n",
        invoke.median / 10,
        invoke.median % 10,
        invoke.least / 10,
        invoke.least % 10,
        put.median / 10,
        put.median % 10,
        put.least / 10,
        put.least % 10,
        sums[0],
        sums[1]
    )
}

/// Formats the times of calls on one stripe with `keys` keys.
pub fn of_stripe(alloc: Global, times: StripeTimes, keys: u32) -> Result<String, AllocError> {
    let StripeTimes {
        there,
        absent,
        invoke,
        run,
    } = times;
    format!(in alloc;
        "put {}.{} ns, at least {}.{} ns, of an absent key {}.{} ns, at least {}.{} ns, invoke {}.{} ns, at least {}.{} ns, its run {}.{} ns, at least {}.{} ns, on {keys} keys\n",
        there.median / 10,
        there.median % 10,
        there.least / 10,
        there.least % 10,
        absent.median / 10,
        absent.median % 10,
        absent.least / 10,
        absent.least % 10,
        invoke.median / 10,
        invoke.median % 10,
        invoke.least / 10,
        invoke.least % 10,
        run.median / 10,
        run.median % 10,
        run.least / 10,
        run.least % 10
    )
}

/// Formats the times of a round of `jobs` jobs, the jobs per second in the median round, and the sum of the entries at the end.
pub fn of_rounds(alloc: Global, times: Times, jobs: u32, sum: i64) -> Result<String, AllocError> {
    let (least, median) = (times.least / 1000, times.median / 1000);
    let each_second = if times.median == 0 {
        0
    } else {
        u128::from(jobs) * 10_000_000_000 / times.median
    };
    format!(in alloc;
        "round {}.{} us, at least {}.{} us, {each_second} jobs a second, entries of {sum} in all\n",
        median / 10,
        median % 10,
        least / 10,
        least % 10
    )
}
