//! The command line: `verify FILE COUNT`, `run FILE COUNT KEY VALUE [ARGS..]`, `calls FILE KEYS SEATS`,
//! `rounds FILE JOBS SEATS` and `stripe FILE KEYS`. The key, value and arguments of `run` are longs.

use jtypes::{Arg, Args};

/// The key, the entry and the arguments of an invocation.
#[derive(Clone, Copy)]
pub struct Call {
    pub key: i64,
    pub before: Option<i64>,
    pub args: Args,
}

/// The work to measure.
#[derive(Clone, Copy)]
pub enum Work {
    Verifying,
    Running(Call),
    /// Calls on a cache with `count` keys.
    Calling { seats: usize },
    /// Rounds of `count` jobs.
    Serving { seats: usize },
    /// Calls on one stripe with `count` keys.
    Striping,
}

/// A class file, the work, and a count: the repetitions of a round, or its keys or jobs.
/// With a count of 0, `run` reports the cost of one invocation.
#[derive(Clone, Copy)]
pub struct Request<'a> {
    pub file: &'a str,
    pub count: u32,
    pub work: Work,
}

/// Parses a key, an entry (`none`, or its value) and arguments.
fn call_of(key: &str, value: &str, words: &[&str]) -> Option<Call> {
    if words.len() > Args::MOST {
        return None;
    }
    let mut args = [Arg::Null; 8];
    for (place, word) in args.iter_mut().zip(words) {
        *place = Arg::Long(word.parse::<i64>().ok()?);
    }
    let before = match value {
        "none" => None,
        _ => Some(value.parse::<i64>().ok()?),
    };
    Some(Call {
        key: key.parse::<i64>().ok()?,
        before,
        args: Args::of(&args[..words.len()])?,
    })
}

/// Parses a command line, or returns none if it is malformed.
pub fn parse<'a>(words: &[&'a str]) -> Option<Request<'a>> {
    let [name, file, count, rest @ ..] = words else {
        return None;
    };
    let count = count.parse::<u32>().ok()?;
    let work = match (*name, rest) {
        ("verify", []) => Work::Verifying,
        ("run", [key, value, args @ ..]) => Work::Running(call_of(key, value, args)?),
        ("calls", [seats]) => Work::Calling {
            seats: seats.parse::<usize>().ok()?,
        },
        ("rounds", [seats]) => Work::Serving {
            seats: seats.parse::<usize>().ok()?,
        },
        ("stripe", []) => Work::Striping,
        _ => return None,
    };
    Some(Request { file, count, work })
}
