//! The output of the program, and its exit statuses.

ghost use Rattle.std.specs.Prelude.{◌≡◌};
ghost use Rattle.jtypes.specs.Entry.{after_effect};

use crate::files::FileFault;
use jtypes::{Arg, Effect, Outcome, Refusal};
use machine::Done;
use std::alloc::{AllocError, Global};
use thiserror::Error;
use verify::Bounds;

/// Exit status: the class is accepted, the run returns, or the stream is served up to its end.
pub const OK: u8 = 0;
/// Exit status: the command line, an argument or the load file is bad.
pub const USAGE: u8 = 1;
/// Exit status: the class is refused.
pub const REFUSED: u8 = 2;
/// Exit status: a file can't be read, the output can't be written, out of memory, or the stream ends with a fault.
pub const OTHER: u8 = 3;
/// Exit status: the run throws.
pub const THREW: u8 = 4;

/// Why a command failed.
#[derive(Clone, Copy, Debug, PartialEq, Eq, Error)]
pub enum Failure<'a> {
    #[error("error: bad command line")]
    BadCommandLine,
    #[error("error: bad argument")]
    BadArgument,
    /// The load file is no list of 16-byte pairs, or has too many.
    #[error("error: bad load file")]
    BadLoadFile,
    #[error("error: cannot read {0}")]
    CannotRead(&'a str),
    #[error("error: no memory")]
    NoMemory,
    #[error("error: cannot write")]
    CannotWrite,
    /// A fault of a stream, with its number and its name.
    #[error("serve fault {0} {1}")]
    Fault(u8, &'a str),
}

impl From<AllocError> for Failure<'_> {
    fn from(_e: AllocError) -> Self {
        Failure::NoMemory
    }
}

impl<'a> Failure<'a> {
    pub fn status(self) -> u8 {
        match self {
            Failure::BadCommandLine | Failure::BadArgument | Failure::BadLoadFile => USAGE,
            Failure::CannotRead(_)
            | Failure::NoMemory
            | Failure::CannotWrite
            | Failure::Fault(..) => OTHER,
        }
    }

    /// Returns the failure for a fault of the named file.
    pub fn of_file(fault: FileFault, name: &'a str) -> Failure<'a> {
        match fault {
            FileFault::CannotRead => Failure::CannotRead(name),
            FileFault::NoMemory => Failure::NoMemory,
        }
    }
}

/// The output of a command, and its exit status.
#[derive(Drop)]
pub struct Answer {
    pub text: String,
    pub status: u8,
}

/// Returns the line for an accepted class, with its bounds.
pub fn accepted(alloc: Global, bounds: Bounds) -> Result<Answer, AllocError> {
    let Bounds {
        steps,
        words,
        slots,
        depth,
    } = bounds;
    Ok(Answer {
        text: format!(in alloc;
            "accepted steps={steps} words={words} slots={slots} depth={depth}\n"
        )?,
        status: OK,
    })
}

/// Returns the line for a refused class: the number, the name, and for some refusals the pc or the opcode.
pub fn refused(alloc: Global, refusal: Refusal) -> Result<Answer, AllocError> {
    let number = refusal.number();
    Ok(Answer {
        text: format!(in alloc; "refused {number} {refusal}\n")?,
        status: REFUSED,
    })
}

/// Formats a result: a number, a number followed by `i`, or `null`.
fn result_text(alloc: Global, returned: Arg) -> Result<String, AllocError> {
    match returned {
        Arg::Null => String::from_str(alloc, "null"),
        Arg::Long(n) => format!(in alloc; "{n}"),
        Arg::Integer(n) => format!(in alloc; "{n}i"),
        Arg::Boolean(b) => String::from_str(alloc, if b { "true" } else { "false" }),
    }
}

/// Returns the entry after an effect on the entry `before`.
fn entry_after(effect: Effect, before: Option<i64>) -> Option<i64>
    ensures { result ≡ after_effect effect before }
{
    match effect {
        Effect::Keep => before,
        Effect::Put(value) => Some(value),
        Effect::Delete => None,
    }
}

fn entry_text(alloc: Global, entry: Option<i64>) -> Result<String, AllocError> {
    match entry {
        Some(value) => format!(in alloc; "{value}"),
        None => String::from_str(alloc, "none"),
    }
}

/// Returns the first line of a run, and its exit status.
fn outcome(alloc: Global, outcome: Outcome) -> Result<Answer, AllocError> {
    match outcome {
        Outcome::Returned(value) => {
            let text = result_text(alloc, value)?;
            Ok(Answer {
                text: format!(in alloc; "result {text}\n")?,
                status: OK,
            })
        }
        Outcome::Threw(fault) => {
            let number = fault.number();
            let name = fault.name();
            Ok(Answer {
                text: format!(in alloc; "threw {number} {name}\n")?,
                status: THREW,
            })
        }
    }
}

/// Returns the lines of a run after its outcome: the entry that it leaves, its steps and its array words.
fn left(alloc: Global, done: Done, before: Option<i64>) -> Result<String, AllocError> {
    let entry = entry_text(alloc, entry_after(done.effect, before))?;
    let steps = done.steps;
    let words = done.words;
    format!(in alloc; "value {entry}\nsteps {steps} words {words}\n")
}

/// Returns the three lines of a run on an entry.
pub fn ran(alloc: Global, done: Done, before: Option<i64>) -> Result<Answer, AllocError> {
    let rest = left(alloc, done, before)?;
    let Answer { mut text, status } = outcome(alloc, done.outcome)?;
    text.push_str(rest.as_str())?;
    Ok(Answer { text, status })
}
