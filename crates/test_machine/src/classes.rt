//! Small classes: their linked code, and their invocations.

mod linking;
mod loading;
mod registers;
mod steps;
mod whole;

use jtypes::{Arg, Effect, JavaFault, Outcome};
use machine::Done;
use rowclasses as rows;
use std::alloc::{AllocError, Global};
use verify::{Verified, verify};

/// Returns the class file of the class with this name, empty if there is no such class.
fn bytes_of(alloc: Global, name: &str) -> Result<Vec<u8>, AllocError> {
    match name {
        "Plus" => rows::plus(alloc),
        "Unbox" => rows::unbox(alloc),
        "Counter" => rows::counter(alloc),
        _ => Ok(rows::class_named(alloc, name)?.unwrap_or(Vec::new(alloc))),
    }
}

/// Returns the verified class with this name, `None` if it is refused.
fn class_named(alloc: Global, name: &str) -> Option<Verified> {
    match bytes_of(alloc, name) {
        Ok(bytes) => verify(alloc, &bytes).ok(),
        Err(_) => None,
    }
}

/// The result of Plus on the entry 41.
const MADE_42: Done = Done {
    outcome: Outcome::Returned(Arg::Long(42)),
    effect: Effect::Put(42),
    untouched: false,
    asked: None,
    steps: 14,
    words: 0,
};

/// The result of NestFault: the exception for a division by zero in a called method.
const THREW: Done = Done {
    outcome: Outcome::Threw(JavaFault::Arithmetic),
    effect: Effect::Keep,
    untouched: true,
    asked: None,
    steps: 10,
    words: 0,
};
