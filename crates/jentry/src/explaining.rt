//! The command `explain`.

use crate::files::{Files, MOST_CLASS};
use crate::output::{Answer, Failure, accepted, refused};
use explain::{Explained, explain};
use explain_text::{refusal_of, report};
use std::alloc::Global;

/// Returns the answer of `explain`: the line of `check`, then the report.
pub fn explain_answer<'a>(
    alloc: Global,
    files: &impl Files,
    file: &'a str,
) -> Result<Answer, Failure<'a>> {
    let bytes = match files.read(alloc, file, MOST_CLASS) {
        Ok(bytes) => bytes,
        Err(fault) => return Err(Failure::of_file(fault, file)),
    };
    let explained = explain(alloc, &bytes)?;
    let mut answer = match (&explained, refusal_of(&explained)) {
        (Explained::Accepted { bounds, .. }, _) => accepted(alloc, *bounds)?,
        (_, Some(refusal)) => refused(alloc, refusal)?,
        _ => return Err(Failure::NoMemory),
    };
    answer
        .text
        .push_str(report(alloc, &bytes, &explained)?.as_str())?;
    Ok(answer)
}
