//! Benchmarks: loops of `run` and `verify` on a class file, calls on a stripe and on a cache, and rounds.
#![tactic(auto)]

mod alone;
mod calls;
mod command;
mod crew;
mod file;
mod line;
mod measure;
mod report;
mod rounds;

use command::measured;
use report::Failure;
use std::alloc::{AllocError, Global};
use std::env;
use std::io::{ErrorKind, Write};
use std::process::ExitCode;
use std::rt::Env;

/// Returns the arguments of the command line, or an empty list if one is not UTF-8.
fn words_of(rt: &(impl Env + AllocGlobal)) -> Result<Vec<String>, AllocError> {
    let mut words = Vec::new(rt.alloc());
    match env::args(rt) {
        Ok(args) => {
            for word in args.skip(1) {
                words.push(word)?;
            }
        }
        Err(e) if e.kind() == ErrorKind::OutOfMemory => return Err(AllocError),
        Err(_) => {}
    }
    Ok(words)
}

fn texts_of<'a>(alloc: Global, words: &'a [String]) -> Result<Vec<&'a str>, AllocError> {
    let mut texts = Vec::new(alloc);
    for word in words {
        texts.push(word.as_str())?;
    }
    Ok(texts)
}

/// Writes a line and flushes. Returns `status`, or that of `CannotWrite`.
fn write<W: Write>(output: &mut W, text: &str, status: u8) -> ExitCode {
    let written = output
        .write_all(text.as_bytes())
        .and_then(|()| output.flush());
    ExitCode::from(if written.is_ok() {
        status
    } else {
        Failure::CannotWrite.status()
    })
}

fn main(rt: HostRuntime) -> ExitCode {
    let alloc = rt.alloc();
    let failure = match words_of(&rt) {
        Err(AllocError) => Failure::NoMemory,
        Ok(words) => match texts_of(alloc, &words) {
            Err(AllocError) => Failure::NoMemory,
            Ok(texts) => match measured(&rt, alloc, &texts) {
                Ok(line) => return write(&mut rt.stdout(), line.as_str(), 0),
                Err(failure) => failure,
            },
        },
    };
    write(&mut rt.stderr(), failure.text(), failure.status())
}
