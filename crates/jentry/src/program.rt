//! Execution of one command.

use crate::command_line::{Action, parse};
use crate::explaining::explain_answer;
use crate::files::{Files, MOST_CLASS};
use crate::output::{Answer, Failure, OK, accepted, ran, refused};
use cache::NoGate;
use jtypes::{Args, Loader, NoLoader, Refusal};
use machine::{Workspace, run};
use serve::{Settings, serve};
use std::alloc::{AllocError, Global};
use std::io::{BufReader, Read, Write};
use std::sync::Wait;
use std::thread::Threads;
use table_loader::Table;
use verify::{Verified, verify};
use wire::Counted;

/// The capacity of the input buffer, in bytes.
const AHEAD: usize = 65_536;

/// The maximum size of a load file, in bytes: 16,777,216 pairs.
const MOST_ROWS: usize = 268_435_456;

/// Reads a class file and verifies it.
fn verified<'a>(
    alloc: Global,
    files: &impl Files,
    file: &'a str,
) -> Result<Result<Verified, Refusal>, Failure<'a>> {
    let bytes = match files.read(alloc, file, MOST_CLASS) {
        Ok(bytes) => bytes,
        Err(fault) => return Err(Failure::of_file(fault, file)),
    };
    Ok(verify(alloc, &bytes))
}

/// Returns the answer of `check`.
fn check_answer<'a>(
    alloc: Global,
    files: &impl Files,
    file: &'a str,
) -> Result<Answer, Failure<'a>> {
    match verified(alloc, files, file)? {
        Ok(class) => Ok(accepted(alloc, class.bounds())?),
        Err(refusal) => Ok(refused(alloc, refusal)?),
    }
}

/// Runs a class and returns the answer.
fn run_of(
    alloc: Global,
    class: &Verified,
    key: i64,
    before: Option<i64>,
    args: &Args,
) -> Result<Answer, AllocError> {
    let mut workspace = Workspace::new(alloc)?;
    let done = run(class, key, before, args, &mut workspace, &NoLoader);
    ran(alloc, done, before)
}

/// Returns the answer of `run`.
fn run_answer<'a>(
    alloc: Global,
    files: &impl Files,
    file: &'a str,
    key: i64,
    before: Option<i64>,
    args: &Args,
) -> Result<Answer, Failure<'a>> {
    match verified(alloc, files, file)? {
        Ok(class) => Ok(run_of(alloc, &class, key, before, args)?),
        Err(refusal) => Ok(refused(alloc, refusal)?),
    }
}

/// Reads the table in a load file.
fn table_of<'a>(alloc: Global, files: &impl Files, file: &'a str) -> Result<Table, Failure<'a>> {
    let bytes = match files.read(alloc, file, MOST_ROWS) {
        Ok(bytes) => bytes,
        Err(fault) => return Err(Failure::of_file(fault, file)),
    };
    if bytes.len() > MOST_ROWS {
        return Err(Failure::BadLoadFile);
    }
    match Table::read(alloc, &bytes)? {
        Some(table) => Ok(table),
        None => Err(Failure::BadLoadFile),
    }
}

/// Serves the requests of the input up to its end.
fn serve_input<'a, T: Threads + Wait + Sync + AllocGlobal, I: Read, W: Write, L: Loader + Sync>(
    rt: &T,
    alloc: Global,
    settings: Settings,
    input: &mut I,
    output: &mut W,
    loader: &L,
) -> Result<u8, Failure<'a>> {
    let Ok(buffered) = BufReader::with_capacity(alloc, AHEAD, input) else {
        return Err(Failure::NoMemory);
    };
    let mut reader = Counted::new(buffered);
    let mut writer = Counted::new(output);
    match serve(rt, &mut reader, &mut writer, settings, &NoGate, loader) {
        Ok(()) => Ok(OK),
        Err(fault) => Err(Failure::Fault(fault.number(), fault.name())),
    }
}

/// Writes an answer and flushes. Returns its exit status.
fn write_answer<'a, W: Write>(output: &mut W, answer: &Answer) -> Result<u8, Failure<'a>> {
    if output.write_all(answer.text.as_bytes()).is_err() || output.flush().is_err() {
        return Err(Failure::CannotWrite);
    }
    Ok(answer.status)
}

fn words_of<'a>(alloc: Global, words: &'a [String]) -> Result<Vec<&'a str>, AllocError> {
    let mut texts = Vec::new(alloc);
    for word in words {
        texts.push(word.as_str())?;
    }
    Ok(texts)
}

fn perform<'a, T: Threads + Wait + Sync + AllocGlobal, I: Read, W: Write>(
    rt: &T,
    alloc: Global,
    words: &'a [&'a str],
    files: &impl Files,
    input: &mut I,
    output: &mut W,
) -> Result<u8, Failure<'a>> {
    let request = match parse(alloc, words) {
        Ok(request) => request,
        Err(failure) => return Err(failure),
    };
    match &request {
        Action::Check { file } => write_answer(output, &check_answer(alloc, files, file)?),
        Action::Explain { file } => write_answer(output, &explain_answer(alloc, files, file)?),
        Action::Run {
            file,
            key,
            before,
            args,
        } => {
            let answer = run_answer(alloc, files, file, *key, *before, args)?;
            write_answer(output, &answer)
        }
        Action::Serve {
            settings,
            load: None,
        } => serve_input(rt, alloc, *settings, input, output, &NoLoader),
        Action::Serve {
            settings,
            load: Some(file),
        } => {
            let table = table_of(alloc, files, file)?;
            serve_input(rt, alloc, *settings, input, output, &table)
        }
    }
}

/// Writes a failure to `errors` and returns its exit status. Errors of writing are ignored.
fn tell<W: Write>(alloc: Global, errors: &mut W, failure: Failure<'_>) -> u8 {
    let Ok(text) = format!(in alloc; "{failure}\n") else {
        return no_memory(errors);
    };
    let _ = errors.write_all(text.as_bytes());
    let _ = errors.flush();
    failure.status()
}

/// Writes the failure `NoMemory` without allocating, and returns its exit status.
pub fn no_memory<W: Write>(errors: &mut W) -> u8 {
    let _ = errors.write_all(b"error: no memory\n");
    let _ = errors.flush();
    Failure::NoMemory.status()
}

/// Executes the command in `words` and returns its exit status.
/// Lines that begin with `error` or `serve fault` go to `errors`, all other output goes to `output`.
/// Only `serve` reads `input`.
pub fn command<T: Threads + Wait + Sync + AllocGlobal, I: Read, W: Write, E: Write>(
    rt: &T,
    alloc: Global,
    words: &[String],
    files: &impl Files,
    input: &mut I,
    output: &mut W,
    errors: &mut E,
) -> u8 {
    let texts = match words_of(alloc, words) {
        Ok(texts) => texts,
        Err(_) => return tell(alloc, errors, Failure::NoMemory),
    };
    match perform(rt, alloc, &texts, files, input, output) {
        Ok(status) => status,
        Err(failure) => tell(alloc, errors, failure),
    }
}
