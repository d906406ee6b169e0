//! The `jentry` program.
#![tactic(auto)]

mod command_line;
mod explaining;
mod files;
mod output;
mod program;

use files::RealFiles;
use program::{command, no_memory};
use std::alloc::AllocError;
use std::env;
use std::io::ErrorKind;
use std::process::ExitCode;
use std::rt::Env;

/// Returns the arguments of the command line, or an empty list if one is not UTF-8.
fn words_of(rt: &(impl Env + AllocGlobal)) -> Result<Vec<String>, AllocError> {
    let mut words = Vec::new(rt.alloc());
    match env::args(rt) {
        Ok(args) => {
            for word in args.skip(1) {
                words.push(word)?;
            }
        }
        Err(e) if e.kind() == ErrorKind::OutOfMemory => return Err(AllocError),
        Err(_) => {}
    }
    Ok(words)
}

fn main(rt: HostRuntime) -> ExitCode {
    let mut errors = rt.stderr();
    let Ok(words) = words_of(&rt) else {
        return ExitCode::from(no_memory(&mut errors));
    };
    let files = RealFiles::new(&rt);
    ExitCode::from(command(
        &rt,
        rt.alloc(),
        &words,
        &files,
        &mut rt.stdin(),
        &mut rt.stdout(),
        &mut errors,
    ))
}
