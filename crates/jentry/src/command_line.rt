//! The command line.

use crate::output::Failure;
use clap::error::ErrorKind;
use clap::{Arg as Word, ArgAction, ArgMatches, Command, Error};
use jtypes::{Arg, Args};
use serve::{STEPS_PER_WORKER, Settings};
use std::alloc::{AllocError, Global};
use wire::Protocol;

/// The default number of workers of `serve`.
const WORKERS: usize = 4;
/// The default number of stripes of `serve`.
const STRIPES: usize = 16;

/// The action that a command line asks for.
#[derive(Drop)]
pub enum Action<'a> {
    /// Verifies the class in this file.
    Check {
        file: &'a str,
    },
    /// Verifies it, and explains where it is refused, or what its methods cost.
    Explain {
        file: &'a str,
    },
    /// Verifies it, and runs it on this key, with this entry before and these arguments.
    Run {
        file: &'a str,
        key: i64,
        before: Option<i64>,
        args: Args,
    },
    /// Serves the requests of the input, with the table in this file as the loader if there is one.
    Serve {
        settings: Settings,
        load: Option<&'a str>,
    },
}

fn value<'a>(alloc: Global, name: &'a str) -> Word<'a> {
    Word::new(alloc, name).required(true).action(ArgAction::Set)
}

/// Returns an option with a value, which may occur once.
fn option<'a>(alloc: Global, name: &'a str) -> Word<'a> {
    Word::new(alloc, name).long(name).action(ArgAction::Set)
}

/// Returns a command without options.
fn command<'a>(alloc: Global, name: &'a str) -> Command<'a> {
    Command::new(alloc, name).disable_help_flag(true)
}

/// Returns a command with the argument `FILE`.
fn on_file<'a>(alloc: Global, name: &'a str) -> Result<Command<'a>, AllocError> {
    command(alloc, name).arg(value(alloc, "FILE"))
}

/// `run FILE KEY VALUE [ARGS..]`
fn run_form<'a>(alloc: Global) -> Result<Command<'a>, AllocError> {
    let args = Word::new(alloc, "ARGS")
        .num_args(0..)
        .action(ArgAction::Append);
    on_file(alloc, "run")?
        .arg(value(alloc, "KEY"))?
        .arg(value(alloc, "VALUE"))?
        .arg(args)
}

/// `serve [--workers N] [--stripes N] [--load FILE] [--protocol N]`
fn serve_form<'a>(alloc: Global) -> Result<Command<'a>, AllocError> {
    command(alloc, "serve")
        .arg(option(alloc, "workers"))?
        .arg(option(alloc, "stripes"))?
        .arg(option(alloc, "load"))?
        .arg(option(alloc, "protocol"))
}

/// Returns the grammar of the command line: `check FILE`, `explain FILE`, `run` and `serve`.
fn form<'a>(alloc: Global) -> Result<Command<'a>, AllocError> {
    command(alloc, "jentry")
        .no_binary_name(true)
        .disable_help_subcommand(true)
        .subcommand_required(true)
        .subcommand(on_file(alloc, "check")?)?
        .subcommand(on_file(alloc, "explain")?)?
        .subcommand(run_form(alloc)?)?
        .subcommand(serve_form(alloc)?)
}

fn matches_of<'a>(alloc: Global, words: &'a [&'a str]) -> Result<ArgMatches<'a>, Error> {
    form(alloc)?.try_get_matches_from(words)
}

/// Parses an unsigned decimal number that fits a `long`. Leading zeros are allowed.
fn number(text: &str) -> Option<i64> {
    if text.is_empty() || !text.bytes().all(|b| b.is_ascii_digit()) {
        return None;
    }
    text.parse::<i64>().ok()
}

/// Parses an argument: a number, a number that fits an `int` followed by `i`, `false`, `true`, or `null`.
fn argument(text: &str) -> Option<Arg> {
    match text {
        "null" => return Some(Arg::Null),
        "false" => return Some(Arg::Boolean(false)),
        "true" => return Some(Arg::Boolean(true)),
        _ => {}
    }
    match text.strip_suffix("i") {
        None => Some(Arg::Long(number(text)?)),
        Some(digits) => {
            let n = i32::try_from(number(digits)?).ok()?;
            Some(Arg::Integer(n))
        }
    }
}

/// Parses an entry: a number, or `none`.
fn entry(text: &str) -> Option<Option<i64>> {
    if text == "none" {
        return Some(None);
    }
    Some(Some(number(text)?))
}

/// Parses the arguments, at most eight.
fn arguments(words: &[&str]) -> Option<Args> {
    if words.len() > Args::MOST {
        return None;
    }
    let mut args = [Arg::Null; 8];
    for (place, word) in args.iter_mut().zip(words) {
        *place = argument(word)?;
    }
    Args::of(&args[..words.len()])
}

/// Parses the values of `run`.
fn run_of<'a>(matches: &ArgMatches<'a>, file: &'a str) -> Option<Action<'a>> {
    let key = number(matches.get_str("KEY")?)?;
    let before = entry(matches.get_str("VALUE")?)?;
    let args = match matches.get_strs("ARGS") {
        Some(words) => arguments(words)?,
        None => Args::none(),
    };
    Some(Action::Run {
        file,
        key,
        before,
        args,
    })
}

/// Parses the value of an option, 1 to 9 digits, or returns `without` if the option is absent.
fn count(matches: &ArgMatches<'_>, name: &str, without: usize) -> Option<usize> {
    let Some(text) = matches.get_str(name) else {
        return Some(without);
    };
    if text.len() > 9 {
        return None;
    }
    usize::try_from(number(text)?).ok()
}

/// Parses the number of a protocol, 1 or 2, or returns protocol 1 if the option is absent.
fn protocol_of(matches: &ArgMatches<'_>) -> Option<Protocol> {
    match count(matches, "protocol", 1)? {
        1 => Some(Protocol::One),
        2 => Some(Protocol::Two),
        _ => None,
    }
}

/// Parses the settings of `serve`.
fn settings_of(matches: &ArgMatches<'_>) -> Option<Settings> {
    Some(Settings {
        workers: count(matches, "workers", WORKERS)?,
        stripes: count(matches, "stripes", STRIPES)?,
        share: STEPS_PER_WORKER,
        protocol: protocol_of(matches)?,
    })
}

fn action_of<'a>(matches: &ArgMatches<'a>) -> Result<Action<'a>, Failure<'a>> {
    let Some((name, found)) = matches.subcommand() else {
        return Err(Failure::BadCommandLine);
    };
    if name == "serve" {
        return match settings_of(found) {
            Some(settings) => Ok(Action::Serve {
                settings,
                load: found.get_str("load"),
            }),
            None => Err(Failure::BadCommandLine),
        };
    }
    let Some(file) = found.get_str("FILE") else {
        return Err(Failure::BadCommandLine);
    };
    if name == "check" {
        return Ok(Action::Check { file });
    }
    if name == "explain" {
        return Ok(Action::Explain { file });
    }
    match run_of(found, file) {
        Some(request) => Ok(request),
        None => Err(Failure::BadArgument),
    }
}

/// Parses a command line, first its form and then its values.
pub fn parse<'a>(alloc: Global, words: &'a [&'a str]) -> Result<Action<'a>, Failure<'a>> {
    match matches_of(alloc, words) {
        Ok(matches) => action_of(&matches),
        Err(e) => match e.kind() {
            ErrorKind::OutOfMemory => Err(Failure::NoMemory),
            _ => Err(Failure::BadCommandLine),
        },
    }
}
