//! The functions of the C interface.

ghost use Rattle.std.specs.Prelude.{◌≡◌, nat_le};
ghost use Rattle.sha1.specs.Sha1.{sha1};
ghost use Rattle.embedded.specs.Classes.{class_at, text_at};
ghost use Rattle.embedded.specs.Answers.{IsVerdict, IsAnswer, reason_of};
ghost use Rattle.embedded.specs.Texts.{IsCopied};

use crate::args::args_of;
use crate::engine::Engine;
use crate::numbers::{
    ArgNumbers, CallNumbers, DoneNumbers, MANY_ARGUMENTS, NO_ARGUMENT, NO_CLASS, VerdictNumbers,
    accepted, before_of, done_numbers, not_run, refused,
};
use jtypes::Args;
use std::alloc::Global;

/// Verifies the bytes of a class, and stores it under the next number if it is accepted.
pub fn define(alloc: Global, engine: &mut Engine, bytes: &[u8]) -> VerdictNumbers
    ensures verdict { IsVerdict bytes.now engine.old result engine.new }
    ensures id { result.id ≡ sha1 bytes.now }
{
    match engine.define(alloc, bytes) {
        Ok(defined) => accepted(bytes, defined),
        Err(refusal) => refused(bytes, refusal),
    }
}

/// Returns why a call with this number of arguments is not run, given that there is no class or the arguments are invalid.
fn reason(engine: &Engine, number: u32, count: usize) -> u32
    ensures { result ≡ reason_of (class_at engine.now number) (nat_le count 8) }
{
    if !engine.has(number) {
        NO_CLASS
    } else if count > Args::MOST {
        MANY_ARGUMENTS
    } else {
        NO_ARGUMENT
    }
}

/// Runs the class with the call's number on the call's entry, with these arguments and without a loader.
pub fn invoke(engine: &mut Engine, call: &CallNumbers, args: &[ArgNumbers]) -> DoneNumbers
    ensures answer { IsAnswer engine.old call.now args.now result }
    ensures kept { engine.new ≡ engine.old }
{
    let before = before_of(call);
    match args_of(args) {
        Some(list) => match engine.invoke(call.number, call.key, before, &list) {
            Some(done) => done_numbers(done, before),
            None => not_run(NO_CLASS),
        },
        None => not_run(reason(engine, call.number, args.len())),
    }
}

/// Writes the text of the `String` constant at an index of the constant pool of the class with a number to `room`, cut to its length.
/// Returns the length of the whole text in bytes, or 0 if there is no such class or constant.
pub fn write_text(engine: &Engine, number: u32, index: u32, room: &mut [u8]) -> usize
    ensures { IsCopied (text_at engine.now number index) room.old result room.new }
{
    match engine.text(number, index) {
        Some(whole) => {
            let count = whole.len().min(room.len());
            room[..count].copy_from_slice(&whole[..count]);
            whole.len()
        }
        None => 0,
    }
}
