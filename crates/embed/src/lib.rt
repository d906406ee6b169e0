//! The C interface: an engine behind a handle, with the exports of clients/c/jentry.h.
#![tactic(auto)]

ghost use Rattle.std.specs.Prelude.{◌≡◌, [], None, IfOk};
ghost use Rattle.sha1.specs.Sha1.{sha1};
ghost use Rattle.explain_text.specs.Texts.{IsWritten};
ghost use Rattle.embedded.specs.Texts.{IsCopied};
ghost use Rattle.embed.specs.Exports.{engine_of, engine_text, IsOpened, IsJudged, IsForgotten, IsRun};

mod handle;

use embedded::{
    ArgNumbers, CallNumbers, DoneNumbers, Engine, NO_CLASS, VerdictNumbers, define, invoke,
    not_run, refused, write_text,
};
use explain_text::write_explanation;
pub use handle::Handle;
use jtypes::Refusal;
use std::alloc::{AllocError, Global};

/// The handle has a new engine.
const OPENED: u32 = 0;
/// There is no memory for an engine.
const NO_MEMORY: u32 = 1;
/// The handle already had an engine.
const IS_OPEN: u32 = 2;

/// Returns an engine without classes, on the heap.
fn empty_engine(alloc: Global) -> Result<Box<Engine>, AllocError>
    ensures { IfOk result (λ b. b.value ≡ []) }
{
    match Box::new(alloc, Engine::new(alloc)?) {
        Ok(engine) => Ok(engine),
        Err(_) => Err(AllocError),
    }
}

/// Opens a handle with a new engine. Returns 0, 1 if out of memory, or 2 if the handle is already open. With 1 or 2 nothing changes.
#[unsafe(no_mangle)]
pub extern "C" fn jentry_open(alloc: Global, handle: &mut Handle) -> u32
    ensures { IsOpened (engine_of handle.old) result (engine_of handle.new) }
{
    if handle.is_open() {
        return IS_OPEN;
    }
    match empty_engine(alloc) {
        Ok(engine) => {
            handle.put(engine);
            OPENED
        }
        Err(_) => NO_MEMORY,
    }
}

/// Closes a handle and frees its engine, if there is one.
#[unsafe(no_mangle)]
pub extern "C" fn jentry_close(alloc: Global, handle: &mut Handle)
    ensures { engine_of handle.new ≡ None }
{
    let _engine = handle.out(alloc);
}

/// Verifies a class file, and keeps the class if it is accepted. A handle that isn't open refuses it with `NoMemory`.
#[unsafe(no_mangle)]
pub extern "C" fn jentry_define(
    alloc: Global,
    handle: &mut Handle,
    bytes: &[u8],
    verdict: &mut VerdictNumbers,
)
    ensures judged { IsJudged (engine_of handle.old) bytes.now verdict.new (engine_of handle.new) }
    ensures id { verdict.new.id ≡ sha1 bytes.now }
{
    match handle.out(alloc) {
        Some(mut engine) => {
            *verdict = define(alloc, &mut engine, bytes);
            handle.put(engine);
        }
        None => *verdict = refused(bytes, Refusal::NoMemory),
    }
}

/// Forgets the class with this number. Returns 1, or 0 if there is none.
#[unsafe(no_mangle)]
pub extern "C" fn jentry_forget(alloc: Global, handle: &mut Handle, number: u32) -> u32
    ensures { IsForgotten (engine_of handle.old) number result (engine_of handle.new) }
{
    match handle.out(alloc) {
        Some(mut engine) => {
            let found = engine.forget(number);
            handle.put(engine);
            u32::from(found)
        }
        None => 0,
    }
}

/// Runs a class on an entry. A handle that isn't open answers `NO_CLASS`.
#[unsafe(no_mangle)]
pub extern "C" fn jentry_invoke(
    alloc: Global,
    handle: &mut Handle,
    call: &CallNumbers,
    args: &[ArgNumbers],
    done: &mut DoneNumbers,
)
    ensures { IsRun (engine_of handle.old) call.now args.now done.new (engine_of handle.new) }
{
    match handle.out(alloc) {
        Some(mut engine) => {
            *done = invoke(&mut engine, call, args);
            handle.put(engine);
        }
        None => *done = not_run(NO_CLASS),
    }
}

/// Writes the output of `jentry explain` for a class file to `text`, cut to its length.
/// Returns the length of the whole output in bytes, or 0 if out of memory.
#[unsafe(no_mangle)]
pub extern "C" fn jentry_explain(alloc: Global, bytes: &[u8], text: &mut [u8]) -> usize
    ensures { IsWritten bytes.now text.old result text.new }
{
    write_explanation(alloc, bytes, text)
}

/// Writes the text of the `String` constant at an index of a class's constant pool to `text`, in modified UTF-8 and cut to its length.
/// Returns the length of the whole text in bytes, or 0 if there is no such class or constant. A handle that isn't open has no class.
#[unsafe(no_mangle)]
pub extern "C" fn jentry_text(
    alloc: Global,
    handle: &mut Handle,
    number: u32,
    index: u32,
    text: &mut [u8],
) -> usize
    ensures written { IsCopied (engine_text (engine_of handle.old) number index) text.old result text.new }
    ensures kept { engine_of handle.new ≡ engine_of handle.old }
{
    match handle.out(alloc) {
        Some(engine) => {
            let length = write_text(&engine, number, index, text);
            handle.put(engine);
            length
        }
        None => 0,
    }
}
