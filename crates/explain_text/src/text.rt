//! The output of `jentry explain`.

ghost use Rattle.std.specs.Prelude.{◌≡◌, IfOk, string_bytes};
ghost use Rattle.explain_text.specs.Texts.{IsText, IsWritten, first_word};

use crate::page::{put_cost, put_report, refusal_of};
use crate::writer::Text;
use explain::{Explained, explain};
use std::alloc::{AllocError, Global};

/// Returns the first word of the verdict, with a space.
fn first_word(explained: &Explained) -> &'static str
    ensures { result.now ≡ first_word explained.now }
{
    match explained {
        Explained::Accepted { .. } => "accepted ",
        _ => "refused ",
    }
}

/// Writes the rest of the verdict's line.
fn put_verdict(text: &mut Text, explained: &Explained) {
    if let Explained::Accepted { bounds, methods: _ } = explained {
        put_cost(text, bounds.steps, bounds.words, bounds.slots, bounds.depth);
    } else if let Some(refusal) = refusal_of(explained) {
        text.put_value("", refusal.number());
        text.put_value(" ", refusal);
        text.put("\n");
    }
}

/// Returns the output after the first word.
fn after_first_word(
    alloc: Global,
    bytes: &[u8],
    explained: &Explained,
) -> Result<String, AllocError> {
    let mut text = Text::new(alloc);
    put_verdict(&mut text, explained);
    put_report(alloc, &mut text, bytes, explained);
    text.finish()
}

/// Returns the output of `jentry explain` for a class file: the line of the verdict, then the report.
pub fn explanation(alloc: Global, bytes: &[u8]) -> Result<String, AllocError>
    ensures { IfOk result (λ text. IsText bytes.now (string_bytes text)) }
{
    let explained = explain(alloc, bytes)?;
    let rest = after_first_word(alloc, bytes, &explained)?;
    let mut text = String::from_str(alloc, first_word(&explained))?;
    text.push_str(rest.as_str())?;
    Ok(text)
}

/// Writes the output of `jentry explain` to `room`, cut to its length. Returns the length of the whole output in bytes.
/// If out of memory it writes nothing and returns 0.
pub fn write_explanation(alloc: Global, bytes: &[u8], room: &mut [u8]) -> usize
    ensures { IsWritten bytes.now room.old result room.new }
{
    match explanation(alloc, bytes) {
        Ok(text) => {
            let whole = text.as_bytes();
            let count = whole.len().min(room.len());
            room[..count].copy_from_slice(&whole[..count]);
            whole.len()
        }
        Err(AllocError) => 0,
    }
}
