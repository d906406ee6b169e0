//! The texts of replies: a kind byte and a body.

ghost use Rattle.std.specs.Prelude.{◌≡◌, ◌+◌, ◌≤◌, [], ◌∷◌, ◌++◌, length};
ghost use Rattle.byteorder.specs.Endian.{big_bytes};
ghost use Rattle.wire.specs.Frames.{long_text, arg_text, fault_text, outcome_text, job_text, reply_text};
ghost use Rattle.wire.specs.declared.reply.Reply.TheVariants.{Defined, Refused, Value, Result, Version};
ghost use Rattle.std.specs.Prelude.{Some};

use crate::JobOutcome;
use crate::text::Text;
use jtypes::{Arg, JavaFault, Outcome, Refusal};

/// Returns the text of a reply without a body.
pub fn kind_text(kind: u8) -> Text
    ensures { result ≡ kind ∷ [] }
{
    let mut text = Text::new();
    text.byte(kind);
    text
}

/// Returns the text of a reply with a body of one byte.
pub fn byte_text(kind: u8, n: u8) -> Text
    ensures { result ≡ kind ∷ n ∷ [] }
{
    let mut text = Text::new();
    text.byte(kind);
    text.byte(n);
    text
}

pub fn defined_text(class: u32, steps: u32, words: u32) -> Text
    ensures { result ≡ reply_text (Defined class steps words) }
{
    let mut text = Text::new();
    text.byte(1);
    text.u32(class);
    text.u32(steps);
    text.u32(words);
    text
}

pub fn refused_text(refusal: Refusal) -> Text
    ensures { result ≡ reply_text (Refused refusal) }
{
    let mut text = Text::new();
    text.byte(2);
    text.byte(refusal.number());
    text.u32(refusal.detail());
    text
}

pub fn version_text(protocol: u32) -> Text
    ensures { result ≡ reply_text (Version protocol) }
{
    let mut text = Text::new();
    text.byte(10);
    text.u32(protocol);
    text
}

pub fn value_text(n: i64) -> Text
    ensures { result ≡ reply_text (Value (Some n)) }
{
    let mut text = Text::new();
    text.byte(4);
    text.byte(1);
    text.long(n);
    text
}

pub fn result_text(outcome: Outcome) -> Text
    ensures { result ≡ reply_text (Result outcome) }
{
    let mut text = Text::new();
    text.byte(6);
    add_outcome(&mut text, outcome);
    text
}

pub fn job_text(job: &(i64, JobOutcome)) -> Text
    ensures { result ≡ job_text job.now }
{
    let (key, outcome) = job;
    let mut text = Text::new();
    text.long(*key);
    match outcome {
        JobOutcome::Ended(outcome) => add_outcome(&mut text, *outcome),
        JobOutcome::Denied(denial) => {
            text.byte(2);
            text.byte(denial.number());
        }
    }
    text
}

fn add_outcome(text: &mut Text, outcome: Outcome)
    requires { length text.old ≤ 8 }
    ensures { text.new ≡ text.old ++ outcome_text outcome }
{
    match outcome {
        Outcome::Returned(arg) => {
            text.byte(0);
            add_arg(text, arg);
        }
        Outcome::Threw(fault) => add_fault(text, fault),
    }
}

fn add_fault(text: &mut Text, fault: JavaFault)
    requires { length text.old ≤ 8 }
    ensures { text.new ≡ text.old ++ fault_text fault }
{
    match fault {
        JavaFault::Thrown(exception, index) => {
            text.byte(3);
            text.byte(exception.number());
            text.u16(index);
        }
        _ => {
            text.byte(1);
            text.byte(fault.number());
        }
    }
}

fn add_arg(text: &mut Text, arg: Arg)
    requires { length text.old ≤ 9 }
    ensures { text.new ≡ text.old ++ arg_text arg }
{
    match arg {
        Arg::Null => text.byte(0),
        Arg::Long(n) => {
            text.byte(1);
            text.long(n);
        }
        Arg::Integer(n) => {
            text.byte(2);
            text.int(n);
        }
        Arg::Boolean(false) => text.byte(3),
        Arg::Boolean(true) => text.byte(4),
    }
}
