//! Writing of replies.

ghost use Rattle.std.specs.Prelude.{◌≡◌, ◌*◌, ◌<◌, ◌≤◌, ◌^◌, ◌++◌, length, OnOk, OnErr};
ghost use Rattle.wire.specs.Frames.{frame, texts, job_text, reply_frame, results_text, IsReply, most_outcomes};
ghost use Rattle.wire.specs.Streams.{Wrote, WrotePart};
ghost use Rattle.wire.specs.declared.reply.Reply.TheVariants.{Result};
ghost use Rattle.jtypes.specs.declared.types.Outcome.TheVariants.{Returned};
ghost use Rattle.jtypes.specs.declared.types.Arg.TheVariants.{Long};

use crate::reply_texts::{
    byte_text, defined_text, job_text, kind_text, refused_text, result_text, value_text,
    version_text,
};
use crate::text::Text;
use crate::{Counted, JobOutcome, Reply};
use jtypes::{Arg, Outcome};
use std::alloc::AllocError;
use std::io::Write;

/// A write or a flush returned an error, or a write accepted no byte.
#[derive(Clone, Copy, Debug, PartialEq, Eq)]
pub struct WriteFailed;

/// Writes all the bytes. On failure a prefix of them is written.
pub fn write_bytes<W: Write>(writer: &mut Counted<W>, bytes: &[u8]) -> Result<(), WriteFailed>
    ensures ok { OnOk result (Wrote W.contents writer.old writer.new bytes.now) }
    ensures err { OnErr result (WrotePart W.contents writer.old writer.new bytes.now) }
{
    let mut rest = bytes;
    while !rest.is_empty() {
        match writer.write(rest) {
            Ok(0) => return Err(WriteFailed),
            Ok(n) => rest = &rest[n..],
            Err(_) => return Err(WriteFailed),
        }
    }
    Ok(())
}

/// Writes the frame of a reply, which the writer may buffer until it is flushed. On failure a prefix of the frame is written.
pub fn write_reply<W: Write>(writer: &mut Counted<W>, reply: &Reply) -> Result<(), WriteFailed>
    requires { IsReply reply.now }
    ensures ok { OnOk result (Wrote W.contents writer.old writer.new (reply_frame reply.now)) }
    ensures err { OnErr result (WrotePart W.contents writer.old writer.new (reply_frame reply.now)) }
{
    match reply {
        Reply::Defined {
            class,
            steps,
            words,
        } => write_text(writer, defined_text(*class, *steps, *words)),
        Reply::Refused(refusal) => write_text(writer, refused_text(*refusal)),
        Reply::Done => write_text(writer, kind_text(3)),
        Reply::Value(None) => write_text(writer, byte_text(4, 0)),
        Reply::Value(Some(n)) => write_text(writer, value_text(*n)),
        Reply::Flag(flag) => write_text(writer, byte_text(5, u8::from(*flag))),
        Reply::Result(outcome) => write_text(writer, result_text(*outcome)),
        Reply::Results(jobs) => write_results(writer, jobs.as_slice()),
        Reply::Denied(denial) => write_text(writer, byte_text(8, denial.number())),
        Reply::RoundEnd => write_text(writer, kind_text(9)),
        Reply::Version(protocol) => write_text(writer, version_text(*protocol)),
    }
}

/// Appends the frame of an invocation's outcome to `bytes`, as `write_reply` encodes it.
/// Fast path: the frame of a returned `Long`, the usual outcome, is encoded in `bytes` without a `Text`.
pub fn add_result(bytes: &mut Vec<u8>, outcome: Outcome) -> Result<(), AllocError>
    ensures { OnOk result (bytes.new.items ≡ bytes.old.items ++ reply_frame (Result outcome)) }
{
    match outcome {
        Outcome::Returned(Arg::Long(n)) => add_returned_long(bytes, n),
        _ => bytes.extend_from_slice(result_text(outcome).framed().as_slice()),
    }
}

fn add_returned_long(bytes: &mut Vec<u8>, n: i64) -> Result<(), AllocError>
    ensures { OnOk result (bytes.new.items ≡ bytes.old.items ++ reply_frame (Result (Returned (Long n)))) }
{
    bytes.extend_from_slice(&[0, 0, 0, 11, 6, 0, 1])?;
    bytes.extend_from_slice(&n.cast_unsigned().to_be_bytes())
}

fn write_text<W: Write>(writer: &mut Counted<W>, text: Text) -> Result<(), WriteFailed>
    ensures ok { OnOk result (Wrote W.contents writer.old writer.new (frame text)) }
    ensures err { OnErr result (WrotePart W.contents writer.old writer.new (frame text)) }
{
    write_bytes(writer, text.framed().as_slice())
}

fn write_results<W: Write>(
    writer: &mut Counted<W>,
    jobs: &[(i64, JobOutcome)],
) -> Result<(), WriteFailed>
    requires { length jobs.now ≤ most_outcomes }
    ensures ok { OnOk result (Wrote W.contents writer.old writer.new (frame (results_text jobs.now))) }
    ensures err { OnErr result (WrotePart W.contents writer.old writer.new (frame (results_text jobs.now))) }
{
    let head = results_head(jobs);
    write_bytes(writer, head.as_slice())?;
    write_jobs(writer, jobs)
}

// Returns the bytes before the outcomes: the length field, the kind and the count.
fn results_head(jobs: &[(i64, JobOutcome)]) -> Text
    requires { length jobs.now ≤ most_outcomes }
    ensures { result ++ texts job_text jobs.now ≡ frame (results_text jobs.now) }
{
    let mut head = Text::new();
    head.u32(3 + length_of(jobs));
    head.byte(7);
    head.u16(jobs.len() as u16);
    head
}

// Returns the total length of the outcomes' texts, in bytes.
fn length_of(jobs: &[(i64, JobOutcome)]) -> u32
    requires { length jobs.now ≤ most_outcomes }
    ensures value { result ≡ length (texts job_text jobs.now) }
    ensures small { result ≤ 18 * most_outcomes }
{
    let mut total = 0;
    for job in jobs {
        total += job_text(job).len();
    }
    total
}

fn write_jobs<W: Write>(
    writer: &mut Counted<W>,
    jobs: &[(i64, JobOutcome)],
) -> Result<(), WriteFailed>
    ensures ok { OnOk result (Wrote W.contents writer.old writer.new (texts job_text jobs.now)) }
    ensures err { OnErr result (WrotePart W.contents writer.old writer.new (texts job_text jobs.now)) }
{
    for job in jobs {
        let text = job_text(job);
        write_bytes(writer, text.as_slice())?;
    }
    Ok(())
}
