//! Replies from the answers to jobs.

ghost use Rattle.std.specs.Prelude.{◌≡◌, ◌≤◌, ◌++◌, None, length, map, drop, slice_index_or, IfOk, OnOk};
ghost use Rattle.std.specs.List.{All};
ghost use Rattle.invokeall.specs.Rounds.{reply_of};
ghost use Rattle.workers.specs.Buffers.{HasPlace};
ghost use Rattle.wire.specs.Frames.{IsReply, reply_frame};
ghost use Rattle.serve.specs.Rounds.{work_reply, job_reply as reply_of_answer, all_listed, listed, most_jobs};
ghost use Rattle.serve.specs.Served.{all_told, replies_text};
ghost use Rattle.serve.specs.Kept.{work_of};

use crate::batch::{Work, no_items};
use cache::InvokeRefusal;
use invokeall::JobReply;
use jtypes::{Arg, Items, Outcome};
use std::alloc::{AllocError, Global};
use std::mem;
use stripe::Reply as Answer;
use wire::{Counted, Denial, JobOutcome, Reply, add_result, write_reply};

/// The bytes to preallocate for each reply and for the round's end. The frame of a returned `Long` has 15 bytes.
const REPLY: usize = 16;

/// Returns the frames of the replies to a round's requests, and of its `RoundEnd`.
pub fn text_of(
    alloc: Global,
    works: &[Work<'_>],
    answers: &[JobReply],
) -> Result<Vec<u8>, AllocError>
    requires { All HasPlace answers.now }
    ensures { IfOk result (λ text. text.items ≡ replies_text (all_told (map (work_reply (map reply_of answers.now)) (map work_of works.now)))) }
{
    let frames = works.len().saturating_add(1);
    let mut text = no_items(alloc, frames.saturating_mul(REPLY));
    for work in works {
        tell(alloc, &mut text, work, answers)?;
    }
    add_reply(alloc, &mut text, Reply::RoundEnd)?;
    Ok(text)
}

/// Appends the frame of the reply to a request.
fn tell(
    alloc: Global,
    text: &mut Vec<u8>,
    work: &Work<'_>,
    answers: &[JobReply],
) -> Result<(), AllocError>
    requires { All HasPlace answers.now }
    ensures { OnOk result (text.new.items ≡ text.old.items ++ reply_frame (work_reply (map reply_of answers.now) (work_of work.now))) }
{
    match work {
        Work::Job(at) => reply_to_job(alloc, text, answers, *at as usize),
        work => add_reply(alloc, text, reply_to(alloc, work, answers)?),
    }
}

/// Appends the frame of the reply to a request with one job.
fn reply_to_job(
    alloc: Global,
    text: &mut Vec<u8>,
    answers: &[JobReply],
    at: usize,
) -> Result<(), AllocError>
    requires { All HasPlace answers.now }
    ensures { OnOk result (text.new.items ≡ text.old.items ++ reply_frame (reply_of_answer (slice_index_or (map reply_of answers.now) at None))) }
{
    if at < answers.len() {
        if let Ok(Answer::Result(outcome)) = &answers[at] {
            return add_result(text, *outcome);
        }
    }
    add_reply(alloc, text, job_reply(answer_at(answers, at)))
}

fn add_reply(alloc: Global, text: &mut Vec<u8>, reply: Reply) -> Result<(), AllocError>
    requires { IsReply reply }
    ensures { OnOk result (text.new.items ≡ text.old.items ++ reply_frame reply) }
{
    let mut writer = Counted::new(mem::replace(text, Vec::new(alloc)));
    let result = write_reply(&mut writer, &reply);
    *text = writer.into_inner();
    match result {
        Ok(()) => Ok(()),
        Err(_) => Err(AllocError),
    }
}

fn reply_to(alloc: Global, work: &Work<'_>, answers: &[JobReply]) -> Result<Reply, AllocError>
    requires { All HasPlace answers.now }
    ensures reply { IfOk result (λ reply. reply ≡ work_reply (map reply_of answers.now) (work_of work.now)) }
    ensures framed { IfOk result IsReply }
{
    match *work {
        Work::Defined {
            class,
            steps,
            words,
        } => Ok(Reply::Defined {
            class,
            steps,
            words,
        }),
        Work::Refused(refusal) => Ok(Reply::Refused(refusal)),
        Work::Denied(denial) => Ok(Reply::Denied(denial)),
        Work::Version => Ok(Reply::Version(2)),
        Work::Forgotten => Ok(Reply::Done),
        Work::Job(at) => Ok(job_reply(answer_at(answers, at as usize))),
        Work::JobForEach(at, keys) => {
            let list = results(alloc, answers_from(answers, at as usize), keys.items)?;
            Ok(Reply::Results(Items::new(list)))
        }
    }
}

/// Returns the reply of an answer, or none if the job is out of memory.
fn reply_in(answer: &JobReply) -> Option<Answer>
    requires { HasPlace answer.now }
    ensures { result ≡ reply_of answer.now }
{
    match *answer {
        Ok(reply) => Some(reply),
        Err(InvokeRefusal::NoMemory) => None,
        Err(InvokeRefusal::JournalFull) => unreachable!(),
    }
}

fn answer_at(answers: &[JobReply], at: usize) -> Option<Answer>
    requires { All HasPlace answers.now }
    ensures { result ≡ slice_index_or (map reply_of answers.now) at None }
{
    if at < answers.len() {
        reply_in(&answers[at])
    } else {
        None
    }
}

/// Returns the answers to the jobs from this index on.
fn answers_from(answers: &[JobReply], at: usize) -> &[JobReply]
    requires { All HasPlace answers.now }
    ensures answers { map reply_of result.now ≡ drop at (map reply_of answers.now) }
    ensures placed { All HasPlace result.now }
{
    if at < answers.len() {
        &answers[at..]
    } else {
        &[]
    }
}

fn job_reply(answer: Option<Answer>) -> Reply
    ensures reply { result ≡ reply_of_answer answer }
    ensures framed { IsReply result }
{
    match answer {
        None => Reply::Denied(Denial::NoMemory),
        Some(Answer::Result(outcome)) => Reply::Result(outcome),
        Some(Answer::Done) => Reply::Done,
        Some(Answer::Value(value)) => Reply::Value(value),
        Some(Answer::Flag(flag)) => Reply::Flag(flag),
    }
}

/// Returns the outcomes listed for the keys. `answers` begins with the answers to their jobs.
fn results(
    alloc: Global,
    answers: &[JobReply],
    keys: &[i64],
) -> Result<Vec<(i64, JobOutcome)>, AllocError>
    requires { All HasPlace answers.now }
    ensures { IfOk result (λ list. list.items ≡ all_listed (map reply_of answers.now) keys.now) }
{
    let mut list = Vec::new(alloc);
    for i in 0..keys.len() {
        list_job(&mut list, &keys[i], answer_at(answers, i))?;
    }
    Ok(list)
}

fn list_job(
    list: &mut Vec<(i64, JobOutcome)>,
    key: &i64,
    answer: Option<Answer>,
) -> Result<(), AllocError>
    ensures { OnOk result (list.new.items ≡ list.old.items ++ listed key.now answer) }
{
    match answer {
        None => list.push((*key, JobOutcome::Denied(Denial::NoMemory)))?,
        Some(Answer::Result(Outcome::Returned(Arg::Null))) => {}
        Some(Answer::Result(outcome)) => list.push((*key, JobOutcome::Ended(outcome)))?,
        Some(_) => {}
    }
    Ok(())
}
