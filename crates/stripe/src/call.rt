//! Calls on a stripe, their replies and their records.

ghost use Rattle.std.specs.Prelude.{◌≡◌, Bool};
ghost use Rattle.jtypes.specs.Entry.{after_effect};
ghost use Rattle.jtypes.specs.Loading.{IsGiven};
ghost use Rattle.stripe.specs.History.{IsGot};
ghost use Rattle.stripe.specs.Kept.{IsAsked};

use crate::args::ArgSlice;
use ended::Done;
use jtypes::{Effect, JavaFault, LoadAnswer, Loader, Outcome};
use mutentry::effect_leads_from_before_to_now;
use verify::Verified;

/// A call on a key (JSR 107, `Cache`).
#[derive(Clone, Copy)]
pub enum Call<'a> {
    /// `invoke`, of an entry processor of this class.
    Invoke {
        class: &'a Verified,
        key: i64,
        args: ArgSlice<'a>,
    },
    /// `get`
    Get {
        key: i64,
    },
    /// `put`
    Put {
        key: i64,
        value: i64,
    },
    /// `remove`
    Remove {
        key: i64,
    },
    /// `containsKey`
    Contains {
        key: i64,
    },
}

/// The reply to a call.
#[derive(Clone, Copy, PartialEq, Eq)]
pub enum Reply {
    /// The outcome of an invocation, or of a `get` whose loader failed.
    Result(Outcome),
    /// The reply to `put`.
    Done,
    /// The reply to `get`: the entry, if any. A `get` whose loader failed has a `Result`.
    Value(Option<i64>),
    /// The reply to `remove` and `containsKey`: whether there was an entry.
    Flag(bool),
}

/// The record of a committed call, with its reply and the entry that it left.
#[derive(Clone, Copy)]
pub struct Record<'a> {
    pub caller: u8,
    /// The number of the call among its caller's calls, from 0.
    pub number: u32,
    pub call: Call<'a>,
    pub reply: Reply,
    pub after: Option<i64>,
    /// The loader's answer, if the call asked it.
    pub asked: Option<LoadAnswer>,
}

/// An open call, with the entry that it found.
#[derive(Clone, Copy)]
pub struct OpenCall<'a> {
    pub caller: u8,
    pub number: u32,
    pub call: Call<'a>,
    /// Whether there is a loader to ask.
    pub loads: bool,
    pub before: Option<i64>,
}

impl<'a> Call<'a> {
    ghost use Rattle.std.specs.Prelude.{◌≡◌};
    ghost use Rattle.stripe.specs.History.{key_of};
    ghost use Rattle.stripe.specs.Kept.{may_make};
    ghost use Rattle.stripe.specs.Seen.{call_of};

    /// Returns the key of the call.
    pub fn key(&self) -> i64
        ensures { result ≡ key_of (call_of self.now) }
    {
        match *self {
            Call::Invoke { key, .. } => key,
            Call::Get { key } => key,
            Call::Put { key, .. } => key,
            Call::Remove { key } => key,
            Call::Contains { key } => key,
        }
    }

    /// Returns whether the call may create an entry. `loads` says whether there is a loader to ask.
    pub(crate) fn may_make(&self, loads: bool) -> bool
        ensures { result ≡ may_make loads (call_of self.now) }
    {
        match self {
            Call::Invoke { .. } | Call::Put { .. } => true,
            Call::Get { .. } => loads,
            Call::Remove { .. } | Call::Contains { .. } => false,
        }
    }
}

/// Returns the entry that an invocation leaves, by its effect on the entry that it found.
fn entry_after(effect: Effect, before: Option<i64>) -> Option<i64>
    ensures { result ≡ after_effect effect before }
{
    match effect {
        Effect::Keep => before,
        Effect::Put(value) => Some(value),
        Effect::Delete => None,
    }
}

/// Asks the loader for a `get` that found the entry `before`, if that is none and there is a loader (JSR 107, `CacheLoader`).
/// Returns the loader's answer, or none if it wasn't asked.
pub fn ask<L: Loader>(loader: &L, key: i64, before: Option<i64>) -> Option<LoadAnswer>
    ensures asked { IsAsked L.ASKS before result }
    ensures given { IsGiven (L.gives loader.now) key result }
{
    if L::ASKS && before.is_none() {
        Some(LoadAnswer::of(loader.load(key)))
    } else {
        None
    }
}

/// Returns the reply to a `get` and the entry that it leaves, by the entry that it found and the loader's answer, if it was asked.
fn got(before: Option<i64>, asked: Option<LoadAnswer>) -> (Reply, Option<i64>)
    ensures { (loads : Bool) → IsAsked loads before asked → IsGot loads before result.0 result.1 asked }
{
    match asked {
        None => (Reply::Value(before), before),
        Some(LoadAnswer::None) => (Reply::Value(None), None),
        Some(LoadAnswer::Value(value)) => (Reply::Value(Some(value)), Some(value)),
        Some(LoadAnswer::Failed) => (Reply::Result(Outcome::Threw(JavaFault::CacheLoader)), None),
    }
}

impl<'a> OpenCall<'a> {
    ghost use Rattle.std.specs.Prelude.{◌≡◌};
    ghost use Rattle.stripe.specs.Kept.{IsEnd, IsRecord, asked_by};
    ghost use Rattle.stripe.specs.Seen.{call_of, begun_of, record_of};

    /// Returns the record of the call. `done` is the end of an invocation, `asked` the loader's answer to a `get`, if it was asked.
    #[inline(always)]
    pub(crate) fn record(&self, done: Option<Done>, asked: Option<LoadAnswer>) -> Record<'a>
        requires { IsEnd self.now.loads self.now.before (call_of self.now.call) done asked }
        ensures is { IsRecord (begun_of self.now) self.now.before (record_of result) }
        ensures asked { result.asked ≡ asked_by done asked }
    {
        effect_leads_from_before_to_now();
        let before = self.before;
        let (reply, after, asked) = match self.call {
            Call::Invoke { .. } => {
                let Some(done) = done else { unreachable!() };
                let after = entry_after(done.effect, before);
                (Reply::Result(done.outcome), after, done.asked)
            }
            Call::Get { .. } => {
                let (reply, after) = got(before, asked);
                (reply, after, asked)
            }
            Call::Put { value, .. } => (Reply::Done, Some(value), None),
            Call::Remove { .. } => (Reply::Flag(before.is_some()), None, None),
            Call::Contains { .. } => (Reply::Flag(before.is_some()), before, None),
        };
        Record {
            caller: self.caller,
            number: self.number,
            call: self.call,
            reply,
            after,
            asked,
        }
    }
}
