//! The calls of a cache.

ghost use Rattle.std.specs.Prelude.{◌≡◌, ◌<◌, ◌≤◌, vec_len, vec_capacity, IsTrue, IsFalse};
ghost use Rattle.stripe.specs.History.{key_of, stripe_of};
ghost use Rattle.stripe.specs.Seen.{call_of};

use crate::cache::Cache;
use crate::gate::{Gate, NoGate};
use crate::receipt::Receipt;
use crate::refusal::InvokeRefusal;
use crate::seat::Seat;
use crate::steps::{begin, commit, give_full, hold, hold_within, leave, note};
use jtypes::{LoadAnswer, Loader};
use machine::{Done, Workspace, run};
use registry::ClassId;
use std::sync::Wait;
use std::time::Duration;
use stripe::{ArgSlice, BeginRefusal, Call, Reply, ask, stripe_of};
use verify::Verified;

/// Returns the stripe of the key of a call.
fn place_of(stripes: usize, call: &Call<'_>) -> usize
    requires some { 0 < stripes }
    requires few { stripes ≤ 64 }
    ensures place { result ≡ stripe_of stripes (key_of (call_of call.now)) }
    ensures within { result < stripes }
{
    stripe_of(stripes, call.key())
}

/// Reserves capacity for one more receipt, and returns whether there is.
#[inline(always)]
fn reserve_one(receipts: &mut Vec<Receipt<'_>>) -> bool
    ensures items { receipts.new.items ≡ receipts.old.items }
    ensures len { vec_len receipts.new ≡ vec_len receipts.old }
    ensures capacity { vec_capacity receipts.old ≤ vec_capacity receipts.new }
    ensures room { IsTrue result → vec_len receipts.new < vec_capacity receipts.new }
    ensures none { IsFalse result → vec_capacity receipts.old ≤ vec_len receipts.old }
{
    receipts.reserve(1).is_ok()
}

/// The end of a call: of an invocation the end of its run, of a `get` the loader's answer, if it was asked.
type Ended = (Option<Done>, Option<LoadAnswer>);

impl<'a, 'l, L: Loader> Cache<'a, 'l, L> {
    ghost use Rattle.std.specs.Prelude.{◌≡◌, ℤ, Option, None, IfOk, IfErr};
    ghost use Rattle.ended.specs.declared.done.Done.{Done as DoneSeen};
    ghost use Rattle.jtypes.specs.declared.loader.LoadAnswer.{LoadAnswer as AnswerSeen};
    ghost use Rattle.stripe.specs.History.{Call as CallSeen, Invoke, Get, Put, Remove, Contains};
    ghost use Rattle.stripe.specs.Kept.{IsPlain};
    ghost use Rattle.stripe.specs.Seen.{call_of};
    ghost use Rattle.stripe.specs.Rows.{arguments};
    ghost use Rattle.registry.specs.Ids.{IsOf, class_of};
    ghost use Rattle.cache.specs.Opened.{IsAnswered, IsTurnedAway, NeedsMemory};
    ghost use Rattle.cache.specs.Steps.{EndsSo};

    /// Makes a call with the stripe of its key locked. The seat keeps the lock, unless the stripe's history is full.
    /// `end` computes the end of the call from the entry that it found.
    #[inline(always)]
    fn locked<R: Wait, F: FnOnce(Option<i64>) -> Ended, G: Gate>(
        &self,
        rt: &R,
        seat: &mut Seat<'a>,
        call: Call<'a>,
        end: F,
        job: usize,
        gate: &G,
    ) -> Result<Reply, InvokeRefusal>
        requires seat { seat.old.table ≡ self.now.table }
        requires callable { (before : Option ℤ) → F.pre end before }
        requires ends { (before : Option ℤ) (e : Option DoneSeen × Option AnswerSeen) → F.post end before e → EndsSo L.ASKS (L.gives self.now.loader) before (call_of call) e }
        ensures ok { IfOk result (λ reply. IsAnswered self.now seat.old (call_of call.entry) reply seat.new) }
        ensures err { IfErr result (λ refusal. IsTurnedAway self.now seat.old (call_of call.entry) refusal seat.new) }
        ensures memory { NeedsMemory L.ASKS seat.old (call_of call.entry) result }
    {
        if !reserve_one(&mut seat.receipts) {
            return Err(InvokeRefusal::NoMemory);
        }
        let index = place_of(self.stripes, &call);
        let board = &self.table.shared;
        hold(rt, board, &mut seat.pass, &mut seat.held, index);
        let pass = &mut seat.pass;
        let number = seat.receipts.len() as u32;
        match begin(board, pass, index, seat.caller, number, call, self.loader) {
            Ok(before) => {
                gate.started(job);
                let (done, asked) = end(before);
                let (record, place) = commit(board, pass, index, done, asked);
                note(board, pass, index);
                seat.receipts.push_reserved(Receipt {
                    stripe: index,
                    place,
                    call: record.call,
                    reply: record.reply,
                });
                seat.room = seat.room.saturating_sub(1);
                Ok(record.reply)
            }
            Err(BeginRefusal::JournalFull) => {
                give_full(board, pass, index);
                seat.held = None;
                seat.full[index] = true;
                Err(InvokeRefusal::JournalFull)
            }
            Err(BeginRefusal::NoMemory) => Err(InvokeRefusal::NoMemory),
        }
    }

    /// Makes a call that is neither an invocation nor a `get`. The seat keeps the lock.
    #[inline(always)]
    fn plain<R: Wait, G: Gate>(
        &self,
        rt: &R,
        seat: &mut Seat<'a>,
        call: Call<'a>,
        job: usize,
        gate: &G,
    ) -> Result<Reply, InvokeRefusal>
        requires seat { seat.old.table ≡ self.now.table }
        requires plain { IsPlain (call_of call) }
        ensures ok { IfOk result (λ reply. IsAnswered self.now seat.old (call_of call.entry) reply seat.new) }
        ensures err { IfErr result (λ refusal. IsTurnedAway self.now seat.old (call_of call.entry) refusal seat.new) }
        ensures memory { NeedsMemory L.ASKS seat.old (call_of call.entry) result }
    {
        let end = |_before: Option<i64>| -> Ended
            ensures { result ≡ (None, None) }
        { (None, None) };
        self.locked(rt, seat, call, end, job, gate)
    }

    /// Makes a call as `plain` does, then unlocks the stripe and reports the end of the call to the gate.
    fn plain_alone<R: Wait, G: Gate>(
        &self,
        rt: &R,
        seat: &mut Seat<'a>,
        call: Call<'a>,
        job: usize,
        gate: &G,
    ) -> Result<Reply, InvokeRefusal>
        requires seat { seat.old.table ≡ self.now.table }
        requires plain { IsPlain (call_of call) }
        ensures ok { IfOk result (λ reply. IsAnswered self.now seat.old (call_of call.entry) reply seat.new) }
        ensures err { IfErr result (λ refusal. IsTurnedAway self.now seat.old (call_of call.entry) refusal seat.new) }
        ensures memory { NeedsMemory L.ASKS seat.old (call_of call.entry) result }
    {
        let answer = self.plain(rt, seat, call, job, gate);
        self.leave(seat);
        gate.answered(job);
        answer
    }

    /// Locks the stripe of this key for the seat, and returns whether it did.
    /// It sleeps at most `patience` while another seat holds the stripe, and doesn't wait if that is zero.
    /// A stripe that the seat already holds is unlocked first. The seat keeps the lock as after `call_at`.
    pub fn hold_within<R: Wait>(
        &self,
        rt: &R,
        seat: &mut Seat<'a>,
        key: i64,
        patience: Duration,
    ) -> bool
        requires { seat.old.table ≡ self.now.table }
        ensures { seat.new ≡ seat.old }
    {
        let index = stripe_of(self.stripes, key);
        hold_within(
            rt,
            &self.table.shared,
            &mut seat.pass,
            &mut seat.held,
            index,
            patience,
        )
    }

    /// Unlocks the stripe that the seat holds after `call_at` or `hold_within`, if any.
    pub fn leave(&self, seat: &mut Seat<'a>)
        requires { seat.old.table ≡ self.now.table }
        ensures { seat.new ≡ seat.old }
    {
        leave(&self.table.shared, &mut seat.pass, &mut seat.held);
    }

    /// Invokes the entry processor of this class on a key: `invoke` (JSR 107, `Cache`).
    pub fn invoke<R: Wait>(
        &self,
        rt: &R,
        seat: &mut Seat<'a>,
        workspace: &mut Workspace,
        class: &ClassId,
        key: i64,
        args: ArgSlice<'a>,
    ) -> Result<Reply, InvokeRefusal>
        requires seat { seat.old.table ≡ self.now.table }
        requires class { IsOf self.now.registry class.now }
        ensures ok { IfOk result (λ reply. IsAnswered self.now seat.old (Invoke (class_of class.now) key (arguments args.entry)) reply seat.new) }
        ensures err { IfErr result (λ refusal. IsTurnedAway self.now seat.old (Invoke (class_of class.now) key (arguments args.entry)) refusal seat.new) }
    {
        self.invoke_at(rt, seat, workspace, class, key, args, 0, &NoGate)
    }

    /// Makes an `invoke` as job `job`, which it reports to the gate.
    pub fn invoke_at<R: Wait, G: Gate>(
        &self,
        rt: &R,
        seat: &mut Seat<'a>,
        workspace: &mut Workspace,
        class: &ClassId,
        key: i64,
        args: ArgSlice<'a>,
        job: usize,
        gate: &G,
    ) -> Result<Reply, InvokeRefusal>
        requires seat { seat.old.table ≡ self.now.table }
        requires class { IsOf self.now.registry class.now }
        ensures ok { IfOk result (λ reply. IsAnswered self.now seat.old (Invoke (class_of class.now) key (arguments args.entry)) reply seat.new) }
        ensures err { IfErr result (λ refusal. IsTurnedAway self.now seat.old (Invoke (class_of class.now) key (arguments args.entry)) refusal seat.new) }
    {
        let class = self.registry.class(class);
        let answer = self.run_at(rt, seat, workspace, class, key, args, job, gate);
        self.leave(seat);
        gate.answered(job);
        answer
    }

    /// Makes an invocation of this class. The seat keeps the lock.
    #[inline(always)]
    fn run_at<R: Wait, G: Gate>(
        &self,
        rt: &R,
        seat: &mut Seat<'a>,
        workspace: &mut Workspace,
        class: &'a Verified,
        key: i64,
        args: ArgSlice<'a>,
        job: usize,
        gate: &G,
    ) -> Result<Reply, InvokeRefusal>
        requires { seat.old.table ≡ self.now.table }
        ensures ok { IfOk result (λ reply. IsAnswered self.now seat.old (Invoke class.now key (arguments args.entry)) reply seat.new) }
        ensures err { IfErr result (λ refusal. IsTurnedAway self.now seat.old (Invoke class.now key (arguments args.entry)) refusal seat.new) }
        ensures memory { NeedsMemory L.ASKS seat.old (Invoke class.now key (arguments args.entry)) result }
    {
        let call = Call::Invoke { class, key, args };
        let args = args.args();
        let loader = self.loader;
        let end = |before: Option<i64>| {
            (
                Some(run(class, key, before, &args, workspace, loader)),
                None,
            )
        };
        self.locked(rt, seat, call, end, job, gate)
    }

    /// Makes any call, as job `job`. The class of an invocation may be in any registry that lives for `'a`.
    ///
    /// The seat keeps the lock of the key's stripe, so its next call on that stripe doesn't lock it again. No other seat makes a call on it
    /// meanwhile. The seat unlocks it before a call on another stripe, after every call but `call_at`, and by `leave`.
    ///
    /// It reports only `started` to the gate. The caller reports `answered` after the unlock.
    #[inline(always)]
    pub fn call_at<R: Wait, G: Gate>(
        &self,
        rt: &R,
        seat: &mut Seat<'a>,
        workspace: &mut Workspace,
        call: Call<'a>,
        job: usize,
        gate: &G,
    ) -> Result<Reply, InvokeRefusal>
        requires { seat.old.table ≡ self.now.table }
        ensures ok { IfOk result (λ reply. IsAnswered self.now seat.old (call_of call.entry) reply seat.new) }
        ensures err { IfErr result (λ refusal. IsTurnedAway self.now seat.old (call_of call.entry) refusal seat.new) }
        ensures memory { NeedsMemory L.ASKS seat.old (call_of call.entry) result }
    {
        match call {
            Call::Invoke { class, key, args } => {
                self.run_at(rt, seat, workspace, class, key, args, job, gate)
            }
            Call::Get { key } => self.read(rt, seat, key, job, gate),
            Call::Put { .. } | Call::Remove { .. } | Call::Contains { .. } => {
                self.plain(rt, seat, call, job, gate)
            }
        }
    }

    /// Returns the value of a key: `get` (JSR 107, `Cache`). The loader, if any, is asked for an absent one.
    pub fn get<R: Wait>(
        &self,
        rt: &R,
        seat: &mut Seat<'a>,
        key: i64,
    ) -> Result<Reply, InvokeRefusal>
        requires { seat.old.table ≡ self.now.table }
        ensures ok { IfOk result (λ reply. IsAnswered self.now seat.old (Get key) reply seat.new) }
        ensures err { IfErr result (λ refusal. IsTurnedAway self.now seat.old (Get key) refusal seat.new) }
        ensures memory { NeedsMemory L.ASKS seat.old (Get key) result }
    {
        self.get_at(rt, seat, key, 0, &NoGate)
    }

    /// Makes a `get` as job `job`, which it reports to the gate.
    pub fn get_at<R: Wait, G: Gate>(
        &self,
        rt: &R,
        seat: &mut Seat<'a>,
        key: i64,
        job: usize,
        gate: &G,
    ) -> Result<Reply, InvokeRefusal>
        requires { seat.old.table ≡ self.now.table }
        ensures ok { IfOk result (λ reply. IsAnswered self.now seat.old (Get key) reply seat.new) }
        ensures err { IfErr result (λ refusal. IsTurnedAway self.now seat.old (Get key) refusal seat.new) }
        ensures memory { NeedsMemory L.ASKS seat.old (Get key) result }
    {
        let answer = self.read(rt, seat, key, job, gate);
        self.leave(seat);
        gate.answered(job);
        answer
    }

    /// Makes a `get`. The seat keeps the lock.
    #[inline(always)]
    fn read<R: Wait, G: Gate>(
        &self,
        rt: &R,
        seat: &mut Seat<'a>,
        key: i64,
        job: usize,
        gate: &G,
    ) -> Result<Reply, InvokeRefusal>
        requires { seat.old.table ≡ self.now.table }
        ensures ok { IfOk result (λ reply. IsAnswered self.now seat.old (Get key) reply seat.new) }
        ensures err { IfErr result (λ refusal. IsTurnedAway self.now seat.old (Get key) refusal seat.new) }
        ensures memory { NeedsMemory L.ASKS seat.old (Get key) result }
    {
        let loader = self.loader;
        let end = |before: Option<i64>| (None, ask(loader, key, before));
        self.locked(rt, seat, Call::Get { key }, end, job, gate)
    }

    /// Stores a value under a key: `put` (JSR 107, `Cache`).
    pub fn put<R: Wait>(
        &self,
        rt: &R,
        seat: &mut Seat<'a>,
        key: i64,
        value: i64,
    ) -> Result<Reply, InvokeRefusal>
        requires { seat.old.table ≡ self.now.table }
        ensures ok { IfOk result (λ reply. IsAnswered self.now seat.old (Put key value) reply seat.new) }
        ensures err { IfErr result (λ refusal. IsTurnedAway self.now seat.old (Put key value) refusal seat.new) }
    {
        self.put_at(rt, seat, key, value, 0, &NoGate)
    }

    /// Makes a `put` as job `job`, which it reports to the gate.
    pub fn put_at<R: Wait, G: Gate>(
        &self,
        rt: &R,
        seat: &mut Seat<'a>,
        key: i64,
        value: i64,
        job: usize,
        gate: &G,
    ) -> Result<Reply, InvokeRefusal>
        requires { seat.old.table ≡ self.now.table }
        ensures ok { IfOk result (λ reply. IsAnswered self.now seat.old (Put key value) reply seat.new) }
        ensures err { IfErr result (λ refusal. IsTurnedAway self.now seat.old (Put key value) refusal seat.new) }
    {
        self.plain_alone(rt, seat, Call::Put { key, value }, job, gate)
    }

    /// Removes the entry of a key, and returns whether there was one: `remove` (JSR 107, `Cache`).
    pub fn remove<R: Wait>(
        &self,
        rt: &R,
        seat: &mut Seat<'a>,
        key: i64,
    ) -> Result<Reply, InvokeRefusal>
        requires { seat.old.table ≡ self.now.table }
        ensures ok { IfOk result (λ reply. IsAnswered self.now seat.old (Remove key) reply seat.new) }
        ensures err { IfErr result (λ refusal. IsTurnedAway self.now seat.old (Remove key) refusal seat.new) }
        ensures memory { NeedsMemory L.ASKS seat.old (Remove key) result }
    {
        self.remove_at(rt, seat, key, 0, &NoGate)
    }

    /// Makes a `remove` as job `job`, which it reports to the gate.
    pub fn remove_at<R: Wait, G: Gate>(
        &self,
        rt: &R,
        seat: &mut Seat<'a>,
        key: i64,
        job: usize,
        gate: &G,
    ) -> Result<Reply, InvokeRefusal>
        requires { seat.old.table ≡ self.now.table }
        ensures ok { IfOk result (λ reply. IsAnswered self.now seat.old (Remove key) reply seat.new) }
        ensures err { IfErr result (λ refusal. IsTurnedAway self.now seat.old (Remove key) refusal seat.new) }
        ensures memory { NeedsMemory L.ASKS seat.old (Remove key) result }
    {
        self.plain_alone(rt, seat, Call::Remove { key }, job, gate)
    }

    /// Returns whether a key has an entry: `containsKey` (JSR 107, `Cache`).
    pub fn contains_key<R: Wait>(
        &self,
        rt: &R,
        seat: &mut Seat<'a>,
        key: i64,
    ) -> Result<Reply, InvokeRefusal>
        requires { seat.old.table ≡ self.now.table }
        ensures ok { IfOk result (λ reply. IsAnswered self.now seat.old (Contains key) reply seat.new) }
        ensures err { IfErr result (λ refusal. IsTurnedAway self.now seat.old (Contains key) refusal seat.new) }
        ensures memory { NeedsMemory L.ASKS seat.old (Contains key) result }
    {
        self.contains_key_at(rt, seat, key, 0, &NoGate)
    }

    /// Makes a `containsKey` as job `job`, which it reports to the gate.
    pub fn contains_key_at<R: Wait, G: Gate>(
        &self,
        rt: &R,
        seat: &mut Seat<'a>,
        key: i64,
        job: usize,
        gate: &G,
    ) -> Result<Reply, InvokeRefusal>
        requires { seat.old.table ≡ self.now.table }
        ensures ok { IfOk result (λ reply. IsAnswered self.now seat.old (Contains key) reply seat.new) }
        ensures err { IfErr result (λ refusal. IsTurnedAway self.now seat.old (Contains key) refusal seat.new) }
        ensures memory { NeedsMemory L.ASKS seat.old (Contains key) result }
    {
        self.plain_alone(rt, seat, Call::Contains { key }, job, gate)
    }
}
