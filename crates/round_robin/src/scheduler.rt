//! The scheduler of a round.

use jtypes::Loader;
use stripe::{Call, Reply, stripe_of};
use world::{Applied, Event, World};

/// The buffers of a round: an item for each stripe, and one for each call.
#[derive(Drop)]
pub struct SchedulerBuffers {
    pub numbers: Vec<Option<usize>>,
    pub replies: Vec<Option<Reply>>,
}

/// A running round.
#[derive(Drop)]
pub struct Scheduler<'c, 'a, L: Loader> {
    calls: &'c [Call<'a>],
    /// The number of calls that have begun or were refused.
    begun: usize,
    world: World<'a, L>,
    /// For each stripe the number of the call that runs on it, if any.
    numbers: Vec<Option<usize>>,
    /// For each call its reply, once it is finished.
    replies: Vec<Option<Reply>>,
}

impl<'c, 'a, L: Loader> Scheduler<'c, 'a, L> {
    ghost use Rattle.std.specs.Prelude.{◌≡◌, ℕ, ◌+◌, ◌-◌, ◌<◌, ◌≤◌, length, map, Some, None, slice_get};
    ghost use Rattle.stripe.specs.History.{key_of, stripe_of};
    ghost use Rattle.stripe.specs.Seen.{call_of};
    ghost use Rattle.stripe.specs.Tables.{IsCount};
    ghost use Rattle.world.specs.Forward.{turns_left};
    ghost use Rattle.world.specs.World.{opened};
    ghost use Rattle.round_robin.specs.Scheduling.{stage, IsGoing, IsRoom, IsAsBefore, AreIdleBefore, IsOver};

    /// Returns a round of which no call has begun.
    pub fn new(
        calls: &'c [Call<'a>],
        world: World<'a, L>,
        room: SchedulerBuffers,
    ) -> Scheduler<'c, 'a, L>
        requires room { IsRoom (length calls.now) (length world.world.opening) room }
        requires journal { length calls.now ≤ world.world.journal }
        requires opened { world.world ≡ opened world.world.loads world.world.opening world.world.journal }
        ensures going { IsGoing (stage result) }
        ensures opening { result.world.world.opening ≡ world.entry.world.opening }
        ensures loader { result.world.loader ≡ world.entry.loader }
        ensures calls { (stage result).calls ≡ map call_of calls.now }
        ensures begun { result.begun ≡ 0 }
    {
        Scheduler {
            calls,
            begun: 0,
            world,
            numbers: room.numbers,
            replies: room.replies,
        }
    }

    /// Runs one instruction of the call that runs on a stripe, if any, or finishes the call if it is in a final state.
    fn turn_on(&mut self, stripe: usize)
        requires going { IsGoing (stage self.old) }
        requires stripe { stripe < length self.old.world.world.opening }
        ensures going { IsGoing (stage self.new) }
        ensures same { IsAsBefore (stage self.old) (stage self.new) }
        ensures nearer { turns_left self.new.world.world stripe ≤ turns_left self.old.world.world stripe - 1 }
        ensures others { (i : ℕ) → ¬ (i ≡ stripe) → turns_left self.new.world.world i ≡ turns_left self.old.world.world i }
        ensures loader { self.new.world.loader ≡ self.old.world.loader }
    {
        let Some(number) = self.numbers[stripe] else {
            return;
        };
        if let Applied::Done = self.world.apply(Event::Step { stripe }) {
            return;
        }
        let Applied::Done = self.world.apply(Event::Finish { stripe }) else {
            unreachable!()
        };
        let Some(record) = self.world.finished().last() else {
            unreachable!()
        };
        let reply = record.reply;
        self.replies[number] = Some(reply);
        self.numbers[stripe] = None;
    }

    /// Runs one instruction of each running call, or finishes it.
    fn turn(&mut self)
        requires { IsGoing (stage self.old) }
        ensures going { IsGoing (stage self.new) }
        ensures same { IsAsBefore (stage self.old) (stage self.new) }
        ensures nearer { (i : ℕ) → i < length self.old.world.world.opening → turns_left self.new.world.world i ≤ turns_left self.old.world.world i - 1 }
        ensures loader { self.new.world.loader ≡ self.old.world.loader }
    {
        for stripe in 0..self.numbers.len() {
            self.turn_on(stripe);
        }
    }

    /// Runs all running calls until no call runs on this stripe.
    fn wait_for(&mut self, stripe: usize)
        requires going { IsGoing (stage self.old) }
        requires stripe { stripe < length self.old.world.world.opening }
        ensures going { IsGoing (stage self.new) }
        ensures same { IsAsBefore (stage self.old) (stage self.new) }
        ensures idle { turns_left self.new.world.world stripe ≡ 0 }
        ensures nearer { (i : ℕ) → i < length self.old.world.world.opening → turns_left self.new.world.world i ≤ turns_left self.old.world.world i }
        ensures loader { self.new.world.loader ≡ self.old.world.loader }
    {
        'turns: while self.numbers[stripe].is_some() {
            self.turn();
        }
    }

    /// Starts the next call on its stripe, on which no call runs. A refused call counts as begun, and gets no reply.
    fn start(&mut self, call: Call<'a>, stripe: usize)
        requires going { IsGoing (stage self.old) }
        requires next { slice_get (stage self.old).calls self.old.begun ≡ Some (call_of call) }
        requires stripe { stripe ≡ stripe_of (length self.old.world.world.opening) (key_of (call_of call)) }
        requires inside { stripe < length self.old.world.world.opening }
        requires idle { turns_left self.old.world.world stripe ≡ 0 }
        ensures going { IsGoing (stage self.new) }
        ensures begun { self.new.begun ≡ self.old.begun + 1 }
        ensures calls { (stage self.new).calls ≡ (stage self.old).calls }
        ensures opening { self.new.world.world.opening ≡ self.old.world.world.opening }
        ensures loader { self.new.world.loader ≡ self.old.world.loader }
    {
        let number = self.begun;
        self.begun = number + 1;
        match self.world.apply(Event::Start { caller: 0, call }) {
            Applied::Done => self.numbers[stripe] = Some(number),
            Applied::Refused(_) => {}
            Applied::Ignored => unreachable!(),
        }
    }

    /// Runs calls until none runs on the next call's stripe, and starts the next call.
    fn begin(&mut self)
        requires going { IsGoing (stage self.old) }
        requires more { self.old.begun < length self.old.calls.now }
        requires stripes { IsCount (length self.old.world.world.opening) }
        ensures going { IsGoing (stage self.new) }
        ensures begun { self.new.begun ≡ self.old.begun + 1 }
        ensures calls { (stage self.new).calls ≡ (stage self.old).calls }
        ensures opening { self.new.world.world.opening ≡ self.old.world.world.opening }
        ensures loader { self.new.world.loader ≡ self.old.world.loader }
    {
        let call = self.calls[self.begun];
        let stripe = stripe_of(self.numbers.len(), call.key());
        self.wait_for(stripe);
        self.start(call, stripe);
    }

    /// Starts all calls, in order.
    fn begin_all(&mut self)
        requires going { IsGoing (stage self.old) }
        requires none { self.old.begun ≡ 0 }
        requires stripes { IsCount (length self.old.world.world.opening) }
        ensures going { IsGoing (stage self.new) }
        ensures begun { self.new.begun ≡ length (stage self.old).calls }
        ensures calls { (stage self.new).calls ≡ (stage self.old).calls }
        ensures opening { self.new.world.world.opening ≡ self.old.world.world.opening }
        ensures loader { self.new.world.loader ≡ self.old.world.loader }
    {
        'calls: while self.begun < self.calls.len() {
            self.begin();
        }
    }

    /// Runs all running calls to their ends.
    fn wait_for_all(&mut self)
        requires { IsGoing (stage self.old) }
        ensures going { IsGoing (stage self.new) }
        ensures same { IsAsBefore (stage self.old) (stage self.new) }
        ensures idle { AreIdleBefore (length self.new.world.world.opening) (stage self.new) }
        ensures loader { self.new.world.loader ≡ self.old.world.loader }
    {
        for stripe in 0..self.numbers.len() {
            self.wait_for(stripe);
        }
    }

    /// Starts all calls and runs them to their ends.
    pub fn run(&mut self)
        requires going { IsGoing (stage self.old) }
        requires none { self.old.begun ≡ 0 }
        requires stripes { IsCount (length self.old.world.world.opening) }
        ensures going { IsGoing (stage self.new) }
        ensures over { IsOver (stage self.new) }
        ensures calls { (stage self.new).calls ≡ (stage self.old).calls }
        ensures opening { self.new.world.world.opening ≡ self.old.world.world.opening }
        ensures loader { self.new.world.loader ≡ self.old.world.loader }
    {
        self.begin_all();
        self.wait_for_all();
    }

    /// Returns the world and the replies.
    pub fn end(self) -> (World<'a, L>, Vec<Option<Reply>>)
        ensures world { result.0 ≡ self.entry.world }
        ensures replies { result.1.items ≡ self.entry.replies.items }
    {
        let Scheduler { world, replies, .. } = self;
        (world, replies)
    }
}
