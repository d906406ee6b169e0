//! Observers of calls.

/// An observer of calls. Its methods run on the thread that makes the call, so they may delay it.
pub trait Gate {
    /// Reports that the call of this job has begun. Its stripe is locked.
    fn started(&self, job: usize);

    /// Reports that the call of this job has ended with a reply or a refusal. Its stripe is unlocked. This is the last step of the call.
    ///
    /// `Cache::call_at` doesn't call it, since the seat keeps the lock for its next call. Its caller calls it after the unlock:
    /// a round does so at the end of each group of calls, and a round with one worker at the end of the round.
    fn answered(&self, job: usize);
}

/// A gate that does nothing.
#[derive(Clone, Copy)]
pub struct NoGate;

impl Gate for NoGate {
    fn started(&self, _job: usize) {}

    fn answered(&self, _job: usize) {}
}
