//! The keys of an `invokeAll`.

ghost use Rattle.std.specs.Prelude.{◌≤◌, length};
ghost use Rattle.serve.specs.Rounds.{most_jobs};

/// The keys of an `invokeAll` without duplicates, at most as many as a round may have jobs. They are in the round's arena.
#[derive(Clone, Copy)]
pub struct Keys<'r> {
    pub items: &'r [i64],
    pub ghost few: { length items.now ≤ most_jobs },
}
