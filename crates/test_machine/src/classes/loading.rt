//! Invocations on absent keys with a loader (JSR 107, `CacheLoader`).

ghost use Rattle.std.specs.Prelude.{true};

use super::class_named;
use jtypes::{
    Arg, Args, Effect, JavaFault, LoadAnswer, LoadFailed, Loader, NoLoader, Outcome, RefValue,
};
use machine::{Done, Workspace, run};
use mutentry::EntryState;
use std::alloc::Global;

/// A loader: key 7 has the value 41, key 9 has 0, key 13 fails, and any other key has no value.
struct Few;

impl Loader for Few {
    const ASKS: bool = true;

    ghost ASKS = { true };

    ghost gives = { λ _ _ _. Unit {0} };

    fn load(&self, key: i64) -> Result<Option<i64>, LoadFailed> {
        match key {
            7 => Ok(Some(41)),
            9 => Ok(Some(0)),
            13 => Err(LoadFailed),
            _ => Ok(None),
        }
    }
}

/// An invocation of a class on an absent key, and its result.
struct Row {
    class: &'static str,
    key: i64,
    args: &'static [Arg],
    done: Done,
}

static ROWS: [Row; 7] = [
    Row {
        class: "Plus",
        key: 7,
        args: &[],
        done: Done {
            outcome: Outcome::Returned(Arg::Long(42)),
            effect: Effect::Put(42),
            untouched: false,
            asked: Some(LoadAnswer::Value(41)),
            steps: 14,
            words: 0,
        },
    },
    Row {
        class: "Plus",
        key: 8,
        args: &[],
        done: Done {
            outcome: Outcome::Threw(JavaFault::NullPointer),
            effect: Effect::Keep,
            untouched: true,
            asked: Some(LoadAnswer::None),
            steps: 4,
            words: 0,
        },
    },
    Row {
        class: "Plus",
        key: 13,
        args: &[],
        done: Done {
            outcome: Outcome::Threw(JavaFault::CacheLoader),
            effect: Effect::Keep,
            untouched: true,
            asked: Some(LoadAnswer::Failed),
            steps: 2,
            words: 0,
        },
    },
    Row {
        class: "Unbox",
        key: 7,
        args: &[],
        done: Done {
            outcome: Outcome::Returned(Arg::Long(41)),
            effect: Effect::Put(41),
            untouched: true,
            asked: Some(LoadAnswer::Value(41)),
            steps: 6,
            words: 0,
        },
    },
    Row {
        class: "Counter",
        key: 7,
        args: &[Arg::Long(1)],
        done: Done {
            outcome: Outcome::Returned(Arg::Long(1)),
            effect: Effect::Put(1),
            untouched: false,
            asked: None,
            steps: 20,
            words: 0,
        },
    },
    Row {
        class: "SetRemove",
        key: 7,
        args: &[],
        done: Done {
            outcome: Outcome::Returned(Arg::Long(2)),
            effect: Effect::Keep,
            untouched: false,
            asked: None,
            steps: 21,
            words: 0,
        },
    },
    Row {
        class: "Ratio",
        key: 9,
        args: &[],
        done: Done {
            outcome: Outcome::Threw(JavaFault::Arithmetic),
            effect: Effect::Keep,
            untouched: true,
            asked: Some(LoadAnswer::Value(0)),
            steps: 12,
            words: 0,
        },
    },
];

/// Returns the result of the invocation of a `Row` with this loader, on the entry `before`.
fn done_of<L: Loader>(alloc: Global, row: &Row, before: Option<i64>, loader: &L) -> Option<Done> {
    let class = class_named(alloc, row.class)?;
    let args = Args::of(row.args)?;
    match Workspace::new(alloc) {
        Ok(mut workspace) => Some(run(&class, row.key, before, &args, &mut workspace, loader)),
        Err(_) => None,
    }
}

#[test]
fn loaders_are_asked(rt: HostRuntime) {
    for row in ROWS.iter() {
        assert_eq!(rt; done_of(rt.alloc(), row, None, &Few), Some(row.done));
    }
}

#[test]
fn entries_that_are_there_are_not_loaded(rt: HostRuntime) {
    for row in ROWS.iter() {
        let plainly = done_of(rt.alloc(), row, Some(5), &NoLoader);
        assert!(rt; plainly.is_some());
        assert_eq!(rt; done_of(rt.alloc(), row, Some(5), &Few), plainly);
    }
}

#[test]
fn an_entry_asks_once(rt: HostRuntime) {
    let mut entry = EntryState::of(None);
    assert!(rt; entry.needs_load());
    entry.loaded(Some(3));
    assert_eq!(rt;
        (entry.needs_load(), entry.asked()),
        (false, Some(LoadAnswer::Value(3)))
    );
    assert_eq!(rt;
        (entry.get_value(), entry.effect()),
        (Some(3), Effect::Put(3))
    );
    let mut entry = EntryState::of(None);
    entry.load_failed();
    assert_eq!(rt;
        (entry.needs_load(), entry.asked()),
        (false, Some(LoadAnswer::Failed))
    );
    let mut entry = EntryState::of(None);
    assert!(rt; entry.set_value(RefValue::Long(1)).is_ok());
    entry.remove();
    assert!(rt; !entry.needs_load());
    assert!(rt; !EntryState::of(Some(1)).needs_load());
}
