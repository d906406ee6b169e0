//! Rounds on one thread.

use jtypes::{Arg, NoLoader, Outcome};
use round_robin::{TurnsLeft, run_in_turns};
use rowclasses as rows;
use std::alloc::Global;
use std::test::Fail;
use stripe::{ArgSlice, Call, Reply, Tables};
use verify::{Verified, verify};

/// Returns an invocation of a class on a key, without arguments.
fn invoke<'a>(class: &'a Verified, key: i64) -> Call<'a> {
    Call::Invoke {
        class,
        key,
        args: ArgSlice::none(),
    }
}

/// Runs a round of these calls on `stripes` empty stripes; returns `None` if there are more than 4096 calls, or it is refused.
fn round(alloc: Global, stripes: usize, calls: &[Call<'_>]) -> Option<TurnsLeft> {
    if calls.len() > 4096 {
        return None;
    }
    match Tables::new(alloc, stripes) {
        Ok(tables) => match run_in_turns(alloc, tables, calls, &NoLoader) {
            Ok(left) => Some(left),
            Err(_) => None,
        },
        Err(_) => None,
    }
}

/// Returns the reply to an invocation that returned this `Long`.
fn returned(number: i64) -> Option<Reply> {
    Some(Reply::Result(Outcome::Returned(Arg::Long(number))))
}

/// Runs a round on two stripes. Returns the entries of two keys, `None` if the replies are not these.
fn entries_after(
    alloc: Global,
    calls: &[Call<'_>],
    replies: &[Option<Reply>],
    keys: (i64, i64),
) -> Option<(Option<i64>, Option<i64>)> {
    match round(alloc, 2, calls) {
        Some(left) => {
            if left.replies.as_slice() == replies {
                Some((left.tables.entry(keys.0), left.tables.entry(keys.1)))
            } else {
                None
            }
        }
        None => None,
    }
}

/// Makes calls on key 1; returns the entry after them, twice.
fn one_key(alloc: Global, plus: &Verified) -> Option<(Option<i64>, Option<i64>)> {
    let calls = [
        Call::Put { key: 1, value: 5 },
        invoke(plus, 1),
        Call::Get { key: 1 },
        Call::Contains { key: 1 },
        Call::Remove { key: 1 },
    ];
    let expected = [
        Some(Reply::Done),
        returned(6),
        Some(Reply::Value(Some(6))),
        Some(Reply::Flag(true)),
        Some(Reply::Flag(true)),
    ];
    entries_after(alloc, &calls, &expected, (1, 1))
}

/// Does the same with a class file of Plus.
fn one_key_of(alloc: Global, plus: &[u8]) -> Option<(Option<i64>, Option<i64>)> {
    match verify(alloc, plus) {
        Ok(plus) => one_key(alloc, &plus),
        Err(_) => None,
    }
}

#[test]
fn calls_on_one_key_are_in_order(rt: HostRuntime) -> Result<(), Fail> {
    let plus = rows::plus(rt.alloc())?;
    assert_eq!(rt; one_key_of(rt.alloc(), &plus), Some((None, None)));
    Ok(())
}

/// Makes calls on the keys -1 and 4 of two stripes, each after the calls before it on its key; returns the entries of the keys.
fn two_stripes(alloc: Global, plus: &Verified) -> Option<(Option<i64>, Option<i64>)> {
    let calls = [
        Call::Put { key: -1, value: 5 },
        Call::Put { key: 4, value: 7 },
        invoke(plus, -1),
        invoke(plus, 4),
        invoke(plus, -1),
        Call::Get { key: 4 },
        Call::Get { key: -1 },
    ];
    let expected = [
        Some(Reply::Done),
        Some(Reply::Done),
        returned(6),
        returned(8),
        returned(7),
        Some(Reply::Value(Some(8))),
        Some(Reply::Value(Some(7))),
    ];
    entries_after(alloc, &calls, &expected, (-1, 4))
}

/// Does the same with a class file of Plus.
fn two_stripes_of(alloc: Global, plus: &[u8]) -> Option<(Option<i64>, Option<i64>)> {
    match verify(alloc, plus) {
        Ok(plus) => two_stripes(alloc, &plus),
        Err(_) => None,
    }
}

#[test]
fn calls_on_two_stripes_take_turns(rt: HostRuntime) -> Result<(), Fail> {
    let plus = rows::plus(rt.alloc())?;
    assert_eq!(rt; two_stripes_of(rt.alloc(), &plus), Some((Some(7), Some(8))));
    Ok(())
}

/// Runs a round without calls after a round with a put. Returns the number of replies, the entry of key 2 and the number of stripes.
fn without_calls(alloc: Global) -> Option<(usize, Option<i64>, usize)> {
    match round(alloc, 3, &[Call::Put { key: 2, value: 9 }]) {
        Some(first) => match run_in_turns(alloc, first.tables, &[], &NoLoader) {
            Ok(left) => Some((
                left.replies.len(),
                left.tables.entry(2),
                left.tables.stripes(),
            )),
            Err(_) => None,
        },
        None => None,
    }
}

#[test]
fn a_round_without_calls_leaves_the_entries(rt: HostRuntime) -> Result<(), Fail> {
    assert_eq!(rt; without_calls(rt.alloc()), Some((0, Some(9), 3)));
    Ok(())
}
