//! Calls on stripes, one at a time.

ghost use Rattle.std.specs.Prelude.{◌≡◌, None, IsTrue, false, length};
ghost use Rattle.stripe.specs.Kept.{IsOf, IsEnd};
ghost use Rattle.stripe.specs.Seen.{call_of};
ghost use Rattle.stripe.specs.Tables.{IsNext};

use jtypes::{Arg, Args, JavaFault, NoLoader, Outcome};
use machine::{Done, Workspace, run};
use rowclasses as rows;
use std::alloc::{AllocError, Global};
use std::test::Fail;
use stripe::*;
use verify::{Verified, verify};

/// The reply to a call and the entry after it, `None` if the call is not made.
type Told = Option<(Reply, Option<i64>)>;

/// Returns the class file of the class with this name, empty if there is no such class.
fn bytes_of(alloc: Global, name: &str) -> Result<Vec<u8>, AllocError> {
    Ok(rows::class_named(alloc, name)?.unwrap_or(Vec::new(alloc)))
}

/// Verifies a class file. A refusal is returned as `AllocError` too, so that the test fails.
fn verified(alloc: Global, bytes: Vec<u8>) -> Result<Verified, AllocError> {
    match verify(alloc, &bytes) {
        Ok(class) => Ok(class),
        Err(_) => Err(AllocError),
    }
}

/// Runs an invocation on the entry `before`; returns `None` for any other call.
fn end_of(call: &Call<'_>, before: Option<i64>, workspace: &mut Workspace) -> Option<Done>
    ensures { IsEnd false before (call_of call.now) result None }
{
    match call {
        Call::Invoke { class, key, args } => {
            Some(run(class, *key, before, &args.args(), workspace, &NoLoader))
        }
        Call::Get { .. } => None,
        Call::Put { .. } => None,
        Call::Remove { .. } => None,
        Call::Contains { .. } => None,
    }
}

/// Makes a call; returns `None` if the stripe isn't ready for it, or it is refused.
fn made<'a>(
    stripe: &mut Stripe<'a>,
    number: u32,
    call: Call<'a>,
    workspace: &mut Workspace,
) -> Told {
    if !stripe.is_ready(call.key()) {
        return None;
    }
    let Ok(before) = stripe.begin(7, number, call, &NoLoader) else {
        return None;
    };
    let done = end_of(&call, before, workspace);
    let record = stripe.commit(done, None);
    Some((record.reply, record.after))
}

/// Adds a stripe to `rest`, if it is the next one.
fn give_back<'a>(rest: &mut Rest<'a>, stripe: Stripe<'a>) {
    if rest.is_next(&stripe) {
        rest.add(stripe);
    }
}

/// Splits empty tables into `stripes` stripes. Returns the last stripe, the stripes before it, and the `Rest` to add them to.
fn last_stripe<'a>(
    alloc: Global,
    stripes: usize,
    journal: usize,
) -> Option<(Stripe<'a>, Vec<Stripe<'a>>, Rest<'a>)> {
    let Ok(tables) = Tables::new(alloc, stripes) else {
        return None;
    };
    let Ok((mut split, rest)) = tables.split(alloc, journal) else {
        return None;
    };
    let Some(last) = split.pop() else {
        return None;
    };
    Some((last, split, rest))
}

/// Adds the only stripe to `rest`, and returns the entry of a key; `None` if another stripe is missing too.
fn entry_back<'a>(mut rest: Rest<'a>, stripe: Stripe<'a>, key: i64) -> Option<i64> {
    give_back(&mut rest, stripe);
    if !rest.is_whole() {
        return None;
    }
    let (tables, _histories) = rest.finish();
    tables.entry(key)
}

/// Makes up to four calls on a stripe, each with number 0.
fn made_four<'a>(alloc: Global, stripe: &mut Stripe<'a>, calls: &[Call<'a>]) -> [Told; 4] {
    let mut told = [None; 4];
    if let Ok(mut workspace) = Workspace::new(alloc) {
        for place in 0..calls.len().min(4) {
            told[place] = made(stripe, 0, calls[place], &mut workspace);
        }
    }
    told
}

/// Makes up to four calls on the only stripe. Returns their results, and the entry of a key at the end.
fn made_all(alloc: Global, calls: &[Call<'_>], key: i64) -> ([Told; 4], Option<i64>) {
    match last_stripe(alloc, 1, 16) {
        Some((mut stripe, _split, rest)) => {
            let told = made_four(alloc, &mut stripe, calls);
            (told, entry_back(rest, stripe, key))
        }
        None => ([None; 4], None),
    }
}

/// Returns the reply to an invocation that returned this `Long`.
fn returned(n: i64) -> Reply {
    Reply::Result(Outcome::Returned(Arg::Long(n)))
}

/// Returns an invocation of a class on a key.
fn invoke<'a>(class: &'a Verified, key: i64, args: &'a Args) -> Call<'a> {
    Call::Invoke {
        class,
        key,
        args: ArgSlice::of(args),
    }
}

#[test]
fn keys_have_stripes(rt: HostRuntime) {
    for (stripes, key, place) in [
        (1, i64::MIN, 0),
        (1, 7, 0),
        (2, -1, 1),
        (2, -2, 0),
        (3, -7, 2),
        (64, -1, 63),
        (64, i64::MIN, 0),
        (64, i64::MAX, 63),
    ] {
        if stripes == 0 || stripes > 64 {
            panic!(rt; "no count of stripes");
        }
        assert_eq!(rt; stripe_of(stripes, key), place);
    }
}

/// Returns why tables of `stripes` stripes are refused, `None` if they are not.
fn refused(alloc: Global, stripes: usize) -> Option<OpenRefusal> {
    Tables::new(alloc, stripes).err()
}

/// Returns why tables aren't split with `journal` records a stripe, and the number of stripes of the tables that are returned.
/// Returns `None` if they are split.
fn not_split(alloc: Global, stripes: usize, journal: usize) -> Option<(OpenRefusal, usize)> {
    match Tables::new(alloc, stripes) {
        Ok(tables) => match tables.split(alloc, journal) {
            Ok(_) => None,
            Err((refusal, again)) => Some((refusal, again.stripes())),
        },
        Err(_) => None,
    }
}

/// Splits tables and adds all stripes to the rest. Returns the number of stripes in the tables, of stripes split off, and of histories.
fn split_and_back(alloc: Global, stripes: usize, journal: usize) -> Option<[usize; 3]> {
    let tables = Tables::new(alloc, stripes).ok()?;
    let count = tables.stripes();
    let (split, rest) = tables.split(alloc, journal).ok()?;
    let parts = split.len();
    Some([count, parts, all_back(rest, split)?])
}

/// Adds all stripes to `rest`; returns the number of histories, `None` if a stripe is missing.
fn all_back<'a>(mut rest: Rest<'a>, split: Vec<Stripe<'a>>) -> Option<usize> {
    for stripe in split {
        give_back(&mut rest, stripe);
    }
    if !rest.is_whole() {
        return None;
    }
    let (_tables, histories) = rest.finish();
    Some(histories.len())
}

#[test]
fn counts_outside_are_refused(rt: HostRuntime) {
    for stripes in [0, 65, usize::MAX] {
        assert_eq!(rt; refused(rt.alloc(), stripes), Some(OpenRefusal::BadCount));
    }
    for stripes in [1, 64] {
        for journal in [0, 4097, usize::MAX] {
            let told = not_split(rt.alloc(), stripes, journal);
            assert_eq!(rt; told, Some((OpenRefusal::BadCount, stripes)));
        }
    }
}

#[test]
fn counts_inside_are_taken(rt: HostRuntime) {
    for stripes in [1, 64] {
        for journal in [1, 4096] {
            let told = split_and_back(rt.alloc(), stripes, journal);
            assert_eq!(rt; told, Some([stripes; 3]));
        }
    }
}

/// Makes eight calls on a stripe, numbered from 0; returns `None` when out of memory.
fn made_in_row<'a>(
    alloc: Global,
    stripe: &mut Stripe<'a>,
    calls: &[Call<'a>; 8],
) -> Option<[Told; 8]> {
    match Workspace::new(alloc) {
        Ok(mut workspace) => {
            let mut told = [None; 8];
            for place in 0..8 {
                told[place] = made(stripe, place as u32, calls[place], &mut workspace);
            }
            Some(told)
        }
        Err(_) => None,
    }
}

/// The state of a stripe after calls.
#[derive(Clone, Copy, PartialEq, Eq)]
struct Seen {
    /// The entries of the keys 1 and -7.
    entries: (Option<i64>, Option<i64>),
    records: usize,
    /// The caller, the number and the key of the last record.
    last: Option<(u8, u32, i64)>,
}

fn left_on(stripe: &Stripe<'_>) -> Seen {
    let history = stripe.history();
    Seen {
        entries: (stripe.entry(1), stripe.entry(-7)),
        records: history.len(),
        last: match history.last() {
            Some(record) => Some((record.caller, record.number, record.call.key())),
            None => None,
        },
    }
}

/// Makes eight calls on the last of two stripes. Returns their results, and the state of the stripe.
fn told_and_seen(alloc: Global, calls: &[Call<'_>; 8]) -> Option<(Option<[Told; 8]>, Seen)> {
    match last_stripe(alloc, 2, 8) {
        Some((mut odd, _split, _rest)) => {
            let told = made_in_row(alloc, &mut odd, calls);
            Some((told, left_on(&odd)))
        }
        None => None,
    }
}

#[test]
fn calls_on_one_key(rt: HostRuntime) {
    let key = -7;
    let calls = [
        Call::Put { key, value: 5 },
        Call::Get { key },
        Call::Contains { key },
        Call::Put { key: 1, value: 6 },
        Call::Remove { key },
        Call::Get { key },
        Call::Contains { key },
        Call::Remove { key },
    ];
    let told = [
        Some((Reply::Done, Some(5))),
        Some((Reply::Value(Some(5)), Some(5))),
        Some((Reply::Flag(true), Some(5))),
        Some((Reply::Done, Some(6))),
        Some((Reply::Flag(true), None)),
        Some((Reply::Value(None), None)),
        Some((Reply::Flag(false), None)),
        Some((Reply::Flag(false), None)),
    ];
    let left = Seen {
        entries: (Some(6), None),
        records: 8,
        last: Some((7, 7, key)),
    };
    assert!(rt; told_and_seen(rt.alloc(), &calls) == Some((Some(told), left)));
}

/// Makes a put of 6 on key 1, a put when the history is full, and a get on a key of the other stripe; returns their results.
fn three_told(alloc: Global, odd: &mut Stripe<'_>) -> Option<[Told; 3]> {
    match Workspace::new(alloc) {
        Ok(mut workspace) => Some([
            made(odd, 0, Call::Put { key: 1, value: 6 }, &mut workspace),
            made(odd, 1, Call::Put { key: 1, value: 7 }, &mut workspace),
            made(odd, 1, Call::Get { key: 2 }, &mut workspace),
        ]),
        Err(_) => None,
    }
}

/// Adds both stripes to `rest`. Returns the entries of the keys 1, -7 and 2, and the number of records in each history.
fn back<'a>(
    mut rest: Rest<'a>,
    even: Stripe<'a>,
    odd: Stripe<'a>,
) -> Option<([Option<i64>; 3], [usize; 2])> {
    give_back(&mut rest, even);
    give_back(&mut rest, odd);
    if !rest.is_whole() {
        return None;
    }
    let (tables, histories) = rest.finish();
    let entries = [tables.entry(1), tables.entry(-7), tables.entry(2)];
    match histories.as_slice() {
        [even, odd] => Some((entries, [even.len(), odd.len()])),
        _ => None,
    }
}

#[test]
fn stripes_come_back(rt: HostRuntime) {
    let Some((mut odd, mut split, rest)) = last_stripe(rt.alloc(), 2, 1) else {
        panic!(rt; "no stripes");
    };
    let told = three_told(rt.alloc(), &mut odd);
    let left = match split.pop() {
        Some(even) => back(rest, even, odd),
        None => None,
    };
    assert!(rt; told == Some([Some((Reply::Done, Some(6))), None, None]));
    assert!(rt; left == Some(([Some(6), None, None], [0, 1])));
}

/// Returns the caller, the number and the key of the open call, and the entry before it; `None` if no call is open.
fn open_in(stripe: &Stripe<'_>) -> Option<(u8, u32, i64, Option<i64>)> {
    match stripe.open() {
        Some(open) => Some((open.caller, open.number, open.call.key(), open.before)),
        None => None,
    }
}

/// Begins a put of 6 on key 5; returns whether it begins, without an entry before it.
fn begins(stripe: &mut Stripe<'_>) -> bool {
    stripe.is_ready(5) && stripe.begin(3, 9, Call::Put { key: 5, value: 6 }, &NoLoader) == Ok(None)
}

#[test]
fn an_open_call_is_told(rt: HostRuntime) {
    let Some((mut stripe, _split, _rest)) = last_stripe(rt.alloc(), 1, 2) else {
        panic!(rt; "no stripe");
    };
    assert_eq!(rt; open_in(&stripe), None);
    assert!(rt; begins(&mut stripe));
    assert_eq!(rt; open_in(&stripe), Some((3, 9, 5, None)));
}

/// Makes one of five plain calls on key -3: a put, a get, a removal, and `contains` twice.
fn plain_told(stripe: &mut Stripe<'_>, number: u32) -> Told {
    if !stripe.is_ready(-3) {
        return None;
    }
    let made = match number {
        0 => stripe.put(0, number, -3, i64::MIN),
        1 => stripe.get(0, number, -3, &NoLoader),
        2 => stripe.remove(0, number, -3),
        _ => stripe.contains(0, number, -3),
    };
    match made {
        Ok(record) => Some((record.reply, record.after)),
        Err(_) => None,
    }
}

#[test]
fn plain_calls_are_made_at_once(rt: HostRuntime) {
    let Some((mut stripe, _split, _rest)) = last_stripe(rt.alloc(), 1, 4) else {
        panic!(rt; "no stripe");
    };
    let mut told = [None; 5];
    for number in 0..5 {
        told[number] = plain_told(&mut stripe, number as u32);
    }
    let wanted = [
        Some((Reply::Done, Some(i64::MIN))),
        Some((Reply::Value(Some(i64::MIN)), Some(i64::MIN))),
        Some((Reply::Flag(true), None)),
        Some((Reply::Flag(false), None)),
        None,
    ];
    assert!(rt; told == wanted);
}

#[test]
fn an_exception_changes_nothing(rt: HostRuntime) -> Result<(), Fail> {
    let none = Args::none();
    let plus = verified(rt.alloc(), rows::plus(rt.alloc())?)?;
    let calls = [
        invoke(&plus, 7, &none),
        Call::Put { key: 7, value: 1 },
        invoke(&plus, 7, &none),
        invoke(&plus, -1, &none),
    ];
    let null = Reply::Result(Outcome::Threw(JavaFault::NullPointer));
    let told = [
        Some((null, None)),
        Some((Reply::Done, Some(1))),
        Some((returned(2), Some(2))),
        Some((null, None)),
    ];
    assert!(rt; made_all(rt.alloc(), &calls, -1) == (told, None));
    Ok(())
}

#[test]
fn an_exception_leaves_an_entry(rt: HostRuntime) -> Result<(), Fail> {
    let Some(args) = Args::of(&[Arg::Long(1)]) else {
        panic!(rt; "too many arguments");
    };
    let counter = verified(rt.alloc(), rows::counter(rt.alloc())?)?;
    let none = Args::none();
    let calls = [invoke(&counter, 7, &args), invoke(&counter, 7, &none)];
    let outside = Reply::Result(Outcome::Threw(JavaFault::ArrayIndexOutOfBounds));
    let told = [
        Some((returned(1), Some(1))),
        Some((outside, Some(1))),
        None,
        None,
    ];
    assert!(rt; made_all(rt.alloc(), &calls, 7) == (told, Some(1)));
    Ok(())
}

#[test]
fn a_set_entry_is_removed(rt: HostRuntime) -> Result<(), Fail> {
    let none = Args::none();
    let set_remove = verified(rt.alloc(), bytes_of(rt.alloc(), "SetRemove")?)?;
    let calls = [
        invoke(&set_remove, 7, &none),
        Call::Put { key: 7, value: 5 },
        invoke(&set_remove, 7, &none),
    ];
    let told = [
        Some((returned(2), None)),
        Some((Reply::Done, Some(5))),
        Some((returned(3), None)),
        None,
    ];
    assert!(rt; made_all(rt.alloc(), &calls, 7) == (told, None));
    Ok(())
}
