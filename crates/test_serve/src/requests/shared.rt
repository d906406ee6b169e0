//! Rounds that several workers share: a blocked call sees that another worker answers a later call.

ghost use Rattle.std.specs.Prelude.{true};

use super::holding::Holding;
use super::{Ended, ROUND_END, define, returned};
use jtypes::{LoadFailed, Loader, NoLoader};
use rowclasses as rows;
use serve::{ServeFault, Settings, serve};
use std::alloc::{AllocError, Global};
use std::sync::Wait;
use std::test::Fail;
use std::thread::Threads;
use std::time::Clock;
use wire::{Counted, Protocol};

/// The worker counts with which each stream is served.
static WORKERS: [usize; 3] = [1, 4, 16];

/// The number of no job in any round.
const NO_JOB: usize = 4096;

/// Serves this stream with `workers` workers, and uses all of them in each round.
/// `jobs` are a job whose call is blocked at its start, and a later job of its round whose answer it waits for. One worker blocks no call.
/// Returns whether the blocked call saw that answer, true for one worker, and how the service ended.
fn serve_shared<T: Threads + Wait + Clock + Sync + AllocGlobal, L: Loader + Sync>(
    rt: &T,
    alloc: Global,
    input: &[u8],
    workers: usize,
    jobs: (usize, usize),
    loader: &L,
) -> (bool, Ended) {
    let settings = Settings {
        workers,
        stripes: 16,
        share: 0,
        protocol: Protocol::One,
    };
    let (held, other) = if workers > 1 { jobs } else { (NO_JOB, NO_JOB) };
    let gate = Holding::new(rt, held, other);
    let mut reader = Counted::new(input);
    let mut writer = Counted::new(Vec::new(alloc));
    let fault = serve(rt, &mut reader, &mut writer, settings, &gate, loader).err();
    let output = writer.into_inner();
    (workers < 2 || gate.saw(), Ended { fault, output })
}

/// Checks `serve_shared` with each worker count: this stream has these replies and this fault, and the blocked call sees the answer.
fn each_comes_to<T: Threads + Wait + Clock + Sync + AllocGlobal, L: Loader + Sync>(
    rt: &T,
    alloc: Global,
    input: &[u8],
    jobs: (usize, usize),
    loader: &L,
    fault: Option<ServeFault>,
    output: &[u8],
) -> bool {
    let mut is_right = true;
    for workers in WORKERS {
        let (is_shared, ended) = serve_shared(rt, alloc, input, workers, jobs, loader);
        let is_so = ended.fault == fault && ended.output.as_slice() == output;
        is_right = is_right && is_shared && is_so;
    }
    is_right
}

/// Appends a put of a number on a key.
fn put(input: &mut Vec<u8>, key: u8, number: u8) -> Result<(), AllocError> {
    input.extend_from_slice(&[
        0, 0, 0, 0x11, 2, 0, 0, 0, 0, 0, 0, 0, key, 0, 0, 0, 0, 0, 0, 0, number,
    ])
}

/// Appends a request of kind 3, a get, or of kind 5, `contains`, on a key of two bytes.
fn ask(input: &mut Vec<u8>, kind: u8, key: [u8; 2]) -> Result<(), AllocError> {
    input.extend_from_slice(&[0, 0, 0, 9, kind, 0, 0, 0, 0, 0, 0, key[0], key[1]])
}

/// Appends an invocation of a class on a key of two bytes, without arguments.
fn invoke(input: &mut Vec<u8>, class: u8, key: [u8; 2]) -> Result<(), AllocError> {
    input.extend_from_slice(&[
        0, 0, 0, 0x0E, 6, 0, 0, 0, class, 0, 0, 0, 0, 0, 0, key[0], key[1], 0,
    ])
}

/// Appends an invocation of a class on a key of two bytes, with the argument 1.
fn invoke_with_one(input: &mut Vec<u8>, class: u8, key: [u8; 2]) -> Result<(), AllocError> {
    input.extend_from_slice(&[
        0, 0, 0, 0x17, 6, 0, 0, 0, class, 0, 0, 0, 0, 0, 0, key[0], key[1], 1, 1, 0, 0, 0, 0, 0, 0,
        0, 1,
    ])
}

/// Appends puts of 1 to 16 on the keys 0 to 15, each on a different stripe, and a round end.
fn sixteen_puts(input: &mut Vec<u8>) -> Result<(), AllocError> {
    for key in 0..16 {
        put(input, key, key + 1)?;
    }
    input.extend_from_slice(&ROUND_END)
}

static ENDED: [u8; 5] = [0, 0, 0, 1, 9];

static DONE: [u8; 5] = [0, 0, 0, 1, 3];

/// Returns the reply to a class that is accepted, with its number and its bound on steps.
fn accepted(class: u8, steps: u8) -> [u8; 17] {
    [0, 0, 0, 13, 1, 0, 0, 0, class, 0, 0, 0, steps, 0, 0, 0, 0]
}

/// Returns the reply to a get of an entry with this number.
fn value(number: u8) -> [u8; 14] {
    [0, 0, 0, 0x0A, 4, 1, 0, 0, 0, 0, 0, 0, 0, number]
}

/// Appends the replies to sixteen puts and a round end.
fn sixteen_done(output: &mut Vec<u8>) -> Result<(), AllocError> {
    for _ in 0..16 {
        output.extend_from_slice(&DONE)?;
    }
    output.extend_from_slice(&ENDED)
}

/// Returns a round of sixteen puts, and a round of gets of the same keys.
fn puts_and_gets(alloc: Global) -> Result<Vec<u8>, AllocError> {
    let mut input = Vec::new(alloc);
    sixteen_puts(&mut input)?;
    for key in 0..16 {
        ask(&mut input, 3, [0, key])?;
    }
    input.extend_from_slice(&ROUND_END)?;
    Ok(input)
}

/// Returns the replies to `puts_and_gets`.
fn done_and_values(alloc: Global) -> Result<Vec<u8>, AllocError> {
    let mut output = Vec::new(alloc);
    sixteen_done(&mut output)?;
    for key in 0..16 {
        output.extend_from_slice(&value(key + 1))?;
    }
    output.extend_from_slice(&ENDED)?;
    Ok(output)
}

#[test]
fn puts_are_read_in_the_next_round(rt: HostRuntime) -> Result<(), Fail> {
    let input = puts_and_gets(rt.alloc())?;
    let output = done_and_values(rt.alloc())?;
    assert!(rt; each_comes_to(&rt, rt.alloc(), &input, (0, 15), &NoLoader, None, &output));
    Ok(())
}

/// Returns a round that defines Plus and has sixteen puts, and a round that invokes Plus on the same keys.
fn puts_and_runs(alloc: Global) -> Result<Vec<u8>, AllocError> {
    let mut input = Vec::new(alloc);
    define(&mut input, &rows::plus(alloc)?)?;
    sixteen_puts(&mut input)?;
    for key in 0..16 {
        invoke(&mut input, 0, [0, key])?;
    }
    input.extend_from_slice(&ROUND_END)?;
    Ok(input)
}

/// Returns the replies to `puts_and_runs`.
fn done_and_returned(alloc: Global) -> Result<Vec<u8>, AllocError> {
    let mut output = Vec::new(alloc);
    output.extend_from_slice(&accepted(0, 14))?;
    sixteen_done(&mut output)?;
    for key in 0..16 {
        output.extend_from_slice(&returned(key + 2))?;
    }
    output.extend_from_slice(&ENDED)?;
    Ok(output)
}

#[test]
fn a_class_is_invoked_on_the_entries_of_the_round_before(rt: HostRuntime) -> Result<(), Fail> {
    let input = puts_and_runs(rt.alloc())?;
    let output = done_and_returned(rt.alloc())?;
    assert!(rt; each_comes_to(&rt, rt.alloc(), &input, (0, 15), &NoLoader, None, &output));
    Ok(())
}

/// Returns a round of sixteen puts, and a second round of a put and a truncated request.
fn puts_and_cut(alloc: Global) -> Result<Vec<u8>, AllocError> {
    let mut input = Vec::new(alloc);
    sixteen_puts(&mut input)?;
    put(&mut input, 5, 2)?;
    input.extend_from_slice(&[0, 0, 0, 9, 3, 0, 0, 0])?;
    Ok(input)
}

#[test]
fn a_cut_round_behind_a_whole_one_is_not_run(rt: HostRuntime) -> Result<(), Fail> {
    let input = puts_and_cut(rt.alloc())?;
    let mut output = Vec::new(rt.alloc());
    sixteen_done(&mut output)?;
    let fault = Some(ServeFault::Truncated);
    assert!(rt; each_comes_to(&rt, rt.alloc(), &input, (0, 15), &NoLoader, fault, &output));
    Ok(())
}

/// Returns the class file of the class with this name, empty if there is no such class.
fn class_named(alloc: Global, name: &str) -> Result<Vec<u8>, AllocError> {
    Ok(rows::class_named(alloc, name)?.unwrap_or(Vec::new(alloc)))
}

/// Returns a round that defines Ratio and has three puts, and a round of one `invokeAll` on the keys 1, 2, 2 and 3.
fn puts_and_ratios(alloc: Global) -> Result<Vec<u8>, AllocError> {
    let mut input = Vec::new(alloc);
    define(&mut input, &class_named(alloc, "Ratio")?)?;
    put(&mut input, 1, 2)?;
    put(&mut input, 2, 0)?;
    put(&mut input, 3, 1)?;
    input.extend_from_slice(&ROUND_END)?;
    input.extend_from_slice(&[0, 0, 0, 0x28, 7, 0, 0, 0, 0, 0, 4])?;
    for key in [1, 2, 2, 3] {
        input.extend_from_slice(&[0, 0, 0, 0, 0, 0, 0, key])?;
    }
    input.push(0)?;
    input.extend_from_slice(&ROUND_END)?;
    Ok(input)
}

/// Returns the replies to `puts_and_ratios`: a `Long` for key 1, an exception for key 2, no result for key 3.
fn done_and_ratios(alloc: Global) -> Result<Vec<u8>, AllocError> {
    let mut output = Vec::new(alloc);
    output.extend_from_slice(&accepted(0, 14))?;
    for _ in 0..3 {
        output.extend_from_slice(&DONE)?;
    }
    output.extend_from_slice(&ENDED)?;
    output.extend_from_slice(&[0, 0, 0, 0x1F, 7, 0, 2])?;
    output.extend_from_slice(&[0, 0, 0, 0, 0, 0, 0, 1, 0, 1, 0, 0, 0, 0, 0, 0, 0, 0])?;
    output.extend_from_slice(&[0, 0, 0, 0, 0, 0, 0, 2, 1, 1])?;
    output.extend_from_slice(&ENDED)?;
    Ok(output)
}

#[test]
fn results_have_the_order_of_the_keys(rt: HostRuntime) -> Result<(), Fail> {
    let input = puts_and_ratios(rt.alloc())?;
    let output = done_and_ratios(rt.alloc())?;
    assert!(rt; each_comes_to(&rt, rt.alloc(), &input, (0, 2), &NoLoader, None, &output));
    Ok(())
}

/// Returns a round that defines Counter, puts 1 on key 5, invokes Counter on it twice and gets key 6, and a round that gets key 5.
fn beside_a_put(alloc: Global) -> Result<Vec<u8>, AllocError> {
    let mut input = Vec::new(alloc);
    define(&mut input, &rows::counter(alloc)?)?;
    put(&mut input, 5, 1)?;
    invoke_with_one(&mut input, 0, [0, 5])?;
    invoke_with_one(&mut input, 0, [0, 5])?;
    ask(&mut input, 3, [0, 6])?;
    input.extend_from_slice(&ROUND_END)?;
    ask(&mut input, 3, [0, 5])?;
    input.extend_from_slice(&ROUND_END)?;
    Ok(input)
}

/// What the two invocations return and the entry after the three calls, for the six orders of the calls.
static IN_SOME_ORDER: [[u8; 3]; 6] = [
    [2, 3, 3],
    [3, 2, 3],
    [1, 2, 2],
    [2, 1, 2],
    [1, 2, 1],
    [2, 1, 1],
];

/// Returns the replies to `beside_a_put` with this outcome.
fn replies_of(alloc: Global, outcome: [u8; 3]) -> Result<Vec<u8>, AllocError> {
    let mut output = Vec::new(alloc);
    output.extend_from_slice(&accepted(0, 24))?;
    output.extend_from_slice(&DONE)?;
    output.extend_from_slice(&returned(outcome[0]))?;
    output.extend_from_slice(&returned(outcome[1]))?;
    output.extend_from_slice(&[0, 0, 0, 2, 4, 0])?;
    output.extend_from_slice(&ENDED)?;
    output.extend_from_slice(&value(outcome[2]))?;
    output.extend_from_slice(&ENDED)?;
    Ok(output)
}

/// Checks that these are the replies to `beside_a_put` for some order of its calls.
fn are_in_some_order(alloc: Global, output: &[u8]) -> Result<bool, AllocError> {
    let mut is_found = false;
    for outcome in IN_SOME_ORDER {
        is_found = is_found || replies_of(alloc, outcome)?.as_slice() == output;
    }
    Ok(is_found)
}

#[test]
fn calls_on_an_absent_key_are_in_some_order(rt: HostRuntime) -> Result<(), Fail> {
    let input = beside_a_put(rt.alloc())?;
    for workers in WORKERS {
        let (is_shared, ended) = serve_shared(&rt, rt.alloc(), &input, workers, (0, 3), &NoLoader);
        assert!(rt; is_shared && ended.fault.is_none(), "{workers} workers");
        assert!(rt;
            are_in_some_order(rt.alloc(), &ended.output)?,
            "{workers} workers"
        );
    }
    Ok(())
}

/// A loader by the key modulo 100: 7 has the value 41, 9 has 0, 13 fails, and any other has no value.
struct Hundreds;

impl Loader for Hundreds {
    const ASKS: bool = true;

    ghost ASKS = { true };

    ghost gives = { λ _ _ _. Unit {0} };

    fn load(&self, key: i64) -> Result<Option<i64>, LoadFailed> {
        match key.rem_euclid(100) {
            7 => Ok(Some(41)),
            9 => Ok(Some(0)),
            13 => Err(LoadFailed),
            _ => Ok(None),
        }
    }
}

/// The last two bytes of the keys of the calls with a loader: 7, 108, 213, 307, 407, 507, 609 and 713. All of them are absent.
static KEYS: [[u8; 2]; 8] = [
    [0, 7],
    [0, 108],
    [0, 213],
    [1, 51],
    [1, 151],
    [1, 251],
    [2, 97],
    [2, 201],
];

/// Appends the definitions of Plus, Unbox, Counter, SetRemove and Ratio, which become the classes 0 to 4.
fn five_classes(alloc: Global, input: &mut Vec<u8>) -> Result<(), AllocError> {
    define(input, &rows::plus(alloc)?)?;
    define(input, &rows::unbox(alloc)?)?;
    define(input, &rows::counter(alloc)?)?;
    define(input, &class_named(alloc, "SetRemove")?)?;
    define(input, &class_named(alloc, "Ratio")?)
}

/// Returns three rounds. The first defines the five classes, invokes them on absent keys and gets an absent key.
/// The second asks for each of these keys if it is present, the third gets three of them.
fn loaded_calls(alloc: Global) -> Result<Vec<u8>, AllocError> {
    let mut input = Vec::new(alloc);
    five_classes(alloc, &mut input)?;
    invoke(&mut input, 0, KEYS[0])?;
    invoke(&mut input, 0, KEYS[1])?;
    invoke(&mut input, 0, KEYS[2])?;
    invoke(&mut input, 1, KEYS[3])?;
    invoke_with_one(&mut input, 2, KEYS[4])?;
    invoke(&mut input, 3, KEYS[5])?;
    invoke(&mut input, 4, KEYS[6])?;
    ask(&mut input, 3, KEYS[7])?;
    input.extend_from_slice(&ROUND_END)?;
    for key in KEYS {
        ask(&mut input, 5, key)?;
    }
    input.extend_from_slice(&ROUND_END)?;
    ask(&mut input, 3, KEYS[0])?;
    ask(&mut input, 3, KEYS[3])?;
    ask(&mut input, 3, KEYS[4])?;
    input.extend_from_slice(&ROUND_END)?;
    Ok(input)
}

/// Returns the reply to an invocation that threw the exception with this number, or to a get whose load failed.
fn threw(number: u8) -> [u8; 7] {
    [0, 0, 0, 3, 6, 1, number]
}

/// Returns the replies to the first round of `loaded_calls`.
fn first_of_loaded(alloc: Global) -> Result<Vec<u8>, AllocError> {
    let mut output = Vec::new(alloc);
    for (class, steps) in [(0, 14), (1, 6), (2, 24), (3, 21), (4, 14)] {
        output.extend_from_slice(&accepted(class, steps))?;
    }
    output.extend_from_slice(&returned(42))?;
    output.extend_from_slice(&threw(3))?;
    output.extend_from_slice(&threw(6))?;
    output.extend_from_slice(&returned(41))?;
    output.extend_from_slice(&returned(1))?;
    output.extend_from_slice(&returned(2))?;
    output.extend_from_slice(&threw(1))?;
    output.extend_from_slice(&threw(6))?;
    output.extend_from_slice(&ENDED)?;
    Ok(output)
}

/// Returns the replies to `loaded_calls`.
fn loaded_replies(alloc: Global) -> Result<Vec<u8>, AllocError> {
    let mut output = first_of_loaded(alloc)?;
    for is_there in [1, 0, 0, 1, 1, 0, 0, 0] {
        output.extend_from_slice(&[0, 0, 0, 2, 5, is_there])?;
    }
    output.extend_from_slice(&ENDED)?;
    for number in [42, 41, 1] {
        output.extend_from_slice(&value(number))?;
    }
    output.extend_from_slice(&ENDED)?;
    Ok(output)
}

#[test]
fn calls_on_absent_keys_are_loaded(rt: HostRuntime) -> Result<(), Fail> {
    let input = loaded_calls(rt.alloc())?;
    let output = loaded_replies(rt.alloc())?;
    assert!(rt; each_comes_to(&rt, rt.alloc(), &input, (4, 7), &Hundreds, None, &output));
    Ok(())
}
