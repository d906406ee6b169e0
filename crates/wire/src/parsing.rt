//! Parsing of the texts of requests.

ghost use Rattle.std.specs.Prelude.{◌≡◌, ◌≢◌, ◌⊎◌, ◌+◌, ◌*◌, ◌^◌, ◌<◌, ◌≤◌, List, [], ◌∷◌, ◌++◌, length, true, false, IfOk};
ghost use Rattle.jtypes.specs.Layout.{Takes, Gives, first, many};
ghost use Rattle.byteorder.specs.Endian.{big_bytes};
ghost use Rattle.jtypes.specs.declared.types.Arg.{Arg};
ghost use Rattle.wire.specs.Frames.{AreBytes, IsText};
ghost use Rattle.wire.specs.Requests.{Invoke, with_args, asked};
ghost use Rattle.wire.specs.Reading.{Parses, IsFaultOf, InvocationIs};
ghost use Rattle.wire.specs.Bodies.{long, int, arg_of, argument, arguments, put, invoke, forget, small, keys_and_arguments, alone};

use crate::{Invocation, Request, WireFault};
use byteorder::{BigEndian, ByteOrder};
use jtypes::{Arg, Args, Cursor, Items, Reader, Refusal, row};
use std::alloc::{AllocError, Global};

#[tactic(auto, unfolding(crate::specs::Bodies::long))]
fn read_long(cursor: &mut Cursor<'_>) -> Result<i64, Refusal>
    ensures { Takes (λ x. x) result (first long cursor.old) cursor.new }
{
    let bits = cursor.u64()?;
    Ok(bits.cast_signed())
}

#[tactic(auto, unfolding(crate::specs::Bodies::int))]
fn read_int(cursor: &mut Cursor<'_>) -> Result<i32, Refusal>
    ensures { Takes (λ x. x) result (first int cursor.old) cursor.new }
{
    let bits = cursor.u32()?;
    Ok(bits.cast_signed())
}

#[tactic(auto, unfolding(crate::specs::Bodies::arg_of))]
fn read_arg_of(kind: u8, cursor: &mut Cursor<'_>) -> Result<Arg, Refusal>
    ensures { Takes (λ x. x) result (first (arg_of kind) cursor.old) cursor.new }
{
    match kind {
        0 => Ok(Arg::Null),
        1 => Ok(Arg::Long(read_long(cursor)?)),
        2 => Ok(Arg::Integer(read_int(cursor)?)),
        3 => Ok(Arg::Boolean(false)),
        4 => Ok(Arg::Boolean(true)),
        _ => Err(Refusal::BadOperand),
    }
}

#[tactic(auto, unfolding(crate::specs::Bodies::argument))]
fn read_arg(cursor: &mut Cursor<'_>) -> Result<Arg, Refusal>
    ensures { Takes (λ x. x) result (first argument cursor.old) cursor.new }
{
    let kind = cursor.u8()?;
    read_arg_of(kind, cursor)
}

#[tactic(auto, unfolding(crate::specs::Bodies::put))]
fn read_put(cursor: &mut Cursor<'_>) -> Result<Request, Refusal>
    ensures { (args : List Arg) → Takes (with_args args) result (first put cursor.old) cursor.new }
{
    let key = read_long(cursor)?;
    let value = read_long(cursor)?;
    Ok(Request::Put { key, value })
}

// Reads `count` arguments into `args`, replacing its contents.
fn read_each(count: u8, cursor: &mut Cursor<'_>, args: &mut Vec<Arg>) -> Result<(), Refusal>
    ensures { Takes (λ _. args.new.items) result (first (many count argument) cursor.old) cursor.new }
{
    args.clear();
    for _ in 0..count {
        let arg = read_arg(cursor)?;
        if args.push(arg).is_err() {
            return Err(Refusal::NoMemory);
        }
    }
    Ok(())
}

#[tactic(auto, unfolding(crate::specs::Bodies::arguments))]
fn read_args(cursor: &mut Cursor<'_>, args: &mut Vec<Arg>) -> Result<(), Refusal>
    ensures { Takes (λ _. args.new.items) result (first arguments cursor.old) cursor.new }
{
    let count = cursor.u8()?;
    if usize::from(count) > Args::MOST {
        return Err(Refusal::BadOperand);
    }
    read_each(count, cursor, args)
}

#[tactic(auto, unfolding(crate::specs::Bodies::invoke))]
fn read_invocation(cursor: &mut Cursor<'_>, args: &mut Vec<Arg>) -> Result<Invocation, Refusal>
    ensures { Takes (λ i. Invoke i.class i.key args.new.items) result (first invoke cursor.old) cursor.new }
{
    let class = cursor.u32()?;
    let key = read_long(cursor)?;
    read_args(cursor, args)?;
    Ok(Invocation { class, key })
}

fn read_invoke(cursor: &mut Cursor<'_>, args: &mut Vec<Arg>) -> Result<Request, Refusal>
    ensures { Takes (with_args args.new.items) result (first invoke cursor.old) cursor.new }
{
    let Invocation { class, key } = read_invocation(cursor, args)?;
    Ok(Request::Invoke { class, key })
}

#[tactic(auto, unfolding(crate::specs::Bodies::forget))]
fn read_forget(cursor: &mut Cursor<'_>) -> Result<Request, Refusal>
    ensures { (args : List Arg) → Takes (with_args args) result (first forget cursor.old) cursor.new }
{
    let class = cursor.u32()?;
    Ok(Request::Forget { class })
}

#[tactic(auto, unfolding(crate::specs::Bodies::small))]
fn read_small(kind: u8, cursor: &mut Cursor<'_>, args: &mut Vec<Arg>) -> Result<Request, Refusal>
    ensures { Takes (with_args args.new.items) result (first (small kind) cursor.old) cursor.new }
{
    match kind {
        2 => read_put(cursor),
        3 => Ok(Request::Get {
            key: read_long(cursor)?,
        }),
        4 => Ok(Request::Remove {
            key: read_long(cursor)?,
        }),
        5 => Ok(Request::Contains {
            key: read_long(cursor)?,
        }),
        6 => read_invoke(cursor, args),
        8 => Ok(Request::RoundEnd),
        9 => Ok(Request::Version),
        10 => read_forget(cursor),
        _ => Err(Refusal::BadOperand),
    }
}

struct LongReader;

impl Reader for LongReader {
    type Item = i64;

    ghost layout = { λ _. long };

    fn read(&self, _alloc: Global, cursor: &mut Cursor<'_>) -> Result<i64, Refusal> {
        read_long(cursor)
    }
}

#[tactic(auto, unfolding(crate::specs::Bodies::keys_and_arguments))]
fn read_keys_and_args(
    alloc: Global,
    class: u32,
    count: u16,
    cursor: &mut Cursor<'_>,
    args: &mut Vec<Arg>,
) -> Result<Request, Refusal>
    ensures { Takes (with_args args.new.items) result (first (keys_and_arguments class count) cursor.old) cursor.new }
{
    let keys = row(alloc, &LongReader, usize::from(count), cursor)?;
    read_args(cursor, args)?;
    Ok(Request::InvokeAll { class, keys })
}

#[tactic(auto, unfolding(crate::specs::Bodies::alone))]
fn all_small(kind: u8, body: &[u8], args: &mut Vec<Arg>) -> Result<Request, Refusal>
    ensures { Gives (λ r. (with_args args.new.items r, [])) result (first (alone (small kind)) body.now) }
{
    let mut cursor = Cursor::new(body);
    let request = read_small(kind, &mut cursor, args)?;
    cursor.end()?;
    Ok(request)
}

#[tactic(auto, unfolding(crate::specs::Bodies::alone, crate::specs::Bodies::small))]
fn all_invocation(body: &[u8], args: &mut Vec<Arg>) -> Result<Invocation, Refusal>
    ensures { Gives (λ i. (Invoke i.class i.key args.new.items, [])) result (first (alone (small 6)) body.now) }
{
    let mut cursor = Cursor::new(body);
    let invocation = read_invocation(&mut cursor, args)?;
    cursor.end()?;
    Ok(invocation)
}

#[tactic(auto, unfolding(crate::specs::Bodies::alone))]
fn all_keys(
    alloc: Global,
    class: u32,
    count: u16,
    rest: &[u8],
    args: &mut Vec<Arg>,
) -> Result<Request, Refusal>
    ensures { Gives (λ r. (with_args args.new.items r, [])) result (first (alone (keys_and_arguments class count)) rest.now) }
{
    let mut cursor = Cursor::new(rest);
    let request = read_keys_and_args(alloc, class, count, &mut cursor, args)?;
    cursor.end()?;
    Ok(request)
}

// Out of memory stays out of memory, any other refusal of a body means a malformed frame.
fn fault_of(refusal: Refusal) -> WireFault
    ensures { IsFaultOf refusal result }
{
    match refusal {
        Refusal::NoMemory => WireFault::NoMemory,
        _ => WireFault::Malformed,
    }
}

// Parses a request other than `Define` and `InvokeAll` from its kind and its body.
fn small_request(kind: u8, body: &[u8], args: &mut Vec<Arg>) -> Result<Request, WireFault>
    requires other { (kind ≢ 1) × (kind ≢ 7) }
    ensures { Parses (kind ∷ body.now) (asked args.new.items result) }
{
    match all_small(kind, body, args) {
        Ok(request) => Ok(request),
        Err(e) => Err(fault_of(e)),
    }
}

/// Returns whether `length` bytes can hold the keys and the arguments of an `InvokeAll` on `keys` keys:
/// 8 bytes a key, then 1 to 73 bytes.
pub fn may_hold(keys: u16, length: usize) -> bool
    ensures yes { result ≡ true → (8 * keys + 1 ≤ length) × (length ≤ 8 * keys + 73) }
    ensures no { result ≡ false → (length < 8 * keys + 1) ⊎ (8 * keys + 73 < length) }
{
    let least = 8 * usize::from(keys) + 1;
    least <= length && length <= least + 72
}

/// Parses an `InvokeAll` of `class` from `rest`, which has `count` keys and then the arguments.
pub fn keys_request(
    alloc: Global,
    class: u32,
    count: u16,
    rest: &[u8],
    args: &mut Vec<Arg>,
) -> Result<Request, WireFault>
    ensures { Parses (7 ∷ big_bytes 4 class ++ big_bytes 2 count ++ rest.now) (asked args.new.items result) }
{
    match all_keys(alloc, class, count, rest, args) {
        Ok(request) => Ok(request),
        Err(e) => Err(fault_of(e)),
    }
}

// Proof only: the elements of a byte slice are below 256.
pub fn are_bytes(bytes: &[u8])
    ensures { AreBytes bytes.now }
{}

/// Returns the class and the key count of an `InvokeAll`, from the first 6 bytes of its body.
pub fn class_and_count(head: &[u8]) -> (u32, u16)
    requires { length head.now ≡ 6 }
    ensures bytes { head.now ≡ big_bytes 4 result.0 ++ big_bytes 2 result.1 }
    ensures small { (result.0 < 2 ^ 32) × (result.1 < 2 ^ 16) }
{
    are_bytes(head);
    (BigEndian::read_u32(head), BigEndian::read_u16(&head[4..]))
}

// Parses the body of an `InvokeAll`.
fn invoke_all_request(alloc: Global, body: &[u8], args: &mut Vec<Arg>) -> Result<Request, WireFault>
    ensures { Parses (7 ∷ body.now) (asked args.new.items result) }
{
    if body.len() < 7 {
        return Err(WireFault::Malformed);
    }
    let (head, rest) = body.split_at(6);
    let (class, keys) = class_and_count(head);
    if !may_hold(keys, rest.len()) {
        return Err(WireFault::Malformed);
    }
    keys_request(alloc, class, keys, rest, args)
}

// Returns a `Define` with a copy of the body, the bytes of the class file.
fn define_request(alloc: Global, body: &[u8]) -> Result<Request, WireFault>
    ensures { (args : List Arg) → Parses (1 ∷ body.now) (asked args result) }
{
    are_bytes(body);
    match Vec::from_slice(alloc, body) {
        Ok(bytes) => Ok(Request::Define(Items::new(bytes))),
        Err(_) => Err(WireFault::NoMemory),
    }
}

/// Returns the invocation that `text` encodes if it is an `Invoke`, and stores its arguments in `args`.
/// Fails if there is no memory for the arguments.
pub fn invocation_of(text: &[u8], args: &mut Vec<Arg>) -> Result<Option<Invocation>, AllocError>
    ensures { IfOk result (InvocationIs text.now args.new.items) }
{
    let Some((kind, body)) = text.split_first() else {
        return Ok(None);
    };
    if *kind != 6 {
        return Ok(None);
    }
    match all_invocation(body, args) {
        Ok(invocation) => Ok(Some(invocation)),
        Err(refusal) => match refusal {
            Refusal::NoMemory => Err(AllocError),
            _ => Ok(None),
        },
    }
}

/// Parses the text of a frame, a kind byte and a body, and stores the arguments of an invocation in `args`.
pub fn request_of(alloc: Global, text: &[u8], args: &mut Vec<Arg>) -> Result<Request, WireFault>
    ensures { Parses text.now (asked args.new.items result) }
{
    let Some((kind, body)) = text.split_first() else {
        return Err(WireFault::Malformed);
    };
    match *kind {
        1 => define_request(alloc, body),
        7 => invoke_all_request(alloc, body, args),
        kind => small_request(kind, body, args),
    }
}
