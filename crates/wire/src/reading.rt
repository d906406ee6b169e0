//! Reading of requests from a stream.

ghost use Rattle.std.specs.Prelude.{◌≡◌, ◌<◌, ◌≤◌, ◌^◌, ◌+◌, ℕ, List, [], ◌∷◌, ◌++◌, length, take, IfSome, IfNone, IfOk, IfErr, OnOk, OnErr, Err};
ghost use Rattle.std.specs.Io.KnownBytes.{IsAtEnd};
ghost use Rattle.byteorder.specs.Endian.{big_bytes};
ghost use Rattle.jtypes.specs.declared.types.Arg.{Arg};
ghost use Rattle.wire.specs.declared.protocol.Protocol.{Protocol};
ghost use Rattle.wire.specs.declared.protocol.Protocol.TheVariants.{Two};
ghost use Rattle.wire.specs.Frames.{Front, IsFront, IsRead};
ghost use Rattle.wire.specs.Requests.{Invoke, with_args, asked, next_asked};
ghost use Rattle.wire.specs.Counting.{StaysCounted};
ghost use Rattle.wire.specs.Reading.{Took, TookSome, FaultCounts, ReadCounts, IsCut, IsCutOrLacks, IsPassed, Completes, HeadGives, ReadGives, Admits, Tells, BeginsNoInvocation, found};

use crate::parsing::{
    are_bytes, class_and_count, invocation_of, keys_request, may_hold, request_of,
};
use crate::{Ahead, Counted, Invocation, Protocol, Request, WireFault};
use byteorder::{BigEndian, ByteOrder};
use jtypes::{Arg, Items};
use std::alloc::{AllocError, Global};
use std::io::Read;

/// The longest text of a request, in bytes.
const LONGEST: u32 = 131_072;

/// The longest text of a request other than `Define` and `InvokeAll`, in bytes: an `Invoke` with eight longs.
const SHORT: usize = 86;

// Reads until the buffer is full or the input ends. Returns the number of bytes read.
fn fill<R: Read>(reader: &mut Counted<R>, buf: &mut [u8]) -> Result<usize, WireFault>
    ensures within { IfOk result (λ n. n ≤ length buf.new) }
    ensures bytes { IfOk result (λ n. Took R.remaining reader.old reader.new (take n buf.new)) }
    ensures end { IfOk result (λ n. n < length buf.new → IsAtEnd (R.remaining reader.new.inner)) }
    ensures err { IfErr result (λ e. e ≡ WireFault.Read) }
    ensures some { OnErr result (TookSome R.remaining reader.old reader.new (λ _ bytes. length bytes < length buf.new)) }
    ensures long { length buf.new ≡ length buf.old }
    ensures counted { ReadCounts result reader.old reader.new }
{
    let mut at = 0;
    while at < buf.len() {
        match reader.read(&mut buf[at..]) {
            Ok(0) => return Ok(at),
            Ok(n) => at += n,
            Err(_) => return Err(WireFault::Read),
        }
    }
    Ok(at)
}

// Fills the buffer. Fails with `Truncated` if the input ends before.
fn read_part<R: Read>(reader: &mut Counted<R>, buf: &mut [u8]) -> Result<(), WireFault>
    ensures ok { OnOk result (Took R.remaining reader.old reader.new buf.new) }
    ensures err { IfErr result (λ e. TookSome R.remaining reader.old reader.new (λ left bytes. IsCut (length buf.old) left bytes e)) }
    ensures long { length buf.new ≡ length buf.old }
    ensures counted { ReadCounts result reader.old reader.new }
{
    let count = buf.len();
    match fill(reader, buf) {
        Ok(n) if n < count => Err(WireFault::Truncated),
        Ok(_) => Ok(()),
        Err(e) => Err(e),
    }
}

// Reads exactly `count` bytes into a new buffer.
fn read_bytes<R: Read>(
    alloc: Global,
    reader: &mut Counted<R>,
    count: usize,
) -> Result<Vec<u8>, WireFault>
    ensures ok { IfOk result (λ v. Took R.remaining reader.old reader.new v.items × (length v.items ≡ count)) }
    ensures err { IfErr result (λ e. TookSome R.remaining reader.old reader.new (λ left bytes. IsCutOrLacks count left bytes e)) }
    ensures counted { ReadCounts result reader.old reader.new }
{
    let mut bytes = match vec![in alloc; 0; count] {
        Ok(bytes) => bytes,
        Err(_) => return Err(WireFault::NoMemory),
    };
    match read_part(reader, bytes.as_mut_slice()) {
        Ok(()) => Ok(bytes),
        Err(e) => Err(e),
    }
}

// Skips `count` bytes, the rest of a frame that encodes no request. Returns `Malformed`, or the fault of the reader.
fn pass_over<R: Read>(reader: &mut Counted<R>, count: usize) -> WireFault
    ensures bytes { TookSome R.remaining reader.old reader.new (λ left bytes. IsPassed count left bytes result) }
    ensures counted { FaultCounts result reader.old reader.new }
{
    let mut buf = [0u8; 512];
    let mut left = count;
    while left > 0 {
        let size = left.min(buf.len());
        match read_part(reader, &mut buf[..size]) {
            Ok(()) => left -= size,
            Err(e) => return e,
        }
    }
    WireFault::Malformed
}

fn read_define<R: Read>(
    alloc: Global,
    reader: &mut Counted<R>,
    count: usize,
) -> Result<Request, WireFault>
    ensures bytes { (args : List Arg) → TookSome R.remaining reader.old reader.new (λ left bytes. Completes (1 ∷ []) count left bytes (asked args result)) }
    ensures counted { ReadCounts result reader.old reader.new }
{
    match read_bytes(alloc, reader, count) {
        Ok(bytes) => {
            are_bytes(bytes.as_slice());
            Ok(Request::Define(Items::new(bytes)))
        }
        Err(e) => Err(e),
    }
}

// Reads the rest of an `InvokeAll` after the class and the key count, `count` bytes.
fn read_keys<R: Read>(
    alloc: Global,
    reader: &mut Counted<R>,
    class: u32,
    keys: u16,
    count: usize,
    args: &mut Vec<Arg>,
) -> Result<Request, WireFault>
    ensures bytes { TookSome R.remaining reader.old reader.new (λ left bytes. Completes (7 ∷ big_bytes 4 class ++ big_bytes 2 keys) count left bytes (asked args.new.items result)) }
    ensures counted { ReadCounts result reader.old reader.new }
{
    if !may_hold(keys, count) {
        return Err(pass_over(reader, count));
    }
    match read_bytes(alloc, reader, count) {
        Ok(rest) => keys_request(alloc, class, keys, rest.as_slice(), args),
        Err(e) => Err(e),
    }
}

fn read_invoke_all<R: Read>(
    alloc: Global,
    reader: &mut Counted<R>,
    count: usize,
    args: &mut Vec<Arg>,
) -> Result<Request, WireFault>
    ensures bytes { TookSome R.remaining reader.old reader.new (λ left bytes. Completes (7 ∷ []) count left bytes (asked args.new.items result)) }
    ensures counted { ReadCounts result reader.old reader.new }
{
    if count < 7 {
        return Err(pass_over(reader, count));
    }
    let mut head = [0u8; 6];
    match read_part(reader, &mut head) {
        Ok(()) => {
            let (class, keys) = class_and_count(&head);
            read_keys(alloc, reader, class, keys, count - 6, args)
        }
        Err(e) => Err(e),
    }
}

// Reads the body of a text longer than `SHORT`.
// Kind and length are checked before memory is allocated for the body.
fn read_body<R: Read>(
    alloc: Global,
    reader: &mut Counted<R>,
    kind: u8,
    count: usize,
    args: &mut Vec<Arg>,
) -> Result<Request, WireFault>
    requires { 85 < count }
    ensures bytes { TookSome R.remaining reader.old reader.new (λ left bytes. Completes (kind ∷ []) count left bytes (asked args.new.items result)) }
    ensures counted { ReadCounts result reader.old reader.new }
{
    match kind {
        1 => read_define(alloc, reader, count),
        7 => read_invoke_all(alloc, reader, count, args),
        _ => Err(pass_over(reader, count)),
    }
}

// Reads a text longer than `SHORT`, the kind byte first.
fn read_long<R: Read>(
    alloc: Global,
    reader: &mut Counted<R>,
    length: usize,
    args: &mut Vec<Arg>,
) -> Result<Request, WireFault>
    requires { 86 < length }
    ensures bytes { TookSome R.remaining reader.old reader.new (λ left bytes. Completes [] length left bytes (asked args.new.items result)) }
    ensures counted { ReadCounts result reader.old reader.new }
{
    let mut kind = [0u8; 1];
    match read_part(reader, &mut kind) {
        Ok(()) => read_body(alloc, reader, kind[0], length - 1, args),
        Err(e) => Err(e),
    }
}

// Reads a text of at most `SHORT` bytes. It is parsed in the buffer of the reader, or copied if that doesn't hold all of it.
fn read_short<R: Ahead>(
    alloc: Global,
    reader: &mut Counted<R>,
    length: usize,
    args: &mut Vec<Arg>,
) -> Result<Request, WireFault>
    requires { length ≤ 86 }
    ensures bytes { TookSome R.remaining reader.old reader.new (λ left bytes. Completes [] length left bytes (asked args.new.items result)) }
    ensures counted { ReadCounts result reader.old reader.new }
{
    if reader.at_hand().len() >= length {
        let request = request_of(alloc, &reader.at_hand()[..length], args);
        reader.pass(length);
        return request;
    }
    let mut text = [0u8; SHORT];
    match read_part(reader, &mut text[..length]) {
        Ok(()) => request_of(alloc, &text[..length], args),
        Err(e) => Err(e),
    }
}

// Returns the length field that `bytes` begins with, or none if there are fewer than 4 bytes.
fn length_in(bytes: &[u8]) -> Option<u32>
    ensures some { IfSome result (λ n. (take 4 bytes.now ≡ big_bytes 4 n) × (n < 2 ^ 32) × (4 ≤ length bytes.now)) }
    ensures none { IfNone result (length bytes.now < 4) }
{
    if bytes.len() < 4 {
        return None;
    }
    let head = &bytes[..4];
    are_bytes(head);
    Some(BigEndian::read_u32(head))
}

// Reads the length field of the next frame. Returns none at the end of the input.
fn read_length<R: Ahead>(reader: &mut Counted<R>) -> Result<Option<u32>, WireFault>
    ensures ok { IfOk result (λ o. HeadGives (R.remaining reader.new.inner) (Took R.remaining reader.old reader.new) o) }
    ensures err { IfErr result (λ e. TookSome R.remaining reader.old reader.new (λ left bytes. ReadGives Two left bytes (Err e))) }
    ensures counted { ReadCounts result reader.old reader.new }
{
    if let Some(length) = length_in(reader.at_hand()) {
        reader.pass(4);
        return Ok(Some(length));
    }
    let mut head = [0u8; 4];
    match fill(reader, &mut head) {
        Ok(0) => Ok(None),
        Ok(n) if n < 4 => Err(WireFault::Truncated),
        Ok(_) => {
            are_bytes(&head);
            Ok(Some(BigEndian::read_u32(&head)))
        }
        Err(e) => Err(e),
    }
}

// Returns the length of the text if `bytes` begins with a whole frame whose text has 1 to `SHORT` bytes.
// The text of an `Invoke` is never longer.
fn short_length_in(bytes: &[u8]) -> Option<usize>
    ensures some { IfSome result (λ n. (take 4 bytes.now ≡ big_bytes 4 n) × (1 ≤ n) × (n ≤ 86) × (4 + n ≤ length bytes.now)) }
    ensures none { IfNone result (BeginsNoInvocation bytes.now) }
{
    let length = length_in(bytes)? as usize;
    if length == 0 || length > SHORT || length > bytes.len() - 4 {
        return None;
    }
    Some(length)
}

/// Consumes and returns the `Invoke` whose frame the buffered bytes begin with, and stores its arguments in `args`.
/// Without such a frame, and if there is no memory for the arguments, it consumes nothing, and may change `args`.
pub fn invocation_at_hand<R: Ahead>(
    reader: &mut Counted<R>,
    args: &mut Vec<Arg>,
) -> Result<Option<Invocation>, AllocError>
    ensures some { IfOk result (λ o. IfSome o (λ i. TookSome R.remaining reader.old reader.new (λ _ bytes. (p : Protocol) → IsRead p bytes (Invoke i.class i.key args.new.items) []))) }
    ensures none { IfOk result (λ o. IfNone o ((reader.new ≡ reader.old) × BeginsNoInvocation (R.ahead reader.old.inner))) }
    ensures err { OnErr result (reader.new ≡ reader.old) }
    ensures counted { StaysCounted reader.old reader.new }
{
    let hand = reader.at_hand();
    let Some(length) = short_length_in(hand) else {
        return Ok(None);
    };
    let Some(invocation) = invocation_of(&hand[4..4 + length], args)? else {
        return Ok(None);
    };
    reader.pass(4 + length);
    Ok(Some(invocation))
}

// Reads the text of a frame with this length field, of a request of any protocol.
fn read_frame<R: Ahead>(
    alloc: Global,
    reader: &mut Counted<R>,
    length: u32,
    args: &mut Vec<Arg>,
) -> Result<Request, WireFault>
    ensures bytes { TookSome R.remaining reader.old reader.new (λ left bytes. ReadGives Two left (big_bytes 4 length ++ bytes) (found (asked args.new.items result))) }
    ensures counted { ReadCounts result reader.old reader.new }
{
    if length == 0 {
        return Err(WireFault::Malformed);
    }
    if length > LONGEST {
        return Err(WireFault::TooLong);
    }
    let length = length as usize;
    if length <= SHORT {
        read_short(alloc, reader, length, args)
    } else {
        read_long(alloc, reader, length, args)
    }
}

// Returns the request, or `Malformed` if the protocol doesn't have it.
fn known(protocol: Protocol, request: Request) -> Result<Option<Request>, WireFault>
    ensures { (args : List Arg) → Admits protocol (with_args args request) (next_asked args result) }
{
    if protocol.knows(&request) {
        Ok(Some(request))
    } else {
        Err(WireFault::Malformed)
    }
}

/// Reads one frame and returns its request, or none at the end of the input. A request that the protocol doesn't have is `Malformed`.
/// The arguments of an invocation replace the contents of `args`.
/// A read that returns an error is not retried, whatever the error.
pub fn read_request<R: Ahead>(
    alloc: Global,
    protocol: Protocol,
    reader: &mut Counted<R>,
    args: &mut Vec<Arg>,
) -> Result<Option<Request>, WireFault>
    ensures bytes { TookSome R.remaining reader.old reader.new (λ left bytes. ReadGives protocol left bytes (next_asked args.new.items result)) }
    ensures exact { IfSome (R.remaining reader.old.inner) (λ input. (f : Front) → IsFront protocol input f → Tells f (next_asked args.new.items result)) }
    ensures counted { ReadCounts result reader.old reader.new }
{
    match read_length(reader) {
        Ok(None) => Ok(None),
        Ok(Some(length)) => match read_frame(alloc, reader, length, args) {
            Ok(request) => known(protocol, request),
            Err(e) => Err(e),
        },
        Err(e) => Err(e),
    }
}
