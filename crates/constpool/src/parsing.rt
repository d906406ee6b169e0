//! Parsing of method descriptors.

ghost use Rattle.std.specs.Prelude.{◌≡◌, ◌≢◌, ◌<◌, ◌==◌, length, None, Some, IfOk, IfErr, option_map};
ghost use Rattle.std.specs.List.{position};
ghost use Rattle.jtypes.specs.Layout.{Gives};
ghost use Rattle.constpool.specs.Descriptor.{sig_of, read_type, read_params, read_result, read_class_type, before_semicolon, param_slots};
ghost use Rattle.constpool.specs.Parsing.{parsed};

use crate::bytes::after_front;
use crate::{FieldType, Sig, names};
use jtypes::{Items, Refusal};
use std::alloc::Global;

/// Returns the index of the first semicolon.
fn semicolon(bytes: &[u8]) -> Option<usize>
    ensures { result ≡ position (λ b. b == 59) bytes.now }
{
    bytes.iter().position(|b| *b == b';')
}

/// Returns the bytes before the first semicolon and those after it.
fn before_semicolon(bytes: &[u8]) -> Option<(&[u8], &[u8])>
    ensures { option_map (λ p. (p.0.now, p.1.now)) result ≡ before_semicolon bytes.now }
{
    let end = semicolon(bytes)?;
    Some((&bytes[..end], &bytes[end + 1..]))
}

fn read_class_type(alloc: Global, bytes: &[u8]) -> Result<(FieldType, &[u8]), Refusal>
    ensures { Gives (λ x. (x.0, x.1.now)) result (parsed (read_class_type bytes.now)) }
{
    let Some(rest) = after_front(b"L", bytes) else {
        return Err(Refusal::BadDescriptor);
    };
    let Some((name, rest)) = before_semicolon(rest) else {
        return Err(Refusal::BadDescriptor);
    };
    if name.is_empty() {
        return Err(Refusal::BadDescriptor);
    }
    let name = Items::new(Vec::from_slice(alloc, name)?);
    Ok((FieldType::Class(name), rest))
}

/// Parses one type. Returns it with the bytes after it (JVMS §4.3.2).
#[tactic(auto, unfolding(crate::specs::Descriptor::read_type))]
fn read_type(alloc: Global, bytes: &[u8]) -> Result<(FieldType, &[u8]), Refusal>
    ensures { Gives (λ x. (x.0, x.1.now)) result (parsed (read_type bytes.now)) }
{
    if let Some(rest) = after_front(b"I", bytes) {
        return Ok((FieldType::Int, rest));
    }
    if let Some(rest) = after_front(b"J", bytes) {
        return Ok((FieldType::Long, rest));
    }
    if let Some(rest) = after_front(b"Z", bytes) {
        return Ok((FieldType::Boolean, rest));
    }
    if let Some(rest) = after_front(names::INT_ARRAY, bytes) {
        return Ok((FieldType::IntArray, rest));
    }
    if let Some(rest) = after_front(names::LONG_ARRAY, bytes) {
        return Ok((FieldType::LongArray, rest));
    }
    if let Some(rest) = after_front(names::OBJECT_ARRAY, bytes) {
        return Ok((FieldType::ObjectArray, rest));
    }
    read_class_type(alloc, bytes)
}

/// Parses the types up to the closing parenthesis. Returns them with the bytes after it.
fn read_params(alloc: Global, bytes: &[u8]) -> Result<(Items<FieldType>, &[u8]), Refusal>
    ensures { Gives (λ x. (x.0, x.1.now)) result (parsed (read_params (length bytes.now) bytes.now)) }
{
    let mut params = Vec::new(alloc);
    let mut rest = bytes;
    while !rest.is_empty() {
        if let Some(after) = after_front(b")", rest) {
            return Ok((Items::new(params), after));
        }
        let (param, after) = read_type(alloc, rest)?;
        params.push(param)?;
        rest = after;
    }
    Err(Refusal::BadDescriptor)
}

fn read_result(alloc: Global, bytes: &[u8]) -> Result<Option<FieldType>, Refusal>
    ensures { Gives (λ x. x) result (parsed (read_result bytes.now)) }
{
    if let Some(rest) = after_front(b"V", bytes) {
        return if rest.is_empty() {
            Ok(None)
        } else {
            Err(Refusal::BadDescriptor)
        };
    }
    let (found, rest) = read_type(alloc, bytes)?;
    if rest.is_empty() {
        Ok(Some(found))
    } else {
        Err(Refusal::BadDescriptor)
    }
}

#[tactic(auto, unfolding(crate::specs::Descriptor::sig_of))]
fn read_signature(alloc: Global, bytes: &[u8]) -> Result<Sig, Refusal>
    ensures { Gives (λ x. x) result (parsed (sig_of bytes.now)) }
{
    let Some(rest) = after_front(b"(", bytes) else {
        return Err(Refusal::BadDescriptor);
    };
    let (params, rest) = read_params(alloc, rest)?;
    let result = read_result(alloc, rest)?;
    Ok(Sig { params, result })
}

/// Parses a method descriptor (JVMS §4.3.3). Types outside the profile, such as `D` or `[B`, are refused.
pub fn parse_method_descriptor(alloc: Global, bytes: &[u8]) -> Result<Sig, Refusal>
    // The result is the signature of this text.
    ensures found { IfOk result (λ s. sig_of bytes.now ≡ Some s) }

    // A refusal other than `NoMemory` is `BadDescriptor`, and the text is no descriptor.
    ensures refused { IfErr result (λ r. r ≢ Refusal.NoMemory → (r ≡ Refusal.BadDescriptor) × (sig_of bytes.now ≡ None)) }
{
    read_signature(alloc, bytes)
}

/// Returns the number of slots of the parameters, 2 for a long, without the receiver (JVMS §4.3.3).
pub fn param_slots(sig: &Sig) -> usize
    ensures { result ≡ param_slots sig.now }
{
    let mut slots = 0;
    for param in sig.params.as_slice() {
        slots += match param {
            FieldType::Long => 2,
            _ => 1,
        };
    }
    slots
}
