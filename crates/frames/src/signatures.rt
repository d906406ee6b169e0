//! The types that a class's descriptors and constants name.

ghost use Rattle.std.specs.Prelude.{◌≡◌, ◌<◌, IfOk};
ghost use Rattle.frames.specs.Signatures.{by_text, known_classes, known_arrays, class_type, constant_type, field_type, field_types, result_type, signature_of, method_signature, with_receiver, is_public, is_private, is_static, is_native, is_abstract, has_flag};

use classfile::{ClassView, MethodView};
use constpool::{FieldType, names, parse_method_descriptor, same_bytes};
use jtypes::{Items, JType, RefType, Refusal};
use std::alloc::{AllocError, Global};

/// The types of a method's parameters and of its result (JVMS §4.3.3). A boolean is an int.
/// `signature_of` leaves the receiver out; `method_signature` has it as the first parameter of an instance method.
#[derive(Drop)]
pub struct Signature {
    pub params: Items<JType>,
    pub result: Option<JType>,
    /// Whether the result is a boolean.
    pub is_boolean: bool,
}

/// Returns the type of a known class or interface name.
fn known_class(name: &[u8]) -> Option<RefType>
    ensures { result ≡ by_text known_classes name.now }
{
    if same_bytes(names::OBJECT, name) {
        Some(RefType::Object)
    } else if same_bytes(names::NUMBER, name) {
        Some(RefType::Number)
    } else if same_bytes(names::LONG, name) {
        Some(RefType::Long)
    } else if same_bytes(names::INTEGER, name) {
        Some(RefType::Integer)
    } else if same_bytes(names::BOOLEAN, name) {
        Some(RefType::Boolean)
    } else if same_bytes(names::VOID, name) {
        Some(RefType::Void)
    } else if same_bytes(names::MUTABLE_ENTRY, name) {
        Some(RefType::MutableEntry)
    } else if same_bytes(names::ENTRY_PROCESSOR, name) {
        Some(RefType::EntryProcessor)
    } else if same_bytes(names::CACHE_ENTRY, name) {
        Some(RefType::CacheEntry)
    } else {
        None
    }
}

/// Returns the array type that a Class constant names (JVMS §4.4.1).
fn known_array(name: &[u8]) -> Option<RefType>
    ensures { result ≡ by_text known_arrays name.now }
{
    if same_bytes(names::INT_ARRAY, name) {
        Some(RefType::IntArray)
    } else if same_bytes(names::LONG_ARRAY, name) {
        Some(RefType::LongArray)
    } else if same_bytes(names::OBJECT_ARRAY, name) {
        Some(RefType::ObjectArray)
    } else {
        None
    }
}

/// Returns the type of a class or interface name, as seen in the class `own`.
#[tactic(auto, unfolding(crate::specs::Signatures::class_type))]
pub fn class_type(own: &[u8], name: &[u8]) -> Option<RefType>
    ensures { result ≡ class_type own.now name.now }
{
    if same_bytes(name, own) {
        Some(RefType::This)
    } else {
        known_class(name)
    }
}

/// Returns the type that a Class constant names, as in `checkcast`, `instanceof` and frames (JVMS §4.4.1).
#[tactic(auto, unfolding(crate::specs::Signatures::constant_type))]
pub fn constant_type(view: &ClassView<'_>, i: u16) -> Option<RefType>
    ensures { result ≡ constant_type view.now i }
{
    let name = view.pool().class(i)?;
    match class_type(view.name(), name) {
        Some(found) => Some(found),
        None => known_array(name),
    }
}

#[tactic(auto, unfolding(crate::specs::Signatures::field_type))]
fn field_type(own: &[u8], found: &FieldType) -> Option<JType>
    ensures { result ≡ field_type own.now found.now }
{
    match found {
        FieldType::Int | FieldType::Boolean => Some(JType::Int),
        FieldType::Long => Some(JType::Long),
        FieldType::IntArray => Some(JType::Ref(RefType::IntArray)),
        FieldType::LongArray => Some(JType::Ref(RefType::LongArray)),
        FieldType::ObjectArray => Some(JType::Ref(RefType::ObjectArray)),
        FieldType::Class(name) => match class_type(own, name.as_slice()) {
            Some(r) => Some(JType::Ref(r)),
            None => None,
        },
    }
}

fn field_types(
    alloc: Global,
    own: &[u8],
    found: &[FieldType],
) -> Result<Option<Items<JType>>, AllocError>
    ensures { IfOk result (λ types. types ≡ field_types own.now found.now) }
{
    let mut types = Vec::new(alloc);
    for one in found {
        match field_type(own, one) {
            None => return Ok(None),
            Some(t) => types.push(t)?,
        }
    }
    Ok(Some(Items::new(types)))
}

#[tactic(auto, unfolding(crate::specs::Signatures::result_type))]
fn result_type(own: &[u8], found: &Option<FieldType>) -> Option<Option<JType>>
    ensures { result ≡ result_type own.now found.now }
{
    match found {
        None => Some(None),
        Some(t) => match field_type(own, t) {
            None => None,
            Some(t) => Some(Some(t)),
        },
    }
}

/// Returns the signature of a method descriptor, as seen in the class `own`, without a receiver.
/// Returns `None` for a descriptor outside the profile.
#[tactic(auto, unfolding(crate::specs::Signatures::signature_of))]
pub fn signature_of(
    alloc: Global,
    own: &[u8],
    descriptor: &[u8],
) -> Result<Option<Signature>, AllocError>
    ensures { IfOk result (λ s. s ≡ signature_of own.now descriptor.now) }
{
    let sig = match parse_method_descriptor(alloc, descriptor) {
        Ok(sig) => sig,
        Err(Refusal::NoMemory) => return Err(AllocError),
        Err(_) => return Ok(None),
    };
    let Some(params) = field_types(alloc, own, sig.params.as_slice())? else {
        return Ok(None);
    };
    let Some(result) = result_type(own, &sig.result) else {
        return Ok(None);
    };
    let is_boolean = matches!(sig.result, Some(FieldType::Boolean));
    Ok(Some(Signature {
        params,
        result,
        is_boolean,
    }))
}

/// Checks that a flag is set (JVMS §4.1, §4.6).
fn has_flag(flag: u16, flags: u16) -> bool
    requires { 0 < flag }
    ensures { result ≡ has_flag flag flags }
{
    flags / flag % 2 == 1
}

pub fn is_public(flags: u16) -> bool
    ensures { result ≡ is_public flags }
{
    has_flag(0x0001, flags)
}

pub fn is_private(flags: u16) -> bool
    ensures { result ≡ is_private flags }
{
    has_flag(0x0002, flags)
}

pub fn is_static(flags: u16) -> bool
    ensures { result ≡ is_static flags }
{
    has_flag(0x0008, flags)
}

pub fn is_native(flags: u16) -> bool
    ensures { result ≡ is_native flags }
{
    has_flag(0x0100, flags)
}

pub fn is_abstract(flags: u16) -> bool
    ensures { result ≡ is_abstract flags }
{
    has_flag(0x0400, flags)
}

/// Returns the parameters, with the receiver first unless the method is static.
fn with_receiver(
    alloc: Global,
    flags: u16,
    params: Items<JType>,
) -> Result<Items<JType>, AllocError>
    ensures { IfOk result (λ all. all ≡ with_receiver flags RefType.This params) }
{
    if is_static(flags) {
        return Ok(params);
    }
    let mut all = Vec::new(alloc);
    all.push(JType::Ref(RefType::This))?;
    all.extend_from_slice(params.as_slice())?;
    Ok(Items::new(all))
}

/// Returns the signature of a method of the class, with the receiver as the first parameter unless the method is static.
/// Returns `None` for a descriptor outside the profile.
#[tactic(auto, unfolding(crate::specs::Signatures::method_signature))]
pub fn method_signature(
    alloc: Global,
    view: &ClassView<'_>,
    method: &MethodView<'_>,
) -> Result<Option<Signature>, AllocError>
    ensures { IfOk result (λ s. s ≡ method_signature view.now (record { flags = method.now.flags; name = method.now.name.now; descriptor = method.now.descriptor.now })) }
{
    let Some(s) = signature_of(alloc, view.name(), method.descriptor)? else {
        return Ok(None);
    };
    let Signature {
        params,
        result,
        is_boolean,
    } = s;
    Ok(Some(Signature {
        params: with_receiver(alloc, method.flags, params)?,
        result,
        is_boolean,
    }))
}
