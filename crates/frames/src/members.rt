//! The methods that a class's instructions may call.

ghost use Rattle.std.specs.Prelude.{◌≡◌, ℕ, IfOk, Some, option_map, map, slice_get};
ghost use Rattle.jtypes.specs.Lists.{same_bytes};
ghost use Rattle.frames.specs.Members.{library_rows, is_row_of, row_of, library_row, library_params, library_callee, numbered, pairs_with, own_callee, member_at, callee_at};
ghost use Rattle.frames.specs.Seen.{member_seen, row_seen};
ghost use Rattle.frames.specs.Signed.{AreNamesakes, method_of, method_at};

use crate::signatures::{class_type, is_private, is_static, signature_of};
use crate::signed::SignedMethod;
use crate::{MemberView, Signature};
use constpool::{MemberRef, Pool, names, same_bytes};
use jtypes::{Invoke, Items, JType, Native, RefType};
use std::alloc::{AllocError, Global};

/// The target of a call.
#[derive(Clone, Copy, PartialEq, Eq)]
pub enum Reached {
    Library(Native),
    /// A method of the class, by its index from 0.
    Own(usize),
}

/// The method that a call resolves to: its target, its parameter types with the receiver first, and its result type.
#[derive(Drop)]
pub struct Callee {
    pub reached: Reached,
    pub params: Items<JType>,
    pub result: Option<JType>,
}

/// A library method, with the kind of its call instruction and its symbolic reference.
struct LibraryRow {
    kind: Invoke,
    class: &'static [u8],
    name: &'static [u8],
    descriptor: &'static [u8],
    native: Native,
}

impl LibraryRow {
    fn is_of(&self, kind: Invoke, member: &MemberRef<'_>) -> bool
        ensures { result ≡ is_row_of kind (member_seen member.now) (row_seen self.now) }
    {
        kind == self.kind
            && same_bytes(member.class, self.class)
            && same_bytes(member.name, self.name)
            && same_bytes(member.descriptor, self.descriptor)
    }
}

static LIBRARY: [LibraryRow; 21] = [
    LibraryRow {
        kind: Invoke::Static,
        class: names::LONG,
        name: b"valueOf",
        descriptor: b"(J)Ljava/lang/Long;",
        native: Native::LongValueOf,
    },
    LibraryRow {
        kind: Invoke::Static,
        class: names::INTEGER,
        name: b"valueOf",
        descriptor: b"(I)Ljava/lang/Integer;",
        native: Native::IntegerValueOf,
    },
    LibraryRow {
        kind: Invoke::Static,
        class: names::BOOLEAN,
        name: b"valueOf",
        descriptor: b"(Z)Ljava/lang/Boolean;",
        native: Native::BooleanValueOf,
    },
    LibraryRow {
        kind: Invoke::Static,
        class: names::MATH,
        name: b"max",
        descriptor: b"(II)I",
        native: Native::MaxOfInts,
    },
    LibraryRow {
        kind: Invoke::Static,
        class: names::MATH,
        name: b"min",
        descriptor: b"(II)I",
        native: Native::MinOfInts,
    },
    LibraryRow {
        kind: Invoke::Static,
        class: names::MATH,
        name: b"max",
        descriptor: b"(JJ)J",
        native: Native::MaxOfLongs,
    },
    LibraryRow {
        kind: Invoke::Static,
        class: names::MATH,
        name: b"min",
        descriptor: b"(JJ)J",
        native: Native::MinOfLongs,
    },
    LibraryRow {
        kind: Invoke::Virtual,
        class: names::LONG,
        name: b"intValue",
        descriptor: b"()I",
        native: Native::IntValue,
    },
    LibraryRow {
        kind: Invoke::Virtual,
        class: names::INTEGER,
        name: b"intValue",
        descriptor: b"()I",
        native: Native::IntValue,
    },
    LibraryRow {
        kind: Invoke::Virtual,
        class: names::NUMBER,
        name: b"intValue",
        descriptor: b"()I",
        native: Native::IntValue,
    },
    LibraryRow {
        kind: Invoke::Virtual,
        class: names::LONG,
        name: b"longValue",
        descriptor: b"()J",
        native: Native::LongValue,
    },
    LibraryRow {
        kind: Invoke::Virtual,
        class: names::INTEGER,
        name: b"longValue",
        descriptor: b"()J",
        native: Native::LongValue,
    },
    LibraryRow {
        kind: Invoke::Virtual,
        class: names::NUMBER,
        name: b"longValue",
        descriptor: b"()J",
        native: Native::LongValue,
    },
    LibraryRow {
        kind: Invoke::Virtual,
        class: names::BOOLEAN,
        name: b"booleanValue",
        descriptor: b"()Z",
        native: Native::BooleanValue,
    },
    LibraryRow {
        kind: Invoke::Interface,
        class: names::MUTABLE_ENTRY,
        name: b"getKey",
        descriptor: b"()Ljava/lang/Object;",
        native: Native::GetKey,
    },
    LibraryRow {
        kind: Invoke::Interface,
        class: names::CACHE_ENTRY,
        name: b"getKey",
        descriptor: b"()Ljava/lang/Object;",
        native: Native::GetKey,
    },
    LibraryRow {
        kind: Invoke::Interface,
        class: names::MUTABLE_ENTRY,
        name: b"getValue",
        descriptor: b"()Ljava/lang/Object;",
        native: Native::GetValue,
    },
    LibraryRow {
        kind: Invoke::Interface,
        class: names::CACHE_ENTRY,
        name: b"getValue",
        descriptor: b"()Ljava/lang/Object;",
        native: Native::GetValue,
    },
    LibraryRow {
        kind: Invoke::Interface,
        class: names::MUTABLE_ENTRY,
        name: b"setValue",
        descriptor: b"(Ljava/lang/Object;)V",
        native: Native::SetValue,
    },
    LibraryRow {
        kind: Invoke::Interface,
        class: names::MUTABLE_ENTRY,
        name: b"exists",
        descriptor: b"()Z",
        native: Native::Exists,
    },
    LibraryRow {
        kind: Invoke::Interface,
        class: names::MUTABLE_ENTRY,
        name: b"remove",
        descriptor: b"()V",
        native: Native::Remove,
    },
];

/// Returns the first of these library methods that the call kind and the member name.
fn row_in<'a>(
    rows: &'a [LibraryRow],
    kind: Invoke,
    member: &MemberRef<'_>,
) -> Option<&'a LibraryRow>
    ensures { option_map (λ r. row_seen r.now) result ≡ row_of (map row_seen rows.now) kind (member_seen member.now) }
{
    for row in rows {
        if row.is_of(kind, member) {
            return Some(row);
        }
    }
    None
}

/// Returns the library method that the call kind and the member name.
#[tactic(auto, unfolding(crate::specs::Members::library_rows))]
fn row_of(kind: Invoke, member: &MemberRef<'_>) -> Option<&'static LibraryRow>
    ensures { option_map (λ r. row_seen r.now) result ≡ row_of library_rows kind (member_seen member.now) }
{
    row_in(&LIBRARY, kind, member)
}

/// Returns the library method that the call kind and the member name, as seen in the class `own`.
fn library_row(own: &[u8], kind: Invoke, member: &MemberRef<'_>) -> Option<&'static LibraryRow>
    ensures { option_map (λ r. row_seen r.now) result ≡ library_row own.now kind (member_seen member.now) }
{
    if same_bytes(names::BOOLEAN, own) && same_bytes(member.class, own) {
        None
    } else {
        row_of(kind, member)
    }
}

/// Returns the parameter types of a library method, with the receiver first unless the call is static.
/// Returns `None` if a receiver is required and its class is unknown.
fn library_params(
    alloc: Global,
    kind: Invoke,
    receiver: Option<RefType>,
    params: Items<JType>,
) -> Result<Option<Items<JType>>, AllocError>
    ensures { IfOk result (λ all. all ≡ library_params kind receiver params) }
{
    if kind == Invoke::Static {
        return Ok(Some(params));
    }
    let Some(receiver) = receiver else {
        return Ok(None);
    };
    let mut all = Vec::new(alloc);
    all.push(JType::Ref(receiver))?;
    all.extend_from_slice(params.as_slice())?;
    Ok(Some(Items::new(all)))
}

fn library_callee(alloc: Global, own: &[u8], row: &LibraryRow) -> Result<Option<Callee>, AllocError>
    ensures { IfOk result (λ c. c ≡ library_callee own.now (row_seen row.now)) }
{
    let Some(s) = signature_of(alloc, own, row.descriptor)? else {
        return Ok(None);
    };
    let Signature { params, result, .. } = s;
    let receiver = class_type(own, row.class);
    let Some(params) = library_params(alloc, row.kind, receiver, params)? else {
        return Ok(None);
    };
    Ok(Some(Callee {
        reached: Reached::Library(row.native),
        params,
        result,
    }))
}

/// Checks that a call of this kind may reach a method with these flags: `invokestatic` a static method,
/// `invokevirtual` an instance method that isn't private, `invokespecial` a private instance method.
fn pairs_with(kind: Invoke, flags: u16) -> bool
    ensures { result ≡ pairs_with kind flags }
{
    match kind {
        Invoke::Static => is_static(flags),
        Invoke::Virtual => !is_static(flags) && !is_private(flags),
        Invoke::Special => !is_static(flags) && is_private(flags),
        Invoke::Interface => false,
    }
}

/// Checks that a method has this name. `named` has the result for each method before it.
fn is_named(method: &SignedMethod<'_>, name: &[u8], named: &[bool]) -> bool
    requires { (j : ℕ) → method.now.namesake ≡ Some j → slice_get named.now j ≡ Some (same_bytes name.now method.now.method.name.now) }
    ensures { result ≡ same_bytes name.now method.now.method.name.now }
{
    if let Some(j) = method.namesake {
        if let Some(is) = named.get(j) {
            return *is;
        }
    }
    same_bytes(name, method.method.name)
}

/// Returns the index of the method with the member's name and descriptor. Compares each distinct name once.
fn numbered(
    alloc: Global,
    methods: &[SignedMethod<'_>],
    member: &MemberRef<'_>,
) -> Result<Option<usize>, AllocError>
    requires { AreNamesakes methods.now }
    ensures { IfOk result (λ found. method_at methods.now found ≡ numbered 0 (map method_of methods.now) (member_seen member.now)) }
{
    let mut named = Vec::new(alloc);
    for k in 0..methods.len() {
        let method = &methods[k];
        let is = is_named(method, member.name, &named);
        if is && same_bytes(member.descriptor, method.method.descriptor) {
            return Ok(Some(k));
        }
        named.push(is)?;
    }
    Ok(None)
}

fn own_callee(
    alloc: Global,
    view: &MemberView<'_>,
    kind: Invoke,
    member: &MemberRef<'_>,
) -> Result<Option<Callee>, AllocError>
    ensures { IfOk result (λ c. c ≡ own_callee view.now kind (member_seen member.now)) }
{
    if !same_bytes(member.class, view.class().name()) || same_bytes(member.name, names::INIT) {
        return Ok(None);
    }
    let methods = view.methods();
    let Some(k) = numbered(alloc, methods, member)? else {
        return Ok(None);
    };
    let Some(found) = methods.get(k) else {
        return Ok(None);
    };
    if !pairs_with(kind, found.method.flags) {
        return Ok(None);
    }
    let Some(s) = &found.signature else {
        return Ok(None);
    };
    Ok(Some(Callee {
        reached: Reached::Own(k),
        params: Items::from_slice(alloc, s.params.as_slice())?,
        result: s.result,
    }))
}

/// Returns the member that a call of this kind refers to at an index of the constant pool.
fn member_at(pool: &Pool, kind: Invoke, i: u16) -> Option<MemberRef<'_>>
    ensures { option_map member_seen result ≡ member_at pool.now kind i }
{
    match kind {
        Invoke::Interface => pool.interface_method(i),
        Invoke::Virtual | Invoke::Special | Invoke::Static => pool.method(i),
    }
}

/// Resolves the method that a call of this kind refers to at an index of the constant pool (JVMS §5.4.3.3, §6.5).
/// Returns `None` unless it is a library method of the profile or a method of the class.
#[tactic(auto, unfolding(crate::specs::Members::callee_at))]
pub fn callee_at(
    alloc: Global,
    view: &MemberView<'_>,
    kind: Invoke,
    i: u16,
) -> Result<Option<Callee>, AllocError>
    ensures { IfOk result (λ c. c ≡ callee_at view.now kind i) }
{
    let Some(member) = member_at(view.pool(), kind, i) else {
        return Ok(None);
    };
    match library_row(view.class().name(), kind, &member) {
        Some(row) => library_callee(alloc, view.class().name(), row),
        None => own_callee(alloc, view, kind, &member),
    }
}
