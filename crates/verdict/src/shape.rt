//! The shape of a class: its header, its constructor, its methods and their `Code` attributes.

ghost use Rattle.std.specs.Prelude.{◌≡◌, ◌⊎◌, not, ◌&&◌, ◌||◌, ◌<◌, [], ◌∷◌, length, map, nat_eq, Any, Some, option_and_then, IfOk, MatchResult};
ghost use Rattle.std.specs.List.{AllZip, list_any};
ghost use Rattle.jtypes.specs.declared.refusal.Refusal.{Refusal};
ghost use Rattle.jtypes.specs.Lists.{same_bytes, is_one_of, only};
ghost use Rattle.constpool.specs.declared.descriptor.Sig.{Sig};
ghost use Rattle.constpool.specs.Descriptor.{sig_of};
ghost use Rattle.constpool.specs.Lookup.{class_at, method_at};
ghost use Rattle.constpool.specs.Names.{entry_processor_name, cache_entry_name, int_array_name, long_array_name, object_array_name, math_name};
ghost use Rattle.classfile.specs.Code.{is_text, parts_of_code};
ghost use Rattle.classfile.specs.View.{method_view, text_at, view_of};
ghost use Rattle.frames.specs.Signatures.{has_flag, is_abstract, is_native};
ghost use Rattle.verdict.specs.Shape.{HasBadHeader, HasCode, HasConstructor, ShapeStands, has_other_kind, is_constructor, reserved_names, slots_taken};
ghost use Rattle.verdict.specs.Shaping.{Judges, has_header, is_named_process, HasSlots, DescriptorStands, ArePartsGood, PartsStand, HasGoodCode, MethodCodeStands, HasGoodMethod, MethodStands, is_object_init, calls_object_init, has_constructor_code, has_constructor_type, FindsOnly, IsTheConstructor, are_doubles, has_doubles, is_initialiser, is_good_process, AreNamesGood, NamesStand, HasGoodShape};

use classfile::{ClassFile, CodeParts, Member, MethodView, contents_named, parts_of_code};
use constpool::{names, param_slots, parse_method_descriptor, same_bytes};
use frames::{is_abstract, is_native, is_public, is_static, method_signature};
use jtypes::Refusal;
use std::alloc::{AllocError, Global};

pub fn is_constructor(class: &ClassFile, method: &Member) -> bool
    ensures { result ≡ is_constructor class.now.pool method.now }
{
    same_bytes(class.method_name(method), names::INIT)
}

/// Returns whether a method has the name and the erased descriptor of `EntryProcessor.process`.
pub fn is_process(class: &ClassFile, method: &Member) -> bool
    ensures { result ≡ is_named_process class.now.pool method.now }
{
    same_bytes(class.method_name(method), names::PROCESS)
        && same_bytes(class.method_descriptor(method), names::PROCESS_DESCRIPTOR)
}

/// Returns whether constant pool index `i` is a Class constant with this name.
fn names_class(class: &ClassFile, i: u16, name: &[u8]) -> bool
    ensures { result ≡ is_text name.now (class_at class.now.pool i) }
{
    match class.pool.class(i) {
        Some(found) => same_bytes(found, name),
        None => false,
    }
}

/// Returns whether the bit `flag` is set in `flags` (JVMS §4.1).
fn has_flag(flag: u16, flags: u16) -> bool
    requires { 0 < flag }
    ensures { result ≡ has_flag flag flags }
{
    flags / flag % 2 == 1
}

/// Returns whether ACC_INTERFACE, ACC_ABSTRACT, ACC_ANNOTATION or ACC_ENUM is set (JVMS §4.1).
fn has_other_kind(flags: u16) -> bool
    ensures { result ≡ has_other_kind flags }
{
    has_flag(0x0200, flags)
        || has_flag(0x0400, flags)
        || has_flag(0x2000, flags)
        || has_flag(0x4000, flags)
}

/// Returns whether this is the name of `Cache.Entry`, of an array type or of `Math`.
fn is_reserved_too(name: &[u8]) -> bool
    ensures { result ≡ is_one_of name.now (cache_entry_name ∷ int_array_name ∷ long_array_name ∷ object_array_name ∷ math_name ∷ []) }
{
    if same_bytes(name, names::CACHE_ENTRY) {
        true
    } else if same_bytes(name, names::INT_ARRAY) {
        true
    } else if same_bytes(name, names::LONG_ARRAY) {
        true
    } else if same_bytes(name, names::OBJECT_ARRAY) {
        true
    } else {
        same_bytes(name, names::MATH)
    }
}

/// Returns whether the class name is reserved.
fn is_reserved(name: &[u8]) -> bool
    ensures { result ≡ is_one_of name.now reserved_names }
{
    if same_bytes(name, names::OBJECT) {
        true
    } else if same_bytes(name, names::NUMBER) {
        true
    } else if same_bytes(name, names::LONG) {
        true
    } else if same_bytes(name, names::INTEGER) {
        true
    } else if same_bytes(name, names::MUTABLE_ENTRY) {
        true
    } else if same_bytes(name, names::ENTRY_PROCESSOR) {
        true
    } else {
        is_reserved_too(name)
    }
}

fn is_processor(class: &ClassFile) -> bool
    ensures { result ≡ list_any (λ i. is_text entry_processor_name (class_at class.now.pool i)) class.now.parts.interfaces }
{
    class
        .parts
        .interfaces
        .as_slice()
        .iter()
        .any(|i| names_class(class, *i, names::ENTRY_PROCESSOR))
}

fn has_header(class: &ClassFile) -> bool
    ensures { result ≡ has_header class.now.pool class.now.parts }
{
    !has_other_kind(class.parts.flags)
        && names_class(class, class.parts.super_class, names::OBJECT)
        && is_processor(class)
        && !is_reserved(class.view().name())
}

#[tactic(auto, using(crate::proofs::Header::good_header, crate::proofs::Header::bad_header))]
fn judge_header(class: &ClassFile) -> Result<(), Refusal>
    ensures { MatchResult result (λ _. HasBadHeader class.now.pool class.now.parts → ⊥) (λ r. (r ≡ Refusal.BadHeader) × HasBadHeader class.now.pool class.now.parts) }
{
    if has_header(class) {
        Ok(())
    } else {
        Err(Refusal::BadHeader)
    }
}

/// Returns the number of slots of a method's parameters, including the receiver.
/// Refuses with `BadDescriptor` if they are more than 255, or the descriptor isn't in the profile (JVMS §4.3.3).
fn judge_descriptor(alloc: Global, class: &ClassFile, method: &Member) -> Result<usize, Refusal>
    ensures { Judges (HasSlots (view_of class.now.pool class.now.parts) (method_view class.now.pool method.now)) (DescriptorStands (view_of class.now.pool class.now.parts) (method_view class.now.pool method.now)) result }
{
    let descriptor = class.method_descriptor(method);
    let sig = parse_method_descriptor(alloc, descriptor)?;
    let seen = MethodView {
        flags: method.flags,
        name: class.method_name(method),
        descriptor,
    };
    let Some(_) = method_signature(alloc, &class.view(), &seen)? else {
        return Err(Refusal::BadDescriptor);
    };
    let receiver = if is_static(method.flags) { 0 } else { 1 };
    let slots = param_slots(&sig);
    if slots > 255 - receiver {
        return Err(Refusal::BadDescriptor);
    }
    Ok(slots + receiver)
}

/// Returns whether a method is abstract, is native or has no `Code` attribute.
fn has_no_body(method: &Member, codes: &[&[u8]]) -> bool
    ensures { result ≡ (is_abstract method.now.flags || is_native method.now.flags || nat_eq (length codes.now) 0) }
{
    is_abstract(method.flags) || is_native(method.flags) || codes.is_empty()
}

/// Parses the only `Code` attribute of a method.
/// Returns `None` if there isn't exactly one, or its parts don't fill it exactly.
fn only_code(alloc: Global, codes: &[&[u8]]) -> Result<Option<CodeParts>, AllocError>
    ensures { IfOk result (λ found. found ≡ option_and_then parts_of_code (only (map (λ content. content.now) codes.now))) }
{
    match codes {
        [content] => parts_of_code(alloc, content),
        _ => Ok(None),
    }
}

/// Checks the parts of a `Code` attribute (JVMS §4.7.3): code of 1 to 65535 bytes, enough local variables, no exception handlers.
/// `slots` is the number of slots of the method's parameters, including the receiver.
fn judge_parts(parts: &CodeParts, slots: usize) -> Result<(), Refusal>
    ensures { Judges (λ _. ArePartsGood slots parts.now) (PartsStand slots parts.now) result }
{
    let length = parts.code.as_slice().len();
    if length == 0 || length > 65_535 || usize::from(parts.max_locals) < slots {
        return Err(Refusal::BadCode);
    }
    if parts.exceptions > 0 {
        return Err(Refusal::ExceptionTable);
    }
    Ok(())
}

/// Returns the parts of a method's only `Code` attribute, or its refusal (JVMS §4.7.3).
/// `slots` is the number of slots of the method's parameters, including the receiver.
fn judge_code(
    alloc: Global,
    class: &ClassFile,
    method: &Member,
    slots: usize,
) -> Result<CodeParts, Refusal>
    requires { (s : Sig) × (sig_of (text_at class.now.pool method.now.descriptor) ≡ Some s) × (slots ≡ slots_taken method.now.flags s) }
    ensures { Judges (HasGoodCode class.now.pool method.now) (MethodCodeStands class.now.pool method.now) result }
{
    let codes = contents_named(
        alloc,
        &class.pool,
        names::CODE,
        method.attributes.as_slice(),
    )?;
    if has_no_body(method, &codes) {
        return Err(Refusal::NoBody);
    }
    let Some(parts) = only_code(alloc, &codes)? else {
        return Err(Refusal::BadCode);
    };
    judge_parts(&parts, slots)?;
    Ok(parts)
}

pub fn judge_method(alloc: Global, class: &ClassFile, method: &Member) -> Result<CodeParts, Refusal>
    ensures { Judges (HasGoodMethod class.now.pool class.now.parts method.now) (MethodStands class.now.pool class.now.parts method.now) result }
{
    let slots = judge_descriptor(alloc, class, method)?;
    judge_code(alloc, class, method, slots)
}

/// Returns the `Code` parts of the methods, in their order, or the first refusal.
fn judge_methods(
    alloc: Global,
    class: &ClassFile,
    methods: &[Member],
) -> Result<Vec<CodeParts>, Refusal>
    ensures { Judges (λ codes. AllZip (HasGoodMethod class.now.pool class.now.parts) methods.now codes.items) (λ r. Any (λ m. MethodStands class.now.pool class.now.parts m r) methods.now) result }
{
    let mut codes = Vec::new(alloc);
    for method in methods {
        let parts = judge_method(alloc, class, method)?;
        codes.push(parts)?;
    }
    Ok(codes)
}

/// Returns whether constant pool index `i` is a method reference to `java/lang/Object.<init>()V`.
fn is_object_init(class: &ClassFile, i: u16) -> bool
    ensures { result ≡ is_object_init (method_at class.now.pool i) }
{
    match class.pool.method(i) {
        Some(member) => {
            same_bytes(member.class, names::OBJECT)
                && same_bytes(member.name, names::INIT)
                && same_bytes(member.descriptor, b"()V")
        }
        None => false,
    }
}

/// Returns whether the code is `aload_0`, `invokespecial java/lang/Object.<init>()V`, `return`.
fn calls_object_init(class: &ClassFile, code: &[u8]) -> bool
    ensures { result ≡ calls_object_init class.now.pool code.now }
{
    match code {
        [load, call, high, low, back] => {
            *load == 0x2A
                && *call == 0xB7
                && *back == 0xB1
                && is_object_init(class, u16::from(*high) * 256 + u16::from(*low))
        }
        _ => false,
    }
}

/// Returns whether a constructor's code only calls `Object.<init>` and returns, within its limits and without a `StackMapTable`.
fn has_constructor_code(
    alloc: Global,
    class: &ClassFile,
    parts: &CodeParts,
) -> Result<bool, AllocError>
    ensures { IfOk result (λ b. b ≡ has_constructor_code class.now.pool parts.now) }
{
    let tables = contents_named(
        alloc,
        &class.pool,
        names::STACK_MAP_TABLE,
        parts.attributes.as_slice(),
    )?;
    Ok(
        calls_object_init(class, parts.code.as_slice())
            && parts.max_stack >= 1
            && parts.max_locals >= 1
            && tables.is_empty(),
    )
}

/// Returns whether a constructor is an instance method with the descriptor `()V`.
fn has_constructor_type(class: &ClassFile, method: &Member) -> bool
    ensures { result ≡ has_constructor_type class.now.pool method.now }
{
    !is_static(method.flags) && same_bytes(class.method_descriptor(method), b"()V")
}

/// Returns the index of the only method with the name `<init>`, or `None` if there is none or more than one.
fn only_constructor(class: &ClassFile, methods: &[Member]) -> Option<usize>
    ensures { FindsOnly (is_constructor class.now.pool) methods.now result }
{
    let mut found = None;
    for number in 0..methods.len() {
        if is_constructor(class, &methods[number]) {
            if found.is_some() {
                return None;
            }
            found = Some(number);
        }
    }
    found
}

/// Returns the index of the constructor: the only `<init>`, an instance method `()V` that calls `Object.<init>` and returns.
/// Refuses with `ConstructorForm` if the class has no such constructor.
fn judge_constructors(
    alloc: Global,
    class: &ClassFile,
    codes: &[CodeParts],
) -> Result<usize, Refusal>
    requires { AllZip (HasCode class.now.pool) class.now.parts.methods codes.now }
    ensures { Judges (IsTheConstructor class.now.pool class.now.parts) (λ r. (r ≡ Refusal.ConstructorForm) × (HasConstructor class.now.pool class.now.parts → ⊥)) result }
{
    let methods = class.parts.methods.as_slice();
    let Some(number) = only_constructor(class, methods) else {
        return Err(Refusal::ConstructorForm);
    };
    let Some(method) = methods.get(number) else {
        return Err(Refusal::ConstructorForm);
    };
    let Some(parts) = codes.get(number) else {
        return Err(Refusal::ConstructorForm);
    };
    if !has_constructor_type(class, method) {
        return Err(Refusal::ConstructorForm);
    }
    if !has_constructor_code(alloc, class, parts)? {
        return Err(Refusal::ConstructorForm);
    }
    Ok(number)
}

/// Returns whether two methods have the same name and descriptor (JVMS §4.6).
/// Compares the shorter of the two first, because many methods can share a name or a descriptor as long as half of the class file.
pub fn are_doubles(class: &ClassFile, m: &Member, n: &Member) -> bool
    ensures { result ≡ are_doubles class.now.pool m.now n.now }
{
    let name = class.method_name(m);
    let descriptor = class.method_descriptor(m);
    if name.len() < descriptor.len() {
        same_bytes(name, class.method_name(n)) && same_bytes(descriptor, class.method_descriptor(n))
    } else {
        same_bytes(descriptor, class.method_descriptor(n)) && same_bytes(name, class.method_name(n))
    }
}

fn is_double(class: &ClassFile, m: &Member, others: &[Member]) -> bool
    ensures { result ≡ list_any (are_doubles class.now.pool m.now) others.now }
{
    others.iter().any(|n| are_doubles(class, m, n))
}

fn has_doubles(class: &ClassFile, methods: &[Member]) -> bool
    ensures { result ≡ has_doubles class.now.pool methods.now }
{
    let mut rest = methods;
    while let Some((m, others)) = rest.split_first() {
        if is_double(class, m, others) {
            return true;
        }
        rest = others;
    }
    false
}

fn is_initialiser(class: &ClassFile, method: &Member) -> bool
    ensures { result ≡ is_initialiser class.now.pool method.now }
{
    same_bytes(class.method_name(method), names::CLINIT)
}

fn has_initialiser(class: &ClassFile, methods: &[Member]) -> bool
    ensures { result ≡ list_any (is_initialiser class.now.pool) methods.now }
{
    methods.iter().any(|m| is_initialiser(class, m))
}

/// Returns whether this is `process`, public and not static.
fn is_good_process(class: &ClassFile, method: &Member) -> bool
    ensures { result ≡ is_good_process class.now.pool method.now }
{
    is_process(class, method) && is_public(method.flags) && !is_static(method.flags)
}

fn has_process(class: &ClassFile, methods: &[Member]) -> bool
    ensures { result ≡ list_any (is_good_process class.now.pool) methods.now }
{
    methods.iter().any(|m| is_good_process(class, m))
}

/// Checks the method names: no class initialiser, a public instance method `process`, no duplicate methods.
fn judge_names(class: &ClassFile, methods: &[Member]) -> Result<(), Refusal>
    ensures { Judges (λ _. AreNamesGood class.now.pool methods.now) (NamesStand class.now.pool methods.now) result }
{
    if has_initialiser(class, methods) {
        return Err(Refusal::ClassInitialiser);
    }
    if !has_process(class, methods) {
        return Err(Refusal::NoProcess);
    }
    if has_doubles(class, methods) {
        return Err(Refusal::DuplicateMethod);
    }
    Ok(())
}

/// The result of `judge_shape`: the `Code` parts of the methods in class file order, and the index of the constructor.
#[derive(Drop)]
pub struct Shape {
    pub codes: Vec<CodeParts>,
    pub constructor: usize,
}

/// Checks the header, the methods, the constructor and the method names, in this order.
/// Returns the first refusal.
pub fn judge_shape(alloc: Global, class: &ClassFile) -> Result<Shape, Refusal>
    ensures { Judges (λ shape. HasGoodShape class.now.pool class.now.parts shape.codes.items shape.constructor) (ShapeStands class.now.pool class.now.parts) result }
{
    judge_header(class)?;
    let methods = class.parts.methods.as_slice();
    let codes = judge_methods(alloc, class, methods)?;
    let constructor = judge_constructors(alloc, class, &codes)?;
    judge_names(class, methods)?;
    Ok(Shape { codes, constructor })
}
