//! Finds the spot of a refusal of the shape.

ghost use Rattle.std.specs.Prelude.{◌≡◌, ◌⊎◌, ◌<◌, false, length, Any, IfOk, IfSome, IfNone};
ghost use Rattle.std.specs.List.{AllWithin};
ghost use Rattle.jtypes.specs.declared.refusal.Refusal.{Refusal};
ghost use Rattle.jtypes.specs.Lists.{same_bytes};
ghost use Rattle.constpool.specs.Names.{init_name};
ghost use Rattle.classfile.specs.View.{text_at};
ghost use Rattle.verdict.specs.Shape.{HasConstructor, IsInitialiser, ShapeStands};
ghost use Rattle.verdict.specs.Shaping.{MethodStands};
ghost use Rattle.verdict.specs.ShapeSpots.{AreGoodUpTo, IsBadAt, IsNamedAt, AreDoublesAt};
ghost use Rattle.verdict.specs.Spots.{IsLocated};

use crate::shape::{are_doubles, is_constructor, judge_method};
use crate::spot::{Located, Spot};
use classfile::{ClassFile, Member};
use constpool::{names, same_bytes};
use jtypes::Refusal;
use std::alloc::{AllocError, Global};

/// Returns the index and the refusal of the first method whose descriptor or code is refused.
fn first_bad(
    alloc: Global,
    class: &ClassFile,
    methods: &[Member],
) -> Result<Option<(usize, Refusal)>, AllocError>
    ensures some { IfOk result (λ found. IfSome found (λ f. IsBadAt class.now.pool class.now.parts methods.now f.0 f.1)) }
    ensures none { IfOk result (λ found. IfNone found (AreGoodUpTo class.now.pool class.now.parts methods.now (length methods.now))) }
{
    for number in 0..methods.len() {
        match judge_method(alloc, class, &methods[number]) {
            Ok(_) => {}
            Err(Refusal::NoMemory) => return Err(AllocError),
            Err(refusal) => return Ok(Some((number, refusal))),
        }
    }
    Ok(None)
}

/// Returns the index of the first method with this name.
fn first_named(class: &ClassFile, methods: &[Member], name: &[u8]) -> Option<usize>
    ensures some { IfSome result (IsNamedAt class.now.pool methods.now name.now) }
    ensures none { IfNone result (AllWithin (λ m. same_bytes (text_at class.now.pool m.name) name.now ≡ false) methods.now 0 (length methods.now)) }
{
    for number in 0..methods.len() {
        if same_bytes(class.method_name(&methods[number]), name) {
            return Some(number);
        }
    }
    None
}

/// Returns the index of the first constructor whose descriptor isn't `()V`.
fn first_with_parameters(class: &ClassFile, methods: &[Member]) -> Option<usize>
    ensures { IfSome result (IsNamedAt class.now.pool methods.now init_name) }
{
    for number in 0..methods.len() {
        if is_constructor(class, &methods[number])
            && !same_bytes(class.method_descriptor(&methods[number]), b"()V")
        {
            return Some(number);
        }
    }
    None
}

/// Returns the index of a later method with the name and the descriptor of method `i`.
fn double_from(class: &ClassFile, methods: &[Member], i: usize) -> Option<usize>
    requires { i < length methods.now }
    ensures { IfSome result (AreDoublesAt class.now.pool methods.now) }
{
    for j in i + 1..methods.len() {
        if are_doubles(class, &methods[i], &methods[j]) {
            return Some(j);
        }
    }
    None
}

fn first_double(class: &ClassFile, methods: &[Member]) -> Option<usize>
    ensures { IfSome result (AreDoublesAt class.now.pool methods.now) }
{
    for i in 0..methods.len() {
        if let Some(j) = double_from(class, methods, i) {
            return Some(j);
        }
    }
    None
}

/// Locates the first method whose descriptor or code is refused, with its refusal.
fn bad_method(alloc: Global, class: &ClassFile, refusal: Refusal) -> Result<Located, AllocError>
    requires { Any (λ m. MethodStands class.now.pool class.now.parts m refusal) class.now.parts.methods }
    ensures { IfOk result (IsLocated (ShapeStands class.now.pool class.now.parts) class.now.pool class.now.parts) }
{
    match first_bad(alloc, class, class.parts.methods.as_slice())? {
        Some((number, refusal)) => Ok(Located {
            refusal,
            spot: Spot::InMethod(number),
        }),
        None => Ok(refusal.into()),
    }
}

/// Locates `ConstructorForm` at the first constructor whose descriptor isn't `()V`, or else at the first constructor.
/// The spot is the whole class if there is no constructor.
fn wrong_constructor(class: &ClassFile) -> Located
    requires { HasConstructor class.now.pool class.now.parts → ⊥ }
    ensures { IsLocated (ShapeStands class.now.pool class.now.parts) class.now.pool class.now.parts result }
{
    let refusal = Refusal::ConstructorForm;
    let methods = class.parts.methods.as_slice();
    if let Some(number) = first_with_parameters(class, methods) {
        return Located {
            refusal,
            spot: Spot::InMethod(number),
        };
    }
    match first_named(class, methods, names::INIT) {
        Some(number) => Located {
            refusal,
            spot: Spot::InMethod(number),
        },
        None => refusal.into(),
    }
}

/// Locates `ClassInitialiser` at the first class initialiser.
fn initialiser(class: &ClassFile) -> Located
    requires { Any (IsInitialiser class.now.pool) class.now.parts.methods }
    ensures { IsLocated (ShapeStands class.now.pool class.now.parts) class.now.pool class.now.parts result }
{
    let refusal = Refusal::ClassInitialiser;
    match first_named(class, class.parts.methods.as_slice(), names::CLINIT) {
        Some(number) => Located {
            refusal,
            spot: Spot::InMethod(number),
        },
        None => refusal.into(),
    }
}

/// Locates `DuplicateMethod` at a method with the name and the descriptor of an earlier one.
fn double(class: &ClassFile) -> Located
    requires { ShapeStands class.now.pool class.now.parts Refusal.DuplicateMethod }
    ensures { IsLocated (ShapeStands class.now.pool class.now.parts) class.now.pool class.now.parts result }
{
    let refusal = Refusal::DuplicateMethod;
    match first_double(class, class.parts.methods.as_slice()) {
        Some(number) => Located {
            refusal,
            spot: Spot::InMethod(number),
        },
        None => refusal.into(),
    }
}

/// Returns a refusal of the shape with its spot.
/// For a descriptor or a code, the result is the first refused method and its refusal.
pub fn shape_located(
    alloc: Global,
    class: &ClassFile,
    refusal: Refusal,
) -> Result<Located, AllocError>
    requires { (refusal ≡ Refusal.NoMemory) ⊎ ShapeStands class.now.pool class.now.parts refusal }
    ensures { IfOk result (IsLocated (ShapeStands class.now.pool class.now.parts) class.now.pool class.now.parts) }
{
    match refusal {
        Refusal::BadDescriptor => bad_method(alloc, class, refusal),
        Refusal::NoBody => bad_method(alloc, class, refusal),
        Refusal::BadCode => bad_method(alloc, class, refusal),
        Refusal::ExceptionTable => bad_method(alloc, class, refusal),
        Refusal::ConstructorForm => Ok(wrong_constructor(class)),
        Refusal::ClassInitialiser => Ok(initialiser(class)),
        Refusal::DuplicateMethod => Ok(double(class)),
        _ => Ok(refusal.into()),
    }
}
