//! The classes of a stream, by number.

ghost use Rattle.std.specs.Prelude.{◌≡◌, ◌<◌, ◌≤◌, ℕ, [], ◌∷◌, length, Some, None, option_map, true, false, IfSome, IfNone};
ghost use Rattle.boxcar.specs.Table.{Shelves};
ghost use Rattle.typecheck.specs.Typing.{Class};
ghost use Rattle.registry.specs.Ids.{class_of};
ghost use Rattle.wire.specs.Requests.{Define, Forget};
ghost use Rattle.serve.specs.Classes.{class_at as class_numbered, held};
ghost use Rattle.serve.specs.Rounds.{Adds, part};
ghost use Rattle.serve.specs.Kept.{AreOf, IsNoneOrOf, classes_of, work_of};

use crate::batch::Work;
use jtypes::Refusal;
use registry::{ClassId, Registry};
use std::alloc::Global;
use std::sync::Wait;
use verify::Verified;
use wire::Denial;

/// The maximum number of classes of a stream, without those that it forgot.
const MOST_CLASSES: usize = 4096;

/// The maximum number of class numbers of a stream. A number is not given twice, also if its class is forgotten.
const MOST_NUMBERS: usize = 65_536;

/// Returns 1 if there is an id, and 0 if the class is forgotten.
fn one_held(id: &Option<ClassId>) -> usize
    ensures count { result ≡ held (option_map class_of id.now ∷ []) }
    ensures most { result ≤ 1 }
{
    match id {
        Some(_) => 1,
        None => 0,
    }
}

/// Returns the number of classes that are not forgotten.
fn count_held(ids: &[Option<ClassId>]) -> usize
    ensures { result ≡ held (classes_of ids.now) }
{
    let mut count = 0;
    for id in ids {
        count += one_held(id);
    }
    count
}

/// Verifies a class file and defines its class. The result has the class's number and bounds, or the refusal or denial.
pub fn define<T: Wait>(
    rt: &T,
    alloc: Global,
    registry: &Registry,
    ids: &mut Vec<Option<ClassId>>,
    bytes: &[u8],
) -> Work<'static>
    requires { AreOf registry.now ids.old.items }
    ensures adds { (at : ℕ) → Adds (classes_of ids.old.items) at (Define bytes.now) (part (work_of result) []) (classes_of ids.new.items) }
    ensures known { AreOf registry.now ids.new.items }
{
    let count = ids.len();
    if count >= MOST_NUMBERS {
        return Work::Denied(Denial::TooManyClasses);
    }
    let held = count_held(ids.as_slice());
    if held >= MOST_CLASSES {
        return Work::Denied(Denial::TooManyClasses);
    }
    if ids.reserve(1).is_err() {
        return Work::Refused(Refusal::NoMemory);
    }
    match registry.define(rt, alloc, bytes) {
        Ok(id) => {
            let bounds = registry.class(&id).bounds();
            ids.push_reserved(Some(id));
            Work::Defined {
                class: count as u32,
                steps: bounds.steps,
                words: bounds.words,
            }
        }
        Err(refusal) => Work::Refused(refusal),
    }
}

/// Returns whether there is a class with this number.
fn has_class(ids: &[Option<ClassId>], class: usize) -> bool
    ensures yes { result ≡ true → (class < length ids.now) × ((c : Class) × (class_numbered (classes_of ids.now) class ≡ Some c)) }
    ensures no { result ≡ false → class_numbered (classes_of ids.now) class ≡ None }
{
    if class < ids.len() {
        ids[class].is_some()
    } else {
        false
    }
}

/// Forgets the class with this number, or denies it if there is none.
pub fn forget(ids: &mut Vec<Option<ClassId>>, class: usize) -> Work<'static>
    ensures adds { (at : ℕ) → Adds (classes_of ids.old.items) at (Forget class) (part (work_of result) []) (classes_of ids.new.items) }
    ensures known { (registry : Shelves) → AreOf registry ids.old.items → AreOf registry ids.new.items }
{
    if !has_class(ids.as_slice(), class) {
        return Work::Denied(Denial::UnknownClass);
    }
    ids[class] = None;
    Work::Forgotten
}

/// Returns the class with this id, or none without an id.
fn class_with<'r>(registry: &'r Registry, id: &Option<ClassId>) -> Option<&'r Verified>
    requires { IsNoneOrOf registry.now id.now }
    ensures some { IfSome result (λ c. option_map class_of id.now ≡ Some c.now) }
    ensures none { IfNone result (option_map class_of id.now ≡ None) }
{
    match id {
        Some(id) => Some(registry.class(id)),
        None => None,
    }
}

/// Returns the class with this number, or none if it was not defined or is forgotten.
pub fn class_at<'r>(
    registry: &'r Registry,
    ids: &[Option<ClassId>],
    class: usize,
) -> Option<&'r Verified>
    requires { AreOf registry.now ids.now }
    ensures some { IfSome result (λ c. class_numbered (classes_of ids.now) class ≡ Some c.now) }
    ensures none { IfNone result (class_numbered (classes_of ids.now) class ≡ None) }
{
    if class < ids.len() {
        class_with(registry, &ids[class])
    } else {
        None
    }
}
