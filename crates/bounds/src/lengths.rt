//! The lengths of new arrays.

ghost use Rattle.std.specs.Prelude.{IfSome, IfNone, IsTrue, IsFalse};
ghost use Rattle.typecheck.specs.DeclaredPlaces.{ArePlacesRising};
ghost use Rattle.bounds.specs.Lengths.{HasLengths, HaveLengths, OneLacksLength};
ghost use Rattle.bounds.specs.Told.{LacksLengthAt, OneLacksLengthAt};

use crate::costs::has_length;
use typecheck::Typed;

/// Returns the pc of a method's first `newarray` that has no constant length or has a declared frame.
fn lacking_in(method: &Typed) -> Option<usize>
    ensures some { IfSome result (λ place. ArePlacesRising method.now.declared.items → LacksLengthAt method.now place) }
    ensures none { IfNone result (ArePlacesRising method.now.declared.items → HasLengths method.now) }
{
    for p in method.code.as_slice() {
        if !has_length(method, p) {
            return Some(p.place);
        }
    }
    None
}

/// Returns the index of the method and the pc of the first `newarray` that has no constant length or has a declared frame.
pub fn lacking_length(methods: &[Typed]) -> Option<(usize, usize)>
    ensures some { IfSome result (λ s. OneLacksLengthAt methods.now s.0 s.1) }
    ensures none { IfNone result (HaveLengths methods.now) }
{
    for method in methods {
        if let Some(place) = lacking_in(method) {
            return Some((method.number, place));
        }
    }
    None
}

/// Checks that each `newarray` of the methods has a constant length and no declared frame.
pub fn all_have_lengths(methods: &[Typed]) -> bool
    ensures have { IsTrue result → HaveLengths methods.now }
    ensures lack { IsFalse result → OneLacksLength methods.now }
{
    match lacking_length(methods) {
        Some(_) => false,
        None => true,
    }
}
