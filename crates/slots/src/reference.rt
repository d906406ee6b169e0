//! The kinds of references, and their representation as a kind and a word.

ghost use Rattle.std.specs.Prelude.{◌≡◌};
ghost use Rattle.jtypes.specs.declared.types.RefValue.{RefValue};
ghost use Rattle.jtypes.specs.declared.types.Value.TheVariants.{Ref};
ghost use Rattle.jtypes.specs.Values.{Arrays};
ghost use Rattle.arena.specs.Placing.{IsReference};
ghost use Rattle.slots.specs.Standing.{IsWordOf, IsArrayOrNull, array_or_null, kind_of};

use jtypes::{ArrayId, RefValue};

/// The kind of a reference. Its number is in the word of the same slot.
#[derive(Clone, Copy, PartialEq, Eq)]
pub enum Reference {
    Null,
    Long,
    Integer,
    Boolean,
    Array,
    Entry,
    This,
    Args,
}

/// Returns the kind and the word of a reference. The word is 0 for null, the entry, the class and the arguments.
pub fn parts_of(r: RefValue) -> (Reference, u64)
    ensures { (arrays : Arrays) (v : RefValue) → IsReference arrays v r → (result.0 ≡ kind_of v) × IsWordOf arrays (Ref v) result.1 }
{
    match r {
        RefValue::Null => (Reference::Null, 0),
        RefValue::Long(n) => (Reference::Long, n.cast_unsigned()),
        RefValue::Integer(n) => (Reference::Integer, u64::from(n.cast_unsigned())),
        RefValue::Boolean(false) => (Reference::Boolean, 0),
        RefValue::Boolean(true) => (Reference::Boolean, 1),
        RefValue::Array(begin) => (Reference::Array, u64::from(begin)),
        RefValue::Entry => (Reference::Entry, 0),
        RefValue::This => (Reference::This, 0),
        RefValue::Args => (Reference::Args, 0),
    }
}

/// Returns the reference of a kind and a word.
pub fn reference_of(kind: Reference, word: u64) -> RefValue
    requires { (arrays : Arrays) × (v : RefValue) × (kind ≡ kind_of v) × IsWordOf arrays (Ref v) word }
    ensures { (arrays : Arrays) (v : RefValue) → kind ≡ kind_of v → IsWordOf arrays (Ref v) word → IsReference arrays v result }
{
    match kind {
        Reference::Null => RefValue::Null,
        Reference::Long => RefValue::Long(word.cast_signed()),
        Reference::Integer => RefValue::Integer((word as u32).cast_signed()),
        Reference::Boolean => RefValue::Boolean(word != 0),
        Reference::Array => RefValue::Array(word as u32),
        Reference::Entry => RefValue::Entry,
        Reference::This => RefValue::This,
        Reference::Args => RefValue::Args,
    }
}

/// Returns the index of an array's first word from the kind and the word of a reference, or `None` for null.
pub fn array_of(kind: Reference, word: u64) -> Option<ArrayId>
    requires { (arrays : Arrays) × (v : RefValue) × IsArrayOrNull v × (kind ≡ kind_of v) × IsWordOf arrays (Ref v) word }
    ensures { (arrays : Arrays) (v : RefValue) → IsArrayOrNull v → kind ≡ kind_of v → IsWordOf arrays (Ref v) word → IsReference arrays v (array_or_null result) }
{
    match kind {
        Reference::Null => None,
        _ => Some(word as u32),
    }
}
