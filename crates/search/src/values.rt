//! The rules of single values: what an instruction leaves known of one.

ghost use Rattle.std.specs.Prelude.{◌≡◌, List, ◌∷◌};
ghost use Rattle.unrolled.specs.Known as spec;
ghost use Rattle.unrolled.specs.Graph as graph;
ghost use Rattle.search.specs.Seen.{known_seen};

use crate::known::{Known, Length};
use jtypes::{JType, Kind, Pushed};

/// Returns whether the value is a long.
pub fn is_wide(k: Known) -> bool
    ensures { result ≡ spec.is_wide (known_seen k) }
{
    k == Known::Wide
}

/// Returns only whether the value is a long.
pub fn forgotten(k: Known) -> Known
    ensures { known_seen result ≡ spec.forgotten (known_seen k) }
{
    match k {
        Known::Wide => Known::Wide,
        _ => Known::Narrow,
    }
}

/// Returns what the type of a value says.
pub fn unknown_of(t: JType) -> Known
    ensures { known_seen result ≡ spec.unknown_of t }
{
    match t {
        JType::Long => Known::Wide,
        JType::Top | JType::Int | JType::Null | JType::Ref(_) => Known::Narrow,
    }
}

/// Returns what a local variable keeps of a value that is stored in it; `ints` tells whether its ints are followed.
pub fn kept(ints: bool, k: Known) -> Known
    ensures { known_seen result ≡ graph.kept ints (known_seen k) }
{
    match k {
        Known::Wide => Known::Narrow,
        Known::Number(_) | Known::Count if !ints => Known::Narrow,
        _ => k,
    }
}

/// Returns what is known of the operand that a load of this kind pushes from a local variable.
pub fn loaded(kind: Kind, k: Known) -> Known
    ensures { known_seen result ≡ graph.loaded kind (known_seen k) }
{
    match (kind, k) {
        (Kind::Long, _) => Known::Wide,
        (_, Known::Wide) => Known::Narrow,
        _ => k,
    }
}

/// Returns what is known of an int after `iinc` by a constant; the sum wraps.
pub fn incremented(by: i16, k: Known) -> Known
    ensures { known_seen result ≡ graph.incremented by (known_seen k) }
{
    match k {
        Known::Number(n) => Known::Number(n.wrapping_add(i32::from(by))),
        _ => Known::Narrow,
    }
}

/// Returns what is known of a constant.
pub fn known_pushed(pushed: Pushed) -> Known
    ensures { known_seen result ≡ graph.known_pushed pushed }
{
    match pushed {
        Pushed::Int(n) => Known::Number(n),
        Pushed::Long(_) => Known::Wide,
        Pushed::Null | Pushed::Boolean(_) => Known::Narrow,
    }
}

/// Returns what is known of a new array, by what is known of its length.
pub fn new_array(length: Known) -> Known
    ensures { (rest : List spec.Known) → known_seen result ∷ rest ≡ graph.with_array (known_seen length ∷ rest) }
{
    let Known::Number(n) = length else {
        return Known::Narrow;
    };
    match Length::new(n) {
        Some(elements) => Known::Sized(elements),
        None => Known::Narrow,
    }
}

/// Returns what is known of an array's length.
pub fn length_known(array: Known) -> Known
    ensures { known_seen result ≡ graph.length_known (known_seen array) }
{
    match array {
        Known::Sized(length) => Known::Number(length.elements()),
        Known::Arguments => Known::Count,
        _ => Known::Narrow,
    }
}
