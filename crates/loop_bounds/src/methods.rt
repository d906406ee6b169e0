//! The typed methods of a class, by index.

ghost use Rattle.std.specs.Prelude.{◌≡◌, ℕ, ◌<◌, MatchOption, Some, get_or, length, slice_get, IsTrue};
ghost use Rattle.typecheck.specs.declared.typed.Typed.{Typed};
ghost use Rattle.loop_bounds.specs.Methods.{HasNumber};

use typecheck::Typed;

/// Returns whether the typed method at `i` exists and has an index in its class.
fn is_at(methods: &[Typed], i: usize, number: usize) -> bool
    ensures at { IsTrue result → i < length methods.now }
    ensures number { IsTrue result → (d : Typed) → (get_or methods.now i d).number ≡ number }
{
    match methods.get(i) {
        Some(method) => method.number == number,
        None => false,
    }
}

/// Returns where the typed method with an index is, by a search from the first one.
fn find(methods: &[Typed], number: usize) -> Option<usize>
    ensures within { MatchOption result (HasNumber methods.now number → ⊥) (λ i. i < length methods.now) }
    ensures number { MatchOption result (Unit {0}) (λ i. (d : Typed) → (get_or methods.now i d).number ≡ number) }
{
    for i in 0..methods.len() {
        if methods[i].number == number {
            return Some(i);
        }
    }
    None
}

/// Returns where the typed method with an index in its class is. The methods are mostly all those of the class in order, or all but one.
pub fn row_of(methods: &[Typed], number: usize) -> Option<usize>
    ensures within { MatchOption result (HasNumber methods.now number → ⊥) (λ i. i < length methods.now) }
    ensures number { MatchOption result (Unit {0}) (λ i. (d : Typed) → (get_or methods.now i d).number ≡ number) }
{
    if is_at(methods, number, number) {
        return Some(number);
    }
    let before = number.saturating_sub(1);
    if is_at(methods, before, number) {
        return Some(before);
    }
    find(methods, number)
}
