//! Depth-first search over numbers that lead to numbers.

ghost use Rattle.std.specs.Prelude.{◌≡◌, ℕ, ◌<◌, Some, [], ◌∷◌, length, reverse, slice_get, slice_set, IfOk, MatchOption, IsTrue, IsFalse};
ghost use Rattle.search.specs.Orders.{items_of, links_at, AreBelow, AreDistinct, AreLinks, IsAmong, IsCircleIn, IsOrder};
ghost use Rattle.search.specs.Passes.{IsPass, work};

use std::alloc::{AllocError, Global};

/// A number on the way, and how many of its links are left to follow.
#[derive(Clone, Copy)]
struct Frame {
    number: usize,
    left: usize,
}

/// What the search knows of a number.
#[derive(Clone, Copy)]
enum State {
    /// It wasn't reached yet.
    New,
    /// It is on the way to the current number.
    Open,
    /// All that it leads to is done.
    Done,
}

/// Returns the number of links of a number.
fn count_of(links: &[Vec<usize>], number: usize) -> usize
    requires { number < length links.now }
    ensures { result ≡ length (links_at (items_of links.now) number) }
{
    links[number].len()
}

/// Returns a link of a number by its index.
fn link_of(links: &[Vec<usize>], number: usize, i: usize) -> usize
    requires number { number < length links.now }
    requires i { i < length (links_at (items_of links.now) number) }
    ensures { slice_get (links_at (items_of links.now) number) i ≡ Some result }
{
    links[number][i]
}

/// Returns the state of a number.
fn state_of(states: &[State], number: usize) -> State
    requires { number < length states.now }
    ensures { slice_get states.now number ≡ Some result }
{
    states[number]
}

/// Pops the top frame.
fn pop(path: &mut Vec<Frame>) -> Option<Frame>
    ensures { MatchOption result (reverse path.old.items ≡ []) (λ t. reverse path.old.items ≡ t ∷ reverse path.new.items) }
{
    path.pop()
}

/// Pushes a frame.
fn push(path: &mut Vec<Frame>, number: usize, left: usize) -> Result<(), AllocError>
    ensures { IfOk result (λ _. reverse path.new.items ≡ record { number = number; left = left } ∷ reverse path.old.items) }
{
    path.push(Frame { number, left })?;
    Ok(())
}

/// Appends a number that is done.
fn append(order: &mut Vec<usize>, number: usize) -> Result<(), AllocError>
    ensures { IfOk result (λ _. reverse order.new.items ≡ number ∷ reverse order.old.items) }
{
    order.push(number)?;
    Ok(())
}

/// Ends the top frame, all of whose links are followed.
fn end(
    links: &[Vec<usize>],
    states: &mut [State],
    path: &[Frame],
    order: &mut Vec<usize>,
    top: Frame,
) -> Result<(), AllocError>
    requires pass { IsPass (items_of links.now) states.old (top ∷ reverse path.now) (reverse order.old.items) }
    requires left { top.left ≡ 0 }
    ensures pass { IfOk result (λ _. IsPass (items_of links.now) states.new (reverse path.now) (reverse order.new.items)) }
    ensures work { IfOk result (λ _. work (items_of links.now) states.new (reverse path.now) < work (items_of links.now) states.old (top ∷ reverse path.now)) }
{
    append(order, top.number)?;
    states[top.number] = State::Done;
    Ok(())
}

/// Follows the next link of the top frame. Returns whether it leads in no circle.
fn follow(
    links: &[Vec<usize>],
    states: &mut [State],
    path: &mut Vec<Frame>,
    order: &[usize],
    top: Frame,
) -> Result<bool, AllocError>
    requires links { AreLinks (length links.now) (items_of links.now) }
    requires pass { IsPass (items_of links.now) states.old (top ∷ reverse path.old.items) (reverse order.now) }
    requires left { 0 < top.left }
    ensures pass { IfOk result (λ b. IsTrue b → IsPass (items_of links.now) states.new (reverse path.new.items) (reverse order.now)) }
    ensures work { IfOk result (λ b. IsTrue b → work (items_of links.now) states.new (reverse path.new.items) < work (items_of links.now) states.old (top ∷ reverse path.old.items)) }
    ensures circle { IfOk result (λ b. IsFalse b → IsCircleIn (items_of links.now) 0) }
{
    let left = top.left - 1;
    let q = link_of(links, top.number, left);
    push(path, top.number, left)?;
    match state_of(states, q) {
        State::New => {
            push(path, q, count_of(links, q))?;
            states[q] = State::Open;
            Ok(true)
        }
        State::Open => Ok(false),
        State::Done => Ok(true),
    }
}

/// Returns the numbers that 0 leads to, each once and after all those that it leads to; `None` if some lead in a circle.
pub fn ordered(alloc: Global, links: &[Vec<usize>]) -> Result<Option<Vec<usize>>, AllocError>
    requires some { 0 < length links.now }
    requires links { AreLinks (length links.now) (items_of links.now) }
    ensures circle { IfOk result (λ o. MatchOption o (IsCircleIn (items_of links.now) 0) (λ order. IsOrder (items_of links.now) (reverse order.items))) }
    ensures below { IfOk result (λ o. MatchOption o (Unit {0}) (λ order. AreBelow (length (items_of links.now)) (reverse order.items))) }
    ensures start { IfOk result (λ o. MatchOption o (Unit {0}) (λ order. IsAmong (reverse order.items) 0)) }
    ensures distinct { IfOk result (λ o. MatchOption o (Unit {0}) (λ order. AreDistinct (reverse order.items))) }
{
    let mut states = vec![in alloc; State::New; links.len()]?;
    let mut path = Vec::new(alloc);
    let mut order = Vec::new(alloc);
    push(&mut path, 0, count_of(links, 0))?;
    states[0] = State::Open;
    while let Some(top) = pop(&mut path) {
        if top.left == 0 {
            end(links, &mut states, &path, &mut order, top)?;
        } else if !follow(links, &mut states, &mut path, &order, top)? {
            return Ok(None);
        }
    }
    Ok(Some(order))
}
