//! The nodes of a class, listed in order and with their costs.

ghost use Rattle.std.specs.Prelude.{◌≡◌, ℕ, ◌<◌, length, Some, slice_get, IfOk};
ghost use Rattle.typecheck.specs.Typing.{Class, Method};
ghost use Rattle.typecheck.specs.declared.typed.Typed.{Typed};
ghost use Rattle.unrolled.specs.Limits.{start_point};
ghost use Rattle.search.specs.Followed.{AreFollowings, have_loops};
ghost use Rattle.search.specs.Points.{point_seen};
ghost use Rattle.search.specs.Orders.{items_of, AreLinks};
ghost use Rattle.loop_bounds.specs.Methods.{AreMethodsOf, HasNumber, HavePlaces};
ghost use Rattle.loop_bounds.specs.Found.{points_seen, EachHasMethod};
ghost use Rattle.loop_bounds.specs.Listings.{IsAnswer, IsConclusion};

use crate::costs::costs_of;
use crate::explore::{Explored, explore};
use crate::nexts::start_at;
use bounds::Cost;
use search::{Following, Known, Point, followings, has_loops, ordered};
use std::alloc::{AllocError, Global};
use typecheck::Typed;

/// The reached nodes of a class, none of which lead in a circle.
#[derive(Drop)]
pub struct Listing {
    /// Each with its index as its number, the start of `process` first.
    pub points: Vec<Point>,
    /// The numbers, each after those of all points that its point leads to.
    pub order: Vec<usize>,
    /// The maximum costs of the paths from each point, by number.
    pub costs: Vec<Cost>,
}

/// The answer of the search.
#[derive(Drop)]
pub enum Answer {
    /// All reached nodes.
    Listed(Listing),
    /// Reached nodes lead in a circle.
    Circle,
    /// More nodes are reached, or more of their local variables and operands, than the limits.
    TooLarge,
    /// A reached node has no instruction, or one that is no return and has no successor. A well-typed class has none.
    DeadEnd,
}

/// Orders what is reached, and computes the costs.
fn conclude(
    alloc: Global,
    methods: &[Typed],
    points: Vec<Point>,
    links: Vec<Vec<usize>>,
) -> Result<Answer, AllocError>
    requires links { AreLinks (length (items_of links.items)) (items_of links.items) }
    requires size { length links.items ≡ length points.items }
    requires some { 0 < length points.items }
    requires methods { EachHasMethod methods.now (points_seen points.items) }
    ensures { IfOk result (λ a. IsConclusion methods.now (points_seen points.items) (items_of links.items) a) }
{
    match ordered(alloc, &links)? {
        None => Ok(Answer::Circle),
        Some(order) => {
            let costs = costs_of(alloc, methods, &points, &links, &order)?;
            Ok(Answer::Listed(Listing {
                points,
                order,
                costs,
            }))
        }
    }
}

/// Searches the nodes that are reached from a point, given what is followed in each method.
fn search_from(
    alloc: Global,
    methods: &[Typed],
    fs: &[Following],
    limited: bool,
    start: Point,
) -> Result<Answer, AllocError>
    requires size { length fs.now ≡ length methods.now }
    requires places { HavePlaces methods.now }
    requires start { HasNumber methods.now start.method }
    ensures { (c : Class) (j : ℕ) (m : Method) → AreMethodsOf c methods.now → AreFollowings methods.now fs.now → limited ≡ have_loops methods.now → point_seen start ≡ start_point c j m → IfOk result (λ a. IsAnswer c j m a) }
{
    match explore(alloc, methods, fs, limited, start)? {
        Explored::DeadEnd => Ok(Answer::DeadEnd),
        Explored::TooLarge => Ok(Answer::TooLarge),
        Explored::Whole(points, links) => conclude(alloc, methods, points, links),
    }
}

/// Searches the nodes that are reached from the start of a method of the class, `process`, which is at `start` among the typed methods,
/// and is entered with the array of the arguments last. There are limits only if some branch leads back.
/// The only error is that of memory.
pub fn list_nodes(alloc: Global, methods: &[Typed], start: usize) -> Result<Answer, AllocError>
    requires start { start < length methods.now }
    requires places { HavePlaces methods.now }
    ensures { (c : Class) (row : Typed) (m : Method) → AreMethodsOf c methods.now → slice_get methods.now start ≡ Some row → slice_get c.methods row.number ≡ Some m → IfOk result (λ a. IsAnswer c row.number m a) }
{
    let fs = followings(alloc, methods)?;
    let arguments = [Known::Narrow, Known::Narrow, Known::Arguments];
    let first = start_at(alloc, methods, &fs, start, &arguments)?;
    search_from(alloc, methods, &fs, has_loops(methods), first)
}
