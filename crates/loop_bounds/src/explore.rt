//! The points that are reached, each with the numbers of the points after it.

ghost use Rattle.std.specs.Prelude.{◌≡◌, ◌<◌, ◌≤◌, ◌++◌, ◌∷◌, [], List, length, IfOk, MatchOption};
ghost use Rattle.typecheck.specs.declared.typed.Typed.{Typed};
ghost use Rattle.unrolled.specs.Certificates as marks;
ghost use Rattle.search.specs.declared.node.Following.{Following};
ghost use Rattle.search.specs.Points.{point_seen};
ghost use Rattle.search.specs.Orders.{Links, items_of};
ghost use Rattle.loop_bounds.specs.Methods.{HasNumber, HavePlaces};
ghost use Rattle.loop_bounds.specs.Found.{IsFound};
ghost use Rattle.loop_bounds.specs.Graphs.{IsExplored, IsExploring, ReachesDeadEndIn};

use crate::found::{Found, begin, exceeds, note_all};
use crate::nexts::nexts;
use search::{Following, Point};
use std::alloc::{AllocError, Global};
use typecheck::Typed;

/// What a search finds.
#[derive(Drop)]
pub enum Explored {
    /// All points that are reached, the start first, and for each the numbers of the points after it.
    Whole(Vec<Point>, Vec<Vec<usize>>),
    /// A reached point has no instruction, or one that is no return and has no successor.
    DeadEnd,
    /// More points or values are reached than the limits.
    TooLarge,
}

/// Returns the numbers of the points after point `i`, the first one without links. Those that are new are added.
/// The result is `None` at a dead end.
fn expand(
    alloc: Global,
    methods: &[Typed],
    fs: &[Following],
    found: &mut Found,
    i: usize,
) -> Result<Option<Vec<usize>>, AllocError>
    requires size { length fs.now ≡ length methods.now }
    requires places { HavePlaces methods.now }
    requires found { IsFound found.old }
    requires more { i < length found.old.points.items }
    ensures dead { IfOk result (λ o. MatchOption o ((start : marks.Point) (g : Links) → length g ≡ i → IsExploring methods.now fs.now start found.old g → ReachesDeadEndIn methods.now fs.now start) (λ row. Unit {0})) }
    ensures grown { IfOk result (λ o. MatchOption o (Unit {0}) (λ row. (start : marks.Point) (g : Links) → length g ≡ i → IsExploring methods.now fs.now start found.old g → IsExploring methods.now fs.now start found.new (g ++ row.items ∷ []))) }
{
    match nexts(alloc, methods, fs, &found.points[i])? {
        None => Ok(None),
        Some(ys) => {
            let row = note_all(alloc, found, ys)?;
            Ok(Some(row))
        }
    }
}

/// Returns what was found when no point is left without links.
fn finish(found: Found, links: Vec<Vec<usize>>, limited: bool) -> Explored
    ensures { (rows : List Typed) (fs : List Following) (start : marks.Point) → IsExploring rows fs start found (items_of links.items) → length found.points.items ≤ length links.items → IsExplored rows fs limited start result }
{
    if exceeds(&found, limited) {
        return Explored::TooLarge;
    }
    Explored::Whole(found.points, links)
}

/// Returns what is reached from a point, given what is followed in each method. There are limits only if `limited`.
pub fn explore(
    alloc: Global,
    methods: &[Typed],
    fs: &[Following],
    limited: bool,
    start: Point,
) -> Result<Explored, AllocError>
    requires size { length fs.now ≡ length methods.now }
    requires places { HavePlaces methods.now }
    requires start { HasNumber methods.now start.method }
    ensures { IfOk result (λ e. IsExplored methods.now fs.now limited (point_seen start) e) }
{
    let mut found = begin(alloc, start)?;
    let mut links = Vec::new(alloc);
    while links.len() < found.points.len() {
        if exceeds(&found, limited) {
            return Ok(Explored::TooLarge);
        }
        let i = links.len();
        let Some(row) = expand(alloc, methods, fs, &mut found, i)? else {
            return Ok(Explored::DeadEnd);
        };
        links.push(row)?;
    }
    Ok(finish(found, links, limited))
}
