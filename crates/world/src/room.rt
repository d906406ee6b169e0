//! The preallocated memory of a world.

ghost use Rattle.std.specs.Prelude.{◌≡◌, ◌≤◌, ◌*◌, None, [], List, length, vec_capacity, map, All, IfOk};
ghost use Rattle.stripe.specs.Kept.{Kept};
ghost use Rattle.stripe.specs.Tables.{IsCount, IsJournal, none_back};
ghost use Rattle.world.specs.Room.{IsRoom, AreReturning, stored_on};
ghost use Rattle.world.specs.Seated.{idle_seat};

use crate::seat::Seat;
use machine::Workspace;
use std::alloc::{AllocError, Global};
use stripe::{Record, Rest, Stripe, Tables};

/// The memory of a world without its stripes' histories: the workspaces, the seats, and the list of finished calls.
#[derive(Drop)]
pub struct WorldRoom<'a> {
    pub workspaces: Vec<Workspace>,
    pub seats: Vec<Seat<'a>>,
    pub finished: Vec<Record<'a>>,
}

/// Allocates one workspace for each stripe.
fn workspaces(alloc: Global, stripes: usize) -> Result<Vec<Workspace>, AllocError>
    ensures { IfOk result (λ w. length w.items ≡ stripes) }
{
    let mut made = Vec::with_capacity(alloc, stripes)?;
    for _ in 0..stripes {
        made.push_reserved(Workspace::new(alloc)?);
    }
    Ok(made)
}

/// Allocates the memory for this number of stripes, each with a history of at most `journal` records.
pub fn room_for<'a>(
    alloc: Global,
    stripes: usize,
    journal: usize,
) -> Result<WorldRoom<'a>, AllocError>
    requires count { IsCount stripes }
    requires journal { IsJournal journal }
    ensures { IfOk result (λ r. IsRoom stripes journal r) }
{
    Ok(WorldRoom {
        workspaces: workspaces(alloc, stripes)?,
        seats: Vec::with_capacity(alloc, stripes)?,
        finished: Vec::with_capacity(alloc, stripes * journal)?,
    })
}

/// Returns a seat for each stripe, with a workspace, in the preallocated vector.
pub fn seated<'a>(
    stripes: Vec<Stripe<'a>>,
    mut workspaces: Vec<Workspace>,
    mut seats: Vec<Seat<'a>>,
) -> Vec<Seat<'a>>
    requires idle { All (λ (s : Kept). s.running ≡ None) stripes.items }
    requires workspaces { length workspaces.items ≡ length stripes.items }
    requires room { (seats.items ≡ []) × (length stripes.items ≤ vec_capacity seats) }
    ensures { result.items ≡ map idle_seat stripes.entry.items }
{
    for stripe in stripes {
        let Some(workspace) = workspaces.pop() else {
            unreachable!()
        };
        seats.push_reserved(Seat::new(stripe, workspace));
    }
    seats
}

/// Returns the tables of the stripes. No call may be running.
pub fn give_back<'a>(seats: Vec<Seat<'a>>, mut rest: Rest<'a>) -> Tables
    requires none { rest ≡ none_back (length seats.items) }
    requires returning { AreReturning (length seats.items) seats.items }
    ensures { result ≡ map stored_on seats.entry.items }
{
    for seat in seats {
        rest.add(seat.into_stripe());
    }
    let (tables, _histories) = rest.finish();
    tables
}
