//! Seats, with which callers make calls.

use crate::known::Known;
use crate::receipt::Receipt;
use atomic_table::Seat as Pass;
use std::alloc::AllocError;
use std::marker::Model;
use stripe::Stripe;

/// A caller's handle to a cache. It keeps a receipt of each answered call, and a flag for each stripe whose history it found full.
#[derive(Drop)]
pub struct Seat<'a> {
    pub(crate) pass: Pass<Stripe<'a>, Known>,
    pub(crate) caller: u8,
    /// The number of seats of the cache in the first seat, and 0 in every other seat.
    pub(crate) made: u8,
    pub(crate) receipts: Vec<Receipt<'a>>,
    pub(crate) full: [bool; 64],
    /// The number of further calls whose receipts are preallocated.
    pub(crate) room: usize,
    /// The index of the stripe that the seat has locked, if any.
    pub(crate) held: Option<usize>,
}

impl<'a> Model for Seat<'a> {
    ghost use Rattle.cache.specs.Opened.{Sitting};

    ghost Value = { Sitting };

    ghost use Rattle.std.specs.Coded.{codes};
    ghost use Rattle.stripe.specs.Stored.{stored_code};
    ghost use Rattle.atomic_table.specs.Seated.{table_id_coded};

    ghost coded = { Prim.hlevel (codes, stored_code, table_id_coded) };

    ghost use Rattle.cache.specs.Inside.{IsSeated, sitting};

    ghost view = { sitting };

    ghost invariant = { IsSeated };
}

impl<'a> Seat<'a> {
    ghost use Rattle.std.specs.Prelude.{◌≡◌, ◌≤◌, OnOk, OnErr};
    ghost use Rattle.cache.specs.Opened.{with_room};

    /// Preallocates the receipts of the next `calls` calls. The error is out of memory, and leaves the seat unchanged.
    pub fn expect(&mut self, calls: usize) -> Result<(), AllocError>
        ensures same { self.new ≡ with_room self.old self.new.room }
        ensures room { OnOk result (calls ≤ self.new.room) }
        ensures kept { self.old.room ≤ self.new.room }
        ensures err { OnErr result (self.new ≡ self.old) }
    {
        self.receipts.reserve(calls)?;
        if self.room < calls {
            self.room = calls;
        }
        Ok(())
    }
}
