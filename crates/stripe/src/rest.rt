//! The return of stripes.

ghost use Rattle.std.specs.Prelude.{◌≡◌, ◌↔◌, IsTrue, None, length, map};

use crate::call::Record;
use crate::stripe::Stripe;
use crate::table::Table;
use crate::tables::Tables;
use std::marker::Model;

/// The collector of the stripes of a split, one after the other. `Tables::split` preallocates its buffers.
#[derive(Drop)]
pub struct Rest<'a> {
    pub(crate) stripes: usize,
    pub(crate) tables: Vec<Table>,
    pub(crate) histories: Vec<Vec<Record<'a>>>,
}

impl<'a> Model for Rest<'a> {
    ghost use Rattle.std.specs.Coded.{codes};
    ghost use Rattle.stripe.specs.Stored.{stored_code};
    ghost use Rattle.stripe.specs.Tables.{Back};

    ghost Value = { Back };

    ghost coded = { Prim.hlevel (codes, stored_code) };

    ghost use Rattle.stripe.specs.Return.{IsReturn, back};

    ghost view = { back };

    ghost invariant = { IsReturn };
}

impl<'a> Rest<'a> {
    ghost use Rattle.std.specs.Prelude.{◌≡◌, ◌↔◌, IsTrue, None, length, map};
    ghost use Rattle.stripe.specs.Seen.{record_of};
    ghost use Rattle.stripe.specs.Tables.{IsNext, added};

    /// Returns whether a stripe is the next one to add, and has no open call.
    pub fn is_next(&self, stripe: &Stripe<'a>) -> bool
        ensures next { IsTrue result → IsNext self.now stripe.now }
        ensures idle { IsTrue result → stripe.now.running ≡ None }
    {
        stripe.stripes == self.stripes
            && stripe.place == self.tables.len()
            && stripe.running.is_none()
    }

    /// Returns whether all stripes were added.
    pub fn is_whole(&self) -> bool
        ensures { IsTrue result ↔ (length self.now.tables ≡ self.now.stripes) }
    {
        self.tables.len() == self.stripes
    }

    /// Adds the next stripe, which has no open call. It allocates no memory.
    pub fn add(&mut self, stripe: Stripe<'a>)
        requires next { IsNext self.old stripe }
        requires idle { stripe.running ≡ None }
        ensures { self.new ≡ added self.old stripe.entry }
    {
        let Stripe { table, records, .. } = stripe;
        self.tables.push_reserved(table);
        self.histories.push_reserved(records);
    }

    /// Returns the entries and the histories of all stripes. All of them were added.
    pub fn finish(self) -> (Tables, Vec<Vec<Record<'a>>>)
        requires { length self.tables ≡ self.stripes }
        ensures tables { result.0 ≡ self.entry.tables }
        ensures histories { map (λ h. map record_of h.items) result.1.items ≡ self.entry.histories }
    {
        let Rest {
            tables,
            histories,
            ..
        } = self;
        (Tables { tables }, histories)
    }
}
