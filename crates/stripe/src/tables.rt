//! The tables of a cache, and their split into stripes.

ghost use Rattle.std.specs.Prelude.{◌≡◌, ◌↔◌, ◌≤◌, [], ℤ, Err, length, replicate, vec_capacity, IfOk, IfErr, OnOk};
ghost use Rattle.std.specs.FinMap as map;
ghost use Rattle.stripe.specs.declared.refusal.OpenRefusal.TheVariants.{BadCount};
ghost use Rattle.stripe.specs.Stored.{entry_among};
ghost use Rattle.stripe.specs.Tables.{IsCount, IsJournal, AreTables, fresh_stripes, none_back};
ghost use Rattle.stripe.specs.Room.{AreEmpty, IsRoom};

use crate::call::Record;
use crate::key::{MOST_STRIPES, stripe_of};
use crate::refusal::OpenRefusal;
use crate::rest::Rest;
use crate::stripe::Stripe;
use crate::table::Table;
use std::alloc::{AllocError, Global};
use std::marker::Model;

/// The maximum number of records of a history.
pub const MOST_RECORDS: usize = 4096;

/// The entries of a cache, in one table for each stripe.
#[derive(Drop)]
pub struct Tables {
    pub(crate) tables: Vec<Table>,
}

impl Model for Tables {
    ghost use Rattle.std.specs.Prelude.{List};
    ghost use Rattle.std.specs.Coded.{coded_list};
    ghost use Rattle.stripe.specs.Stored.{Stored, stored_code};
    ghost use Rattle.stripe.specs.Tables.{AreTables};

    ghost Value = { List Stored };

    ghost coded = { coded_list stored_code };

    ghost view = { λ t. t.tables.items };

    ghost invariant = { λ t. AreTables t.tables.items };
}

/// Returns `stripes` empty tables.
fn empty_tables(alloc: Global, stripes: usize) -> Result<Vec<Table>, OpenRefusal>
    requires { IsCount stripes }
    ensures ok { IfOk result (λ t. t.items ≡ replicate stripes map.empty) }
    ensures are { IfOk result (λ t. AreTables t.items) }
    ensures memory { ¬ (result ≡ Err BadCount) }
{
    let mut tables = Vec::with_capacity(alloc, stripes)?;
    for _ in 0..stripes {
        tables.push_reserved(Table::new(alloc));
    }
    Ok(tables)
}

impl Tables {
    /// Returns empty tables for `stripes` stripes, 1 to 64.
    pub fn new(alloc: Global, stripes: usize) -> Result<Tables, OpenRefusal>
        ensures ok { IfOk result (λ t. t ≡ replicate stripes map.empty) }
        ensures count { (result ≡ Err BadCount) ↔ (¬ IsCount stripes) }
    {
        if stripes == 0 || stripes > MOST_STRIPES {
            return Err(OpenRefusal::BadCount);
        }
        let tables = empty_tables(alloc, stripes)?;
        Ok(Tables { tables })
    }

    /// Returns the number of stripes.
    pub fn stripes(&self) -> usize
        ensures stripes { result ≡ length self.now }
        ensures count { IsCount result }
    {
        self.tables.len()
    }

    /// Returns the entry of a key.
    pub fn entry(&self, key: i64) -> Option<i64>
        ensures { result ≡ entry_among self.now key }
    {
        let place = stripe_of(self.tables.len(), key);
        self.tables[place].entry(key)
    }

    /// Splits the tables into stripes, and returns them with their collector. An error returns the tables.
    /// The history of each stripe is preallocated for `journal` records, 1 to 4,096.
    pub fn split<'a>(
        self,
        alloc: Global,
        journal: usize,
    ) -> Result<(Vec<Stripe<'a>>, Rest<'a>), (OpenRefusal, Tables)>
        ensures stripes { IfOk result (λ r. r.0.items ≡ fresh_stripes journal self) }
        ensures rest { IfOk result (λ r. r.1 ≡ none_back (length self)) }
        ensures count { IfErr result (λ e. (e.0 ≡ BadCount) ↔ (¬ IsJournal journal)) }
        ensures journal { OnOk result (IsJournal journal) }
        ensures tables { OnOk result (IsCount (length self)) }
        ensures given { IfErr result (λ e. e.1 ≡ self) }
    {
        if journal == 0 || journal > MOST_RECORDS {
            return Err((OpenRefusal::BadCount, self));
        }
        let stripes = self.tables.len();
        match room_for(alloc, stripes, journal) {
            Ok(room) => {
                let Tables { tables } = self;
                Ok((
                    into_stripes(tables, room.histories, room.stripes, journal),
                    room.rest,
                ))
            }
            Err(AllocError) => Err((OpenRefusal::NoMemory, self)),
        }
    }
}

/// The buffers of a split, and of the collector of its stripes.
#[derive(Drop)]
struct SplitRoom<'a> {
    histories: Vec<Vec<Record<'a>>>,
    stripes: Vec<Stripe<'a>>,
    rest: Rest<'a>,
}

/// Returns `stripes` empty histories, each with capacity for `journal` records.
fn empty_histories<'a>(
    alloc: Global,
    stripes: usize,
    journal: usize,
) -> Result<Vec<Vec<Record<'a>>>, AllocError>
    ensures { IfOk result (λ hs. AreEmpty stripes journal hs.items) }
{
    let mut histories = Vec::with_capacity(alloc, stripes)?;
    for _ in 0..stripes {
        histories.push_reserved(Vec::with_capacity(alloc, journal)?);
    }
    Ok(histories)
}

/// Allocates all buffers of a split.
fn room_for<'a>(alloc: Global, stripes: usize, journal: usize) -> Result<SplitRoom<'a>, AllocError>
    requires { IsCount stripes }
    ensures { IfOk result (λ r. IsRoom stripes journal r) }
{
    Ok(SplitRoom {
        histories: empty_histories(alloc, stripes, journal)?,
        stripes: Vec::with_capacity(alloc, stripes)?,
        rest: Rest {
            stripes,
            tables: Vec::with_capacity(alloc, stripes)?,
            histories: Vec::with_capacity(alloc, stripes)?,
        },
    })
}

/// Returns the stripes with these tables, in the preallocated buffers.
fn into_stripes<'a>(
    tables: Vec<Table>,
    mut histories: Vec<Vec<Record<'a>>>,
    mut stripes: Vec<Stripe<'a>>,
    journal: usize,
) -> Vec<Stripe<'a>>
    requires tables { AreTables tables.items }
    requires histories { AreEmpty (length tables.items) journal histories.items }
    requires room { (stripes.items ≡ []) × (length tables.items ≤ vec_capacity stripes) }
    ensures { result.items ≡ fresh_stripes journal tables.items }
{
    let count = tables.len();
    for table in tables {
        let Some(records) = histories.pop() else {
            unreachable!()
        };
        stripes.push_reserved(Stripe {
            stripes: count,
            place: stripes.len(),
            table,
            records,
            journal,
            running: None,
        });
    }
    stripes
}
