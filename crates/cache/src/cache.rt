//! The cache, and how it is opened and closed.

ghost use Rattle.std.specs.Prelude.{IfOk};
ghost use Rattle.cache.specs.Ends.{AreLists, HasRoom};

use crate::ends::{Locked, join_all, locked, rejoined, seated, unpack};
use crate::known::Terms;
use crate::receipt::Receipt;
use crate::seat::Seat;
use jtypes::Loader;
use registry::Registry;
use std::alloc::{AllocError, Global};
use std::marker::Model;
use std::snapshot::Snapshot;
use stripe::{OpenRefusal, Record, Rest, Tables};

/// The maximum number of seats.
const MOST_SEATS: usize = 16;

/// A sharded cache with `Long` keys and values (JSR 107, `Cache`), which threads share. Each thread makes its calls with its own seat.
/// The classes live for `'a`, the loader for `'l`.
#[derive(Drop)]
pub struct Cache<'a, 'l, L: Loader> {
    pub(crate) table: Locked<'a, L>,
    pub(crate) registry: &'a Registry,
    pub(crate) stripes: usize,
    pub(crate) seats: usize,
    pub(crate) rest: Rest<'a>,
    pub(crate) receipts: Vec<Vec<Receipt<'a>>>,
    pub(crate) loader: &'l L,
}

impl<'a, 'l, L: Loader> Model for Cache<'a, 'l, L> {
    ghost use Rattle.cache.specs.Opened.{Opened};

    ghost Value = { Opened L };

    ghost use Rattle.std.specs.Coded.{codes};
    ghost use Rattle.stripe.specs.Stored.{stored_code};
    ghost use Rattle.boxcar.specs.Table.{shelves_coded};
    ghost use Rattle.atomic_table.specs.Seated.{table_id_coded};

    ghost coded = { Prim.hlevel (codes, stored_code, shelves_coded, table_id_coded, L.code) };

    ghost use Rattle.cache.specs.Inside.{IsCache, opened};

    ghost view = { opened };

    ghost invariant = { IsCache };
}

/// The contents of a closed cache: its entries, the history of each stripe, and the receipts of each seat.
#[derive(Drop)]
pub struct Closed<'a> {
    pub tables: Tables,
    pub histories: Vec<Vec<Record<'a>>>,
    pub receipts: Vec<Vec<Receipt<'a>>>,
}

/// The buffers of a cache for its seats, for the lists of their receipts when it is closed, and a list of receipts for each seat.
#[derive(Drop)]
struct SeatRoom<'a> {
    list: Vec<Seat<'a>>,
    receipts: Vec<Vec<Receipt<'a>>>,
    lists: Vec<Vec<Receipt<'a>>>,
}

/// Returns an empty list for each of `seats` seats, with capacity for the receipts of `calls` calls.
fn empty_lists<'a>(
    alloc: Global,
    seats: usize,
    calls: usize,
) -> Result<Vec<Vec<Receipt<'a>>>, AllocError>
    ensures { IfOk result (λ v. AreLists seats calls v.items) }
{
    let mut lists = Vec::new(alloc);
    for _ in 0..seats {
        let list = Vec::with_capacity(alloc, calls)?;
        lists.push(list)?;
    }
    Ok(lists)
}

/// Allocates empty buffers for `seats` seats, each of which makes `calls` calls.
fn room_for<'a>(alloc: Global, seats: usize, calls: usize) -> Result<SeatRoom<'a>, AllocError>
    ensures { IfOk result (HasRoom seats calls) }
{
    Ok(SeatRoom {
        list: Vec::with_capacity(alloc, seats)?,
        receipts: Vec::with_capacity(alloc, seats)?,
        lists: empty_lists(alloc, seats, calls)?,
    })
}

impl<'a, 'l, L: Loader> Cache<'a, 'l, L> {
    ghost use Rattle.std.specs.Prelude.{◌≡◌, ◌↔◌, length, IfOk, IfErr, OnOk};
    ghost use Rattle.stripe.specs.declared.refusal.OpenRefusal.TheVariants.{BadCount};
    ghost use Rattle.stripe.specs.Tables.{IsCount};
    ghost use Rattle.cache.specs.Opened.{IsOpened, AreFresh, HaveRoom, AreCounts, AreSeats};
    ghost use Rattle.cache.specs.Closing.{Settles, histories_seen, receipts_seen, receipts_in};

    /// Opens a cache with these entries, and returns it with its seats. The history of each stripe holds at most `journal` records.
    /// A `get` or a `getValue` of an absent key asks the loader, if `L::ASKS` is true.
    /// An error returns the tables. It is `BadCount` unless `journal` is 1 to 4,096 and `seats` is 1 to 16, and out of memory otherwise.
    pub fn open(
        alloc: Global,
        registry: &'a Registry,
        tables: Tables,
        journal: usize,
        seats: usize,
        loader: &'l L,
    ) -> Result<(Cache<'a, 'l, L>, Vec<Seat<'a>>), (OpenRefusal, Tables)>
        ensures cache { IfOk result (λ r. IsOpened registry.now tables journal seats loader.now r.0) }
        ensures seats { IfOk result (λ r. AreFresh r.0.table seats r.1.items) }
        ensures counts { OnOk result (AreCounts journal seats) }
        ensures count { IfErr result (λ e. (e.0 ≡ BadCount) ↔ (¬ AreCounts journal seats)) }
        ensures given { IfErr result (λ e. e.1 ≡ tables) }
    {
        Cache::open_for(alloc, registry, tables, journal, seats, 0, loader)
    }

    /// Opens a cache as `open` does, with the receipts of the first `calls` calls of each seat preallocated.
    /// So no such call is refused out of memory, unless it may create an entry.
    pub fn open_for(
        alloc: Global,
        registry: &'a Registry,
        tables: Tables,
        journal: usize,
        seats: usize,
        calls: usize,
        loader: &'l L,
    ) -> Result<(Cache<'a, 'l, L>, Vec<Seat<'a>>), (OpenRefusal, Tables)>
        ensures cache { IfOk result (λ r. IsOpened registry.now tables journal seats loader.now r.0) }
        ensures seats { IfOk result (λ r. AreFresh r.0.table seats r.1.items) }
        ensures room { IfOk result (λ r. HaveRoom calls r.1.items) }
        ensures counts { OnOk result (AreCounts journal seats) }
        ensures count { IfErr result (λ e. (e.0 ≡ BadCount) ↔ (¬ AreCounts journal seats)) }
        ensures given { IfErr result (λ e. e.1 ≡ tables) }
    {
        if seats == 0 || seats > MOST_SEATS {
            return Err((OpenRefusal::BadCount, tables));
        }
        let terms = Terms {
            tables: Snapshot::of(&tables),
            journal,
            loader: Snapshot::of(loader),
        };
        let (stripes, rest) = tables.split(alloc, journal)?;
        let count = stripes.len();
        let Ok(room) = room_for(alloc, seats, calls) else {
            return Err((OpenRefusal::NoMemory, rejoined(stripes, rest)));
        };
        match locked(alloc, stripes, &terms) {
            Ok((table, pass)) => {
                let SeatRoom {
                    list,
                    receipts,
                    lists,
                } = room;
                let list = seated(&table.shared, pass, list, lists, seats, calls);
                let cache = Cache {
                    table,
                    registry,
                    stripes: count,
                    seats,
                    rest,
                    receipts,
                    loader,
                };
                Ok((cache, list))
            }
            Err(stripes) => Err((OpenRefusal::NoMemory, rejoined(stripes, rest))),
        }
    }

    /// Returns the number of stripes, 1 to 64.
    pub fn stripes(&self) -> usize
        ensures stripes { result ≡ length self.now.tables }
        ensures count { IsCount result }
    {
        self.stripes
    }

    /// Returns the class registry that the cache was opened with.
    pub fn registry(&self) -> &'a Registry
        ensures { result.now ≡ self.now.registry }
    {
        self.registry
    }

    /// Closes the cache and returns its contents. `seats` are all the seats that `open` returned, in that order.
    pub fn close(self, mut seats: Vec<Seat<'a>>) -> Closed<'a>
        requires { AreSeats self seats.items }
        ensures settled { Settles L.ASKS (L.gives self.entry.loader) self.entry seats.entry.items result.tables (histories_seen result.histories.items) }
        ensures receipts { receipts_seen result.receipts.items ≡ receipts_in seats.entry.items }
    {
        let Cache {
            table,
            mut rest,
            mut receipts,
            ..
        } = self;
        let first = seats.remove(0);
        let pass = join_all(&table.shared, first, seats, &mut receipts);
        unpack(table, pass, &mut rest);
        let (tables, histories) = rest.finish();
        Closed {
            tables,
            histories,
            receipts,
        }
    }
}
