//! The counter, and how it is opened and closed.

ghost use Rattle.std.specs.Prelude.{IfOk, ◌≡◌};
ghost use Rattle.claims.specs.Counters.{IsJobCount, IsWorkerCount, AreFresh};

use crate::claimer::Claimer;
use crate::ends::{cut_all, join_all};
use crate::known::{Known, Terms};
use crate::rule::Once;
use atomic_table::Table;
use std::alloc::{AllocError, Global};
use std::marker::Model;

/// A shared counter of job numbers. Each thread claims numbers with its own claimer.
#[derive(Drop)]
pub struct Counter {
    pub(crate) table: Table<u8, Known, Terms, Once, Global>,
    pub(crate) jobs: usize,
}

impl Model for Counter {
    ghost use Rattle.claims.specs.Counters.{Numbering};

    ghost Value = { Numbering };

    ghost use Rattle.std.specs.Coded.{codes};
    ghost use Rattle.atomic_table.specs.Seated.{table_id_coded};

    ghost coded = { Prim.hlevel (codes, table_id_coded) };

    ghost use Rattle.claims.specs.Inside.{IsCounter, counting};

    ghost view = { counting };

    ghost invariant = { IsCounter };
}

/// Opens a counter for at most 4,096 jobs, and returns it with a claimer for each of 1 to 16 workers. The error is out of memory.
pub fn open(
    alloc: Global,
    jobs: usize,
    workers: usize,
) -> Result<(Counter, Vec<Claimer>), AllocError>
    requires jobs { IsJobCount jobs }
    requires workers { IsWorkerCount workers }
    ensures jobs { IfOk result (λ r. r.0.jobs ≡ jobs) }
    ensures workers { IfOk result (λ r. r.0.workers ≡ workers) }
    ensures claimers { IfOk result (λ r. AreFresh r.0 r.1.items) }
{
    let mut claimers = Vec::with_capacity(alloc, workers)?;
    let terms = Terms { jobs, workers };
    let (table, place) = Table::of_words(alloc, &[0], &terms)?;
    cut_all(&table.shared, place, &mut claimers, workers);
    Ok((Counter { table, jobs }, claimers))
}

impl Counter {
    ghost use Rattle.std.specs.Prelude.{◌≡◌, ◌<◌, ◌≤◌, true, ℕ};
    ghost use mathlib.Core.Option.{some};
    ghost use lib.ListN.{get_elem?};
    ghost use Rattle.claims.specs.Counters.{Share, AreAll, AreClaimed, times_drawn};

    /// Closes the counter. `claimers` are all its claimers, in any order. It allocates no memory.
    pub fn close(self, mut claimers: Vec<Claimer>)
        requires { AreAll self claimers.items }
        ensures claimed { AreClaimed self claimers.items }
        ensures once { (x : ℕ) → times_drawn x claimers.items ≤ 1 }
        ensures done { (c : ℕ) (s : Share) → get_elem? claimers.items c ≡ some s → s.done ≡ true → (x : ℕ) → x < self.jobs → times_drawn x claimers.items ≡ 1 }
    {
        let Counter { table, .. } = self;
        let first = claimers.remove(0);
        let place = join_all(&table.shared, first, claimers);
        table.close_with(place).free();
    }
}
