//! Streams of requests.

ghost use Rattle.std.specs.Prelude.{◌≡◌, ◌≢◌, ◌≤◌, ◌↔◌, ℤ, None, OnOk, IfErr, Err};
ghost use Rattle.std.specs.Io.KnownBytes.{IsAtEnd};
ghost use Rattle.stripe.specs.Stored.{entry_among};
ghost use Rattle.serve.specs.Served.{IsServed, IsCutShort, EndsEarly};
ghost use Rattle.serve.specs.Settings.{CanServe};
ghost use Rattle.serve.specs.Devices.{TookAndGave, ReadsAreCounted, WritesAreCounted};

use crate::batch::Room;
use crate::context::{Server, StreamState};
use crate::fault::ServeFault;
use crate::round::one_round;
use crate::settings::Settings;
use bumpalo::Bump;
use cache::Gate;
use jtypes::Loader;
use registry::Registry;
use std::io::Write;
use std::sync::Wait;
use std::thread::Threads;
use stripe::{OpenRefusal, Tables};
use wire::{Ahead, Counted};
use workers::WorkspacePool;

/// The maximum number of workers.
const MOST_WORKERS: usize = 16;

/// Serves the requests of the reader, round by round, up to its end. The writer is flushed after each round.
/// If a fault ends the stream early, the replies to the rounds before are written already.
pub fn serve<
    T: Threads + Wait + Sync + AllocGlobal,
    R: Ahead,
    W: Write,
    G: Gate + Sync,
    L: Loader + Sync,
>(
    rt: &T,
    reader: &mut Counted<R>,
    writer: &mut Counted<W>,
    settings: Settings,
    gate: &G,
    loader: &L,
) -> Result<(), ServeFault>
    ensures served { OnOk result (TookAndGave (R.remaining reader.old.inner) (R.remaining reader.new.inner) (W.contents writer.old.inner) (W.contents writer.new.inner) (IsServed settings.protocol L.ASKS (L.gives loader.now))) }
    ensures whole { OnOk result (IsAtEnd (R.remaining reader.new.inner)) }
    ensures cut { IfErr result (λ fault. TookAndGave (R.remaining reader.old.inner) (R.remaining reader.new.inner) (W.contents writer.old.inner) (W.contents writer.new.inner) (λ taken given. EndsEarly settings.protocol L.ASKS (L.gives loader.now) taken given fault)) }
    ensures truncated { result ≡ Err ServeFault.Truncated → IsAtEnd (R.remaining reader.new.inner) }
    ensures reads { ReadsAreCounted result reader.old reader.new }
    ensures writes { WritesAreCounted result writer.old writer.new }
    ensures count { (result ≡ Err ServeFault.BadCount) ↔ (¬ CanServe settings) }
    ensures untouched { result ≡ Err ServeFault.BadCount → (reader.new ≡ reader.old) × (writer.new ≡ writer.old) }
{
    let alloc = rt.alloc();
    let workers = settings.workers;
    if workers > MOST_WORKERS {
        return Err(ServeFault::BadCount);
    }
    let tables = match Tables::new(alloc, settings.stripes) {
        Ok(tables) => tables,
        Err(OpenRefusal::BadCount) => return Err(ServeFault::BadCount),
        Err(OpenRefusal::NoMemory) => return Err(ServeFault::NoMemory),
    };
    let registry = Registry::new(alloc)?;
    let server = Server {
        rt,
        alloc,
        registry: &registry,
        settings,
        gate,
        loader,
    };
    stream(&server, tables, reader, writer)
}

/// Serves the requests, starting with empty tables. Each round starts with the tables that the previous one left.
fn stream<T: Threads + Wait + Sync, R: Ahead, W: Write, G: Gate + Sync, L: Loader + Sync>(
    server: &Server<'_, T, G, L>,
    tables: Tables,
    reader: &mut Counted<R>,
    writer: &mut Counted<W>,
) -> Result<(), ServeFault>
    requires empty { (k : ℤ) → entry_among tables k ≡ None }
    requires workers { server.now.settings.workers ≤ 16 }
    ensures served { OnOk result (TookAndGave (R.remaining reader.old.inner) (R.remaining reader.new.inner) (W.contents writer.old.inner) (W.contents writer.new.inner) (IsServed server.now.settings.protocol L.ASKS (L.gives server.now.loader.now))) }
    ensures whole { OnOk result (IsAtEnd (R.remaining reader.new.inner)) }
    ensures cut { IfErr result (λ fault. TookAndGave (R.remaining reader.old.inner) (R.remaining reader.new.inner) (W.contents writer.old.inner) (W.contents writer.new.inner) (λ taken given. IsCutShort server.now.settings.protocol L.ASKS (L.gives server.now.loader.now) taken given fault)) }
    ensures truncated { result ≡ Err ServeFault.Truncated → IsAtEnd (R.remaining reader.new.inner) }
    ensures reads { ReadsAreCounted result reader.old reader.new }
    ensures writes { WritesAreCounted result writer.old writer.new }
{
    let ids = Vec::new(server.alloc);
    let mut state = StreamState {
        ids,
        room: Room { works: 0, calls: 0 },
        workspaces: WorkspacePool::with_workspaces(server.alloc, server.settings.workers),
    };
    let mut arena = Bump::new(server.alloc);
    let mut tables = tables;
    for _ in server.rt.forever() {
        match one_round(server, &arena, &mut state, tables, reader, writer)? {
            Some(left) => tables = left,
            None => return Ok(()),
        }
        // If the reset fails, the arena keeps this round, and the next one is allocated after it.
        let _ = arena.reset();
    }
    unreachable!()
}
