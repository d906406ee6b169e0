//! One round.

ghost use Rattle.std.specs.Prelude.{◌≡◌, ◌≤◌, List, length, IfOk, IfErr, OnOk, OnErr, Err};
ghost use Rattle.std.specs.Io.KnownBytes.{IsAtEnd};
ghost use Rattle.stripe.specs.Stored.{entry_among};
ghost use Rattle.wire.specs.Streams.{Wrote, WrotePart};
ghost use Rattle.serve.specs.Served.{stand};
ghost use Rattle.serve.specs.Devices.{ReadsAreCounted, WritesAreCounted};
ghost use Rattle.serve.specs.Kept.{AreOf, IsRun, calls_of, classes_of, works_of, RoundServed, RoundFailed};

use crate::batch::Batch;
use crate::context::{Server, StreamState};
use crate::fault::ServeFault;
use crate::jobs::{RoundLeft, run_jobs};
use crate::reading::read_round;
use crate::replies::text_of;
use bumpalo::Bump;
use cache::Gate;
use jtypes::Loader;
use std::alloc::AllocError;
use std::io::Write;
use std::sync::Wait;
use std::thread::Threads;
use stripe::Tables;
use wire::{Ahead, Counted, WriteFailed, write_bytes};
use workers::WorkspacePool;

/// Writes all the bytes, and flushes.
fn write_all<W: Write>(writer: &mut Counted<W>, bytes: &[u8]) -> Result<(), WriteFailed>
    ensures ok { OnOk result (Wrote W.contents writer.old writer.new bytes.now) }
    ensures err { OnErr result (WrotePart W.contents writer.old writer.new bytes.now) }
{
    write_bytes(writer, bytes)?;
    match writer.flush() {
        Ok(()) => Ok(()),
        Err(_) => Err(WriteFailed),
    }
}

/// Runs a round. Returns the tables that it leaves, and the frames of its replies.
fn run_round<T: Threads + Wait + Sync, G: Gate + Sync, L: Loader + Sync>(
    server: &Server<'_, T, G, L>,
    tables: Tables,
    plan: Batch<'_>,
    workspaces: &mut WorkspacePool,
) -> Result<(Tables, Vec<u8>), AllocError>
    requires few { length plan.calls.items ≤ 4096 }
    requires workers { server.now.settings.workers ≤ 16 }
    ensures { IfOk result (λ run. IsRun L.ASKS (L.gives server.now.loader.now) (entry_among tables) (calls_of plan.entry) (works_of plan.entry) (entry_among run.0) run.1.items) }
{
    let Batch {
        works,
        calls,
        steps,
    } = plan;
    let Ok(left) = run_jobs(server, tables, steps, calls.as_slice(), workspaces) else {
        return Err(AllocError);
    };
    let RoundLeft { tables, answers } = left;
    let text = text_of(server.alloc, works.as_slice(), answers.as_slice())?;
    Ok((tables, text))
}

/// Reads a round, runs it and writes its replies. Returns the tables that it leaves, or none at the end of the input.
/// The keys and arguments of the round are allocated in `arena`.
pub fn one_round<T: Threads + Wait + Sync, R: Ahead, W: Write, G: Gate + Sync, L: Loader + Sync>(
    server: &Server<'_, T, G, L>,
    arena: &Bump,
    state: &mut StreamState,
    tables: Tables,
    reader: &mut Counted<R>,
    writer: &mut Counted<W>,
) -> Result<Option<Tables>, ServeFault>
    requires known { AreOf server.now.registry.now state.old.ids.items }
    requires workers { server.now.settings.workers ≤ 16 }
    ensures ok { IfOk result (λ left. RoundServed server.now.settings.protocol L.ASKS (L.gives server.now.loader.now) (R.remaining reader.old.inner) (R.remaining reader.new.inner) (W.contents writer.old.inner) (W.contents writer.new.inner) (stand (classes_of state.old.ids.items) (entry_among tables)) (classes_of state.new.ids.items) left) }
    ensures err { IfErr result (λ e. RoundFailed server.now.settings.protocol L.ASKS (L.gives server.now.loader.now) (R.remaining reader.old.inner) (R.remaining reader.new.inner) (W.contents writer.old.inner) (W.contents writer.new.inner) (stand (classes_of state.old.ids.items) (entry_among tables)) e) }
    ensures end { result ≡ Err ServeFault.Truncated → IsAtEnd (R.remaining reader.new.inner) }
    ensures reads { ReadsAreCounted result reader.old reader.new }
    ensures writes { WritesAreCounted result writer.old writer.new }
    ensures known { AreOf server.now.registry.now state.new.ids.items }
{
    let Some(plan) = read_round(server, arena, state, reader)? else {
        return Ok(None);
    };
    let (left, text) = run_round(server, tables, plan, &mut state.workspaces)?;
    write_all(writer, text.as_slice())?;
    Ok(Some(left))
}
