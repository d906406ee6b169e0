//! Reading of rounds.

ghost use Rattle.std.specs.Prelude.{◌≡◌, ◌≢◌, List, IfOk, IfErr, true, false, Err};
ghost use Rattle.std.specs.Io.KnownBytes.{IsAtEnd};
ghost use Rattle.jtypes.specs.declared.types.Arg.{Arg};
ghost use Rattle.wire.specs.Requests.{with_args, RoundEnd};
ghost use Rattle.serve.specs.Devices.{ReadsAreCounted};
ghost use Rattle.serve.specs.Kept.{AreOf, classes_of, RoundRead, IsBroken};

use crate::batch::{Batch, no_requests, room_of};
use crate::batch_requests::{add, add_invoke};
use crate::context::{RoundSource, Server, StreamState};
use crate::fault::ServeFault;
use bumpalo::Bump;
use std::sync::Wait;
use wire::{Ahead, Counted, Request, invocation_at_hand, read_request};

fn is_end(request: &Request) -> bool
    ensures yes { (args : List Arg) → result ≡ true → with_args args request.now ≡ RoundEnd }
    ensures no { (args : List Arg) → result ≡ false → with_args args request.now ≢ RoundEnd }
{
    matches!(request, Request::RoundEnd)
}

/// Reads the requests of a round up to its `RoundEnd`, or returns none at the end of the input.
/// Classes are defined as they are read.
pub fn read_round<'r, T: Wait, R: Ahead, G, L>(
    server: &Server<'r, T, G, L>,
    arena: &'r Bump,
    state: &mut StreamState,
    reader: &mut Counted<R>,
) -> Result<Option<Batch<'r>>, ServeFault>
    requires { AreOf server.now.registry.now state.old.ids.items }
    ensures ok { IfOk result (λ round. RoundRead server.now.settings.protocol (R.remaining reader.old.inner) (R.remaining reader.new.inner) (classes_of state.old.ids.items) (classes_of state.new.ids.items) round) }
    ensures err { IfErr result (λ e. IsBroken server.now.settings.protocol (R.remaining reader.old.inner) (R.remaining reader.new.inner) e) }
    ensures end { result ≡ Err ServeFault.Truncated → IsAtEnd (R.remaining reader.new.inner) }
    ensures counted { ReadsAreCounted result reader.old reader.new }
    ensures known { AreOf server.now.registry.now state.new.ids.items }
{
    let alloc = server.alloc;
    let source = RoundSource {
        alloc,
        arena,
        registry: server.registry,
    };
    let mut plan = no_requests(alloc, state.room);
    let mut args = Vec::new(alloc);
    for _ in server.rt.forever() {
        if let Some(invocation) = invocation_at_hand(reader, &mut args)? {
            let class = invocation.class as usize;
            let key = &invocation.key;
            let ids = state.ids.as_slice();
            add_invoke(&source, ids, &mut plan, class, key, args.as_slice())?;
            continue;
        }
        match read_request(alloc, server.settings.protocol, reader, &mut args)? {
            Some(request) => {
                if is_end(&request) {
                    state.room = room_of(&plan);
                    return Ok(Some(plan));
                }
                let ids = &mut state.ids;
                add(server.rt, &source, ids, &mut plan, request, args.as_slice())?;
            }
            None => {
                if plan.works.is_empty() {
                    return Ok(None);
                }
                return Err(ServeFault::Truncated);
            }
        }
    }
    unreachable!()
}
