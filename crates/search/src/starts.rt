//! The nodes at the starts of methods.

ghost use Rattle.std.specs.Prelude.{◌≡◌, IfOk};
ghost use Rattle.jtypes.specs.Lists.{padded};
ghost use Rattle.jtypes.specs.Types.{as_locals};
ghost use Rattle.typecheck.specs.Typing.{Method};
ghost use Rattle.unrolled.specs.Graph as graph;
ghost use Rattle.search.specs.Seen.{locals_seen, operands_seen, node_seen, following_seen};
ghost use Rattle.search.specs.Starts.{wide_in_code};

use crate::arrivals::arrive;
use crate::known::Known;
use crate::node::{Following, Node};
use crate::values::{is_wide, kept};
use std::alloc::{AllocError, Global};

/// Returns the local variables of the arguments, the first argument first. A long has two, the second of which is `Narrow`.
fn locals_of(alloc: Global, arguments: &[Known]) -> Result<Vec<Known>, AllocError>
    ensures { IfOk result (λ locals. locals.items ≡ as_locals wide_in_code (λ k. k) Known.Narrow arguments.now) }
{
    let mut locals = Vec::new(alloc);
    for k in arguments {
        locals.push(*k)?;
        if is_wide(*k) {
            locals.push(Known::Narrow)?;
        }
    }
    Ok(locals)
}

/// Appends local variables of which nothing is known, up to this number.
fn pad(mut locals: Vec<Known>, count: usize) -> Result<Vec<Known>, AllocError>
    ensures { IfOk result (λ all. all.items ≡ padded Known.Narrow count locals.items) }
{
    while locals.len() < count {
        locals.push(Known::Narrow)?;
    }
    Ok(locals)
}

/// Forgets what local variables don't keep.
fn keep(locals: &mut [Known], f: &Following)
    ensures { locals_seen locals.new ≡ graph.kept_from (following_seen f.now).ints 0 (locals_seen locals.old) }
{
    for n in 0..locals.len() {
        locals[n] = kept(f.follows(n), locals[n]);
    }
}

/// Returns the node at the start of a method with this number of local variables, by what is known of its arguments, the first one first.
pub fn entered(
    alloc: Global,
    f: &Following,
    max_locals: u16,
    arguments: &[Known],
) -> Result<Node, AllocError>
    ensures { (m : Method) → m.environment.max_locals ≡ max_locals → IfOk result (λ x. node_seen x ≡ graph.entered (following_seen f.now) m (operands_seen arguments.now)) }
{
    let shown = locals_of(alloc, arguments)?;
    let mut locals = pad(shown, usize::from(max_locals))?;
    keep(&mut locals, f);
    let mut x = Node {
        place: 0,
        locals,
        operands: Vec::new(alloc),
    };
    arrive(&mut x, f);
    Ok(x)
}
