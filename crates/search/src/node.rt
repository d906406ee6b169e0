//! Nodes, and what is followed.

ghost use Rattle.std.specs.Prelude.{◌≡◌, IfOk, false, get_or, slice_set};
ghost use Rattle.unrolled.specs.Known as spec;
ghost use Rattle.unrolled.specs.Graph as graph;
ghost use Rattle.search.specs.Seen.{known_seen, locals_seen, operands_seen, node_seen};

use crate::known::Known;
use std::alloc::{AllocError, Global};

/// A pc with what is known of the local variables and operands before its instruction.
#[derive(Drop, PartialEq, Eq, PartialOrd, Ord)]
pub struct Node {
    pub place: usize,
    /// A long has two, the second of which is `Narrow`.
    pub locals: Vec<Known>,
    /// The top is last. A long is one.
    pub operands: Vec<Known>,
}

impl Node {
    /// Returns a copy.
    pub fn copy(&self, alloc: Global) -> Result<Node, AllocError>
        ensures { IfOk result (λ y. node_seen y ≡ node_seen self.now) }
    {
        self.at(alloc, self.place)
    }

    /// Returns a node at a pc with what is known at this one.
    pub fn at(&self, alloc: Global, place: usize) -> Result<Node, AllocError>
        ensures { IfOk result (λ y. node_seen y ≡ graph.at (node_seen self.now) place (operands_seen self.now.operands.items)) }
    {
        Ok(Node {
            place,
            locals: Vec::from_slice(alloc, &self.locals)?,
            operands: Vec::from_slice(alloc, &self.operands)?,
        })
    }
}

/// What is followed in a method: values at all, and the ints of which local variables.
#[derive(Drop)]
pub struct Following {
    pub values: bool,
    /// By local variable; those past the end aren't followed.
    pub ints: Vec<bool>,
}

impl Following {
    /// Returns whether the ints of local variable `n` are followed.
    pub fn follows(&self, n: usize) -> bool
        ensures { result ≡ get_or self.now.ints.items n false }
    {
        match self.ints.get(n) {
            Some(b) => *b,
            None => false,
        }
    }
}

/// Returns what is known of local variable `n`.
pub fn local(locals: &[Known], n: usize) -> Known
    ensures { known_seen result ≡ spec.known_local (locals_seen locals.now) n }
{
    match locals.get(n) {
        Some(k) => *k,
        None => Known::Narrow,
    }
}

/// Writes local variable `n`; does nothing past the end.
pub fn set_local(locals: &mut [Known], n: usize, k: Known)
    ensures { locals_seen locals.new ≡ slice_set (locals_seen locals.old) n (known_seen k) }
{
    if n < locals.len() {
        locals[n] = k;
    }
}
