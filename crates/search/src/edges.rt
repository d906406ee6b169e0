//! The edges of a node by its instruction (JVMS §6.5).

ghost use Rattle.std.specs.Prelude.{◌≡◌, [], ◌∷◌, true, map, IfOk, option_copied};
ghost use Rattle.classfile.specs.View.{ClassView};
ghost use Rattle.transfer.specs.Transfer.{IsCalleeOf};
ghost use Rattle.jtypes.specs.Types as types;
ghost use Rattle.unrolled.specs.Known as spec;
ghost use Rattle.unrolled.specs.Graph as graph;
ghost use Rattle.search.specs.Seen.{known_seen, locals_seen, operands_seen, node_seen, following_seen};
ghost use Rattle.search.specs.After.{goes_on, HasPlaces, IsAfter};

use crate::effects::{
    call, create_array, forget_top, increment, measure, result_known, store, takes_two,
};
use crate::jumps::{branch, goto};
use crate::known::Known;
use crate::node::{Following, Node, local};
use crate::operands::{drop_top, push, replace};
use crate::stack_forms::rearrange;
use crate::switches::switch;
use crate::values::{known_pushed, loaded, unknown_of};
use decode::{Instruction, Placed};
use frames::Callee;
use jtypes::{ArrayKind, JType, Kind, Operation};
use std::alloc::{AllocError, Global};

/// Pushes local variable `n`.
fn load(x: &mut Node, kind: Kind, n: u16) -> Result<(), AllocError>
    ensures operands { IfOk result (λ _. operands_seen x.new.operands.items ≡ graph.loaded kind (spec.known_local (locals_seen x.old.locals.items) n) ∷ operands_seen x.old.operands.items) }
    ensures locals { IfOk result (λ _. x.new.locals ≡ x.old.locals) }
{
    let k = loaded(kind, local(&x.locals, usize::from(n)));
    push(&mut x.operands, k)
}

/// Replaces the operands of an operation by its result.
fn operate(operands: &mut Vec<Known>, operation: Operation) -> Result<(), AllocError>
    ensures { IfOk result (λ _. operands_seen operands.new.items ≡ graph.operated operation (operands_seen operands.old.items)) }
{
    let k = result_known(operation, operands);
    let count = if takes_two(operation) { 2 } else { 1 };
    replace(operands, count, k)
}

/// Returns the type of the elements of an array.
fn element_type(kind: ArrayKind) -> JType
    ensures { result ≡ types.element_type kind }
{
    match kind {
        ArrayKind::Int => JType::Int,
        ArrayKind::Long => JType::Long,
    }
}

/// Changes what is known at a node to what is known after its instruction, from which control goes on at the next one alone.
/// `callee` is the method that a call resolves to. Other instructions, whose edges `next_nodes` has, change nothing.
/// The only error is that of memory; what it leaves in `x` isn't said.
#[tactic(auto, using(crate::proofs::NodeLists::matched))]
pub fn step(
    alloc: Global,
    x: &mut Node,
    f: &Following,
    instruction: &Instruction,
    callee: Option<&Callee>,
) -> Result<(), AllocError>
    ensures { (v : ClassView) → IsCalleeOf v instruction.now (option_copied callee.entry) → goes_on instruction.now ≡ true → IfOk result (λ _. IsAfter v (following_seen f.now) instruction.now (node_seen x.old) (node_seen x.new)) }
{
    match *instruction {
        Instruction::Nop | Instruction::CheckCast(_) => Ok(()),
        Instruction::Push(p) => push(&mut x.operands, known_pushed(p)),
        Instruction::Load(kind, n) => load(x, kind, n),
        Instruction::Store(kind, n) => {
            store(x, kind, n, f);
            Ok(())
        }
        Instruction::Increment(n, by) => {
            increment(&mut x.locals, n, by);
            Ok(())
        }
        Instruction::Operate(o) => operate(&mut x.operands, o),
        Instruction::Rearrange(r) => rearrange(alloc, &mut x.operands, r),
        Instruction::Invoke(..) => call(&mut x.operands, callee),
        Instruction::NewArray(_) => create_array(&mut x.operands),
        Instruction::ArrayLoad(k) => replace(&mut x.operands, 2, unknown_of(element_type(k))),
        Instruction::ArrayStore(_) => {
            drop_top(&mut x.operands, 3);
            Ok(())
        }
        Instruction::ReferenceLoad => replace(&mut x.operands, 2, Known::Narrow),
        Instruction::ArrayLength => measure(&mut x.operands),
        Instruction::InstanceOf(_) => forget_top(&mut x.operands),
        Instruction::Branch(..)
        | Instruction::Goto(_)
        | Instruction::Switch(..)
        | Instruction::Return(_)
        | Instruction::ReturnVoid
        | Instruction::Throw(..) => Ok(()),
    }
}

/// Returns a list of one node.
fn one(alloc: Global, x: Node) -> Result<Vec<Node>, AllocError>
    ensures { IfOk result (λ ys. map node_seen ys.items ≡ node_seen x ∷ []) }
{
    let mut to = Vec::new(alloc);
    to.push(x)?;
    Ok(to)
}

/// Returns the node after an instruction from which control goes on at the next one alone.
fn one_edge(
    alloc: Global,
    x: &Node,
    f: &Following,
    p: &Placed,
    callee: Option<&Callee>,
) -> Result<Vec<Node>, AllocError>
    ensures { (v : ClassView) → IsCalleeOf v p.now.instruction (option_copied callee.entry) → goes_on p.now.instruction ≡ true → IfOk result (λ ys. map node_seen ys.items ≡ graph.edges v (following_seen f.now) (node_seen x.now) p.now.next p.now.instruction) }
{
    let mut y = x.copy(alloc)?;
    step(alloc, &mut y, f, &p.instruction, callee)?;
    y.place = p.next;
    one(alloc, y)
}

/// Returns the nodes after an instruction in the same method, none after a return or a throw. `callee` is the method that a call resolves to.
/// The only error is that of memory.
pub fn next_nodes(
    alloc: Global,
    x: &Node,
    f: &Following,
    p: &Placed,
    callee: Option<&Callee>,
) -> Result<Vec<Node>, AllocError>
    requires { HasPlaces p.now.instruction }
    ensures { (v : ClassView) → IsCalleeOf v p.now.instruction (option_copied callee.entry) → IfOk result (λ ys. map node_seen ys.items ≡ graph.edges v (following_seen f.now) (node_seen x.now) p.now.next p.now.instruction) }
{
    match &p.instruction {
        Instruction::Branch(test, target) => branch(alloc, x, p.next, *test, *target),
        Instruction::Goto(target) => goto(alloc, x, *target),
        Instruction::Switch(default, cases) => switch(alloc, x, *default, cases),
        Instruction::Return(_) | Instruction::ReturnVoid | Instruction::Throw(..) => {
            Ok(Vec::new(alloc))
        }
        Instruction::Nop
        | Instruction::Push(_)
        | Instruction::Load(..)
        | Instruction::Store(..)
        | Instruction::Increment(..)
        | Instruction::Operate(_)
        | Instruction::Rearrange(_)
        | Instruction::Invoke(..)
        | Instruction::NewArray(_)
        | Instruction::ArrayLoad(_)
        | Instruction::ArrayStore(_)
        | Instruction::ReferenceLoad
        | Instruction::ArrayLength
        | Instruction::CheckCast(_)
        | Instruction::InstanceOf(_) => one_edge(alloc, x, f, p, callee),
    }
}
