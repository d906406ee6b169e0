//! The frame before an instruction, as the type checker sees it (JVMS §4.10.1).

ghost use Rattle.std.specs.Prelude.{IfOk};
ghost use Rattle.transfer.specs.Transfer.{IsCalleeOf};

use crate::writer::Text;
use classfile::{ClassFile, CodeParts, contents_named};
use constpool::names;
use decode::{Code, Instruction, Placed, decode};
use frames::{
    Callee, Declared, Environment, Flow, Frames, MemberView, MethodStart, callee_at,
    method_signature, read_frames,
};
use jtypes::{JType, RefType, Refusal};
use std::alloc::{AllocError, Global};
use transfer::apply;

/// The maximum number of types that are shown.
const SHOWN: usize = 64;

fn class_name(named: RefType) -> &'static str {
    match named {
        RefType::Object => "Object",
        RefType::Number => "Number",
        RefType::Long => "Long",
        RefType::Integer => "Integer",
        RefType::Boolean => "Boolean",
        RefType::Void => "Void",
        RefType::This => "this",
        RefType::MutableEntry => "MutableEntry",
        RefType::EntryProcessor => "EntryProcessor",
        RefType::CacheEntry => "Cache.Entry",
        RefType::IntArray => "int[]",
        RefType::LongArray => "long[]",
        RefType::ObjectArray => "Object[]",
    }
}

/// Returns the name of a type, or a dash for a local without a type.
fn type_name(t: JType) -> &'static str {
    match t {
        JType::Top => "-",
        JType::Int => "int",
        JType::Long => "long",
        JType::Null => "null",
        JType::Ref(named) => class_name(named),
    }
}

/// Writes a type after `count` types of a list.
fn put_next(text: &mut Text, count: usize, t: JType) {
    if count > 0 {
        text.put(", ");
    }
    text.put(if count < SHOWN { type_name(t) } else { ".." });
}

/// Returns the number of locals up to the last one that has a type.
fn used_locals(flow: &Flow, max: usize) -> usize {
    let mut used = 0;
    for n in 0..max {
        match flow.locals.get(n) {
            None | Some(JType::Top) => {}
            Some(_) => used = n + 1,
        }
    }
    used
}

/// Writes the types of the locals. A long is written once.
fn put_locals(text: &mut Text, flow: &Flow, max: usize) {
    let mut is_second = false;
    let mut count = 0usize;
    for n in 0..used_locals(flow, max) {
        let t = flow.locals.get(n).unwrap_or(JType::Top);
        if !is_second && count <= SHOWN {
            put_next(text, count, t);
            count += 1;
        }
        is_second = !is_second && t == JType::Long;
    }
    if count == 0 {
        text.put("none");
    }
}

/// Writes the types of the operand stack, the top last.
fn put_operands(text: &mut Text, flow: &Flow) {
    let count = flow.stack.len();
    if count == 0 {
        text.put("none");
    }
    for i in 0..count.min(SHOWN + 1) {
        let t = flow.stack.peek(count - 1 - i).unwrap_or(JType::Top);
        put_next(text, i, t);
    }
}

/// Returns the start of a method, or none if its descriptor isn't of the profile, or its parameters don't fit its locals.
fn start_of(
    alloc: Global,
    class: &ClassFile,
    number: usize,
    parts: &CodeParts,
) -> Result<Option<MethodStart>, AllocError> {
    let view = class.view();
    let Some(method) = view.method(number) else {
        return Ok(None);
    };
    let Some(signature) = method_signature(alloc, &view, &method)? else {
        return Ok(None);
    };
    Ok(MethodStart::new(Environment {
        signature,
        max_stack: parts.max_stack,
        max_locals: parts.max_locals,
    }))
}

/// Returns the callee of an instruction if it is a call.
fn callee_of(
    alloc: Global,
    view: &MemberView<'_>,
    instruction: &Instruction,
) -> Result<Option<Callee>, AllocError>
    ensures { IfOk result (IsCalleeOf view.now instruction.now) }
{
    match *instruction {
        Instruction::Invoke(kind, i) => callee_at(alloc, view, kind, i),
        _ => Ok(None),
    }
}

/// Returns the first frame of a method, and the frames that its `StackMapTable` declares.
fn frames_of(
    alloc: Global,
    class: &ClassFile,
    parts: &CodeParts,
    start: &MethodStart,
    code: &Code,
) -> Result<Frames, Refusal> {
    let attributes = parts.attributes.as_slice();
    let tables = contents_named(alloc, &class.pool, names::STACK_MAP_TABLE, attributes)?;
    read_frames(alloc, start, &tables, code, &class.view())
}

/// Replaces the flow by the declared frame if that is declared for this pc. Returns whether it is.
fn enter(
    alloc: Global,
    flow: &mut Flow,
    declared: Option<&Declared>,
    pc: usize,
) -> Result<bool, AllocError> {
    let Some(d) = declared else {
        return Ok(false);
    };
    if d.place != pc || d.row >= flow.locals.kept_len() {
        return Ok(false);
    }
    flow.stack = d.stack.copy(alloc)?;
    flow.locals.enter(d.row);
    Ok(true)
}

/// Replaces the flow before an instruction by the flow after it. Returns false if the instruction does not type check.
fn step(
    alloc: Global,
    start: &MethodStart,
    members: &MemberView<'_>,
    instruction: &Instruction,
    flow: &mut Flow,
) -> Result<bool, AllocError> {
    let callee = callee_of(alloc, members, instruction)?;
    apply(
        instruction,
        start.environment(),
        members,
        callee.as_ref(),
        flow,
    )
}

/// Advances the first flow of a method to the instruction at a pc. Returns false if no flow reaches it.
fn advance(
    alloc: Global,
    class: &ClassFile,
    start: &MethodStart,
    code: &[Placed],
    frames: &mut Frames,
    pc: usize,
) -> Result<bool, AllocError> {
    let members = MemberView::new(alloc, class)?;
    let mut next = 0usize;
    for p in code {
        if enter(alloc, &mut frames.first, frames.declared.get(next), p.place)? {
            next = next.saturating_add(1);
        }
        if p.place == pc {
            return Ok(true);
        }
        if !step(alloc, start, &members, &p.instruction, &mut frames.first)? {
            return Ok(false);
        }
    }
    Ok(false)
}

/// Writes two lines: the locals and the operands of a flow.
fn put_flow(text: &mut Text, flow: &Flow, max_locals: u16) {
    text.put("locals ");
    put_locals(text, flow, usize::from(max_locals));
    text.put("\noperands ");
    put_operands(text, flow);
    text.put("\n");
}

/// Writes the lines of the flow before the instruction at a pc if a flow reaches it.
fn put_flow_at(
    alloc: Global,
    text: &mut Text,
    class: &ClassFile,
    parts: &CodeParts,
    start: &MethodStart,
    pc: usize,
) {
    let Some(code) = text.accepted_value(decode(alloc, parts.code.as_slice(), &class.pool)) else {
        return;
    };
    let Some(mut frames) = text.accepted_value(frames_of(alloc, class, parts, start, &code)) else {
        return;
    };
    let leads = advance(alloc, class, start, code.as_slice(), &mut frames, pc);
    if let Some(true) = text.value_of(leads) {
        put_flow(text, &frames.first, parts.max_locals);
    }
}

/// Writes two lines, the locals and the operands before the instruction at a pc, if a flow reaches it.
pub fn put_frame(
    alloc: Global,
    text: &mut Text,
    class: &ClassFile,
    number: usize,
    parts: &CodeParts,
    pc: usize,
) {
    if let Some(Some(start)) = text.value_of(start_of(alloc, class, number, parts)) {
        put_flow_at(alloc, text, class, parts, &start, pc);
    }
}
