//! The report on a class.

use crate::advice::advice;
use crate::constants::put_class;
use crate::frame::put_frame;
use crate::instruction::put_instruction;
use crate::java::put_method;
use crate::lines::line_of;
use crate::locations::{bad_entry_of, code_of, shown_location};
use crate::table::UnknownType;
use crate::writer::Text;
use classfile::{ClassFile, CodeParts, Member, read_class};
use explain::{Explained, MethodCost, OwnCall};
use jtypes::Refusal;
use std::alloc::{AllocError, Global};
use verdict::{Located, Spot};

/// Writes the line `line ..` if the class file has the source line of the pc.
fn put_source_line(
    alloc: Global,
    text: &mut Text,
    class: &ClassFile,
    parts: &CodeParts,
    pc: usize,
) {
    if let Some(Some(line)) = text.value_of(line_of(alloc, class, parts, pc)) {
        text.put_value("line ", line);
        text.put("\n");
    }
}

/// Writes the line `instruction ..`: the pc, the mnemonic and the operands.
fn put_instruction_line(text: &mut Text, class: &ClassFile, parts: &CodeParts, pc: usize) {
    text.put_value("instruction ", pc);
    text.put(" ");
    put_instruction(text, &class.pool, parts.code.as_slice(), pc);
    text.put("\n");
}

/// Writes the first type of a frame that is outside the profile, if there is one.
fn put_unknown_type(alloc: Global, text: &mut Text, class: &ClassFile, parts: &CodeParts) {
    let Some(Some(entry)) = text.value_of(bad_entry_of(alloc, class, parts)) else {
        return;
    };
    text.put("unknown type ");
    match entry.unknown {
        UnknownType::Class(i) => put_class(text, &class.pool, i),
        UnknownType::Float => text.put("float"),
        UnknownType::Double => text.put("double"),
        UnknownType::Uninitialised => text.put("an object that isn't initialised"),
    }
    text.put("\n");
}

/// Returns the number of the method of a refusal, or none if it is of the class as a whole.
fn number_of(spot: Spot) -> Option<usize> {
    match spot {
        Spot::Whole => None,
        Spot::InMethod(number) => Some(number),
        Spot::AtInstruction { method, place: _ } => Some(method),
    }
}

/// Writes the types at a pc if the refusal is about them.
fn put_types(
    alloc: Global,
    text: &mut Text,
    class: &ClassFile,
    parts: &CodeParts,
    located: Located,
    pc: usize,
) {
    match (located.refusal, number_of(located.spot)) {
        (Refusal::TypeMismatch(_), Some(number)) => {
            put_frame(alloc, text, class, number, parts, pc)
        }
        (Refusal::BadStackMap, _) => put_unknown_type(alloc, text, class, parts),
        _ => {}
    }
}

/// Writes the location of a refusal in a method's code: the source line, the instruction and the types.
fn put_code_location(
    alloc: Global,
    text: &mut Text,
    class: &ClassFile,
    method: &Member,
    parts: &CodeParts,
    located: Located,
) {
    if let Some(at) = text.value_of(shown_location(alloc, class, method, parts, located)) {
        put_source_line(alloc, text, class, parts, at.pc);
        if at.is_instruction {
            put_instruction_line(text, class, parts, at.pc);
        }
        put_types(alloc, text, class, parts, located, at.pc);
    }
}

/// Writes the method of a refusal, and the lines of its location.
fn put_method_location(
    alloc: Global,
    text: &mut Text,
    class: &ClassFile,
    method: &Member,
    located: Located,
) {
    text.put("method ");
    put_method(text, class, method);
    text.put("\n");
    if let Some(Some(parts)) = text.value_of(code_of(alloc, class, method)) {
        put_code_location(alloc, text, class, method, &parts, located);
    }
}

/// Writes the method and the location of a refusal if it is in a method.
fn put_location(alloc: Global, text: &mut Text, class: &ClassFile, located: Located) {
    if let Some(number) = number_of(located.spot) {
        if let Some(method) = class.parts.methods.as_slice().get(number) {
            put_method_location(alloc, text, class, method, located);
        }
    }
}

/// Writes the calls of a cycle, each with its method, its source line and its instruction.
fn put_cycle(alloc: Global, text: &mut Text, class: &ClassFile, calls: &[OwnCall]) {
    for call in calls {
        let at = Located {
            refusal: Refusal::Recursive,
            spot: Spot::AtInstruction {
                method: call.method,
                place: call.place,
            },
        };
        put_location(alloc, text, class, at);
    }
}

/// Writes bounds or costs: steps, array words, slots and nested activations.
pub fn put_cost(text: &mut Text, steps: u32, words: u32, slots: u32, depth: u32) {
    text.put_value("steps=", steps);
    text.put_value(" words=", words);
    text.put_value(" slots=", slots);
    text.put_value(" depth=", depth);
    text.put("\n");
}

/// Writes the costs of the methods, one line each.
fn put_costs(text: &mut Text, class: &ClassFile, methods: &[MethodCost]) {
    for of in methods {
        if let Some(method) = class.parts.methods.as_slice().get(of.number) {
            text.put("method ");
            put_method(text, class, method);
            text.put(" ");
            let cost = of.cost;
            put_cost(text, cost.steps, cost.words, cost.slots, cost.depth);
        }
    }
}

/// Writes the details of an explanation. The layout of the class file is readable.
fn put_details(alloc: Global, text: &mut Text, class: &ClassFile, explained: &Explained) {
    match explained {
        Explained::Accepted { bounds: _, methods } => put_costs(text, class, methods),
        Explained::Refused(located) => put_location(alloc, text, class, *located),
        Explained::Recursive(calls) => put_cycle(alloc, text, class, calls),
        Explained::PastLimit {
            refusal: _,
            methods,
        } => put_costs(text, class, methods),
    }
}

/// Returns the refusal of an explanation, or none if the class is accepted.
pub fn refusal_of(explained: &Explained) -> Option<Refusal> {
    match explained {
        Explained::Accepted { .. } => None,
        Explained::Refused(located) => Some(located.refusal),
        Explained::Recursive(_) => Some(Refusal::Recursive),
        Explained::PastLimit { refusal, .. } => Some(*refusal),
    }
}

/// Writes what to write instead of the refused code.
fn put_advice(text: &mut Text, explained: &Explained) {
    if let Some(refusal) = refusal_of(explained) {
        text.put(advice(refusal));
        text.put("\n");
    }
}

/// Writes the lines of `report`.
pub fn put_report(alloc: Global, text: &mut Text, bytes: &[u8], explained: &Explained) {
    if let Some(class) = text.accepted_value(read_class(alloc, bytes)) {
        put_details(alloc, text, &class, explained);
    }
    put_advice(text, explained);
}

/// Returns the lines of an explanation after the verdict.
/// An accepted class, and one that exceeds a limit, has the costs of its methods, any other the location of the refusal.
/// A refused class also has the advice on what to write instead.
pub fn report(alloc: Global, bytes: &[u8], explained: &Explained) -> Result<String, AllocError> {
    let mut text = Text::new(alloc);
    put_report(alloc, &mut text, bytes, explained);
    text.finish()
}
