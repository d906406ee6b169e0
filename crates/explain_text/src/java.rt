//! Types and methods in the syntax of Java source.

use crate::bytes::put_text;
use crate::writer::Text;
use classfile::{ClassFile, Member};
use constpool::{names, same_bytes};

/// ACC_VARARGS (JVMS §4.6).
const VARARGS: u16 = 0x0080;

/// The maximum number of parameters that are shown.
const SHOWN: u32 = 64;

/// Returns the bytes after the last occurrence of `byte`, or the whole name without one.
fn after_last(name: &[u8], byte: u8) -> &[u8] {
    let mut rest = name;
    for (at, b) in name.iter().enumerate() {
        if *b == byte {
            rest = &name[at + 1..];
        }
    }
    rest
}

/// Returns the bytes before and after the first occurrence of `byte`, or none without one.
fn split_at_first(bytes: &[u8], byte: u8) -> Option<(&[u8], &[u8])> {
    for (at, b) in bytes.iter().enumerate() {
        if *b == byte {
            return Some((&bytes[..at], &bytes[at + 1..]));
        }
    }
    None
}

/// Writes the simple name of a class, after those of its enclosing classes.
pub fn put_simple(text: &mut Text, name: &[u8]) {
    let mut rest = after_last(name, b'/');
    for _ in 0..name.len() {
        match split_at_first(rest, b'$') {
            Some((front, back)) if !front.is_empty() && !back.is_empty() => {
                put_text(text, front);
                text.put(".");
                rest = back;
            }
            _ => break,
        }
    }
    put_text(text, rest);
}

fn primitive(tag: u8) -> Option<&'static str> {
    match tag {
        b'B' => Some("byte"),
        b'C' => Some("char"),
        b'D' => Some("double"),
        b'F' => Some("float"),
        b'I' => Some("int"),
        b'J' => Some("long"),
        b'S' => Some("short"),
        b'Z' => Some("boolean"),
        b'V' => Some("void"),
        _ => None,
    }
}

/// Writes the type that a descriptor begins with, not an array type, and returns the rest. Returns none if it begins with no such type.
fn put_element<'a>(text: &mut Text, bytes: &'a [u8]) -> Option<&'a [u8]> {
    let [tag, rest @ ..] = bytes else {
        return None;
    };
    if let Some(name) = primitive(*tag) {
        text.put(name);
        return Some(rest);
    }
    if *tag != b'L' {
        return None;
    }
    match split_at_first(rest, b';') {
        Some((name, rest)) => {
            put_simple(text, name);
            Some(rest)
        }
        None => None,
    }
}

/// Returns the number of leading `[` bytes, and the bytes after them.
fn dimensions(bytes: &[u8]) -> (usize, &[u8]) {
    for (at, b) in bytes.iter().enumerate() {
        if *b != b'[' {
            return (at, &bytes[at..]);
        }
    }
    (bytes.len(), &[])
}

/// Writes the type that a descriptor begins with (JVMS §4.3.2), and returns the rest. With `dots` the last brackets are dots.
fn put_type<'a>(text: &mut Text, bytes: &'a [u8], dots: bool) -> Option<&'a [u8]> {
    let (count, element) = dimensions(bytes);
    let Some(rest) = put_element(text, element) else {
        return None;
    };
    for _ in 1..count {
        text.put("[]");
    }
    if count > 0 {
        text.put(if dots { "..." } else { "[]" });
    }
    Some(rest)
}

/// Returns whether the first type of these parameters is the last one.
fn is_last(bytes: &[u8]) -> bool {
    match dimensions(bytes).1 {
        [b'L', name @ ..] => matches!(split_at_first(name, b';'), Some((_, [b')', ..]))),
        [_, b')', ..] => true,
        _ => false,
    }
}

/// Writes a parameter after `others` parameters, and returns the rest. Returns none if the bytes begin with no type.
fn put_parameter<'a>(
    text: &mut Text,
    bytes: &'a [u8],
    others: u32,
    has_dots: bool,
) -> Option<&'a [u8]> {
    if others > 0 {
        text.put(", ");
    }
    put_type(text, bytes, has_dots && is_last(bytes))
}

/// Writes the parameters of a method descriptor after its opening parenthesis. Returns false if they are malformed.
fn put_list(text: &mut Text, bytes: &[u8], has_dots: bool) -> bool {
    let mut rest = bytes;
    for count in 0..SHOWN {
        if let [b')', ..] = rest {
            text.put(")");
            return true;
        }
        match put_parameter(text, rest, count, has_dots) {
            Some(next) => rest = next,
            None => return false,
        }
    }
    text.put(if let [b')', ..] = rest { ")" } else { ", ..)" });
    true
}

/// Writes the parameters of a method descriptor (JVMS §4.3.3), in parentheses. Returns false if they are malformed.
fn put_parameters(text: &mut Text, descriptor: &[u8], has_dots: bool) -> bool {
    match descriptor {
        [b'(', rest @ ..] => {
            text.put("(");
            put_list(text, rest, has_dots)
        }
        _ => false,
    }
}

/// Writes the return type of a method descriptor, and a space.
fn put_result(text: &mut Text, descriptor: &[u8]) {
    let result = after_last(descriptor, b')');
    if result.len() < descriptor.len() && put_type(text, result, false).is_some() {
        text.put(" ");
    }
}

/// Writes the return type and the name of a method, or for a constructor the name of its class.
fn put_head(text: &mut Text, class: &ClassFile, name: &[u8], descriptor: &[u8]) {
    if same_bytes(name, names::INIT) {
        put_simple(text, class.view().name());
    } else {
        put_result(text, descriptor);
        put_text(text, name);
    }
}

/// Writes the return type, the name and the parameters of a method. Malformed parameters are replaced by the descriptor.
pub fn put_method(text: &mut Text, class: &ClassFile, method: &Member) {
    let name = class.method_name(method);
    if same_bytes(name, names::CLINIT) {
        text.put("static {}");
        return;
    }
    let descriptor = class.method_descriptor(method);
    put_head(text, class, name, descriptor);
    if !put_parameters(text, descriptor, method.flags / VARARGS % 2 == 1) {
        text.put(" ");
        put_text(text, descriptor);
    }
}
