//! Constants of the constant pool as text.

use crate::bytes::put_text;
use crate::writer::Text;
use constpool::{Constant, Pool};

/// The form of a constant as text.
#[derive(Clone, Copy)]
enum Shown {
    Word(&'static str),
    /// A number, preceded by this word.
    Number(&'static str, i64),
    Utf8(u16),
    Quoted(u16),
    /// A name and a descriptor.
    Pair(u16),
    /// A member of a class: the class, the name and descriptor, and the text between these two.
    Member(u16, u16, &'static str),
}

fn put_utf8(text: &mut Text, pool: &Pool, i: u16) {
    put_text(text, pool.utf8(i).unwrap_or(&[]));
}

/// Writes the name of a class or an array type, in its internal form.
pub fn put_class(text: &mut Text, pool: &Pool, i: u16) {
    put_text(text, pool.class(i).unwrap_or(&[]));
}

/// Writes a name and a descriptor, separated by `between`.
fn put_pair(text: &mut Text, pool: &Pool, i: u16, between: &str) {
    if let Some(Constant::NameAndType(name, descriptor)) = pool.constant(i) {
        put_utf8(text, pool, *name);
        text.put(between);
        put_utf8(text, pool, *descriptor);
    }
}

/// Returns the form of the constant at this index of the constant pool.
fn shown_at(pool: &Pool, i: u16) -> Shown {
    let Some(constant) = pool.constant(i) else {
        return Shown::Number("#", i64::from(i));
    };
    match constant {
        Constant::Utf8(_) => Shown::Quoted(i),
        Constant::Integer(n) => Shown::Number("", i64::from(*n)),
        Constant::Long(n) => Shown::Number("", *n),
        Constant::Float(_) => Shown::Word("a float"),
        Constant::Double(_) => Shown::Word("a double"),
        Constant::Class(text) | Constant::MethodType(text) => Shown::Utf8(*text),
        Constant::String(content) => Shown::Quoted(*content),
        Constant::Fieldref(class, pair) => Shown::Member(*class, *pair, " "),
        Constant::Methodref(class, pair) | Constant::InterfaceMethodref(class, pair) => {
            Shown::Member(*class, *pair, "")
        }
        Constant::NameAndType(..) => Shown::Pair(i),
        Constant::MethodHandle(_, member) => Shown::Number("a handle of #", i64::from(*member)),
        Constant::InvokeDynamic(_, pair) => Shown::Pair(*pair),
    }
}

/// Writes the constant at this index of the constant pool.
pub fn put_constant(text: &mut Text, pool: &Pool, i: u16) {
    match shown_at(pool, i) {
        Shown::Word(word) => text.put(word),
        Shown::Number(before, n) => text.put_value(before, n),
        Shown::Utf8(i) => put_utf8(text, pool, i),
        Shown::Quoted(i) => {
            text.put("\"");
            put_utf8(text, pool, i);
            text.put("\"");
        }
        Shown::Pair(i) => put_pair(text, pool, i, ""),
        Shown::Member(class, pair, between) => {
            put_class(text, pool, class);
            text.put(".");
            put_pair(text, pool, pair, between);
        }
    }
}
