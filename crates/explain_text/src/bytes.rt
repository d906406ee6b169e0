//! Escaping of text from untrusted class files, for output on a terminal.

use crate::writer::Text;

/// The number of bytes after which a text is cut.
const SHOWN: usize = 200;

/// Writes a UTF-16 code unit: printable ASCII except the backslash unchanged, any other as a Unicode escape (JLS §3.3).
fn put_unit(text: &mut Text, unit: u16) {
    match u8::try_from(unit) {
        Ok(byte @ (0x20..=0x5B | 0x5D..=0x7E)) => text.put_value("", char::from(byte)),
        _ => text.put_value("\\u", format_args!("{unit:04x}")),
    }
}

/// Returns the code unit that the bytes begin with, and its length in bytes (JVMS §4.4.7), or none if they begin with no unit.
fn unit_of(bytes: &[u8]) -> Option<(u16, usize)> {
    match bytes {
        [a, ..] if *a < 0x80 => Some((u16::from(*a), 1)),
        [a, b, ..] if *a / 32 == 6 && *b / 64 == 2 => {
            Some((u16::from(*a % 32) * 64 + u16::from(*b % 64), 2))
        }
        [a, b, c, ..] if *a / 16 == 14 && *b / 64 == 2 && *c / 64 == 2 => {
            let high = u16::from(*a % 16) * 4096;
            Some((high + u16::from(*b % 64) * 64 + u16::from(*c % 64), 3))
        }
        _ => None,
    }
}

/// Writes the code unit that the bytes begin with, or the first byte in hexadecimal. Returns the number of bytes consumed.
fn put_front(text: &mut Text, bytes: &[u8]) -> usize {
    if let Some((unit, takes)) = unit_of(bytes) {
        put_unit(text, unit);
        return takes;
    }
    if let Some(byte) = bytes.first() {
        text.put_value("\\x", format_args!("{byte:02x}"));
    }
    1
}

/// Writes a text of a class file. A long text is cut and followed by `..`.
pub fn put_text(text: &mut Text, bytes: &[u8]) {
    let shown = bytes.len().min(SHOWN);
    let mut at = 0usize;
    for _ in 0..shown {
        if at >= shown {
            break;
        }
        at = at.saturating_add(put_front(text, &bytes[at..]));
    }
    if at < bytes.len() {
        text.put("..");
    }
}
