// Bytes in Rust's escapes.
use crate::said::Said;
use std::alloc::Global;

fn digit(byte: u8) -> Option<u8> {
    match byte {
        b'0'..=b'9' => Some(byte - b'0'),
        b'a'..=b'f' => Some(byte - b'a' + 10),
        _ => None,
    }
}

fn two_digits(first: u8, second: u8) -> Option<u8> {
    Some((digit(first)? << 4) | digit(second)?)
}

// The byte of an escape, and how long its spelling is behind the backslash.
fn escaped(spelling: &[u8]) -> Option<(u8, usize)> {
    match spelling {
        [b'n', ..] => Some((b'\n', 1)),
        [b'x', first, second, ..] => Some((two_digits(*first, *second)?, 3)),
        [b'x', ..] => None,
        [other, ..] => Some((*other, 1)),
        [] => None,
    }
}

/// The bytes that are spelled, or None.
pub fn plain(alloc: Global, text: &[u8]) -> Option<Vec<u8>> {
    let mut out = Vec::new(alloc);
    let mut rest = text;
    for _ in 0..text.len() {
        let [byte, behind @ ..] = rest else {
            break;
        };
        let (byte, count) = match *byte {
            b'\\' => escaped(behind)?,
            byte => (byte, 0),
        };
        out.push(byte).ok()?;
        rest = behind.get(count..)?;
    }
    Some(out)
}

fn hex_digit(value: u8) -> u8 {
    if value < 10 {
        b'0'.saturating_add(value)
    } else {
        b'a'.saturating_add(value - 10)
    }
}

fn escape_byte(byte: u8, out: &mut Said) {
    match byte {
        b'\n' => out.put(b"\\n"),
        b'\\' => out.put(b"\\\\"),
        b' '..=b'~' => out.put(&[byte]),
        _ => out.put(&[b'\\', b'x', hex_digit(byte >> 4), hex_digit(byte & 15)]),
    }
}

/// Spells bytes.
pub fn escape(text: &[u8], out: &mut Said) {
    for byte in text {
        escape_byte(*byte, out);
    }
}
