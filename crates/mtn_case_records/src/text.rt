// Texts in escapes (`\n` a line's end, `\s` a blank, `\\` a backslash, `\xff` a byte), digits, numbers.
use mtn_base::{Bytes, List};
use std::alloc::Global;

/// A word, and what stands behind the blank behind it.
pub fn first_word<'a>(line: &'a [u8]) -> (&'a [u8], &'a [u8]) {
    match line.iter().position(|byte| *byte == b' ') {
        Some(at) => (&line[..at], &line[at + 1..]),
        None => (line, &[]),
    }
}

/// The number of some digits.
pub fn number_of(digits: &[u8]) -> Option<u64> {
    str::from_utf8(digits).ok()?.parse::<u64>().ok()
}

/// The numbers that single blanks part; none of an empty text.
pub fn numbers_of(alloc: Global, text: &[u8]) -> Option<Vec<u64>> {
    let mut numbers = Vec::new(alloc);
    if !text.is_empty() {
        for digits in text.split(|byte| *byte == b' ') {
            numbers.push(number_of(digits)?).ok()?;
        }
    }
    Some(numbers)
}

// The byte of two hexadecimal digits.
fn byte_of(digits: &[u8]) -> Option<u8> {
    let mut byte = [0];
    hex::decode_to_slice(digits, &mut byte).ok()?;
    Some(byte[0])
}

// The byte of an escape, and how long its spelling is behind the backslash.
fn escape(spelling: &[u8]) -> Option<(u8, usize)> {
    match spelling {
        [b'n', ..] => Some((b'\n', 1)),
        [b's', ..] => Some((b' ', 1)),
        [b'\\', ..] => Some((b'\\', 1)),
        [b'x', first, second, ..] => Some((byte_of(&[*first, *second])?, 3)),
        _ => None,
    }
}

/// The bytes that a text spells; None where it spells none.
pub fn plain(alloc: Global, text: &[u8]) -> Option<Vec<u8>> {
    let mut out = Vec::new(alloc);
    let mut rest = text;
    for _ in 0..text.len() {
        let [byte, behind @ ..] = rest else {
            break;
        };
        if *byte == b'\\' {
            let (byte, count) = escape(behind)?;
            out.push(byte).ok()?;
            rest = behind.get(count..)?;
        } else {
            out.push(*byte).ok()?;
            rest = behind;
        }
    }
    Some(out)
}

/// The words that single blanks part, each in escapes; none of an empty text.
pub fn words_of(alloc: Global, text: &[u8]) -> Option<List<Bytes>> {
    let mut words = List::new(alloc);
    if !text.is_empty() {
        for word in text.split(|byte| *byte == b' ') {
            words.push(List::from_vec(plain(alloc, word)?)).ok()?;
        }
    }
    Some(words)
}

/// Appends bytes in escapes; blanks stand as they are.
pub fn put_escaped(bytes: &[u8], out: &mut Vec<u8>) -> Option<()> {
    for byte in bytes {
        match byte {
            b'\n' => out.extend_from_slice(b"\\n").ok()?,
            b'\\' => out.extend_from_slice(b"\\\\").ok()?,
            b' '..=b'~' => out.push(*byte).ok()?,
            _ => {
                out.extend_from_slice(b"\\x").ok()?;
                put_hex(&[*byte], out)?;
            }
        }
    }
    Some(())
}

/// Appends bytes as hexadecimal digits.
pub fn put_hex(bytes: &[u8], out: &mut Vec<u8>) -> Option<()> {
    for byte in bytes {
        let mut digits = [0; 2];
        hex::encode_to_slice(&[*byte], &mut digits).ok()?;
        out.extend_from_slice(&digits).ok()?;
    }
    Some(())
}

/// Appends a number in decimal.
pub fn put_number(alloc: Global, number: u64, out: &mut Vec<u8>) -> Option<()> {
    out.extend_from_slice(number.to_string(alloc).ok()?.as_bytes())
        .ok()
}
