// What a line takes, and what it prints.
use bstr::{ByteSlice, ByteVec};
use mtn_base::Bytes;
use std::alloc::Global;
use std::io;

/// The bytes that are spelled, or None.
pub fn plain(alloc: Global, text: &[u8]) -> Option<Vec<u8>> {
    let text = std::str::from_utf8(text).ok()?;
    Vec::unescape_bytes(alloc, text).ok()
}

/// The fields between blanks, each without its escapes.
pub fn fields(alloc: Global, text: &[u8]) -> Option<Vec<Bytes>> {
    let mut all = Vec::new(alloc);
    for field in text.split(|byte| *byte == b' ') {
        all.push(Bytes::from_vec(plain(alloc, field)?)).ok()?;
    }
    Some(all)
}

fn escape_byte(byte: u8, out: &mut Vec<u8>) -> io::Result<()> {
    for letter in [byte].as_slice().escape_bytes() {
        out.push_char(letter)?;
    }
    Ok(())
}

/// Spells bytes; a blank stands for itself.
pub fn escape(text: &[u8], out: &mut Vec<u8>) -> io::Result<()> {
    for byte in text {
        if *byte == b' ' {
            out.push(b' ')?;
        } else {
            escape_byte(*byte, out)?;
        }
    }
    Ok(())
}

/// A decimal number.
pub fn number(text: &[u8]) -> Option<u64> {
    std::str::from_utf8(text).ok()?.parse::<u64>().ok()
}

/// A decimal number of bytes, or of pieces.
pub fn size(text: &[u8]) -> Option<usize> {
    usize::try_from(number(text)?).ok()
}
