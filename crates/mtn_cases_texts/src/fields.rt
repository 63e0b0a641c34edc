// What a line takes.
use crate::escapes::plain;
use mtn_base::Bytes;
use std::alloc::Global;

/// The fields between separators, each without its escapes.
pub fn fields(alloc: Global, text: &[u8], separator: u8) -> Option<Vec<Bytes>> {
    let mut all = Vec::new(alloc);
    for field in text.split(|byte| *byte == separator) {
        all.push(Bytes::from_vec(plain(alloc, field)?)).ok()?;
    }
    Some(all)
}

/// A decimal number.
pub fn number(text: &[u8]) -> Option<u64> {
    std::str::from_utf8(text).ok()?.parse::<u64>().ok()
}

/// Decimal numbers between commas; none where it is `-`.
pub fn numbers(alloc: Global, text: &[u8]) -> Option<Vec<u64>> {
    let mut all = Vec::new(alloc);
    if text == b"-".as_slice() {
        return Some(all);
    }
    for field in text.split(|byte| *byte == b',') {
        all.push(number(field)?).ok()?;
    }
    Some(all)
}
