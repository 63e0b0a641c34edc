// Sections: a line of a word, a blank and the number of the bytes of what is given to it, and then those bytes.
use std::alloc::Global;

/// A section and what is behind it.
#[derive(Clone, Copy)]
pub struct Section<'a> {
    pub word: &'a [u8],
    pub given: &'a [u8],
    pub rest: &'a [u8],
}

/// The line of a number.
pub fn number_line(alloc: Global, number: u64) -> Option<Vec<u8>> {
    let line = format!(in alloc; "{number}\n").ok()?;
    Some(line.into_bytes())
}

/// The number that some digits spell.
pub fn number_of(digits: &[u8]) -> u64 {
    let mut number: u64 = 0;
    for digit in digits {
        number = number
            .saturating_mul(10)
            .saturating_add(u64::from(digit.saturating_sub(b'0')));
    }
    number
}

/// The first section; None where none is whole.
pub fn next_section<'a>(input: &'a [u8]) -> Option<Section<'a>> {
    let end = input.iter().position(|byte| *byte == b'\n')?;
    let line = &input[..end];
    let behind = &input[end + 1..];
    let blank = line.iter().position(|byte| *byte == b' ')?;
    let count = number_of(&line[blank + 1..]) as usize;
    if count > behind.len() {
        return None;
    }
    let (given, rest) = behind.split_at(count);
    Some(Section {
        word: &line[..blank],
        given,
        rest,
    })
}
