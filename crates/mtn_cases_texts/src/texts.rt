// Texts of stanzas.
use crate::said::Said;
use mtn_base::{Bytes, Id};
use mtn_basic_io::{Line, ReadError, Stanza, Value, read, read_back, write};
use std::alloc::Global;

fn put_fault(alloc: Global, error: ReadError, said: &mut Said) {
    match error {
        ReadError::NotText { offset } => said.put_number(alloc, offset),
        ReadError::NoMemory => said.is_whole = false,
    }
}

/// Writes stanzas.
pub fn put_stanzas(stanzas: &[Stanza], said: &mut Said) {
    let done = write(stanzas, &mut said.text);
    said.keep(done);
}

/// `stanzas TEXT`: the stanzas written again, or the offset of the fault.
pub fn stanzas(alloc: Global, text: &[u8], said: &mut Said) {
    match read(alloc, text) {
        Ok(stanzas) => put_stanzas(&stanzas, said),
        Err(error) => put_fault(alloc, error, said),
    }
}

fn line(alloc: Global, text: &[u8], id: Id) -> Option<Line> {
    let mut line = Line::new(alloc, b"to", Value::text(alloc, text).ok()?).ok()?;
    line.push(Value::Hex(Some(id))).ok()?;
    Some(line)
}

// A stanza of a line and the empty id.
fn below(alloc: Global, line: Line) -> Option<Stanza> {
    let mut stanza = Stanza::new(alloc, line).ok()?;
    let last = Line::new(alloc, b"none", Value::Hex(None)).ok()?;
    stanza.push(last).ok()?;
    Some(stanza)
}

fn put_twice(alloc: Global, stanza: Stanza, said: &mut Said) -> Option<()> {
    let copy = stanza.copy(alloc).ok()?;
    put_stanzas(&read_back(alloc, &[stanza, copy]).ok()?, said);
    Some(())
}

/// `example TEXT ID`: a stanza of a text, an id and the empty id, and a copy of it, written, read, and written.
pub fn twice(alloc: Global, args: &[Bytes], said: &mut Said) -> Option<()> {
    let [text, id] = args else {
        return None;
    };
    let line = line(alloc, text.as_slice(), Id::read_hex(id.as_slice())?)?;
    put_twice(alloc, below(alloc, line)?, said)
}
