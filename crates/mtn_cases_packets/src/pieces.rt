// Ids and inputs in pieces.
use crate::inputs::put_read;
use crate::said::Said;
use crate::words::{number, size};
use mtn_base::{Bytes, NoMemory};
use mtn_pieces::{FreeGate, Sha1Many, read_in_pieces};
use mtn_ports::Ident;
use std::alloc::Global;
use std::thread::Threads;

/// `ids PIECES TEXT..`: the number of texts, and their ids, hashed in so many pieces.
pub fn ids<R: Threads + Sync>(
    rt: &R,
    alloc: Global,
    args: &[Bytes],
    said: &mut Said,
) -> Option<()> {
    let [pieces, texts @ ..] = args else {
        return None;
    };
    let ident = Sha1Many::new(FreeGate, size(pieces.as_slice())?);
    let ids = ident.ids(rt, alloc, texts).ok()?;
    said.put_number(alloc, ids.len() as u64);
    for id in &ids {
        said.put_id(id);
    }
    Some(())
}

// The texts in a row, with so many blanks behind each.
fn input(alloc: Global, blanks: u64, texts: &[Bytes]) -> Result<Vec<u8>, NoMemory> {
    let mut text = Vec::new(alloc);
    for one in texts {
        text.extend_from_slice(one.as_slice())?;
        for _ in 0..blanks {
            text.push(b' ')?;
        }
    }
    Ok(text)
}

/// `pieces PIECES BLANKS TEXT..`: what the texts in a row, with so many blanks behind each, are read as in so many pieces. With
/// 20,000 blanks each text is long enough for a piece of its own.
pub fn read<R: Threads + Sync>(
    rt: &R,
    alloc: Global,
    args: &[Bytes],
    said: &mut Said,
) -> Option<()> {
    let [pieces, blanks, texts @ ..] = args else {
        return None;
    };
    let text = input(alloc, number(blanks.as_slice())?, texts).ok()?;
    let read = read_in_pieces(rt, alloc, size(pieces.as_slice())?, &text);
    put_read(alloc, read, said);
    Some(())
}
