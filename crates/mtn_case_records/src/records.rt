// Records of tables 4 and 5 under their positions.
use crate::text::{first_word, number_of, put_hex, put_number};
use mtn_ancestry::Pos;
use mtn_records::{
    RecordError, is_record_at, one_record, read_log, read_roster, write_log, write_roster,
};
use std::alloc::Global;

fn bad(out: &mut Vec<u8>) -> Option<()> {
    out.extend_from_slice(b"Bad").ok()
}

// A roster's record, written again.
fn roster(alloc: Global, at: Pos, body: &[u8], out: &mut Vec<u8>) -> Option<()> {
    let mut again = Vec::new(alloc);
    match read_roster(alloc, at, body) {
        Ok(record) => {
            write_roster(&record, &mut again).ok()?;
            put_hex(&again, out)
        }
        Err(RecordError::Bad) => bad(out),
        Err(RecordError::NoMemory) => None,
    }
}

// A record of the log, written again.
fn log(alloc: Global, at: Pos, body: &[u8], out: &mut Vec<u8>) -> Option<()> {
    let mut again = Vec::new(alloc);
    match read_log(at, body) {
        Ok(record) => {
            write_log(&record, &mut again).ok()?;
            put_hex(&again, out)
        }
        Err(RecordError::Bad) => bad(out),
        Err(RecordError::NoMemory) => None,
    }
}

// Whether a roster's record can stand under another position.
fn fits(alloc: Global, at: Pos, body: &[u8], key: &[u8], out: &mut Vec<u8>) -> Option<()> {
    let record = read_roster(alloc, at, body).ok()?;
    let fits = is_record_at(&record, Pos(number_of(key)?));
    out.extend_from_slice(if fits { b"fits" } else { b"does not fit" })
        .ok()
}

// Whether bytes are a record of either kind.
fn is_read(alloc: Global, at: Pos, body: &[u8]) -> bool {
    read_roster(alloc, at, body).is_ok() || read_log(at, body).is_ok()
}

// How many of the proper fronts of a body, and of it with a byte 0 behind, are a record of either kind.
fn fronts(alloc: Global, at: Pos, body: &[u8], out: &mut Vec<u8>) -> Option<()> {
    one_record();
    let mut count: u64 = 0;
    for end in 0..body.len() {
        if is_read(alloc, at, &body[..end]) {
            count = count.saturating_add(1);
        }
    }
    let mut longer = body.to_vec(alloc).ok()?;
    longer.push(0).ok()?;
    if is_read(alloc, at, &longer) {
        count = count.saturating_add(1);
    }
    put_number(alloc, count, out)
}

/// What a word answers of a body under a position.
pub fn answer(alloc: Global, word: &str, rest: &[u8], out: &mut Vec<u8>) -> Option<()> {
    let (at, rest) = first_word(rest);
    let (digits, key) = first_word(rest);
    let at = Pos(number_of(at)?);
    let body = hex::decode(alloc, digits).ok()?;
    match word {
        "roster" => roster(alloc, at, &body, out),
        "log" => log(alloc, at, &body, out),
        "fits" => fits(alloc, at, &body, key, out),
        _ => fronts(alloc, at, &body, out),
    }
}
