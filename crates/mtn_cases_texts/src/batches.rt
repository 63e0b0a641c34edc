// Batches.
use crate::fields::{fields, number};
use crate::said::Said;
use mtn_base::Bytes;
use mtn_ports::Batch;
use std::alloc::Global;
use std::mem;

/// The table of a number.
pub fn table_of(text: &[u8]) -> Option<u8> {
    u8::try_from(number(text)?).ok()
}

/// Puts a record whose key is not empty.
pub fn put(batch: &mut Batch, table: &[u8], key: &[u8], body: &[u8]) -> Option<()> {
    if key.is_empty() {
        return None;
    }
    batch.put(table_of(table)?, key, body).ok()
}

fn cut(batch: &mut Batch, text: &[u8]) -> Option<()> {
    let len = number(text)? as usize;
    if len > batch.len() {
        return None;
    }
    batch.cut(len);
    Some(())
}

// Puts the records of the other batch, which has none then.
fn append(alloc: Global, batch: &mut Batch, other: &mut Batch) -> Option<()> {
    batch.append(mem::replace(other, Batch::new(alloc))).ok()
}

// A copy stands in the batch's place.
fn copy(batch: &mut Batch) -> Option<()> {
    *batch = batch.copy().ok()?;
    Some(())
}

// The key at a place.
fn put_at(batch: &Batch, text: &[u8], said: &mut Said) -> Option<()> {
    match batch.at(number(text)? as usize) {
        Some(put) => said.put(put.key.as_slice()),
        None => said.put(b"None"),
    }
    Some(())
}

// A step without arguments.
fn bare(
    alloc: Global,
    batch: &mut Batch,
    other: &mut Batch,
    word: &str,
    said: &mut Said,
) -> Option<()> {
    match word {
        "append" => append(alloc, batch, other),
        "copy" => copy(batch),
        "len" => {
            said.put_number(alloc, batch.len() as u64);
            Some(())
        }
        _ => None,
    }
}

// A step with a number.
fn counted(batch: &mut Batch, word: &str, number: &[u8], said: &mut Said) -> Option<()> {
    match word {
        "cut" => cut(batch, number),
        "at" => put_at(batch, number, said),
        _ => None,
    }
}

// A step with a table and a key.
fn keyed(batch: &Batch, word: &str, table: &[u8], key: &[u8], said: &mut Said) -> Option<()> {
    let table = table_of(table)?;
    match word {
        "find" => said.put_found(batch.find(table, key)),
        "least" => said.put_found(batch.least_above(table, key).ok()?),
        _ => return None,
    }
    Some(())
}

// A step with a record.
fn puts(batch: &mut Batch, other: &mut Batch, word: &str, record: &[Bytes]) -> Option<()> {
    let [table, key, body] = record else {
        return None;
    };
    match word {
        "put" => put(batch, table.as_slice(), key.as_slice(), body.as_slice()),
        "also" => put(other, table.as_slice(), key.as_slice(), body.as_slice()),
        _ => None,
    }
}

fn step(
    alloc: Global,
    batch: &mut Batch,
    other: &mut Batch,
    step: &[Bytes],
    said: &mut Said,
) -> Option<()> {
    let (word, args) = step.split_first()?;
    let word = str::from_utf8(word.as_slice()).ok()?;
    match args {
        [] => bare(alloc, batch, other, word, said),
        [number] => counted(batch, word, number.as_slice(), said),
        [table, key] => keyed(batch, word, table.as_slice(), key.as_slice(), said),
        record => puts(batch, other, word, record),
    }
}

// A step, and a blank behind its answer.
fn put_step(
    alloc: Global,
    batch: &mut Batch,
    other: &mut Batch,
    text: &Bytes,
    said: &mut Said,
) -> Option<()> {
    let words = fields(alloc, text.as_slice(), b':')?;
    step(alloc, batch, other, &words, said)?;
    said.put(b" ");
    Some(())
}

/// `batch STEP..`, with colons between the words of a step: `put:TABLE:KEY:BODY`, `also:..` into another batch, `append` of
/// that one, which has no records then, `copy`, where a copy goes on, `cut:LEN`, `len`, `at:PLACE`, `find:TABLE:KEY`,
/// `least:TABLE:AFTER`. A blank stands behind each answer.
pub fn batch(alloc: Global, steps: &[Bytes], said: &mut Said) -> Option<()> {
    let mut batch = Batch::new(alloc);
    let mut other = Batch::new(alloc);
    for text in steps {
        put_step(alloc, &mut batch, &mut other, text, said)?;
    }
    Some(())
}
