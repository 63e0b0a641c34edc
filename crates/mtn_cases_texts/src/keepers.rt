// Keepers in memory.
use crate::batches::{put, table_of};
use crate::fields::{fields, numbers};
use crate::said::Said;
use mtn_base::Bytes;
use mtn_ports::{Batch, Doubtful, KeepError, Keeper, MemKeeper};
use std::alloc::Global;

fn put_failed(error: KeepError, said: &mut Said) {
    match error {
        KeepError::Failed => said.put(b"Failed"),
        KeepError::NoMemory => said.is_whole = false,
    }
}

fn put_answer(found: Result<bool, KeepError>, text: &[u8], said: &mut Said) {
    match found {
        Ok(true) => said.put(text),
        Ok(false) => said.put(b"None"),
        Err(error) => put_failed(error, said),
    }
}

fn batch_of(alloc: Global, record: &[Bytes]) -> Option<Batch> {
    let [table, key, body] = record else {
        return None;
    };
    let mut batch = Batch::new(alloc);
    put(
        &mut batch,
        table.as_slice(),
        key.as_slice(),
        body.as_slice(),
    )?;
    Some(batch)
}

fn apply<K: Keeper>(keeper: &mut K, batch: Batch, said: &mut Said) {
    match keeper.apply(batch) {
        Ok(()) => said.put(b"Ok"),
        Err(error) => put_failed(error, said),
    }
}

// The next record.
fn record<K: Keeper>(
    alloc: Global,
    keeper: &mut K,
    table: u8,
    after: &[u8],
    said: &mut Said,
) -> Option<()> {
    let mut key = Vec::new(alloc);
    let mut body = Vec::new(alloc);
    let found = keeper.next_record(table, after, &mut key, &mut body);
    key.push(b'=').ok()?;
    key.extend_from_slice(&body).ok()?;
    put_answer(found, &key, said);
    Some(())
}

// The body under a key.
fn get<K: Keeper>(alloc: Global, keeper: &mut K, table: u8, key: &[u8], said: &mut Said) {
    let mut body = Vec::new(alloc);
    let found = keeper.get(table, key, &mut body);
    put_answer(found, &body, said);
}

// The next key.
fn next<K: Keeper>(alloc: Global, keeper: &mut K, table: u8, after: &[u8], said: &mut Said) {
    let mut key = Vec::new(alloc);
    let found = keeper.next(table, after, &mut key);
    put_answer(found, &key, said);
}

fn ask<K: Keeper>(
    alloc: Global,
    keeper: &mut K,
    word: &str,
    args: &[Bytes],
    said: &mut Said,
) -> Option<()> {
    let [table, key] = args else {
        return None;
    };
    let table = table_of(table.as_slice())?;
    match word {
        "record" => return record(alloc, keeper, table, key.as_slice(), said),
        "get" => get(alloc, keeper, table, key.as_slice(), said),
        _ => next(alloc, keeper, table, key.as_slice(), said),
    }
    Some(())
}

fn step<K: Keeper>(alloc: Global, keeper: &mut K, step: &[Bytes], said: &mut Said) -> Option<()> {
    let (word, args) = step.split_first()?;
    let word = str::from_utf8(word.as_slice()).ok()?;
    if word != "apply" {
        return ask(alloc, keeper, word, args, said);
    }
    apply(keeper, batch_of(alloc, args)?, said);
    Some(())
}

fn steps<K: Keeper>(alloc: Global, keeper: &mut K, all: &[Bytes], said: &mut Said) -> Option<()> {
    for text in all {
        step(alloc, keeper, &fields(alloc, text.as_slice(), b':')?, said)?;
        said.put(b" ");
    }
    Some(())
}

fn keeper_of(alloc: Global, failing: &[u8]) -> Option<MemKeeper> {
    let failing = numbers(alloc, failing)?;
    MemKeeper::new(Batch::new(alloc), failing).ok()
}

fn counted(alloc: Global, mut keeper: MemKeeper, all: &[Bytes], said: &mut Said) -> Option<()> {
    steps(alloc, &mut keeper, all, said)?;
    said.put_number(alloc, keeper.reads());
    Some(())
}

/// `keeper FAILING STEP..`, `doubtful FAILING STEP..`: the numbers of the calls that fail, and then `apply:TABLE:KEY:BODY`,
/// `get:TABLE:KEY`, `next:TABLE:AFTER`, `record:TABLE:AFTER`, which answers KEY=BODY. A blank stands behind each answer, and behind
/// those of `keeper` how many records were asked for.
pub fn answer(alloc: Global, word: &str, args: &[Bytes], said: &mut Said) -> Option<()> {
    let (failing, all) = args.split_first()?;
    let keeper = keeper_of(alloc, failing.as_slice())?;
    if word == "keeper" {
        return counted(alloc, keeper, all, said);
    }
    steps(alloc, &mut Doubtful::new(keeper), all, said)
}
