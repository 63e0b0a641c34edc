// Paths, components, ids and limits.
use crate::fields::number;
use crate::said::Said;
use mtn_base::{Bytes, Comp, Id, Path, PathError, put_in_order, room_in_log};
use std::alloc::Global;
use std::cmp::Ordering;

fn put_fault(error: PathError, said: &mut Said) {
    match error {
        PathError::Empty => said.put(b"Empty"),
        PathError::Dots => said.put(b"Dots"),
        PathError::TooLong => said.put(b"TooLong"),
        PathError::BadByte => said.put(b"BadByte"),
        PathError::NoMemory => said.put(b"NoMemory"),
    }
}

fn put_path(path: &Path, said: &mut Said) {
    let done = path.write(&mut said.text);
    said.keep(done);
}

// The path written again from a copy, or its fault.
fn path(alloc: Global, text: &[u8], said: &mut Said) -> Option<()> {
    match Path::read(alloc, text) {
        Ok(path) => put_path(&path.copy(alloc).ok()?, said),
        Err(error) => put_fault(error, said),
    }
    Some(())
}

// The component's bytes from a copy, or its fault.
fn comp(alloc: Global, text: &[u8], said: &mut Said) -> Option<()> {
    match Comp::read(alloc, text) {
        Ok(comp) => said.put(comp.copy(alloc).ok()?.bytes()),
        Err(error) => put_fault(error, said),
    }
    Some(())
}

// The component of so many bytes `a`.
fn long(alloc: Global, text: &[u8], said: &mut Said) -> Option<()> {
    let mut bytes = Vec::new(alloc);
    bytes.resize(number(text)? as usize, b'a').ok()?;
    comp(alloc, &bytes, said)
}

fn put_order(order: Ordering, said: &mut Said) {
    match order {
        Ordering::Less => said.put(b"below"),
        Ordering::Equal => said.put(b"same"),
        Ordering::Greater => said.put(b"above"),
    }
}

// How two paths stand.
fn order(alloc: Global, first: &[u8], second: &[u8], said: &mut Said) -> Option<()> {
    let first = Path::read(alloc, first).ok()?;
    let second = Path::read(alloc, second).ok()?;
    put_order(first.cmp(&second), said);
    Some(())
}

fn id(text: &[u8], said: &mut Said) {
    match Id::read_hex(text) {
        Some(id) => said.put_id(&id),
        None => said.put(b"None"),
    }
}

fn ids_of(alloc: Global, texts: &[Bytes]) -> Option<Vec<Id>> {
    let mut ids = Vec::new(alloc);
    for text in texts {
        ids.push(Id::read_hex(text.as_slice())?).ok()?;
    }
    Some(ids)
}

// The ids in their order, with a blank behind each.
fn put_ids(mut ids: Vec<Id>, said: &mut Said) {
    put_in_order(&mut ids);
    for id in &ids {
        said.put_id(id);
        said.put(b" ");
    }
}

fn room(text: &[u8], said: &mut Said) -> Option<()> {
    match room_in_log(number(text)?) {
        Ok(()) => said.put(b"room"),
        Err(_) => said.put(b"full"),
    }
    Some(())
}

/// `path TEXT`, `comp TEXT`, `id TEXT`.
pub fn of_one(alloc: Global, word: &str, text: &[u8], said: &mut Said) -> Option<()> {
    match word {
        "path" => return path(alloc, text, said),
        "comp" => return comp(alloc, text, said),
        _ => id(text, said),
    }
    Some(())
}

// What takes a number, or two paths.
fn of_few(alloc: Global, word: &str, args: &[Bytes], said: &mut Said) -> Option<()> {
    match args {
        [first, second] => order(alloc, first.as_slice(), second.as_slice(), said),
        [count] if word == "long" => long(alloc, count.as_slice(), said),
        [count] => room(count.as_slice(), said),
        _ => None,
    }
}

/// `ids ID..`, `order PATH PATH`, `long COUNT`, `room COUNT`.
pub fn answer(alloc: Global, word: &str, args: &[Bytes], said: &mut Said) -> Option<()> {
    if word == "ids" {
        put_ids(ids_of(alloc, args)?, said);
        return Some(());
    }
    of_few(alloc, word, args, said)
}
