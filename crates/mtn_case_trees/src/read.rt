// Entries and words of lines.
use mtn_base::{Bytes, Comp, Id, List, NodeName, Path};
use mtn_roster::{Attr, Body, Entry, Slot};
use std::alloc::Global;

/// The words of a line, with a blank between two.
pub fn words_of<'a>(alloc: Global, line: &'a [u8]) -> Option<Vec<&'a [u8]>> {
    let mut words = Vec::new(alloc);
    for word in line.split(|byte| *byte == b' ') {
        words.push(word).ok()?;
    }
    Some(words)
}

/// The number of a digit.
pub fn number_of(word: &[u8]) -> Option<u8> {
    match word {
        [digit @ b'0'..=b'9'] => Some(*digit - b'0'),
        _ => None,
    }
}

/// The id of a digit.
pub fn id_of(word: &[u8]) -> Option<Id> {
    Some(Id([number_of(word)?; 20]))
}

/// The name that a word spells.
pub fn name_of(alloc: Global, word: &[u8]) -> Option<NodeName> {
    let (birth, path) = word.split_at_checked(1)?;
    Some(NodeName {
        birth: id_of(birth)?,
        path: Path::read(alloc, path.strip_prefix(b":")?).ok()?,
    })
}

fn slot_of(alloc: Global, parent: &[u8], comp: &[u8]) -> Option<Slot> {
    match parent {
        b"-" => Some(Slot::Root),
        _ => Some(Slot::Below {
            parent: name_of(alloc, parent)?,
            name: Comp::read(alloc, comp).ok()?,
        }),
    }
}

fn body_of(word: &[u8]) -> Option<Body> {
    match word {
        b"dir" => Some(Body::Dir),
        _ => Some(Body::File {
            content: id_of(word)?,
        }),
    }
}

fn attr_of(alloc: Global, word: &[u8]) -> Option<Attr> {
    let mut parts = word.split(|byte| *byte == b'=');
    let key = Bytes::from_slice(alloc, parts.next()?).ok()?;
    let value = match parts.next() {
        None => None,
        Some(value) => Some(Bytes::from_slice(alloc, value).ok()?),
    };
    Some(Attr { key, value })
}

/// The entry that a line spells behind its first word.
pub fn entry_of(alloc: Global, line: &[u8]) -> Option<Entry> {
    let mut words = line.split(|byte| *byte == b' ');
    let _tree = words.next()?;
    let name = name_of(alloc, words.next()?)?;
    let slot = slot_of(alloc, words.next()?, words.next()?)?;
    let body = body_of(words.next()?)?;
    let mut attrs = List::new(alloc);
    for word in words {
        attrs.push(attr_of(alloc, word)?).ok()?;
    }
    Some(Entry {
        name,
        slot,
        body,
        attrs,
    })
}

/// The entries of the lines of a case that begin so.
pub fn entries_of(alloc: Global, case: &[u8], word: &[u8]) -> Option<Vec<Entry>> {
    let mut entries = Vec::new(alloc);
    for line in case.split(|byte| *byte == b'\n') {
        if line.starts_with(word) {
            entries.push(entry_of(alloc, line)?).ok()?;
        }
    }
    Some(entries)
}
