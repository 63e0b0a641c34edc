// Chains of records and the numbers of nodes. An entry is written `NUMBER;PATH;PARENT;NAME`, and behind these `;KEY` for
// each attribute, which is cleared; a node without a path is a directory, another a file; entries are parted by `,`.
use crate::text::{first_word, number_of, put_number};
use mtn_ancestry::{Pos, PosSet};
use mtn_base::{Bytes, Comp, Id, List, NodeName, Path, ShortBytes};
use mtn_marking::{MarkedRoster, mark_root};
use mtn_records::{Numbered, NumberedAttr, NumberedBody, NumberedEntry, RecordError, RosterRecord};
use mtn_roster::{Body, Entry, Roster, Slot};
use mtn_roster_deltas::{NumberError, delta, number, rebuild};
use std::alloc::Global;

const BIRTH: Id = Id([7; 20]);

const CONTENT: Id = Id([1; 20]);

fn none(alloc: Global) -> Option<PosSet> {
    PosSet::new(alloc, Vec::new(alloc)).ok()
}

fn name_of(alloc: Global, path: &[u8]) -> Option<NodeName> {
    Some(NodeName {
        birth: BIRTH,
        path: Path::read(alloc, path).ok()?,
    })
}

fn body_of(alloc: Global, path: &[u8]) -> Option<NumberedBody> {
    if path.is_empty() {
        return Some(NumberedBody::Dir);
    }
    Some(NumberedBody::File {
        content: CONTENT,
        marks: none(alloc)?,
    })
}

fn attr_of(alloc: Global, key: &[u8]) -> Option<NumberedAttr> {
    Some(NumberedAttr {
        key: Bytes::from_slice(alloc, key).ok()?,
        value: None,
        marks: none(alloc)?,
    })
}

// An entry without marks and attributes.
fn bare(
    alloc: Global,
    number: u64,
    path: &[u8],
    parent: u64,
    name: ShortBytes,
) -> Option<NumberedEntry> {
    let node = name_of(alloc, path)?;
    let slot_marks = none(alloc)?;
    Some(NumberedEntry {
        number,
        birth_at: Pos(0),
        node,
        parent,
        name,
        slot_marks,
        body: body_of(alloc, path)?,
        attrs: List::new(alloc),
    })
}

// The entry of a text, without marks.
fn entry_of(alloc: Global, text: &[u8]) -> Option<NumberedEntry> {
    let mut parts = text.split(|byte| *byte == b';');
    let number = number_of(parts.next()?)?;
    let path = parts.next()?;
    let parent = number_of(parts.next()?)?;
    let name = ShortBytes::from_slice(alloc, parts.next()?).ok()?;
    let mut entry = bare(alloc, number, path, parent, name)?;
    for key in parts {
        entry.attrs.push(attr_of(alloc, key)?).ok()?;
    }
    Some(entry)
}

// The entries of a text; none of an empty one.
fn numbered_of(alloc: Global, text: &[u8]) -> Option<Numbered> {
    let mut entries = List::new(alloc);
    if !text.is_empty() {
        for part in text.split(|byte| *byte == b',') {
            entries.push(entry_of(alloc, part)?).ok()?;
        }
    }
    Some(Numbered { entries })
}

// The record of a text: `whole:ENTRIES`, or `DEPTH:GONE:ENTRIES` of a delta, where GONE is a number or nothing.
fn record_of(alloc: Global, text: &[u8]) -> Option<RosterRecord> {
    let mut parts = text.split(|byte| *byte == b':');
    let first = parts.next()?;
    let second = parts.next()?;
    if first == b"whole".as_slice() {
        return Some(RosterRecord::Whole(numbered_of(alloc, second)?));
    }
    let mut gone = List::new(alloc);
    if !second.is_empty() {
        gone.push(number_of(second)?).ok()?;
    }
    Some(RosterRecord::Delta {
        base: Pos(0),
        depth: u8::try_from(number_of(first)?).ok()?,
        gone,
        changed: numbered_of(alloc, parts.next()?)?,
    })
}

// Appends numbers, with a blank before each.
fn put_each(alloc: Global, numbers: &[u64], out: &mut Vec<u8>) -> Option<()> {
    for number in numbers {
        out.push(b' ').ok()?;
        put_number(alloc, *number, out)?;
    }
    Some(())
}

// Appends the numbers of entries.
fn put_numbers(alloc: Global, entries: &[NumberedEntry], out: &mut Vec<u8>) -> Option<()> {
    for entry in entries {
        out.push(b' ').ok()?;
        put_number(alloc, entry.number, out)?;
    }
    Some(())
}

// The chain of some records.
fn chain_of(alloc: Global, text: &[u8]) -> Option<Vec<RosterRecord>> {
    let mut chain = Vec::new(alloc);
    if !text.is_empty() {
        for part in text.split(|byte| *byte == b' ') {
            chain.push(record_of(alloc, part)?).ok()?;
        }
    }
    Some(chain)
}

// `rebuild RECORD..`: the numbers at the end of the chain, or Bad.
fn rebuilt(alloc: Global, rest: &[u8], out: &mut Vec<u8>) -> Option<()> {
    match rebuild(alloc, chain_of(alloc, rest)?) {
        Ok((end, _)) => {
            out.extend_from_slice(b"numbers").ok()?;
            put_numbers(alloc, end.entries.as_slice(), out)
        }
        Err(RecordError::Bad) => out.extend_from_slice(b"Bad").ok(),
        Err(RecordError::NoMemory) => None,
    }
}

// Appends the numbers that a delta takes away, and those of the entries that it changes.
fn put_delta(
    alloc: Global,
    gone: &[u64],
    changed: &[NumberedEntry],
    out: &mut Vec<u8>,
) -> Option<()> {
    out.extend_from_slice(b"gone").ok()?;
    put_each(alloc, gone, out)?;
    out.extend_from_slice(b" changed").ok()?;
    put_numbers(alloc, changed, out)
}

fn put_record(alloc: Global, record: &RosterRecord, out: &mut Vec<u8>) -> Option<()> {
    match record {
        RosterRecord::Delta { gone, changed, .. } => {
            put_delta(alloc, gone.as_slice(), changed.entries.as_slice(), out)
        }
        RosterRecord::Whole(_) => None,
    }
}

fn delta_of(alloc: Global, base: &Numbered, new: &Numbered) -> Option<RosterRecord> {
    delta(alloc, base, Pos(0), 1, new).ok()
}

// `delta BASE NEW`: the numbers that are gone, and those of the entries that changed.
fn difference(alloc: Global, rest: &[u8], out: &mut Vec<u8>) -> Option<()> {
    let (base, new) = first_word(rest);
    let base = numbered_of(alloc, base)?;
    let new = numbered_of(alloc, new)?;
    put_record(alloc, &delta_of(alloc, &base, &new)?, out)
}

// A file below the root, of a name of one byte.
fn file_of(alloc: Global, name: u8) -> Option<Entry> {
    Some(Entry {
        name: name_of(alloc, &[name])?,
        slot: Slot::Below {
            parent: name_of(alloc, b"")?,
            name: Comp::read(alloc, &[name]).ok()?,
        },
        body: Body::File { content: CONTENT },
        attrs: List::new(alloc),
    })
}

// The marked root revision with files of these names.
fn tree_of(alloc: Global, names: &[u8]) -> Option<MarkedRoster> {
    let mut entries = Vec::new(alloc);
    let root = Entry {
        name: name_of(alloc, b"")?,
        slot: Slot::Root,
        body: Body::Dir,
        attrs: List::new(alloc),
    };
    entries.push(root).ok()?;
    for name in names {
        entries.push(file_of(alloc, *name)?).ok()?;
    }
    let roster = Roster::build(alloc, entries).ok()?;
    let marks = mark_root(alloc, &roster, Pos(0)).ok()?;
    Some(MarkedRoster::new(roster, marks))
}

// The lists of known entries that single blanks part; none of an empty text.
fn lists_of(alloc: Global, text: &[u8]) -> Option<Vec<Numbered>> {
    let mut lists = Vec::new(alloc);
    if !text.is_empty() {
        for part in text.split(|byte| *byte == b' ') {
            lists.push(numbered_of(alloc, part)?).ok()?;
        }
    }
    Some(lists)
}

// Appends the numbers of a tree, and the next one.
fn put_tree(alloc: Global, numbered: &Numbered, next: u64, out: &mut Vec<u8>) -> Option<()> {
    out.extend_from_slice(b"numbers").ok()?;
    put_numbers(alloc, numbered.entries.as_slice(), out)?;
    out.extend_from_slice(b" next ").ok()?;
    put_number(alloc, next, out)
}

// Numbers a tree of at most 1000 nodes.
fn number_tree(
    alloc: Global,
    tree: &MarkedRoster,
    known: &[&Numbered],
    next: u64,
    out: &mut Vec<u8>,
) -> Option<()> {
    if 1000 < next || 1000 < tree.roster().len() {
        return None;
    }
    let stops = tree.roster().stops(alloc).ok()?;
    match number(alloc, tree, &stops, known, next) {
        Ok((numbered, next)) => put_tree(alloc, &numbered, next, out),
        Err(NumberError::Clash) => out.extend_from_slice(b"Clash").ok(),
        Err(NumberError::NoMemory) => None,
    }
}

fn lent<'a>(alloc: Global, lists: &'a [Numbered]) -> Option<Vec<&'a Numbered>> {
    let mut known = Vec::new(alloc);
    for list in lists {
        known.push(list).ok()?;
    }
    Some(known)
}

// Numbers a tree over lists of known entries.
fn number_over(
    alloc: Global,
    tree: &MarkedRoster,
    lists: &[Numbered],
    next: u64,
    out: &mut Vec<u8>,
) -> Option<()> {
    let known = lent(alloc, lists)?;
    number_tree(alloc, tree, &known, next, out)
}

// `number NEXT NAMES KNOWN..`: the numbers of the root with files of these names, and the next one; or Clash.
fn numbers(alloc: Global, rest: &[u8], out: &mut Vec<u8>) -> Option<()> {
    let (next, rest) = first_word(rest);
    let (names, known) = first_word(rest);
    let next = number_of(next)?;
    let lists = lists_of(alloc, known)?;
    number_over(alloc, &tree_of(alloc, names)?, &lists, next, out)
}

/// What a word answers.
pub fn answer(alloc: Global, word: &str, rest: &[u8], out: &mut Vec<u8>) -> Option<()> {
    match word {
        "rebuild" => rebuilt(alloc, rest, out),
        "delta" => difference(alloc, rest, out),
        "number" => numbers(alloc, rest, out),
        _ => None,
    }
}
