// The canonical changeset between two trees.
use mtn_basic_io::{Stanza, write};
use mtn_between::between;
use mtn_case_trees::entries_of;
use mtn_changes::{Changeset, stanza_of};
use mtn_roster::Roster;
use std::alloc::Global;

fn stanzas_of(alloc: Global, changes: &Changeset) -> Option<Vec<Stanza>> {
    let mut stanzas = Vec::new(alloc);
    for change in changes.changes.as_slice() {
        stanzas.push(stanza_of(alloc, change).ok()?).ok()?;
    }
    Some(stanzas)
}

fn tree_of(alloc: Global, case: &[u8], word: &[u8]) -> Option<Roster> {
    Roster::build(alloc, entries_of(alloc, case, word)?).ok()
}

/// Prints the text of the changeset from the old tree of a case to its new one.
pub fn put_between(alloc: Global, case: &[u8], out: &mut Vec<u8>) -> Option<()> {
    let old = tree_of(alloc, case, b"old ")?;
    let new = tree_of(alloc, case, b"new ")?;
    let changes = between(alloc, &old, &new).ok()?;
    write(&stanzas_of(alloc, &changes)?, out).ok()
}
