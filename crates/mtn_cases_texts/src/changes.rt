// Texts of changes and revisions.
ghost use Rattle.std.specs.Prelude.{IfOk};
ghost use Rattle.mtn_changes.specs.Sorting.{AreUnsorted};

use crate::said::Said;
use crate::texts::put_stanzas;
use mtn_basic_io::{Stanza, read};
use mtn_changes::{
    ChangeTextError, Changeset, change_of, head_of, lawful_in_any_order, read_changes,
    read_revision, sorted_changes, stanza_of, stanza_of_head, write_changes, write_revision,
};
use std::alloc::Global;

fn put_numbered(alloc: Global, word: &[u8], number: u64, said: &mut Said) {
    said.put(word);
    said.put_number(alloc, number);
}

fn put_fault(alloc: Global, error: ChangeTextError, said: &mut Said) {
    match error {
        ChangeTextError::NotText { offset } => put_numbered(alloc, b"NotText ", offset, said),
        ChangeTextError::BadStanza { number } => put_numbered(alloc, b"BadStanza ", number, said),
        ChangeTextError::BadOrder { number } => put_numbered(alloc, b"BadOrder ", number, said),
        ChangeTextError::Repeated { number } => put_numbered(alloc, b"Repeated ", number, said),
        ChangeTextError::BadEdge { number } => put_numbered(alloc, b"BadEdge ", number, said),
        ChangeTextError::NoMemory => said.is_whole = false,
    }
}

fn read_any(alloc: Global, text: &[u8]) -> Result<Changeset, ChangeTextError>
    ensures { IfOk result (λ changes. AreUnsorted changes) }
{
    read_changes(alloc, text)
}

// The changes in the order in which they are written, written and read back.
fn sorted_any(alloc: Global, text: &[u8]) -> Result<Changeset, ChangeTextError>
    ensures { IfOk result (λ changes. AreUnsorted changes) }
{
    let changes = read_any(alloc, text)?;
    sorted_changes(alloc, &changes)
}

// The changes written again, or the fault.
fn put_changes(alloc: Global, changes: Result<Changeset, ChangeTextError>, said: &mut Said)
    requires { IfOk changes (λ changes. AreUnsorted changes) }
{
    match changes {
        Ok(changes) => {
            let done = write_changes(alloc, &changes, &mut said.text);
            said.keep(done);
        }
        Err(error) => put_fault(alloc, error, said),
    }
}

// The revision written again from a copy, or the fault.
fn revision(alloc: Global, text: &[u8], said: &mut Said) -> Option<()> {
    lawful_in_any_order();
    match read_revision(alloc, text) {
        Ok(revision) => {
            let copy = revision.copy(alloc).ok()?;
            let done = write_revision(alloc, &copy, &mut said.text);
            said.keep(done);
        }
        Err(error) => put_fault(alloc, error, said),
    }
    Some(())
}

// The stanza of the head or change that a stanza spells; None where it spells neither.
fn again(alloc: Global, stanza: &Stanza) -> Option<Stanza> {
    if let Some(head) = head_of(stanza) {
        return stanza_of_head(alloc, &head).ok();
    }
    stanza_of(alloc, &change_of(alloc, stanza).ok()??).ok()
}

fn put_again(stanza: Option<Stanza>, said: &mut Said) {
    match stanza {
        Some(stanza) => put_stanzas(&[stanza], said),
        None => said.put(b"none "),
    }
}

// Each stanza written again, or `none`.
fn kinds(alloc: Global, text: &[u8], said: &mut Said) -> Option<()> {
    for stanza in &read(alloc, text).ok()? {
        put_again(again(alloc, stanza), said);
    }
    Some(())
}

/// `changes TEXT`, `sorted TEXT`, `revision TEXT`, `kinds TEXT`.
pub fn answer(alloc: Global, word: &str, text: &[u8], said: &mut Said) -> Option<()> {
    match word {
        "changes" => put_changes(alloc, read_any(alloc, text), said),
        "sorted" => put_changes(alloc, sorted_any(alloc, text), said),
        "revision" => return revision(alloc, text, said),
        _ => return kinds(alloc, text, said),
    }
    Some(())
}
