// The contents that a revision brings and that were not sent before.
ghost use Rattle.std.specs.Prelude.{[], ◌∷◌, IfOk, OnOk, filter_map};
ghost use Rattle.mtn_replay.specs.Making.{new_content as content_of, new_contents};
ghost use Rattle.mtn_sending.specs.Sending.{Adds};

use mtn_base::{Id, NoMemory};
use mtn_changes::{Change, Edge};
use mtn_make_roster::new_content;
use std::alloc::Global;
use std::collections::BTreeSet;

// Puts a content behind the others, unless it was sent before or is one of them.
fn put_new(sent: &mut BTreeSet<Id>, files: &mut Vec<Id>, id: Id) -> Result<(), NoMemory>
    ensures { OnOk result (Adds sent.old sent.new files.old.items files.new.items (id ∷ [])) }
{
    if sent.insert(id)? {
        files.push(id)?;
    }
    Ok(())
}

// Puts the content that a change brings, if it brings one.
fn put_change(sent: &mut BTreeSet<Id>, files: &mut Vec<Id>, change: &Change) -> Result<(), NoMemory>
    ensures { OnOk result (Adds sent.old sent.new files.old.items files.new.items (filter_map content_of (change.now ∷ []))) }
{
    match new_content(change) {
        Some(id) => put_new(sent, files, id),
        None => Ok(()),
    }
}

// The contents of one edge.
fn put_edge(
    sent: &mut BTreeSet<Id>,
    files: &mut Vec<Id>,
    changes: &[Change],
) -> Result<(), NoMemory>
    ensures { OnOk result (Adds sent.old sent.new files.old.items files.new.items (filter_map content_of changes.now)) }
{
    for change in changes {
        put_change(sent, files, change)?;
    }
    Ok(())
}

/// The contents that edges bring and that were not sent before, each once, in order. They are sent from now on.
pub fn new_files(
    alloc: Global,
    sent: &mut BTreeSet<Id>,
    edges: &[Edge],
) -> Result<Vec<Id>, NoMemory>
    ensures { IfOk result (λ files. Adds sent.old sent.new [] files.items (new_contents edges.now)) }
{
    let mut files = Vec::new(alloc);
    for edge in edges {
        put_edge(sent, &mut files, edge.changes.changes.as_slice())?;
    }
    Ok(files)
}
