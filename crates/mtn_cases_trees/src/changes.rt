// Changes that are applied to a tree.
ghost use Rattle.mtn_changeset_laws.specs.Laws.{RenamesDiffer};

use crate::said::Said;
use mtn_apply::{ApplyError, apply, none_is_born};
use mtn_base::Id;
use mtn_case_trees::{entries_of, id_of};
use mtn_changes::{Changeset, read_changes};
use mtn_roster::Roster;
use std::alloc::Global;

fn put_outcome(made: Result<Roster, ApplyError>, said: &mut Said) {
    match made {
        Ok(tree) => said.put_tree(&tree),
        Err(ApplyError::BadChange { number, why }) => {
            said.put_number(number);
            said.put(b" ");
            said.put(why.name().as_bytes());
            said.put(b"\n");
        }
        Err(ApplyError::NoMemory) => said.is_whole = false,
    }
}

fn put_changed(
    alloc: Global,
    old: Option<&Roster>,
    changes: &Changeset,
    new: Id,
    said: &mut Said,
) -> Option<()>
    requires { RenamesDiffer changes.now }
{
    if !none_is_born(old, new) {
        return None;
    }
    put_outcome(apply(alloc, old, changes, new), said);
    Some(())
}

/// The same of a text.
fn put_read(
    alloc: Global,
    old: Option<&Roster>,
    text: &[u8],
    new: Id,
    said: &mut Said,
) -> Option<()> {
    match read_changes(alloc, text) {
        Ok(changes) => put_changed(alloc, old, &changes, new, said),
        Err(_) => None,
    }
}

/// Prints the tree that a text of changes makes of the case's tree, or the number and the reason of the first that fails.
pub fn put_applied(
    alloc: Global,
    case: &[u8],
    id: &[u8],
    text: &[u8],
    said: &mut Said,
) -> Option<()> {
    let new = id_of(id)?;
    let entries = entries_of(alloc, case, b"node ")?;
    if entries.is_empty() {
        return put_read(alloc, None, text, new, said);
    }
    put_read(
        alloc,
        Some(&Roster::build(alloc, entries).ok()?),
        text,
        new,
        said,
    )
}
