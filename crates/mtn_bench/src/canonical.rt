// The canonical changeset (bench/between.sh).
use crate::sections::number_line;
use crate::tree::built;
use crate::watch::Watch;
use mtn_between::between as changes_between;
use mtn_case_trees::entries_of;
use mtn_roster::{Entry, Roster};
use std::alloc::Global;

fn tree_of(alloc: Global, text: &[u8], name: &[u8]) -> Option<Roster> {
    Roster::build(alloc, entries_of(alloc, text, name)?).ok()
}

/// How many changes lead from the tree of some entries to another. Both steps.
fn changed(rt: &HostRuntime, watch: &mut Watch, entries: Vec<Entry>, new: &Roster) -> Option<u64> {
    let old = built(rt, watch, entries)?;
    let changes = changes_between(rt.alloc(), &old, new).ok()?;
    watch.lap(rt);
    Some(changes.changes.as_slice().len() as u64)
}

/// Makes the changeset from the tree `old` of a text to its tree `new`; writes how many changes it has.
/// Steps: building the old tree, making the changeset.
pub fn between(rt: &HostRuntime, watch: &mut Watch, text: &[u8]) -> Option<Vec<u8>> {
    let entries = entries_of(rt.alloc(), text, b"old ")?;
    let new = tree_of(rt.alloc(), text, b"new ")?;
    number_line(rt.alloc(), changed(rt, watch, entries, &new)?)
}
