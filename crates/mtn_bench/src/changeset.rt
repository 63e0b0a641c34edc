// Changesets (bench/changeset.sh).
use crate::sections::number_line;
use crate::tree::{BIRTH, built, entries_of};
use crate::watch::Watch;
use mtn_apply::{apply, none_is_born};
use mtn_base::Id;
use mtn_changes::read_changes;
use mtn_roster::{Entry, Roster};
use std::alloc::Global;

// The revision that the changes make.
const NEW: Id = Id([3; 20]);

/// The tree that some changes make of another.
fn applied(
    rt: &HostRuntime,
    watch: &mut Watch,
    alloc: Global,
    old: &Roster,
    text: &[u8],
) -> Option<Roster> {
    let Ok(changes) = read_changes(alloc, text) else {
        return None;
    };
    if !none_is_born(Some(old), NEW) {
        return None;
    }
    watch.begin(rt);
    let tree = apply(alloc, Some(old), &changes, NEW).ok()?;
    watch.lap(rt);
    Some(tree)
}

/// How many nodes the tree has that some changes make of that of some entries. Both steps.
fn nodes_applied(
    rt: &HostRuntime,
    watch: &mut Watch,
    entries: Vec<Entry>,
    text: &[u8],
) -> Option<u64> {
    let old = built(rt, watch, entries)?;
    let tree = applied(rt, watch, rt.alloc(), &old, text)?;
    Some(tree.len())
}

/// Applies the changes behind a `=` to the tree before it; writes how many nodes the new tree has.
/// Steps: building the old tree, applying the changes.
pub fn changeset(rt: &HostRuntime, watch: &mut Watch, text: &[u8]) -> Option<Vec<u8>> {
    let mut parts = text.split(|byte| *byte == b'=');
    let entries = entries_of(rt.alloc(), parts.next()?, BIRTH)?;
    number_line(
        rt.alloc(),
        nodes_applied(rt, watch, entries, parts.next()?)?,
    )
}
