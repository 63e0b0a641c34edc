// The entries of the new tree.
ghost use Rattle.std.specs.Prelude.{◌≡◌, ◌++◌, [], ℕ, map, reverse, filter_map, option_map, option_and_then, option_copied, slice_get, find, Some, None, IsTrue, IfOk, OnOk};
ghost use Rattle.std.specs.List.{cons_option};
ghost use Rattle.std.specs.List.Sorted.{IsPermutation};
ghost use Rattle.mtn_base.specs.Names.{bytes_cmp};
ghost use Rattle.mtn_base.specs.declared.id.Id.{Id};
ghost use Rattle.mtn_roster.specs.declared.entry.Attr.{Attr};
ghost use Rattle.mtn_base.specs.Lists.{rises};
ghost use Rattle.mtn_changeset_laws.specs.Changes.{moves, slot_up, slot_by, edited_by, old_after, added_at, added_by};
ghost use Rattle.mtn_roster.specs.Attrs.{are_keyed};
ghost use Rattle.mtn_apply.specs.Index.{IsIndexed, old_of, changes_of};
ghost use Rattle.mtn_apply.specs.Edits.{AreEdits, listed};
ghost use Rattle.mtn_apply.specs.Old.{tree_in, entry_in, IsNode};

use crate::edits::{Edits, edit, edits_of, name_of};
use crate::gather::gather;
use crate::index::Edge;
use crate::occupant::{change_at, is_deleted, occupant_of};
use crate::old::{Node, old_len, old_place};
use crate::places::position_at;
use mtn_base::{Id, List, NoMemory, NodeName, Path};
use mtn_changes::Change;
use mtn_roster::attrs::copy_attrs;
use mtn_roster::{Body, Entry, Slot};
use std::alloc::Global;

/// The change that moves an old node.
fn mover<'a>(edge: &Edge<'a>, node: Node) -> Option<&'a Change>
    requires indexed { IsIndexed edge.now }
    requires node { IsNode (old_of edge.now) node }
    ensures { option_copied result ≡ find (moves (old_of edge.now) (entry_in node.entry)) (changes_of edge.now) }
{
    match position_at(&edge.index.moved, node.place) {
        None => None,
        Some(at) => change_at(edge.all, at),
    }
}

/// The slot of a path of the new tree.
fn slot_of(alloc: Global, edge: &Edge, new: Id, path: &Path) -> Result<Slot, NoMemory>
    requires { IsIndexed edge.now }
    ensures { IfOk result (λ s. s ≡ slot_up (old_of edge.now) (changes_of edge.now) new (reverse path.now)) }
{
    let Some((name, above)) = path.comps().split_last() else {
        return Ok(Slot::Root);
    };
    match occupant_of(alloc, edge, above)? {
        None => Ok(Slot::Root),
        Some(there) => Ok(Slot::Below {
            parent: name_of(alloc, new, there)?,
            name: name.copy(alloc)?,
        }),
    }
}

/// Where an old node hangs in the new tree.
fn slot_after(alloc: Global, edge: &Edge, new: Id, node: Node) -> Result<Slot, NoMemory>
    requires indexed { IsIndexed edge.now }
    requires node { IsNode (old_of edge.now) node }
    ensures { IfOk result (λ s. s ≡ slot_by (old_of edge.now) (changes_of edge.now) new (entry_in node.entry).slot (find (moves (old_of edge.now) (entry_in node.entry)) (changes_of edge.now))) }
{
    match mover(edge, node) {
        Some(Change::Rename { path: _, to }) => slot_of(alloc, edge, new, to),
        _ => node.value.slot.copy(alloc),
    }
}

/// What the new tree has of the old node at a place.
fn kept_entry(
    alloc: Global,
    edge: &Edge,
    new: Id,
    edits: &Edits,
    node: Node,
) -> Result<Option<Entry>, NoMemory>
    requires indexed { IsIndexed edge.now }
    requires edits { AreEdits (old_of edge.now) (changes_of edge.now) new edits.now }
    requires node { IsNode (old_of edge.now) node }
    requires rising { IsTrue (are_keyed (entry_in node).attrs) }
    ensures { IfOk result (λ o. o ≡ old_after (old_of edge.now) (changes_of edge.now) new (entry_in node.entry)) }
{
    if is_deleted(edge, node) {
        return Ok(None);
    }
    let entry = node.value;
    let mut after = Entry {
        name: entry.name.copy(alloc)?,
        slot: slot_after(alloc, edge, new, node)?,
        body: entry.body,
        attrs: List::from_vec(copy_attrs(alloc, entry.attrs.as_slice())?),
    };
    edit(alloc, edge, new, edits, &mut after)?;
    Ok(Some(after))
}

/// The entry of a node that a change adds.
fn added_entry(
    alloc: Global,
    edge: &Edge,
    new: Id,
    edits: &Edits,
    path: &Path,
    body: Body,
) -> Result<Entry, NoMemory>
    requires indexed { IsIndexed edge.now }
    requires edits { AreEdits (old_of edge.now) (changes_of edge.now) new edits.now }
    ensures { IfOk result (λ e. e ≡ added_at (old_of edge.now) (changes_of edge.now) new path.now body) }
{
    let name = NodeName {
        birth: new,
        path: path.copy(alloc)?,
    };
    let mut entry = Entry {
        name,
        slot: slot_of(alloc, edge, new, path)?,
        body,
        attrs: List::new(alloc),
    };
    edit(alloc, edge, new, edits, &mut entry)?;
    Ok(entry)
}

/// The entry that a change adds, if it adds one.
fn entry_of_change(
    alloc: Global,
    edge: &Edge,
    new: Id,
    edits: &Edits,
    change: &Change,
) -> Result<Option<Entry>, NoMemory>
    requires indexed { IsIndexed edge.now }
    requires edits { AreEdits (old_of edge.now) (changes_of edge.now) new edits.now }
    ensures { IfOk result (λ o. o ≡ added_by (old_of edge.now) (changes_of edge.now) new change.now) }
{
    match change {
        Change::AddDir { path } => {
            let entry = added_entry(alloc, edge, new, edits, path, Body::Dir)?;
            Ok(Some(entry))
        }
        Change::AddFile { path, content } => {
            let body = Body::File { content: *content };
            let entry = added_entry(alloc, edge, new, edits, path, body)?;
            Ok(Some(entry))
        }
        _ => Ok(None),
    }
}

/// Appends an entry, if there is one.
fn push_some(entries: &mut Vec<Entry>, entry: Option<Entry>) -> Result<(), NoMemory>
    ensures { OnOk result (entries.new.items ≡ entries.old.items ++ cons_option entry []) }
{
    if let Some(entry) = entry {
        entries.push(entry)?;
    }
    Ok(())
}

/// What the new tree has of the old node at a place, if there is one.
fn kept_place(
    alloc: Global,
    edge: &Edge,
    new: Id,
    edits: &Edits,
    place: usize,
) -> Result<Option<Entry>, NoMemory>
    requires indexed { IsIndexed edge.now }
    requires edits { AreEdits (old_of edge.now) (changes_of edge.now) new edits.now }
    ensures { IfOk result (λ o. o ≡ option_and_then (old_after (old_of edge.now) (changes_of edge.now) new) (slice_get (old_of edge.now) place)) }
{
    match old_place(edge.old, place) {
        None => Ok(None),
        Some(node) => kept_entry(alloc, edge, new, edits, node),
    }
}

/// Appends what the new tree has of the old nodes.
fn push_kept(
    alloc: Global,
    edge: &Edge,
    new: Id,
    edits: &Edits,
    entries: &mut Vec<Entry>,
) -> Result<(), NoMemory>
    requires indexed { IsIndexed edge.now }
    requires edits { AreEdits (old_of edge.now) (changes_of edge.now) new edits.now }
    ensures { OnOk result (entries.new.items ≡ entries.old.items ++ filter_map (old_after (old_of edge.now) (changes_of edge.now) new) (old_of edge.now)) }
{
    let count = old_len(edge.old) as usize;
    for place in 0..count {
        let entry = kept_place(alloc, edge, new, edits, place)?;
        push_some(entries, entry)?;
    }
    Ok(())
}

/// Appends what the changes add.
fn push_added(
    alloc: Global,
    edge: &Edge,
    new: Id,
    edits: &Edits,
    entries: &mut Vec<Entry>,
) -> Result<(), NoMemory>
    requires indexed { IsIndexed edge.now }
    requires edits { AreEdits (old_of edge.now) (changes_of edge.now) new edits.now }
    ensures { OnOk result (entries.new.items ≡ entries.old.items ++ filter_map (added_by (old_of edge.now) (changes_of edge.now) new) (changes_of edge.now)) }
{
    for change in edge.all {
        let entry = entry_of_change(alloc, edge, new, edits, change)?;
        push_some(entries, entry)?;
    }
    Ok(())
}

/// The entries of the new tree, those that the changes add behind the others.
fn listed_after(alloc: Global, edge: &Edge, new: Id) -> Result<Vec<Entry>, NoMemory>
    requires indexed { IsIndexed edge.now }
    ensures { IfOk result (λ entries. entries.items ≡ listed (old_of edge.now) (changes_of edge.now) new) }
{
    let edits = edits_of(alloc, edge, new)?;
    let mut entries = Vec::with_capacity(alloc, old_len(edge.old) as usize)?;
    push_kept(alloc, edge, new, &edits, &mut entries)?;
    push_added(alloc, edge, new, &edits, &mut entries)?;
    Ok(entries)
}

/// The entries of the new tree, by their names as far as it takes little: a roster is built of them faster.
pub fn entries_after(alloc: Global, edge: &Edge, new: Id) -> Result<Vec<Entry>, NoMemory>
    requires indexed { IsIndexed edge.now }
    ensures { IfOk result (λ entries. IsPermutation (listed (old_of edge.now) (changes_of edge.now) new) entries.items) }
{
    let mut entries = listed_after(alloc, edge, new)?;
    gather(&mut entries, new);
    Ok(entries)
}
