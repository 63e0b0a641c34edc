// The edits of each node of the new tree.
ghost use Rattle.std.specs.Prelude.{◌≡◌, ◌≢◌, ◌<◌, ◌+◌, ℕ, true, cond, length, map, drop, slice_get, option_map, option_and_then, option_copied, Some, None, IsTrue, IfOk, OnOk};
ghost use Rattle.mtn_apply.specs.Maps.{of_name};
ghost use Rattle.mtn_base.specs.Names.{same_name};
ghost use Rattle.mtn_base.specs.declared.name.NodeName.{NodeName};
ghost use Rattle.mtn_roster.specs.declared.entry.Entry.{Entry};
ghost use Rattle.mtn_base.specs.Lists.{is_some_with};
ghost use Rattle.mtn_changes.specs.declared.change.Change.{Change};
ghost use Rattle.mtn_changeset_laws.specs.Changes.{occupant_name, edited_by};
ghost use Rattle.mtn_apply.specs.Old.{seen};
ghost use Rattle.mtn_roster.specs.Attrs.{are_keyed};
ghost use Rattle.mtn_apply.specs.Index.{IsIndexed, old_of, changes_of};
ghost use Rattle.mtn_apply.specs.Edits.{edit_path, touches, edited_as, held, AreEdits};

use crate::draft::{Draft, attrs_of, by_keys};
use crate::index::Edge;
use crate::names::NameMap;
use crate::occupant::{There, change_at, occupant_of};
use crate::places::position_at;
use mtn_base::{Id, List, NoMemory, NodeName, Path};
use mtn_changes::Change;
use mtn_roster::{Body, Entry};
use std::alloc::Global;

/// For the name of each node of the new tree the position of its first edit, and for each edit that of
/// the next one of the same node.
#[derive(Drop)]
pub struct Edits {
    pub first: NameMap,
    pub next: Vec<Option<usize>>,
}

/// The path that a change edits.
fn path_of(change: &Change) -> Option<&Path>
    ensures { option_copied result ≡ edit_path change.now }
{
    match change {
        Change::Patch {
            path,
            from: _,
            to: _,
        } => Some(path),
        Change::Clear { path, key: _ } => Some(path),
        Change::Set {
            path,
            key: _,
            value: _,
        } => Some(path),
        _ => None,
    }
}

/// The name of what stands somewhere in the new tree.
pub fn name_of(alloc: Global, new: Id, there: There) -> Result<NodeName, NoMemory>
    ensures { IfOk result (λ n. n ≡ occupant_name new (seen there.entry)) }
{
    match there {
        There::Old { node } => node.value.name.copy(alloc),
        There::Added { path, body: _ } => Ok(NodeName {
            birth: new,
            path: path.copy(alloc)?,
        }),
    }
}

/// The name of the node that a change edits, if it edits one.
fn touched(
    alloc: Global,
    edge: &Edge,
    new: Id,
    change: &Change,
) -> Result<Option<NodeName>, NoMemory>
    requires { IsIndexed edge.now }
    ensures { IfOk result (λ o. (n : NodeName) → touches (old_of edge.now) (changes_of edge.now) new n change.now ≡ is_some_with (λ m. same_name m n) o) }
{
    let Some(path) = path_of(change) else {
        return Ok(None);
    };
    let Some(there) = occupant_of(alloc, edge, path.comps())? else {
        return Ok(None);
    };
    Ok(Some(name_of(alloc, new, there)?))
}

/// Puts the edit at a position before those of its node that are noted.
fn note_edit(
    first: &mut NameMap,
    next: &mut Vec<Option<usize>>,
    name: Option<NodeName>,
    at: usize,
) -> Result<(), NoMemory>
    requires within { at < length next.old.items }
    ensures first { OnOk result ((n : NodeName) → of_name first.new n ≡ cond (is_some_with (λ m. same_name m n) name) (Some at) (of_name first.old n)) }
    ensures long { OnOk result (length next.new.items ≡ length next.old.items) }
    ensures here { OnOk result ((n : NodeName) → is_some_with (λ m. same_name m n) name ≡ true → slice_get next.new.items at ≡ Some (of_name first.old n)) }
    ensures others { OnOk result ((k : ℕ) → k ≢ at → slice_get next.new.items k ≡ slice_get next.old.items k) }
{
    if let Some(name) = name {
        let later = first.insert(name, at)?;
        next[at] = later;
    }
    Ok(())
}

/// The edits of an edge.
pub fn edits_of(alloc: Global, edge: &Edge, new: Id) -> Result<Edits, NoMemory>
    requires { IsIndexed edge.now }
    ensures { IfOk result (AreEdits (old_of edge.now) (changes_of edge.now) new) }
{
    let mut first = NameMap::new(alloc, edge.all.len())?;
    let mut next = vec![in alloc; None; edge.all.len()]?;
    let mut left = edge.all.len();
    while left > 0 {
        left -= 1;
        let name = touched(alloc, edge, new, &edge.all[left])?;
        note_edit(&mut first, &mut next, name, left)?;
    }
    Ok(Edits { first, next })
}

/// Makes the edit of one change.
fn edit_once(alloc: Global, change: &Change, draft: &mut Draft) -> Result<(), NoMemory>
    ensures { OnOk result ((e : Entry) → held draft.new e ≡ edited_as change.now (held draft.old e)) }
{
    match change {
        Change::Patch {
            path: _,
            from: _,
            to,
        } => {
            draft.body = Body::File { content: *to };
            Ok(())
        }
        Change::Clear { path: _, key } => draft.put(key.copy(alloc)?, None),
        Change::Set {
            path: _,
            key,
            value,
        } => draft.put(key.copy(alloc)?, Some(value.copy(alloc)?)),
        _ => Ok(()),
    }
}

/// Makes the edit of the change at a position.
fn edit_by(alloc: Global, all: &[Change], at: usize, draft: &mut Draft) -> Result<(), NoMemory>
    ensures { OnOk result ((c : Change) (e : Entry) → slice_get all.now at ≡ Some c → held draft.new e ≡ edited_as c (held draft.old e)) }
{
    match change_at(all, at) {
        None => Ok(()),
        Some(change) => edit_once(alloc, change, draft),
    }
}

/// Makes the edits of a node of the new tree, in their order.
pub fn edit(
    alloc: Global,
    edge: &Edge,
    new: Id,
    edits: &Edits,
    entry: &mut Entry,
) -> Result<(), NoMemory>
    requires edits { AreEdits (old_of edge.now) (changes_of edge.now) new edits.now }
    requires rising { IsTrue (are_keyed entry.old.attrs) }
    ensures { OnOk result (entry.new ≡ edited_by (old_of edge.now) (changes_of edge.now) new (changes_of edge.now) entry.old) }
{
    let Some(first) = edits.first.get(&entry.name) else {
        return Ok(());
    };
    let attrs = std::mem::replace(&mut entry.attrs, List::new(alloc)).into_vec();
    let mut draft = Draft {
        body: entry.body,
        attrs: by_keys(alloc, attrs)?,
    };
    let mut next = Some(first);
    while let Some(at) = next {
        edit_by(alloc, edge.all, at, &mut draft)?;
        next = position_at(&edits.next, at);
    }
    entry.body = draft.body;
    entry.attrs = attrs_of(alloc, draft.attrs)?;
    Ok(())
}
