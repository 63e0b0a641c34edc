// What the changes of an edge name, for look-ups.
ghost use Rattle.std.specs.Prelude.{◌≡◌, ◌+◌, ℕ, List, Some, cond, length, slice_get, option_copied, IfOk, OnOk};
ghost use Rattle.mtn_apply.specs.Maps.{of_place, of_path};
ghost use Rattle.mtn_base.specs.Names.{same_path};
ghost use Rattle.mtn_roster.specs.Tree.{Tree};
ghost use Rattle.mtn_base.specs.Lists.{is_some_with};
ghost use Rattle.mtn_roster.specs.declared.entry.Entry.{Entry};
ghost use Rattle.mtn_changeset_laws.specs.Changes.{aims_at, deletes, moves, stands_at};
ghost use Rattle.mtn_apply.specs.Old.{tree_in};
ghost use Rattle.mtn_apply.specs.Index.{IsIndexed, IsIndex, IsIndexFrom};
ghost use Rattle.mtn_changeset_laws.specs.Laws.{IsOldTree};
ghost use Rattle.mtn_changes.specs.declared.change.Change.{Change};

use crate::names::PathMap;
use crate::old::{old_at, old_len};
use crate::places::no_positions;
use mtn_base::{NoMemory, Path};
use mtn_changes::Change;
use mtn_roster::Roster;
use std::alloc::Global;

/// For each target, and for the place of each old node, the position of the first change that names it.
#[derive(Drop)]
pub struct Index {
    pub targets: PathMap,
    pub deleted: Vec<Option<usize>>,
    pub moved: Vec<Option<usize>>,
}

/// The changes from an old tree, with their index.
#[derive(Drop)]
pub struct Edge<'a> {
    pub old: Option<&'a Roster>,
    pub all: &'a [Change],
    pub index: Index,
}

/// The target of a change.
fn target_of(change: &Change) -> Option<&Path>
    ensures { (q : List (List ℕ)) → aims_at q change.now ≡ is_some_with (λ t. same_path t q) (option_copied result) }
{
    match change {
        Change::Rename { path: _, to } => Some(to),
        Change::AddDir { path } => Some(path),
        Change::AddFile { path, content: _ } => Some(path),
        _ => None,
    }
}

/// The old path that a change deletes.
fn deleted_path(change: &Change) -> Option<&Path>
    ensures { (t : Tree) (e : Entry) → deletes t e change.now ≡ is_some_with (stands_at t e) (option_copied result) }
{
    match change {
        Change::Delete { path } => Some(path),
        _ => None,
    }
}

/// The old path that a change moves.
fn moved_path(change: &Change) -> Option<&Path>
    ensures { (t : Tree) (e : Entry) → moves t e change.now ≡ is_some_with (stands_at t e) (option_copied result) }
{
    match change {
        Change::Rename { path, to: _ } => Some(path),
        _ => None,
    }
}

/// Notes a position under a target.
fn note_target(
    alloc: Global,
    target: Option<&Path>,
    at: usize,
    targets: &mut PathMap,
) -> Result<(), NoMemory>
    ensures { OnOk result ((q : List (List ℕ)) → of_path targets.new q ≡ cond (is_some_with (λ t. same_path t q) (option_copied target.entry)) (Some at) (of_path targets.old q)) }
{
    if let Some(path) = target {
        targets.insert(path.copy(alloc)?, at)?;
    }
    Ok(())
}

/// Notes a position at the place of the old node at a path, if there is one.
fn note_node(old: Option<&Roster>, path: Option<&Path>, at: usize, nodes: &mut Vec<Option<usize>>)
    requires sane { IsOldTree (tree_in old) }
    requires long { length nodes.old.items ≡ length (tree_in old) }
    ensures long { length nodes.new.items ≡ length nodes.old.items }
    ensures noted { (k : ℕ) (e : Entry) → slice_get (tree_in old.entry) k ≡ Some e → of_place nodes.new.items k ≡ cond (is_some_with (stands_at (tree_in old.entry) e) (option_copied path.entry)) (Some at) (of_place nodes.old.items k) }
{
    if let Some(path) = path {
        if let Some(node) = old_at(old, path) {
            nodes[node.place] = Some(at);
        }
    }
}

/// Puts the change at a position before those that are noted.
fn note_change(
    alloc: Global,
    old: Option<&Roster>,
    change: &Change,
    at: usize,
    index: &mut Index,
) -> Result<(), NoMemory>
    requires sane { IsOldTree (tree_in old) }
    requires deleted { length index.old.deleted.items ≡ length (tree_in old) }
    requires moved { length index.old.moved.items ≡ length (tree_in old) }
    ensures { OnOk result ((all : List Change) → slice_get all at ≡ Some change.now → IsIndexFrom (tree_in old.entry) all (at + 1) index.old → IsIndexFrom (tree_in old.entry) all at index.new) }
{
    note_target(alloc, target_of(change), at, &mut index.targets)?;
    note_node(old, deleted_path(change), at, &mut index.deleted);
    note_node(old, moved_path(change), at, &mut index.moved);
    Ok(())
}

/// An index of no change.
fn no_changes(alloc: Global, nodes: usize, targets: usize) -> Result<Index, NoMemory>
    ensures { IfOk result (λ index. (old : Tree) (all : List Change) → length old ≡ nodes → IsIndexFrom old all (length all) index) }
{
    Ok(Index {
        targets: PathMap::new(alloc, targets)?,
        deleted: no_positions(alloc, nodes)?,
        moved: no_positions(alloc, nodes)?,
    })
}

/// The index of changes: the last is noted first.
fn index_of(alloc: Global, old: Option<&Roster>, all: &[Change]) -> Result<Index, NoMemory>
    ensures { IfOk result (IsIndex (tree_in old.entry) all.now) }
{
    let nodes = old_len(old) as usize;
    let mut index = no_changes(alloc, nodes, all.len())?;
    let mut left = all.len();
    while left > 0 {
        left -= 1;
        note_change(alloc, old, &all[left], left, &mut index)?;
    }
    Ok(index)
}

/// An edge with its index.
pub fn indexed<'a>(
    alloc: Global,
    old: Option<&'a Roster>,
    all: &'a [Change],
) -> Result<Edge<'a>, NoMemory>
    ensures is { IfOk result IsIndexed }
    ensures old { IfOk result (λ edge. edge.old ≡ old.entry) }
    ensures all { IfOk result (λ edge. edge.all.now ≡ all.now) }
{
    let index = index_of(alloc, old, all)?;
    Ok(Edge { old, all, index })
}
