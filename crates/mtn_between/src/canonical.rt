// The canonical changeset, part by part.
ghost use Rattle.std.specs.Prelude.{◌≡◌, ◌++◌, [], filter_map, option_map, IfOk, OnOk};
ghost use Rattle.std.specs.List.{cons_option, flat_map};
ghost use Rattle.std.specs.Option.{option_map_or};
ghost use Rattle.mtn_roster.specs.declared.entry.Entry.{Entry};
ghost use Rattle.mtn_roster.specs.Walk.{by_path};
ghost use Rattle.mtn_between.specs.Between.{deleting, renaming, adding_dir, adding_file, patching, clearing, setting, between as between_trees};
ghost use Rattle.mtn_between.specs.Walking.{IsWalked, IsMet, tree_of, other_of, entry_of_node, entry_in};

use crate::differing::{added_dir, added_file, cleared, deleted, patched, renamed, set};
use crate::mates::mates_of;
use crate::side::{Met, Node, Side, met_along};
use mtn_base::{List, NoMemory};
use mtn_changes::{Change, Changeset};
use mtn_roster::{Attr, Roster};
use std::alloc::Global;

/// Appends a change, if there is one.
fn push_some(changes: &mut List<Change>, change: Option<Change>) -> Result<(), NoMemory>
    ensures { OnOk result (changes.new ≡ changes.old ++ cons_option change []) }
{
    if let Some(change) = change {
        changes.push(change)?;
    }
    Ok(())
}

/// Appends the deletes, along the old tree.
fn push_deletes(alloc: Global, side: &Side, changes: &mut List<Change>) -> Result<(), NoMemory>
    requires { IsWalked side.now }
    ensures { OnOk result (changes.new ≡ changes.old ++ filter_map (deleting (tree_of side.now) (other_of side.now)) (by_path (tree_of side.now))) }
{
    let _nodes = side.tree.len();
    for at in 0..side.walk.len() {
        let met = met_along(side, at).unwrap();
        let change = deleted(alloc, side.tree, side.other, &met)?;
        push_some(changes, change)?;
    }
    Ok(())
}

/// Appends the renames, along the old tree.
fn push_renames(alloc: Global, side: &Side, changes: &mut List<Change>) -> Result<(), NoMemory>
    requires { IsWalked side.now }
    ensures { OnOk result (changes.new ≡ changes.old ++ filter_map (renaming (tree_of side.now) (other_of side.now)) (by_path (tree_of side.now))) }
{
    let _nodes = side.tree.len();
    for at in 0..side.walk.len() {
        let met = met_along(side, at).unwrap();
        let change = renamed(alloc, side.tree, side.other, &met)?;
        push_some(changes, change)?;
    }
    Ok(())
}

/// Appends the adds of directories, along the new tree.
fn push_dirs(alloc: Global, side: &Side, changes: &mut List<Change>) -> Result<(), NoMemory>
    requires { IsWalked side.now }
    ensures { OnOk result (changes.new ≡ changes.old ++ filter_map (adding_dir (other_of side.now) (tree_of side.now)) (by_path (tree_of side.now))) }
{
    let _nodes = side.tree.len();
    for at in 0..side.walk.len() {
        let met = met_along(side, at).unwrap();
        let change = added_dir(alloc, side.other, side.tree, &met)?;
        push_some(changes, change)?;
    }
    Ok(())
}

/// Appends the adds of files, along the new tree.
fn push_files(alloc: Global, side: &Side, changes: &mut List<Change>) -> Result<(), NoMemory>
    requires { IsWalked side.now }
    ensures { OnOk result (changes.new ≡ changes.old ++ filter_map (adding_file (other_of side.now) (tree_of side.now)) (by_path (tree_of side.now))) }
{
    let _nodes = side.tree.len();
    for at in 0..side.walk.len() {
        let met = met_along(side, at).unwrap();
        let change = added_file(alloc, side.other, side.tree, &met)?;
        push_some(changes, change)?;
    }
    Ok(())
}

/// Appends the patches, along the new tree.
fn push_patches(alloc: Global, side: &Side, changes: &mut List<Change>) -> Result<(), NoMemory>
    requires { IsWalked side.now }
    ensures { OnOk result (changes.new ≡ changes.old ++ filter_map (patching (other_of side.now) (tree_of side.now)) (by_path (tree_of side.now))) }
{
    let _nodes = side.tree.len();
    for at in 0..side.walk.len() {
        let met = met_along(side, at).unwrap();
        let change = patched(alloc, side.other, side.tree, &met)?;
        push_some(changes, change)?;
    }
    Ok(())
}

/// The attributes that a node had; one that is added had none.
fn attrs_before<'a>(mate: Option<Node<'a>>) -> &'a [Attr]
    ensures { result.now ≡ option_map_or (λ (e : Entry). e.attrs) (option_map entry_of_node mate.entry) [] }
{
    match mate {
        None => &[],
        Some(mate) => mate.entry.attrs.as_slice(),
    }
}

/// Appends the clears of one node of the new tree.
fn push_clears_of(
    alloc: Global,
    old: &Roster,
    new: &Roster,
    met: &Met,
    changes: &mut List<Change>,
) -> Result<(), NoMemory>
    requires { IsMet new.now old.now met.now }
    ensures { OnOk result (changes.new ≡ changes.old ++ clearing old.now new.now (entry_in met.now)) }
{
    let _nodes = new.len();
    for attr in attrs_before(met.mate) {
        let change = cleared(alloc, new, &met.node, attr)?;
        push_some(changes, change)?;
    }
    Ok(())
}

/// Appends the clears, along the new tree.
fn push_clears(alloc: Global, side: &Side, changes: &mut List<Change>) -> Result<(), NoMemory>
    requires { IsWalked side.now }
    ensures { OnOk result (changes.new ≡ changes.old ++ flat_map (clearing (other_of side.now) (tree_of side.now)) (by_path (tree_of side.now))) }
{
    let _nodes = side.tree.len();
    for at in 0..side.walk.len() {
        let met = met_along(side, at).unwrap();
        push_clears_of(alloc, side.other, side.tree, &met, changes)?;
    }
    Ok(())
}

/// Appends the sets of one node of the new tree.
fn push_sets_of(
    alloc: Global,
    old: &Roster,
    new: &Roster,
    met: &Met,
    changes: &mut List<Change>,
) -> Result<(), NoMemory>
    requires { IsMet new.now old.now met.now }
    ensures { OnOk result (changes.new ≡ changes.old ++ setting old.now new.now (entry_in met.now)) }
{
    let _nodes = old.len();
    let before = attrs_before(met.mate);
    for attr in met.node.entry.attrs.as_slice() {
        let change = set(alloc, new, &met.node, before, attr)?;
        push_some(changes, change)?;
    }
    Ok(())
}

/// Appends the sets, along the new tree.
fn push_sets(alloc: Global, side: &Side, changes: &mut List<Change>) -> Result<(), NoMemory>
    requires { IsWalked side.now }
    ensures { OnOk result (changes.new ≡ changes.old ++ flat_map (setting (other_of side.now) (tree_of side.now)) (by_path (tree_of side.now))) }
{
    let _nodes = side.tree.len();
    for at in 0..side.walk.len() {
        let met = met_along(side, at).unwrap();
        push_sets_of(alloc, side.other, side.tree, &met, changes)?;
    }
    Ok(())
}

/// The canonical changeset from one tree to another, in the order in which it is written. It costs a walk over each tree,
/// one pass over both by name, and the paths that it spells.
pub fn between(alloc: Global, old: &Roster, new: &Roster) -> Result<Changeset, NoMemory>
    ensures { IfOk result (λ changes. changes ≡ between_trees old.now new.now) }
{
    let stops = old.stops(alloc)?;
    let beside = new.stops(alloc)?;
    let mates = mates_of(alloc, old, new)?;
    let back = mates_of(alloc, new, old)?;
    let from = Side {
        tree: old,
        walk: &stops,
        other: new,
        mates: &mates,
    };
    let to = Side {
        tree: new,
        walk: &beside,
        other: old,
        mates: &back,
    };
    let mut changes = List::new(alloc);
    push_deletes(alloc, &from, &mut changes)?;
    push_renames(alloc, &from, &mut changes)?;
    push_dirs(alloc, &to, &mut changes)?;
    push_files(alloc, &to, &mut changes)?;
    push_patches(alloc, &to, &mut changes)?;
    push_clears(alloc, &to, &mut changes)?;
    push_sets(alloc, &to, &mut changes)?;
    Ok(Changeset { changes })
}
