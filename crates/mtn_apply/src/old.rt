// Look-ups in the old tree.
ghost use Rattle.std.specs.Prelude.{◌≡◌, length, map, slice_get, option_map, option_and_then, IfOk};
ghost use Rattle.mtn_roster.specs.declared.entry.Entry.{Entry};
ghost use Rattle.mtn_roster.specs.Tree.{root_of, child_of, node_at, entry_of};
ghost use Rattle.mtn_roster.specs.Walk.{children_of};
ghost use Rattle.mtn_changeset_laws.specs.Laws.{IsOldTree};
ghost use Rattle.mtn_apply.specs.Old.{tree_in, entry_in, IsNode, IsOldNode};

use mtn_base::{Comp, NoMemory, NodeName, Path};
use mtn_roster::{Entry, Roster};
use std::alloc::Global;

/// An old node: its place in the order of names, and the entry there.
#[derive(Clone, Copy)]
pub struct Node<'a> {
    pub place: usize,
    pub value: &'a Entry,
}

/// How many old nodes there are.
pub fn old_len(old: Option<&Roster>) -> u64
    ensures count { result ≡ length (tree_in old.entry) }
    ensures sane { IsOldTree (tree_in old.entry) }
{
    match old {
        None => 0,
        Some(roster) => roster.len(),
    }
}

/// The node at a place of a tree, if there is a place.
fn node_of(old: &Roster, place: Option<usize>) -> Option<Node>
    ensures value { option_map entry_in result ≡ option_and_then (slice_get old.now) place }
    ensures node { IsOldNode old.now result }
{
    let place = place?;
    let value = old.at_place(place)?;
    Some(Node { place, value })
}

/// The old node at a place, in the order of names.
pub fn old_place(old: Option<&Roster>, place: usize) -> Option<Node>
    ensures value { option_map entry_in result ≡ slice_get (tree_in old.entry) place }
    ensures node { IsOldNode (tree_in old.entry) result }
{
    match old {
        None => None,
        Some(roster) => node_of(roster, Some(place)),
    }
}

/// The old node of a name.
pub fn old_named<'a>(old: Option<&'a Roster>, name: &NodeName) -> Option<Node<'a>>
    ensures value { option_map entry_in result ≡ entry_of (tree_in old.entry) name.now }
    ensures node { IsOldNode (tree_in old.entry) result }
{
    match old {
        None => None,
        Some(roster) => node_of(roster, roster.place_of(name)),
    }
}

/// The names of the old children of a node.
pub fn old_children(
    alloc: Global,
    old: Option<&Roster>,
    name: &NodeName,
) -> Result<Vec<NodeName>, NoMemory>
    ensures { IfOk result (λ names. names.items ≡ map (λ (e : Entry). e.name) (children_of (tree_in old.entry) name.now)) }
{
    match old {
        None => Ok(Vec::new(alloc)),
        Some(roster) => roster.children(alloc, name),
    }
}

/// The old child of that name of an old node.
pub fn old_child<'a>(old: Option<&'a Roster>, above: Node, name: &Comp) -> Option<Node<'a>>
    requires { IsNode (tree_in old) above }
    ensures value { option_map entry_in result ≡ child_of (tree_in old.entry) name.now (entry_in above.entry) }
    ensures node { IsOldNode (tree_in old.entry) result }
{
    match old {
        None => None,
        Some(roster) => node_of(roster, roster.child_place(above.place, name)),
    }
}

/// The old node at a path.
pub fn old_at<'a>(old: Option<&'a Roster>, path: &Path) -> Option<Node<'a>>
    ensures value { option_map entry_in result ≡ node_at (tree_in old.entry) path.now }
    ensures node { IsOldNode (tree_in old.entry) result }
{
    match old {
        None => None,
        Some(roster) => node_of(roster, roster.place_at_path(path)),
    }
}

/// The old root.
pub fn old_root(alloc: Global, old: Option<&Roster>) -> Option<Node>
    ensures value { option_map entry_in result ≡ root_of (tree_in old.entry) }
    ensures node { IsOldNode (tree_in old.entry) result }
{
    old_at(old, &Path::root(alloc))
}
