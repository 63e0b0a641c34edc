// Who stands where in the new tree.
ghost use Rattle.std.specs.Prelude.{◌≡◌, ◌<◌, not, find, length, slice_get, option_map, option_and_then, option_copied, IfOk};
ghost use Rattle.mtn_roster.specs.Tree.{Tree, root_of};
ghost use Rattle.mtn_base.specs.Lists.{is_some_with};
ghost use Rattle.mtn_changeset_laws.specs.Changes.Occupant.{Old};
ghost use Rattle.mtn_changeset_laws.specs.Changes.{aims_at, put_by as puts, is_deleted as deletes_it, is_moved as moves_it, is_kept as keeps_it, if_kept as kept_or_none, kept_child as kept_below, occupant_by, occupant};
ghost use Rattle.mtn_apply.specs.Old.{tree_in, seen, entry_in, IsNode, IsOldNode, IsPlaced};
ghost use Rattle.mtn_apply.specs.Index.{IsIndexed, old_of, changes_of};

use crate::index::Edge;
use crate::old::{Node, old_at, old_child, old_root};
use crate::places::position_at;
use mtn_base::{Comp, NoMemory, Path};
use mtn_changes::Change;
use mtn_roster::{Body, Roster};
use std::alloc::Global;

/// What stands at a path of the new tree: an old node, or one that a change adds at its path.
#[derive(Clone, Copy)]
pub enum There<'a> {
    Old { node: Node<'a> },
    Added { path: &'a Path, body: Body },
}

pub fn is_deleted(edge: &Edge, node: Node) -> bool
    requires indexed { IsIndexed edge.now }
    requires node { IsNode (old_of edge.now) node }
    ensures { result ≡ deletes_it (old_of edge.now) (changes_of edge.now) (entry_in node.entry) }
{
    position_at(&edge.index.deleted, node.place).is_some()
}

pub fn is_moved(edge: &Edge, node: Node) -> bool
    requires indexed { IsIndexed edge.now }
    requires node { IsNode (old_of edge.now) node }
    ensures { result ≡ moves_it (old_of edge.now) (changes_of edge.now) (entry_in node.entry) }
{
    position_at(&edge.index.moved, node.place).is_some()
}

/// Neither deleted nor moved.
pub fn is_kept(edge: &Edge, node: Node) -> bool
    requires indexed { IsIndexed edge.now }
    requires node { IsNode (old_of edge.now) node }
    ensures { result ≡ keeps_it (old_of edge.now) (changes_of edge.now) (entry_in node.entry) }
{
    !is_deleted(edge, node) && !is_moved(edge, node)
}

/// The old node, if it is kept.
fn if_kept<'a>(edge: &Edge, node: Option<Node<'a>>) -> Option<There<'a>>
    requires indexed { IsIndexed edge.now }
    requires node { IsOldNode (old_of edge.now) node }
    ensures value { option_map seen result ≡ option_and_then (kept_or_none (old_of edge.now) (changes_of edge.now)) (option_map entry_in node.entry) }
    ensures placed { IsPlaced (old_of edge.now) result }
{
    match node {
        None => None,
        Some(node) => {
            if is_kept(edge, node) {
                Some(There::Old { node })
            } else {
                None
            }
        }
    }
}

/// The old root, if it is kept.
pub fn kept_root<'a>(alloc: Global, edge: &Edge<'a>) -> Option<There<'a>>
    requires { IsIndexed edge.now }
    ensures value { option_map seen result ≡ option_and_then (kept_or_none (old_of edge.now) (changes_of edge.now)) (root_of (old_of edge.now)) }
    ensures placed { IsPlaced (old_of edge.now) result }
{
    if_kept(edge, old_root(alloc, edge.old))
}

/// The kept child of that name, of an old directory.
pub fn kept_child<'a>(edge: &Edge<'a>, above: Option<There<'a>>, name: &Comp) -> Option<There<'a>>
    requires indexed { IsIndexed edge.now }
    requires placed { IsPlaced (old_of edge.now) above }
    ensures value { option_map seen result ≡ option_and_then (kept_below (old_of edge.now) (changes_of edge.now) name.now) (option_map seen above.entry) }
    ensures placed { IsPlaced (old_of edge.now) result }
{
    match above {
        Some(There::Old { node }) => {
            if node.value.body.is_dir() {
                if_kept(edge, old_child(edge.old, node, name))
            } else {
                None
            }
        }
        _ => None,
    }
}

/// The change at a position.
pub fn change_at(all: &[Change], at: usize) -> Option<&Change>
    ensures { option_copied result ≡ slice_get all.now at }
{
    all.get(at)
}

/// The first change with that target.
pub fn aimed<'a>(edge: &Edge<'a>, path: &Path) -> Option<&'a Change>
    requires { IsIndexed edge.now }
    ensures { option_copied result ≡ find (aims_at path.now) (changes_of edge.now) }
{
    match edge.index.targets.get(path) {
        None => None,
        Some(at) => change_at(edge.all, at),
    }
}

/// An old node as what stands somewhere.
pub fn there_of(node: Option<Node>) -> Option<There>
    ensures value { option_map seen result ≡ option_map Old (option_map entry_in node.entry) }
    ensures placed { (old : Tree) → IsOldNode old node.entry → IsPlaced old result }
{
    match node {
        None => None,
        Some(node) => Some(There::Old { node }),
    }
}

/// What a change puts at its target.
fn put_by<'a>(old: Option<&'a Roster>, change: &'a Change) -> Option<There<'a>>
    ensures value { option_map seen result ≡ puts (tree_in old.entry) change.now }
    ensures placed { IsPlaced (tree_in old.entry) result }
{
    match change {
        Change::Rename { path, to: _ } => there_of(old_at(old, path)),
        Change::AddDir { path } => Some(There::Added {
            path,
            body: Body::Dir,
        }),
        Change::AddFile { path, content } => Some(There::Added {
            path,
            body: Body::File { content: *content },
        }),
        _ => None,
    }
}

/// The occupant of a path, by what stands there targets aside.
fn occupant_at<'a>(edge: &Edge<'a>, path: &Path, aside: Option<There<'a>>) -> Option<There<'a>>
    requires indexed { IsIndexed edge.now }
    requires placed { IsPlaced (old_of edge.now) aside }
    ensures value { option_map seen result ≡ occupant_by (old_of edge.now) (option_map seen aside.entry) (find (aims_at path.now) (changes_of edge.now)) }
    ensures placed { IsPlaced (old_of edge.now) result }
{
    match aimed(edge, path) {
        None => aside,
        Some(change) => put_by(edge.old, change),
    }
}

/// The occupant of the path of some components: from the root down, one step for each.
pub fn occupant_of<'a>(
    alloc: Global,
    edge: &Edge<'a>,
    comps: &[Comp],
) -> Result<Option<There<'a>>, NoMemory>
    requires { IsIndexed edge.now }
    ensures value { IfOk result (λ o. option_map seen o ≡ occupant (old_of edge.now) (changes_of edge.now) comps.now) }
    ensures placed { IfOk result (IsPlaced (old_of edge.now)) }
{
    let mut path = Path::root(alloc);
    let mut there = occupant_at(edge, &path, kept_root(alloc, edge));
    for comp in comps {
        path.push(comp.copy(alloc)?)?;
        there = occupant_at(edge, &path, kept_child(edge, there, comp));
    }
    Ok(there)
}
