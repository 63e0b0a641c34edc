// Why a change fails: the table of reasons, row by row.
ghost use Rattle.std.specs.Prelude.{◌≡◌, ◌<◌, ◌||◌, ◌&&◌, ◌∷◌, [], ℕ, List as Seq, map, not, take, length, slice_index, reverse, option_map, option_and_then, option_copied, is_none, is_some, Some, IsTrue, IfOk};
ghost use Rattle.std.specs.List.{list_any};
ghost use Rattle.mtn_base.specs.Names.{same_bytes, same_path, bytes_cmp};
ghost use Rattle.mtn_base.specs.declared.id.Id.{Id};
ghost use Rattle.mtn_roster.specs.declared.entry.Attr.{Attr};
ghost use Rattle.mtn_roster.specs.declared.entry.Entry.{Entry};
ghost use Rattle.mtn_base.specs.Lists.{is_some_with, rises};
ghost use Rattle.mtn_roster.specs.Tree.{entry_of, live_of, mtn};
ghost use Rattle.mtn_changes.specs.declared.change.Change.{Change};
ghost use Rattle.mtn_changes.specs.declared.change.Change.TheVariants.{Delete, Rename, AddDir, AddFile, Patch, Clear, Set};
ghost use Rattle.mtn_changeset_laws.specs.Changes.{is_deleted as deletes_it, is_kept as keeps_it, has_kept_child as has_kept, parent_up, aside_up, hangs_there as hangs, is_empty, kept_child as kept_below, is_file as stands_file, is_below_file as below_file, has_content as holds, old_value as old_live, first_reason as first_of, why, occupant};
ghost use Rattle.mtn_changeset_laws.specs.Changes.Occupant.{Old};
ghost use Rattle.mtn_apply.specs.Old.{seen, entry_in, IsOldNode, HasRisingKeys};
ghost use Rattle.mtn_apply.specs.Index.{IsIndexed, old_of, changes_of};

use crate::index::Edge;
use crate::occupant::{There, is_deleted, is_kept, kept_child, occupant_of, there_of};
use crate::old::{Node, old_at, old_children, old_named};
use crate::target::{
    Seat, hangs_there, is_file, is_reserved, is_root, is_taken, lacks_parent, seat_of,
};
use mtn_base::{Bytes, Comp, Id, NoMemory, NodeName, Path, Why};
use mtn_changes::Change;
use mtn_roster::attrs::live_value;
use mtn_roster::{Attr, Body, Entry};
use std::alloc::Global;

/// The first reason whose test holds.
fn first_reason(reasons: &[(bool, Why)]) -> Option<Why>
    ensures { result ≡ first_of reasons.now }
{
    for reason in reasons {
        if reason.0 {
            return Some(reason.1);
        }
    }
    None
}

fn is_kept_name(edge: &Edge, name: &NodeName) -> bool
    requires { IsIndexed edge.now }
    ensures { result ≡ is_some_with (keeps_it (old_of edge.now) (changes_of edge.now)) (entry_of (old_of edge.now) name.now) }
{
    match old_named(edge.old, name) {
        None => false,
        Some(node) => is_kept(edge, node),
    }
}

fn any_kept(edge: &Edge, names: &[NodeName]) -> bool
    requires { IsIndexed edge.now }
    ensures { result ≡ list_any (λ n. is_some_with (keeps_it (old_of edge.now) (changes_of edge.now)) (entry_of (old_of edge.now) n)) names.now }
{
    names.iter().any(|name| is_kept_name(edge, name))
}

/// Whether a child of an old node, if there is one, is kept.
fn has_kept_child(alloc: Global, edge: &Edge, node: Option<Node>) -> Result<bool, NoMemory>
    requires { IsIndexed edge.now }
    ensures { IfOk result (λ b. b ≡ is_some_with (has_kept (old_of edge.now) (changes_of edge.now)) (option_map entry_in node.entry)) }
{
    match node {
        None => Ok(false),
        Some(node) => {
            let names = old_children(alloc, edge.old, &node.value.name)?;
            Ok(any_kept(edge, &names))
        }
    }
}

fn why_delete(alloc: Global, edge: &Edge, path: &Path) -> Result<Option<Why>, NoMemory>
    requires { IsIndexed edge.now }
    ensures { IfOk result (λ w. (before : Seq Change) → w ≡ why (old_of edge.now) (changes_of edge.now) before (Delete path.now)) }
{
    let node = old_at(edge.old, path);
    let occupied = has_kept_child(alloc, edge, node)?;
    Ok(first_reason(&[(node.is_none(), Why::NoPath), (occupied, Why::NotEmpty)]))
}

/// Whether there is no such node, or it is deleted.
fn is_lost(edge: &Edge, node: Option<Node>) -> bool
    requires indexed { IsIndexed edge.now }
    requires node { IsOldNode (old_of edge.now) node }
    ensures { result ≡ (is_none (option_map entry_in node.entry) || is_some_with (deletes_it (old_of edge.now) (changes_of edge.now)) (option_map entry_in node.entry)) }
{
    match node {
        None => true,
        Some(node) => is_deleted(edge, node),
    }
}

/// Whether the node hangs at the target already.
fn hangs_at(edge: &Edge, to: &Path, seat: &Seat, node: Option<Node>) -> bool
    requires parent { option_map seen seat.now.parent ≡ parent_up (old_of edge.now) (changes_of edge.now) (reverse to.now) }
    ensures { result ≡ is_some_with (hangs (old_of edge.now) (changes_of edge.now) (reverse to.now)) (option_map entry_in node.entry) }
{
    match node {
        None => false,
        Some(node) => hangs_there(edge, to, seat, node.value),
    }
}

/// Whether a rename leaves the node where it is.
fn stays(edge: &Edge, path: &Path, to: &Path, seat: &Seat, node: Option<Node>) -> bool
    requires parent { option_map seen seat.now.parent ≡ parent_up (old_of edge.now) (changes_of edge.now) (reverse to.now) }
    ensures { result ≡ ((is_empty path.now && is_empty to.now) || is_some_with (hangs (old_of edge.now) (changes_of edge.now) (reverse to.now)) (option_map entry_in node.entry)) }
{
    (is_root(path) && is_root(to)) || hangs_at(edge, to, seat, node)
}

/// Whether the node has a kept child of the reserved name.
fn keeps_reserved(alloc: Global, edge: &Edge, node: Option<Node>) -> Result<bool, NoMemory>
    requires indexed { IsIndexed edge.now }
    requires node { IsOldNode (old_of edge.now) node }
    ensures { IfOk result (λ b. b ≡ is_some (option_and_then (kept_below (old_of edge.now) (changes_of edge.now) mtn) (option_map Old (option_map entry_in node.entry)))) }
{
    match Comp::read(alloc, b"_MTN".as_slice()) {
        Err(_) => Err(NoMemory),
        Ok(name) => Ok(kept_child(edge, there_of(node), &name).is_some()),
    }
}

/// Whether a rename gives the node, or a child of it, the reserved path.
fn takes_reserved(
    alloc: Global,
    edge: &Edge,
    to: &Path,
    node: Option<Node>,
) -> Result<bool, NoMemory>
    requires indexed { IsIndexed edge.now }
    requires node { IsOldNode (old_of edge.now) node }
    ensures { IfOk result (λ b. b ≡ (same_path to.now (mtn ∷ []) || (is_empty to.now && is_some (option_and_then (kept_below (old_of edge.now) (changes_of edge.now) mtn) (option_map Old (option_map entry_in node.entry)))))) }
{
    if is_reserved(to) {
        return Ok(true);
    }
    if !is_root(to) {
        return Ok(false);
    }
    keeps_reserved(alloc, edge, node)
}

/// Whether a rename puts the node below a file, or a file at the root path.
fn has_no_dir(edge: &Edge, to: &Path, seat: &Seat, node: Option<Node>) -> bool
    requires parent { option_map seen seat.now.parent ≡ parent_up (old_of edge.now) (changes_of edge.now) (reverse to.now) }
    ensures { result ≡ (below_file (old_of edge.now) (changes_of edge.now) to.now || (is_empty to.now && stands_file (option_map Old (option_map entry_in node.entry)))) }
{
    is_file(seat.parent) || (is_root(to) && is_file(there_of(node)))
}

fn why_rename(
    alloc: Global,
    edge: &Edge,
    at: usize,
    path: &Path,
    to: &Path,
) -> Result<Option<Why>, NoMemory>
    requires { IsIndexed edge.now }
    ensures { IfOk result (λ w. w ≡ why (old_of edge.now) (changes_of edge.now) (take at (changes_of edge.now)) (Rename path.now to.now)) }
{
    let node = old_at(edge.old, path);
    let seat = seat_of(alloc, edge, to)?;
    let reserved = takes_reserved(alloc, edge, to, node)?;
    Ok(first_reason(&[
        (is_lost(edge, node), Why::NoPath),
        (stays(edge, path, to, &seat, node), Why::NoChange),
        (reserved, Why::Reserved),
        (is_taken(edge, at, to, &seat), Why::Taken),
        (lacks_parent(edge, to, &seat), Why::NoParent),
        (has_no_dir(edge, to, &seat, node), Why::NotDir),
    ]))
}

fn why_add_dir(alloc: Global, edge: &Edge, at: usize, path: &Path) -> Result<Option<Why>, NoMemory>
    requires { IsIndexed edge.now }
    ensures { IfOk result (λ w. w ≡ why (old_of edge.now) (changes_of edge.now) (take at (changes_of edge.now)) (AddDir path.now)) }
{
    let seat = seat_of(alloc, edge, path)?;
    Ok(first_reason(&[
        (is_reserved(path), Why::Reserved),
        (is_taken(edge, at, path, &seat), Why::Taken),
        (lacks_parent(edge, path, &seat), Why::NoParent),
        (is_file(seat.parent), Why::NotDir),
    ]))
}

fn why_add_file(alloc: Global, edge: &Edge, at: usize, path: &Path) -> Result<Option<Why>, NoMemory>
    requires { IsIndexed edge.now }
    ensures { IfOk result (λ w. (content : Id) → w ≡ why (old_of edge.now) (changes_of edge.now) (take at (changes_of edge.now)) (AddFile path.now content)) }
{
    let seat = seat_of(alloc, edge, path)?;
    Ok(first_reason(&[
        (is_reserved(path), Why::Reserved),
        (is_taken(edge, at, path, &seat), Why::Taken),
        (lacks_parent(edge, path, &seat), Why::NoParent),
        (is_file(seat.parent) || is_root(path), Why::NotDir),
    ]))
}

/// Whether an old file with that content stands there.
fn has_content(there: Option<There>, content: Id) -> bool
    ensures { result ≡ holds content (option_map seen there.entry) }
{
    match there {
        Some(There::Old { node }) => match node.value.body {
            Body::Dir => false,
            Body::File { content: own } => own == content,
        },
        _ => false,
    }
}

fn why_patch(
    alloc: Global,
    edge: &Edge,
    path: &Path,
    from: Id,
    to: Id,
) -> Result<Option<Why>, NoMemory>
    requires { IsIndexed edge.now }
    ensures { IfOk result (λ w. (before : Seq Change) → w ≡ why (old_of edge.now) (changes_of edge.now) before (Patch path.now from to)) }
{
    let there = occupant_of(alloc, edge, path.comps())?;
    Ok(first_reason(&[
        (there.is_none(), Why::NoPath),
        (!is_file(there), Why::NotFile),
        (!has_content(there, from), Why::WrongContent),
        (from == to, Why::NoChange),
    ]))
}

/// The live value of a key in the old entry of what stands there.
fn old_value<'a>(there: Option<There<'a>>, key: &[u8]) -> Option<&'a Bytes>
    requires rising { HasRisingKeys (option_map seen there) }
    ensures { option_copied result ≡ old_live key.now (option_map seen there.entry) }
{
    match there {
        Some(There::Old { node }) => live_value(node.value.attrs.as_slice(), key),
        _ => None,
    }
}

fn is_value(live: Option<&Bytes>, value: &[u8]) -> bool
    ensures { result ≡ is_some_with (same_bytes value.now) (option_copied live.entry) }
{
    match live {
        None => false,
        Some(live) => value == live.as_slice(),
    }
}

fn why_clear(alloc: Global, edge: &Edge, path: &Path, key: &Bytes) -> Result<Option<Why>, NoMemory>
    requires { IsIndexed edge.now }
    ensures { IfOk result (λ w. (before : Seq Change) → w ≡ why (old_of edge.now) (changes_of edge.now) before (Clear path.now key.now)) }
{
    let there = occupant_of(alloc, edge, path.comps())?;
    Ok(first_reason(&[
        (there.is_none(), Why::NoPath),
        (old_value(there, key.as_slice()).is_none(), Why::NoAttr),
    ]))
}

fn why_set(
    alloc: Global,
    edge: &Edge,
    path: &Path,
    key: &Bytes,
    value: &Bytes,
) -> Result<Option<Why>, NoMemory>
    requires { IsIndexed edge.now }
    ensures { IfOk result (λ w. (before : Seq Change) → w ≡ why (old_of edge.now) (changes_of edge.now) before (Set path.now key.now value.now)) }
{
    let there = occupant_of(alloc, edge, path.comps())?;
    let live = old_value(there, key.as_slice());
    Ok(first_reason(&[
        (there.is_none(), Why::NoPath),
        (is_value(live, value.as_slice()), Why::NoChange),
    ]))
}

/// Why the change at a position fails, if it does.
pub fn why_of(
    alloc: Global,
    edge: &Edge,
    at: usize,
    change: &Change,
) -> Result<Option<Why>, NoMemory>
    requires { IsIndexed edge.now }
    ensures { IfOk result (λ w. w ≡ why (old_of edge.now) (changes_of edge.now) (take at (changes_of edge.now)) change.now) }
{
    match change {
        Change::Delete { path } => why_delete(alloc, edge, path),
        Change::Rename { path, to } => why_rename(alloc, edge, at, path, to),
        Change::AddDir { path } => why_add_dir(alloc, edge, at, path),
        Change::AddFile { path, content: _ } => why_add_file(alloc, edge, at, path),
        Change::Patch { path, from, to } => why_patch(alloc, edge, path, *from, *to),
        Change::Clear { path, key } => why_clear(alloc, edge, path, key),
        Change::Set { path, key, value } => why_set(alloc, edge, path, key, value),
    }
}
