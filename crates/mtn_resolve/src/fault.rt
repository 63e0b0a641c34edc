// Why a resolution does not fit the decisions before any.
ghost use Rattle.std.specs.Prelude.{◌≡◌, IsTrue, map};
ghost use Rattle.mtn_base.specs.Names.{bytes_cmp};
ghost use Rattle.mtn_decide.specs.Decisions.{choice_of};
ghost use Rattle.mtn_base.specs.Lists.{rises, is_some_with};
ghost use Rattle.mtn_decide.specs.declared.decision.AttrDecision.{AttrDecision};
ghost use Rattle.mtn_resolve.specs.Faults.{has_items as some_items, has_tree_conflict as some_tree_conflict, is_content_torn, is_attr_torn, is_live as lives, is_live_dir as lives_as_dir, is_pending as waits, is_known as known_in, hangs as hangs_in, names_known as all_known, names_dirs as all_dirs, clashes, key_clashes as value_clashes, has_conflict as some_conflict, fault_of as fault_for};

use crate::find::{place_of_file, place_of_key, place_of_node};
use crate::resolution::Resolution;
use mtn_base::{List, NodeName};
use mtn_conflicts::{Conflicts, Item};
use mtn_decide::{AttrChoice, AttrDecision, ContentChoice, Decisions};
use mtn_roster::Slot;

/// Why a resolution does not fit.
#[derive(Clone, Copy, PartialEq, Eq)]
pub enum Fault {
    UnknownNode,
    NotADirectory,
    NotAConflict,
}

fn has_items(items: &List<Item>) -> bool
    ensures { result ≡ some_items items.now }
{
    !items.as_slice().is_empty()
}

/// Whether a list of tree conflicts has an item.
pub fn has_tree_conflict(conflicts: &Conflicts) -> bool
    ensures { result ≡ some_tree_conflict conflicts.now }
{
    conflicts.missing_root
        || has_items(&conflicts.invalid_name)
        || has_items(&conflicts.directory_loop)
        || has_items(&conflicts.orphaned_node)
        || has_items(&conflicts.multiple_name)
        || has_items(&conflicts.duplicate_name)
        || has_items(&conflicts.dropped_modified)
}

/// Whether a node lives.
fn is_live(decisions: &Decisions, node: &NodeName) -> bool
    ensures { result ≡ lives decisions.now node.now }
{
    place_of_node(decisions.nodes(), node).is_some()
}

/// Whether a node lives and is a directory.
fn is_live_dir(decisions: &Decisions, node: &NodeName) -> bool
    ensures { result ≡ lives_as_dir decisions.now node.now }
{
    let nodes = decisions.nodes();
    match place_of_node(nodes, node) {
        None => false,
        Some(place) => nodes[place].is_dir,
    }
}

/// Whether a file is pending.
fn is_pending(decisions: &Decisions, node: &NodeName) -> bool
    ensures { result ≡ waits decisions.now node.now }
{
    let _nodes = decisions.nodes();
    place_of_file(decisions.pending(), node).is_some()
}

fn is_known(decisions: &Decisions, node: &NodeName) -> bool
    ensures { result ≡ known_in decisions.now node.now }
{
    is_live(decisions, node) || is_pending(decisions, node)
}

/// Whether a slot is the root's or below a live node.
fn hangs(decisions: &Decisions, slot: &Slot) -> bool
    ensures { result ≡ hangs_in decisions.now slot.now }
{
    match slot {
        Slot::Root => true,
        Slot::Below { parent, name: _ } => is_live(decisions, parent),
    }
}

fn names_known(decisions: &Decisions, resolution: &Resolution) -> bool
    ensures { result ≡ all_known decisions.now resolution.now }
{
    match resolution {
        Resolution::Place { node, slot } => is_known(decisions, node) && hangs(decisions, slot),
        _ => is_known(decisions, resolution.node()),
    }
}

fn names_dirs(decisions: &Decisions, resolution: &Resolution) -> bool
    ensures { result ≡ all_dirs decisions.now resolution.now }
{
    match resolution {
        Resolution::Place { node, slot } => match slot {
            Slot::Root => is_live_dir(decisions, node),
            Slot::Below { parent, name: _ } => is_live_dir(decisions, parent),
        },
        _ => true,
    }
}

fn is_torn(content: ContentChoice) -> bool
    ensures { result ≡ is_content_torn content }
{
    match content {
        ContentChoice::Absent => false,
        ContentChoice::Fixed(_) => false,
        ContentChoice::Clash { left: _, right: _ } => true,
    }
}

/// Whether the content of a node clashes.
fn content_clashes(decisions: &Decisions, node: &NodeName) -> bool
    ensures { result ≡ clashes decisions.now node.now }
{
    let nodes = decisions.nodes();
    match place_of_node(nodes, node) {
        None => false,
        Some(place) => is_torn(nodes[place].content),
    }
}

fn is_value_torn(choice: &AttrChoice) -> bool
    ensures { result ≡ is_attr_torn choice.now }
{
    match choice {
        AttrChoice::Fixed(_) => false,
        AttrChoice::Clash { left: _, right: _ } => true,
    }
}

/// Whether the value of a key clashes.
fn value_of_key_clashes(attrs: &[AttrDecision], key: &[u8]) -> bool
    requires { IsTrue (rises bytes_cmp (map (λ (a : AttrDecision). a.key) attrs.now)) }
    ensures { result ≡ is_some_with is_attr_torn (choice_of attrs.now key.now) }
{
    match place_of_key(attrs, key) {
        None => false,
        Some(place) => is_value_torn(&attrs[place].choice),
    }
}

fn key_clashes(decisions: &Decisions, node: &NodeName, key: &[u8]) -> bool
    ensures { result ≡ value_clashes decisions.now node.now key.now }
{
    let nodes = decisions.nodes();
    match place_of_node(nodes, node) {
        None => false,
        Some(place) => value_of_key_clashes(nodes[place].attrs.as_slice(), key),
    }
}

/// Whether there is a conflict that a resolution may resolve.
fn has_conflict(decisions: &Decisions, conflicts: &Conflicts, resolution: &Resolution) -> bool
    ensures { result ≡ some_conflict decisions.now conflicts.now resolution.now }
{
    match resolution {
        Resolution::Drop { node: _ } => has_tree_conflict(conflicts),
        Resolution::Place { node: _, slot: _ } => has_tree_conflict(conflicts),
        Resolution::Content { node, pick: _ } => content_clashes(decisions, node),
        Resolution::AttrSet {
            node,
            key,
            value: _,
        } => key_clashes(decisions, node, key.as_slice()),
        Resolution::AttrClear { node, key } => key_clashes(decisions, node, key.as_slice()),
        Resolution::Keep { node } => is_pending(decisions, node),
    }
}

/// Why a resolution does not fit, if it does not.
pub fn fault_of(
    decisions: &Decisions,
    conflicts: &Conflicts,
    resolution: &Resolution,
) -> Option<Fault>
    ensures { result ≡ fault_for decisions.now conflicts.now resolution.now }
{
    if !names_known(decisions, resolution) {
        Some(Fault::UnknownNode)
    } else if !names_dirs(decisions, resolution) {
        Some(Fault::NotADirectory)
    } else if !has_conflict(decisions, conflicts, resolution) {
        Some(Fault::NotAConflict)
    } else {
        None
    }
}
