// The tree of a merge without conflicts.
ghost use Rattle.std.specs.Prelude.{◌≡◌, ◌↔◌, IsTrue, IsFalse, option_copied};
ghost use Rattle.mtn_decide.specs.Decisions.{decision_of};
ghost use Rattle.mtn_conflicts.specs.Lists.{AreClear};
ghost use Rattle.mtn_conflicts.specs.Result.{NoneBornIn, ParentsAreDirs};
ghost use Rattle.mtn_cases_merges.specs.Parents.{HangsOnFile};

use mtn_base::{Id, NodeName};
use mtn_case_trees::put_entry;
use mtn_conflicts::{conflicts, result};
use mtn_decide::{Decision, Decisions, SlotChoice};
use mtn_roster::{Roster, Slot};
use std::alloc::Global;

/// Whether two ids are equal.
fn are_same(first: Id, second: Id) -> bool
    ensures { IsTrue result ↔ (first ≡ second) }
{
    first == second
}

/// Whether no decision is of a node of this birth.
fn none_born_in(nodes: &[Decision], id: Id) -> bool
    ensures { IsTrue result → NoneBornIn nodes.now id }
{
    for node in nodes {
        if are_same(node.name.birth, id) {
            return false;
        }
    }
    true
}

/// The decision of a node.
fn decision_at<'a>(nodes: &'a [Decision], name: &NodeName) -> Option<&'a Decision>
    ensures { option_copied result ≡ decision_of nodes.now name.now }
{
    nodes.iter().find(|node| node.name.same(name))
}

/// Whether a file has the root slot, or the decided parent is a file.
fn hangs_on_file(nodes: &[Decision], node: &Decision) -> bool
    ensures { IsFalse result → ¬ HangsOnFile nodes.now node.now }
{
    match &node.slot {
        SlotChoice::Clash { .. } => false,
        SlotChoice::Fixed(slot) => match slot {
            Slot::Root => !node.is_dir,
            Slot::Below { parent, .. } => match decision_at(nodes, parent) {
                None => false,
                Some(above) => !above.is_dir,
            },
        },
    }
}

/// Whether what has the root slot or is a decided parent is a directory.
fn parents_are_dirs(nodes: &[Decision]) -> bool
    ensures { IsTrue result → ParentsAreDirs nodes.now }
{
    for node in nodes {
        if hangs_on_file(nodes, node) {
            return false;
        }
    }
    true
}

/// Whether decisions have no conflicts; not where memory is refused.
fn are_clear(alloc: Global, decisions: &Decisions) -> bool
    ensures { IsTrue result → AreClear decisions.now }
{
    match conflicts(alloc, decisions) {
        Ok(found) => found.none(),
        Err(_) => false,
    }
}

/// The tree, where there is one.
fn tree_of(alloc: Global, decisions: &Decisions, id: Id) -> Option<Roster> {
    let nodes = decisions.nodes();
    if are_clear(alloc, decisions) && parents_are_dirs(nodes) && none_born_in(nodes, id) {
        result(alloc, decisions, id).ok()
    } else {
        None
    }
}

fn put_tree(tree: &Roster, out: &mut Vec<u8>) -> Option<()> {
    for place in 0..tree.len() as usize {
        put_entry(tree.at_place(place)?, out).ok()?;
        out.push(b'\n').ok()?;
    }
    Some(())
}

/// Prints the entries of the tree as the revision of an id.
pub fn put_result(alloc: Global, decisions: &Decisions, id: Id, out: &mut Vec<u8>) -> Option<()> {
    put_tree(&tree_of(alloc, decisions, id)?, out)
}
