// The tree of a merge without conflicts.
ghost use Rattle.std.specs.Prelude.{◌≡◌, ◌↔◌, IsTrue, IfOk, Some, map};
ghost use Rattle.std.specs.List.{list_any};
ghost use Rattle.mtn_base.specs.Names.{name_cmp};
ghost use Rattle.mtn_decide.specs.declared.decision.AttrDecision.{AttrDecision};
ghost use Rattle.mtn_decide.specs.declared.decision.Decision.{Decision};
ghost use Rattle.mtn_decide.specs.Decisions.{decision_of};
ghost use Rattle.mtn_roster.specs.Building.{IsBuildable, tree_of};
ghost use Rattle.mtn_base.specs.Lists.{rises};
ghost use Rattle.mtn_conflicts.specs.Lists.{AreClear};
ghost use Rattle.mtn_conflicts.specs.Result.{decided_slot, decided_body, decided_attr, decided_entry, tree_before, new_name, new_slot, new_entry, result_of, ParentsAreDirs, NoneBornIn};

use crate::place::place_of;
use mtn_base::{Id, List, NoMemory, NodeName};
use mtn_decide::{AttrChoice, AttrDecision, ContentChoice, Decision, Decisions, SlotChoice};
use mtn_roster::attrs::copy_value;
use mtn_roster::{Attr, Body, BuildError, Entry, Roster, Slot};
use std::alloc::Global;

/// The decided slot, or left's.
fn slot_of(choice: &SlotChoice) -> &Slot
    ensures { result.now ≡ decided_slot choice.now }
{
    match choice {
        SlotChoice::Fixed(slot) => slot,
        SlotChoice::Clash { left, .. } => left,
    }
}

/// The decided kind and content, or left's.
fn body_of(choice: ContentChoice) -> Body
    ensures { result ≡ decided_body choice }
{
    match choice {
        ContentChoice::Absent => Body::Dir,
        ContentChoice::Fixed(content) => Body::File { content },
        ContentChoice::Clash { left, .. } => Body::File { content: left },
    }
}

/// An attribute with its decided value, or left's.
fn attr_of(alloc: Global, attr: &AttrDecision) -> Result<Attr, NoMemory>
    ensures { IfOk result (λ a. a ≡ decided_attr attr.now) }
{
    let key = attr.key.copy(alloc)?;
    match &attr.choice {
        AttrChoice::Fixed(value) => Ok(Attr {
            key,
            value: copy_value(alloc, value)?,
        }),
        AttrChoice::Clash { left, .. } => Ok(Attr {
            key,
            value: copy_value(alloc, left)?,
        }),
    }
}

/// All attributes of a node with their decided values.
fn attrs_of(alloc: Global, attrs: &[AttrDecision]) -> Result<Vec<Attr>, NoMemory>
    ensures { IfOk result (λ as'. as'.items ≡ map decided_attr attrs.now) }
{
    let mut decided = Vec::with_capacity(alloc, attrs.len())?;
    for attr in attrs {
        decided.push(attr_of(alloc, attr)?)?;
    }
    Ok(decided)
}

/// A live node with its decided scalars.
fn entry_of(alloc: Global, node: &Decision) -> Result<Entry, NoMemory>
    ensures { IfOk result (λ e. e ≡ decided_entry node.now) }
{
    Ok(Entry {
        name: node.name.copy(alloc)?,
        slot: slot_of(&node.slot).copy(alloc)?,
        body: body_of(node.content),
        attrs: List::from_vec(attrs_of(alloc, node.attrs.as_slice())?),
    })
}

/// All live nodes with their decided scalars.
fn entries_of(alloc: Global, nodes: &[Decision]) -> Result<Vec<Entry>, NoMemory>
    ensures { IfOk result (λ entries. entries.items ≡ tree_before nodes.now) }
{
    let mut entries = Vec::with_capacity(alloc, nodes.len())?;
    for node in nodes {
        entries.push(entry_of(alloc, node)?)?;
    }
    Ok(entries)
}

/// The tree of entries that make one.
fn tree_made(alloc: Global, entries: Vec<Entry>) -> Result<Roster, NoMemory>
    requires { IsBuildable entries.items }
    ensures { IfOk result (λ tree. tree ≡ tree_of entries.items) }
{
    match Roster::build(alloc, entries) {
        Ok(tree) => Ok(tree),
        Err(BuildError::NoMemory) => Err(NoMemory),
        Err(BuildError::Insane) => unreachable!(),
    }
}

/// The name of a node in the merged revision.
fn name_of(
    alloc: Global,
    nodes: &[Decision],
    before: &Roster,
    id: Id,
    node: &Decision,
) -> Result<NodeName, NoMemory>
    requires tree { before.now ≡ tree_before nodes.now }
    requires there { decision_of nodes.now node.now.name ≡ Some node.now }
    ensures { IfOk result (λ name. name ≡ new_name nodes.now id node.now) }
{
    if node.reborn {
        match before.path_of(alloc, &node.name)? {
            None => unreachable!(),
            Some(path) => Ok(NodeName { birth: id, path }),
        }
    } else {
        node.name.copy(alloc)
    }
}

/// A slot in the merged revision: its parent has a new name where it is reborn.
fn slot_after(
    alloc: Global,
    nodes: &[Decision],
    before: &Roster,
    id: Id,
    slot: &Slot,
) -> Result<Slot, NoMemory>
    requires tree { before.now ≡ tree_before nodes.now }
    requires rising { IsTrue (rises name_cmp (map (λ (d : Decision). d.name) nodes.now)) }
    ensures { IfOk result (λ s. s ≡ new_slot nodes.now id slot.now) }
{
    match slot {
        Slot::Root => Ok(Slot::Root),
        Slot::Below { parent, name } => match place_of(nodes, parent) {
            None => Ok(Slot::Below {
                parent: parent.copy(alloc)?,
                name: name.copy(alloc)?,
            }),
            Some(place) => Ok(Slot::Below {
                parent: name_of(alloc, nodes, before, id, &nodes[place])?,
                name: name.copy(alloc)?,
            }),
        },
    }
}

/// A node in the merged revision.
fn entry_after(
    alloc: Global,
    nodes: &[Decision],
    before: &Roster,
    id: Id,
    node: &Decision,
) -> Result<Entry, NoMemory>
    requires tree { before.now ≡ tree_before nodes.now }
    requires rising { IsTrue (rises name_cmp (map (λ (d : Decision). d.name) nodes.now)) }
    requires there { decision_of nodes.now node.now.name ≡ Some node.now }
    ensures { IfOk result (λ e. e ≡ new_entry nodes.now id node.now) }
{
    Ok(Entry {
        name: name_of(alloc, nodes, before, id, node)?,
        slot: slot_after(alloc, nodes, before, id, slot_of(&node.slot))?,
        body: body_of(node.content),
        attrs: List::from_vec(attrs_of(alloc, node.attrs.as_slice())?),
    })
}

/// All nodes in the merged revision.
fn entries_after(
    alloc: Global,
    nodes: &[Decision],
    before: &Roster,
    id: Id,
) -> Result<Vec<Entry>, NoMemory>
    requires tree { before.now ≡ tree_before nodes.now }
    requires rising { IsTrue (rises name_cmp (map (λ (d : Decision). d.name) nodes.now)) }
    ensures { IfOk result (λ entries. entries.items ≡ map (new_entry nodes.now id) nodes.now) }
{
    let mut entries = Vec::with_capacity(alloc, nodes.len())?;
    for node in nodes {
        entries.push(entry_after(alloc, nodes, before, id, node)?)?;
    }
    Ok(entries)
}

/// Whether a node is reborn. It takes no memory.
pub fn is_some_reborn(nodes: &[Decision]) -> bool
    ensures { result ≡ list_any (λ (d : Decision). d.reborn) nodes.now }
{
    for node in nodes {
        if node.reborn {
            return true;
        }
    }
    false
}

/// The tree of a merge without conflicts under the names that its nodes have, which [`under_new_names`] gives the names of a
/// revision. Where no node is reborn it has those names in every revision. It asks that what has the root slot or is a
/// decided parent is a directory.
pub fn under_old_names(alloc: Global, decisions: &Decisions) -> Result<Roster, NoMemory>
    requires clear { AreClear decisions.now }
    requires dirs { ParentsAreDirs decisions.now.nodes }
    ensures { IfOk result (λ roster. roster ≡ tree_before decisions.now.nodes) }
{
    tree_made(alloc, entries_of(alloc, decisions.nodes())?)
}

/// That tree in a revision of that id: a reborn node is named by the id and its path. It asks what [`under_old_names`] does, and that
/// the id is no node's birth.
pub fn under_new_names(
    alloc: Global,
    decisions: &Decisions,
    before: &Roster,
    reborn: Id,
) -> Result<Roster, NoMemory>
    requires clear { AreClear decisions.now }
    requires dirs { ParentsAreDirs decisions.now.nodes }
    requires tree { before.now ≡ tree_before decisions.now.nodes }
    requires fresh { NoneBornIn decisions.now.nodes reborn }
    ensures { IfOk result (λ roster. roster ≡ result_of decisions.now reborn) }
{
    tree_made(
        alloc,
        entries_after(alloc, decisions.nodes(), before, reborn)?,
    )
}

/// The tree of a merge without conflicts, in a revision of that id: a reborn node is named by the id and its
/// path. It asks that what has the root slot or is a decided parent is a directory, and that the id is no
/// node's birth.
pub fn result(alloc: Global, decisions: &Decisions, reborn: Id) -> Result<Roster, NoMemory>
    requires clear { AreClear decisions.now }
    requires dirs { ParentsAreDirs decisions.now.nodes }
    requires fresh { NoneBornIn decisions.now.nodes reborn }
    ensures { IfOk result (λ roster. roster ≡ result_of decisions.now reborn) }
{
    let old = under_old_names(alloc, decisions)?;
    if !is_some_reborn(decisions.nodes()) {
        return Ok(old);
    }
    under_new_names(alloc, decisions, &old, reborn)
}
