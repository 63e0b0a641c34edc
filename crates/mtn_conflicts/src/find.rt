// The lists of conflicts that look at one node at a time, and at its parent.
ghost use Rattle.std.specs.Prelude.{◌≡◌, ◌↔◌, ◌++◌, List, IsTrue, IfOk, OnOk, map};
ghost use Rattle.mtn_base.specs.Names.{name_cmp};
ghost use Rattle.mtn_base.specs.declared.name.NodeName.{NodeName};
ghost use Rattle.mtn_decide.specs.declared.decision.AttrDecision.{AttrDecision};
ghost use Rattle.mtn_decide.specs.declared.decision.Decision.{Decision};
ghost use Rattle.mtn_decide.specs.Decisions.{decision_of};
ghost use Rattle.mtn_base.specs.Lists.{rises};
ghost use Rattle.mtn_conflicts.specs.Lists.{AreItemsOf, IsContentTorn, IsAttrTorn, slot_item, content_item, attr_item, pending_item, attrs_of, all_attrs};
ghost use Rattle.mtn_conflicts.specs.Slots.{HasRoot, IsMisnamed, IsOrphaned, IsTorn};
ghost use Rattle.mtn_conflicts.specs.Parts.{IsRootChoice, IsLiveRoot, is_mtn, IsAttrChoiceTorn};

use crate::item::Item;
use crate::make::{item_by_attr, item_by_content, item_by_pending, item_by_slot};
use crate::place::place_of;
use mtn_base::{Comp, List, NoMemory, NodeName};
use mtn_decide::{AttrChoice, ContentChoice, Decision, Pending, SlotChoice};
use mtn_roster::Slot;
use std::alloc::Global;

/// Whether a slot is decided to be the root slot.
fn is_root(choice: &SlotChoice) -> bool
    ensures { IsTrue result ↔ IsRootChoice choice.now }
{
    match choice {
        SlotChoice::Fixed(slot) => slot.is_root(),
        SlotChoice::Clash { .. } => false,
    }
}

/// Whether a live node has the root slot.
pub fn has_root(nodes: &[Decision]) -> bool
    requires { IsTrue (rises name_cmp (map (λ (d : Decision). d.name) nodes.now)) }
    ensures { IsTrue result ↔ HasRoot nodes.now }
{
    for node in nodes {
        if is_root(&node.slot) {
            return true;
        }
    }
    false
}

/// Whether a component is `_MTN`.
fn is_reserved(name: &Comp) -> bool
    ensures { result ≡ is_mtn name.now }
{
    name.bytes() == b"_MTN".as_slice()
}

/// Whether a node of a name is live and has the root slot.
fn is_live_root(nodes: &[Decision], name: &NodeName) -> bool
    requires { IsTrue (rises name_cmp (map (λ (d : Decision). d.name) nodes.now)) }
    ensures { IsTrue result ↔ IsLiveRoot nodes.now name.now }
{
    match place_of(nodes, name) {
        None => false,
        Some(place) => is_root(&nodes[place].slot),
    }
}

/// Whether a node's name is `_MTN`, below a live node with the root slot.
fn is_misnamed(nodes: &[Decision], node: &Decision) -> bool
    requires { IsTrue (rises name_cmp (map (λ (d : Decision). d.name) nodes.now)) }
    ensures { IsTrue result ↔ IsMisnamed nodes.now node.now }
{
    match &node.slot {
        SlotChoice::Clash { .. } => false,
        SlotChoice::Fixed(slot) => match slot {
            Slot::Root => false,
            Slot::Below { parent, name } => {
                if is_reserved(name) {
                    is_live_root(nodes, parent)
                } else {
                    false
                }
            }
        },
    }
}

/// Whether the decided parent of a node does not live.
fn is_orphaned(nodes: &[Decision], node: &Decision) -> bool
    requires { IsTrue (rises name_cmp (map (λ (d : Decision). d.name) nodes.now)) }
    ensures { IsTrue result ↔ IsOrphaned nodes.now node.now }
{
    match &node.slot {
        SlotChoice::Clash { .. } => false,
        SlotChoice::Fixed(slot) => match slot {
            Slot::Root => false,
            Slot::Below { parent, .. } => place_of(nodes, parent).is_none(),
        },
    }
}

/// Whether the slot of a node clashes.
fn is_torn(node: &Decision) -> bool
    ensures { IsTrue result ↔ IsTorn node.now }
{
    match &node.slot {
        SlotChoice::Fixed(_) => false,
        SlotChoice::Clash { .. } => true,
    }
}

/// Whether the content of a node clashes.
fn is_content_torn(node: &Decision) -> bool
    ensures { IsTrue result ↔ IsContentTorn node.now }
{
    match node.content {
        ContentChoice::Absent => false,
        ContentChoice::Fixed(_) => false,
        ContentChoice::Clash { .. } => true,
    }
}

/// Whether the value of an attribute clashes.
fn is_attr_torn(choice: &AttrChoice) -> bool
    ensures { IsTrue result ↔ IsAttrChoiceTorn choice.now }
{
    match choice {
        AttrChoice::Fixed(_) => false,
        AttrChoice::Clash { .. } => true,
    }
}

/// The nodes that are named `_MTN` below a live node with the root slot.
pub fn misnamed(alloc: Global, nodes: &[Decision]) -> Result<List<Item>, NoMemory>
    requires { IsTrue (rises name_cmp (map (λ (d : Decision). d.name) nodes.now)) }
    ensures { IfOk result (AreItemsOf (IsMisnamed nodes.now) slot_item nodes.now) }
{
    let mut items = Vec::new(alloc);
    for node in nodes {
        if is_misnamed(nodes, node) {
            items.push(item_by_slot(alloc, node)?)?;
        }
    }
    Ok(List::from_vec(items))
}

/// The nodes whose decided parents do not live.
pub fn orphaned(alloc: Global, nodes: &[Decision]) -> Result<List<Item>, NoMemory>
    requires { IsTrue (rises name_cmp (map (λ (d : Decision). d.name) nodes.now)) }
    ensures { IfOk result (AreItemsOf (IsOrphaned nodes.now) slot_item nodes.now) }
{
    let mut items = Vec::new(alloc);
    for node in nodes {
        if is_orphaned(nodes, node) {
            items.push(item_by_slot(alloc, node)?)?;
        }
    }
    Ok(List::from_vec(items))
}

/// The nodes whose slots clash.
pub fn torn(alloc: Global, nodes: &[Decision]) -> Result<List<Item>, NoMemory>
    ensures { IfOk result (AreItemsOf IsTorn slot_item nodes.now) }
{
    let mut items = Vec::new(alloc);
    for node in nodes {
        if is_torn(node) {
            items.push(item_by_slot(alloc, node)?)?;
        }
    }
    Ok(List::from_vec(items))
}

/// The files whose contents clash.
pub fn torn_contents(alloc: Global, nodes: &[Decision]) -> Result<List<Item>, NoMemory>
    ensures { IfOk result (AreItemsOf IsContentTorn content_item nodes.now) }
{
    let mut items = Vec::new(alloc);
    for node in nodes {
        if is_content_torn(node) {
            items.push(item_by_content(alloc, node)?)?;
        }
    }
    Ok(List::from_vec(items))
}

/// Appends the attributes of a node that clash.
fn push_torn_attrs(alloc: Global, node: &Decision, items: &mut Vec<Item>) -> Result<(), NoMemory>
    ensures { OnOk result ((before : List (NodeName × AttrDecision)) → AreItemsOf IsAttrTorn attr_item before items.old.items →
        AreItemsOf IsAttrTorn attr_item (before ++ attrs_of node.now) items.new.items) }
{
    for attr in node.attrs.as_slice() {
        if is_attr_torn(&attr.choice) {
            items.push(item_by_attr(alloc, &node.name, attr)?)?;
        }
    }
    Ok(())
}

/// The attributes that clash.
pub fn torn_attrs(alloc: Global, nodes: &[Decision]) -> Result<List<Item>, NoMemory>
    ensures { IfOk result (AreItemsOf IsAttrTorn attr_item (all_attrs nodes.now)) }
{
    let mut items = Vec::new(alloc);
    for node in nodes {
        push_torn_attrs(alloc, node, &mut items)?;
    }
    Ok(List::from_vec(items))
}

/// The pending files.
pub fn dropped(alloc: Global, pending: &[Pending]) -> Result<List<Item>, NoMemory>
    ensures { IfOk result (λ items. items ≡ map pending_item pending.now) }
{
    let mut items = Vec::with_capacity(alloc, pending.len())?;
    for file in pending {
        items.push(item_by_pending(alloc, file)?)?;
    }
    Ok(List::from_vec(items))
}
