// Live nodes with one decided slot.
ghost use Rattle.std.specs.Prelude.{◌≡◌, ◌↔◌, IsTrue, IfOk, map};
ghost use Rattle.mtn_base.specs.Names.{name_cmp};
ghost use Rattle.mtn_decide.specs.declared.decision.Decision.{Decision};
ghost use Rattle.mtn_roster.specs.Index.{slot_cmp};
ghost use Rattle.mtn_base.specs.Lists.{rises};
ghost use Rattle.mtn_conflicts.specs.Lists.{AreItemsOf, slot_item};
ghost use Rattle.mtn_conflicts.specs.Parts.{AreFlags, AreSameSlots, AreTwins, IsBySlot, IsMarked, choice_at, choice_cmp};
ghost use Rattle.mtn_conflicts.specs.Slots.{IsDuplicate};

use crate::flagged::{flags_of, items_of, raise};
use crate::item::Item;
use mtn_base::{List, NoMemory};
use mtn_decide::{Decision, SlotChoice};
use mtn_roster::Slot;
use std::alloc::Global;
use std::cmp::Ordering;

/// How two slots stand.
fn compare_slots(first: &Slot, second: &Slot) -> Ordering
    ensures { result ≡ slot_cmp first.now second.now }
{
    match first {
        Slot::Root => match second {
            Slot::Root => Ordering::Equal,
            Slot::Below { .. } => Ordering::Less,
        },
        Slot::Below { parent, name } => match second {
            Slot::Root => Ordering::Greater,
            Slot::Below { parent: p, name: n } => parent.compare(p).then(name.cmp(n)),
        },
    }
}

/// How two decided slots stand: those that clash come first.
fn compare_choices(first: &SlotChoice, second: &SlotChoice) -> Ordering
    ensures { result ≡ choice_cmp first.now second.now }
{
    match first {
        SlotChoice::Fixed(slot) => match second {
            SlotChoice::Fixed(other) => compare_slots(slot, other),
            SlotChoice::Clash { .. } => Ordering::Greater,
        },
        SlotChoice::Clash { .. } => match second {
            SlotChoice::Fixed(_) => Ordering::Less,
            SlotChoice::Clash { .. } => Ordering::Equal,
        },
    }
}

/// Whether two slots are decided and the same.
fn are_same_choices(first: &SlotChoice, second: &SlotChoice) -> bool
    ensures { IsTrue result ↔ AreSameSlots first.now second.now }
{
    match first {
        SlotChoice::Clash { .. } => false,
        SlotChoice::Fixed(slot) => match second {
            SlotChoice::Clash { .. } => false,
            SlotChoice::Fixed(other) => compare_slots(slot, other).is_eq(),
        },
    }
}

/// How the nodes at two places stand by their slots.
fn compare_places(nodes: &[Decision], first: usize, second: usize) -> Ordering
    ensures { result ≡ choice_cmp (choice_at nodes.now first) (choice_at nodes.now second) }
{
    match nodes.get(first) {
        None => match nodes.get(second) {
            None => Ordering::Equal,
            Some(other) => match &other.slot {
                SlotChoice::Fixed(_) => Ordering::Less,
                SlotChoice::Clash { .. } => Ordering::Equal,
            },
        },
        Some(node) => match nodes.get(second) {
            None => match &node.slot {
                SlotChoice::Fixed(_) => Ordering::Greater,
                SlotChoice::Clash { .. } => Ordering::Equal,
            },
            Some(other) => compare_choices(&node.slot, &other.slot),
        },
    }
}

/// Whether the nodes at two places have one decided slot.
fn are_twins(nodes: &[Decision], first: usize, second: usize) -> bool
    ensures { IsTrue result ↔ AreTwins nodes.now first second }
{
    match nodes.get(first) {
        None => false,
        Some(node) => match nodes.get(second) {
            None => false,
            Some(other) => are_same_choices(&node.slot, &other.slot),
        },
    }
}

/// The places of the nodes by ascending slots.
fn places_by_slot(alloc: Global, nodes: &[Decision]) -> Result<Vec<usize>, NoMemory>
    ensures { IfOk result (λ places. IsBySlot nodes.now places.items) }
{
    let mut places = Vec::with_capacity(alloc, nodes.len())?;
    for place in 0..nodes.len() {
        places.push(place)?;
    }
    places.sort_unstable_by(|first, second| compare_places(nodes, *first, *second));
    Ok(places)
}

/// Raises the flags of two places, if the nodes there have one decided slot.
fn mark_twins(nodes: &[Decision], first: usize, second: usize, flags: &mut Vec<bool>)
    ensures { IsMarked nodes.now first second flags.old.items flags.new.items }
{
    if are_twins(nodes, first, second) {
        raise(flags, first);
        raise(flags, second);
    }
}

/// Which nodes have a decided slot that another has: in the order of slots they stand side by side.
fn twin_flags(alloc: Global, nodes: &[Decision]) -> Result<Vec<bool>, NoMemory>
    requires { IsTrue (rises name_cmp (map (λ (d : Decision). d.name) nodes.now)) }
    ensures { IfOk result (λ flags. AreFlags (IsDuplicate nodes.now) nodes.now flags.items) }
{
    let places = places_by_slot(alloc, nodes)?;
    let mut flags = flags_of(alloc, nodes.len())?;
    for at in 1..places.len() {
        mark_twins(nodes, places[at - 1], places[at], &mut flags);
    }
    Ok(flags)
}

/// The nodes with a decided slot that another has.
pub fn duplicates(alloc: Global, nodes: &[Decision]) -> Result<List<Item>, NoMemory>
    requires { IsTrue (rises name_cmp (map (λ (d : Decision). d.name) nodes.now)) }
    ensures { IfOk result (AreItemsOf (IsDuplicate nodes.now) slot_item nodes.now) }
{
    let flags = twin_flags(alloc, nodes)?;
    items_of(alloc, nodes, &flags)
}
