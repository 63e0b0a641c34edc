// Live nodes whose chains of decided parents return to them.
ghost use Rattle.std.specs.Prelude.{◌≡◌, ◌<◌, ◌≤◌, ◌+◌, ◌^◌, ℕ, IsTrue, IfOk, map, length, slice_index};
ghost use Rattle.std.specs.List.{All};
ghost use Rattle.mtn_base.specs.Names.{name_cmp};
ghost use Rattle.mtn_decide.specs.declared.decision.Decision.{Decision};
ghost use Rattle.mtn_base.specs.Lists.{rises};
ghost use Rattle.mtn_conflicts.specs.Lists.{AreItemsOf, slot_item};
ghost use Rattle.mtn_conflicts.specs.Parts.{AreFlags, AreUps, AreRaisedFrom, AreSeen, IsUpTo, IsWay};
ghost use Rattle.mtn_conflicts.specs.Slots.{IsInLoop, parent_in};

use crate::flagged::{flags_of, items_of, raise};
use crate::item::Item;
use crate::place::place_of;
use mtn_base::{List, NoMemory};
use mtn_decide::{Decision, SlotChoice};
use mtn_roster::Slot;
use std::alloc::Global;

/// The place of the live decided parent; one past all nodes where there is none.
fn up_of(nodes: &[Decision], choice: &SlotChoice) -> usize
    requires { IsTrue (rises name_cmp (map (λ (d : Decision). d.name) nodes.now)) }
    ensures { IsUpTo nodes.now (parent_in choice.now) result }
{
    match choice {
        SlotChoice::Clash { .. } => nodes.len(),
        SlotChoice::Fixed(slot) => match slot {
            Slot::Root => nodes.len(),
            Slot::Below { parent, .. } => match place_of(nodes, parent) {
                None => nodes.len(),
                Some(place) => place,
            },
        },
    }
}

/// For each place that of the live decided parent.
fn ups_of(alloc: Global, nodes: &[Decision]) -> Result<Vec<usize>, NoMemory>
    requires { IsTrue (rises name_cmp (map (λ (d : Decision). d.name) nodes.now)) }
    ensures { IfOk result (λ ups. AreUps nodes.now ups.items) }
{
    let mut ups = Vec::new(alloc);
    for node in nodes {
        ups.push(up_of(nodes, &node.slot))?;
    }
    ups.push(nodes.len())?;
    Ok(ups)
}

/// So many places, none of which has a mark.
fn no_marks(alloc: Global, count: usize) -> Result<Vec<usize>, NoMemory>
    ensures long { IfOk result (λ marks. length marks.items ≡ count) }
    ensures none { IfOk result (λ marks. (k : ℕ) → slice_index marks.items k ≡ 0) }
{
    let mut marks = Vec::with_capacity(alloc, count)?;
    for _ in 0..count {
        marks.push(0)?;
    }
    Ok(marks)
}

/// Marks the way up from a place, to the first that has a mark; gives where it ended.
fn mark_way(ups: &[usize], from: usize, mark: usize, marks: &mut Vec<usize>) -> usize
    requires within { All (λ k. k < length ups.now) ups.now }
    requires long { length marks.old.items ≡ length ups.now }
    requires from { from < length ups.now }
    requires mark { 0 < mark }
    ensures within { result < length ups.now }
    ensures way { IsWay ups.now from mark marks.old.items result marks.new.items }
{
    let mut at = from;
    for _ in 0..ups.len() {
        if marks[at] != 0 {
            return at;
        }
        marks[at] = mark;
        at = ups[at];
    }
    at
}

/// Raises the flags of a place and of all on the way up from it, until it returns there.
fn raise_round(ups: &[usize], start: usize, flags: &mut Vec<bool>)
    requires within { All (λ k. k < length ups.now) ups.now }
    requires start { start < length ups.now }
    ensures { AreRaisedFrom ups.now start flags.old.items flags.new.items }
{
    let mut at = start;
    for _ in 0..ups.len() {
        raise(flags, at);
        at = ups[at];
        if at == start {
            return;
        }
    }
}

/// Marks the way up from a place, and flags the loop that it ends in, if no earlier way came there.
fn see(ups: &[usize], from: usize, marks: &mut Vec<usize>, flags: &mut Vec<bool>)
    requires within { All (λ k. k < length ups.now) ups.now }
    requires from { from < length ups.now }
    requires room { from + 1 < 2 ^ 64 }
    requires earlier { All (λ m. m ≤ from) marks.old.items }
    requires seen { AreSeen ups.now marks.old.items flags.old.items }
    ensures flags { length flags.new.items ≡ length flags.old.items }
    ensures earlier { All (λ m. m ≤ from + 1) marks.new.items }
    ensures kept { (k : ℕ) → 0 < slice_index marks.old.items k → 0 < slice_index marks.new.items k }
    ensures here { 0 < slice_index marks.new.items from }
    ensures seen { AreSeen ups.now marks.new.items flags.new.items }
{
    let mark = from + 1;
    let at = mark_way(ups, from, mark, marks);
    if marks[at] == mark {
        raise_round(ups, at, flags);
    }
}

/// Which nodes are in a loop, by one pass: each way up is gone along to where an earlier one was, and each
/// loop round once more, by the first way that comes to it.
fn loop_flags(alloc: Global, nodes: &[Decision]) -> Result<Vec<bool>, NoMemory>
    requires { IsTrue (rises name_cmp (map (λ (d : Decision). d.name) nodes.now)) }
    ensures { IfOk result (λ flags. AreFlags (IsInLoop nodes.now) nodes.now flags.items) }
{
    let ups = ups_of(alloc, nodes)?;
    let mut marks = no_marks(alloc, ups.len())?;
    let mut flags = flags_of(alloc, nodes.len())?;
    for from in 0..nodes.len() {
        see(&ups, from, &mut marks, &mut flags);
    }
    Ok(flags)
}

/// The nodes whose chains of decided parents return to them.
pub fn looped(alloc: Global, nodes: &[Decision]) -> Result<List<Item>, NoMemory>
    requires { IsTrue (rises name_cmp (map (λ (d : Decision). d.name) nodes.now)) }
    ensures { IfOk result (AreItemsOf (IsInLoop nodes.now) slot_item nodes.now) }
{
    let flags = loop_flags(alloc, nodes)?;
    items_of(alloc, nodes, &flags)
}
