// What is decided of one scalar.
ghost use Rattle.std.specs.Prelude.{◌≡◌, ◌↔◌, IsTrue, IfOk, Some, option_map};
ghost use Rattle.mtn_base.specs.declared.name.NodeName.{NodeName};
ghost use Rattle.mtn_history_laws.specs.Scalars.Scalar.{SlotOf, ContentOf};
ghost use Rattle.mtn_marking.specs.Marking.{side_of};
ghost use Rattle.mtn_decide.specs.Sets.{IsVerdict};
ghost use Rattle.mtn_decide.specs.Verdicts.{Verdict, slot_verdict, content_verdict, attr_verdict};
ghost use Rattle.mtn_decide.specs.Parts.{left_of, right_of, attr_left, attr_right, content_side};

use crate::decision::{AttrChoice, ContentChoice, SlotChoice};
use crate::known::{AttrTurn, Content, SideAttr, SideNode, Turn};
use crate::scalar::{Choice, merge_scalar};
use mtn_ancestry::PosSet;
use mtn_base::{Id, NoMemory};
use mtn_roster::attrs::{copy_value, same_value};
use std::alloc::Global;

/// What is decided of a slot that both sides have.
fn choose_slot_of_both(
    alloc: Global,
    left: SideNode,
    right: SideNode,
    only_left: &PosSet,
    only_right: &PosSet,
) -> Result<SlotChoice, NoMemory>
    ensures { IfOk result (λ c. (n : NodeName) →
        IsVerdict only_left.now only_right.now (side_of (SlotOf n) (left_of (Turn.Both left.entry right.entry))) (side_of (SlotOf n) (right_of (Turn.Both left.entry right.entry))) (slot_verdict c)) }
{
    let equal = left.node.slot.same(&right.node.slot);
    match merge_scalar(
        equal,
        &left.marking.slot,
        &right.marking.slot,
        only_left,
        only_right,
    ) {
        Choice::Both => Ok(SlotChoice::Fixed(left.node.slot.copy(alloc)?)),
        Choice::Left => Ok(SlotChoice::Fixed(left.node.slot.copy(alloc)?)),
        Choice::Right => Ok(SlotChoice::Fixed(right.node.slot.copy(alloc)?)),
        Choice::Clash => Ok(SlotChoice::Clash {
            left: left.node.slot.copy(alloc)?,
            right: right.node.slot.copy(alloc)?,
        }),
    }
}

/// What is decided of the slot of a node.
pub fn choose_slot(
    alloc: Global,
    turn: Turn,
    only_left: &PosSet,
    only_right: &PosSet,
) -> Result<SlotChoice, NoMemory>
    ensures { IfOk result (λ c. (n : NodeName) →
        IsVerdict only_left.now only_right.now (side_of (SlotOf n) (left_of turn.entry)) (side_of (SlotOf n) (right_of turn.entry)) (slot_verdict c)) }
{
    match turn {
        Turn::Left(left) => Ok(SlotChoice::Fixed(left.node.slot.copy(alloc)?)),
        Turn::Right(right) => Ok(SlotChoice::Fixed(right.node.slot.copy(alloc)?)),
        Turn::Both(left, right) => choose_slot_of_both(alloc, left, right, only_left, only_right),
    }
}

/// Whether two contents are equal.
fn are_same_ids(first: Id, second: Id) -> bool
    ensures { IsTrue result ↔ (first ≡ second) }
{
    first == second
}

/// What is decided of a content that both sides have. It takes no memory.
fn choose_content_of_both(
    left: Content,
    right: Content,
    only_left: &PosSet,
    only_right: &PosSet,
) -> ContentChoice
    ensures { (v : Verdict) → (content_verdict result ≡ Some v) ↔
        IsVerdict only_left.now only_right.now (Some (content_side left.entry)) (Some (content_side right.entry)) v }
{
    let equal = are_same_ids(left.id, right.id);
    match merge_scalar(equal, left.marks, right.marks, only_left, only_right) {
        Choice::Both => ContentChoice::Fixed(left.id),
        Choice::Left => ContentChoice::Fixed(left.id),
        Choice::Right => ContentChoice::Fixed(right.id),
        Choice::Clash => ContentChoice::Clash {
            left: left.id,
            right: right.id,
        },
    }
}

/// What is decided of a content. It takes no memory.
pub fn choose_content(
    left: Option<Content>,
    right: Option<Content>,
    only_left: &PosSet,
    only_right: &PosSet,
) -> ContentChoice
    ensures { (v : Verdict) → (content_verdict result ≡ Some v) ↔
        IsVerdict only_left.now only_right.now (option_map content_side left.entry) (option_map content_side right.entry) v }
{
    match left {
        None => match right {
            None => ContentChoice::Absent,
            Some(r) => ContentChoice::Fixed(r.id),
        },
        Some(l) => match right {
            None => ContentChoice::Fixed(l.id),
            Some(r) => choose_content_of_both(l, r, only_left, only_right),
        },
    }
}

/// What is decided of an attribute that both sides have.
fn choose_attr_of_both(
    alloc: Global,
    left: SideAttr,
    right: SideAttr,
    only_left: &PosSet,
    only_right: &PosSet,
) -> Result<AttrChoice, NoMemory>
    ensures { IfOk result (λ c.
        IsVerdict only_left.now only_right.now (attr_left (AttrTurn.Both left.entry right.entry)) (attr_right (AttrTurn.Both left.entry right.entry)) (attr_verdict c)) }
{
    let equal = same_value(&left.attr.value, &right.attr.value);
    match merge_scalar(equal, left.marks, right.marks, only_left, only_right) {
        Choice::Both => Ok(AttrChoice::Fixed(copy_value(alloc, &left.attr.value)?)),
        Choice::Left => Ok(AttrChoice::Fixed(copy_value(alloc, &left.attr.value)?)),
        Choice::Right => Ok(AttrChoice::Fixed(copy_value(alloc, &right.attr.value)?)),
        Choice::Clash => Ok(AttrChoice::Clash {
            left: copy_value(alloc, &left.attr.value)?,
            right: copy_value(alloc, &right.attr.value)?,
        }),
    }
}

/// What is decided of an attribute.
pub fn choose_attr(
    alloc: Global,
    turn: AttrTurn,
    only_left: &PosSet,
    only_right: &PosSet,
) -> Result<AttrChoice, NoMemory>
    ensures { IfOk result (λ c. IsVerdict only_left.now only_right.now (attr_left turn.entry) (attr_right turn.entry) (attr_verdict c)) }
{
    match turn {
        AttrTurn::Left(left) => Ok(AttrChoice::Fixed(copy_value(alloc, &left.attr.value)?)),
        AttrTurn::Right(right) => Ok(AttrChoice::Fixed(copy_value(alloc, &right.attr.value)?)),
        AttrTurn::Both(left, right) => choose_attr_of_both(
            alloc, left, right, only_left, only_right,
        ),
    }
}
