// Items of lists.
ghost use Rattle.std.specs.Prelude.{◌≡◌, [], IfOk};
ghost use Rattle.mtn_conflicts.specs.Lists.{slot_item, content_item, attr_item, pending_item, body_side, if_side};

use crate::item::{Item, Side};
use mtn_base::{Bytes, List, NoMemory, NodeName};
use mtn_decide::{AttrChoice, AttrDecision, ContentChoice, Decision, Pending, SlotChoice};
use mtn_roster::Body;
use mtn_roster::attrs::copy_value;
use std::alloc::Global;

/// The item of a node by its slot.
pub fn item_by_slot(alloc: Global, decision: &Decision) -> Result<Item, NoMemory>
    ensures { IfOk result (λ item. item ≡ slot_item decision.now) }
{
    let node = decision.name.copy(alloc)?;
    let key = List::new(alloc);
    match &decision.slot {
        SlotChoice::Fixed(slot) => Ok(Item {
            node,
            key,
            left: Side::At(slot.copy(alloc)?),
            right: Side::Nothing,
        }),
        SlotChoice::Clash { left, right } => Ok(Item {
            node,
            key,
            left: Side::At(left.copy(alloc)?),
            right: Side::At(right.copy(alloc)?),
        }),
    }
}

/// The item of a node by its content.
pub fn item_by_content(alloc: Global, decision: &Decision) -> Result<Item, NoMemory>
    ensures { IfOk result (λ item. item ≡ content_item decision.now) }
{
    let node = decision.name.copy(alloc)?;
    let key = List::new(alloc);
    match decision.content {
        ContentChoice::Absent => Ok(Item {
            node,
            key,
            left: Side::Nothing,
            right: Side::Nothing,
        }),
        ContentChoice::Fixed(id) => Ok(Item {
            node,
            key,
            left: Side::Content(id),
            right: Side::Nothing,
        }),
        ContentChoice::Clash { left, right } => Ok(Item {
            node,
            key,
            left: Side::Content(left),
            right: Side::Content(right),
        }),
    }
}

/// The item of an attribute of a node.
pub fn item_by_attr(alloc: Global, name: &NodeName, attr: &AttrDecision) -> Result<Item, NoMemory>
    ensures { IfOk result (λ item. item ≡ attr_item (name.now, attr.now)) }
{
    let node = name.copy(alloc)?;
    let key = attr.key.copy(alloc)?;
    match &attr.choice {
        AttrChoice::Fixed(value) => Ok(Item {
            node,
            key,
            left: Side::Attr(copy_value(alloc, value)?),
            right: Side::Nothing,
        }),
        AttrChoice::Clash { left, right } => Ok(Item {
            node,
            key,
            left: Side::Attr(copy_value(alloc, left)?),
            right: Side::Attr(copy_value(alloc, right)?),
        }),
    }
}

fn side_of(body: &Body, has: bool) -> Side
    ensures { result ≡ if_side has (body_side body.now) }
{
    if has {
        match body {
            Body::Dir => Side::Nothing,
            Body::File { content } => Side::Content(*content),
        }
    } else {
        Side::Nothing
    }
}

/// The item of a pending file.
pub fn item_by_pending(alloc: Global, pending: &Pending) -> Result<Item, NoMemory>
    ensures { IfOk result (λ item. item ≡ pending_item pending.now) }
{
    Ok(Item {
        node: pending.entry.name.copy(alloc)?,
        key: List::new(alloc),
        left: side_of(&pending.entry.body, pending.from_left),
        right: side_of(&pending.entry.body, !pending.from_left),
    })
}
