// The marking of a node.
ghost use Rattle.std.specs.Prelude.{IfOk};
ghost use Rattle.std.specs.List.{AllZip};
ghost use Rattle.mtn_base.specs.declared.name.NodeName.{NodeName};
ghost use Rattle.mtn_marking.specs.Marking.{IsFor};
ghost use Rattle.mtn_marking.specs.Parts.{seen, IsOrderly, HasHere, IsMarkedAttr, IsMarkedContent, IsMarkedNode, basis_of};

use crate::against::{Against, Guesses};
use crate::known::{ParentNode, birth_from, have_attr, have_content, have_slot, known_from};
use crate::side::mark_side;
use crate::{AttrMarks, Marking, NodeMarks};
use mtn_ancestry::PosSet;
use mtn_base::{List, NoMemory};
use mtn_roster::{Attr, Body, Entry};
use std::alloc::Global;

/// The marks of an attribute.
fn mark_attr(
    alloc: Global,
    against: &Against,
    attr: &Attr,
    left: Option<ParentNode>,
    right: Option<ParentNode>,
) -> Result<AttrMarks, NoMemory>
    requires here { HasHere against.now }
    requires left { IsOrderly (seen left) }
    requires right { IsOrderly (seen right) }
    ensures { IfOk result (IsMarkedAttr against.now.at against.now.only_left.now against.now.only_right.now (seen left.entry) (seen right.entry) attr.now) }
{
    let marks = mark_side(
        alloc,
        against,
        have_attr(left, attr),
        have_attr(right, attr),
    )?;
    Ok(AttrMarks {
        key: attr.key.copy(alloc)?,
        marks,
    })
}

/// The marks of the attributes of a node.
fn mark_attrs(
    alloc: Global,
    against: &Against,
    attrs: &[Attr],
    left: Option<ParentNode>,
    right: Option<ParentNode>,
) -> Result<Vec<AttrMarks>, NoMemory>
    requires here { HasHere against.now }
    requires left { IsOrderly (seen left) }
    requires right { IsOrderly (seen right) }
    ensures { IfOk result (λ marks. AllZip (IsMarkedAttr against.now.at against.now.only_left.now against.now.only_right.now (seen left.entry) (seen right.entry)) attrs.now marks.items) }
{
    let mut marks = Vec::new(alloc);
    for attr in attrs {
        marks.push(mark_attr(alloc, against, attr, left, right)?)?;
    }
    Ok(marks)
}

/// The marks of the content of a node.
fn mark_content(
    alloc: Global,
    against: &Against,
    body: &Body,
    left: Option<ParentNode>,
    right: Option<ParentNode>,
) -> Result<Option<PosSet>, NoMemory>
    requires here { HasHere against.now }
    ensures { IfOk result (λ marks. (n : NodeName) → IsMarkedContent n against.now.at against.now.only_left.now against.now.only_right.now (seen left.entry) (seen right.entry) body.now marks) }
{
    match body {
        Body::Dir => Ok(None),
        Body::File { content } => {
            let l = have_content(left, *content);
            let r = have_content(right, *content);
            Ok(Some(mark_side(alloc, against, l, r)?))
        }
    }
}

/// The marking of a node, which is looked for in each parent at a guess first.
pub fn mark_entry(
    alloc: Global,
    against: &Against,
    entry: &Entry,
    guesses: &mut Guesses,
) -> Result<NodeMarks, NoMemory>
    requires here { HasHere against.now }
    ensures { IfOk result (IsMarkedNode (basis_of against.now) entry.now) }
{
    let left = known_from(against.left, &entry.name, &mut guesses.left);
    let right = known_from(against.right, &entry.name, &mut guesses.right);
    let slot = mark_side(
        alloc,
        against,
        have_slot(left, &entry.slot),
        have_slot(right, &entry.slot),
    )?;
    let content = mark_content(alloc, against, &entry.body, left, right)?;
    let attrs = mark_attrs(alloc, against, entry.attrs.as_slice(), left, right)?;
    Ok(NodeMarks {
        name: entry.name.copy(alloc)?,
        marking: Marking {
            birth: birth_from(against.at, left, right),
            slot,
            content,
            attrs: List::from_vec(attrs),
        },
    })
}
