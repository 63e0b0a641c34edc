// What a parent has of a node, and of each of its scalars.
ghost use Rattle.std.specs.Prelude.{◌≡◌, Some, option_map};
ghost use Rattle.mtn_base.specs.declared.name.NodeName.{NodeName};
ghost use Rattle.mtn_history_laws.specs.Scalars.Scalar.{SlotOf, ContentOf, AttrOf};
ghost use Rattle.mtn_history_laws.specs.Scalars.Value.{SlotValue, ContentValue, AttrValue};
ghost use Rattle.mtn_marking.specs.Marking.{birth_or, known_by, side_of};
ghost use Rattle.mtn_marking.specs.Parts.{seen, IsOrderly, TellsSide};

use crate::Marking;
use crate::marked::MarkedRoster;
use crate::side::Have;
use mtn_ancestry::Pos;
use mtn_base::{Id, NodeName};
use mtn_roster::attrs::{place_of_key, same_value};
use mtn_roster::{Attr, Body, Entry, Slot};

/// A node of a parent: its entry and its marking.
#[derive(Clone, Copy)]
pub struct ParentNode<'a> {
    pub node: &'a Entry,
    pub marking: &'a Marking,
}

/// What a parent has of a node, which is looked for at a guess first; none where there is no such parent.
pub fn known_from<'a>(
    parent: Option<&'a MarkedRoster>,
    name: &NodeName,
    guess: &mut usize,
) -> Option<ParentNode<'a>>
    ensures known { seen result ≡ known_by (option_map (λ t. t.now) parent.entry) name.now }
    ensures orderly { IsOrderly (seen result) }
{
    match parent {
        None => None,
        Some(marked) => marked.known(name, guess),
    }
}

/// The birth that the first parent tells that has the node, and the new position where none does.
pub fn birth_from(at: Pos, left: Option<ParentNode>, right: Option<ParentNode>) -> Pos
    ensures { result ≡ birth_or (seen left.entry) (birth_or (seen right.entry) at) }
{
    match left {
        Some(known) => known.marking.birth,
        None => match right {
            Some(known) => known.marking.birth,
            None => at,
        },
    }
}

/// What a parent has of the slot of a node, whose new slot this is.
pub fn have_slot<'a>(known: Option<ParentNode<'a>>, slot: &Slot) -> Option<Have<'a>>
    ensures { (n : NodeName) → TellsSide (SlotValue slot.now) (side_of (SlotOf n) (seen known.entry)) result }
{
    match known {
        None => None,
        Some(found) => Some(Have {
            equal: slot.same(&found.node.slot),
            marks: &found.marking.slot,
        }),
    }
}

/// What a parent has of the content of a node, whose new content this is.
pub fn have_content<'a>(known: Option<ParentNode<'a>>, content: Id) -> Option<Have<'a>>
    ensures { (n : NodeName) → TellsSide (ContentValue content) (side_of (ContentOf n) (seen known.entry)) result }
{
    match known {
        None => None,
        Some(found) => match found.node.body {
            Body::Dir => None,
            Body::File { content: old } => match &found.marking.content {
                None => None,
                Some(marks) => Some(Have {
                    equal: content == old,
                    marks,
                }),
            },
        },
    }
}

/// What a node of a parent has of an attribute, whose new value this is: the marks stand where the value does.
fn attr_of_node<'a>(found: ParentNode<'a>, attr: &Attr) -> Option<Have<'a>>
    requires orderly { IsOrderly (seen (Some found)) }
    ensures { (n : NodeName) → TellsSide (AttrValue attr.now.value) (side_of (AttrOf n attr.now.key) (seen (Some found.entry))) result }
{
    let attrs = found.node.attrs.as_slice();
    let key = attr.key.as_slice();
    match place_of_key(attrs, key) {
        None => None,
        Some(place) => match found.marking.attrs.as_slice().get(place) {
            None => None,
            Some(marked) => Some(Have {
                equal: same_value(&attr.value, &attrs[place].value),
                marks: &marked.marks,
            }),
        },
    }
}

/// What a parent has of an attribute, whose new value this is.
pub fn have_attr<'a>(known: Option<ParentNode<'a>>, attr: &Attr) -> Option<Have<'a>>
    requires orderly { IsOrderly (seen known) }
    ensures { (n : NodeName) → TellsSide (AttrValue attr.now.value) (side_of (AttrOf n attr.now.key) (seen known.entry)) result }
{
    match known {
        None => None,
        Some(found) => attr_of_node(found, attr),
    }
}
