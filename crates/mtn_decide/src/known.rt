// What each side has of the node, or of the attribute, whose turn it is.
ghost use Rattle.std.specs.Prelude.{◌≡◌, Option, Some, None, option_map, IfSome};
ghost use Rattle.mtn_base.specs.declared.name.NodeName.{NodeName};
ghost use Rattle.mtn_history_laws.specs.Scalars.Scalar.{ContentOf};
ghost use Rattle.mtn_marking.specs.Marking.{side_of};
ghost use Rattle.mtn_decide.specs.Parts.{seen, left_of, right_of, attrs_of, marks_of_attrs, content_side};

use mtn_ancestry::PosSet;
use mtn_base::Id;
use mtn_marking::{AttrMarks, Marking};
use mtn_roster::{Attr, Body, Entry};

/// A node of a side: its entry and its marking.
#[derive(Clone, Copy)]
pub struct SideNode<'a> {
    pub node: &'a Entry,
    pub marking: &'a Marking,
}

/// A node that one side has, or both.
#[derive(Clone, Copy)]
pub enum Turn<'a> {
    Left(SideNode<'a>),
    Right(SideNode<'a>),
    Both(SideNode<'a>, SideNode<'a>),
}

/// The content of a file and its marks.
#[derive(Clone, Copy)]
pub struct Content<'a> {
    pub id: Id,
    pub marks: &'a PosSet,
}

/// An attribute of a side and its marks.
#[derive(Clone, Copy)]
pub struct SideAttr<'a> {
    pub attr: &'a Attr,
    pub marks: &'a PosSet,
}

/// An attribute that one side has, or both.
#[derive(Clone, Copy)]
pub enum AttrTurn<'a> {
    Left(SideAttr<'a>),
    Right(SideAttr<'a>),
    Both(SideAttr<'a>, SideAttr<'a>),
}

/// What left has of the node.
pub fn left_known<'a>(turn: Turn<'a>) -> Option<SideNode<'a>>
    ensures { option_map seen result ≡ left_of turn.entry }
{
    match turn {
        Turn::Left(left) => Some(left),
        Turn::Right(_) => None,
        Turn::Both(left, _) => Some(left),
    }
}

/// What right has of the node.
pub fn right_known<'a>(turn: Turn<'a>) -> Option<SideNode<'a>>
    ensures { option_map seen result ≡ right_of turn.entry }
{
    match turn {
        Turn::Left(_) => None,
        Turn::Right(right) => Some(right),
        Turn::Both(_, right) => Some(right),
    }
}

/// The content that a side has of a node, if it has the node and it is a file.
pub fn content_in<'a>(known: Option<SideNode<'a>>) -> Option<Content<'a>>
    ensures { (n : NodeName) → option_map content_side result ≡ side_of (ContentOf n) (option_map seen known.entry) }
{
    match known {
        None => None,
        Some(found) => match found.node.body {
            Body::Dir => None,
            Body::File { content } => match &found.marking.content {
                None => None,
                Some(marks) => Some(Content { id: content, marks }),
            },
        },
    }
}

/// The attributes that a side has of a node.
pub fn attrs_in<'a>(known: Option<SideNode<'a>>) -> &'a [Attr]
    ensures { result.now ≡ attrs_of (option_map seen known.entry) }
{
    match known {
        None => &[],
        Some(found) => found.node.attrs.as_slice(),
    }
}

/// Their marks.
pub fn attr_marks_in<'a>(known: Option<SideNode<'a>>) -> &'a [AttrMarks]
    ensures { result.now ≡ marks_of_attrs (option_map seen known.entry) }
{
    match known {
        None => &[],
        Some(found) => found.marking.attrs.as_slice(),
    }
}
