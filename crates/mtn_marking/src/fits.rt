// Whether marks are those of a roster.
ghost use Rattle.std.specs.Prelude.{◌≡◌, ◌↔◌, IsTrue, map};
ghost use Rattle.mtn_roster.specs.declared.entry.Attr.{Attr};
ghost use Rattle.mtn_marking.specs.declared.node.AttrMarks.{AttrMarks};
ghost use Rattle.mtn_marking.specs.Marking.{IsFor, AreFor};
ghost use Rattle.mtn_marking.specs.Parts.{IsForAt};

use crate::{AttrMarks, MarkMap, NodeMarks};
use mtn_roster::{Attr, Entry, Roster};

/// Whether the marks have the keys of the attributes, in their order.
fn have_same_keys(attrs: &[Attr], marks: &[AttrMarks]) -> bool
    ensures { IsTrue result ↔ (map (λ (a : AttrMarks). a.key) marks.now ≡ map (λ (a : Attr). a.key) attrs.now) }
{
    if attrs.len() != marks.len() {
        return false;
    }
    for (place, attr) in attrs.iter().enumerate() {
        if attr.key.as_slice() != marks[place].key.as_slice() {
            return false;
        }
    }
    true
}

/// Whether the marking is one of the entry.
fn is_for(entry: &Entry, node: &NodeMarks) -> bool
    ensures { IsTrue result ↔ IsFor entry.now node.now }
{
    if !node.name.same(&entry.name) {
        return false;
    }
    if node.marking.content.is_some() == entry.body.is_dir() {
        return false;
    }
    have_same_keys(entry.attrs.as_slice(), node.marking.attrs.as_slice())
}

/// Whether both have a node at a place, and the marking there is one of the entry.
fn is_for_at(roster: &Roster, marks: &MarkMap, place: usize) -> bool
    ensures { IsTrue result ↔ IsForAt roster.now marks.now place }
{
    match roster.at_place(place) {
        None => false,
        Some(entry) => match marks.at_place(place) {
            None => false,
            Some(node) => is_for(entry, node),
        },
    }
}

/// Whether the marks are those of exactly the roster's nodes and their scalars.
pub fn are_for(roster: &Roster, marks: &MarkMap) -> bool
    ensures { IsTrue result ↔ AreFor roster.now marks.now }
{
    let count = roster.len();
    if count != marks.len() {
        return false;
    }
    for place in 0..count as usize {
        if !is_for_at(roster, marks, place) {
            return false;
        }
    }
    true
}
