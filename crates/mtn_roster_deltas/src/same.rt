// Whether entries are equal, and copies of entries.
ghost use Rattle.std.specs.Prelude.{◌≡◌, ◌↔◌, IsTrue};
ghost use Rattle.mtn_roster_deltas.specs.Parts.{IsSameHead};

use mtn_ancestry::PosSet;
use mtn_base::{Bytes, NodeName};
use mtn_records::{NumberedAttr, NumberedBody, NumberedEntry};

fn are_same_sets(first: &PosSet, second: &PosSet) -> bool
    ensures { IsTrue result ↔ (first.now ≡ second.now) }
{
    first.as_slice() == second.as_slice()
}

/// Whether two names are equal.
pub fn are_same_nodes(first: &NodeName, second: &NodeName) -> bool
    ensures { IsTrue result ↔ (first.now ≡ second.now) }
{
    first.same(second)
}

/// Whether two values are.
pub fn are_same_values(first: &Option<Bytes>, second: &Option<Bytes>) -> bool
    ensures { IsTrue result ↔ (first.now ≡ second.now) }
{
    match first {
        None => second.is_none(),
        Some(value) => match second {
            None => false,
            Some(other) => value.as_slice() == other.as_slice(),
        },
    }
}

fn are_same_attrs(first: &NumberedAttr, second: &NumberedAttr) -> bool
    ensures { IsTrue result ↔ (first.now ≡ second.now) }
{
    if first.key.as_slice() != second.key.as_slice() {
        return false;
    }
    if !are_same_values(&first.value, &second.value) {
        return false;
    }
    are_same_sets(&first.marks, &second.marks)
}

fn are_same_lists(first: &[NumberedAttr], second: &[NumberedAttr]) -> bool
    ensures { IsTrue result ↔ (first.now ≡ second.now) }
{
    if first.len() != second.len() {
        return false;
    }
    for (place, attr) in first.iter().enumerate() {
        if !are_same_attrs(attr, &second[place]) {
            return false;
        }
    }
    true
}

fn are_same_bodies(first: &NumberedBody, second: &NumberedBody) -> bool
    ensures { IsTrue result ↔ (first.now ≡ second.now) }
{
    match first {
        NumberedBody::Dir => !second.is_file(),
        NumberedBody::File { content, marks } => match second {
            NumberedBody::Dir => false,
            NumberedBody::File {
                content: other,
                marks: others,
            } => {
                if content != other {
                    return false;
                }
                are_same_sets(marks, others)
            }
        },
    }
}

/// Whether two entries have the same number, node and place.
fn are_same_heads(first: &NumberedEntry, second: &NumberedEntry) -> bool
    ensures { IsTrue result ↔ IsSameHead first.now second.now }
{
    if first.number != second.number || first.parent != second.parent {
        return false;
    }
    if first.birth_at.0 != second.birth_at.0 {
        return false;
    }
    if first.name.as_slice() != second.name.as_slice() {
        return false;
    }
    are_same_nodes(&first.node, &second.node)
}

/// Whether two entries are equal.
pub fn are_same(first: &NumberedEntry, second: &NumberedEntry) -> bool
    ensures { IsTrue result ↔ (first.now ≡ second.now) }
{
    if !are_same_heads(first, second) {
        return false;
    }
    if !are_same_sets(&first.slot_marks, &second.slot_marks) {
        return false;
    }
    if !are_same_bodies(&first.body, &second.body) {
        return false;
    }
    are_same_lists(first.attrs.as_slice(), second.attrs.as_slice())
}
