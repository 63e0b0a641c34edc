// Whether marks are equal. Sets with the same members are, since they ascend.
ghost use Rattle.std.specs.Prelude.{◌≡◌, ◌↔◌, IsTrue, slice_get};
ghost use Rattle.std.specs.List.{AllZip};
ghost use Rattle.mtn_check_pieces.specs.Same.{HaveSame, BothHaveSame, IsLikeAttr, IsLike, AreLikeAt, AreLike};

use mtn_ancestry::PosSet;
use mtn_base::NodeName;
use mtn_marking::{AttrMarks, MarkMap, NodeMarks};

pub fn is_same_name(first: &NodeName, second: &NodeName) -> bool
    ensures { IsTrue result ↔ (first.now ≡ second.now) }
{
    first.same(second)
}

fn are_same_sets(first: &PosSet, second: &PosSet) -> bool
    ensures equal { IsTrue result → first.now ≡ second.now }
    ensures alike { HaveSame first.now second.now → IsTrue result }
{
    first.as_slice() == second.as_slice()
}

fn are_same_contents(first: &Option<PosSet>, second: &Option<PosSet>) -> bool
    ensures equal { IsTrue result → first.now ≡ second.now }
    ensures alike { BothHaveSame first.now second.now → IsTrue result }
{
    match first {
        None => second.is_none(),
        Some(marks) => match second {
            None => false,
            Some(others) => are_same_sets(marks, others),
        },
    }
}

fn is_same_attr(first: &AttrMarks, second: &AttrMarks) -> bool
    ensures equal { IsTrue result → first.now ≡ second.now }
    ensures alike { IsLikeAttr first.now second.now → IsTrue result }
{
    if first.key.as_slice() != second.key.as_slice() {
        return false;
    }
    are_same_sets(&first.marks, &second.marks)
}

fn are_same_attrs(first: &[AttrMarks], second: &[AttrMarks]) -> bool
    ensures equal { IsTrue result → first.now ≡ second.now }
    ensures alike { AllZip IsLikeAttr first.now second.now → IsTrue result }
{
    if first.len() != second.len() {
        return false;
    }
    for (place, attr) in first.iter().enumerate() {
        if !is_same_attr(attr, &second[place]) {
            return false;
        }
    }
    true
}

// Whether two nodes have one name and one birth.
fn are_same_births(first: &NodeMarks, second: &NodeMarks) -> bool
    ensures equal { IsTrue result → (first.now.name ≡ second.now.name) × (first.now.marking.birth ≡ second.now.marking.birth) }
    ensures alike { IsLike first.now second.now → IsTrue result }
{
    if !is_same_name(&first.name, &second.name) {
        return false;
    }
    first.marking.birth.0 == second.marking.birth.0
}

fn is_same_node(first: &NodeMarks, second: &NodeMarks) -> bool
    ensures equal { IsTrue result → first.now ≡ second.now }
    ensures alike { IsLike first.now second.now → IsTrue result }
{
    if !are_same_births(first, second) {
        return false;
    }
    if !are_same_sets(&first.marking.slot, &second.marking.slot) {
        return false;
    }
    if !are_same_contents(&first.marking.content, &second.marking.content) {
        return false;
    }
    are_same_attrs(
        first.marking.attrs.as_slice(),
        second.marking.attrs.as_slice(),
    )
}

// Whether both have the same marking at a place, or both have none there.
fn are_same_at(first: &MarkMap, second: &MarkMap, place: usize) -> bool
    ensures equal { IsTrue result → slice_get first.now place ≡ slice_get second.now place }
    ensures alike { AreLikeAt (slice_get first.now place) (slice_get second.now place) → IsTrue result }
{
    match first.at_place(place) {
        None => second.at_place(place).is_none(),
        Some(node) => match second.at_place(place) {
            None => false,
            Some(other) => is_same_node(node, other),
        },
    }
}

/// Whether the marks are equal. It looks at each mark once, and takes no memory.
pub fn are_same_marks(first: &MarkMap, second: &MarkMap) -> bool
    ensures equal { IsTrue result → first.now ≡ second.now }
    ensures alike { AreLike first.now second.now → IsTrue result }
{
    let count = first.len();
    if count != second.len() {
        return false;
    }
    for place in 0..count as usize {
        if !are_same_at(first, second, place) {
            return false;
        }
    }
    true
}
