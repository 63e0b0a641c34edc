// Entries beside a tree that is there: whether they spell it is told without building it again.
ghost use Rattle.std.specs.Prelude.{◌≡◌, ◌↔◌, ◌<◌, None, Some, map, slice_get, IfOk, IfSome, IsErrOf, IsTrue};
ghost use Rattle.std.specs.List.{AllByRecursion, AllZip};
ghost use Rattle.mtn_marking.specs.Marking.{MarkedTree};
ghost use Rattle.mtn_records.specs.declared.entry.NumberedEntry.{NumberedEntry as Numbering};
ghost use Rattle.mtn_roster.specs.declared.entry.Entry.{Entry as Node};
ghost use Rattle.mtn_roster.specs.declared.entry.Slot.TheVariants.{Below};
ghost use Rattle.mtn_roster.specs.Tree.{IsSane};
ghost use Rattle.mtn_roster_deltas.specs.Chain.{ascend};
ghost use Rattle.mtn_roster_deltas.specs.Spelled.{attr_of, body_of, IsEntryOf, IsSlotOf, Spells};

use crate::order::{are_in_order, entry_of};
use crate::same::{are_same_nodes, are_same_values};
use crate::sorted::sorted_of;
use crate::spelled::all_marks;
use mtn_base::{Comp, NoMemory, NodeName};
use mtn_marking::MarkMap;
use mtn_records::{Numbered, NumberedAttr, NumberedBody, NumberedEntry, RecordError};
use mtn_roster::{Attr, Body, Entry, Roster, Slot};
use std::alloc::Global;

// Whether an entry hangs below a node under a name.
fn is_below(
    entries: &[NumberedEntry],
    entry: &NumberedEntry,
    parent: &NodeName,
    name: &Comp,
) -> bool
    requires { IsTrue (ascend entries.now) }
    ensures { IsTrue result ↔ IsSlotOf entries.now entry.now (Below parent.now name.now) }
{
    if entry.parent == 0 || entry.name.as_slice() != name.bytes() {
        return false;
    }
    match entry_of(entries, entry.parent) {
        None => false,
        Some(above) => are_same_nodes(&above.node, parent),
    }
}

// Whether it hangs in a slot.
fn is_slot_of(entries: &[NumberedEntry], entry: &NumberedEntry, slot: &Slot) -> bool
    requires { IsTrue (ascend entries.now) }
    ensures { IsTrue result ↔ IsSlotOf entries.now entry.now slot.now }
{
    match slot {
        Slot::Root => entry.parent == 0 && entry.name.as_slice().is_empty(),
        Slot::Below { parent, name } => is_below(entries, entry, parent, name),
    }
}

// Whether a body is that of an entry.
fn is_body_of(body: &NumberedBody, plain: &Body) -> bool
    ensures { IsTrue result ↔ (plain.now ≡ body_of body.now) }
{
    match body {
        NumberedBody::Dir => plain.is_dir(),
        NumberedBody::File { content, marks: _ } => match plain {
            Body::Dir => false,
            Body::File { content: other } => other == content,
        },
    }
}

// Whether an attribute is this one without its marks.
fn is_attr_of(attr: &NumberedAttr, plain: &Attr) -> bool
    ensures { IsTrue result ↔ (plain.now ≡ attr_of attr.now) }
{
    if plain.key.as_slice() != attr.key.as_slice() {
        return false;
    }
    are_same_values(&plain.value, &attr.value)
}

// The same of lists.
fn are_attrs_of(attrs: &[NumberedAttr], plain: &[Attr]) -> bool
    ensures { IsTrue result ↔ (plain.now ≡ map attr_of attrs.now) }
{
    if attrs.len() != plain.len() {
        return false;
    }
    for (place, attr) in attrs.iter().enumerate() {
        if !is_attr_of(attr, &plain[place]) {
            return false;
        }
    }
    true
}

// Whether a tree has this of an entry's node.
fn is_of(entries: &[NumberedEntry], entry: &NumberedEntry, node: &Entry) -> bool
    requires { IsTrue (ascend entries.now) }
    ensures { IsTrue result ↔ IsEntryOf entries.now entry.now node.now }
{
    if !are_same_nodes(&node.name, &entry.node) {
        return false;
    }
    if !is_slot_of(entries, entry, &node.slot) {
        return false;
    }
    if !is_body_of(&entry.body, &node.body) {
        return false;
    }
    are_attrs_of(entry.attrs.as_slice(), node.attrs.as_slice())
}

// The same of the node at a place of a tree.
fn is_at(entries: &[NumberedEntry], entry: &NumberedEntry, roster: &Roster, place: usize) -> bool
    requires ascending { IsTrue (ascend entries.now) }
    ensures there { IsTrue result → (n : Node) × (slice_get roster.now place ≡ Some n) × IsEntryOf entries.now entry.now n }
    ensures other { (n : Node) → slice_get roster.now place ≡ Some n → IsEntryOf entries.now entry.now n → IsTrue result }
{
    match roster.at_place(place) {
        None => false,
        Some(node) => is_of(entries, entry, node),
    }
}

// Whether a tree has the nodes of entries that stand by their names, and no others.
fn are_of(entries: &[NumberedEntry], sorted: &[&NumberedEntry], roster: &Roster) -> bool
    requires { IsTrue (ascend entries.now) }
    ensures told { IsTrue result ↔ AllZip (λ b n. IsEntryOf entries.now b.now n) sorted.now roster.now }
    ensures sane { IsSane roster.now }
{
    if sorted.len() as u64 != roster.len() {
        return false;
    }
    for (place, entry) in sorted.iter().enumerate() {
        if !is_at(entries, entry, roster, place) {
            return false;
        }
    }
    true
}

// The marks that entries in order give to the nodes of a tree, if they spell it; Bad where two are of one node.
fn marks_beside(
    alloc: Global,
    entries: &[NumberedEntry],
    roster: &Roster,
) -> Result<Option<MarkMap>, RecordError>
    requires ascending { IsTrue (ascend entries.now) }
    requires from_one { AllByRecursion (λ (e : Numbering). 0 < e.number) entries.now }
    ensures spelled { IfOk result (λ o. IfSome o (λ marks. Spells entries.now (record { tree = roster.now; marks = marks }))) }
    ensures other { IfOk result (λ o. o ≡ None → (t : MarkedTree) → Spells entries.now t → t.tree ≡ roster.now → ⊥) }
    ensures bad { IsErrOf result RecordError.Bad → (t : MarkedTree) → Spells entries.now t → ⊥ }
{
    let sorted = sorted_of(alloc, entries)?;
    let nodes = sorted.as_slice();
    if !are_of(entries, nodes, roster) {
        return Ok(None);
    }
    Ok(Some(MarkMap::from_rising(all_marks(alloc, nodes)?)))
}

/// The marks that entries give to the nodes of a tree that is there, or none where they do not spell that tree. It costs a sort
/// of the entries, which are near their order, one look at each node, and the marks.
pub fn marks_on(
    alloc: Global,
    entries: &Numbered,
    roster: &Roster,
) -> Result<Option<MarkMap>, NoMemory>
    ensures spelled { IfOk result (λ o. IfSome o (λ marks. Spells entries.now (record { tree = roster.now; marks = marks }))) }
    ensures other { IfOk result (λ o. o ≡ None → (t : MarkedTree) → Spells entries.now t → t.tree ≡ roster.now → ⊥) }
{
    let entries = entries.entries.as_slice();
    if !are_in_order(entries) {
        return Ok(None);
    }
    match marks_beside(alloc, entries, roster) {
        Ok(marks) => Ok(marks),
        Err(RecordError::Bad) => Ok(None),
        Err(RecordError::NoMemory) => Err(NoMemory),
    }
}
