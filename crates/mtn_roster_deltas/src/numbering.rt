// The entries of a marked tree under numbers.
ghost use Rattle.std.specs.Prelude.{◌≡◌, ◌<◌, ◌+◌, ◌^◌, ℕ, map, not, is_some, length, slice_get, slice_index, Some, Err, IfOk};
ghost use Rattle.mtn_marking.specs.Marking.{IsFor};
ghost use Rattle.mtn_roster.specs.Tree.{is_dir_body};
ghost use Rattle.mtn_roster.specs.Walk.{AreStops};
ghost use Rattle.mtn_roster.specs.declared.entry.Attr.{Attr};
ghost use Rattle.mtn_roster.specs.declared.entry.Entry.{Entry};
ghost use Rattle.mtn_marking.specs.declared.node.AttrMarks.{AttrMarks};
ghost use Rattle.mtn_roster_deltas.specs.Numbering.{fresh, shown, AreKnown, IsNumbering};
ghost use Rattle.mtn_roster_deltas.specs.Noting.{AreNumbered, IsNumberedOf, IsNumberedSlot};
ghost use Rattle.mtn_roster_deltas.specs.Spelled.{attr_of, attr_marks_of, body_of, content_marks_of, Spells};

use crate::error::NumberError;
use crate::noting::numbers_of;
use crate::order::are_in_order;
use mtn_ancestry::PosSet;
use mtn_base::{List, NoMemory, NodeName, ShortBytes};
use mtn_marking::{AttrMarks, MarkedRoster, NodeMarks};
use mtn_records::{Numbered, NumberedAttr, NumberedBody, NumberedEntry, copy_value};
use mtn_roster::{Attr, Body, Entry, Slot, Stop};
use std::alloc::Global;

/// The number of a node of the tree. Its place is looked for at a guess first, and is the next guess.
fn number_at(roster: &MarkedRoster, numbers: &[u64], node: &NodeName, guess: &mut usize) -> u64
    requires { length numbers.now ≡ length roster.now.tree }
    ensures { (k : ℕ) (e : Entry) → slice_get roster.now.tree k ≡ Some e → e.name ≡ node.now → result ≡ slice_index numbers.now k }
{
    let _fits = roster.roster();
    let marks = roster.marks();
    let _rising = marks.len();
    match marks.place_near(*guess, node) {
        None => 0,
        Some(place) => {
            *guess = place;
            numbers[place]
        }
    }
}

/// The parent's number and the name that tell a slot. The parent is looked for at a guess first.
fn numbered_slot(
    alloc: Global,
    roster: &MarkedRoster,
    numbers: &[u64],
    slot: &Slot,
    guess: &mut usize,
) -> Result<(u64, ShortBytes), NoMemory>
    requires { length numbers.now ≡ length roster.now.tree }
    ensures { IfOk result (λ r. IsNumberedSlot roster.now.tree numbers.now slot.now r.0 r.1) }
{
    match slot {
        Slot::Root => Ok((0, ShortBytes::from_slice(alloc, &[])?)),
        Slot::Below { parent, name } => {
            let above = number_at(roster, numbers, parent, guess);
            let name = ShortBytes::from_slice(alloc, name.bytes())?;
            Ok((above, name))
        }
    }
}

/// A body with its marks.
fn numbered_body(body: &Body, marks: &Option<PosSet>) -> Result<NumberedBody, NoMemory>
    requires { is_some marks.now ≡ not (is_dir_body body.now) }
    ensures body { IfOk result (λ b. body.now ≡ body_of b) }
    ensures marks { IfOk result (λ b. marks.now ≡ content_marks_of b) }
{
    match body {
        Body::Dir => Ok(NumberedBody::Dir),
        Body::File { content } => match marks {
            None => unreachable!(),
            Some(marks) => Ok(NumberedBody::File {
                content: *content,
                marks: marks.copy()?,
            }),
        },
    }
}

/// Attributes with their marks.
fn numbered_attrs(
    alloc: Global,
    attrs: &[Attr],
    marks: &[AttrMarks],
) -> Result<Vec<NumberedAttr>, NoMemory>
    requires { map (λ (a : AttrMarks). a.key) marks.now ≡ map (λ (a : Attr). a.key) attrs.now }
    ensures attrs { IfOk result (λ v. attrs.now ≡ map attr_of v.items) }
    ensures marks { IfOk result (λ v. marks.now ≡ map attr_marks_of v.items) }
{
    let mut numbered = Vec::with_capacity(alloc, attrs.len())?;
    for (place, attr) in attrs.iter().enumerate() {
        numbered.push(NumberedAttr {
            key: attr.key.copy(alloc)?,
            value: copy_value(alloc, &attr.value)?,
            marks: marks[place].marks.copy()?,
        })?;
    }
    Ok(numbered)
}

/// The entry of the node at a place, whose parent is looked for at a guess first.
fn numbered_entry(
    alloc: Global,
    roster: &MarkedRoster,
    numbers: &[u64],
    place: usize,
    entry: &Entry,
    node: &NodeMarks,
    guess: &mut usize,
) -> Result<NumberedEntry, NoMemory>
    requires long { length numbers.now ≡ length roster.now.tree }
    requires within { place < length numbers.now }
    requires fits { IsFor entry.now node.now }
    ensures { IfOk result (IsNumberedOf roster.now.tree numbers.now (slice_index numbers.now place) entry.now node.now) }
{
    let (parent, name) = numbered_slot(alloc, roster, numbers, &entry.slot, guess)?;
    let body = numbered_body(&entry.body, &node.marking.content)?;
    let attrs = numbered_attrs(alloc, entry.attrs.as_slice(), node.marking.attrs.as_slice())?;
    Ok(NumberedEntry {
        number: numbers[place],
        birth_at: node.marking.birth,
        node: entry.name.copy(alloc)?,
        parent,
        name,
        slot_marks: node.marking.slot.copy()?,
        body,
        attrs: List::from_vec(attrs),
    })
}

/// The entries of all nodes, by ascending nodes.
pub fn numbered_entries(
    alloc: Global,
    roster: &MarkedRoster,
    numbers: &[u64],
) -> Result<Vec<NumberedEntry>, NoMemory>
    requires { length numbers.now ≡ length roster.now.tree }
    ensures long { IfOk result (λ v. length v.items ≡ length roster.now.tree) }
    ensures numbered { IfOk result (λ v. AreNumbered roster.now numbers.now v.items) }
{
    let tree = roster.roster();
    let marks = roster.marks();
    let mut entries = Vec::with_capacity(alloc, numbers.len())?;
    // Nodes beside each other mostly have one parent.
    let mut guess = 0;
    for place in 0..numbers.len() {
        let entry = tree.at_place(place).unwrap();
        let node = marks.at_place(place).unwrap();
        entries.push(numbered_entry(alloc, roster, numbers, place, entry, node, &mut guess)?)?;
    }
    Ok(entries)
}

/// The entries of a marked tree, whose walk the caller has, by ascending numbers: known nodes keep their numbers, and new ones get `next`, `next + 1`
/// and so on, as the walk meets them; and the least number that is free then. Where two nodes would get one number, or one
/// would get 0, it is a Clash. There is none where the known numbers are from 1 and below `next`, one for each node.
pub fn number(
    alloc: Global,
    roster: &MarkedRoster,
    stops: &[Stop],
    known: &[&Numbered],
    next: u64,
) -> Result<(Numbered, u64), NumberError>
    requires walk { AreStops roster.now.tree stops.now }
    requires room { next + length roster.now.tree < 2 ^ 63 }
    ensures spells { IfOk result (λ r. Spells r.0 roster.now) }
    ensures numbers { AreKnown (shown known.now) next → IfOk result (λ r. IsNumbering (shown known.now) next roster.now r.0) }
    ensures next { AreKnown (shown known.now) next → IfOk result (λ r. r.1 ≡ next + length (fresh (shown known.now) roster.now.tree)) }
    ensures clash { result ≡ Err NumberError.Clash → AreKnown (shown known.now) next → ⊥ }
{
    let (numbers, free) = numbers_of(alloc, roster, stops, known, next)?;
    let _sane = roster.roster().len();
    let mut entries = numbered_entries(alloc, roster, &numbers)?;
    entries.sort_by(|first, second| first.number.cmp(&second.number))?;
    if !are_in_order(&entries) {
        return Err(NumberError::Clash);
    }
    let entries = List::from_vec(entries);
    Ok((Numbered { entries }, free))
}
