// Children, found by the places of their parents: numbers tell most pairs apart, with no look at the entries.
ghost use Rattle.std.specs.Prelude.{◌≡◌, ◌<◌, length, map, option_and_then, option_copied, slice_get, IsTrue, IfSome};
ghost use Rattle.mtn_base.specs.Names.{name_cmp};
ghost use Rattle.mtn_roster.specs.declared.entry.Entry.{Entry};
ghost use Rattle.mtn_roster.specs.declared.entry.Slot.TheVariants.{Below};
ghost use Rattle.mtn_roster.specs.Building.{AreUps};
ghost use Rattle.mtn_roster.specs.Index.{IsIndex, slot_cmp, slot_in};
ghost use Rattle.mtn_roster.specs.Tree.{child_of, entry_of};
ghost use Rattle.mtn_base.specs.Lists.{rises};

use crate::Entry;
use crate::index::component_at;
use crate::walk::compare_up;
use mtn_base::{Comp, NodeName};
use std::cmp::Ordering;

/// How the slot at a place stands to the one of that name below the node at another.
fn compare_child(
    entries: &[Entry],
    ups: &[usize],
    at: usize,
    above: usize,
    parent: &NodeName,
    name: &Comp,
) -> Ordering
    ensures { AreUps entries.now ups.now → IsTrue (rises name_cmp (map (λ (e : Entry). e.name) entries.now)) → above < length entries.now → slice_get entries.now above ≡ entry_of entries.now parent.now → result ≡ slot_cmp (slot_in entries.now at) (Below parent.now name.now) }
{
    match compare_up(entries, ups, at, above, parent) {
        Ordering::Less => Ordering::Less,
        Ordering::Equal => component_at(entries, at).cmp(name.bytes()),
        Ordering::Greater => Ordering::Greater,
    }
}

/// The place of the child of that name, below the node at a place.
fn child_below(
    entries: &[Entry],
    ups: &[usize],
    by_slot: &[usize],
    place: usize,
    parent: &NodeName,
    name: &Comp,
) -> Option<usize>
    requires rising { IsTrue (rises name_cmp (map (λ (e : Entry). e.name) entries.now)) }
    requires index { IsIndex entries.now by_slot.now }
    requires ups { AreUps entries.now ups.now }
    requires within { place < length entries.now }
    requires there { slice_get entries.now place ≡ entry_of entries.now parent.now }
    ensures within { IfSome result (λ at. at < length entries.now) }
    ensures entry { (d : Entry) → d.name ≡ parent.now → option_and_then (slice_get entries.now) result ≡ child_of entries.now name.now d }
{
    match by_slot.binary_search_by(|at| compare_child(entries, ups, *at, place, parent, name)) {
        Ok(i) => Some(by_slot[i]),
        Err(_) => None,
    }
}

fn entry_at(entries: &[Entry], place: usize) -> Option<&Entry>
    ensures { option_copied result ≡ slice_get entries.now place }
{
    entries.get(place)
}

/// The place of the child of that name of the entry at a place. No entry, no child.
pub fn child_at(
    entries: &[Entry],
    ups: &[usize],
    by_slot: &[usize],
    place: usize,
    name: &Comp,
) -> Option<usize>
    requires rising { IsTrue (rises name_cmp (map (λ (e : Entry). e.name) entries.now)) }
    requires index { IsIndex entries.now by_slot.now }
    requires ups { AreUps entries.now ups.now }
    ensures within { IfSome result (λ at. at < length entries.now) }
    ensures entry { option_and_then (slice_get entries.now) result ≡ option_and_then (child_of entries.now name.now) (slice_get entries.now place) }
{
    match entry_at(entries, place) {
        None => None,
        Some(above) => child_below(entries, ups, by_slot, place, &above.name, name),
    }
}
