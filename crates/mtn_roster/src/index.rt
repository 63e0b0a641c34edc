// The places of entries by slot.
ghost use Rattle.std.specs.Prelude.{◌≡◌, ◌<◌, ◌↔◌, length, map, option_and_then, slice_get, slice_index_or, IsTrue, IfSome, IfOk, OnOk, IsErrOf};
ghost use Rattle.std.specs.List.{IsAllAdjacentAnswer};
ghost use Rattle.std.specs.List.Sorted.{IsPermutation};
ghost use Rattle.std.specs.Ordering.{is_lt};
ghost use Rattle.mtn_roster.specs.declared.entry.Slot.TheVariants.{Root, Below};
ghost use Rattle.mtn_roster.specs.Tree.{root_of, child_of};
ghost use Rattle.mtn_base.specs.Lists.{rises};
ghost use Rattle.mtn_base.specs.Names.{name_cmp};
ghost use Rattle.mtn_roster.specs.Walk.{component};
ghost use Rattle.mtn_roster.specs.Index.{ArePlaces, IsIndex, slot_cmp, slot_in};
ghost use Rattle.mtn_roster.specs.Building.{SlotsDiffer, AreUps};

use crate::families::sort_families;
use crate::{BuildError, Entry, Slot};
use mtn_base::{Comp, NoMemory, NodeName};
use std::alloc::Global;
use std::cmp::Ordering;

fn compare_root(entries: &[Entry], at: usize) -> Ordering
    ensures { result ≡ slot_cmp (slot_in entries.now at) Root }
{
    match entries.get(at) {
        None => Ordering::Equal,
        Some(entry) => match &entry.slot {
            Slot::Root => Ordering::Equal,
            Slot::Below { .. } => Ordering::Greater,
        },
    }
}

fn compare_below(entries: &[Entry], at: usize, above: &NodeName, name: &Comp) -> Ordering
    ensures { result ≡ slot_cmp (slot_in entries.now at) (Below above.now name.now) }
{
    match entries.get(at) {
        None => Ordering::Less,
        Some(entry) => match &entry.slot {
            Slot::Root => Ordering::Less,
            Slot::Below { parent, name: own } => match parent.compare(above) {
                Ordering::Less => Ordering::Less,
                Ordering::Equal => own.cmp(name),
                Ordering::Greater => Ordering::Greater,
            },
        },
    }
}

/// The place of the root.
pub fn root_place(entries: &[Entry], by_slot: &[usize]) -> Option<usize>
    requires index { IsIndex entries.now by_slot.now }
    ensures within { IfSome result (λ at. at < length entries.now) }
    ensures entry { option_and_then (slice_get entries.now) result ≡ root_of entries.now }
{
    match by_slot.binary_search_by(|at| compare_root(entries, *at)) {
        Ok(i) => Some(by_slot[i]),
        Err(_) => None,
    }
}

/// The place of the child of that name.
pub fn child_place(
    entries: &[Entry],
    by_slot: &[usize],
    above: &Entry,
    name: &Comp,
) -> Option<usize>
    requires index { IsIndex entries.now by_slot.now }
    ensures within { IfSome result (λ at. at < length entries.now) }
    ensures entry { option_and_then (slice_get entries.now) result ≡ child_of entries.now name.now above.now }
{
    match by_slot.binary_search_by(|at| compare_below(entries, *at, &above.name, name)) {
        Ok(i) => Some(by_slot[i]),
        Err(_) => None,
    }
}

/// How the slots at two places stand, by the names of their parents.
fn compare_slots(entries: &[Entry], first: usize, second: usize) -> Ordering
    ensures { result ≡ slot_cmp (slot_in entries.now first) (slot_in entries.now second) }
{
    match entries.get(second) {
        None => compare_root(entries, first),
        Some(entry) => match &entry.slot {
            Slot::Root => compare_root(entries, first),
            Slot::Below { parent, name } => compare_below(entries, first, parent, name),
        },
    }
}

/// The component of what stands at a place.
pub fn component_at(entries: &[Entry], at: usize) -> &[u8]
    ensures { result.now ≡ component (slot_in entries.now at) }
{
    match entries.get(at) {
        None => b"",
        Some(entry) => match &entry.slot {
            Slot::Root => b"",
            Slot::Below { name, .. } => name.bytes(),
        },
    }
}

/// The place of the parent of what stands at a place; outside, the place itself.
pub fn up_at(ups: &[usize], at: usize) -> usize
    ensures { result ≡ slice_index_or ups.now at at }
{
    match ups.get(at) {
        None => at,
        Some(up) => *up,
    }
}

/// The same as `compare_slots`, by the places of the parents: most pairs are told apart without a look
/// at the entries. What is its own parent is the root, or no part of a sane tree.
fn compare_places(entries: &[Entry], ups: &[usize], first: usize, second: usize) -> Ordering
    ensures { AreUps entries.now ups.now → IsTrue (rises name_cmp (map (λ (e : Entry). e.name) entries.now)) → result ≡ slot_cmp (slot_in entries.now first) (slot_in entries.now second) }
{
    let above_first = up_at(ups, first);
    let above_second = up_at(ups, second);
    if above_first == first || above_second == second {
        return compare_slots(entries, first, second);
    }
    match above_first.cmp(&above_second) {
        Ordering::Less => Ordering::Less,
        Ordering::Equal => component_at(entries, first).cmp(component_at(entries, second)),
        Ordering::Greater => Ordering::Greater,
    }
}

fn places_of(alloc: Global, count: usize) -> Result<Vec<usize>, NoMemory>
    ensures { IfOk result (λ places. ArePlaces count places.items) }
{
    let mut places = Vec::with_capacity(alloc, count)?;
    for at in 0..count {
        places.push(at)?;
    }
    Ok(places)
}

/// Puts places together by those of their parents: numbers alone are compared. Where there is no memory
/// for it, they stay as they are.
fn group_places(ups: &[usize], places: &mut Vec<usize>)
    ensures { IsPermutation places.old.items places.new.items }
{
    let _ = places.sort_by_key(|at| up_at(ups, *at));
}

/// Whether the slots at places ascend.
fn slots_ascend(entries: &[Entry], ups: &[usize], places: &[usize]) -> bool
    requires rising { IsTrue (rises name_cmp (map (λ (e : Entry). e.name) entries.now)) }
    requires ups { AreUps entries.now ups.now }
    ensures { IsAllAdjacentAnswer (λ x y b. b ≡ is_lt (slot_cmp (slot_in entries.now x) (slot_in entries.now y))) places.now result }
{
    places.is_sorted_by(|first, second| compare_places(entries, ups, *first, *second).is_lt())
}

/// Puts the places of entries in the order of their slots, and says whether these are apart. Where the
/// nodes kept the paths of their births, the children of each stand by their components once they are
/// together, and one look tells it; elsewhere each family is sorted by itself.
fn sort_places(entries: &[Entry], ups: &[usize], places: &mut Vec<usize>) -> bool
    requires rising { IsTrue (rises name_cmp (map (λ (e : Entry). e.name) entries.now)) }
    requires ups { AreUps entries.now ups.now }
    requires places { ArePlaces (length entries.now) places.old.items }
    ensures apart { IsTrue result ↔ SlotsDiffer entries.now }
    ensures index { IsTrue result → IsIndex entries.now places.new.items }
{
    group_places(ups, places);
    if slots_ascend(entries, ups, places) {
        return true;
    }
    sort_families(entries, ups, places);
    if slots_ascend(entries, ups, places) {
        return true;
    }
    places.sort_unstable_by(|first, second| compare_places(entries, ups, *first, *second));
    slots_ascend(entries, ups, places)
}

/// The places of entries in the order of their slots; Insane where two have the same.
pub fn index_of(alloc: Global, entries: &[Entry], ups: &[usize]) -> Result<Vec<usize>, BuildError>
    requires rising { IsTrue (rises name_cmp (map (λ (e : Entry). e.name) entries.now)) }
    requires ups { AreUps entries.now ups.now }
    ensures index { IfOk result (λ by_slot. IsIndex entries.now by_slot.items) }
    ensures apart { OnOk result (SlotsDiffer entries.now) }
    ensures insane { IsErrOf result BuildError.Insane → SlotsDiffer entries.now → ⊥ }
{
    let mut places = places_of(alloc, entries.len())?;
    if !sort_places(entries, ups, &mut places) {
        return Err(BuildError::Insane);
    }
    Ok(places)
}
