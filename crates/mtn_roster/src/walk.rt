// The children of a node, and the walk over a tree.
ghost use Rattle.std.specs.Prelude.{◌≡◌, ◌<◌, ◌++◌, IsTrue, filter, length, map, reverse, slice_get, Some, OnOk, IfOk};
ghost use Rattle.mtn_base.specs.Names.{name_cmp};
ghost use Rattle.mtn_roster.specs.Building.{AreUps};
ghost use Rattle.mtn_roster.specs.Tree.{IsSane, entry_of};
ghost use Rattle.mtn_base.specs.Lists.{rises};
ghost use Rattle.mtn_roster.specs.Index.{IsIndex, slot_in};
ghost use Rattle.mtn_roster.specs.Walk.{is_below, parent_cmp, AreStops};
ghost use Rattle.std.specs.declared.cmp.Ordering.TheVariants.{Less};

use crate::index::{root_place, up_at};
use crate::{Entry, Slot};
use mtn_base::{NoMemory, NodeName};
use std::alloc::Global;
use std::cmp::Ordering;

/// How the parent of the entry at a place stands to a node.
fn compare_parent(entries: &[Entry], at: usize, name: &NodeName) -> Ordering
    ensures { result ≡ parent_cmp (slot_in entries.now at) name.now }
{
    match entries.get(at) {
        None => Ordering::Less,
        Some(entry) => match &entry.slot {
            Slot::Root => Ordering::Less,
            Slot::Below { parent, .. } => parent.compare(name),
        },
    }
}

/// The places of the children of a node, by their components: they stand together in the index.
pub fn run_of<'a>(entries: &[Entry], by_slot: &'a [usize], name: &NodeName) -> &'a [usize]
    requires index { IsIndex entries.now by_slot.now }
    ensures { result.now ≡ filter (λ k. is_below name.now (slot_in entries.now k)) by_slot.now }
{
    let first = by_slot.partition_point(|at| compare_parent(entries, *at, name).is_lt());
    let rest = &by_slot[first..];
    let count = rest.partition_point(|at| compare_parent(entries, *at, name).is_le());
    &rest[..count]
}

/// How the parent of the entry at a place stands to the node at another, by their places. What is its own
/// parent is the root, or outside.
pub fn compare_up(
    entries: &[Entry],
    ups: &[usize],
    at: usize,
    above: usize,
    name: &NodeName,
) -> Ordering
    ensures { AreUps entries.now ups.now → IsTrue (rises name_cmp (map (λ (e : Entry). e.name) entries.now)) → above < length entries.now → slice_get entries.now above ≡ entry_of entries.now name.now → result ≡ parent_cmp (slot_in entries.now at) name.now }
{
    let up = up_at(ups, at);
    if up == at {
        return compare_parent(entries, at, name);
    }
    up.cmp(&above)
}

/// The same as `run_of`, by the place of the node: the names of parents are not compared.
fn run_at<'a>(
    entries: &[Entry],
    ups: &[usize],
    by_slot: &'a [usize],
    above: usize,
    name: &NodeName,
) -> &'a [usize]
    requires index { IsIndex entries.now by_slot.now }
    requires ups { AreUps entries.now ups.now }
    requires rising { IsTrue (rises name_cmp (map (λ (e : Entry). e.name) entries.now)) }
    requires within { above < length entries.now }
    requires there { slice_get entries.now above ≡ entry_of entries.now name.now }
    ensures { result.now ≡ filter (λ k. is_below name.now (slot_in entries.now k)) by_slot.now }
{
    let first = by_slot.partition_point(|at| compare_up(entries, ups, *at, above, name).is_lt());
    let rest = &by_slot[first..];
    let count = rest.partition_point(|at| compare_up(entries, ups, *at, above, name).is_le());
    &rest[..count]
}

/// The same for an entry of a sane tree: a file has none, which takes no search.
fn run_below<'a>(
    entries: &[Entry],
    ups: &[usize],
    by_slot: &'a [usize],
    place: usize,
    above: &Entry,
) -> &'a [usize]
    requires sane { IsSane entries.now }
    requires index { IsIndex entries.now by_slot.now }
    requires ups { AreUps entries.now ups.now }
    requires within { place < length entries.now }
    requires there { slice_get entries.now place ≡ Some above.now }
    requires node { entry_of entries.now above.now.name ≡ Some above.now }
    ensures { result.now ≡ filter (λ k. is_below above.now.name (slot_in entries.now k)) by_slot.now }
{
    if above.body.is_dir() {
        run_at(entries, ups, by_slot, place, &above.name)
    } else {
        &by_slot[..0]
    }
}

/// A node on the walk: its place among the entries, and how many stops before its parent's.
#[derive(Clone, Copy)]
pub struct Stop {
    pub place: usize,
    pub above: usize,
}

/// Lets the children of a node wait, the first last.
fn push_run(run: &[usize], above: usize, waiting: &mut Vec<Stop>) -> Result<(), NoMemory>
    ensures { OnOk result (waiting.new.items ≡ waiting.old.items ++ map (λ k. record { place = k; above = above }) (reverse run.now)) }
{
    let mut left = run.len();
    while left > 0 {
        left -= 1;
        waiting.push(Stop {
            place: run[left],
            above,
        })?;
    }
    Ok(())
}

/// The stops of the walk over a sane tree.
pub fn stops_of(
    alloc: Global,
    entries: &[Entry],
    ups: &[usize],
    by_slot: &[usize],
) -> Result<Vec<Stop>, NoMemory>
    requires sane { IsSane entries.now }
    requires index { IsIndex entries.now by_slot.now }
    requires ups { AreUps entries.now ups.now }
    ensures { IfOk result (λ stops. AreStops entries.now stops.items) }
{
    let mut stops = Vec::with_capacity(alloc, entries.len())?;
    let mut waiting = Vec::new(alloc);
    if let Some(place) = root_place(entries, by_slot) {
        waiting.push(Stop { place, above: 0 })?;
    }
    while let Some(stop) = waiting.pop() {
        let run = run_below(entries, ups, by_slot, stop.place, &entries[stop.place]);
        push_run(run, stops.len(), &mut waiting)?;
        stops.push(stop)?;
    }
    Ok(stops)
}
