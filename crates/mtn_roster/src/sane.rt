// The tests on slots, bodies and parents.
ghost use Rattle.std.specs.Prelude.{◌≡◌, ◌<◌, ◌≤◌, ◌≢◌, ◌&&◌, ℕ, not, IsTrue, IfOk, IfSome, OnOk, IsErrOf, IsSome, None, true, false, length, map, slice_get, slice_index, slice_index_or, option_and_then};
ghost use Rattle.std.specs.List.{All};
ghost use Rattle.mtn_base.specs.Names.{name_cmp, same_bytes};
ghost use Rattle.mtn_roster.specs.Tree.{is_dir, is_root_slot, mtn};
ghost use Rattle.mtn_base.specs.Lists.{rises};
ghost use Rattle.mtn_roster.specs.Index.{slot_in};
ghost use Rattle.mtn_roster.specs.Building.{hangs_well, IsUp, AreUps, climbed, Leads, MarkedLead};
ghost use Rattle.mtn_roster.specs.Tree.{entry_of, IsSaneMap};
ghost use Rattle.mtn_roster.specs.Index.{IsIndex};

use crate::index::{index_of, root_place};
use crate::roster::place_among;
use crate::{BuildError, Entry, Slot};
use mtn_base::{Comp, NoMemory, NodeName};
use std::alloc::Global;

fn may_hold(above: &Entry, name: &Comp) -> bool
    ensures { result ≡ (is_dir above.now && not (is_root_slot above.now.slot && same_bytes name.now mtn)) }
{
    above.body.is_dir() && !(above.slot.is_root() && name.bytes() == b"_MTN".as_slice())
}

/// How many steps up from the last entry a parent is looked for before it is searched.
const NEAR: usize = 16;

/// A place of that name on the way up from a place, not many steps far. `ups` has the parents of the
/// places before some place.
fn place_above(entries: &[Entry], ups: &[usize], from: usize, name: &NodeName) -> Option<usize>
    requires rising { IsTrue (rises name_cmp (map (λ (e : Entry). e.name) entries.now)) }
    ensures within { IfSome result (λ at. at < length entries.now) }
    ensures entry { IfSome result (λ at. slice_get entries.now at ≡ entry_of entries.now name.now) }
{
    let mut at = from;
    for _ in 0..NEAR {
        if entries.get(at)?.name.same(name) {
            return Some(at);
        }
        at = *ups.get(at)?;
    }
    None
}

/// Where the entry of a name stands. It is first looked for on the way up from the entry before: where
/// the nodes kept the paths of their births, the parent of each stands there.
fn place_near(entries: &[Entry], ups: &[usize], own: usize, name: &NodeName) -> Option<usize>
    requires rising { IsTrue (rises name_cmp (map (λ (e : Entry). e.name) entries.now)) }
    ensures within { IfSome result (λ at. at < length entries.now) }
    ensures entry { option_and_then (slice_get entries.now) result ≡ entry_of entries.now name.now }
{
    match place_above(entries, ups, own.saturating_sub(1), name) {
        Some(at) => Some(at),
        None => place_among(entries, name),
    }
}

/// The place of the parent of what hangs there, for the root slot the own place; None where it may not hang there.
fn up_of(entries: &[Entry], ups: &[usize], own: usize, slot: &Slot) -> Option<usize>
    requires rising { IsTrue (rises name_cmp (map (λ (e : Entry). e.name) entries.now)) }
    ensures well { IsSome result → hangs_well entries.now slot.now ≡ true }
    ensures badly { result ≡ None → hangs_well entries.now slot.now ≡ false }
    ensures up { IfSome result (λ up. IsUp entries.now slot.now own up) }
{
    match slot {
        Slot::Root => Some(own),
        Slot::Below { parent, name } => {
            let at = place_near(entries, ups, own, parent)?;
            if may_hold(&entries[at], name) {
                Some(at)
            } else {
                None
            }
        }
    }
}

/// The places of the parents; Insane where an entry may not hang where it does.
fn ups_of(alloc: Global, entries: &[Entry]) -> Result<Vec<usize>, BuildError>
    requires rising { IsTrue (rises name_cmp (map (λ (e : Entry). e.name) entries.now)) }
    ensures ups { IfOk result (λ ups. AreUps entries.now ups.items) }
    ensures well { OnOk result ((k : ℕ) → k < length entries.now → hangs_well entries.now (slot_in entries.now k) ≡ true) }
    ensures insane { IsErrOf result BuildError.Insane → (k : ℕ) × (k < length entries.now) × (hangs_well entries.now (slot_in entries.now k) ≡ false) }
{
    let mut ups = Vec::with_capacity(alloc, entries.len())?;
    for (own, entry) in entries.iter().enumerate() {
        match up_of(entries, &ups, own, &entry.slot) {
            Some(up) => ups.push(up)?,
            None => return Err(BuildError::Insane),
        }
    }
    Ok(ups)
}

/// Marks of so many places: one is marked.
fn marks_of(alloc: Global, count: usize, root: usize) -> Result<Vec<bool>, NoMemory>
    requires { root < count }
    ensures long { IfOk result (λ marked. length marked.items ≡ count) }
    ensures root { IfOk result (λ marked. slice_index_or marked.items root false ≡ true) }
    ensures rest { IfOk result (λ marked. (k : ℕ) → slice_index_or marked.items k false ≡ true → k ≡ root) }
{
    let mut marked = Vec::with_capacity(alloc, count)?;
    for at in 0..count {
        marked.push(at == root)?;
    }
    Ok(marked)
}

/// Whether the way up from a place leads to a marked one: a way that ends is shorter than the tree has nodes.
fn leads(ups: &[usize], marked: &[bool], from: usize) -> bool
    requires within { All (λ k. k < length ups.now) ups.now }
    requires long { length marked.now ≡ length ups.now }
    requires from { from < length ups.now }
    ensures yes { result ≡ true → (n : ℕ) × (slice_index_or marked.now (climbed ups.now n from) false ≡ true) }
    ensures no { result ≡ false → slice_index_or marked.now (climbed ups.now (length ups.now) from) false ≡ false }
{
    let mut at = from;
    for _ in 0..ups.len() {
        if marked[at] {
            return true;
        }
        at = ups[at];
    }
    marked[at]
}

/// Marks the places on the way up from a place, up to one that is marked.
fn mark(ups: &[usize], from: usize, marked: &mut Vec<bool>)
    requires within { All (λ k. k < length ups.now) ups.now }
    requires long { length marked.old.items ≡ length ups.now }
    requires from { from < length ups.now }
    ensures long { length marked.new.items ≡ length ups.now }
    ensures kept { (k : ℕ) → slice_index_or marked.old.items k false ≡ true → slice_index_or marked.new.items k false ≡ true }
    ensures lead { (root : ℕ) → slice_index ups.now root ≡ root → Leads ups.now root from → MarkedLead ups.now root marked.old.items → MarkedLead ups.now root marked.new.items }
{
    let mut at = from;
    for _ in 0..ups.len() {
        if marked[at] {
            return;
        }
        marked[at] = true;
        at = ups[at];
    }
}

/// Whether the way up from each place leads to the root. Each place is marked once, so that the ways are
/// gone along twice in all.
fn all_lead(alloc: Global, ups: &[usize], root: usize) -> Result<bool, NoMemory>
    requires within { All (λ k. k < length ups.now) ups.now }
    requires root { root < length ups.now }
    requires top { slice_index ups.now root ≡ root }
    ensures all { IfOk result (λ r. r ≡ true → (k : ℕ) → k < length ups.now → Leads ups.now root k) }
    ensures some { IfOk result (λ r. r ≡ false → (k : ℕ) × (n : ℕ) × (k < length ups.now) × (length ups.now ≤ n) × (climbed ups.now n k ≢ root)) }
{
    let mut marked = marks_of(alloc, ups.len(), root)?;
    for from in 0..ups.len() {
        if !leads(ups, &marked, from) {
            return Ok(false);
        }
        mark(ups, from, &mut marked);
    }
    Ok(true)
}

/// Whether entries by ascending name, with their index and parents, make a sane tree.
fn check_shape(
    alloc: Global,
    entries: &[Entry],
    by_slot: &[usize],
    ups: &[usize],
) -> Result<(), BuildError>
    requires rising { IsTrue (rises name_cmp (map (λ (e : Entry). e.name) entries.now)) }
    requires index { IsIndex entries.now by_slot.now }
    requires ups { AreUps entries.now ups.now }
    requires well { (k : ℕ) → k < length entries.now → hangs_well entries.now (slot_in entries.now k) ≡ true }
    ensures ok { OnOk result (IsSaneMap (entry_of entries.now)) }
    ensures insane { IsErrOf result BuildError.Insane → IsSaneMap (entry_of entries.now) → ⊥ }
{
    let Some(root) = root_place(entries, by_slot) else {
        return Err(BuildError::Insane);
    };
    if !entries[root].body.is_dir() {
        return Err(BuildError::Insane);
    }
    if !all_lead(alloc, ups, root)? {
        return Err(BuildError::Insane);
    }
    Ok(())
}

/// The places of the parents, and the places in the order of slots, of entries by ascending name; Insane
/// where they make no sane tree.
pub fn checked_index(
    alloc: Global,
    entries: &[Entry],
) -> Result<(Vec<usize>, Vec<usize>), BuildError>
    requires rising { IsTrue (rises name_cmp (map (λ (e : Entry). e.name) entries.now)) }
    ensures ups { IfOk result (λ both. AreUps entries.now both.0.items) }
    ensures index { IfOk result (λ both. IsIndex entries.now both.1.items) }
    ensures ok { OnOk result (IsSaneMap (entry_of entries.now)) }
    ensures insane { IsErrOf result BuildError.Insane → IsSaneMap (entry_of entries.now) → ⊥ }
{
    let ups = ups_of(alloc, entries)?;
    let by_slot = index_of(alloc, entries, &ups)?;
    check_shape(alloc, entries, &by_slot, &ups)?;
    Ok((ups, by_slot))
}
