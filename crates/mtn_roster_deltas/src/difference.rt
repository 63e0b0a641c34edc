// What differs between two lists of entries by ascending numbers.
ghost use Rattle.std.specs.Prelude.{◌≡◌, ◌<◌, ◌≤◌, ◌+◌, ◌++◌, ◌∷◌, [], ℕ, List, drop, map, length, Some, IfOk, OnOk, IsTrue};
ghost use Rattle.mtn_records.specs.declared.record.RosterRecord.{RosterRecord};
ghost use Rattle.mtn_roster_deltas.specs.Chain.{ascend, deepest, number_of, rebuilt, Entries};
ghost use Rattle.mtn_roster_deltas.specs.Difference.{IsDeltaTo, IsDifference};
ghost use Rattle.mtn_roster_deltas.specs.Parts.{Continues};

use crate::same::are_same;
use mtn_ancestry::Pos;
use mtn_base::{List, NoMemory};
use mtn_records::{Numbered, NumberedEntry, RosterRecord};
use std::alloc::Global;
use std::cmp::Ordering;

/// The numbers that are gone, and the entries that are changed.
#[derive(Drop)]
struct Found {
    gone: Vec<u64>,
    changed: Vec<NumberedEntry>,
}

/// Notes what two entries at hand tell, and answers how many of either list are done with.
fn step(
    alloc: Global,
    found: &mut Found,
    old: &NumberedEntry,
    new: &NumberedEntry,
) -> Result<(usize, usize), NoMemory>
    ensures goes { IfOk result (λ s. (base after es ns : Entries) → Continues base after found.old.gone.items found.old.changed.items (old.now ∷ es) (new.now ∷ ns) →
        Continues base after found.new.gone.items found.new.changed.items (drop s.0 (old.now ∷ es)) (drop s.1 (new.now ∷ ns))) }
    ensures one { IfOk result (λ s. (s.0 ≤ 1) × (s.1 ≤ 1) × (0 < s.0 + s.1)) }
{
    match old.number.cmp(&new.number) {
        Ordering::Less => {
            found.gone.push(old.number)?;
            Ok((1, 0))
        }
        Ordering::Greater => {
            found.changed.push(new.copy(alloc)?)?;
            Ok((0, 1))
        }
        Ordering::Equal => {
            if are_same(old, new) {
                return Ok((1, 1));
            }
            found.changed.push(new.copy(alloc)?)?;
            Ok((1, 1))
        }
    }
}

/// Notes what one list has behind the other's end.
fn finish(
    alloc: Global,
    found: &mut Found,
    old: &[NumberedEntry],
    new: &[NumberedEntry],
) -> Result<(), NoMemory>
    ensures gone { OnOk result (found.new.gone.items ≡ found.old.gone.items ++ map number_of old.now) }
    ensures changed { OnOk result (found.new.changed.items ≡ found.old.changed.items ++ new.now) }
{
    note_gone(&mut found.gone, old)?;
    note_changed(alloc, &mut found.changed, new)
}

fn note_gone(gone: &mut Vec<u64>, old: &[NumberedEntry]) -> Result<(), NoMemory>
    ensures { OnOk result (gone.new.items ≡ gone.old.items ++ map number_of old.now) }
{
    for entry in old {
        gone.push(entry.number)?;
    }
    Ok(())
}

fn note_changed(
    alloc: Global,
    changed: &mut Vec<NumberedEntry>,
    new: &[NumberedEntry],
) -> Result<(), NoMemory>
    ensures { OnOk result (changed.new.items ≡ changed.old.items ++ new.now) }
{
    for entry in new {
        changed.push(entry.copy(alloc)?)?;
    }
    Ok(())
}

/// The difference, by one walk over both lists.
fn difference(
    alloc: Global,
    base: &[NumberedEntry],
    new: &[NumberedEntry],
) -> Result<Found, NoMemory>
    ensures { IsTrue (ascend base.now) → IsTrue (ascend new.now) → IfOk result (λ f. IsDifference base.now new.now f.gone.items f.changed.items) }
{
    let mut found = Found {
        gone: Vec::new(alloc),
        changed: Vec::new(alloc),
    };
    let mut i = 0;
    let mut j = 0;
    while i < base.len() && j < new.len() {
        let (olds, news) = step(alloc, &mut found, &base[i], &new[j])?;
        i += olds;
        j += news;
    }
    finish(alloc, &mut found, &base[i..], &new[j..])?;
    Ok(found)
}

/// The record of what makes the new entries of those of another record: of a chain's end at `base_at`, where it is to stand
/// `depth` records above a whole one. Both lists are to ascend by numbers.
pub fn delta(
    alloc: Global,
    base: &Numbered,
    base_at: Pos,
    depth: u8,
    new: &Numbered,
) -> Result<RosterRecord, NoMemory>
    ensures is { IsTrue (ascend base.now) → IsTrue (ascend new.now) → IfOk result (IsDeltaTo base.now base_at depth new.now) }
    ensures rebuilds { IfOk result (λ r. (chain : List RosterRecord) → length chain ≡ depth → depth ≤ deepest → rebuilt chain ≡ Some base.now → IsTrue (ascend new.now) →
        rebuilt (chain ++ r ∷ []) ≡ Some new.now) }
{
    let found = difference(alloc, base.entries.as_slice(), new.entries.as_slice())?;
    let Found { gone, changed } = found;
    Ok(RosterRecord::Delta {
        base: base_at,
        depth,
        gone: List::from_vec(gone),
        changed: Numbered {
            entries: List::from_vec(changed),
        },
    })
}
