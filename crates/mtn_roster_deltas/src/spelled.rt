// The marked tree that entries spell.
ghost use Rattle.std.specs.Prelude.{◌≡◌, List, map, IfOk, OnOk, IsErrOf, IsTrue};
ghost use Rattle.std.specs.List.{AllZip};
ghost use Rattle.mtn_marking.specs.Marking.{MarkedTree};
ghost use Rattle.mtn_records.specs.declared.entry.NumberedEntry.{NumberedEntry};
ghost use Rattle.mtn_roster.specs.declared.entry.Entry.{Entry};
ghost use Rattle.mtn_roster.specs.Building.{IsBuildable, tree_of};
ghost use Rattle.mtn_roster_deltas.specs.Chain.{ascend};
ghost use Rattle.mtn_roster_deltas.specs.Parts.{IsKeyedEntryOf};
ghost use Rattle.mtn_roster_deltas.specs.Spelled.{marks_of, Spells};

use crate::order::are_from_one;
use crate::sorted::sorted_of;
use crate::spell::{node_marks, plain_entry};
use mtn_base::NoMemory;
use mtn_marking::{MarkMap, MarkedRoster, NodeMarks};
use mtn_records::{NumberedEntry, RecordError};
use mtn_roster::{BuildError, Entry, Roster};
use std::alloc::Global;

/// What the tree has of the nodes of entries; Bad where it can have nothing of one.
fn plain_entries(
    alloc: Global,
    entries: &[NumberedEntry],
    sorted: &[&NumberedEntry],
) -> Result<Vec<Entry>, RecordError>
    requires { IsTrue (ascend entries.now) }
    ensures ok { IfOk result (λ v. AllZip (λ b n. IsKeyedEntryOf entries.now b.now n) sorted.now v.items) }
    ensures bad { IsErrOf result RecordError.Bad → (t : List Entry) → AllZip (λ b n. IsKeyedEntryOf entries.now b.now n) sorted.now t → ⊥ }
{
    let mut plain = Vec::with_capacity(alloc, sorted.len())?;
    for entry in sorted {
        plain.push(plain_entry(alloc, entries, entry)?)?;
    }
    Ok(plain)
}

/// The marks of the nodes of entries.
pub fn all_marks(alloc: Global, sorted: &[&NumberedEntry]) -> Result<Vec<NodeMarks>, NoMemory>
    ensures { IfOk result (λ v. v.items ≡ map (λ b. marks_of b.now) sorted.now) }
{
    let mut marks = Vec::with_capacity(alloc, sorted.len())?;
    for entry in sorted {
        marks.push(node_marks(alloc, entry)?)?;
    }
    Ok(marks)
}

/// The tree of entries; Bad where it is not sane.
fn build(alloc: Global, entries: Vec<Entry>) -> Result<Roster, RecordError>
    ensures ok { IfOk result (λ r. r ≡ tree_of entries.items) }
    ensures made { OnOk result (IsBuildable entries.items) }
    ensures bad { IsErrOf result RecordError.Bad → IsBuildable entries.items → ⊥ }
{
    match Roster::build(alloc, entries) {
        Ok(roster) => Ok(roster),
        Err(BuildError::Insane) => Err(RecordError::Bad),
        Err(BuildError::NoMemory) => Err(RecordError::NoMemory),
    }
}

/// The marked tree that entries spell; Bad where they spell none.
pub fn spelled(alloc: Global, entries: &[NumberedEntry]) -> Result<MarkedRoster, RecordError>
    requires { IsTrue (ascend entries.now) }
    ensures ok { IfOk result (Spells entries.now) }
    ensures bad { IsErrOf result RecordError.Bad → (t : MarkedTree) → Spells entries.now t → ⊥ }
{
    if !are_from_one(entries) {
        return Err(RecordError::Bad);
    }
    let sorted = sorted_of(alloc, entries)?;
    let nodes = sorted.as_slice();
    let plain = plain_entries(alloc, entries, nodes)?;
    let roster = build(alloc, plain)?;
    let marks = all_marks(alloc, nodes)?;
    Ok(MarkedRoster::new(roster, MarkMap::from_rising(marks)))
}
