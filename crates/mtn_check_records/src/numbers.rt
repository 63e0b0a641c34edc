// The numbers of the nodes.
ghost use Rattle.std.specs.Prelude.{◌≡◌, ◌≤◌, All, length, IfOk, IfSome, IsTrue, None, Ok};
ghost use Rattle.mtn_base.specs.declared.limits.TheConstants.{LAST_NUMBER, MAX_NODES};
ghost use Rattle.mtn_put_revision.specs.Keeping.{IsWhole};
ghost use Rattle.mtn_roster_deltas.specs.Numbering.{AreKnown, shown};
ghost use Rattle.mtn_check_pieces.specs.Verdict.{IsWholeOf};
ghost use Rattle.mtn_check_records.specs.Due.{HasEntries, IsKnownIn, IsNumberedBy, KeepsBelow, KeepsNumbers};

use mtn_base::{LAST_NUMBER, NoMemory};
use mtn_marking::MarkedRoster;
use mtn_records::{Numbered, NumberedEntry, RosterRecord};
use mtn_roster_deltas::{NumberError, number};
use std::alloc::Global;

// Whether two entries have one number and one node.
fn has_number(entry: &NumberedEntry, other: &NumberedEntry) -> bool
    ensures { IsTrue result → (other.now.node ≡ entry.now.node) × (other.now.number ≡ entry.now.number) }
{
    if other.number != entry.number {
        return false;
    }
    other.node.same(&entry.node)
}

// Whether the node of an entry has its number among entries.
fn is_known(below: &[NumberedEntry], entry: &NumberedEntry) -> bool
    ensures { IsTrue result → IsKnownIn below.now entry.now }
{
    match below.binary_search_by(|other| other.number.cmp(&entry.number)) {
        Ok(place) => has_number(entry, &below[place]),
        Err(_) => false,
    }
}

// The same of each of some.
fn are_known(below: &[NumberedEntry], entries: &[NumberedEntry]) -> bool
    ensures { IsTrue result → All (IsKnownIn below.now) entries.now }
{
    for entry in entries {
        if !is_known(below, entry) {
            return false;
        }
    }
    true
}

// Whether the record is whole, and the node of each of its entries has its number among others.
fn keeps_below(stored: &RosterRecord, below: &Numbered) -> bool
    ensures { IsTrue result → KeepsBelow stored.now below.now }
{
    match stored {
        RosterRecord::Whole(entries) => are_known(
            below.entries.as_slice(),
            entries.entries.as_slice(),
        ),
        RosterRecord::Delta { .. } => false,
    }
}

// The same among those of the first list.
fn keeps_numbers(stored: &RosterRecord, known: &[&Numbered]) -> bool
    ensures { IsTrue result → KeepsNumbers stored.now (shown known.now) }
{
    match known {
        [] => false,
        [below, ..] => keeps_below(stored, below),
    }
}

// A copy of the entries of a whole record.
fn entries_in(alloc: Global, held: &RosterRecord) -> Result<Numbered, NoMemory>
    requires { IsWhole held.now }
    ensures { IfOk result (HasEntries held.now) }
{
    match held {
        RosterRecord::Whole(entries) => entries.copy(alloc),
        RosterRecord::Delta { .. } => unreachable!(),
    }
}

/// The entries of a stored roster under the numbers that are due behind those of some lists, with the number that is free then; none
/// where `next` is past the last number, or numbers of those lists clash. Where no node of the roster is new they are those of its
/// record, and no walk is made.
pub fn numbers_due(
    alloc: Global,
    held: &RosterRecord,
    stored: &MarkedRoster,
    known: &[&Numbered],
    next: u64,
) -> Result<Option<(Numbered, u64)>, NoMemory>
    requires nodes { length stored.now.tree ≤ MAX_NODES }
    requires spelled { IsWholeOf held.now stored.now }
    ensures numbered { IfOk result (λ o. IfSome o (λ r. IsNumberedBy stored.now (shown known.now) next r.0 r.1)) }
    ensures none { result ≡ Ok None → next ≤ LAST_NUMBER → AreKnown (shown known.now) next → ⊥ }
{
    if keeps_numbers(held, known) {
        let entries = entries_in(alloc, held)?;
        return Ok(Some((entries, next)));
    }
    new_numbers(alloc, stored, known, next)
}

// The same where some may be new.
fn new_numbers(
    alloc: Global,
    stored: &MarkedRoster,
    known: &[&Numbered],
    next: u64,
) -> Result<Option<(Numbered, u64)>, NoMemory>
    requires { length stored.now.tree ≤ MAX_NODES }
    ensures numbered { IfOk result (λ o. IfSome o (λ r. IsNumberedBy stored.now (shown known.now) next r.0 r.1)) }
    ensures none { result ≡ Ok None → next ≤ LAST_NUMBER → AreKnown (shown known.now) next → ⊥ }
{
    if next > LAST_NUMBER {
        return Ok(None);
    }
    let stops = stored.roster().stops(alloc)?;
    match number(alloc, stored, &stops, known, next) {
        Ok(numbers) => Ok(Some(numbers)),
        Err(NumberError::Clash) => Ok(None),
        Err(NumberError::NoMemory) => Err(NoMemory),
    }
}
