// The entries of a stored roster.
ghost use Rattle.std.specs.Prelude.{◌≡◌, Some, IfOk, IfSome, IsTrue, slice_get};
ghost use Rattle.mtn_records.specs.declared.record.RosterRecord.TheVariants.{Whole};
ghost use Rattle.mtn_check_records.specs.Reading.{places_of, IsAfterFirst, IsGivenAt, IsGivenBy};

use crate::kin::Kin;
use crate::records::Records;
use mtn_ancestry::Pos;
use mtn_base::{List, NoMemory};
use mtn_records::{Numbered, RecordError, RosterRecord, read_roster};
use mtn_roster_deltas::entries_of;
use std::alloc::Global;

/// The entries of a roster, and how many deltas its record stands above a whole one.
#[derive(Drop)]
pub struct Stored {
    pub entries: Numbered,
    pub depth: u8,
}

// The entries of the first parent.
fn first_entries(kin: &Kin) -> Option<&Numbered>
    ensures { IfSome result (λ below. slice_get kin.now.records 0 ≡ Some (Whole below.now)) }
{
    let [first, ..] = kin.records.as_slice() else {
        return None;
    };
    match first.as_record() {
        RosterRecord::Whole(entries) => Some(entries),
        RosterRecord::Delta { .. } => None,
    }
}

// The entries of the first parent after a delta, if it can follow them.
fn after_delta(
    alloc: Global,
    kin: &Kin,
    gone: List<u64>,
    changed: Numbered,
) -> Result<Option<Numbered>, NoMemory>
    ensures { IfOk result (λ o. IfSome o (IsAfterFirst kin.now.records gone changed)) }
{
    let Some(base) = first_entries(kin) else {
        return Ok(None);
    };
    let whole = RosterRecord::Whole(base.copy(alloc)?);
    let delta = RosterRecord::Delta {
        base: Pos(0),
        depth: 1,
        gone,
        changed,
    };
    match entries_of(alloc, vec![in alloc; whole, delta]?) {
        Ok(entries) => Ok(Some(entries)),
        Err(RecordError::Bad) => Ok(None),
        Err(RecordError::NoMemory) => Err(NoMemory),
    }
}

// Whether a position is that of the first parent.
fn is_first(kin: &Kin, base: Pos) -> bool
    ensures { IsTrue result → slice_get (places_of kin.now.parents) 0 ≡ Some base }
{
    match kin.parents.as_slice() {
        [first, ..] => first.at.0 == base.0,
        [] => false,
    }
}

// The entries that a roster's record gives, if it can follow those of the first parent.
fn given_by(alloc: Global, kin: &Kin, roster: RosterRecord) -> Result<Option<Stored>, NoMemory>
    ensures { IfOk result (λ o. IfSome o (λ s. IsGivenBy kin.now.parents kin.now.records roster s.entries s.depth)) }
{
    match roster {
        RosterRecord::Whole(entries) => Ok(Some(Stored { entries, depth: 0 })),
        RosterRecord::Delta {
            base,
            depth,
            gone,
            changed,
        } => {
            if !is_first(kin, base) {
                return Ok(None);
            }
            match after_delta(alloc, kin, gone, changed)? {
                Some(entries) => Ok(Some(Stored { entries, depth })),
                None => Ok(None),
            }
        }
    }
}

/// The entries that a roster's record at a position gives, which are its own or a delta's on those of the first parent; none
/// where it is no record or cannot follow these. What they are right for is looked at where they are checked.
pub fn stored_in(
    alloc: Global,
    at: u64,
    records: &Records,
    kin: &Kin,
) -> Result<Option<Stored>, NoMemory>
    ensures { IfOk result (λ o. IfSome o (λ s. IsGivenAt at records.now.roster.items kin.now.parents kin.now.records s.entries s.depth)) }
{
    match read_roster(alloc, Pos(at), &records.roster) {
        Ok(roster) => given_by(alloc, kin, roster),
        Err(RecordError::Bad) => Ok(None),
        Err(RecordError::NoMemory) => Err(NoMemory),
    }
}
