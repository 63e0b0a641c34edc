// What a job's text and its records spell.
ghost use Rattle.std.specs.Prelude.{◌≡◌, ◌↔◌, IfOk, IsTrue};
ghost use Rattle.mtn_check_pieces.specs.Verdict.{IsOneOf, IsRevisionOf, IsStoredOn, IsWholeOf};

use crate::SharedRecord;
use mtn_base::NoMemory;
use mtn_changes::{ChangeTextError, Revision, read_revision};
use mtn_marking::MarkedRoster;
use mtn_records::{RecordError, RosterRecord};
use mtn_roster::Roster;
use mtn_roster_deltas::{marked_tree, marks_on};
use std::alloc::Global;

// Whether memory was wanting.
fn is_want(error: &ChangeTextError) -> bool
    ensures { IsTrue result ↔ (error.now ≡ ChangeTextError.NoMemory) }
{
    matches!(error, ChangeTextError::NoMemory)
}

/// The revision that a text spells, if it spells one.
pub fn revision_of(alloc: Global, text: &[u8]) -> Result<Option<Revision>, NoMemory>
    ensures { IfOk result (IsOneOf (IsRevisionOf text.now)) }
{
    match read_revision(alloc, text) {
        Ok(revision) => Ok(Some(revision)),
        Err(error) => {
            if is_want(&error) {
                return Err(NoMemory);
            }
            Ok(None)
        }
    }
}

/// The roster that a whole record spells, if it is whole and spells one.
pub fn roster_of(alloc: Global, roster: &SharedRecord) -> Result<Option<MarkedRoster>, NoMemory>
    ensures { IfOk result (IsOneOf (IsWholeOf roster.now)) }
{
    let RosterRecord::Whole(entries) = roster.as_record() else {
        return Ok(None);
    };
    match marked_tree(alloc, entries) {
        Ok(spelled) => Ok(Some(spelled)),
        Err(RecordError::Bad) => Ok(None),
        Err(RecordError::NoMemory) => Err(NoMemory),
    }
}

/// A tree with the marks that a whole record gives to its nodes, if the record spells that tree.
pub fn stored_on(
    alloc: Global,
    stored: &SharedRecord,
    tree: Roster,
) -> Result<Option<MarkedRoster>, NoMemory>
    ensures { IfOk result (IsOneOf (IsStoredOn stored.now tree)) }
{
    let RosterRecord::Whole(entries) = stored.as_record() else {
        return Ok(None);
    };
    match marks_on(alloc, entries, &tree)? {
        Some(marks) => Ok(Some(MarkedRoster::new(tree, marks))),
        None => Ok(None),
    }
}
