//! What a job's text and its records spell, and the records that jobs share.
ghost use Rattle.std.specs.Prelude.{◌≡◌, IfOk};
ghost use Rattle.mtn_check_pieces.specs.Verdict.{IsOneOf, IsRevisionOf, IsWholeOf};
ghost use Rattle.mtn_records.specs.declared.record.RosterRecord.TheVariants.{Whole};

use mtn_base::NoMemory;
use mtn_changes::Revision;
use mtn_check_pieces::{SharedEntries, SharedRecord};
use mtn_marking::MarkedRoster;
use mtn_records::{Numbered, RosterRecord};
use std::alloc::Global;

/// As `mtn_check_pieces::revision_of`.
pub fn revision_of(alloc: Global, text: &[u8]) -> Result<Option<Revision>, NoMemory>
    ensures { IfOk result (IsOneOf (IsRevisionOf text.now)) }
{
    mtn_check_pieces::revision_of(alloc, text)
}

/// As `mtn_check_pieces::roster_of`.
pub fn roster_of(alloc: Global, roster: &SharedRecord) -> Result<Option<MarkedRoster>, NoMemory>
    ensures { IfOk result (IsOneOf (IsWholeOf roster.now)) }
{
    mtn_check_pieces::roster_of(alloc, roster)
}

/// As `SharedRecord::new`.
pub fn new_shared_record(alloc: Global, roster: RosterRecord) -> Result<SharedRecord, NoMemory>
    ensures { IfOk result (λ r. r ≡ roster) }
{
    SharedRecord::new(alloc, roster)
}

/// As `SharedRecord::as_record`.
pub fn as_record(shared: &SharedRecord) -> &RosterRecord
    ensures { result.now ≡ shared.now }
{
    shared.as_record()
}

/// As `SharedEntries::new`.
pub fn new_shared_entries(alloc: Global, entries: Numbered) -> Result<SharedEntries, NoMemory>
    ensures { IfOk result (λ e. e ≡ entries) }
{
    SharedEntries::new(alloc, entries)
}

/// As `SharedEntries::copy`.
pub fn copy_shared_entries(shared: &SharedEntries) -> Result<SharedEntries, NoMemory>
    ensures { IfOk result (λ e. e ≡ shared.now) }
{
    shared.copy()
}

/// As `SharedEntries::whole`.
pub fn whole(shared: &SharedEntries) -> Result<SharedRecord, NoMemory>
    ensures { IfOk result (λ r. r ≡ Whole shared.now) }
{
    shared.whole()
}

/// As `SharedEntries::as_numbered`.
pub fn as_numbered(shared: &SharedEntries) -> &Numbered
    ensures { result.now ≡ shared.now }
{
    shared.as_numbered()
}
