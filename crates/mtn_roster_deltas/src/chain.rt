// The entries at the end of a chain.
ghost use Rattle.std.specs.Prelude.{◌≡◌, Some, None, IfOk, IsErrOf, IsTrue};
ghost use Rattle.mtn_roster_deltas.specs.Chain.{ascend, applied, after_record, after_all, rebuilt};

use crate::merge::{drop_gone, merged};
use crate::order::{are_there, entries_ascend, numbers_ascend};
use mtn_base::MAX_CHAIN;
use mtn_records::{NumberedEntry, RecordError, RosterRecord};
use std::alloc::Global;
use std::collections::VecDeque;

/// The most deltas above a whole record.
pub const DEEPEST: u8 = MAX_CHAIN - 1;

/// The entries after a delta.
fn apply(
    alloc: Global,
    mut entries: Vec<NumberedEntry>,
    gone: &[u64],
    changed: Vec<NumberedEntry>,
) -> Result<Vec<NumberedEntry>, RecordError>
    requires { IsTrue (ascend entries.items) }
    ensures ok { IfOk result (λ v. applied entries.items gone.now changed.items ≡ Some v.items) }
    ensures bad { IsErrOf result RecordError.Bad → applied entries.items gone.now changed.items ≡ None }
{
    if !numbers_ascend(gone) || !entries_ascend(&changed) || !are_there(&entries, gone) {
        return Err(RecordError::Bad);
    }
    drop_gone(&mut entries, gone);
    Ok(merged(alloc, entries, changed)?)
}

/// The entries after one more record.
fn follow(
    alloc: Global,
    entries: Vec<NumberedEntry>,
    depth: u8,
    next: RosterRecord,
) -> Result<Vec<NumberedEntry>, RecordError>
    requires { IsTrue (ascend entries.items) }
    ensures ok { IfOk result (λ v. after_record depth entries.items next ≡ Some v.items) }
    ensures bad { IsErrOf result RecordError.Bad → after_record depth entries.items next ≡ None }
{
    match next {
        RosterRecord::Whole(_) => Err(RecordError::Bad),
        RosterRecord::Delta {
            base: _,
            depth: told,
            gone,
            changed,
        } => {
            if told != depth || depth > DEEPEST {
                return Err(RecordError::Bad);
            }
            apply(alloc, entries, gone.as_slice(), changed.entries.into_vec())
        }
    }
}

/// The entries after deltas, of which the first is to stand `depth` records above a whole one.
pub fn follow_all(
    alloc: Global,
    mut entries: Vec<NumberedEntry>,
    mut depth: u8,
    mut records: VecDeque<RosterRecord>,
) -> Result<Vec<NumberedEntry>, RecordError>
    requires ascending { IsTrue (ascend entries.items) }
    ensures ok { IfOk result (λ v. after_all depth entries.items records.items ≡ Some v.items) }
    ensures ascending { IfOk result (λ v. IsTrue (ascend v.items)) }
    ensures bad { IsErrOf result RecordError.Bad → after_all depth entries.items records.items ≡ None }
{
    while let Some(next) = records.pop_front() {
        entries = follow(alloc, entries, depth, next)?;
        depth += 1;
    }
    Ok(entries)
}

/// The entries at the end of a chain.
pub fn entries_at_end(
    alloc: Global,
    chain: Vec<RosterRecord>,
) -> Result<Vec<NumberedEntry>, RecordError>
    ensures ok { IfOk result (λ v. rebuilt chain.items ≡ Some v.items) }
    ensures ascending { IfOk result (λ v. IsTrue (ascend v.items)) }
    ensures bad { IsErrOf result RecordError.Bad → rebuilt chain.items ≡ None }
{
    let mut records = VecDeque::from_vec(chain);
    let Some(RosterRecord::Whole(whole)) = records.pop_front() else {
        return Err(RecordError::Bad);
    };
    let entries = whole.entries.into_vec();
    if !entries_ascend(&entries) {
        return Err(RecordError::Bad);
    }
    follow_all(alloc, entries, 1, records)
}
