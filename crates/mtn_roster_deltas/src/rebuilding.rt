// What a chain of records rebuilds.
ghost use Rattle.std.specs.Prelude.{◌≡◌, ◌≤◌, ◌+◌, Some, None, IfOk, IsErrOf, IsTrue};
ghost use Rattle.mtn_marking.specs.Marking.{MarkedTree};
ghost use Rattle.mtn_roster_deltas.specs.Chain.{Entries, after_all, ascend, deepest, rebuilt};
ghost use Rattle.mtn_roster_deltas.specs.Spelled.{Spells};

use crate::chain::{DEEPEST, entries_at_end, follow_all};
use crate::order::entries_ascend;
use crate::spelled::spelled;
use mtn_base::List;
use mtn_marking::MarkedRoster;
use mtn_records::{Numbered, NumberedEntry, RecordError, RosterRecord};
use std::alloc::Global;
use std::collections::VecDeque;

// Entries, and the marked tree that they spell.
fn with_tree(
    alloc: Global,
    entries: Vec<NumberedEntry>,
) -> Result<(Numbered, MarkedRoster), RecordError>
    requires { IsTrue (ascend entries.items) }
    ensures entries { IfOk result (λ r. entries.items ≡ r.0) }
    ensures spelled { IfOk result (λ r. Spells r.0 r.1) }
    ensures bad { IsErrOf result RecordError.Bad → (t : MarkedTree) → Spells entries.items t → ⊥ }
{
    let roster = spelled(alloc, &entries)?;
    let entries = List::from_vec(entries);
    Ok((Numbered { entries }, roster))
}

/// The entries at the end of a chain, and the marked tree that they spell. Bad exactly where the chain gives no entries, as
/// where depths do not follow or a number that is gone is not there, or where the entries spell no marked tree.
pub fn rebuild(
    alloc: Global,
    chain: Vec<RosterRecord>,
) -> Result<(Numbered, MarkedRoster), RecordError>
    ensures entries { IfOk result (λ r. rebuilt chain.items ≡ Some r.0) }
    ensures spelled { IfOk result (λ r. Spells r.0 r.1) }
    ensures bad { IsErrOf result RecordError.Bad → (es : Entries) (t : MarkedTree) → rebuilt chain.items ≡ Some es → Spells es t → ⊥ }
{
    with_tree(alloc, entries_at_end(alloc, chain)?)
}

/// The same of deltas behind the end of a chain, whose entries are handed over: its last record stands `depth` records above
/// a whole one. It is Bad too where that is above 15 or these entries do not ascend.
pub fn rebuild_on(
    alloc: Global,
    base: Numbered,
    depth: u8,
    deltas: Vec<RosterRecord>,
) -> Result<(Numbered, MarkedRoster), RecordError>
    ensures entries { IfOk result (λ r. after_all (depth + 1) base deltas.items ≡ Some r.0) }
    ensures spelled { IfOk result (λ r. Spells r.0 r.1) }
    ensures bad { IsErrOf result RecordError.Bad → depth ≤ deepest → IsTrue (ascend base) → (es : Entries) (t : MarkedTree) → after_all (depth + 1) base deltas.items ≡ Some es → Spells es t → ⊥ }
{
    let entries = base.entries.into_vec();
    if depth > DEEPEST || !entries_ascend(&entries) {
        return Err(RecordError::Bad);
    }
    let records = VecDeque::from_vec(deltas);
    with_tree(alloc, follow_all(alloc, entries, depth + 1, records)?)
}

/// The marked tree that entries spell. Bad exactly where they spell none. The entries are only looked at.
pub fn marked_tree(alloc: Global, entries: &Numbered) -> Result<MarkedRoster, RecordError>
    ensures spelled { IfOk result (Spells entries.now) }
    ensures bad { IsErrOf result RecordError.Bad → (t : MarkedTree) → Spells entries.now t → ⊥ }
{
    let entries = entries.entries.as_slice();
    if !entries_ascend(entries) {
        return Err(RecordError::Bad);
    }
    spelled(alloc, entries)
}

/// The entries at the end of a chain alone. Bad exactly where it gives none.
pub fn entries_of(alloc: Global, chain: Vec<RosterRecord>) -> Result<Numbered, RecordError>
    ensures ok { IfOk result (λ r. rebuilt chain.items ≡ Some r) }
    ensures ascending { IfOk result (λ r. IsTrue (ascend r)) }
    ensures bad { IsErrOf result RecordError.Bad → rebuilt chain.items ≡ None }
{
    let entries = List::from_vec(entries_at_end(alloc, chain)?);
    Ok(Numbered { entries })
}
