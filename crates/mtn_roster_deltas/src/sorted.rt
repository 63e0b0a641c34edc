// Entries by ascending nodes.
ghost use Rattle.std.specs.Prelude.{◌≡◌, map, IfOk, OnOk, IsErrOf};
ghost use Rattle.std.specs.List.{IsDistinct};
ghost use Rattle.std.specs.Ordering.{is_lt};
ghost use Rattle.mtn_base.specs.Names.{name_cmp, same_name};
ghost use Rattle.mtn_records.specs.declared.entry.NumberedEntry.{NumberedEntry};
ghost use Rattle.mtn_roster_deltas.specs.Spelled.{by_node};

use mtn_base::NoMemory;
use mtn_records::{NumberedEntry, RecordError};
use std::alloc::Global;
use std::cmp::Ordering;

/// References to entries, in their order.
fn refs_of<'a>(
    alloc: Global,
    entries: &'a [NumberedEntry],
) -> Result<Vec<&'a NumberedEntry>, NoMemory>
    ensures { IfOk result (λ v. map (λ b. b.now) v.items ≡ entries.now) }
{
    let mut refs = Vec::with_capacity(alloc, entries.len())?;
    for entry in entries {
        refs.push(entry)?;
    }
    Ok(refs)
}

fn compare(first: &&NumberedEntry, second: &&NumberedEntry) -> Ordering
    ensures { result ≡ name_cmp first.now.now.node second.now.now.node }
{
    first.node.compare(&second.node)
}

fn is_below(first: &&NumberedEntry, second: &&NumberedEntry) -> bool
    ensures { result ≡ is_lt (name_cmp first.now.now.node second.now.now.node) }
{
    compare(first, second).is_lt()
}

/// The entries by ascending nodes; Bad where two are of one.
pub fn sorted_of<'a>(
    alloc: Global,
    entries: &'a [NumberedEntry],
) -> Result<Vec<&'a NumberedEntry>, RecordError>
    ensures ok { IfOk result (λ v. map (λ b. b.now) v.items ≡ by_node entries.now) }
    ensures apart { OnOk result (IsDistinct (λ (e : NumberedEntry) (f : NumberedEntry). same_name e.node f.node) entries.now) }
    ensures bad { IsErrOf result RecordError.Bad → IsDistinct (λ (e : NumberedEntry) (f : NumberedEntry). same_name e.node f.node) entries.now → ⊥ }
{
    let mut sorted = refs_of(alloc, entries)?;
    sorted.sort_by(compare)?;
    if !sorted.is_sorted_by(is_below) {
        return Err(RecordError::Bad);
    }
    Ok(sorted)
}
