// Whether changes change different things: sorted by what they change, each is below the next.
ghost use Rattle.std.specs.Prelude.{◌≡◌, IfOk, IsTrue};
ghost use Rattle.std.specs.Ordering.{is_lt};
ghost use Rattle.mtn_changes.specs.Targets.{AreApart, target_cmp, target_of as target_for};

use crate::change::Change;
use crate::sorting::{compare_targets, refs_of};
use mtn_base::NoMemory;
use std::alloc::Global;
use std::cmp::Ordering;

fn compare(a: &&Change, b: &&Change) -> Ordering
    ensures { result ≡ target_cmp (target_for a.now.now) (target_for b.now.now) }
{
    compare_targets(a, b)
}

fn is_below(a: &&Change, b: &&Change) -> bool
    ensures { result ≡ is_lt (target_cmp (target_for a.now.now) (target_for b.now.now)) }
{
    compare_targets(a, b).is_lt()
}

/// True only where no two change the same thing. It copies no change.
pub fn are_apart(alloc: Global, changes: &[Change]) -> Result<bool, NoMemory>
    ensures { IfOk result (λ b. IsTrue b → AreApart changes.now) }
{
    let mut refs = refs_of(alloc, changes)?;
    refs.sort_by(compare)?;
    Ok(refs.is_sorted_by(is_below))
}
