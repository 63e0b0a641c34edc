// Sets of marks.
ghost use Rattle.std.specs.Prelude.{◌≡◌, ◌↔◌, ◌⊎◌, ℕ, [], ◌∷◌, IsTrue, IfOk, Contains};
ghost use Rattle.std.specs.List.Sorted.{IsStrictlyIncreasing};
ghost use Rattle.mtn_mark_laws.specs.Rule.{AllKnown};

use mtn_ancestry::{Pos, PosSet};
use mtn_base::NoMemory;
use std::alloc::Global;

/// The set of no position.
pub fn no_marks(alloc: Global) -> Result<PosSet, NoMemory>
    ensures { IfOk result (λ s. s ≡ []) }
{
    PosSet::new(alloc, Vec::new(alloc))
}

/// The set of one position.
pub fn one_mark(alloc: Global, at: Pos) -> Result<PosSet, NoMemory>
    ensures { IfOk result (λ s. s ≡ at ∷ []) }
{
    let mut items = Vec::new(alloc);
    items.push(at)?;
    PosSet::new(alloc, items)
}

/// Whether no mark is among those that the other side lacks.
pub fn all_known(marks: &PosSet, lacked: &PosSet) -> bool
    ensures { IsTrue result ↔ AllKnown marks.now lacked.now }
{
    let items = marks.as_slice();
    for mark in items {
        if lacked.has(*mark) {
            return false;
        }
    }
    true
}

/// The marks of both; two equal sets are shared.
pub fn united(alloc: Global, left: &PosSet, right: &PosSet) -> Result<PosSet, NoMemory>
    ensures { IfOk result (λ s. (x : ℕ) → Contains s x ↔ (Contains left.now x ⊎ Contains right.now x)) }
{
    if left.as_slice() == right.as_slice() {
        return left.copy();
    }
    let mut items = Vec::new(alloc);
    items.extend_from_slice(left.as_slice())?;
    items.extend_from_slice(right.as_slice())?;
    items.sort_unstable();
    items.dedup();
    PosSet::new(alloc, items)
}
