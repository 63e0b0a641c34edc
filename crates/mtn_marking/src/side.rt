// The marks of one scalar.
ghost use Rattle.std.specs.Prelude.{◌≡◌, ◌⊎◌, ℕ, ◌↔◌, IfOk, Contains, if◌then◌else◌};
ghost use Rattle.mtn_mark_laws.specs.Rule.{AllKnown, IsMarkByTests};
ghost use Rattle.mtn_marking.specs.Parts.{AreMarksBy, HasHere};

use crate::against::Against;
use crate::sets::{all_known, united};
use mtn_ancestry::PosSet;
use mtn_base::NoMemory;
use std::alloc::Global;

/// What a parent has of a scalar: whether its value is the new one, and its marks.
#[derive(Clone, Copy)]
pub struct Have<'a> {
    pub equal: bool,
    pub marks: &'a PosSet,
}

/// The marks of a scalar that one parent has.
fn mark_by_one(here: &PosSet, have: Have) -> Result<PosSet, NoMemory>
    ensures { IfOk result (λ marks. marks ≡ (if have.entry.equal then have.entry.marks.now else here.now)) }
{
    if have.equal {
        have.marks.copy()
    } else {
        here.copy()
    }
}

/// The marks of a scalar whose value one side keeps against the other's: those of the side that keeps it,
/// where it knows all of the other's.
fn mark_kept(
    here: &PosSet,
    kept: &PosSet,
    other: &PosSet,
    lacked: &PosSet,
) -> Result<PosSet, NoMemory>
    ensures { IfOk result (λ marks. (AllKnown other.now lacked.now × (marks ≡ kept.now)) ⊎ ((¬ AllKnown other.now lacked.now) × (marks ≡ here.now))) }
{
    if all_known(other, lacked) {
        kept.copy()
    } else {
        here.copy()
    }
}

/// The marks of a scalar that both parents have.
fn mark_by_two(
    alloc: Global,
    against: &Against,
    left: Have,
    right: Have,
) -> Result<PosSet, NoMemory>
    requires here { HasHere against.now }
    ensures { IfOk result (λ marks. (x : ℕ) → Contains marks x ↔
        IsMarkByTests against.now.at left.entry.equal right.entry.equal left.entry.marks.now right.entry.marks.now against.now.only_left.now against.now.only_right.now x) }
{
    if left.equal {
        if right.equal {
            united(alloc, left.marks, right.marks)
        } else {
            mark_kept(against.here, left.marks, right.marks, against.only_right)
        }
    } else if right.equal {
        mark_kept(against.here, right.marks, left.marks, against.only_left)
    } else {
        against.here.copy()
    }
}

/// The marks of a scalar, by what each parent has of it.
pub fn mark_side(
    alloc: Global,
    against: &Against,
    left: Option<Have>,
    right: Option<Have>,
) -> Result<PosSet, NoMemory>
    requires here { HasHere against.now }
    ensures { IfOk result (AreMarksBy against.now.at against.now.only_left.now against.now.only_right.now left.entry right.entry) }
{
    match left {
        None => match right {
            None => against.here.copy(),
            Some(r) => mark_by_one(against.here, r),
        },
        Some(l) => match right {
            None => mark_by_one(against.here, l),
            Some(r) => mark_by_two(alloc, against, l, r),
        },
    }
}
