// What a merge takes of one scalar, and whether a node lives.
ghost use Rattle.std.specs.Prelude.{◌↔◌, IsTrue};
ghost use Rattle.mtn_mark_laws.specs.Rule.{AllKnown};
ghost use Rattle.mtn_decide.specs.Sets.{IsChoice, Lives};

use mtn_ancestry::{Pos, PosSet};

/// Which side's value a merge takes of a scalar that both sides have.
#[derive(Clone, Copy)]
pub enum Choice {
    /// The values are equal.
    Both,
    Left,
    Right,
    Clash,
}

/// Whether no mark is among the ancestors that the other side lacks. It takes no memory.
pub fn all_known(marks: &PosSet, lacked: &PosSet) -> bool
    ensures { IsTrue result ↔ AllKnown marks.now lacked.now }
{
    let items = marks.as_slice();
    for mark in items {
        if lacked.has(*mark) {
            return false;
        }
    }
    true
}

/// Which side's value a merge takes of a scalar, by the marks of both sides and the ancestors that each has
/// alone. Where the sets let both sides win, it is left's. It takes no memory.
pub fn merge_scalar(
    equal: bool,
    left: &PosSet,
    right: &PosSet,
    only_left: &PosSet,
    only_right: &PosSet,
) -> Choice
    ensures { IsChoice equal left.now right.now only_left.now only_right.now result }
{
    if equal {
        Choice::Both
    } else if all_known(right, only_right) {
        Choice::Left
    } else if all_known(left, only_left) {
        Choice::Right
    } else {
        Choice::Clash
    }
}

/// Whether a node lives in a merge, by the position of its birth and which sides have it. It takes no memory.
pub fn lives(
    birth: Pos,
    in_left: bool,
    in_right: bool,
    only_left: &PosSet,
    only_right: &PosSet,
) -> bool
    ensures { IsTrue result ↔ Lives birth in_left in_right only_left.now only_right.now }
{
    if in_left {
        in_right || only_left.has(birth)
    } else {
        in_right && only_right.has(birth)
    }
}
