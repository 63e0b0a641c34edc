// The marks of a new revision's tree.
ghost use Rattle.std.specs.Prelude.{ℕ, List, [], ◌∷◌, ◌++◌, IfOk};
ghost use Rattle.std.specs.List.{AllZip};
ghost use Rattle.mtn_history_laws.specs.History.{Revision, parents_at};
ghost use Rattle.mtn_mark_laws.specs.Rule.{AreUncommon};
ghost use Rattle.mtn_marking.specs.Marking.{AreFor, AreAllByRule, HaveBirths, on_none, on_one, on_two};
ghost use Rattle.mtn_marking.specs.Graph.{Extends, IsMarkedAt};
ghost use Rattle.mtn_marking.specs.Parts.{HasHere, IsMarkedNode, basis_of};

use crate::against::{Against, Guesses, marked_on};
use crate::entry::mark_entry;
use crate::sets::{no_marks, one_mark};
use crate::{MarkMap, MarkedRoster};
use mtn_ancestry::{Pos, PosSet};
use mtn_base::NoMemory;
use mtn_roster::Roster;
use std::alloc::Global;

/// The markings of all nodes of a roster, by ascending names.
fn mark_all(alloc: Global, against: &Against, new: &Roster) -> Result<MarkMap, NoMemory>
    requires here { HasHere against.now }
    ensures { IfOk result (AllZip (IsMarkedNode (basis_of against.now)) new.now) }
{
    let count = new.len() as usize;
    let mut items = Vec::with_capacity(alloc, count)?;
    let mut guesses = Guesses { left: 0, right: 0 };
    for place in 0..count {
        let entry = new.at_place(place).unwrap();
        items.push(mark_entry(alloc, against, entry, &mut guesses)?)?;
    }
    Ok(MarkMap::from_rising(items))
}

/// The marks of a revision without parents.
pub fn mark_root(alloc: Global, new: &Roster, at: Pos) -> Result<MarkMap, NoMemory>
    ensures rule { IfOk result (AreAllByRule (on_none at) new.now) }
    ensures births { IfOk result (HaveBirths (on_none at) new.now) }
    ensures fits { IfOk result (AreFor new.now) }
    ensures graph { IfOk result (λ marks. (log : List Revision) (next : Revision) → Extends log next at [] new.now →
        IsMarkedAt (log ++ next ∷ []) at (record { tree = new.now; marks = marks })) }
{
    let none = no_marks(alloc)?;
    let here = one_mark(alloc, at)?;
    let against = marked_on(at, &here, None, None, &none, &none);
    mark_all(alloc, &against, new)
}

/// The marks of a revision with one parent.
pub fn mark_one(
    alloc: Global,
    parent: &MarkedRoster,
    new: &Roster,
    at: Pos,
) -> Result<MarkMap, NoMemory>
    ensures rule { IfOk result (AreAllByRule (on_one at parent.now) new.now) }
    ensures births { IfOk result (HaveBirths (on_one at parent.now) new.now) }
    ensures fits { IfOk result (AreFor new.now) }
    ensures graph { IfOk result (λ marks. (log : List Revision) (next : Revision) (p : ℕ) → Extends log next at (p ∷ []) new.now → IsMarkedAt log p parent.now →
        IsMarkedAt (log ++ next ∷ []) at (record { tree = new.now; marks = marks })) }
{
    let none = no_marks(alloc)?;
    let here = one_mark(alloc, at)?;
    let against = marked_on(at, &here, Some(parent), None, &none, &none);
    mark_all(alloc, &against, new)
}

/// The marks of a revision with two parents. The sets are the ancestors of each that the other lacks.
pub fn mark_two(
    alloc: Global,
    left: &MarkedRoster,
    right: &MarkedRoster,
    new: &Roster,
    at: Pos,
    only_left: &PosSet,
    only_right: &PosSet,
) -> Result<MarkMap, NoMemory>
    ensures rule { IfOk result (AreAllByRule (on_two at left.now right.now only_left.now only_right.now) new.now) }
    ensures births { IfOk result (HaveBirths (on_two at left.now right.now only_left.now only_right.now) new.now) }
    ensures fits { IfOk result (AreFor new.now) }
    ensures graph { IfOk result (λ marks. (log : List Revision) (next : Revision) (p q : ℕ) → Extends log next at (p ∷ q ∷ []) new.now →
        IsMarkedAt log p left.now → IsMarkedAt log q right.now →
        AreUncommon (parents_at log) p q only_left.now → AreUncommon (parents_at log) q p only_right.now →
        IsMarkedAt (log ++ next ∷ []) at (record { tree = new.now; marks = marks })) }
{
    let here = one_mark(alloc, at)?;
    let against = marked_on(at, &here, Some(left), Some(right), only_left, only_right);
    mark_all(alloc, &against, new)
}
