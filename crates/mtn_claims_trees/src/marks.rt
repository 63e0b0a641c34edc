//! The marks of `mtn_marking`.
ghost use Rattle.std.specs.Prelude.{◌≡◌, ◌≢◌, ◌↔◌, ◌<◌, ℕ, List, Some, [], ◌∷◌, ◌++◌, find, length, map, option_and_then, option_copied, slice_get, IsTrue, IfOk, IfSome, OnErr, OnOk};
ghost use Rattle.mtn_base.specs.Lists.{rises};
ghost use Rattle.mtn_base.specs.Names.{name_cmp, same_name};
ghost use Rattle.mtn_base.specs.declared.name.NodeName.{NodeName};
ghost use Rattle.mtn_history_laws.specs.History.{Revision, parents_at};
ghost use Rattle.mtn_mark_laws.specs.Rule.{AreUncommon};
ghost use Rattle.mtn_marking.specs.Graph.{Extends, IsMarkedAt};
ghost use Rattle.mtn_marking.specs.Marking.{AreFor, AreAllByRule, HaveBirths, marking_of, on_none, on_one, on_two};
ghost use Rattle.mtn_marking.specs.declared.node.NodeMarks.{NodeMarks};

use mtn_ancestry::{Pos, PosSet};
use mtn_base::{NoMemory, NodeName};
use mtn_marking::{MarkMap, MarkedRoster, Marking, NodeMarks, mark_one, mark_root, mark_two};
use mtn_roster::Roster;
use std::alloc::Global;

/// `mark_root`.
pub fn root(alloc: Global, new: &Roster, at: Pos) -> Result<MarkMap, NoMemory>
    ensures rule { IfOk result (AreAllByRule (on_none at) new.now) }
    ensures births { IfOk result (HaveBirths (on_none at) new.now) }
    ensures fits { IfOk result (AreFor new.now) }
    ensures graph { IfOk result (λ marks. (log : List Revision) (next : Revision) → Extends log next at [] new.now →
        IsMarkedAt (log ++ next ∷ []) at (record { tree = new.now; marks = marks })) }
{
    mark_root(alloc, new, at)
}

/// `mark_one`.
pub fn one(alloc: Global, parent: &MarkedRoster, new: &Roster, at: Pos) -> Result<MarkMap, NoMemory>
    ensures rule { IfOk result (AreAllByRule (on_one at parent.now) new.now) }
    ensures births { IfOk result (HaveBirths (on_one at parent.now) new.now) }
    ensures fits { IfOk result (AreFor new.now) }
    ensures graph { IfOk result (λ marks. (log : List Revision) (next : Revision) (p : ℕ) → Extends log next at (p ∷ []) new.now → IsMarkedAt log p parent.now →
        IsMarkedAt (log ++ next ∷ []) at (record { tree = new.now; marks = marks })) }
{
    mark_one(alloc, parent, new, at)
}

/// `mark_two`.
pub fn two(
    alloc: Global,
    left: &MarkedRoster,
    right: &MarkedRoster,
    new: &Roster,
    at: Pos,
    only_left: &PosSet,
    only_right: &PosSet,
) -> Result<MarkMap, NoMemory>
    ensures rule { IfOk result (AreAllByRule (on_two at left.now right.now only_left.now only_right.now) new.now) }
    ensures births { IfOk result (HaveBirths (on_two at left.now right.now only_left.now only_right.now) new.now) }
    ensures fits { IfOk result (AreFor new.now) }
    ensures graph { IfOk result (λ marks. (log : List Revision) (next : Revision) (p q : ℕ) → Extends log next at (p ∷ q ∷ []) new.now →
        IsMarkedAt log p left.now → IsMarkedAt log q right.now →
        AreUncommon (parents_at log) p q only_left.now → AreUncommon (parents_at log) q p only_right.now →
        IsMarkedAt (log ++ next ∷ []) at (record { tree = new.now; marks = marks })) }
{
    mark_two(alloc, left, right, new, at, only_left, only_right)
}

/// `MarkMap::from_rising`.
pub fn from_rising(items: Vec<NodeMarks>) -> MarkMap
    requires { IsTrue (rises name_cmp (map (λ (n : NodeMarks). n.name) items.items)) }
    ensures { result ≡ items.items }
{
    MarkMap::from_rising(items)
}

/// `MarkMap::put`.
pub fn put(marks: &mut MarkMap, name: NodeName, marking: Marking) -> Result<(), NoMemory>
    ensures here { OnOk result (marking_of marks.new name ≡ Some marking) }
    ensures others { OnOk result ((n : NodeName) → n ≢ name → marking_of marks.new n ≡ marking_of marks.old n) }
    ensures refused { OnErr result (marks.new ≡ marks.old) }
{
    marks.put(name, marking)
}

/// `MarkMap::get`.
pub fn get<'a>(marks: &'a MarkMap, name: &NodeName) -> Option<&'a Marking>
    ensures { option_copied result ≡ marking_of marks.now name.now }
{
    marks.get(name)
}

/// `MarkMap::place`.
pub fn place(marks: &MarkMap, name: &NodeName) -> Option<usize>
    ensures within { IfSome result (λ place. place < length marks.now) }
    ensures node { option_and_then (slice_get marks.now) result ≡ find (λ (m : NodeMarks). same_name m.name name.now) marks.now }
{
    marks.place(name)
}

/// `MarkMap::place_near`.
pub fn place_near(marks: &MarkMap, guess: usize, name: &NodeName) -> Option<usize>
    ensures within { IfSome result (λ place. place < length marks.now) }
    ensures node { option_and_then (slice_get marks.now) result ≡ find (λ (m : NodeMarks). same_name m.name name.now) marks.now }
{
    marks.place_near(guess, name)
}

/// `MarkMap::copy`.
pub fn copy_marks(marks: &MarkMap, alloc: Global) -> Result<MarkMap, NoMemory>
    ensures { IfOk result (λ copy. copy ≡ marks.now) }
{
    marks.copy(alloc)
}

/// `MarkedRoster::fits`.
pub fn fits(roster: &Roster, marks: &MarkMap) -> bool
    ensures { IsTrue result ↔ AreFor roster.now marks.now }
{
    MarkedRoster::fits(roster, marks)
}

/// `MarkedRoster::new`.
pub fn marked(roster: Roster, marks: MarkMap) -> MarkedRoster
    requires { AreFor roster marks }
    ensures { result ≡ record { tree = roster; marks = marks } }
{
    MarkedRoster::new(roster, marks)
}

/// `MarkedRoster::copy`.
pub fn copy_marked(marked: &MarkedRoster, alloc: Global) -> Result<MarkedRoster, NoMemory>
    ensures { IfOk result (λ copy. copy ≡ marked.now) }
{
    marked.copy(alloc)
}
