//! Marks, and trees with them.
ghost use Rattle.std.specs.Prelude.{[], ◌≡◌, IfOk, IsTrue, length, map, option_copied, slice_get};
ghost use Rattle.mtn_base.specs.Lists.{rises};
ghost use Rattle.mtn_base.specs.Names.{name_cmp};
ghost use Rattle.mtn_marking.specs.Marking.{AreFor};
ghost use Rattle.mtn_marking.specs.declared.node.NodeMarks.{NodeMarks};

use mtn_base::NoMemory;
use mtn_marking::{AttrMarks, MarkMap, MarkedRoster, Marking, NodeMarks};
use mtn_roster::Roster;
use std::alloc::Global;

/// As `MarkMap::new`.
pub fn new_mark_map(alloc: Global) -> MarkMap
    ensures { result ≡ [] }
{
    MarkMap::new(alloc)
}

/// As `MarkMap::len`.
pub fn mark_map_len(marks: &MarkMap) -> u64
    ensures count { result ≡ length marks.now }
    ensures rising { IsTrue (rises name_cmp (map (λ (n : NodeMarks). n.name) marks.now)) }
{
    marks.len()
}

/// As `MarkMap::at_place`.
pub fn at_place(marks: &MarkMap, place: usize) -> Option<&NodeMarks>
    ensures { option_copied result ≡ slice_get marks.now place }
{
    marks.at_place(place)
}

/// As `MarkedRoster::roster`.
pub fn roster(marked: &MarkedRoster) -> &Roster
    ensures tree { result.now ≡ marked.now.tree }
    ensures fits { AreFor marked.now.tree marked.now.marks }
{
    marked.roster()
}

/// As `MarkedRoster::marks`.
pub fn marks(marked: &MarkedRoster) -> &MarkMap
    ensures { result.now ≡ marked.now.marks }
{
    marked.marks()
}

/// As `AttrMarks::copy`.
pub fn copy_attr_marks(of_key: &AttrMarks, alloc: Global) -> Result<AttrMarks, NoMemory>
    ensures { IfOk result (λ marks. marks ≡ of_key.now) }
{
    of_key.copy(alloc)
}

/// As `Marking::copy`.
pub fn copy_marking(one: &Marking, alloc: Global) -> Result<Marking, NoMemory>
    ensures { IfOk result (λ marking. marking ≡ one.now) }
{
    one.copy(alloc)
}

/// As `NodeMarks::copy`.
pub fn copy_node_marks(marks: &NodeMarks, alloc: Global) -> Result<NodeMarks, NoMemory>
    ensures { IfOk result (λ node. node ≡ marks.now) }
{
    marks.copy(alloc)
}
