// The positions that marks name.
ghost use Rattle.std.specs.Prelude.{◌≡◌, ◌↔◌, ◌++◌, ℕ, Contains, IfOk, OnOk};
ghost use Rattle.std.specs.List.{flat_map};
ghost use Rattle.std.specs.List.Sorted.{IsStrictlyIncreasing};
ghost use Rattle.mtn_marking.specs.declared.node.AttrMarks.{AttrMarks};
ghost use Rattle.mtn_roster_text.specs.Positions.{IsMarkIn, all_positions, positions_of};

use mtn_ancestry::Pos;
use mtn_base::NoMemory;
use mtn_marking::{AttrMarks, MarkMap, MarkedRoster, Marking};
use std::alloc::Global;

fn put_attrs(attrs: &[AttrMarks], found: &mut Vec<Pos>) -> Result<(), NoMemory>
    ensures { OnOk result (found.new.items ≡ found.old.items ++ flat_map (λ (a : AttrMarks). a.marks) attrs.now) }
{
    for attr in attrs {
        found.extend_from_slice(attr.marks.as_slice())?;
    }
    Ok(())
}

// Appends the positions of the marks of a node.
fn put_node(marking: &Marking, found: &mut Vec<Pos>) -> Result<(), NoMemory>
    ensures { OnOk result (found.new.items ≡ found.old.items ++ positions_of marking.now) }
{
    found.extend_from_slice(marking.slot.as_slice())?;
    if let Some(content) = &marking.content {
        found.extend_from_slice(content.as_slice())?;
    }
    put_attrs(marking.attrs.as_slice(), found)
}

// The positions of the marks of all nodes, node by node.
fn positions(alloc: Global, marks: &MarkMap) -> Result<Vec<Pos>, NoMemory>
    ensures { IfOk result (λ found. found.items ≡ all_positions marks.now) }
{
    let mut found = Vec::new(alloc);
    let count = marks.len();
    for place in 0..count as usize {
        let node = marks.at_place(place).unwrap();
        put_node(&node.marking, &mut found)?;
    }
    Ok(found)
}

/// The positions that the marks of a roster name, ascending, each once.
pub fn marked_positions(alloc: Global, roster: &MarkedRoster) -> Result<Vec<Pos>, NoMemory>
    ensures ascending { IfOk result (λ found. IsStrictlyIncreasing found.items) }
    ensures exact { IfOk result (λ found. (x : ℕ) → Contains found.items x ↔ IsMarkIn roster.now.marks x) }
{
    let _nodes = roster.roster().len();
    let _marked = roster.marks().len();
    let mut found = positions(alloc, roster.marks())?;
    found.sort_unstable();
    found.dedup();
    Ok(found)
}
