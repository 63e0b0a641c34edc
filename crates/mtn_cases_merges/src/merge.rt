// Merges of two revisions of a case.
use mtn_ancestry::{Pos, PosSet};
use mtn_base::Id;
use mtn_case_trees::{History, both_alone};
use mtn_decide::{Decisions, decide};
use std::alloc::Global;

fn decided_by(
    alloc: Global,
    history: &History,
    left: Pos,
    right: Pos,
    sets: &(PosSet, PosSet),
) -> Option<Decisions> {
    let one = history.trees.get(left.0 as usize)?;
    let other = history.trees.get(right.0 as usize)?;
    decide(alloc, one, other, &sets.0, &sets.1).ok()
}

/// What a merge of two revisions decides.
pub fn decided(alloc: Global, history: &mut History, left: Id, right: Id) -> Option<Decisions> {
    let left = history.graph.find(left)?;
    let right = history.graph.find(right)?;
    let sets = both_alone(alloc, &mut history.graph, left, right)?;
    decided_by(alloc, history, left, right, &sets)
}
