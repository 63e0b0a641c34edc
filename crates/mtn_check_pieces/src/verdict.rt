// The verdict on one job.
ghost use Rattle.std.specs.Prelude.{◌≡◌, ◌∷◌, [], IfOk};
ghost use Rattle.mtn_changes.specs.RevisionText.{AreEdges};
ghost use Rattle.mtn_changeset_laws.specs.Laws.{RenamesDiffer};
ghost use Rattle.mtn_marking.specs.Marking.{Basis, AreFor, AreAllByRule, HaveBirths};
ghost use Rattle.mtn_check_pieces.specs.Verdict.{IsMarkedOn, IsOneOf, IsStoredOf, IsStoredOn, IsStoredWith, IsTaken, IsVerdict};

use crate::reading::{revision_of, roster_of, stored_on};
use crate::same_marks::are_same_marks;
use crate::trees::{edge_tree, merged_tree};
use crate::{CheckJob, SharedRecord, Verdict};
use mtn_base::NoMemory;
use mtn_changes::Edge;
use mtn_marking::{MarkMap, MarkedRoster, mark_one, mark_root, mark_two};
use std::alloc::Global;

// The stored roster, if its marks and births are those that marking gives.
fn if_marked(marks: &MarkMap, stored: MarkedRoster) -> Option<MarkedRoster>
    requires fits { AreFor stored.tree marks.now }
    ensures { (b : Basis) → AreAllByRule b stored.tree marks.now → HaveBirths b stored.tree marks.now → IsTaken (IsMarkedOn b stored) stored result }
{
    let _nodes = stored.roster().len();
    if are_same_marks(marks, stored.marks()) {
        Some(stored)
    } else {
        None
    }
}

// The stored roster, if it is that of a revision without parents.
fn on_root(alloc: Global, job: &CheckJob, edge: &Edge) -> Result<Option<MarkedRoster>, NoMemory>
    requires { RenamesDiffer edge.now.changes }
    ensures { IfOk result (IsOneOf (IsStoredOf job.now (edge.now ∷ []) [])) }
{
    if edge.parent.is_some() {
        return Ok(None);
    }
    let Some(tree) = edge_tree(alloc, job.id, None, edge)? else {
        return Ok(None);
    };
    let Some(stored) = stored_on(alloc, &job.stored, tree)? else {
        return Ok(None);
    };
    let marks = mark_root(alloc, stored.roster(), job.at)?;
    Ok(if_marked(&marks, stored))
}

// The same with one parent.
fn on_child(
    alloc: Global,
    job: &CheckJob,
    parent: &MarkedRoster,
    edge: &Edge,
) -> Result<Option<MarkedRoster>, NoMemory>
    requires { RenamesDiffer edge.now.changes }
    ensures { IfOk result (IsOneOf (IsStoredOf job.now (edge.now ∷ []) (parent.now ∷ []))) }
{
    if edge.parent.is_none() {
        return Ok(None);
    }
    let Some(tree) = edge_tree(alloc, job.id, Some(parent.roster()), edge)? else {
        return Ok(None);
    };
    let Some(stored) = stored_on(alloc, &job.stored, tree)? else {
        return Ok(None);
    };
    let marks = mark_one(alloc, parent, stored.roster(), job.at)?;
    Ok(if_marked(&marks, stored))
}

// The same with two.
fn on_merge(
    alloc: Global,
    job: &CheckJob,
    left: &MarkedRoster,
    right: &MarkedRoster,
    first: &Edge,
    second: &Edge,
) -> Result<Option<MarkedRoster>, NoMemory>
    requires first { RenamesDiffer first.now.changes }
    requires second { RenamesDiffer second.now.changes }
    ensures { IfOk result (IsOneOf (IsStoredOf job.now (first.now ∷ second.now ∷ []) (left.now ∷ right.now ∷ []))) }
{
    let merged = merged_tree(alloc, job, left.roster(), right.roster(), first, second)?;
    let Some(tree) = merged else {
        return Ok(None);
    };
    let Some(stored) = stored_on(alloc, &job.stored, tree)? else {
        return Ok(None);
    };
    let marks = mark_two(
        alloc,
        left,
        right,
        stored.roster(),
        job.at,
        &job.only_left.positions,
        &job.only_right.positions,
    )?;
    Ok(if_marked(&marks, stored))
}

// The same over the record of one parent.
fn over_one(
    alloc: Global,
    job: &CheckJob,
    parent: &SharedRecord,
    edges: &[Edge],
) -> Result<Option<MarkedRoster>, NoMemory>
    requires { AreEdges edges.now }
    ensures { IfOk result (IsOneOf (IsStoredWith job.now edges.now (parent.now ∷ []))) }
{
    let [edge] = edges else {
        return Ok(None);
    };
    let Some(roster) = roster_of(alloc, parent)? else {
        return Ok(None);
    };
    on_child(alloc, job, &roster, edge)
}

// The same over the records of two.
fn over_two(
    alloc: Global,
    job: &CheckJob,
    left: &SharedRecord,
    right: &SharedRecord,
    edges: &[Edge],
) -> Result<Option<MarkedRoster>, NoMemory>
    requires { AreEdges edges.now }
    ensures { IfOk result (IsOneOf (IsStoredWith job.now edges.now (left.now ∷ right.now ∷ []))) }
{
    let [first, second] = edges else {
        return Ok(None);
    };
    let Some(ours) = roster_of(alloc, left)? else {
        return Ok(None);
    };
    let Some(theirs) = roster_of(alloc, right)? else {
        return Ok(None);
    };
    on_merge(alloc, job, &ours, &theirs, first, second)
}

// The same without a parent.
fn over_none(
    alloc: Global,
    job: &CheckJob,
    edges: &[Edge],
) -> Result<Option<MarkedRoster>, NoMemory>
    requires { AreEdges edges.now }
    ensures { IfOk result (IsOneOf (IsStoredWith job.now edges.now [])) }
{
    let [edge] = edges else {
        return Ok(None);
    };
    on_root(alloc, job, edge)
}

// The same over the job's records.
fn over_parents(
    alloc: Global,
    job: &CheckJob,
    edges: &[Edge],
) -> Result<Option<MarkedRoster>, NoMemory>
    requires { AreEdges edges.now }
    ensures { IfOk result (IsOneOf (IsStoredWith job.now edges.now job.now.parents)) }
{
    match job.parents.as_slice() {
        [] => over_none(alloc, job, edges),
        [parent] => over_one(alloc, job, parent, edges),
        [left, right] => over_two(alloc, job, left, right, edges),
        _ => Ok(None),
    }
}

/// Whether the stored roster, its marks and its births are those that the job's text makes of its parents' rosters. It costs what
/// reading the text, rebuilding the parents' rosters, applying and joining, marking, and one look at each entry of the stored record
/// cost.
pub fn check_one(alloc: Global, job: &CheckJob) -> Result<Verdict, NoMemory>
    ensures { IfOk result (IsVerdict job.now) }
{
    let Some(revision) = revision_of(alloc, job.text.as_slice())? else {
        return Ok(Verdict::Differs);
    };
    if over_parents(alloc, job, revision.edges.as_slice())?.is_some() {
        Ok(Verdict::Agrees)
    } else {
        Ok(Verdict::Differs)
    }
}
