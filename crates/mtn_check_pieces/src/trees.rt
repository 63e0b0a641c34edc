// The tree that a text's edges make of the parents' ones.
ghost use Rattle.std.specs.Prelude.{IfOk};
ghost use Rattle.mtn_apply.specs.Old.{tree_in};
ghost use Rattle.mtn_changeset_laws.specs.Laws.{RenamesDiffer};
ghost use Rattle.mtn_check_pieces.specs.Verdict.{IsOneOf, IsEdgeTree, IsJoining, IsMergedTree};

use crate::CheckJob;
use mtn_apply::{ApplyError, apply, none_is_born};
use mtn_base::{Id, NoMemory};
use mtn_changes::Edge;
use mtn_join::{JoinError, common_are_known, join};
use mtn_roster::Roster;
use std::alloc::Global;

/// The tree of an edge, if it makes one.
pub fn edge_tree(
    alloc: Global,
    new: Id,
    old: Option<&Roster>,
    edge: &Edge,
) -> Result<Option<Roster>, NoMemory>
    requires { RenamesDiffer edge.now.changes }
    ensures { IfOk result (IsOneOf (IsEdgeTree new (tree_in old.entry) edge.now)) }
{
    if !none_is_born(old, new) {
        return Ok(None);
    }
    match apply(alloc, old, &edge.changes, new) {
        Ok(roster) => Ok(Some(roster)),
        Err(ApplyError::BadChange { .. }) => Ok(None),
        Err(ApplyError::NoMemory) => Err(NoMemory),
    }
}

// The joining of the trees of both edges, if they can be joined.
fn joining(
    alloc: Global,
    job: &CheckJob,
    left: Roster,
    right: Roster,
) -> Result<Option<Roster>, NoMemory>
    ensures { IfOk result (IsOneOf (IsJoining job.now left right)) }
{
    let only_left = &job.only_left.ids;
    let only_right = &job.only_right.ids;
    if !common_are_known(&left, &right, job.id, only_left, only_right) {
        return Ok(None);
    }
    match join(alloc, left, right, job.id, only_left, only_right) {
        Ok(roster) => Ok(Some(roster)),
        Err(JoinError::NoMemory) => Err(NoMemory),
        Err(_) => Ok(None),
    }
}

/// The tree of two edges, if they make one.
pub fn merged_tree(
    alloc: Global,
    job: &CheckJob,
    left: &Roster,
    right: &Roster,
    first: &Edge,
    second: &Edge,
) -> Result<Option<Roster>, NoMemory>
    requires first { RenamesDiffer first.now.changes }
    requires second { RenamesDiffer second.now.changes }
    ensures { IfOk result (IsOneOf (IsMergedTree job.now left.now right.now first.now second.now)) }
{
    let Some(ours) = edge_tree(alloc, job.id, Some(left), first)? else {
        return Ok(None);
    };
    let Some(theirs) = edge_tree(alloc, job.id, Some(right), second)? else {
        return Ok(None);
    };
    joining(alloc, job, ours, theirs)
}
