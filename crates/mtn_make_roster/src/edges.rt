// One edge over its parent's tree, and the trees of two edges.
ghost use Rattle.std.specs.Prelude.{◌≡◌, None, IfOk, IfErr, OnOk};
ghost use Rattle.mtn_apply.specs.Old.{tree_in};
ghost use Rattle.mtn_changeset_laws.specs.Changes.{first_fault, tree_after};
ghost use Rattle.mtn_changeset_laws.specs.Joining.{join_fault, joined};
ghost use Rattle.mtn_changeset_laws.specs.Laws.{RenamesDiffer};
ghost use Rattle.mtn_join.specs.Join.{is_outside};
ghost use Rattle.mtn_make_roster.specs.Steps.{IsEdgeError, IsJoinError};

use crate::{MakeError, Uncommon};
use mtn_apply::{ApplyError, apply, none_is_born};
use mtn_base::{Cause, Id};
use mtn_changes::Edge;
use mtn_join::{JoinError, common_are_known, join};
use mtn_roster::Roster;
use std::alloc::Global;

/// The tree of the edge of a number, from 1 up.
pub fn edge_tree(
    alloc: Global,
    number: u64,
    old: Option<&Roster>,
    edge: &Edge,
    new: Id,
) -> Result<Roster, MakeError>
    requires { RenamesDiffer edge.now.changes }
    ensures ok { IfOk result (λ roster. roster ≡ tree_after (tree_in old.entry) edge.now.changes new) }
    ensures fine { OnOk result (first_fault (tree_in old.entry) edge.now.changes ≡ None) }
    ensures err { IfErr result (IsEdgeError number (tree_in old.entry) edge.now.changes new) }
{
    if !none_is_born(old, new) {
        return Err(MakeError::Damaged);
    }
    match apply(alloc, old, &edge.changes, new) {
        Ok(roster) => Ok(roster),
        Err(
            ApplyError::BadChange {
                number: change,
                why,
            },
        ) => Err(MakeError::Refused(Cause::BadChange {
            edge: number,
            number: change,
            why,
        })),
        Err(ApplyError::NoMemory) => Err(MakeError::NoMemory),
    }
}

/// The joining of the trees of both edges, which it takes.
pub fn joined_tree(
    alloc: Global,
    left: Roster,
    right: Roster,
    new: Id,
    only_left: &Uncommon,
    only_right: &Uncommon,
) -> Result<Roster, MakeError>
    ensures ok { IfOk result (λ roster. roster ≡ joined left right new) }
    ensures agreed { OnOk result (join_fault new (is_outside only_right.now.ids) (is_outside only_left.now.ids) left right ≡ None) }
    ensures err { IfErr result (IsJoinError new only_left.now.ids only_right.now.ids left right) }
{
    if !common_are_known(&left, &right, new, &only_left.ids, &only_right.ids) {
        return Err(MakeError::Damaged);
    }
    match join(alloc, left, right, new, &only_left.ids, &only_right.ids) {
        Ok(roster) => Ok(roster),
        Err(JoinError::Disagree { path }) => Err(MakeError::Refused(Cause::Disagree { path })),
        Err(JoinError::Revived { path }) => Err(MakeError::Refused(Cause::Revived { path })),
        Err(JoinError::NoMemory) => Err(MakeError::NoMemory),
    }
}
