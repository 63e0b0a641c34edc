// The tree that a revision with one edge makes.
ghost use Rattle.std.specs.Prelude.{◌≡◌, ℕ, List as Seq, [], Err, IfErr, IfOk, IfSome, None, Some, option_map};
ghost use Rattle.mtn_changeset_laws.specs.Changes.{first_fault, tree_after};
ghost use Rattle.mtn_changeset_laws.specs.Laws.{RenamesDiffer};
ghost use Rattle.mtn_generated.specs.Numbered.{edge_fault, no_id};
ghost use Rattle.mtn_generating.specs.Numbered.{IsFit, IsMade, IsOneKept, Makes};
ghost use Rattle.mtn_history.specs.Damage.{IsDamage};
ghost use Rattle.mtn_history.specs.Errors.{IfDamage};
ghost use Rattle.mtn_history.specs.Marked.{IsCounted};
ghost use Rattle.mtn_history.specs.Stands.{IsFounded};
ghost use Rattle.mtn_model.specs.State.{State};
ghost use Rattle.mtn_ports.specs.Causes.{Rose};
ghost use Rattle.mtn_ports.specs.Kept.{Stays, with_all};
ghost use Rattle.mtn_replay.specs.Making.{change_fault, edge_tree as tree_in, parent_tree};

use crate::work::NO_ID;
use mtn_apply::{ApplyError, apply};
use mtn_base::{Cause, Id, NoMemory};
use mtn_changes::{Changeset, Edge};
use mtn_history::{Draft, HistoryError, StoreError};
use mtn_merge::unborn;
use mtn_ports::Keeper;
use mtn_roster::Roster;
use std::alloc::Global;

// The tree, or the cause of the change that failed.
fn tree_or_cause(applied: Result<Roster, ApplyError>) -> Result<Result<Roster, Cause>, NoMemory>
    ensures { IfOk result (IsMade applied) }
{
    match applied {
        Ok(tree) => Ok(Ok(tree)),
        Err(ApplyError::BadChange { number, why }) => Ok(Err(Cause::BadChange {
            edge: 1,
            number,
            why,
        })),
        Err(ApplyError::NoMemory) => Err(NoMemory),
    }
}

// What changes make of no tree.
fn begun(alloc: Global, changes: &Changeset) -> Result<Result<Roster, Cause>, NoMemory>
    requires { RenamesDiffer changes.now }
    ensures { IfOk result (Makes (option_map (change_fault 1) (first_fault [] changes.now)) (tree_after [] changes.now no_id)) }
{
    tree_or_cause(apply(alloc, None, changes, NO_ID))
}

// What one change makes of a tree. It adds no node, so that the tree is the same under every id; the change is applied under one
// that is no birth.
fn changed(
    alloc: Global,
    old: &Roster,
    changes: &Changeset,
) -> Result<Result<Roster, Cause>, NoMemory>
    requires { IsOneKept changes.now }
    ensures { IfOk result (Makes (option_map (change_fault 1) (first_fault old.now changes.now)) (tree_after old.now changes.now no_id)) }
{
    let new = unborn(alloc, old, old, &[])?;
    tree_or_cause(apply(alloc, Some(old), changes, new))
}

// The same of the tree of a revision.
fn changed_over<K: Keeper>(
    alloc: Global,
    draft: &mut Draft<'_, K>,
    parent: Id,
    changes: &Changeset,
) -> Result<Result<Roster, Cause>, StoreError>
    requires { IsOneKept changes.now }
    ensures same_reference { draft.new.keeper.ghost_name ≡ draft.old.keeper.ghost_name }
    ensures stays { Stays K.contents K.leaves K.faults draft.old.keeper.now draft.new.keeper.now }
    ensures pending { draft.new.pending ≡ draft.old.pending }
    ensures made { (f : Seq ℕ → Seq ℕ) (s : State) → (d : IsFounded f (K.contents draft.new.keeper.now) draft.old.pending s) →
        IfOk result (Makes (edge_fault d.stands.history (record { parent = Some parent; changes = changes.now })) (tree_after (parent_tree d.stands.history (Some parent)) changes.now no_id)) }
    ensures damaged { IfSome (K.contents draft.new.keeper.now) (λ c. IsCounted draft.old.pending c → IfErr result (λ e. IfDamage e (IsDamage (with_all c draft.old.pending.batch)))) }
    ensures failed { result ≡ Err StoreError.Failed → Rose (K.faults draft.old.keeper.now) (K.faults draft.new.keeper.now) }
{
    match draft.roster_of(parent) {
        Ok((_, held)) => Ok(changed(alloc, held.marked().roster(), changes)?),
        Err(HistoryError::Refused(_)) => Ok(Err(Cause::UnknownParent { id: parent })),
        Err(HistoryError::Store(error)) => Err(error),
    }
}

/// The tree that an edge makes over the history of a draft, or the cause why it makes none: the parent is not held, or a change
/// fails.
pub fn edge_tree<K: Keeper>(
    alloc: Global,
    draft: &mut Draft<'_, K>,
    edge: &Edge,
) -> Result<Result<Roster, Cause>, StoreError>
    requires { IsFit edge.now }
    ensures same_reference { draft.new.keeper.ghost_name ≡ draft.old.keeper.ghost_name }
    ensures stays { Stays K.contents K.leaves K.faults draft.old.keeper.now draft.new.keeper.now }
    ensures pending { draft.new.pending ≡ draft.old.pending }
    ensures made { (f : Seq ℕ → Seq ℕ) (s : State) → (d : IsFounded f (K.contents draft.new.keeper.now) draft.old.pending s) →
        IfOk result (Makes (edge_fault d.stands.history edge.now) (tree_in d.stands.history no_id edge.now)) }
    ensures damaged { IfSome (K.contents draft.new.keeper.now) (λ c. IsCounted draft.old.pending c → IfErr result (λ e. IfDamage e (IsDamage (with_all c draft.old.pending.batch)))) }
    ensures failed { result ≡ Err StoreError.Failed → Rose (K.faults draft.old.keeper.now) (K.faults draft.new.keeper.now) }
{
    match edge.parent {
        None => Ok(begun(alloc, &edge.changes)?),
        Some(parent) => changed_over(alloc, draft, parent, &edge.changes),
    }
}
