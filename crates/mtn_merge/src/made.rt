// The tree of a merge without conflicts, its text, and the text's id.
ghost use Rattle.std.specs.Prelude.{◌≡◌, ◌≢◌, List, None, Err, IfErr, IfOk, OnOk, unwrap_or};
ghost use Rattle.mtn_changeset_laws.specs.Changes.{or_else};
ghost use Rattle.mtn_conflicts.specs.Lists.{AreClear};
ghost use Rattle.mtn_conflicts.specs.Result.{NoneBornIn, ParentsAreDirs, result_of, tree_before};
ghost use Rattle.mtn_history.specs.Errors.{IfStoreDamage};
ghost use Rattle.mtn_history_laws.specs.History.{Revision};
ghost use Rattle.mtn_put_revision.specs.Finding.{IsRefusal};
ghost use Rattle.mtn_replay.specs.Making.{too_long, too_many};
ghost use Rattle.mtn_merge.specs.Plans.{Gives, HasIds, HasKept, IsLimitOf, IsMadeIn, IsMadeOf, IsTreeIn, outcomes};
ghost use Rattle.mtn_merge.specs.Sides.{IsSideOf};

use crate::answer::Planned;
use crate::births::{none_is_born, unborn};
use crate::sides::Side;
use crate::text::{Parent, revision_text};
use mtn_base::{Cause, Id, MAX_TEXT, NoMemory};
use mtn_conflicts::{is_some_reborn, under_new_names, under_old_names};
use mtn_decide::Decisions;
use mtn_history::{HistoryError, StoreError};
use mtn_make_roster::{MakeError, within_limits};
use mtn_ports::Ident;
use mtn_roster::Roster;
use std::alloc::Global;

// That a tree has not too much.
fn limited(alloc: Global, tree: &Roster) -> Result<(), HistoryError>
    ensures fine { OnOk result (or_else (too_many tree.now) (too_long tree.now) ≡ None) }
    ensures refused { IfErr result (IsRefusal (or_else (too_many tree.now) (too_long tree.now))) }
    ensures sound { IfErr result (λ e. IfStoreDamage e (λ _. ⊥)) }
    ensures failed { result ≢ Err (HistoryError.Store StoreError.Failed) }
{
    match within_limits(alloc, tree) {
        Ok(()) => Ok(()),
        Err(MakeError::Refused(cause)) => Err(HistoryError::Refused(cause)),
        Err(MakeError::Damaged) => Err(HistoryError::Store(StoreError::NoMemory)),
        Err(MakeError::NoMemory) => Err(HistoryError::Store(StoreError::NoMemory)),
    }
}

// The tree in a revision of an id that is no birth, from the one under old names; None where that has no other names there.
fn named_anew(
    alloc: Global,
    decisions: &Decisions,
    old: &Roster,
    id: Id,
) -> Result<Option<Roster>, NoMemory>
    requires clear { AreClear decisions.now }
    requires dirs { ParentsAreDirs decisions.now.nodes }
    requires tree { old.now ≡ tree_before decisions.now.nodes }
    requires fresh { NoneBornIn decisions.now.nodes id }
    ensures { IfOk result (λ tree. unwrap_or tree old.now ≡ result_of decisions.now id) }
{
    if !is_some_reborn(decisions.nodes()) {
        return Ok(None);
    }
    Ok(Some(under_new_names(alloc, decisions, old, id)?))
}

// The one that was named anew, or else the one under old names.
fn either<'a>(anew: &'a Option<Roster>, old: &'a Roster) -> &'a Roster
    ensures { result.now ≡ unwrap_or anew.now old.now }
{
    match anew {
        Some(tree) => tree,
        None => old,
    }
}

// The tree in a revision of an id, from the one under old names. There is none where the id is the birth of a node already: no
// new revision has it.
fn tree_in(
    alloc: Global,
    decisions: &Decisions,
    id: Id,
    old: Roster,
) -> Result<Option<Roster>, NoMemory>
    requires clear { AreClear decisions.now }
    requires dirs { ParentsAreDirs decisions.now.nodes }
    requires tree { old ≡ tree_before decisions.now.nodes }
    ensures { IfOk result (IsTreeIn decisions.now id) }
{
    let nodes = decisions.nodes();
    if !is_some_reborn(nodes) {
        return Ok(Some(old));
    }
    if !none_is_born(nodes, id) {
        return Ok(None);
    }
    Ok(Some(under_new_names(alloc, decisions, &old, id)?))
}

// The tree under old names, and the one in a revision of an id that is no birth, where that has other names.
#[derive(Drop)]
struct Trees {
    old: Roster,
    anew: Option<Roster>,
}

// The trees that decisions make, or the first limit that they are not within.
fn trees_of(
    alloc: Global,
    left: &Roster,
    right: &Roster,
    decisions: &Decisions,
) -> Result<Trees, HistoryError>
    requires clear { AreClear decisions.now }
    requires dirs { ParentsAreDirs decisions.now.nodes }
    ensures old { IfOk result (λ r. r.old ≡ tree_before decisions.now.nodes) }
    ensures made { IfOk result (λ r. IsMadeIn left.now right.now decisions.now (unwrap_or r.anew r.old)) }
    ensures fine { IfOk result (λ r. or_else (too_many (unwrap_or r.anew r.old)) (too_long (unwrap_or r.anew r.old)) ≡ None) }
    ensures refused { IfErr result (IsLimitOf left.now right.now decisions.now) }
    ensures sound { IfErr result (λ e. IfStoreDamage e (λ _. ⊥)) }
    ensures failed { result ≢ Err (HistoryError.Store StoreError.Failed) }
{
    let first = unborn(alloc, left, right, decisions.nodes())?;
    let old = under_old_names(alloc, decisions)?;
    let anew = named_anew(alloc, decisions, &old, first)?;
    limited(alloc, either(&anew, &old))?;
    Ok(Trees { old, anew })
}

/// The text of the tree that decisions make, with its id and that tree, or the first limit that it is not within.
pub fn merged<I: Ident>(
    alloc: Global,
    ident: &I,
    left: &Side,
    right: &Side,
    decisions: &Decisions,
) -> Result<Planned, HistoryError>
    requires clear { AreClear decisions.now }
    requires dirs { ParentsAreDirs decisions.now.nodes }
    ensures made { (h : List Revision) → IsSideOf h left.now → IsSideOf h right.now → Gives (IsMadeOf (I.meaning ident.now) h left.now.id right.now.id decisions.now) (outcomes result) }
    ensures kept { (h : List Revision) → IsSideOf h left.now → IsSideOf h right.now → IfOk result (HasKept (I.meaning ident.now) h left.now.id right.now.id decisions.now) }
    ensures ids { IfOk result (HasIds (I.meaning ident.now)) }
    ensures sound { IfErr result (λ e. IfStoreDamage e (λ _. ⊥)) }
    ensures failed { result ≢ Err (HistoryError.Store StoreError.Failed) }
{
    let old_left = left.roster.marked().roster();
    let old_right = right.roster.marked().roster();
    let Trees { old, anew } = trees_of(alloc, old_left, old_right, decisions)?;
    let made = either(&anew, &old);
    let left = Parent {
        id: left.id,
        tree: old_left,
    };
    let right = Parent {
        id: right.id,
        tree: old_right,
    };
    let text = revision_text(alloc, ident, &left, &right, made)?;
    if text.as_slice().len() > MAX_TEXT {
        return Err(HistoryError::Refused(Cause::TextTooLong {
            length: text.as_slice().len() as u64,
        }));
    }
    let id = ident.id(text.as_slice());
    let tree = tree_in(alloc, decisions, id, old)?;
    Ok(Planned::Merged { text, id, tree })
}
