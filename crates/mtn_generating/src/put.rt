// A revision, put.
ghost use Rattle.std.specs.Prelude.{◌≡◌, ◌≢◌, ℕ, List, None, Err, IfErr, IfOk, IfSome, OnOk};
ghost use Rattle.mtn_generated.specs.Growing.{AddsWork, MergesTips, PutsEdge, PutsText};
ghost use Rattle.mtn_generated.specs.Numbered.{edge_fault, no_id};
ghost use Rattle.mtn_generated.specs.Numbered.Work.{Joins};
ghost use Rattle.mtn_generating.specs.Generating.{Goes, IfGenerateDamage, IsOrdered, IsTreeless};
ghost use Rattle.mtn_generating.specs.Numbered.{IsFit, text_over, tips_of, work_of};
ghost use Rattle.mtn_generating.specs.Unfit.{IsShownWith};
ghost use Rattle.mtn_history.specs.Stands.{IsFounded};
ghost use Rattle.mtn_model.specs.State.{State};
ghost use Rattle.mtn_ports.specs.Causes.{Rose};
ghost use Rattle.mtn_ports.specs.Kept.{Stays};
ghost use Rattle.mtn_put_revision.specs.Keeping.{IsPlanned};
ghost use Rattle.mtn_replay.specs.Making.{edge_tree as tree_in};

use crate::GenerateError;
use crate::changes::edge_of;
use crate::shown::shown;
use crate::text::edge_text;
use crate::tree::edge_tree;
use crate::work::{Tips, Work, tips_after};
use mtn_base::Id;
use mtn_changes::Edge;
use mtn_history::{Draft, HistoryError, StoreError};
use mtn_merge::{Planned, plan_with};
use mtn_ports::{Ident, Keeper};
use mtn_put_revision::put_revision_as;
use mtn_roster::Roster;
use std::alloc::Global;

// Accepts a text as the next revision. Its id, and the tree that it makes where there is one, are trusted.
fn put_text<I: Ident, K: Keeper>(
    alloc: Global,
    ident: &I,
    draft: &mut Draft<'_, K>,
    work: Work,
    tips: &Tips,
    id: Id,
    text: &[u8],
    tree: Option<Roster>,
) -> Result<Tips, GenerateError>
    requires id { id.0 ≡ I.meaning ident.now text.now }
    requires planned { (s : State) → (d : IsFounded (I.meaning ident.now) (K.contents draft.old.keeper.now) draft.old.pending s) →
        IfSome tree (λ t. IsPlanned (I.meaning ident.now) s.files d.stands.history text.now t) }
    ensures same_reference { draft.new.keeper.ghost_name ≡ draft.old.keeper.ghost_name }
    ensures goes { Goes (I.meaning ident.now) K.contents K.leaves K.faults draft.old.keeper.now draft.new.keeper.now draft.old.pending draft.new.pending
        (λ s. PutsText (I.meaning ident.now) (work_of work) (tips_of tips.now) s text.now) result }
{
    match put_revision_as(alloc, ident, draft, id, text, tree) {
        Ok(()) => Ok(tips_after(work, id, tips)),
        Err(error) => Err(shown(draft, error)),
    }
}

// The tree that an edge makes, or why it makes none.
fn tree_of<K: Keeper>(
    alloc: Global,
    draft: &mut Draft<'_, K>,
    edge: &Edge,
) -> Result<Roster, GenerateError>
    requires { IsFit edge.now }
    ensures same_reference { draft.new.keeper.ghost_name ≡ draft.old.keeper.ghost_name }
    ensures stays { Stays K.contents K.leaves K.faults draft.old.keeper.now draft.new.keeper.now }
    ensures pending { draft.new.pending ≡ draft.old.pending }
    ensures fine { (f : List ℕ → List ℕ) (s : State) → (d : IsFounded f (K.contents draft.new.keeper.now) draft.old.pending s) → OnOk result (edge_fault d.stands.history edge.now ≡ None) }
    ensures made { (f : List ℕ → List ℕ) (s : State) → (d : IsFounded f (K.contents draft.new.keeper.now) draft.old.pending s) → IfOk result (λ t. t ≡ tree_in d.stands.history no_id edge.now) }
    ensures treeless { (f : List ℕ → List ℕ) (s : State) → (d : IsFounded f (K.contents draft.new.keeper.now) draft.old.pending s) → IfErr result (IsTreeless (edge_fault d.stands.history edge.now)) }
    ensures ordered { IfErr result IsOrdered }
    ensures damaged { IfSome (K.contents draft.new.keeper.now) (λ c. IfErr result (λ e. IfGenerateDamage e (IsShownWith c))) }
    ensures failed { result ≡ Err (GenerateError.Failed (HistoryError.Store StoreError.Failed)) → Rose (K.faults draft.old.keeper.now) (K.faults draft.new.keeper.now) }
{
    match edge_tree(alloc, draft, edge) {
        Ok(Ok(tree)) => Ok(tree),
        Ok(Err(cause)) => Err(GenerateError::Failed(HistoryError::Refused(cause))),
        Err(error) => Err(shown(draft, HistoryError::Store(error))),
    }
}

// Puts the revision that has an edge alone, by the tree that it makes.
fn put_tree<I: Ident, K: Keeper>(
    alloc: Global,
    ident: &I,
    draft: &mut Draft<'_, K>,
    work: Work,
    tips: &Tips,
    edge: &Edge,
    tree: &Roster,
) -> Result<Tips, GenerateError>
    ensures same_reference { draft.new.keeper.ghost_name ≡ draft.old.keeper.ghost_name }
    ensures goes { Goes (I.meaning ident.now) K.contents K.leaves K.faults draft.old.keeper.now draft.new.keeper.now draft.old.pending draft.new.pending
        (λ s. PutsText (I.meaning ident.now) (work_of work) (tips_of tips.now) s (text_over (I.meaning ident.now) tree.now edge.now)) result }
{
    let text = edge_text(alloc, ident, edge, tree)?;
    let bytes = text.as_slice();
    let id = ident.id(bytes);
    put_text(alloc, ident, draft, work, tips, id, bytes, None)
}

// Puts a revision with one edge.
fn put_edge<I: Ident, K: Keeper>(
    alloc: Global,
    ident: &I,
    draft: &mut Draft<'_, K>,
    revision: u64,
    work: Work,
    tips: &Tips,
) -> Result<Tips, GenerateError>
    requires { work_of work ≢ Joins }
    ensures same_reference { draft.new.keeper.ghost_name ≡ draft.old.keeper.ghost_name }
    ensures goes { Goes (I.meaning ident.now) K.contents K.leaves K.faults draft.old.keeper.now draft.new.keeper.now draft.old.pending draft.new.pending
        (λ s. PutsEdge (I.meaning ident.now) (work_of work) (tips_of tips.now) s revision) result }
{
    let edge = edge_of(alloc, ident, revision, work, tips)?;
    match tree_of(alloc, draft, &edge) {
        Ok(tree) => put_tree(alloc, ident, draft, work, tips, &edge, &tree),
        Err(error) => Err(error),
    }
}

// Puts the merge of the tips, or answers its conflicts.
fn put_merge<I: Ident, K: Keeper>(
    alloc: Global,
    ident: &I,
    draft: &mut Draft<'_, K>,
    tips: &Tips,
) -> Result<Tips, GenerateError>
    ensures same_reference { draft.new.keeper.ghost_name ≡ draft.old.keeper.ghost_name }
    ensures goes { Goes (I.meaning ident.now) K.contents K.leaves K.faults draft.old.keeper.now draft.new.keeper.now draft.old.pending draft.new.pending
        (λ s. MergesTips (I.meaning ident.now) Joins (tips_of tips.now) s) result }
{
    match plan_with(alloc, ident, draft, tips.left, tips.right, None) {
        Ok(Planned::Merged { text, id, tree }) => {
            let bytes = text.as_slice();
            put_text(alloc, ident, draft, Work::Joins, tips, id, bytes, tree)
        }
        Ok(
            Planned::Conflicted {
                left,
                right,
                conflicts,
            },
        ) => Err(GenerateError::Conflicting {
            left,
            right,
            conflicts,
        }),
        Err(error) => Err(shown(draft, error)),
    }
}

/// Puts the revision of a number over the tips, by what it does.
pub fn put_work<I: Ident, K: Keeper>(
    alloc: Global,
    ident: &I,
    draft: &mut Draft<'_, K>,
    revision: u64,
    work: Work,
    tips: &Tips,
) -> Result<Tips, GenerateError>
    ensures same_reference { draft.new.keeper.ghost_name ≡ draft.old.keeper.ghost_name }
    ensures goes { Goes (I.meaning ident.now) K.contents K.leaves K.faults draft.old.keeper.now draft.new.keeper.now draft.old.pending draft.new.pending
        (λ s. AddsWork (I.meaning ident.now) revision (tips_of tips.now) s (work_of work)) result }
{
    match work {
        Work::Joins => put_merge(alloc, ident, draft, tips),
        _ => put_edge(alloc, ident, draft, revision, work, tips),
    }
}
