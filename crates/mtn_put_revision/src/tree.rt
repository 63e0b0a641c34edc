// The tree of a new revision, or its first refusal behind the parents.
ghost use Rattle.std.specs.Prelude.{◌≡◌, ◌<◌, [], List, ℕ, None, Err, IfOk, IfErr, IfSome, OnOk, ◌≤◌, ◌+◌, length};
ghost use Rattle.mtn_changes.specs.RevisionText.{AreEdges};
ghost use Rattle.mtn_basic_io.specs.Spelling.{spelling};
ghost use Rattle.mtn_history_laws.specs.History.{Revision as Made};
ghost use Rattle.mtn_replay.specs.Making.{made_tree, new_contents};
ghost use Rattle.mtn_make_roster.specs.Basis.{Underlies, made_refusal};
ghost use Rattle.mtn_manifest.specs.Manifest.{manifest_of};
ghost use Rattle.mtn_roster.specs.Walk.{AreStops};
ghost use Rattle.mtn_model.specs.State.{State};
ghost use Rattle.mtn_ports.specs.Causes.{Rose};
ghost use Rattle.mtn_ports.specs.Kept.{Stays, with_all};
ghost use Rattle.mtn_history.specs.Errors.{IfStoreDamage};
ghost use Rattle.mtn_history.specs.Stands.{IsFounded};
ghost use Rattle.mtn_put_revision.specs.Finding.{IsFound, IsRefusal, made_refusal_of, text_refusal};
ghost use Rattle.mtn_ports.specs.Ident.{MakesIds};

use crate::contents::unknown_content;
use crate::unfit::unfit;
use mtn_ancestry::Pos;
use mtn_base::{Cause, Id, NoMemory};
use mtn_changes::Revision;
use mtn_history::{Draft, HistoryError, StoreError};
use mtn_make_roster::{Basis, MakeError, WalkedTree, make};
use mtn_manifest::write_along;
use mtn_ports::{Ident, Keeper};
use mtn_roster::{Roster, Stop};
use std::alloc::Global;

// The id of a tree's manifest.
fn manifest_id<I: Ident>(
    alloc: Global,
    ident: &I,
    roster: &Roster,
    stops: &[Stop],
) -> Result<Id, NoMemory>
    requires { AreStops roster.now stops.now }
    ensures { IfOk result (λ id. id.0 ≡ I.meaning ident.now (spelling (manifest_of roster.now))) }
{
    let mut text = Vec::new(alloc);
    write_along(roster, stops, &mut text)?;
    Ok(ident.id(&text))
}

// Refuses a made tree over a content that is not held, or whose manifest is another than the text names.
fn accept_tree<I: Ident, K: Keeper>(
    alloc: Global,
    ident: &I,
    draft: &mut Draft<'_, K>,
    read: &Revision,
    made: &WalkedTree,
) -> Result<(), HistoryError>
    requires walk { AreStops made.now.tree made.now.stops.items }
    ensures same_reference { draft.new.keeper.ghost_name ≡ draft.old.keeper.ghost_name }
    ensures stays { Stays K.contents K.leaves K.faults draft.old.keeper.now draft.new.keeper.now }
    ensures pending { draft.new.pending ≡ draft.old.pending }
    ensures fine { (s : State) → IsFounded (I.meaning ident.now) (K.contents draft.new.keeper.now) draft.old.pending s →
        OnOk result (text_refusal (I.meaning ident.now) s.files read.now made.now.tree ≡ None) }
    ensures refused { (s : State) → IsFounded (I.meaning ident.now) (K.contents draft.new.keeper.now) draft.old.pending s →
        IfErr result (IsRefusal (text_refusal (I.meaning ident.now) s.files read.now made.now.tree)) }
    ensures reads { (f : List ℕ → List ℕ) (s : State) → IsFounded f (K.contents draft.new.keeper.now) draft.old.pending s → MakesIds f →
        K.reads draft.new.keeper.now ≤ K.reads draft.old.keeper.now + (length (new_contents read.now.edges) + 1) }
    ensures few { (f : List ℕ → List ℕ) (s : State) → IsFounded f (K.contents draft.new.keeper.now) draft.old.pending s → MakesIds f →
        OnOk result (K.reads draft.new.keeper.now ≤ K.reads draft.old.keeper.now + length (new_contents read.now.edges)) }
    ensures sound { IfErr result (λ e. IfStoreDamage e (λ _. ⊥)) }
    ensures failed { result ≡ Err (HistoryError.Store StoreError.Failed) → Rose (K.faults draft.old.keeper.now) (K.faults draft.new.keeper.now) }
{
    if let Some(id) = unknown_content(draft, read.edges.as_slice())? {
        return Err(HistoryError::Refused(Cause::UnknownFile { id }));
    }
    let computed = manifest_id(alloc, ident, &made.tree, &made.stops)?;
    if computed != read.manifest {
        return Err(HistoryError::Refused(Cause::ManifestDiffers { computed }));
    }
    Ok(())
}

/// The tree that a text's edges make over the basis, with its walk, or the first refusal that is not the parents': of a change, of joining,
/// of too much, of a content, of the manifest's id.
pub fn tree_of<I: Ident, K: Keeper>(
    alloc: Global,
    ident: &I,
    draft: &mut Draft<'_, K>,
    read: &Revision,
    basis: &Basis,
    parent: Option<Pos>,
    new: Id,
) -> Result<WalkedTree, HistoryError>
    requires edges { AreEdges read.now.edges }
    requires parent { IfSome parent (λ p. p < draft.old.pending.count) }
    requires root { parent ≡ None → Underlies [] read.now.edges basis.now new }
    requires based { (f : List ℕ → List ℕ) (s : State) → (d : IsFounded f (K.contents draft.old.keeper.now) draft.old.pending s) →
        Underlies d.stands.history read.now.edges basis.now new }
    ensures same_reference { draft.new.keeper.ghost_name ≡ draft.old.keeper.ghost_name }
    ensures stays { Stays K.contents K.leaves K.faults draft.old.keeper.now draft.new.keeper.now }
    ensures pending { draft.new.pending ≡ draft.old.pending }
    ensures walk { IfOk result (λ made. AreStops made.tree made.stops.items) }
    ensures tree { (f : List ℕ → List ℕ) (s : State) → (d : IsFounded f (K.contents draft.new.keeper.now) draft.old.pending s) →
        IfOk result (λ made. made.tree ≡ made_tree d.stands.history new read.now.edges) }
    ensures made { IfOk result (λ made. (h : List Made) → Underlies h read.now.edges basis.now new → (made.tree ≡ made_tree h new read.now.edges) × (made_refusal h new read.now.edges ≡ None)) }
    ensures fine { (s : State) → (d : IsFounded (I.meaning ident.now) (K.contents draft.new.keeper.now) draft.old.pending s) →
        OnOk result (made_refusal_of (I.meaning ident.now) s.files d.stands.history new read.now ≡ None) }
    ensures refused { (s : State) → (d : IsFounded (I.meaning ident.now) (K.contents draft.new.keeper.now) draft.old.pending s) →
        IfErr result (IsRefusal (made_refusal_of (I.meaning ident.now) s.files d.stands.history new read.now)) }
    ensures reads { (f : List ℕ → List ℕ) (s : State) → IsFounded f (K.contents draft.new.keeper.now) draft.old.pending s → MakesIds f →
        K.reads draft.new.keeper.now ≤ K.reads draft.old.keeper.now + (length (new_contents read.now.edges) + 1) }
    ensures few { (f : List ℕ → List ℕ) (s : State) → IsFounded f (K.contents draft.new.keeper.now) draft.old.pending s → MakesIds f →
        OnOk result (K.reads draft.new.keeper.now ≤ K.reads draft.old.keeper.now + length (new_contents read.now.edges)) }
    ensures damaged { IfSome (K.contents draft.new.keeper.now) (λ c. IfErr result (λ e. IfStoreDamage e
        (IsFound (K.contents draft.new.keeper.now) draft.old.pending (with_all c draft.old.pending.batch)))) }
    ensures failed { result ≡ Err (HistoryError.Store StoreError.Failed) → Rose (K.faults draft.old.keeper.now) (K.faults draft.new.keeper.now) }
{
    let made = match make(alloc, read.edges.as_slice(), basis, new) {
        Ok(made) => made,
        Err(MakeError::Refused(cause)) => return Err(HistoryError::Refused(cause)),
        Err(MakeError::Damaged) => return Err(HistoryError::Store(unfit(draft, parent))),
        Err(MakeError::NoMemory) => return Err(HistoryError::Store(StoreError::NoMemory)),
    };
    accept_tree(alloc, ident, draft, read, &made)?;
    Ok(made)
}
