// The contents that a revision brings.
ghost use Rattle.std.specs.Prelude.{◌≡◌, List, ℕ, Err, find, is_none, IfOk, IfErr, ◌∷◌, [], length};
ghost use Rattle.std.specs.FinMap.{get};
ghost use Rattle.mtn_base.specs.declared.id.Id.{Id as Named};
ghost use Rattle.mtn_replay.specs.Making.{new_contents};
ghost use Rattle.mtn_model.specs.State.{State};
ghost use Rattle.mtn_ports.specs.Causes.{Rose};
ghost use Rattle.mtn_ports.specs.Kept.{Stays};
ghost use Rattle.mtn_history.specs.Errors.{IfDamage};
ghost use Rattle.mtn_history.specs.Stands.{IsFounded};
ghost use Rattle.mtn_put_revision.specs.Finding.{unknown_in, first_unknown};
ghost use Rattle.mtn_ports.specs.Ident.{MakesIds};
ghost use Rattle.mtn_put_revision.specs.Reads.{LooksFew, brought};

use mtn_base::Id;
use mtn_changes::{Change, Edge};
use mtn_history::{Draft, StoreError};
use mtn_make_roster::new_content;
use mtn_ports::Keeper;

// The content that a change brings, where it is not held.
fn unknown_of<K: Keeper>(
    draft: &mut Draft<'_, K>,
    change: &Change,
) -> Result<Option<Id>, StoreError>
    ensures same_reference { draft.new.keeper.ghost_name ≡ draft.old.keeper.ghost_name }
    ensures stays { Stays K.contents K.leaves K.faults draft.old.keeper.now draft.new.keeper.now }
    ensures pending { draft.new.pending ≡ draft.old.pending }
    ensures found { (f : List ℕ → List ℕ) (s : State) → IsFounded f (K.contents draft.new.keeper.now) draft.old.pending s →
        IfOk result (λ id. id ≡ unknown_in s.files change.now) }
    ensures reads { (f : List ℕ → List ℕ) (s : State) → IsFounded f (K.contents draft.new.keeper.now) draft.old.pending s → MakesIds f →
        LooksFew (K.reads draft.old.keeper.now) (K.reads draft.new.keeper.now) (length (brought (change.now ∷ []))) result }
    ensures sound { IfErr result (λ e. IfDamage e (λ _. ⊥)) }
    ensures failed { result ≡ Err StoreError.Failed → Rose (K.faults draft.old.keeper.now) (K.faults draft.new.keeper.now) }
{
    match new_content(change) {
        None => Ok(None),
        Some(id) => {
            if draft.has_file(id)? {
                Ok(None)
            } else {
                Ok(Some(id))
            }
        }
    }
}

// The first content of one edge that is not held.
fn unknown_among<K: Keeper>(
    draft: &mut Draft<'_, K>,
    changes: &[Change],
) -> Result<Option<Id>, StoreError>
    ensures same_reference { draft.new.keeper.ghost_name ≡ draft.old.keeper.ghost_name }
    ensures stays { Stays K.contents K.leaves K.faults draft.old.keeper.now draft.new.keeper.now }
    ensures pending { draft.new.pending ≡ draft.old.pending }
    ensures found { (f : List ℕ → List ℕ) (s : State) → IsFounded f (K.contents draft.new.keeper.now) draft.old.pending s →
        IfOk result (λ id. id ≡ first_unknown s.files changes.now) }
    ensures reads { (f : List ℕ → List ℕ) (s : State) → IsFounded f (K.contents draft.new.keeper.now) draft.old.pending s → MakesIds f →
        LooksFew (K.reads draft.old.keeper.now) (K.reads draft.new.keeper.now) (length (brought changes.now)) result }
    ensures sound { IfErr result (λ e. IfDamage e (λ _. ⊥)) }
    ensures failed { result ≡ Err StoreError.Failed → Rose (K.faults draft.old.keeper.now) (K.faults draft.new.keeper.now) }
{
    for change in changes {
        if let Some(id) = unknown_of(draft, change)? {
            return Ok(Some(id));
        }
    }
    Ok(None)
}

/// The first content in the order of the text that is not held. No content is read.
pub fn unknown_content<K: Keeper>(
    draft: &mut Draft<'_, K>,
    edges: &[Edge],
) -> Result<Option<Id>, StoreError>
    ensures same_reference { draft.new.keeper.ghost_name ≡ draft.old.keeper.ghost_name }
    ensures stays { Stays K.contents K.leaves K.faults draft.old.keeper.now draft.new.keeper.now }
    ensures pending { draft.new.pending ≡ draft.old.pending }
    ensures found { (f : List ℕ → List ℕ) (s : State) → IsFounded f (K.contents draft.new.keeper.now) draft.old.pending s →
        IfOk result (λ id. id ≡ find (λ (i : Named). is_none (get s.files i.0)) (new_contents edges.now)) }
    ensures reads { (f : List ℕ → List ℕ) (s : State) → IsFounded f (K.contents draft.new.keeper.now) draft.old.pending s → MakesIds f →
        LooksFew (K.reads draft.old.keeper.now) (K.reads draft.new.keeper.now) (length (new_contents edges.now)) result }
    ensures sound { IfErr result (λ e. IfDamage e (λ _. ⊥)) }
    ensures failed { result ≡ Err StoreError.Failed → Rose (K.faults draft.old.keeper.now) (K.faults draft.new.keeper.now) }
{
    for edge in edges {
        if let Some(id) = unknown_among(draft, edge.changes.changes.as_slice())? {
            return Ok(Some(id));
        }
    }
    Ok(None)
}
