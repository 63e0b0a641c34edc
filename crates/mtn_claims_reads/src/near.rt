//! The queries that read near the revisions which they name.
ghost use Rattle.std.specs.Prelude.{◌≡◌, ◌≤◌, ◌+◌, ◌*◌, ◌-◌, ◌∷◌, [], max, List as Seq, ℕ, Err, IfErr, IfSome};
ghost use Rattle.mtn_ancestry.specs.Ancestors.{ReachesFrom};
ghost use Rattle.mtn_history.specs.Asking.{OnlyAsks};
ghost use Rattle.mtn_history.specs.Damage.{IsDamage};
ghost use Rattle.mtn_history.specs.Errors.{IfStoreDamage};
ghost use Rattle.mtn_history.specs.Marked.{IsCounted};
ghost use Rattle.mtn_history.specs.Stands.{IsFounded};
ghost use Rattle.mtn_history_laws.specs.History.{IsPlaceOf, parents_at};
ghost use Rattle.mtn_model.specs.State.{State};
ghost use Rattle.mtn_near_queries.specs.Finding.{FindsAnswer};
ghost use Rattle.mtn_ports.specs.Causes.{Rose};
ghost use Rattle.mtn_ports.specs.Kept.{Stays, with_all};

use mtn_base::{Id, List};
use mtn_graph_queries::Query;
use mtn_history::{Draft, HistoryError, StoreError};
use mtn_ports::Keeper;
use std::alloc::Global;

/// As `mtn_near_queries::parents_of`.
pub fn parents_of<K: Keeper>(
    alloc: Global,
    draft: &mut Draft<'_, K>,
    of: Id,
) -> Result<List<Id>, HistoryError>
    ensures asks { OnlyAsks K.contents K.leaves K.faults K.reads 4 draft.old draft.new }

    ensures found { (f : Seq ℕ → Seq ℕ) (s : State) (d : IsFounded f (K.contents draft.new.keeper.now) draft.old.pending s) → FindsAnswer d.stands.history (Query.Parents of) result }
    ensures damaged { IfSome (K.contents draft.new.keeper.now) (λ c. IsCounted draft.old.pending c → IfErr result (λ e. IfStoreDamage e (IsDamage (with_all c draft.old.pending.batch)))) }
    ensures failed { result ≡ Err (HistoryError.Store StoreError.Failed) → Rose (K.faults draft.old.keeper.now) (K.faults draft.new.keeper.now) }
{
    mtn_near_queries::parents_of(alloc, draft, of)
}

/// As `mtn_near_queries::difference_of`.
pub fn difference_of<K: Keeper>(
    alloc: Global,
    draft: &mut Draft<'_, K>,
    of: Id,
    without: Id,
) -> Result<List<Id>, HistoryError>
    ensures same_reference { draft.new.keeper.ghost_name ≡ draft.old.keeper.ghost_name }
    ensures stays { Stays K.contents K.leaves K.faults draft.old.keeper.now draft.new.keeper.now }
    ensures pending { draft.new.pending ≡ draft.old.pending }
    ensures reads { (f : Seq ℕ → Seq ℕ) (s : State) (d : IsFounded f (K.contents draft.new.keeper.now) draft.old.pending s) (left right low : ℕ) →
        IsPlaceOf d.stands.history of left → IsPlaceOf d.stands.history without right → ReachesFrom (parents_at d.stands.history) left right low →
        K.reads draft.new.keeper.now ≤ K.reads draft.old.keeper.now + 2 + 2 * (max left right + 1 - low) }

    ensures found { (f : Seq ℕ → Seq ℕ) (s : State) (d : IsFounded f (K.contents draft.new.keeper.now) draft.old.pending s) → FindsAnswer d.stands.history (Query.AncestryDifference of (without ∷ [])) result }
    ensures damaged { IfSome (K.contents draft.new.keeper.now) (λ c. IsCounted draft.old.pending c → IfErr result (λ e. IfStoreDamage e (IsDamage (with_all c draft.old.pending.batch)))) }
    ensures failed { result ≡ Err (HistoryError.Store StoreError.Failed) → Rose (K.faults draft.old.keeper.now) (K.faults draft.new.keeper.now) }
{
    mtn_near_queries::difference_of(alloc, draft, of, without)
}
