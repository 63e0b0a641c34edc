// What one revision has at or above it that another has not.
ghost use Rattle.std.specs.Prelude.{◌≡◌, ◌<◌, ◌≤◌, ◌+◌, ◌*◌, ◌-◌, ◌∷◌, [], max, List as Seq, ℕ, Contains, Err, IfErr, IfOk, IfSome};
ghost use Rattle.mtn_ancestry.specs.Ancestors.{IsUncommon, ReachesFrom};
ghost use Rattle.mtn_ancestry.specs.Sets.{IsAscendingListOf};
ghost use Rattle.mtn_history.specs.Damage.{IsDamage};
ghost use Rattle.mtn_history.specs.Errors.{IfDamage, IfStoreDamage};
ghost use Rattle.mtn_history.specs.Marked.{IsCounted};
ghost use Rattle.mtn_history.specs.Stands.{IsFounded};
ghost use Rattle.mtn_history_laws.specs.History.{IsPlaceOf, parents_at};
ghost use Rattle.mtn_model.specs.State.{State};
ghost use Rattle.mtn_near_queries.specs.Finding.{AreBetween, FindsAnswer};
ghost use Rattle.mtn_ports.specs.Causes.{Rose};
ghost use Rattle.mtn_ports.specs.Kept.{Stays, with_all};

use crate::ids::ids_at;
use crate::place::place_of;
use mtn_ancestry::{Pos, PosSet, WalkError, uncommon};
use mtn_base::{Id, List};
use mtn_graph_queries::Query;
use mtn_history::{Draft, HistoryError, StoreError};
use mtn_ports::Keeper;
use std::alloc::Global;

// The positions of the left revision and its ancestors that are none of the right one's. It asks for the records of the log that the
// walk between both asks for.
fn positions_between<K: Keeper>(
    alloc: Global,
    draft: &mut Draft<'_, K>,
    left: Pos,
    right: Pos,
) -> Result<PosSet, StoreError>
    requires left { left < draft.old.pending.count }
    requires right { right < draft.old.pending.count }
    ensures same_reference { draft.new.keeper.ghost_name ≡ draft.old.keeper.ghost_name }
    ensures stays { Stays K.contents K.leaves K.faults draft.old.keeper.now draft.new.keeper.now }
    ensures pending { draft.new.pending ≡ draft.old.pending }
    ensures reads { (f : Seq ℕ → Seq ℕ) (s : State) (d : IsFounded f (K.contents draft.new.keeper.now) draft.old.pending s) (low : ℕ) →
        ReachesFrom (parents_at d.stands.history) left right low → K.reads draft.new.keeper.now ≤ K.reads draft.old.keeper.now + (max left right + 1 - low) }

    ensures found { (f : Seq ℕ → Seq ℕ) (s : State) (d : IsFounded f (K.contents draft.new.keeper.now) draft.old.pending s) →
        IfOk result (IsAscendingListOf (IsUncommon (parents_at d.stands.history) left right)) }
    ensures below { IfOk result (λ found. (at : ℕ) → Contains found at → at ≤ max left right) }
    ensures damaged { IfSome (K.contents draft.new.keeper.now) (λ c. IsCounted draft.old.pending c → IfErr result (λ e. IfDamage e (IsDamage (with_all c draft.old.pending.batch)))) }
    ensures failed { result ≡ Err StoreError.Failed → Rose (K.faults draft.old.keeper.now) (K.faults draft.new.keeper.now) }
{
    match uncommon(alloc, draft, left, right) {
        Ok(sets) => Ok(sets.0),
        Err(WalkError::Asked(error)) => Err(error),
        Err(WalkError::NoMemory) => Err(StoreError::NoMemory),
    }
}

// The ids of the revisions there, in log order.
fn ids_between<K: Keeper>(
    alloc: Global,
    draft: &mut Draft<'_, K>,
    left: Pos,
    right: Pos,
) -> Result<List<Id>, StoreError>
    requires left { left < draft.old.pending.count }
    requires right { right < draft.old.pending.count }
    ensures same_reference { draft.new.keeper.ghost_name ≡ draft.old.keeper.ghost_name }
    ensures stays { Stays K.contents K.leaves K.faults draft.old.keeper.now draft.new.keeper.now }
    ensures pending { draft.new.pending ≡ draft.old.pending }
    ensures reads { (f : Seq ℕ → Seq ℕ) (s : State) (d : IsFounded f (K.contents draft.new.keeper.now) draft.old.pending s) (low : ℕ) →
        ReachesFrom (parents_at d.stands.history) left right low → K.reads draft.new.keeper.now ≤ K.reads draft.old.keeper.now + 2 * (max left right + 1 - low) }

    ensures found { (f : Seq ℕ → Seq ℕ) (s : State) (d : IsFounded f (K.contents draft.new.keeper.now) draft.old.pending s) → IfOk result (AreBetween d.stands.history left right) }
    ensures damaged { IfSome (K.contents draft.new.keeper.now) (λ c. IsCounted draft.old.pending c → IfErr result (λ e. IfDamage e (IsDamage (with_all c draft.old.pending.batch)))) }
    ensures failed { result ≡ Err StoreError.Failed → Rose (K.faults draft.old.keeper.now) (K.faults draft.new.keeper.now) }
{
    let positions = positions_between(alloc, draft, left, right)?;
    let ids = ids_at(alloc, draft, positions.as_slice())?;
    Ok(List::from_vec(ids))
}

/// The ids of `of` and its ancestors without `without` and its ancestors, in log order; UnknownRevision with the first of the two
/// that the log does not have. It asks for the records of both texts, and at most twice for each record of the log from the greater
/// of both positions down to the least of those that one of them has alone, and of their parents. The rest of the log is not read.
pub fn difference_of<K: Keeper>(
    alloc: Global,
    draft: &mut Draft<'_, K>,
    of: Id,
    without: Id,
) -> Result<List<Id>, HistoryError>
    ensures same_reference { draft.new.keeper.ghost_name ≡ draft.old.keeper.ghost_name }
    ensures stays { Stays K.contents K.leaves K.faults draft.old.keeper.now draft.new.keeper.now }
    ensures pending { draft.new.pending ≡ draft.old.pending }
    ensures reads { (f : Seq ℕ → Seq ℕ) (s : State) (d : IsFounded f (K.contents draft.new.keeper.now) draft.old.pending s) (left right low : ℕ) →
        IsPlaceOf d.stands.history of left → IsPlaceOf d.stands.history without right → ReachesFrom (parents_at d.stands.history) left right low →
        K.reads draft.new.keeper.now ≤ K.reads draft.old.keeper.now + 2 + 2 * (max left right + 1 - low) }

    ensures found { (f : Seq ℕ → Seq ℕ) (s : State) (d : IsFounded f (K.contents draft.new.keeper.now) draft.old.pending s) → FindsAnswer d.stands.history (Query.AncestryDifference of (without ∷ [])) result }
    ensures damaged { IfSome (K.contents draft.new.keeper.now) (λ c. IsCounted draft.old.pending c → IfErr result (λ e. IfStoreDamage e (IsDamage (with_all c draft.old.pending.batch)))) }
    ensures failed { result ≡ Err (HistoryError.Store StoreError.Failed) → Rose (K.faults draft.old.keeper.now) (K.faults draft.new.keeper.now) }
{
    let left = place_of(alloc, draft, of)?;
    let right = place_of(alloc, draft, without)?;
    Ok(ids_between(alloc, draft, left, right)?)
}
