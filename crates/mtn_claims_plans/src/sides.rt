// The sides of a merge.
ghost use Rattle.std.specs.Prelude.{◌≡◌, ◌<◌, List, ℕ, Err, IfOk, IfErr, IfSome};
ghost use Rattle.mtn_conflicts.specs.ConflictText.{IsLesser};
ghost use Rattle.mtn_conflicts.specs.Lists.{AreConflictsOf};
ghost use Rattle.mtn_history.specs.Damage.{IsDamage};
ghost use Rattle.mtn_history.specs.Errors.{IfStoreDamage};
ghost use Rattle.mtn_history.specs.Marked.{IsCounted};
ghost use Rattle.mtn_history.specs.Rosters.{IsRosterThere};
ghost use Rattle.mtn_history.specs.Stands.{IsFounded};
ghost use Rattle.mtn_model.specs.State.{State};
ghost use Rattle.mtn_ports.specs.Causes.{Rose};
ghost use Rattle.mtn_ports.specs.Kept.{Stays, with_all};
ghost use Rattle.mtn_merge.specs.Sides.{FindsSides};

use mtn_base::Id;
use mtn_history::{Draft, HistoryError, StoreError};
use mtn_merge::Compared;
use mtn_ports::Keeper;
use std::alloc::Global;

/// `mtn_merge::sides_of`.
pub fn sides_of<K: Keeper>(
    alloc: Global,
    draft: &mut Draft<'_, K>,
    a: Id,
    b: Id,
) -> Result<Compared, HistoryError>
    ensures same_reference { draft.new.keeper.ghost_name ≡ draft.old.keeper.ghost_name }
    ensures stays { Stays K.contents K.leaves K.faults draft.old.keeper.now draft.new.keeper.now }
    ensures pending { draft.new.pending ≡ draft.old.pending }
    ensures finds { (f : List ℕ → List ℕ) (s : State) (d : IsFounded f (K.contents draft.new.keeper.now) draft.old.pending s) → FindsSides d.stands.history a b result }
    ensures below { IfOk result (λ x. x.left.at < draft.old.pending.count) }
    ensures there { IfSome (K.contents draft.new.keeper.now) (λ c. IfOk result (λ x. IsRosterThere (with_all c draft.old.pending.batch) x.left.at)) }
    ensures lesser { IfOk result (λ x. IsLesser x.left.id x.right.id) }
    ensures conflicts { IfOk result (λ x. AreConflictsOf x.decisions x.conflicts) }
    ensures damaged { IfSome (K.contents draft.new.keeper.now) (λ c. IsCounted draft.old.pending c → IfErr result (λ e. IfStoreDamage e (IsDamage (with_all c draft.old.pending.batch)))) }
    ensures failed { result ≡ Err (HistoryError.Store StoreError.Failed) → Rose (K.faults draft.old.keeper.now) (K.faults draft.new.keeper.now) }
{
    mtn_merge::sides_of(alloc, draft, a, b)
}
