//! Rosters of two positions, or of two revisions, at once.
ghost use Rattle.std.specs.Prelude.{◌≡◌, ◌<◌, ◌≤◌, ◌+◌, List, ℕ, max, Err, IfOk, IfErr, IfSome, OnOk};
ghost use Rattle.mtn_base.specs.declared.limits.TheConstants.{MAX_CHAIN};
ghost use Rattle.mtn_history.specs.Asking.{OnlyAsks};
ghost use Rattle.mtn_history.specs.Damage.{IsDamage};
ghost use Rattle.mtn_history.specs.Errors.{IfDamage, IfStoreDamage};
ghost use Rattle.mtn_history.specs.Marked.{FindsRosters, IsCounted};
ghost use Rattle.mtn_history.specs.Rosters.{AsksOnce, IsRosterThere, Rebuilds, UnmadeBelow};
ghost use Rattle.mtn_history.specs.Stands.{IsFounded};
ghost use Rattle.mtn_marking.specs.Graph.{IsMarkedAt};
ghost use Rattle.mtn_model.specs.State.{State};
ghost use Rattle.mtn_ports.specs.Causes.{Rose};
ghost use Rattle.mtn_ports.specs.Kept.{with_all};

use mtn_ancestry::Pos;
use mtn_base::Id;
use mtn_history::{BothRosters, Draft, HistoryError, Rebuilt, StoreError};
use mtn_ports::Keeper;
use std::rc::Rc;

/// As `Draft::rosters_at`.
pub fn rosters_at<K: Keeper>(
    draft: &mut Draft<'_, K>,
    left: Pos,
    right: Pos,
) -> Result<(Rc<Rebuilt>, Rc<Rebuilt>), StoreError>
    ensures asks { OnlyAsks K.contents K.leaves K.faults K.reads (MAX_CHAIN + (MAX_CHAIN + 1)) draft.old draft.new }
    ensures found_left { (f : List ℕ → List ℕ) (s : State) (d : IsFounded f (K.contents draft.new.keeper.now) draft.old.pending s) → left < draft.old.pending.count → IfOk result (λ r. IsMarkedAt d.stands.history left r.0.value.roster) }
    ensures found_right { (f : List ℕ → List ℕ) (s : State) (d : IsFounded f (K.contents draft.new.keeper.now) draft.old.pending s) → right < draft.old.pending.count → IfOk result (λ r. IsMarkedAt d.stands.history right r.1.value.roster) }
    ensures left { IfSome (K.contents draft.new.keeper.now) (λ c. IfOk result (λ r. Rebuilds (with_all c draft.old.pending.batch) left r.0.value)) }
    ensures right { IfSome (K.contents draft.new.keeper.now) (λ c. IfOk result (λ r. Rebuilds (with_all c draft.old.pending.batch) right r.1.value)) }
    ensures few { OnOk result (K.reads draft.new.keeper.now ≤ K.reads draft.old.keeper.now + (MAX_CHAIN + MAX_CHAIN)) }
    ensures once { IfSome (K.contents draft.new.keeper.now) (λ c. OnOk result (AsksOnce (with_all c draft.old.pending.batch) left right (K.reads draft.old.keeper.now) (K.reads draft.new.keeper.now))) }
    ensures damaged { IfSome (K.contents draft.new.keeper.now) (λ c. IfErr result (λ e. IfDamage e (UnmadeBelow (max left right + 1) (with_all c draft.old.pending.batch)))) }
    ensures failed { result ≡ Err StoreError.Failed → Rose (K.faults draft.old.keeper.now) (K.faults draft.new.keeper.now) }
{
    draft.rosters_at(left, right)
}

/// As `Draft::rosters_of`.
pub fn rosters_of<K: Keeper>(
    draft: &mut Draft<'_, K>,
    a: Id,
    b: Id,
) -> Result<BothRosters, HistoryError>
    ensures asks { OnlyAsks K.contents K.leaves K.faults K.reads (MAX_CHAIN + (MAX_CHAIN + 3)) draft.old draft.new }
    ensures found { (f : List ℕ → List ℕ) (s : State) (d : IsFounded f (K.contents draft.new.keeper.now) draft.old.pending s) → FindsRosters d.stands.history a b result }
    ensures left { IfOk result (λ r. r.left < draft.old.pending.count) }
    ensures right { IfOk result (λ r. r.right < draft.old.pending.count) }
    ensures left_there { IfSome (K.contents draft.new.keeper.now) (λ c. IfOk result (λ r. IsRosterThere (with_all c draft.old.pending.batch) r.left)) }
    ensures right_there { IfSome (K.contents draft.new.keeper.now) (λ c. IfOk result (λ r. IsRosterThere (with_all c draft.old.pending.batch) r.right)) }
    ensures once { IfSome (K.contents draft.new.keeper.now) (λ c. IfOk result (λ r. AsksOnce (with_all c draft.old.pending.batch) r.left r.right (K.reads draft.old.keeper.now + 2) (K.reads draft.new.keeper.now))) }
    ensures damaged { IfSome (K.contents draft.new.keeper.now) (λ c. IsCounted draft.old.pending c → IfErr result (λ e. IfStoreDamage e (IsDamage (with_all c draft.old.pending.batch)))) }
    ensures failed { result ≡ Err (HistoryError.Store StoreError.Failed) → Rose (K.faults draft.old.keeper.now) (K.faults draft.new.keeper.now) }
{
    draft.rosters_of(a, b)
}
