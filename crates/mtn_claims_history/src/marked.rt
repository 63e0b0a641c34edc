//! The rosters of a draft, and the ids of what their marks name.
ghost use Rattle.std.specs.Prelude.{◌≡◌, ◌<◌, ◌≤◌, ◌+◌, List, ℕ, length, Err, IfOk, IfErr, IfSome, OnOk};
ghost use Rattle.std.specs.List.{AllZip};
ghost use Rattle.mtn_base.specs.declared.limits.TheConstants.{MAX_CHAIN};
ghost use Rattle.mtn_history_laws.specs.History.{IsPlaceOf};
ghost use Rattle.mtn_marking.specs.Graph.{IsMarkedAt};
ghost use Rattle.mtn_model.specs.State.{State};
ghost use Rattle.mtn_ports.specs.Causes.{Rose};
ghost use Rattle.mtn_ports.specs.Kept.{with_all};
ghost use Rattle.mtn_history.specs.Asking.{OnlyAsks};
ghost use Rattle.mtn_history.specs.Damage.{IsDamage};
ghost use Rattle.mtn_history.specs.Errors.{IfDamage, IfStoreDamage};
ghost use Rattle.mtn_history.specs.Marked.{AreHeld, FindsRoster, IsCounted};
ghost use Rattle.mtn_history.specs.Rosters.{AsksAlong, IsRosterThere, Rebuilds, UnmadeBelow};
ghost use Rattle.mtn_history.specs.Stands.{IsFounded};

use mtn_ancestry::Pos;
use mtn_base::Id;
use mtn_history::{Draft, HistoryError, Rebuilt, SharedRoster, StoreError};
use mtn_ports::Keeper;
use std::rc::Rc;

/// `Draft::roster_at`.
pub fn roster_at<K: Keeper>(draft: &mut Draft<'_, K>, at: Pos) -> Result<Rc<Rebuilt>, StoreError>
    ensures asks { OnlyAsks K.contents K.leaves K.faults K.reads (MAX_CHAIN + 1) draft.old draft.new }
    ensures found { (f : List ℕ → List ℕ) (s : State) (d : IsFounded f (K.contents draft.new.keeper.now) draft.old.pending s) → at < draft.old.pending.count → IfOk result (λ r. IsMarkedAt d.stands.history at r.value.roster) }
    ensures rebuilt { IfSome (K.contents draft.new.keeper.now) (λ c. IfOk result (λ r. Rebuilds (with_all c draft.old.pending.batch) at r.value)) }
    ensures few { OnOk result (K.reads draft.new.keeper.now ≤ K.reads draft.old.keeper.now + MAX_CHAIN) }
    ensures along { IfSome (K.contents draft.new.keeper.now) (λ c. OnOk result (AsksAlong (with_all c draft.old.pending.batch) at (K.reads draft.old.keeper.now) (K.reads draft.new.keeper.now))) }
    ensures damaged { IfSome (K.contents draft.new.keeper.now) (λ c. IfErr result (λ e. IfDamage e (UnmadeBelow (at + 1) (with_all c draft.old.pending.batch)))) }
    ensures failed { result ≡ Err StoreError.Failed → Rose (K.faults draft.old.keeper.now) (K.faults draft.new.keeper.now) }
{
    draft.roster_at(at)
}

/// `Draft::roster_of`.
pub fn roster_of<K: Keeper>(
    draft: &mut Draft<'_, K>,
    id: Id,
) -> Result<(Pos, SharedRoster), HistoryError>
    ensures asks { OnlyAsks K.contents K.leaves K.faults K.reads (MAX_CHAIN + 2) draft.old draft.new }
    ensures found { (f : List ℕ → List ℕ) (s : State) (d : IsFounded f (K.contents draft.new.keeper.now) draft.old.pending s) → FindsRoster d.stands.history id result }
    ensures below { IfOk result (λ r. r.0 < draft.old.pending.count) }
    ensures there { IfSome (K.contents draft.new.keeper.now) (λ c. IfOk result (λ r. IsRosterThere (with_all c draft.old.pending.batch) r.0)) }
    ensures few { OnOk result (K.reads draft.new.keeper.now ≤ K.reads draft.old.keeper.now + (MAX_CHAIN + 1)) }
    ensures damaged { IfSome (K.contents draft.new.keeper.now) (λ c. IsCounted draft.old.pending c → IfErr result (λ e. IfStoreDamage e (IsDamage (with_all c draft.old.pending.batch)))) }
    ensures failed { result ≡ Err (HistoryError.Store StoreError.Failed) → Rose (K.faults draft.old.keeper.now) (K.faults draft.new.keeper.now) }
{
    draft.roster_of(id)
}

/// `Draft::ids_at`.
pub fn ids_at<K: Keeper>(
    draft: &mut Draft<'_, K>,
    roster: Pos,
    places: &[Pos],
) -> Result<Vec<Id>, StoreError>
    requires below { roster < draft.old.pending.count }
    requires there { IfSome (K.contents draft.old.keeper.now) (λ c. IsRosterThere (with_all c draft.old.pending.batch) roster) }
    ensures asks { OnlyAsks K.contents K.leaves K.faults K.reads (length places.now) draft.old draft.new }
    ensures found { (f : List ℕ → List ℕ) (s : State) (d : IsFounded f (K.contents draft.new.keeper.now) draft.old.pending s) → IfOk result (λ ids. AllZip (λ at id. IsPlaceOf d.stands.history id at) places.now ids.items) }
    ensures damaged { IfSome (K.contents draft.new.keeper.now) (λ c. IsCounted draft.old.pending c → AreHeld (K.contents draft.new.keeper.now) draft.old.pending places.now
        → IfErr result (λ e. IfDamage e (IsDamage (with_all c draft.old.pending.batch)))) }
    ensures failed { result ≡ Err StoreError.Failed → Rose (K.faults draft.old.keeper.now) (K.faults draft.new.keeper.now) }
{
    draft.ids_at(roster, places)
}
