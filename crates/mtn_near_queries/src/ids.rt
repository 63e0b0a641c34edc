// The ids of positions.
ghost use Rattle.std.specs.Prelude.{◌≡◌, ◌<◌, List, ℕ, length, Contains, Err, IfErr, IfOk, IfSome};
ghost use Rattle.mtn_history.specs.Asking.{OnlyAsks};
ghost use Rattle.mtn_history.specs.Damage.{IsDamage};
ghost use Rattle.mtn_history.specs.Errors.{IfDamage};
ghost use Rattle.mtn_history.specs.Marked.{IsCounted};
ghost use Rattle.mtn_history.specs.Stands.{IsFounded};
ghost use Rattle.mtn_model.specs.State.{State};
ghost use Rattle.mtn_near_queries.specs.Finding.{AreNamedAt};
ghost use Rattle.mtn_ports.specs.Causes.{Rose};
ghost use Rattle.mtn_ports.specs.Kept.{with_all};

use mtn_ancestry::Pos;
use mtn_base::Id;
use mtn_history::{Draft, StoreError};
use mtn_ports::Keeper;
use std::alloc::Global;

// The ids of the revisions at these positions, in their order. It asks for the record of the log at each that is not remembered.
pub fn ids_at<K: Keeper>(
    alloc: Global,
    draft: &mut Draft<'_, K>,
    positions: &[Pos],
) -> Result<Vec<Id>, StoreError>
    requires below { (at : ℕ) → Contains positions.now at → at < draft.old.pending.count }
    ensures asks { OnlyAsks K.contents K.leaves K.faults K.reads (length positions.now) draft.old draft.new }

    ensures found { (f : List ℕ → List ℕ) (s : State) (d : IsFounded f (K.contents draft.new.keeper.now) draft.old.pending s) → IfOk result (λ ids. AreNamedAt d.stands.history positions.now ids.items) }
    ensures damaged { IfSome (K.contents draft.new.keeper.now) (λ c. IsCounted draft.old.pending c → IfErr result (λ e. IfDamage e (IsDamage (with_all c draft.old.pending.batch)))) }
    ensures failed { result ≡ Err StoreError.Failed → Rose (K.faults draft.old.keeper.now) (K.faults draft.new.keeper.now) }
{
    let mut ids = Vec::new(alloc);
    for at in positions {
        ids.push(draft.log_at(*at)?.id)?;
    }
    Ok(ids)
}
