// Where a revision stands that a query names.
ghost use Rattle.std.specs.Prelude.{◌≡◌, ◌<◌, List, ℕ, Err, IfErr, IfOk, IfSome};
ghost use Rattle.mtn_history.specs.Asking.{OnlyAsks};
ghost use Rattle.mtn_history.specs.Damage.{IsDamage};
ghost use Rattle.mtn_history.specs.Errors.{IfStoreDamage};
ghost use Rattle.mtn_history.specs.Marked.{IsCounted};
ghost use Rattle.mtn_history.specs.Stands.{IsFounded};
ghost use Rattle.mtn_model.specs.State.{State};
ghost use Rattle.mtn_near_queries.specs.Finding.{FindsPlace};
ghost use Rattle.mtn_ports.specs.Causes.{Rose};
ghost use Rattle.mtn_ports.specs.Kept.{with_all};

use mtn_ancestry::Pos;
use mtn_base::{Cause, Id};
use mtn_history::{Draft, HistoryError, StoreError};
use mtn_ports::Keeper;
use std::alloc::Global;

// Where a revision stands; UnknownRevision where the log has no such id.
pub fn place_of<K: Keeper>(
    alloc: Global,
    draft: &mut Draft<'_, K>,
    id: Id,
) -> Result<Pos, HistoryError>
    ensures asks { OnlyAsks K.contents K.leaves K.faults K.reads 1 draft.old draft.new }

    ensures found { (f : List ℕ → List ℕ) (s : State) (d : IsFounded f (K.contents draft.new.keeper.now) draft.old.pending s) → FindsPlace d.stands.history id result }
    ensures below { IfOk result (λ at. at < draft.old.pending.count) }
    ensures damaged { IfSome (K.contents draft.new.keeper.now) (λ c. IsCounted draft.old.pending c → IfErr result (λ e. IfStoreDamage e (IsDamage (with_all c draft.old.pending.batch)))) }
    ensures failed { result ≡ Err (HistoryError.Store StoreError.Failed) → Rose (K.faults draft.old.keeper.now) (K.faults draft.new.keeper.now) }
{
    let mut text = Vec::new(alloc);
    match draft.placed(id, &mut text)? {
        Some(at) => Ok(at),
        None => Err(HistoryError::Refused(Cause::UnknownRevision { id })),
    }
}
