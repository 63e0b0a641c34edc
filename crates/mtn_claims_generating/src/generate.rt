//! A history that is generated.
ghost use Rattle.std.specs.Prelude.{◌≡◌, [], Err, IfErr, IfSome, OnErr, Some};
ghost use Rattle.mtn_generating.specs.Generating.{TellsGrowth};
ghost use Rattle.mtn_history.specs.Errors.{IfStoreDamage};
ghost use Rattle.mtn_history.specs.Meta.{IsMetaOf};
ghost use Rattle.mtn_history.specs.Stands.{IsDraft};
ghost use Rattle.mtn_model.specs.State.{State};
ghost use Rattle.mtn_model.specs.Table.{Contents};
ghost use Rattle.mtn_ports.specs.Causes.{Rose};
ghost use Rattle.mtn_ports.specs.Kept.{Stays, with_all};
ghost use Rattle.mtn_reading.specs.Unfit.{SpoilsReading};

use mtn_base::Bytes;
use mtn_history::{Draft, HistoryError, StoreError};
use mtn_ports::{Ident, Keeper};
use std::alloc::Global;

/// As `generate`.
pub fn generate<I: Ident, K: Keeper>(
    alloc: Global,
    ident: &I,
    count: u64,
    draft: &mut Draft<'_, K>,
) -> Result<Bytes, HistoryError>
    requires bare { draft.old.pending.batch ≡ [] }
    ensures same_reference { draft.new.keeper.ghost_name ≡ draft.old.keeper.ghost_name }
    ensures stays { Stays K.contents K.leaves K.faults draft.old.keeper.now draft.new.keeper.now }
    ensures generates { (c : Contents) (s : State) → K.contents draft.new.keeper.now ≡ Some c → IsDraft (I.meaning ident.now) c draft.old.pending s →
        TellsGrowth (I.meaning ident.now) c s count result draft.new.pending }
    ensures err { OnErr result (draft.new.pending ≡ draft.old.pending) }
    ensures damaged { IfSome (K.contents draft.new.keeper.now) (λ c. IsMetaOf (with_all c draft.old.pending.batch) (record { count = draft.old.pending.count; is_new = draft.old.pending.is_new }) →
        IfErr result (λ e. IfStoreDamage e (SpoilsReading (I.meaning ident.now) (with_all c draft.old.pending.batch)))) }
    ensures failed { result ≡ Err (HistoryError.Store StoreError.Failed) → Rose (K.faults draft.old.keeper.now) (K.faults draft.new.keeper.now) }
{
    mtn_generating::generate(alloc, ident, count, draft)
}
