//! An older store that is migrated.
ghost use Rattle.std.specs.Prelude.{◌≡◌, ℕ, List, Err, Some, IfErr, IfOk, IfSome};
ghost use Rattle.std.specs.List.{AllByRecursion};
ghost use Rattle.mtn_history.specs.Errors.{IfStoreDamage};
ghost use Rattle.mtn_history.specs.Stands.{Stands};
ghost use Rattle.mtn_migrating.specs.Migration.{Declines, Does, IsMigratingPut, IsNotOld, IsOldDamage};
ghost use Rattle.mtn_model.specs.State.{State};
ghost use Rattle.mtn_model.specs.Table.{Contents};
ghost use Rattle.mtn_old_stores.specs.Older.{OldState, StandsOld};
ghost use Rattle.mtn_ports.specs.Causes.{Rose};
ghost use Rattle.mtn_ports.specs.Kept.{Stays};

use mtn_history::{HistoryError, StoreError};
use mtn_migrating::Migration;
use mtn_ports::Keeper;
use std::alloc::Global;

/// As `migrate`.
pub fn migrate<K: Keeper>(
    alloc: Global,
    keeper: &mut K,
    payload: &[u8],
) -> Result<Migration, HistoryError>
    ensures stays { Stays K.contents K.leaves K.faults keeper.old keeper.new }
    ensures older { (f : List ℕ → List ℕ) (c : Contents) (s : OldState) → K.contents keeper.new ≡ Some c → StandsOld f c s → Does f c s payload.now result }
    ensures present { (f : List ℕ → List ℕ) (c : Contents) (s : State) → K.contents keeper.new ≡ Some c → Stands f c s → Declines f s payload.now result }
    ensures not_old { IfSome (K.contents keeper.new) (λ c. IfErr result (IsNotOld c)) }
    ensures puts { IfOk result (λ m. AllByRecursion IsMigratingPut m.batch) }
    ensures damaged { IfSome (K.contents keeper.new) (λ c. IfErr result (λ e. IfStoreDamage e (IsOldDamage c))) }
    ensures failed { result ≡ Err (HistoryError.Store StoreError.Failed) → Rose (K.faults keeper.old) (K.faults keeper.new) }
{
    mtn_migrating::migrate(alloc, keeper, payload)
}
