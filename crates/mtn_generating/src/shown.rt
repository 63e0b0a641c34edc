// An error of a call, as the generator answers it.
ghost use Rattle.std.specs.Prelude.{◌≡◌, ◌⊎◌, Err, IfErr, IfOk, IfSome};
ghost use Rattle.mtn_generating.specs.Generating.{IfGenerateDamage, IsOrdered};
ghost use Rattle.mtn_generating.specs.Unfit.{IsAnsweredBy, IsFirstShown, IsShownWith, IsToldAs, IsToldOf};
ghost use Rattle.mtn_history.specs.Damage.{IsDamage};
ghost use Rattle.mtn_history.specs.Errors.{IfDamage, IfStoreDamage};
ghost use Rattle.mtn_history.specs.Marked.{IsCounted};
ghost use Rattle.mtn_ports.specs.Causes.{Rose};
ghost use Rattle.mtn_ports.specs.Kept.{Stays, with_all};

use crate::GenerateError;
use mtn_base::Bytes;
use mtn_history::{Damage, Draft, HistoryError, META, StoreError};
use mtn_ports::Keeper;
use mtn_reading::{first_kept, kept_error};

/// An error of a call, as it is answered. A damage is one of the store's records together with what is pending: it is shown as it
/// is where it shows a record of the store's own or one that the store lacks, and else the store's first record is shown.
pub fn shown<K: Keeper>(draft: &mut Draft<'_, K>, error: HistoryError) -> GenerateError
    requires damaged { IfSome (K.contents draft.old.keeper.now) (λ c. IsCounted draft.old.pending c → IfStoreDamage error (IsDamage (with_all c draft.old.pending.batch))) }
    ensures same_reference { draft.new.keeper.ghost_name ≡ draft.old.keeper.ghost_name }
    ensures stays { Stays K.contents K.leaves K.faults draft.old.keeper.now draft.new.keeper.now }
    ensures pending { draft.new.pending ≡ draft.old.pending }
    ensures answered { IsAnsweredBy error result }
    ensures ordered { IsOrdered result }
    ensures shown { IfSome (K.contents draft.new.keeper.now) (λ c. IfGenerateDamage result (IsShownWith c)) }
    ensures failed { result ≡ GenerateError.Failed (HistoryError.Store StoreError.Failed) → (error ≡ HistoryError.Store StoreError.Failed) ⊎ Rose (K.faults draft.old.keeper.now) (K.faults draft.new.keeper.now) }
{
    GenerateError::Failed(kept_error(draft, error))
}

// The store's first record as a damage, where conflicts were found over it, which no state comes to.
fn first_shown<K: Keeper>(draft: &mut Draft<'_, K>) -> Result<Damage, StoreError>
    ensures same_reference { draft.new.keeper.ghost_name ≡ draft.old.keeper.ghost_name }
    ensures stays { Stays K.contents K.leaves K.faults draft.old.keeper.now draft.new.keeper.now }
    ensures pending { draft.new.pending ≡ draft.old.pending }
    ensures shown { IfSome (K.contents draft.new.keeper.now) (λ c. IfOk result (IsFirstShown c)) }
    ensures sound { IfErr result (λ e. IfDamage e (λ _. ⊥)) }
    ensures failed { result ≡ Err StoreError.Failed → Rose (K.faults draft.old.keeper.now) (K.faults draft.new.keeper.now) }
{
    match first_kept(draft)? {
        Some(first) => Ok(first),
        None => Ok(Damage::Missing {
            table: META,
            key: Bytes::from_slice(draft.alloc(), b"count")?,
        }),
    }
}

/// An error as `generate` answers it: conflicts as damage.
pub fn told<K: Keeper>(draft: &mut Draft<'_, K>, error: GenerateError) -> HistoryError
    ensures same_reference { draft.new.keeper.ghost_name ≡ draft.old.keeper.ghost_name }
    ensures stays { Stays K.contents K.leaves K.faults draft.old.keeper.now draft.new.keeper.now }
    ensures pending { draft.new.pending ≡ draft.old.pending }
    ensures answered { IsToldAs error result }
    ensures told { IfSome (K.contents draft.new.keeper.now) (λ c. IsToldOf c error result) }
    ensures failed { result ≡ HistoryError.Store StoreError.Failed → (error ≡ GenerateError.Failed (HistoryError.Store StoreError.Failed)) ⊎ Rose (K.faults draft.old.keeper.now) (K.faults draft.new.keeper.now) }
{
    match error {
        GenerateError::Failed(error) => error,
        GenerateError::Conflicting {
            left: _,
            right: _,
            conflicts: _,
        } => match first_shown(draft) {
            Ok(damage) => HistoryError::Store(StoreError::Damaged(damage)),
            Err(error) => HistoryError::Store(error),
        },
    }
}
