//! The damage that a store shows without what is pending.
ghost use Rattle.std.specs.Prelude.{◌≡◌, ◌⊎◌, Err, IfErr, IfOk, IfSome};
ghost use Rattle.mtn_history.specs.Errors.{IfDamage, IfStoreDamage};
ghost use Rattle.mtn_history.specs.Marked.{IsCounted};
ghost use Rattle.mtn_ports.specs.Causes.{Rose};
ghost use Rattle.mtn_ports.specs.Kept.{Stays};
ghost use Rattle.mtn_reading.specs.Unfit.{IsAnswered, IsRecordOf, IsShownFor};

use mtn_history::{Damage, Draft, HistoryError, StoreError};
use mtn_ports::Keeper;

/// As `mtn_reading::first_kept`.
pub fn first_kept<K: Keeper>(draft: &mut Draft<'_, K>) -> Result<Option<Damage>, StoreError>
    ensures same_reference { draft.new.keeper.ghost_name ≡ draft.old.keeper.ghost_name }
    ensures stays { Stays K.contents K.leaves K.faults draft.old.keeper.now draft.new.keeper.now }
    ensures pending { draft.new.pending ≡ draft.old.pending }
    ensures first { IfSome (K.contents draft.new.keeper.now) (λ c. IfOk result (IsRecordOf c)) }
    ensures sound { IfErr result (λ e. IfDamage e (λ _. ⊥)) }
    ensures failed { result ≡ Err StoreError.Failed → Rose (K.faults draft.old.keeper.now) (K.faults draft.new.keeper.now) }
{
    mtn_reading::first_kept(draft)
}

/// As `mtn_reading::kept_error`.
pub fn kept_error<K: Keeper>(draft: &mut Draft<'_, K>, error: HistoryError) -> HistoryError
    ensures same_reference { draft.new.keeper.ghost_name ≡ draft.old.keeper.ghost_name }
    ensures stays { Stays K.contents K.leaves K.faults draft.old.keeper.now draft.new.keeper.now }
    ensures pending { draft.new.pending ≡ draft.old.pending }
    ensures answered { IsAnswered error result }
    ensures kept { IfSome (K.contents draft.new.keeper.now) (λ c. IfStoreDamage error (λ came. IfStoreDamage result (IsShownFor c came))) }
    ensures counted { IfSome (K.contents draft.new.keeper.now) (λ c. IfStoreDamage error (λ _. IsCounted draft.new.pending c)) }
    ensures failed { result ≡ HistoryError.Store StoreError.Failed → (error ≡ HistoryError.Store StoreError.Failed) ⊎ Rose (K.faults draft.old.keeper.now) (K.faults draft.new.keeper.now) }
{
    mtn_reading::kept_error(draft, error)
}
