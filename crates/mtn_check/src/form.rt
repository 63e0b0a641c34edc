// The form of a store.
ghost use Rattle.std.specs.Prelude.{◌≡◌, Err, IfErr, IfSome};
ghost use Rattle.mtn_history.specs.Errors.{IfStoreDamage};
ghost use Rattle.mtn_ports.specs.Causes.{Rose};
ghost use Rattle.mtn_ports.specs.Kept.{Stays};
ghost use Rattle.mtn_check.specs.Forms.{IsOfForm};

use mtn_base::Cause;
use mtn_history::{HistoryError, META, StoreError};
use mtn_ports::Keeper;
use std::alloc::Global;

/// That a store is not of the older form, which is refused. Nothing else is looked at, and no damage is found.
pub fn refuse_older<K: Keeper>(alloc: Global, keeper: &mut K) -> Result<(), HistoryError>
    ensures stays { Stays K.contents K.leaves K.faults keeper.old keeper.new }
    ensures form { IfSome (K.contents keeper.new) (λ c. IsOfForm c result) }
    ensures sound { IfErr result (λ e. IfStoreDamage e (λ _. ⊥)) }
    ensures failed { result ≡ Err (HistoryError.Store StoreError.Failed) → Rose (K.faults keeper.old) (K.faults keeper.new) }
{
    let mut body = Vec::new(alloc);
    if !keeper.get(META, b"version", &mut body)? {
        return Ok(());
    }
    if body.as_slice() == b"1".as_slice() {
        return Err(HistoryError::Refused(Cause::OldStore));
    }
    Ok(())
}
