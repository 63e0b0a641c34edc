// Whether a store is of the older form.
ghost use Rattle.std.specs.Prelude.{◌≡◌, ◌⊎◌, List, ℕ, true, false, Some, Err, IfErr, IfOk, IfSome};
ghost use Rattle.mtn_history.specs.Errors.{IfDamage};
ghost use Rattle.mtn_history.specs.Stands.{Stands};
ghost use Rattle.mtn_model.specs.State.{State};
ghost use Rattle.mtn_model.specs.Table.{Contents};
ghost use Rattle.mtn_ports.specs.Causes.{Rose};
ghost use Rattle.mtn_ports.specs.Kept.{Stays};
ghost use Rattle.mtn_old_stores.specs.Older.{OldState, StandsOld};
ghost use Rattle.mtn_old_stores.specs.Reading.{FormDamage, IsOldVersion, IsOlder, NeitherDamage};

use crate::damaged::{bad, missing};
use mtn_history::{META, StoreError};
use mtn_ports::Keeper;
use std::alloc::Global;

// Whether the version is the older one. Any but that and the present one is damage.
fn has_old_version<K: Keeper>(alloc: Global, keeper: &mut K) -> Result<bool, StoreError>
    ensures stays { Stays K.contents K.leaves K.faults keeper.old keeper.new }
    ensures version { IfSome (K.contents keeper.new) (λ c. IfOk result (IsOldVersion c)) }
    ensures failed { result ≡ Err StoreError.Failed → Rose (K.faults keeper.old) (K.faults keeper.new) }
    ensures damaged { IfSome (K.contents keeper.new) (λ c. IfErr result (λ e. IfDamage e (NeitherDamage c))) }
{
    let mut body = Vec::new(alloc);
    if !keeper.get(META, b"version", &mut body)? {
        return Err(missing(alloc, META, b"version"));
    }
    if body.as_slice() == b"1".as_slice() {
        return Ok(true);
    }
    if body.as_slice() != b"2".as_slice() {
        return Err(bad(alloc, META, b"version", &body));
    }
    Ok(false)
}

// The same, where a store without a `count` is not of the older form.
fn has_old_form<K: Keeper>(alloc: Global, keeper: &mut K) -> Result<bool, StoreError>
    ensures stays { Stays K.contents K.leaves K.faults keeper.old keeper.new }
    ensures form { IfSome (K.contents keeper.new) (λ c. IfOk result (IsOlder c)) }
    ensures failed { result ≡ Err StoreError.Failed → Rose (K.faults keeper.old) (K.faults keeper.new) }
    ensures damaged { IfSome (K.contents keeper.new) (λ c. IfErr result (λ e. IfDamage e (FormDamage c))) }
{
    let mut body = Vec::new(alloc);
    if !keeper.get(META, b"count", &mut body)? {
        return Ok(false);
    }
    has_old_version(alloc, keeper)
}

/// Whether a store is of the older form: it has a `count`, and its version is the byte `1`. Beside a `count`, a version that is
/// neither `1` nor `2` is damage.
pub fn is_older<K: Keeper>(alloc: Global, keeper: &mut K) -> Result<bool, StoreError>
    ensures stays { Stays K.contents K.leaves K.faults keeper.old keeper.new }
    ensures form { IfSome (K.contents keeper.new) (λ c. IfOk result (IsOlder c)) }
    ensures older { (f : List ℕ → List ℕ) (c : Contents) (s : OldState) → K.contents keeper.new ≡ Some c → StandsOld f c s → IfOk result (λ is. is ≡ true) }
    ensures present { (f : List ℕ → List ℕ) (c : Contents) (s : State) → K.contents keeper.new ≡ Some c → Stands f c s → IfOk result (λ is. is ≡ false) }
    ensures sound { (f : List ℕ → List ℕ) (c : Contents) (s : OldState) (t : State) → K.contents keeper.new ≡ Some c → StandsOld f c s ⊎ Stands f c t
        → IfErr result (λ e. IfDamage e (λ _. ⊥)) }
    ensures failed { result ≡ Err StoreError.Failed → Rose (K.faults keeper.old) (K.faults keeper.new) }
    ensures damaged { IfSome (K.contents keeper.new) (λ c. IfErr result (λ e. IfDamage e (FormDamage c))) }
{
    has_old_form(alloc, keeper)
}
