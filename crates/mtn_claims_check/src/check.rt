//! A store is checked.
ghost use Rattle.std.specs.Prelude.{◌≡◌, ℕ, Err, IfErr, IfOk, IfSome, length};
ghost use Rattle.mtn_check.specs.Forms.{IsOfForm};
ghost use Rattle.mtn_check_laws.specs.FirstDamage.{IsFirstDamage};
ghost use Rattle.mtn_history.specs.Damage.{IsShown};
ghost use Rattle.mtn_history.specs.Errors.{IfStoreDamage};
ghost use Rattle.mtn_history.specs.Stands.{Stands};
ghost use Rattle.mtn_model.specs.State.{State};
ghost use Rattle.mtn_ports.specs.Causes.{Rose};
ghost use Rattle.mtn_ports.specs.Kept.{Stays};

use mtn_history::{HistoryError, StoreError};
use mtn_ports::{Ident, Keeper};
use std::alloc::Global;
use std::thread::Threads;

/// As `check_store`.
pub fn check_store<R: Threads + Sync, I: Ident, K: Keeper>(
    rt: &R,
    alloc: Global,
    ident: &I,
    pieces: usize,
    keeper: &mut K,
) -> Result<u64, HistoryError>
    ensures stays { Stays K.contents K.leaves K.faults keeper.old keeper.new }
    ensures form { IfSome (K.contents keeper.new) (λ c. IsOfForm c result) }
    ensures clean { IfSome (K.contents keeper.new) (λ c. IfOk result (λ n. (s : State) × Stands (I.meaning ident.now) c s × (n ≡ length s.log))) }
    ensures damaged { IfSome (K.contents keeper.new) (λ c. IfErr result (λ e. IfStoreDamage e (λ d. IsFirstDamage (I.meaning ident.now) c d × IsShown c d))) }
    ensures failed { result ≡ Err (HistoryError.Store StoreError.Failed) → Rose (K.faults keeper.old) (K.faults keeper.new) }
{
    mtn_check::check_store(rt, alloc, ident, pieces, keeper)
}
