//! The walk along the log, in lots of jobs.
ghost use Rattle.std.specs.Prelude.{◌≡◌, ◌<◌, ℕ, Err, IfErr, IfSome, OnOk};
ghost use Rattle.mtn_ports.specs.Causes.{Rose};
ghost use Rattle.mtn_ports.specs.Kept.{Stays};
ghost use Rattle.mtn_history.specs.Errors.{IfDamage};
ghost use Rattle.mtn_check_laws.specs.FirstDamage.{IsBegun, IsDamageAt};
ghost use Rattle.mtn_check_laws.specs.Fronts.{Front, IsFrontAt};

use mtn_check_walk::Errand;
use mtn_history::StoreError;
use mtn_ports::{Ident, Keeper};
use std::alloc::Global;
use std::thread::Threads;

/// As `walk_jobs`.
pub fn walk_jobs<R: Threads + Sync, I: Ident, K: Keeper, E: Errand>(
    rt: &R,
    alloc: Global,
    ident: &I,
    pieces: usize,
    count: u64,
    keeper: &mut K,
    errand: &mut E,
) -> Result<(), StoreError>
    requires begun { IfSome (K.contents keeper.old) (λ c. IsBegun (I.meaning ident.now) c count) }
    requires held { IfSome (K.contents keeper.old) (E.holds errand.old count) }
    ensures held { IfSome (K.contents keeper.new) (E.holds errand.new count) }
    ensures stays { Stays K.contents K.leaves K.faults keeper.old keeper.new }
    ensures walked { IfSome (K.contents keeper.new) (λ c. OnOk result ((front : Front) × IsFrontAt (I.meaning ident.now) c count front)) }
    ensures damaged { IfSome (K.contents keeper.new) (λ c. IfErr result (λ e. IfDamage e
        (λ d. (r : ℕ) × (front : Front) × (r < count) × IsFrontAt (I.meaning ident.now) c r front × IsDamageAt (I.meaning ident.now) c r front d))) }
    ensures failed { result ≡ Err StoreError.Failed → Rose (K.faults keeper.old) (K.faults keeper.new) }
{
    mtn_check_walk::walk_jobs(rt, alloc, ident, pieces, count, keeper, errand)
}
