// The whole check.
ghost use Rattle.std.specs.Prelude.{◌≡◌, ℕ, Err, IfErr, IfOk, IfSome, OnOk, length};
ghost use Rattle.mtn_check_laws.specs.FirstDamage.{IsCount, IsFirstDamage};
ghost use Rattle.mtn_history.specs.Damage.{IsShown};
ghost use Rattle.mtn_history.specs.Errors.{IfDamage, IfStoreDamage};
ghost use Rattle.mtn_history.specs.Stands.{Stands};
ghost use Rattle.mtn_model.specs.State.{State};
ghost use Rattle.mtn_ports.specs.Causes.{Rose};
ghost use Rattle.mtn_ports.specs.Kept.{Stays};
ghost use Rattle.mtn_check.specs.Forms.{IsOfForm};
ghost use Rattle.mtn_check.specs.Steps.{Counts, IsWholeOf};

use crate::begun::check_begun;
use crate::beside::check_beside;
use crate::few::Tallies;
use crate::form::refuse_older;
use crate::meta::read_count;
use mtn_check_laws::{no_damage_stands, standing_has_no_damage};
use mtn_check_walk::walk_jobs;
use mtn_history::{HistoryError, StoreError};
use mtn_ports::{Ident, Keeper};
use std::alloc::Global;
use std::thread::Threads;

// Looks at all records of a store that has a `count`.
fn check_all<R: Threads + Sync, I: Ident, K: Keeper>(
    rt: &R,
    alloc: Global,
    ident: &I,
    pieces: usize,
    count: u64,
    keeper: &mut K,
) -> Result<(), StoreError>
    requires counted { IfSome (K.contents keeper.old) (λ c. IsCount c count) }
    ensures stays { Stays K.contents K.leaves K.faults keeper.old keeper.new }
    ensures whole { IfSome (K.contents keeper.new) (λ c. OnOk result (IsWholeOf (I.meaning ident.now) c count)) }
    ensures damaged { IfSome (K.contents keeper.new) (λ c. IfErr result (λ e. IfDamage e (IsFirstDamage (I.meaning ident.now) c))) }
    ensures failed { result ≡ Err StoreError.Failed → Rose (K.faults keeper.old) (K.faults keeper.new) }
{
    check_begun(alloc, ident, keeper)?;
    let mut tallies = Tallies::new(alloc);
    walk_jobs(rt, alloc, ident, pieces, count, keeper, &mut tallies)?;
    check_beside(alloc, tallies, count, keeper)
}

// The number of revisions, or the first damage.
fn count_of<R: Threads + Sync, I: Ident, K: Keeper>(
    rt: &R,
    alloc: Global,
    ident: &I,
    pieces: usize,
    keeper: &mut K,
) -> Result<u64, StoreError>
    ensures stays { Stays K.contents K.leaves K.faults keeper.old keeper.new }
    ensures clean { IfSome (K.contents keeper.new) (λ c. IfOk result (Counts (I.meaning ident.now) c)) }
    ensures damaged { IfSome (K.contents keeper.new) (λ c. IfErr result (λ e. IfDamage e (IsFirstDamage (I.meaning ident.now) c))) }
    ensures failed { result ≡ Err StoreError.Failed → Rose (K.faults keeper.old) (K.faults keeper.new) }
{
    let Some(count) = read_count(alloc, keeper)? else {
        return Ok(0);
    };
    check_all(rt, alloc, ident, pieces, count, keeper)?;
    Ok(count)
}

// The same of a store that is not of the older form, and what both answers say of its records.
fn check_present<R: Threads + Sync, I: Ident, K: Keeper>(
    rt: &R,
    alloc: Global,
    ident: &I,
    pieces: usize,
    keeper: &mut K,
) -> Result<u64, StoreError>
    ensures stays { Stays K.contents K.leaves K.faults keeper.old keeper.new }
    ensures clean { IfSome (K.contents keeper.new) (λ c. IfOk result (λ n. (s : State) × Stands (I.meaning ident.now) c s × (n ≡ length s.log))) }
    ensures damaged { IfSome (K.contents keeper.new) (λ c. IfErr result (λ e. IfDamage e (λ d. IsFirstDamage (I.meaning ident.now) c d × IsShown c d))) }
    ensures failed { result ≡ Err StoreError.Failed → Rose (K.faults keeper.old) (K.faults keeper.new) }
{
    no_damage_stands();
    standing_has_no_damage();
    match count_of(rt, alloc, ident, pieces, keeper) {
        Ok(count) => Ok(count),
        Err(error) => Err(error),
    }
}

/// Checks a store: the number of its revisions where its records stand for a state, and else their first damage. A store of the
/// older form is refused, and no other (`form`).
///
/// All records are looked at in the order of `IsFirstDamage` (`mtn_check_laws`), each file is hashed once, and nothing is written.
/// Beside the walk along the log, whose memory is its own, it takes memory for a record or two at a time.
pub fn check_store<R: Threads + Sync, I: Ident, K: Keeper>(
    rt: &R,
    alloc: Global,
    ident: &I,
    pieces: usize,
    keeper: &mut K,
) -> Result<u64, HistoryError>
    ensures stays { Stays K.contents K.leaves K.faults keeper.old keeper.new }
    ensures form { IfSome (K.contents keeper.new) (λ c. IsOfForm c result) }
    ensures clean { IfSome (K.contents keeper.new) (λ c. IfOk result (λ n. (s : State) × Stands (I.meaning ident.now) c s × (n ≡ length s.log))) }
    ensures damaged { IfSome (K.contents keeper.new) (λ c. IfErr result (λ e. IfStoreDamage e (λ d. IsFirstDamage (I.meaning ident.now) c d × IsShown c d))) }
    ensures failed { result ≡ Err (HistoryError.Store StoreError.Failed) → Rose (K.faults keeper.old) (K.faults keeper.new) }
{
    if let Err(error) = refuse_older(alloc, keeper) {
        return Err(error);
    }
    match check_present(rt, alloc, ident, pieces, keeper) {
        Ok(count) => Ok(count),
        Err(error) => Err(HistoryError::Store(error)),
    }
}
