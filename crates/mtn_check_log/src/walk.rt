// The walk along the log.
ghost use Rattle.std.specs.Prelude.{◌≡◌, ◌<◌, ◌≤◌, ℕ, Err, IfErr, IfSome, OnOk};
ghost use Rattle.mtn_ports.specs.Causes.{Rose};
ghost use Rattle.mtn_ports.specs.Kept.{Stays};
ghost use Rattle.mtn_history.specs.Errors.{IfDamage};
ghost use Rattle.mtn_check_laws.specs.FirstDamage.{IsBegun, IsDamageAt};
ghost use Rattle.mtn_history.specs.Memory.{Knows};
ghost use Rattle.mtn_model.specs.Table.{Contents};
ghost use Rattle.mtn_check_laws.specs.Fronts.{Front, IsFrontAt};
ghost use Rattle.mtn_check_log.specs.Positions.{IsFirstIn, IsWalkedTo};

use crate::checked::check_position;
use mtn_history::{Memory, StoreError};
use mtn_ports::{Ident, Keeper};
use std::alloc::Global;
use std::thread::Threads;

// After so many positions all that is remembered is forgotten, so that what merges ask for does not gather.
const FORGETTING: u64 = 256;

// What is still remembered at a position.
fn still_known(alloc: Global, at: u64, memory: Memory) -> Memory
    ensures { (c : Contents) → Knows memory c → Knows result c }
{
    if at % FORGETTING == 0 {
        return Memory::new(alloc);
    }
    memory
}

/// As [`walk_log`], of the positions from one to another, behind a front of the records below the first.
pub fn walk_from<I: Ident, K: Keeper>(
    alloc: Global,
    ident: &I,
    keeper: &mut K,
    count: u64,
    from: u64,
    to: u64,
) -> Result<(), StoreError>
    requires walked { IfSome (K.contents keeper.old) (IsWalkedTo (I.meaning ident.now) count from) }
    requires within { (from ≤ to) × (to ≤ count) }
    ensures stays { Stays K.contents K.leaves K.faults keeper.old keeper.new }
    ensures walked { IfSome (K.contents keeper.new) (λ c. OnOk result (IsWalkedTo (I.meaning ident.now) count to c)) }
    ensures damaged { IfSome (K.contents keeper.new) (λ c. IfErr result (λ e. IfDamage e (IsFirstIn (I.meaning ident.now) count c))) }
    ensures failed { result ≡ Err StoreError.Failed → Rose (K.faults keeper.old) (K.faults keeper.new) }
{
    let mut memory = Memory::new(alloc);
    for at in from..to {
        let known = still_known(alloc, at, memory);
        memory = check_position(alloc, ident, keeper, at, known)?;
    }
    Ok(())
}

/// Whether the records of each position below `count`, of tables 3, 4 and 5, are those that its text asks for over the positions
/// before it; or else the first damage of the first position that has one. Tables 1 and 2 are right already.
pub fn walk_log<R: Threads + Sync, I: Ident, K: Keeper>(
    rt: &R,
    alloc: Global,
    ident: &I,
    pieces: usize,
    count: u64,
    keeper: &mut K,
) -> Result<(), StoreError>
    requires begun { IfSome (K.contents keeper.old) (λ c. IsBegun (I.meaning ident.now) c count) }
    ensures stays { Stays K.contents K.leaves K.faults keeper.old keeper.new }
    ensures walked { IfSome (K.contents keeper.new) (λ c. OnOk result ((front : Front) × IsFrontAt (I.meaning ident.now) c count front)) }
    ensures damaged { IfSome (K.contents keeper.new) (λ c. IfErr result (λ e. IfDamage e
        (λ d. (r : ℕ) × (front : Front) × (r < count) × IsFrontAt (I.meaning ident.now) c r front × IsDamageAt (I.meaning ident.now) c r front d))) }
    ensures failed { result ≡ Err StoreError.Failed → Rose (K.faults keeper.old) (K.faults keeper.new) }
{
    let _ = rt;
    let _ = pieces;
    walk_from(alloc, ident, keeper, count, 0, count)
}
