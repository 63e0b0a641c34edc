//! A position of the log, checked, and the keeper that shows what stands below it.
ghost use Rattle.std.specs.Prelude.{◌++◌, ◌≡◌, ◌≢◌, ◌≤◌, Err, IfErr, IfOk, IfSome, IsErrOf, List, MatchOption, None, Ok, OnOk, Some, ℕ};
ghost use Rattle.mtn_check_log.specs.Below.{below};
ghost use Rattle.mtn_check_log.specs.Positions.{IsEntryAt, IsFirstIn, IsKnownBehind, IsRecordOf, IsRight, IsUntold, IsWalkedTo, IsWrong};
ghost use Rattle.mtn_history.specs.Errors.{IfDamage};
ghost use Rattle.mtn_history.specs.Logs.{UnloggedAt};
ghost use Rattle.mtn_history.specs.Memory.{Knows};
ghost use Rattle.mtn_model.specs.Table.{body_at};
ghost use Rattle.mtn_ports.specs.Causes.{Rose};
ghost use Rattle.mtn_ports.specs.Kept.{IsBody, Same, Stays};
ghost use Rattle.mtn_records.specs.Fields.{number_text};

use mtn_check_log::{Behind, Below, Entry, Lent};
use mtn_history::{Damage, Memory, StoreError};
use mtn_ports::{Ident, KeepError, Keeper};
use std::alloc::Global;

/// As `Lent::new`.
pub fn new_lent<'a, K: Keeper>(alloc: Global, keeper: &'a mut K, count: u64) -> Lent<'a, K>
    ensures reference { result.keeper.ghost_name ≡ keeper.entry.ghost_name }
    ensures keeper { result.keeper.now ≡ keeper.old }
    ensures count { result.count ≡ count }
{
    Lent::new(alloc, keeper, count)
}

/// As `Below::new`.
pub fn new_below<'a, K: Keeper, N: Behind>(lent: Lent<'a, K>) -> Below<'a, K, N>
    requires reference { lent.keeper.ghost_name ≡ N.reference }
    requires count { lent.count ≡ N.count }
    requires told { N.told ≡ K.contents lent.keeper.now }
    ensures { result ≡ lent.entry.keeper.now }
{
    Below::new(lent)
}

/// As `Below::into_lent`.
pub fn into_lent<'a, K: Keeper, N: Behind>(shown: Below<'a, K, N>) -> Lent<'a, K>
    ensures same_reference { result.keeper.ghost_name ≡ N.reference }
    ensures keeper { result.keeper.now ≡ shown.entry }
    ensures told { Same N.told (K.contents shown.entry) }
{
    shown.into_lent()
}

/// As `mtn_check_log::check_position`.
pub fn check_position<I: Ident, K: Keeper>(
    alloc: Global,
    ident: &I,
    keeper: &mut K,
    at: u64,
    memory: Memory,
) -> Result<Memory, StoreError>
    requires knows { IfSome (K.contents keeper.old) (λ c. Knows memory (below at c)) }
    ensures stays { Stays K.contents K.leaves K.faults keeper.old keeper.new }
    ensures right { IfSome (K.contents keeper.new) (λ c. OnOk result ((n : ℕ) → IsRight (I.meaning ident.now) c n at)) }
    ensures known { IfSome (K.contents keeper.new) (λ c. IfOk result (λ m. (n : ℕ) → IsKnownBehind (I.meaning ident.now) c n at m)) }
    ensures wrong { IfSome (K.contents keeper.new) (λ c. IfErr result (λ e. IfDamage e (λ d. (n : ℕ) → IsWrong (I.meaning ident.now) c n at d))) }
    ensures failed { result ≡ Err StoreError.Failed → Rose (K.faults keeper.old) (K.faults keeper.new) }
{
    mtn_check_log::check_position(alloc, ident, keeper, at, memory)
}

/// As `mtn_check_log::bad`.
pub fn bad(alloc: Global, table: u8, key: &[u8], body: &[u8]) -> StoreError
    ensures damaged { IfDamage result (λ d. d ≡ Damage.Bad table key.now body.now) }
    ensures failed { result ≢ StoreError.Failed }
{
    mtn_check_log::bad(alloc, table, key, body)
}

/// As `mtn_check_log::undamaged`.
pub fn undamaged<T: Drop>(found: Result<T, StoreError>) -> Result<Option<T>, StoreError>
    ensures value { IfOk found (λ x. result ≡ Ok (Some x)) }
    ensures damaged { IfErr found (λ e. IfDamage e (λ _. result ≡ Ok None)) }
    ensures found { IfOk result (λ o. IfSome o (λ x. found ≡ Ok x)) }
    ensures sound { IfErr result (λ e. IfDamage e (λ _. ⊥)) }
    ensures failed { result ≡ Err StoreError.Failed → found ≡ Err StoreError.Failed }
    ensures failure { found ≡ Err StoreError.Failed → result ≡ Err StoreError.Failed }
    ensures memory { found ≡ Err StoreError.NoMemory → result ≡ Err StoreError.NoMemory }
{
    mtn_check_log::undamaged(found)
}

/// As `mtn_check_log::entry_at`.
pub fn entry_at<K: Keeper>(alloc: Global, keeper: &mut K, at: u64) -> Result<Entry, StoreError>
    ensures stays { Stays K.contents K.leaves K.faults keeper.old keeper.new }
    ensures found { IfSome (K.contents keeper.new) (λ c. IfOk result (λ e. IsEntryAt c at e.record e.body.items)) }
    ensures damaged { IfSome (K.contents keeper.new) (λ c. IfErr result (λ e. IfDamage e (UnloggedAt c at))) }
    ensures failed { result ≡ Err StoreError.Failed → Rose (K.faults keeper.old) (K.faults keeper.new) }
{
    mtn_check_log::entry_at(alloc, keeper, at)
}

/// As `mtn_check_log::record_of`.
pub fn record_of<K: Keeper>(
    alloc: Global,
    keeper: &mut K,
    at: u64,
    entry: &Entry,
) -> Result<Vec<u8>, StoreError>
    ensures stays { Stays K.contents K.leaves K.faults keeper.old keeper.new }
    ensures found { IfSome (K.contents keeper.new) (λ c. IfOk result (λ body. IsRecordOf c at entry.now.record.id.0 body.items)) }
    ensures damaged { IfSome (K.contents keeper.new) (λ c. IfErr result (λ e. IfDamage e (IsUntold c at entry.now.record.id.0 entry.now.body.items))) }
    ensures failed { result ≡ Err StoreError.Failed → Rose (K.faults keeper.old) (K.faults keeper.new) }
{
    mtn_check_log::record_of(alloc, keeper, at, entry)
}

/// As `mtn_check_log::text_in`.
pub fn text_in(at: u64, body: &[u8]) -> Option<&[u8]>
    ensures { MatchOption result ((text : List ℕ) → body.now ≡ number_text at ++ text → ⊥) (λ text. body.now ≡ number_text at ++ text.now) }
{
    mtn_check_log::text_in(at, body)
}

/// As `mtn_check_log::get_shown`.
pub fn get_shown<K: Keeper>(
    alloc: Global,
    keeper: &mut K,
    count: u64,
    table: u8,
    key: &[u8],
    out: &mut Vec<u8>,
) -> Result<bool, KeepError>
    ensures stays { Stays K.contents K.leaves K.faults keeper.old keeper.new }
    ensures found { IfSome (K.contents keeper.new) (λ c. IfOk result (λ found. IsBody (body_at (below count c) table key.now) found out.new.items)) }
    ensures failed { IsErrOf result KeepError.Failed → Rose (K.faults keeper.old) (K.faults keeper.new) }
{
    mtn_check_log::get_shown(alloc, keeper, count, table, key, out)
}

/// As `mtn_check_log::walk_from`.
pub fn walk_from<I: Ident, K: Keeper>(
    alloc: Global,
    ident: &I,
    keeper: &mut K,
    count: u64,
    from: u64,
    to: u64,
) -> Result<(), StoreError>
    requires walked { IfSome (K.contents keeper.old) (IsWalkedTo (I.meaning ident.now) count from) }
    requires within { (from ≤ to) × (to ≤ count) }
    ensures stays { Stays K.contents K.leaves K.faults keeper.old keeper.new }
    ensures walked { IfSome (K.contents keeper.new) (λ c. OnOk result (IsWalkedTo (I.meaning ident.now) count to c)) }
    ensures damaged { IfSome (K.contents keeper.new) (λ c. IfErr result (λ e. IfDamage e (IsFirstIn (I.meaning ident.now) count c))) }
    ensures failed { result ≡ Err StoreError.Failed → Rose (K.faults keeper.old) (K.faults keeper.new) }
{
    mtn_check_log::walk_from(alloc, ident, keeper, count, from, to)
}
