//! How a draft begins and ends: the calls of `mtn_history::Pending`.
ghost use Rattle.std.specs.Prelude.{◌≡◌, ◌<◌, ◌≤◌, ◌+◌, ◌++◌, ◌^◌, [], List as Seq, ℕ, Some, Err, length, IfErr, IfOk, IfSome, IsSome, OnOk, OnErr, false};
ghost use Rattle.mtn_model.specs.State.{State};
ghost use Rattle.mtn_model.specs.Table.{Contents};
ghost use Rattle.mtn_ports.specs.Causes.{Rose};
ghost use Rattle.mtn_ports.specs.Kept.{Same, Stays};
ghost use Rattle.mtn_history.specs.Errors.{IfDamage};
ghost use Rattle.mtn_history.specs.Memory.{Knows};
ghost use Rattle.mtn_history.specs.Meta.{IsMetaOf, IsUnopened};
ghost use Rattle.mtn_history.specs.Records.{record_puts, with_revision};
ghost use Rattle.mtn_history.specs.Stands.{FinishLeaves, Finishes, Opens, Stands, WasTold};

use mtn_base::{Bytes, Id, NoMemory};
use mtn_history::{HistoryError, Memory, Pending, StoreError};
use mtn_ports::Keeper;
use std::alloc::Global;

/// `Pending::open`.
pub fn open<K: Keeper>(
    alloc: Global,
    memory: &Memory,
    keeper: &mut K,
) -> Result<Pending, HistoryError>
    requires knows { IfSome (K.contents keeper.old) (Knows memory.now) }
    ensures stays { Stays K.contents K.leaves K.faults keeper.old keeper.new }
    ensures stands { (f : Seq ℕ → Seq ℕ) (c : Contents) (s : State) → K.contents keeper.new ≡ Some c → Stands f c s → Opens f c s result }
    ensures bare { IfOk result (λ p. p.batch ≡ []) }
    ensures counted { IfSome (K.contents keeper.new) (λ c. IfOk result (λ p. IsMetaOf c (record { count = p.count; is_new = p.is_new }))) }
    ensures unopened { IfSome (K.contents keeper.new) (λ c. IfErr result (IsUnopened c)) }
    ensures failed { result ≡ Err (HistoryError.Store StoreError.Failed) → Rose (K.faults keeper.old) (K.faults keeper.new) }
    ensures reads { K.reads keeper.new ≤ K.reads keeper.old + 2 }
    ensures remembered { IsSome memory.now.meta → K.reads keeper.new ≡ K.reads keeper.old }
{
    Pending::open(alloc, memory, keeper)
}

/// `Pending::finish`.
pub fn finish<K: Keeper>(pending: Pending, keeper: &mut K) -> Result<(), StoreError>
    ensures told { WasTold (K.contents keeper.old) (K.contents keeper.new) }
    ensures ok { OnOk result (Finishes pending (K.contents keeper.old) (K.contents keeper.new)) }
    ensures err { OnErr result (Same (K.contents keeper.old) (K.contents keeper.new)) }
    ensures crash { FinishLeaves pending (K.contents keeper.old) (K.contents keeper.new) (K.leaves keeper.old) (K.leaves keeper.new) }
    ensures later { K.faults keeper.old ≤ K.faults keeper.new }
    ensures failed { result ≡ Err StoreError.Failed → Rose (K.faults keeper.old) (K.faults keeper.new) }
    ensures damaged { IfErr result (λ e. IfDamage e (λ _. ⊥)) }
{
    pending.finish(keeper)
}

/// `Pending::put`.
pub fn put(pending: &mut Pending, table: u8, key: &[u8], body: &[u8]) -> Result<(), NoMemory>
    requires { 0 < length key.now }
    ensures ok { OnOk result (pending.new ≡ record pending.old { batch = pending.old.batch ++ record_puts pending.old.is_new pending.old.count table key.now body.now; is_new = false }) }
    ensures err { OnErr result (pending.new ≡ pending.old) }
{
    pending.put(table, key, body)
}

/// `Pending::put_owned`.
pub fn put_owned(pending: &mut Pending, table: u8, key: &[u8], body: Bytes) -> Result<(), NoMemory>
    requires { 0 < length key.now }
    ensures ok { OnOk result (pending.new ≡ record pending.old { batch = pending.old.batch ++ record_puts pending.old.is_new pending.old.count table key.now body; is_new = false }) }
    ensures err { OnErr result (pending.new ≡ pending.old) }
{
    pending.put_owned(table, key, body)
}

/// `Pending::put_revision`.
pub fn put_records(
    pending: &mut Pending,
    id: Id,
    text: &[u8],
    log: Bytes,
    roster: Bytes,
) -> Result<(), NoMemory>
    requires { pending.old.count < 2 ^ 63 }
    ensures ok { OnOk result (pending.new ≡ with_revision pending.old (record { id = id.0; text = text.now }) log roster) }
    ensures err { OnErr result (pending.new ≡ pending.old) }
{
    pending.put_revision(id, text, log, roster)
}
