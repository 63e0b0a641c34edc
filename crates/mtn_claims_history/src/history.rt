//! Drafts: records read and kept, and what is remembered.
ghost use Rattle.std.specs.Prelude.{[], ◌++◌, ◌+◌, ◌<◌, ◌^◌, ◌≡◌, ◌≤◌, Err, IfErr, IfOk, IfSome, IsTrue, List, OnErr, OnOk, Some, false, length, take, true, ℕ};
ghost use Rattle.mtn_history.specs.Asking.{IsJustBelow, OnlyAsks};
ghost use Rattle.mtn_history.specs.Errors.{IfDamage, IfStoreDamage};
ghost use Rattle.mtn_history.specs.Files.{IsFileHeld, KeepsFile};
ghost use Rattle.mtn_history.specs.Logs.{IsHeldAt, IsLogged, UnloggedAt};
ghost use Rattle.mtn_history.specs.Marked.{IsCounted};
ghost use Rattle.mtn_history.specs.Memory.{Knows};
ghost use Rattle.mtn_history.specs.Records.{is_beside, record_puts, with_revision};
ghost use Rattle.mtn_history.specs.Rosters.{IsRosterHeld, Rebuilds};
ghost use Rattle.mtn_history.specs.Stands.{IsDraft, IsFounded};
ghost use Rattle.mtn_history_laws.specs.History.{IsPlaceOf};
ghost use Rattle.mtn_model.specs.State.{State};
ghost use Rattle.mtn_model.specs.Table.{Contents, body_at};
ghost use Rattle.mtn_ports.specs.Causes.{Rose};
ghost use Rattle.mtn_ports.specs.Ident.{MakesIds};
ghost use Rattle.mtn_ports.specs.Kept.{AreKeyed, Gets, IsAbove, IsBody, IsBodyIf, IsNextKey, Stays, StaysAbove, TellsBody, TellsNextKey, with_all};
ghost use Rattle.mtn_records.specs.Bounds.{IsLogWithin};

use mtn_ancestry::Pos;
use mtn_base::{Bytes, Id, NoMemory};
use mtn_history::{Draft, HistoryError, Memory, Pending, Rebuilt, SharedRoster, StoreError};
use mtn_marking::MarkedRoster;
use mtn_ports::Keeper;
use mtn_records::LogRecord;
use std::alloc::Global;

/// As `just_below`.
pub fn just_below(key: &[u8; 20]) -> ([u8; 20], usize)
    ensures some { 0 < result.1 }
    ensures short { result.1 ≤ 20 }
    ensures above { IsAbove (take result.1 result.0) key.now }
    ensures next { IsJustBelow (take result.1 result.0) key.now }
{
    mtn_history::just_below(key)
}

/// As `Draft::new`.
pub fn new_draft<'a, K: Keeper>(keeper: &'a mut K, pending: Pending, memory: Memory) -> Draft<'a, K>
    requires counted { IfSome (K.contents keeper.old) (IsCounted pending) }
    requires knows { IfSome (K.contents keeper.old) (λ c. Knows memory (with_all c pending.batch)) }
    ensures same_reference { result.keeper.ghost_name ≡ keeper.entry.ghost_name }
    ensures keeper { result.keeper.now ≡ keeper.old }
    ensures pending { result.pending ≡ pending }
{
    Draft::new(keeper, pending, memory)
}

/// As `Draft::into_parts`.
pub fn into_parts<'a, K: Keeper>(draft: Draft<'a, K>) -> (&'a mut K, Pending, Memory)
    ensures same_reference { result.0.ghost_name ≡ draft.entry.keeper.ghost_name }
    ensures keeper { result.0.now ≡ draft.entry.keeper.now }
    ensures pending { result.1 ≡ draft.entry.pending }
    ensures knows { IfSome (K.contents draft.entry.keeper.now) (λ c. Knows result.2 (with_all c draft.entry.pending.batch)) }
{
    draft.into_parts()
}

/// As `Draft::get`.
pub fn get<K: Keeper>(
    draft: &mut Draft<'_, K>,
    table: u8,
    key: &[u8],
    out: &mut Vec<u8>,
) -> Result<bool, StoreError>
    ensures asks { OnlyAsks K.contents K.leaves K.faults K.reads 1 draft.old draft.new }

    ensures found { IfSome (K.contents draft.new.keeper.now) (λ c. IfOk result (λ found. IsBody (body_at (with_all c draft.old.pending.batch) table key.now) found out.new.items)) }
    ensures failed { result ≡ Err StoreError.Failed → Rose (K.faults draft.old.keeper.now) (K.faults draft.new.keeper.now) }
    ensures damaged { IfErr result (λ e. IfDamage e (λ _. ⊥)) }
{
    draft.get(table, key, out)
}

/// As `Draft::get_kept`.
pub fn get_kept<K: Keeper>(
    draft: &mut Draft<'_, K>,
    table: u8,
    key: &[u8],
    out: &mut Vec<u8>,
) -> Result<bool, StoreError>
    ensures asks { OnlyAsks K.contents K.leaves K.faults K.reads 1 draft.old draft.new }

    ensures found { Gets (K.contents draft.new.keeper.now) table key.now result out.new.items }
    ensures counted { IfSome (K.contents draft.new.keeper.now) (IsCounted draft.new.pending) }
    ensures failed { result ≡ Err StoreError.Failed → Rose (K.faults draft.old.keeper.now) (K.faults draft.new.keeper.now) }
    ensures damaged { IfErr result (λ e. IfDamage e (λ _. ⊥)) }
{
    draft.get_kept(table, key, out)
}

/// As `Draft::next_kept`.
pub fn next_kept<K: Keeper>(
    draft: &mut Draft<'_, K>,
    table: u8,
    after: &[u8],
    key: &mut Vec<u8>,
    body: &mut Vec<u8>,
) -> Result<bool, StoreError>
    ensures asks { OnlyAsks K.contents K.leaves K.faults K.reads 1 draft.old draft.new }

    ensures found { TellsNextKey (K.contents draft.new.keeper.now) table after.now result key.new.items }
    ensures told { TellsBody (K.contents draft.new.keeper.now) table result key.new.items body.new.items }
    ensures keyed { OnOk result (IfSome (K.contents draft.new.keeper.now) AreKeyed) }
    ensures failed { result ≡ Err StoreError.Failed → Rose (K.faults draft.old.keeper.now) (K.faults draft.new.keeper.now) }
    ensures damaged { IfErr result (λ e. IfDamage e (λ _. ⊥)) }
{
    draft.next_kept(table, after, key, body)
}

/// As `Draft::next_record`.
pub fn next_record<K: Keeper>(
    draft: &mut Draft<'_, K>,
    table: u8,
    after: &[u8],
    key: &mut Vec<u8>,
    body: &mut Vec<u8>,
) -> Result<bool, StoreError>
    ensures asks { OnlyAsks K.contents K.leaves K.faults K.reads 1 draft.old draft.new }

    ensures found { IfSome (K.contents draft.new.keeper.now) (λ c. IfOk result (λ found. IsNextKey (with_all c draft.old.pending.batch) table after.now found key.new.items)) }
    ensures told { IfSome (K.contents draft.new.keeper.now) (λ c. IfOk result (λ found. IsBodyIf (with_all c draft.old.pending.batch) table found key.new.items body.new.items)) }
    ensures above { StaysAbove after.now result key.new.items }
    ensures failed { result ≡ Err StoreError.Failed → Rose (K.faults draft.old.keeper.now) (K.faults draft.new.keeper.now) }
    ensures damaged { IfErr result (λ e. IfDamage e (λ _. ⊥)) }
{
    draft.next_record(table, after, key, body)
}

/// As `Draft::keep`.
pub fn keep<K: Keeper>(
    draft: &mut Draft<'_, K>,
    table: u8,
    key: &[u8],
    body: &[u8],
) -> Result<(), NoMemory>
    requires beside { is_beside table ≡ true }
    requires keyed { 0 < length key.now }
    ensures keeper { draft.new.keeper ≡ draft.old.keeper }
    ensures ok { OnOk result (draft.new.pending ≡ record draft.old.pending { batch = draft.old.pending.batch ++ record_puts draft.old.pending.is_new draft.old.pending.count table key.now body.now; is_new = false }) }
    ensures err { OnErr result (draft.new.pending ≡ draft.old.pending) }
{
    draft.keep(table, key, body)
}

/// As `Draft::keep_owned`.
pub fn keep_owned<K: Keeper>(
    draft: &mut Draft<'_, K>,
    table: u8,
    key: &[u8],
    body: Bytes,
) -> Result<(), NoMemory>
    requires beside { is_beside table ≡ true }
    requires keyed { 0 < length key.now }
    ensures keeper { draft.new.keeper ≡ draft.old.keeper }
    ensures ok { OnOk result (draft.new.pending ≡ record draft.old.pending { batch = draft.old.pending.batch ++ record_puts draft.old.pending.is_new draft.old.pending.count table key.now body; is_new = false }) }
    ensures err { OnErr result (draft.new.pending ≡ draft.old.pending) }
{
    draft.keep_owned(table, key, body)
}

/// As `Draft::keep_revision`.
pub fn keep_revision<K: Keeper>(
    draft: &mut Draft<'_, K>,
    id: Id,
    text: &[u8],
    log: Bytes,
    roster: Bytes,
    rebuilt: Rebuilt,
) -> Result<(), NoMemory>
    requires room { draft.old.pending.count < 2 ^ 63 }
    requires right { IfSome (K.contents draft.old.keeper.now) (λ c. Rebuilds (with_all c (with_revision draft.old.pending (record { id = id.0; text = text.now }) log roster).batch) draft.old.pending.count rebuilt) }
    ensures keeper { draft.new.keeper ≡ draft.old.keeper }
    ensures ok { OnOk result (draft.new.pending ≡ with_revision draft.old.pending (record { id = id.0; text = text.now }) log roster) }
    ensures err { OnErr result (draft.new.pending ≡ draft.old.pending) }
{
    draft.keep_revision(id, text, log, roster, rebuilt)
}

/// As `Draft::remember_log`.
pub fn remember_log<K: Keeper>(draft: &mut Draft<'_, K>, at: Pos, log: &LogRecord)
    requires below { at < draft.old.pending.count }
    requires right { IfSome (K.contents draft.old.keeper.now) (λ c. IsLogged (with_all c draft.old.pending.batch) at log.now) }
    ensures keeper { draft.new.keeper ≡ draft.old.keeper }
    ensures pending { draft.new.pending ≡ draft.old.pending }
{
    draft.remember_log(at, log);
}

/// As `Draft::nothing_pending`.
pub fn nothing_pending<K: Keeper>(draft: &Draft<'_, K>) -> Pending
    requires bare { draft.now.pending.batch ≡ [] }
    ensures same { result ≡ draft.now.pending }
    ensures counted { IfSome (K.contents draft.now.keeper.now) (IsCounted result) }
{
    draft.nothing_pending()
}

/// As `Draft::restore`.
pub fn restore<K: Keeper>(draft: &mut Draft<'_, K>, pending: Pending)
    requires counted { IfSome (K.contents draft.old.keeper.now) (IsCounted pending) }
    ensures keeper { draft.new.keeper ≡ draft.old.keeper }
    ensures pending { draft.new.pending ≡ pending }
{
    draft.restore(pending)
}

/// As `Draft::count`.
pub fn count<K: Keeper>(draft: &Draft<'_, K>) -> u64
    ensures { result ≡ draft.now.pending.count }
{
    draft.count()
}

/// As `Draft::has_file`.
pub fn has_file<K: Keeper>(draft: &mut Draft<'_, K>, id: Id) -> Result<bool, StoreError>
    ensures asks { OnlyAsks K.contents K.leaves K.faults K.reads 2 draft.old draft.new }

    ensures found { IfSome (K.contents draft.new.keeper.now) (λ c. IfOk result (IsFileHeld (with_all c draft.old.pending.batch) id)) }
    ensures few { (f : List ℕ → List ℕ) (s : State) → IsFounded f (K.contents draft.new.keeper.now) draft.old.pending s → MakesIds f
        → IfOk result (λ held. IsTrue held → K.reads draft.new.keeper.now ≤ K.reads draft.old.keeper.now + 1) }
    ensures failed { result ≡ Err StoreError.Failed → Rose (K.faults draft.old.keeper.now) (K.faults draft.new.keeper.now) }
    ensures sound { IfErr result (λ e. IfDamage e (λ _. ⊥)) }
{
    draft.has_file(id)
}

/// As `Draft::put_file_as`.
pub fn put_file_as<K: Keeper>(
    draft: &mut Draft<'_, K>,
    id: Id,
    bytes: Bytes,
) -> Result<(), HistoryError>
    ensures same_reference { draft.new.keeper.ghost_name ≡ draft.old.keeper.ghost_name }
    ensures stays { Stays K.contents K.leaves K.faults draft.old.keeper.now draft.new.keeper.now }
    ensures accepts { (f : List ℕ → List ℕ) (c : Contents) (s : State) → K.contents draft.new.keeper.now ≡ Some c → IsDraft f c draft.old.pending s
        → id.0 ≡ f bytes → KeepsFile f c s bytes result draft.new.pending }
    ensures err { OnErr result (draft.new.pending ≡ draft.old.pending) }
    ensures sound { IfErr result (λ e. IfStoreDamage e (λ _. ⊥)) }
    ensures failed { result ≡ Err (HistoryError.Store StoreError.Failed) → Rose (K.faults draft.old.keeper.now) (K.faults draft.new.keeper.now) }
    ensures reads { K.reads draft.new.keeper.now ≤ K.reads draft.old.keeper.now + 1 }
{
    draft.put_file_as(id, bytes)
}

/// As `Draft::logged`.
pub fn logged<K: Keeper>(draft: &mut Draft<'_, K>, at: Pos) -> Result<LogRecord, StoreError>
    ensures asks { OnlyAsks K.contents K.leaves K.faults K.reads 1 draft.old draft.new }

    ensures read { IfSome (K.contents draft.new.keeper.now) (λ c. IfOk result (IsLogged (with_all c draft.old.pending.batch) at)) }
    ensures below { IfOk result (IsLogWithin at) }
    ensures damaged { IfSome (K.contents draft.new.keeper.now) (λ c. IfErr result (λ e. IfDamage e (UnloggedAt (with_all c draft.old.pending.batch) at))) }
    ensures failed { result ≡ Err StoreError.Failed → Rose (K.faults draft.old.keeper.now) (K.faults draft.new.keeper.now) }
{
    draft.logged(at)
}

/// As `Draft::recall_id`.
pub fn recall_id<K: Keeper>(draft: &Draft<'_, K>, at: Pos) -> Option<Id>
    ensures found { (f : List ℕ → List ℕ) (s : State) (d : IsFounded f (K.contents draft.now.keeper.now) draft.now.pending s) → at < draft.now.pending.count
        → IfSome result (λ id. IsPlaceOf d.stands.history id at) }
{
    draft.recall_id(at)
}

/// As `Draft::log_held`.
pub fn log_held<K: Keeper>(draft: &mut Draft<'_, K>, at: Pos) -> StoreError
    ensures asks { OnlyAsks K.contents K.leaves K.faults K.reads 1 draft.old draft.new }

    ensures damaged { IfSome (K.contents draft.new.keeper.now) (λ c. IfDamage result (IsHeldAt (with_all c draft.old.pending.batch) at)) }
    ensures failed { result ≡ StoreError.Failed → Rose (K.faults draft.old.keeper.now) (K.faults draft.new.keeper.now) }
{
    draft.log_held(at)
}

/// As `SharedRoster::marked`.
pub fn marked(shared: &SharedRoster) -> &MarkedRoster
    ensures { result.now ≡ shared.now }
{
    shared.marked()
}

/// As `Memory::new`.
pub fn new_memory(alloc: Global) -> Memory
    ensures { (c : Contents) → Knows result c }
{
    Memory::new(alloc)
}

/// As `Draft::roster_held`.
pub fn roster_held<K: Keeper>(draft: &mut Draft<'_, K>, at: Pos) -> StoreError
    ensures asks { OnlyAsks K.contents K.leaves K.faults K.reads 1 draft.old draft.new }

    ensures damaged { IfSome (K.contents draft.new.keeper.now) (λ c. IfDamage result (IsRosterHeld (with_all c draft.old.pending.batch) at)) }
    ensures failed { result ≡ StoreError.Failed → Rose (K.faults draft.old.keeper.now) (K.faults draft.new.keeper.now) }
{
    draft.roster_held(at)
}
