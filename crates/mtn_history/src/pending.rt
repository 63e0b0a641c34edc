// Records that wait for the keeper.
ghost use Rattle.std.specs.Prelude.{◌≡◌, ◌<◌, ◌≤◌, ◌+◌, ◌^◌, ◌++◌, [], true, false, length, take, Err, IfErr, IfOk, IfSome, IsSome, OnOk, OnErr};
ghost use Rattle.mtn_ports.specs.Causes.{Rose};
ghost use Rattle.mtn_ports.specs.Kept.{Stays};
ghost use Rattle.mtn_history.specs.Errors.{IfDamage};
ghost use Rattle.mtn_history.specs.Memory.{Knows};
ghost use Rattle.mtn_history.specs.Meta.{IsMetaOf, IsUnopened};
ghost use Rattle.mtn_history.specs.Records.{body_puts, meta_puts, record_puts};
ghost use Rattle.mtn_records.specs.Fields.{number_text};

use crate::memory::Memory;
use crate::meta::{Meta, read_meta};
use crate::texts::POSITION;
use crate::{HistoryError, LOG, META, ROSTERS, StoreError, TEXTS};
use mtn_base::{Bytes, Id, List, NoMemory};
use mtn_ports::{Batch, Keeper};
use std::alloc::Global;

/// Records that wait for a keeper, and the number of revisions of the state that both stand for.
/// `is_new` says that neither has a record: the first put brings both records of table 1.
#[derive(Drop)]
pub struct Pending {
    pub alloc: Global,
    pub batch: Batch,
    pub count: u64,
    pub is_new: bool,
}

impl Pending {
    ghost use Rattle.std.specs.Prelude.{List as Seq, ℕ, Some};
    ghost use Rattle.mtn_model.specs.Table.{Contents};
    ghost use Rattle.mtn_history.specs.Records.{revision_puts, with_revision};
    ghost use Rattle.mtn_model.specs.State.{State};
    ghost use Rattle.mtn_ports.specs.Kept.{Same};
    ghost use Rattle.mtn_history.specs.Stands.{Stands, Opens, WasTold, Finishes, FinishLeaves};

    /// The first half of beginning a draft: reads of table 1 what the keeper stands for, with nothing
    /// pending. A keeper without `count` is an empty store. A store of the older form is refused with OldStore, and no other. It
    /// asks the keeper for two records at most, and for none where these are remembered. A damage is one of table 1.
    pub fn open<K: Keeper>(
        alloc: Global,
        memory: &Memory,
        keeper: &mut K,
    ) -> Result<Pending, HistoryError>
        requires knows { IfSome (K.contents keeper.old) (Knows memory.now) }
        ensures stays { Stays K.contents K.leaves K.faults keeper.old keeper.new }
        ensures stands { (f : Seq ℕ → Seq ℕ) (c : Contents) (s : State) → K.contents keeper.new ≡ Some c → Stands f c s → Opens f c s result }
        ensures bare { IfOk result (λ p. p.batch ≡ []) }
        ensures counted { IfSome (K.contents keeper.new) (λ c. IfOk result (λ p. IsMetaOf c (record { count = p.count; is_new = p.is_new }))) }
        ensures unopened { IfSome (K.contents keeper.new) (λ c. IfErr result (IsUnopened c)) }
        ensures failed { result ≡ Err (HistoryError.Store StoreError.Failed) → Rose (K.faults keeper.old) (K.faults keeper.new) }
        ensures reads { K.reads keeper.new ≤ K.reads keeper.old + 2 }
        ensures remembered { IsSome memory.now.meta → K.reads keeper.new ≡ K.reads keeper.old }
    {
        let meta = meta_of(alloc, memory, keeper)?;
        Ok(Pending::new(alloc, meta))
    }

    /// Hands the pending records over, which are put all or none; where none are pending the keeper is not called.
    /// After an error the keeper's contents are as they were.
    pub fn finish<K: Keeper>(self, keeper: &mut K) -> Result<(), StoreError>
        ensures told { WasTold (K.contents keeper.old) (K.contents keeper.new) }
        ensures ok { OnOk result (Finishes self (K.contents keeper.old) (K.contents keeper.new)) }
        ensures err { OnErr result (Same (K.contents keeper.old) (K.contents keeper.new)) }
        ensures crash { FinishLeaves self (K.contents keeper.old) (K.contents keeper.new) (K.leaves keeper.old) (K.leaves keeper.new) }
        ensures later { K.faults keeper.old ≤ K.faults keeper.new }
        ensures failed { result ≡ Err StoreError.Failed → Rose (K.faults keeper.old) (K.faults keeper.new) }
        ensures damaged { IfErr result (λ e. IfDamage e (λ _. ⊥)) }
    {
        if self.batch.len() == 0 {
            return Ok(());
        }
        Ok(keeper.apply(self.batch)?)
    }

    fn new(alloc: Global, meta: Meta) -> Pending
        ensures batch { result.batch ≡ [] }
        ensures count { result.count ≡ meta.count }
        ensures is_new { result.is_new ≡ meta.is_new }
    {
        Pending {
            alloc,
            batch: Batch::new(alloc),
            count: meta.count,
            is_new: meta.is_new,
        }
    }

    /// Puts a record, behind both records of table 1 where there are none. An error leaves all as it was.
    pub fn put(&mut self, table: u8, key: &[u8], body: &[u8]) -> Result<(), NoMemory>
        requires { 0 < length key.now }
        ensures ok { OnOk result (self.new ≡ record self.old { batch = self.old.batch ++ record_puts self.old.is_new self.old.count table key.now body.now; is_new = false }) }
        ensures err { OnErr result (self.new ≡ self.old) }
    {
        let body = Bytes::from_slice(self.alloc, body)?;
        self.put_owned(table, key, body)
    }

    /// The same with a body that is handed over, which is not copied.
    pub fn put_owned(&mut self, table: u8, key: &[u8], body: Bytes) -> Result<(), NoMemory>
        requires { 0 < length key.now }
        ensures ok { OnOk result (self.new ≡ record self.old { batch = self.old.batch ++ record_puts self.old.is_new self.old.count table key.now body; is_new = false }) }
        ensures err { OnErr result (self.new ≡ self.old) }
    {
        let len = self.batch.len();
        let result = put_all(&mut self.batch, self.is_new, self.count, table, key, body);
        match result {
            Ok(()) => self.is_new = false,
            Err(_) => self.batch.cut(len),
        }
        result
    }

    /// Puts the records of one more revision, behind both records of table 1 where there are none: its text under its id,
    /// and under its position its record of the log and its roster's; then there is one more revision. An error leaves all
    /// as it was.
    pub fn put_revision(
        &mut self,
        id: Id,
        text: &[u8],
        log: Bytes,
        roster: Bytes,
    ) -> Result<(), NoMemory>
        requires { self.old.count < 2 ^ 63 }
        ensures ok { OnOk result (self.new ≡ with_revision self.old (record { id = id.0; text = text.now }) log roster) }
        ensures err { OnErr result (self.new ≡ self.old) }
    {
        let len = self.batch.len();
        let result = self.put_bodies(id, text, log, roster);
        match result {
            Ok(()) => {
                self.count += 1;
                self.is_new = false;
            }
            Err(NoMemory) => self.batch.cut(len),
        }
        result
    }

    // Puts the records. An error leaves some of them.
    fn put_bodies(&mut self, id: Id, text: &[u8], log: Bytes, roster: Bytes) -> Result<(), NoMemory>
        requires { self.old.count < 2 ^ 63 }
        ensures ok { OnOk result (self.new ≡ record self.old { batch = self.old.batch ++ (meta_puts self.old.is_new self.old.count ++ revision_puts self.old.count (record { id = id.0; text = text.now }) log roster) }) }
        ensures front { take (length self.old.batch) self.new.batch ≡ self.old.batch }
        ensures longer { length self.old.batch ≤ length self.new.batch }
        ensures rest { self.new ≡ record self.old { batch = self.new.batch } }
    {
        let text = placed_text(self.alloc, self.count, text)?;
        put_meta(&mut self.batch, self.is_new, self.count)?;
        put_records(&mut self.batch, self.count, id, text, log, roster)?;
        Ok(())
    }
}

// The bytes of a position, and a text.
fn placed_text(alloc: Global, at: u64, text: &[u8]) -> Result<Bytes, NoMemory>
    ensures { IfOk result (λ body. body ≡ number_text at ++ text.now) }
{
    let mut body = Vec::with_capacity(alloc, POSITION)?;
    body.extend_from_slice(&at.to_be_bytes())?;
    body.extend_from_slice(text)?;
    Ok(List::from_vec(body))
}

// Puts both records of table 1 where there are none. An error may leave one of them.
fn put_meta(batch: &mut Batch, is_new: bool, count: u64) -> Result<(), NoMemory>
    ensures ok { OnOk result (batch.new ≡ batch.old ++ meta_puts is_new count) }
    ensures front { take (length batch.old) batch.new ≡ batch.old }
    ensures longer { length batch.old ≤ length batch.new }
{
    if is_new {
        batch.put(META, b"count", &count.to_be_bytes())?;
        batch.put(META, b"version", b"2")?;
    }
    Ok(())
}

// Puts the records of the revision at a position, with the bodies of all three, and the count with it. An error leaves some of them.
fn put_records(
    batch: &mut Batch,
    at: u64,
    id: Id,
    text: Bytes,
    log: Bytes,
    roster: Bytes,
) -> Result<(), NoMemory>
    requires { at < 2 ^ 63 }
    ensures ok { OnOk result (batch.new ≡ batch.old ++ body_puts at id.0 text log roster) }
    ensures front { take (length batch.old) batch.new ≡ batch.old }
    ensures longer { length batch.old ≤ length batch.new }
{
    let key = at.to_be_bytes();
    batch.put_owned(TEXTS, id.as_slice(), text)?;
    batch.put_owned(LOG, &key, log)?;
    batch.put_owned(ROSTERS, &key, roster)?;
    batch.put(META, b"count", &(at + 1).to_be_bytes())?;
    Ok(())
}

// Puts a record, behind both of table 1 where there are none. An error may leave some of these.
fn put_all(
    batch: &mut Batch,
    is_new: bool,
    count: u64,
    table: u8,
    key: &[u8],
    body: Bytes,
) -> Result<(), NoMemory>
    requires { 0 < length key.now }
    ensures ok { OnOk result (batch.new ≡ batch.old ++ record_puts is_new count table key.now body) }
    ensures front { take (length batch.old) batch.new ≡ batch.old }
    ensures longer { length batch.old ≤ length batch.new }
{
    put_meta(batch, is_new, count)?;
    batch.put_owned(table, key, body)
}

// What table 1 says: remembered, or read.
fn meta_of<K: Keeper>(alloc: Global, memory: &Memory, keeper: &mut K) -> Result<Meta, HistoryError>
    requires knows { IfSome (K.contents keeper.old) (Knows memory.now) }
    ensures stays { Stays K.contents K.leaves K.faults keeper.old keeper.new }
    ensures meta { IfSome (K.contents keeper.new) (λ c. IfOk result (IsMetaOf c)) }
    ensures unopened { IfSome (K.contents keeper.new) (λ c. IfErr result (IsUnopened c)) }
    ensures failed { result ≡ Err (HistoryError.Store StoreError.Failed) → Rose (K.faults keeper.old) (K.faults keeper.new) }
    ensures reads { K.reads keeper.new ≤ K.reads keeper.old + 2 }
    ensures remembered { IsSome memory.now.meta → K.reads keeper.new ≡ K.reads keeper.old }
{
    match memory.meta() {
        Some(meta) => Ok(meta),
        None => read_meta(alloc, keeper),
    }
}
