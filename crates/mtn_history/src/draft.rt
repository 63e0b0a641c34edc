// A keeper with pending records.
ghost use Rattle.std.specs.Prelude.{◌≡◌, ◌<◌, ◌≤◌, ◌+◌, ◌^◌, ◌++◌, [], true, false, length, take, Ok, Err, Some, None, IfOk, IfErr, IfSome, IsSome, IsTrue, OnOk, OnErr, option_map};
ghost use Rattle.mtn_model.specs.Table.{Contents, body_at};
ghost use Rattle.mtn_ports.specs.Causes.{Rose};
ghost use Rattle.mtn_ports.specs.Kept.{AreKeyed, Gets, IsAbove, IsBody, IsBodyIf, IsNextKey, StaysAbove, TellsNextKey, TellsBody, over, with_all};
ghost use Rattle.mtn_history.specs.Asking.{HasTwenty, IsJustBelow, OnlyAsks, first_key};
ghost use Rattle.mtn_history.specs.Errors.{IfDamage};
ghost use Rattle.mtn_history.specs.Marked.{IsCounted};
ghost use Rattle.mtn_history.specs.Memory.{Knows};
ghost use Rattle.mtn_history.specs.Logs.{IsLogged};
ghost use Rattle.mtn_history.specs.Records.{is_beside, record_puts, with_revision};
ghost use Rattle.mtn_history.specs.Rosters.{Rebuilds};
ghost use Rattle.mtn_records.specs.Bounds.{IsLogWithin};

use crate::cache::Cache;
use crate::{Memory, Meta, Pending, Rebuilt, StoreError};
use mtn_ancestry::Pos;
use mtn_base::{Bytes, Id, NoMemory};
use mtn_ports::{Batch, Keeper};
use mtn_records::LogRecord;
use std::alloc::Global;
use std::marker::Model;
use std::rc::Rc;

/// A keeper with pending records. Its state is what both together stand for. It remembers the rosters of the revisions that
/// it read or accepted last, and the records of the log that a walk asked for: these are what the records say.
pub struct Draft<'a, K: Keeper> {
    keeper: &'a mut K,
    pending: Pending,
    cache: Cache,
}

impl<'a, K: Keeper> Model for Draft<'a, K> {
    ghost use Rattle.std.specs.Prelude.{IfSome};
    ghost use Rattle.mtn_history.specs.Drafts.{DraftValue};
    ghost use Rattle.mtn_history.specs.Cache.{AreRecalled};
    ghost use Rattle.mtn_history.specs.Marked.{IsCounted};
    ghost use Rattle.mtn_ports.specs.Kept.{with_all};

    ghost Value = { DraftValue K };

    ghost view = { λ d. record { keeper = record { now = d.keeper.now; ghost_name = d.keeper.ghost_name }; pending = d.pending } };

    ghost invariant = { λ d. IfSome (K.contents d.keeper.now) (λ c. AreRecalled (with_all c d.pending.batch) d.pending.count d.cache) × IfSome (K.contents d.keeper.now) (IsCounted d.pending) };
}

impl<'a, K: Keeper> Draft<'a, K> {
    /// A draft over the keeper that `Pending::open` read, and what is remembered of its records. It takes no memory.
    pub fn new(keeper: &'a mut K, pending: Pending, memory: Memory) -> Draft<'a, K>
        requires counted { IfSome (K.contents keeper.old) (IsCounted pending) }
        requires knows { IfSome (K.contents keeper.old) (λ c. Knows memory (with_all c pending.batch)) }
        ensures same_reference { result.keeper.ghost_name ≡ keeper.entry.ghost_name }
        ensures keeper { result.keeper.now ≡ keeper.old }
        ensures pending { result.pending ≡ pending }
    {
        let Memory { meta: _, cache } = memory;
        Draft {
            keeper,
            pending,
            cache,
        }
    }

    /// The keeper, what is pending, and what is remembered of both together. It takes no memory.
    pub fn into_parts(self) -> (&'a mut K, Pending, Memory)
        ensures same_reference { result.0.ghost_name ≡ self.entry.keeper.ghost_name }
        ensures keeper { result.0.now ≡ self.entry.keeper.now }
        ensures pending { result.1 ≡ self.entry.pending }
        ensures knows { IfSome (K.contents self.entry.keeper.now) (λ c. Knows result.2 (with_all c self.entry.pending.batch)) }
    {
        let Draft {
            keeper,
            pending,
            cache,
        } = self;
        let meta = Meta {
            count: pending.count,
            is_new: pending.is_new,
        };
        let memory = Memory {
            meta: Some(meta),
            cache,
        };
        (keeper, pending, memory)
    }

    /// Where memory is taken from.
    pub fn alloc(&self) -> Global {
        self.pending.alloc
    }

    /// Replaces `out` by the body under a key, of the pending records or else of the keeper's. After
    /// `false` or an error `out` may hold anything.
    pub fn get(&mut self, table: u8, key: &[u8], out: &mut Vec<u8>) -> Result<bool, StoreError>
        ensures asks { OnlyAsks K.contents K.leaves K.faults K.reads 1 self.old self.new }

        ensures found { IfSome (K.contents self.new.keeper.now) (λ c. IfOk result (λ found. IsBody (body_at (with_all c self.old.pending.batch) table key.now) found out.new.items)) }
        ensures failed { result ≡ Err StoreError.Failed → Rose (K.faults self.old.keeper.now) (K.faults self.new.keeper.now) }
        ensures damaged { IfErr result (λ e. IfDamage e (λ _. ⊥)) }
    {
        if let Some(body) = self.pending.batch.find(table, key) {
            out.clear();
            out.extend_from_slice(body)?;
            return Ok(true);
        }
        Ok(self.keeper.get(table, key, out)?)
    }

    /// Replaces `out` by the body under a key, of the keeper's records alone. After `false` or an error `out` may hold
    /// anything. The draft counts what its records tell, which is said here for a caller that asks behind an error.
    pub fn get_kept(&mut self, table: u8, key: &[u8], out: &mut Vec<u8>) -> Result<bool, StoreError>
        ensures asks { OnlyAsks K.contents K.leaves K.faults K.reads 1 self.old self.new }

        ensures found { Gets (K.contents self.new.keeper.now) table key.now result out.new.items }
        ensures counted { IfSome (K.contents self.new.keeper.now) (IsCounted self.new.pending) }
        ensures failed { result ≡ Err StoreError.Failed → Rose (K.faults self.old.keeper.now) (K.faults self.new.keeper.now) }
        ensures damaged { IfErr result (λ e. IfDamage e (λ _. ⊥)) }
    {
        Ok(self.keeper.get(table, key, out)?)
    }

    /// Replaces `key` by the least key of a table above `after` and `body` by the body under it, of the keeper's records
    /// alone, and answers `true`, or answers `false` where there is none. An empty `after` stands before all keys. After
    /// `false` or an error both may hold anything.
    pub fn next_kept(
        &mut self,
        table: u8,
        after: &[u8],
        key: &mut Vec<u8>,
        body: &mut Vec<u8>,
    ) -> Result<bool, StoreError>
        ensures asks { OnlyAsks K.contents K.leaves K.faults K.reads 1 self.old self.new }

        ensures found { TellsNextKey (K.contents self.new.keeper.now) table after.now result key.new.items }
        ensures told { TellsBody (K.contents self.new.keeper.now) table result key.new.items body.new.items }
        ensures keyed { OnOk result (IfSome (K.contents self.new.keeper.now) AreKeyed) }
        ensures failed { result ≡ Err StoreError.Failed → Rose (K.faults self.old.keeper.now) (K.faults self.new.keeper.now) }
        ensures damaged { IfErr result (λ e. IfDamage e (λ _. ⊥)) }
    {
        Ok(self.keeper.next_record(table, after, key, body)?)
    }

    /// Whether a record is pending under a key.
    pub(crate) fn is_pending(&self, table: u8, key: &[u8]) -> bool
        ensures there { (c : Contents) → IsTrue result → IsSome (body_at (with_all c self.now.pending.batch) table key.now) }
        ensures not_there { (c : Contents) → result ≡ false → body_at (with_all c self.now.pending.batch) table key.now ≡ body_at c table key.now }
    {
        self.pending.batch.find(table, key).is_some()
    }

    /// Whether the record that follows in a table just below a key of twenty bytes is that of the key. Its body is not read.
    pub(crate) fn follows(&mut self, table: u8, key: &[u8; 20]) -> Result<bool, StoreError>
        ensures asks { OnlyAsks K.contents K.leaves K.faults K.reads 1 self.old self.new }

        ensures found { IfSome (K.contents self.new.keeper.now) (λ c. IfOk result (λ found. IsTrue found → IsSome (body_at c table key.now))) }
        ensures missed { IfSome (K.contents self.new.keeper.now) (λ c. HasTwenty c table → result ≡ Ok false → body_at c table key.now ≡ None) }
        ensures failed { result ≡ Err StoreError.Failed → Rose (K.faults self.old.keeper.now) (K.faults self.new.keeper.now) }
        ensures damaged { IfErr result (λ e. IfDamage e (λ _. ⊥)) }
    {
        let (below, len) = just_below(key);
        let mut next = Vec::new(self.alloc());
        if !self.keeper.next(table, &below[..len], &mut next)? {
            return Ok(false);
        }
        Ok(next.as_slice() == key.as_slice())
    }

    /// Replaces `key` by the least key of a table above `after`, of the pending records and the keeper's, and `body` by the body
    /// under it, and answers `true`, or answers `false` where there is none. An empty `after` stands before all keys. After
    /// `false` or an error `key` and `body` may hold anything. It asks the keeper once.
    pub fn next_record(
        &mut self,
        table: u8,
        after: &[u8],
        key: &mut Vec<u8>,
        body: &mut Vec<u8>,
    ) -> Result<bool, StoreError>
        ensures asks { OnlyAsks K.contents K.leaves K.faults K.reads 1 self.old self.new }

        ensures found { IfSome (K.contents self.new.keeper.now) (λ c. IfOk result (λ found. IsNextKey (with_all c self.old.pending.batch) table after.now found key.new.items)) }
        ensures told { IfSome (K.contents self.new.keeper.now) (λ c. IfOk result (λ found. IsBodyIf (with_all c self.old.pending.batch) table found key.new.items body.new.items)) }
        ensures above { StaysAbove after.now result key.new.items }
        ensures failed { result ≡ Err StoreError.Failed → Rose (K.faults self.old.keeper.now) (K.faults self.new.keeper.now) }
        ensures damaged { IfErr result (λ e. IfDamage e (λ _. ⊥)) }
    {
        let found = self.keeper.next_record(table, after, key, body)?;
        let Some(least) = self.pending.batch.least_above(table, after)? else {
            return Ok(found);
        };
        take_first(found, key, least)?;
        take_body(body, self.pending.batch.find(table, key))?;
        Ok(true)
    }

    /// Puts a record of a file, a key name or a certificate, behind both records of table 1 where there are none. An error
    /// leaves all as it was.
    pub fn keep(&mut self, table: u8, key: &[u8], body: &[u8]) -> Result<(), NoMemory>
        requires beside { is_beside table ≡ true }
        requires keyed { 0 < length key.now }
        ensures keeper { self.new.keeper ≡ self.old.keeper }
        ensures ok { OnOk result (self.new.pending ≡ record self.old.pending { batch = self.old.pending.batch ++ record_puts self.old.pending.is_new self.old.pending.count table key.now body.now; is_new = false }) }
        ensures err { OnErr result (self.new.pending ≡ self.old.pending) }
    {
        self.pending.put(table, key, body)
    }

    /// The same with a body that is handed over, which is not copied.
    pub fn keep_owned(&mut self, table: u8, key: &[u8], body: Bytes) -> Result<(), NoMemory>
        requires beside { is_beside table ≡ true }
        requires keyed { 0 < length key.now }
        ensures keeper { self.new.keeper ≡ self.old.keeper }
        ensures ok { OnOk result (self.new.pending ≡ record self.old.pending { batch = self.old.pending.batch ++ record_puts self.old.pending.is_new self.old.pending.count table key.now body; is_new = false }) }
        ensures err { OnErr result (self.new.pending ≡ self.old.pending) }
    {
        self.pending.put_owned(table, key, body)
    }

    /// Puts the records of one more revision, behind both records of table 1 where there are none: its text under its id,
    /// and under its position its record of the log and its roster's; then there is one more revision. An error leaves all
    /// as it was.
    pub fn keep_revision(
        &mut self,
        id: Id,
        text: &[u8],
        log: Bytes,
        roster: Bytes,
        rebuilt: Rebuilt,
    ) -> Result<(), NoMemory>
        requires room { self.old.pending.count < 2 ^ 63 }
        requires right { IfSome (K.contents self.old.keeper.now) (λ c. Rebuilds (with_all c (with_revision self.old.pending (record { id = id.0; text = text.now }) log roster).batch) self.old.pending.count rebuilt) }
        ensures keeper { self.new.keeper ≡ self.old.keeper }
        ensures ok { OnOk result (self.new.pending ≡ with_revision self.old.pending (record { id = id.0; text = text.now }) log roster) }
        ensures err { OnErr result (self.new.pending ≡ self.old.pending) }
    {
        let at = Pos(self.pending.count);
        self.pending.put_revision(id, text, log, roster)?;
        if let Ok(rebuilt) = Rc::new(self.pending.alloc, rebuilt) {
            self.cache.add_roster(at, rebuilt);
        }
        Ok(())
    }

    /// The roster of the revision at a position, if it is remembered. It asks for no record.
    pub(crate) fn recall(&self, at: Pos) -> Result<Option<Rc<Rebuilt>>, NoMemory>
        ensures { IfSome (K.contents self.now.keeper.now) (λ c. IfOk result (λ found. IfSome found (λ r. Rebuilds (with_all c self.now.pending.batch) at r.value))) }
    {
        self.cache.roster(at)
    }

    /// Remembers a roster, as its records give it.
    pub(crate) fn remember(&mut self, at: Pos, rebuilt: Rc<Rebuilt>)
        requires below { at < self.old.pending.count }
        requires right { IfSome (K.contents self.old.keeper.now) (λ c. Rebuilds (with_all c self.old.pending.batch) at rebuilt.value) }
        ensures keeper { self.new.keeper ≡ self.old.keeper }
        ensures pending { self.new.pending ≡ self.old.pending }
    {
        self.cache.add_roster(at, rebuilt);
    }

    /// The log's record at a position, if it is remembered. It asks for no record.
    pub(crate) fn recall_log(&self, at: Pos) -> Option<LogRecord>
        ensures right { IfSome (K.contents self.now.keeper.now) (λ c. IfSome result (IsLogged (with_all c self.now.pending.batch) at)) }
        ensures within { IfSome result (IsLogWithin at) }
    {
        self.cache.log(at)
    }

    /// Remembers the log's record at a position, for `log_at`: one that was read, or that of a revision which was just put.
    pub fn remember_log(&mut self, at: Pos, log: &LogRecord)
        requires below { at < self.old.pending.count }
        requires right { IfSome (K.contents self.old.keeper.now) (λ c. IsLogged (with_all c self.old.pending.batch) at log.now) }
        ensures keeper { self.new.keeper ≡ self.old.keeper }
        ensures pending { self.new.pending ≡ self.old.pending }
    {
        self.cache.add_log(at, log);
    }

    /// What is pending where nothing is: to go back to by [`Draft::restore`]. It takes no memory.
    pub fn nothing_pending(&self) -> Pending
        requires bare { self.now.pending.batch ≡ [] }
        ensures same { result ≡ self.now.pending }
        ensures counted { IfSome (K.contents self.now.keeper.now) (IsCounted result) }
    {
        Pending {
            alloc: self.pending.alloc,
            batch: Batch::new(self.pending.alloc),
            count: self.pending.count,
            is_new: self.pending.is_new,
        }
    }

    /// Goes back to what was pending before. What is pending is given up, and all that is remembered. It takes no memory.
    pub fn restore(&mut self, pending: Pending)
        requires counted { IfSome (K.contents self.old.keeper.now) (IsCounted pending) }
        ensures keeper { self.new.keeper ≡ self.old.keeper }
        ensures pending { self.new.pending ≡ pending }
    {
        self.cache = Cache::new(pending.alloc);
        self.pending = pending;
    }

    /// The number of revisions. It takes no memory.
    pub fn count(&self) -> u64
        ensures { result ≡ self.now.pending.count }
    {
        self.pending.count
    }
}

// Replaces the key that a keeper gave, if it gave one, by a pending one that is less.
fn take_first(found: bool, key: &mut Vec<u8>, pending: &[u8]) -> Result<(), NoMemory>
    ensures { OnOk result (key.new.items ≡ first_key found key.old.items pending.now) }
{
    if found && !pending.cmp(key.as_slice()).is_lt() {
        return Ok(());
    }
    key.clear();
    key.extend_from_slice(pending)?;
    Ok(())
}

// Replaces the body that a keeper gave by a pending one, if there is one.
fn take_body(body: &mut Vec<u8>, pending: Option<&[u8]>) -> Result<(), NoMemory>
    ensures { OnOk result (Some body.new.items ≡ over (option_map (λ b. b.now) pending.entry) (Some body.old.items)) }
{
    if let Some(pending) = pending {
        body.clear();
        body.extend_from_slice(pending)?;
    }
    Ok(())
}

/// What stands just below a key of twenty bytes among keys of twenty, and how many of these bytes it has: no key of twenty bytes
/// stands between both.
pub fn just_below(key: &[u8; 20]) -> ([u8; 20], usize)
    ensures some { 0 < result.1 }
    ensures short { result.1 ≤ 20 }
    ensures above { IsAbove (take result.1 result.0) key.now }
    ensures next { IsJustBelow (take result.1 result.0) key.now }
{
    let mut below = *key;
    if below[19] == 0 {
        return (below, 19);
    }
    below[19] -= 1;
    (below, 20)
}
