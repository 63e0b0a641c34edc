// One position of the log, checked.
ghost use Rattle.std.specs.Prelude.{◌≡◌, ℕ, Err, IfErr, IfOk, IfSome, OnOk};
ghost use Rattle.mtn_ports.specs.Causes.{Rose};
ghost use Rattle.mtn_ports.specs.Kept.{Stays};
ghost use Rattle.mtn_history.specs.Errors.{IfDamage};
ghost use Rattle.mtn_history.specs.Memory.{Knows};
ghost use Rattle.mtn_check_log.specs.Below.{below};
ghost use Rattle.mtn_check_log.specs.Positions.{IsEntryAt, IsKnownBehind, IsOtherAt, IsRecordOf, IsRight, IsSameAt, IsTextOf, IsWrong};

use crate::again::due_at;
use crate::damaged::{bad, missing};
use crate::due::Due;
use crate::entry::{Entry, entry_at, record_of, text_in};
use mtn_history::{LOG, Memory, ROSTERS, StoreError, TEXTS};
use mtn_ports::{Ident, Keeper};
use std::alloc::Global;

// What is remembered with the records that are due, where those of a position are these.
fn compare<K: Keeper>(
    alloc: Global,
    keeper: &mut K,
    at: u64,
    log: &[u8],
    due: Due,
) -> Result<Memory, StoreError>
    ensures stays { Stays K.contents K.leaves K.faults keeper.old keeper.new }
    ensures same { IfSome (K.contents keeper.new) (λ c. OnOk result (IsSameAt c at log.now due.records)) }
    ensures memory { IfOk result (λ m. m ≡ due.memory) }
    ensures damaged { IfSome (K.contents keeper.new) (λ c. IfErr result (λ e. IfDamage e (IsOtherAt c at log.now due.records))) }
    ensures failed { result ≡ Err StoreError.Failed → Rose (K.faults keeper.old) (K.faults keeper.new) }
{
    let key = at.to_be_bytes();
    if log != due.records.log.as_slice() {
        return Err(bad(alloc, LOG, &key, log));
    }
    let mut roster = Vec::new(alloc);
    if !keeper.get(ROSTERS, &key, &mut roster)? {
        return Err(missing(alloc, ROSTERS, &key));
    }
    if roster.as_slice() != due.records.roster.as_slice() {
        return Err(bad(alloc, ROSTERS, &key, &roster));
    }
    let Due { records: _, memory } = due;
    Ok(memory)
}

// Whether a text that stands at its place is lawful there, and has brought the records of its position.
fn check_text<I: Ident, K: Keeper>(
    alloc: Global,
    ident: &I,
    keeper: &mut K,
    at: u64,
    entry: &Entry,
    body: &[u8],
    text: &[u8],
    memory: Memory,
) -> Result<Memory, StoreError>
    requires entry { IfSome (K.contents keeper.old) (λ c. IsEntryAt c at entry.now.record entry.now.body.items) }
    requires text { IfSome (K.contents keeper.old) (λ c. IsTextOf c at entry.now.record.id.0 body.now text.now) }
    requires knows { IfSome (K.contents keeper.old) (λ c. Knows memory (below at c)) }
    ensures stays { Stays K.contents K.leaves K.faults keeper.old keeper.new }
    ensures right { IfSome (K.contents keeper.new) (λ c. OnOk result ((n : ℕ) → IsRight (I.meaning ident.now) c n at)) }
    ensures known { IfSome (K.contents keeper.new) (λ c. IfOk result (λ m. (n : ℕ) → IsKnownBehind (I.meaning ident.now) c n at m)) }
    ensures wrong { IfSome (K.contents keeper.new) (λ c. IfErr result (λ e. IfDamage e (λ d. (n : ℕ) → IsWrong (I.meaning ident.now) c n at d))) }
    ensures failed { result ≡ Err StoreError.Failed → Rose (K.faults keeper.old) (K.faults keeper.new) }
{
    let id = ident.id(text);
    if id.0 != entry.record.id.0 {
        return Err(bad(alloc, TEXTS, &entry.record.id.0, body));
    }
    match due_at(alloc, ident, keeper, at, id, text, memory)? {
        Some(due) => compare(alloc, keeper, at, &entry.body, due),
        None => Err(bad(alloc, TEXTS, &entry.record.id.0, body)),
    }
}

// Whether the record of a text stands at its place, and the text has brought the records of its position.
fn check_record<I: Ident, K: Keeper>(
    alloc: Global,
    ident: &I,
    keeper: &mut K,
    at: u64,
    entry: &Entry,
    body: &[u8],
    memory: Memory,
) -> Result<Memory, StoreError>
    requires entry { IfSome (K.contents keeper.old) (λ c. IsEntryAt c at entry.now.record entry.now.body.items) }
    requires record { IfSome (K.contents keeper.old) (λ c. IsRecordOf c at entry.now.record.id.0 body.now) }
    requires knows { IfSome (K.contents keeper.old) (λ c. Knows memory (below at c)) }
    ensures stays { Stays K.contents K.leaves K.faults keeper.old keeper.new }
    ensures right { IfSome (K.contents keeper.new) (λ c. OnOk result ((n : ℕ) → IsRight (I.meaning ident.now) c n at)) }
    ensures known { IfSome (K.contents keeper.new) (λ c. IfOk result (λ m. (n : ℕ) → IsKnownBehind (I.meaning ident.now) c n at m)) }
    ensures wrong { IfSome (K.contents keeper.new) (λ c. IfErr result (λ e. IfDamage e (λ d. (n : ℕ) → IsWrong (I.meaning ident.now) c n at d))) }
    ensures failed { result ≡ Err StoreError.Failed → Rose (K.faults keeper.old) (K.faults keeper.new) }
{
    match text_in(at, body) {
        Some(text) => check_text(alloc, ident, keeper, at, entry, body, text, memory),
        None => Err(bad(alloc, TEXTS, &entry.record.id.0, body)),
    }
}

/// Whether the records of a position are those that its text asks for over the positions before it, or else its first damage. It
/// takes what is remembered of the records below the position, and gives what is then remembered with those of the position.
pub fn check_position<I: Ident, K: Keeper>(
    alloc: Global,
    ident: &I,
    keeper: &mut K,
    at: u64,
    memory: Memory,
) -> Result<Memory, StoreError>
    requires knows { IfSome (K.contents keeper.old) (λ c. Knows memory (below at c)) }
    ensures stays { Stays K.contents K.leaves K.faults keeper.old keeper.new }
    ensures right { IfSome (K.contents keeper.new) (λ c. OnOk result ((n : ℕ) → IsRight (I.meaning ident.now) c n at)) }
    ensures known { IfSome (K.contents keeper.new) (λ c. IfOk result (λ m. (n : ℕ) → IsKnownBehind (I.meaning ident.now) c n at m)) }
    ensures wrong { IfSome (K.contents keeper.new) (λ c. IfErr result (λ e. IfDamage e (λ d. (n : ℕ) → IsWrong (I.meaning ident.now) c n at d))) }
    ensures failed { result ≡ Err StoreError.Failed → Rose (K.faults keeper.old) (K.faults keeper.new) }
{
    let entry = entry_at(alloc, keeper, at)?;
    let body = record_of(alloc, keeper, at, &entry)?;
    check_record(alloc, ident, keeper, at, &entry, &body, memory)
}
