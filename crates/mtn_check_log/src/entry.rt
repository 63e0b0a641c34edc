// What the log tells of a position.
ghost use Rattle.std.specs.Prelude.{◌≡◌, ◌++◌, ℕ, List, None, Some, Err, true, false, IfErr, IfOk, OnOk, IfSome, MatchOption};
ghost use Rattle.mtn_model.specs.Table.{body_at};
ghost use Rattle.mtn_ports.specs.Causes.{Rose};
ghost use Rattle.mtn_ports.specs.Kept.{Stays};
ghost use Rattle.mtn_records.specs.Fields.{number_text};
ghost use Rattle.mtn_history.specs.Errors.{IfDamage};
ghost use Rattle.mtn_history.specs.declared.errors.Damage.TheVariants.{Bad, Missing};
ghost use Rattle.mtn_history.specs.Logs.{UnloggedAt};
ghost use Rattle.mtn_check_log.specs.Below.{is_text_of};
ghost use Rattle.mtn_check_log.specs.Positions.{IsEntryAt, IsRecordOf, IsUntold};

use crate::damaged::{bad, missing};
use crate::position::split_position;
use crate::shown::is_shown;
use mtn_ancestry::Pos;
use mtn_history::{LOG, StoreError, TEXTS};
use mtn_ports::Keeper;
use mtn_records::{LogRecord, read_log};
use std::alloc::Global;

/// The record of the log at a position, and its body.
#[derive(Drop)]
pub struct Entry {
    pub record: LogRecord,
    pub body: Vec<u8>,
}

/// The record of the log at a position.
pub fn entry_at<K: Keeper>(alloc: Global, keeper: &mut K, at: u64) -> Result<Entry, StoreError>
    ensures stays { Stays K.contents K.leaves K.faults keeper.old keeper.new }
    ensures found { IfSome (K.contents keeper.new) (λ c. IfOk result (λ e. IsEntryAt c at e.record e.body.items)) }
    ensures damaged { IfSome (K.contents keeper.new) (λ c. IfErr result (λ e. IfDamage e (UnloggedAt c at))) }
    ensures failed { result ≡ Err StoreError.Failed → Rose (K.faults keeper.old) (K.faults keeper.new) }
{
    let key = at.to_be_bytes();
    let mut body = Vec::new(alloc);
    if !keeper.get(LOG, &key, &mut body)? {
        return Err(missing(alloc, LOG, &key));
    }
    match read_log(Pos(at), &body) {
        Ok(record) => Ok(Entry { record, body }),
        Err(_) => Err(bad(alloc, LOG, &key, &body)),
    }
}

// The text's record under the id of an entry, where there is one.
fn held_record<K: Keeper>(alloc: Global, keeper: &mut K, id: &[u8]) -> Result<Vec<u8>, StoreError>
    ensures stays { Stays K.contents K.leaves K.faults keeper.old keeper.new }
    ensures found { IfSome (K.contents keeper.new) (λ c. IfOk result (λ body. body_at c 3 id.now ≡ Some body.items)) }
    ensures damaged { IfSome (K.contents keeper.new) (λ c. IfErr result (λ e. IfDamage e (λ d. (d ≡ Missing 3 id.now) × (body_at c 3 id.now ≡ None)))) }
    ensures failed { result ≡ Err StoreError.Failed → Rose (K.faults keeper.old) (K.faults keeper.new) }
{
    let mut body = Vec::new(alloc);
    if keeper.get(TEXTS, id, &mut body)? {
        Ok(body)
    } else {
        Err(missing(alloc, TEXTS, id))
    }
}

// Refuses an entry under whose id an earlier revision's record stands.
fn refuse_earlier<K: Keeper>(
    alloc: Global,
    keeper: &mut K,
    at: u64,
    entry: &Entry,
    body: &[u8],
) -> Result<(), StoreError>
    ensures stays { Stays K.contents K.leaves K.faults keeper.old keeper.new }
    ensures fresh { IfSome (K.contents keeper.new) (λ c. OnOk result (is_text_of at c entry.now.record.id.0 body.now ≡ false)) }
    ensures damaged { IfSome (K.contents keeper.new) (λ c. IfErr result (λ e. IfDamage e (λ d. (is_text_of at c entry.now.record.id.0 body.now ≡ true) × (d ≡ Bad 4 (number_text at) entry.now.body.items)))) }
    ensures failed { result ≡ Err StoreError.Failed → Rose (K.faults keeper.old) (K.faults keeper.new) }
{
    if is_shown(alloc, keeper, at, entry.record.id.0.as_slice(), body)? {
        return Err(bad(alloc, LOG, &at.to_be_bytes(), &entry.body));
    }
    Ok(())
}

/// The text's record under the id of an entry, which no earlier revision has.
pub fn record_of<K: Keeper>(
    alloc: Global,
    keeper: &mut K,
    at: u64,
    entry: &Entry,
) -> Result<Vec<u8>, StoreError>
    ensures stays { Stays K.contents K.leaves K.faults keeper.old keeper.new }
    ensures found { IfSome (K.contents keeper.new) (λ c. IfOk result (λ body. IsRecordOf c at entry.now.record.id.0 body.items)) }
    ensures damaged { IfSome (K.contents keeper.new) (λ c. IfErr result (λ e. IfDamage e (IsUntold c at entry.now.record.id.0 entry.now.body.items))) }
    ensures failed { result ≡ Err StoreError.Failed → Rose (K.faults keeper.old) (K.faults keeper.new) }
{
    let id = entry.record.id.0.as_slice();
    let body = held_record(alloc, keeper, id)?;
    refuse_earlier(alloc, keeper, at, entry, &body)?;
    Ok(body)
}

/// The text behind a position in a record.
pub fn text_in(at: u64, body: &[u8]) -> Option<&[u8]>
    ensures { MatchOption result ((text : List ℕ) → body.now ≡ number_text at ++ text → ⊥) (λ text. body.now ≡ number_text at ++ text.now) }
{
    match split_position(body) {
        Some((place, text)) => { if place == at { Some(text) } else { None } }
        None => None,
    }
}
