// The records of a position.
ghost use Rattle.std.specs.Prelude.{◌≡◌, ◌++◌, Some, Err, IfErr, IfOk, IfSome};
ghost use Rattle.mtn_model.specs.Table.{body_at};
ghost use Rattle.mtn_ports.specs.Causes.{Rose};
ghost use Rattle.mtn_ports.specs.Kept.{Stays};
ghost use Rattle.mtn_records.specs.Fields.{number_text};
ghost use Rattle.mtn_history.specs.Errors.{IfDamage};
ghost use Rattle.mtn_history.specs.Logs.{IsLogged};
ghost use Rattle.mtn_check_hands.specs.Reading.{AreRecordsAt};

use crate::contents::{Mentions, mentions_in};
use mtn_base::{Bytes, Id};
use mtn_check_log::{Entry, entry_at, text_in, undamaged};
use mtn_history::{ROSTERS, StoreError, TEXTS};
use mtn_ports::Keeper;
use mtn_records::LogRecord;
use std::alloc::Global;

/// What stands at a position: its record of the log with its body, the text under the id there, the body of its roster's record, and
/// what the text mentions.
#[derive(Drop)]
pub struct Records {
    pub entry: LogRecord,
    pub log: Vec<u8>,
    pub text: Bytes,
    pub roster: Vec<u8>,
    pub mentions: Mentions,
}

// The record under a key, if there is one.
fn body_of<K: Keeper>(
    alloc: Global,
    keeper: &mut K,
    table: u8,
    key: &[u8],
) -> Result<Option<Vec<u8>>, StoreError>
    ensures stays { Stays K.contents K.leaves K.faults keeper.old keeper.new }
    ensures found { IfSome (K.contents keeper.new) (λ c. IfOk result (λ o. IfSome o (λ body. body_at c table key.now ≡ Some body.items))) }
    ensures sound { IfErr result (λ e. IfDamage e (λ _. ⊥)) }
    ensures failed { result ≡ Err StoreError.Failed → Rose (K.faults keeper.old) (K.faults keeper.new) }
{
    let mut body = Vec::new(alloc);
    if keeper.get(table, key, &mut body)? {
        Ok(Some(body))
    } else {
        Ok(None)
    }
}

/// The record of the log at a position, if one stands there.
pub fn logged_at<K: Keeper>(
    alloc: Global,
    keeper: &mut K,
    at: u64,
) -> Result<Option<LogRecord>, StoreError>
    ensures stays { Stays K.contents K.leaves K.faults keeper.old keeper.new }
    ensures found { IfSome (K.contents keeper.new) (λ c. IfOk result (λ o. IfSome o (IsLogged c at))) }
    ensures sound { IfErr result (λ e. IfDamage e (λ _. ⊥)) }
    ensures failed { result ≡ Err StoreError.Failed → Rose (K.faults keeper.old) (K.faults keeper.new) }
{
    match undamaged(entry_at(alloc, keeper, at))? {
        Some(entry) => Ok(Some(entry.record)),
        None => Ok(None),
    }
}

// The text under an id, if one with this position stands there.
fn text_at<K: Keeper>(
    alloc: Global,
    keeper: &mut K,
    at: u64,
    id: Id,
) -> Result<Option<Bytes>, StoreError>
    ensures stays { Stays K.contents K.leaves K.faults keeper.old keeper.new }
    ensures found { IfSome (K.contents keeper.new) (λ c. IfOk result (λ o. IfSome o (λ text. body_at c 3 id.0 ≡ Some (number_text at ++ text)))) }
    ensures sound { IfErr result (λ e. IfDamage e (λ _. ⊥)) }
    ensures failed { result ≡ Err StoreError.Failed → Rose (K.faults keeper.old) (K.faults keeper.new) }
{
    let Some(body) = body_of(alloc, keeper, TEXTS, &id.0)? else {
        return Ok(None);
    };
    match text_in(at, &body) {
        Some(text) => Ok(Some(Bytes::from_slice(alloc, text)?)),
        None => Ok(None),
    }
}

/// The records of a position, if they stand there, and the text is one of a revision.
pub fn records_at<K: Keeper>(
    alloc: Global,
    keeper: &mut K,
    at: u64,
) -> Result<Option<Records>, StoreError>
    ensures stays { Stays K.contents K.leaves K.faults keeper.old keeper.new }
    ensures found { IfSome (K.contents keeper.new) (λ c. IfOk result (λ o. IfSome o (AreRecordsAt c at))) }
    ensures sound { IfErr result (λ e. IfDamage e (λ _. ⊥)) }
    ensures failed { result ≡ Err StoreError.Failed → Rose (K.faults keeper.old) (K.faults keeper.new) }
{
    let Some(entry) = undamaged(entry_at(alloc, keeper, at))? else {
        return Ok(None);
    };
    let Entry { record, body } = entry;
    let Some(text) = text_at(alloc, keeper, at, record.id)? else {
        return Ok(None);
    };
    let Some(mentions) = mentions_in(alloc, keeper, text.as_slice())? else {
        return Ok(None);
    };
    let Some(roster) = body_of(alloc, keeper, ROSTERS, &at.to_be_bytes())? else {
        return Ok(None);
    };
    Ok(Some(Records {
        entry: record,
        log: body,
        text,
        roster,
        mentions,
    }))
}
