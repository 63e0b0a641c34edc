// What is shown of a keeper's records.
ghost use Rattle.std.specs.Prelude.{◌≡◌, ◌⊎◌, IfOk, IfSome, IsErrOf};
ghost use Rattle.mtn_model.specs.Table.{body_at};
ghost use Rattle.mtn_records.specs.Fields.{number_text};
ghost use Rattle.mtn_ports.specs.Causes.{Rose};
ghost use Rattle.mtn_ports.specs.Kept.{IsBody, Stays};
ghost use Rattle.mtn_check_log.specs.Below.{below, has_id_at, is_text_of};
ghost use Rattle.mtn_history.specs.Meta.{meta_of, version};
ghost use Rattle.std.specs.FinMap.{get};

use crate::position::{is_below, is_of, split_position};
use mtn_base::NoMemory;
use mtn_history::{FILES, LOG, META, ROSTERS, TEXTS};
use mtn_ports::{KeepError, Keeper};
use std::alloc::Global;

// Replaces bytes by others.
fn fill(out: &mut Vec<u8>, bytes: &[u8]) -> Result<(), NoMemory>
    ensures { IfOk result (λ _. out.new.items ≡ bytes.now) }
{
    out.clear();
    out.extend_from_slice(bytes)?;
    Ok(())
}

// The record of table 1 for so many revisions.
fn get_meta(count: u64, key: &[u8], out: &mut Vec<u8>) -> Result<bool, NoMemory>
    ensures { IfOk result (λ found. IsBody (get (meta_of version count) key.now) found out.new.items) }
{
    if key == b"version".as_slice() {
        fill(out, b"2")?;
        return Ok(true);
    }
    if key == b"count".as_slice() {
        fill(out, &count.to_be_bytes())?;
        return Ok(true);
    }
    Ok(false)
}

/// Whether the record of the log at a position has an id.
pub fn is_logged<K: Keeper>(
    alloc: Global,
    keeper: &mut K,
    at: u64,
    id: &[u8],
) -> Result<bool, KeepError>
    ensures stays { Stays K.contents K.leaves K.faults keeper.old keeper.new }
    ensures named { IfSome (K.contents keeper.new) (λ c. IfOk result (λ named. named ≡ has_id_at c id.now (number_text at))) }
    ensures failed { IsErrOf result KeepError.Failed → Rose (K.faults keeper.old) (K.faults keeper.new) }
{
    let mut log = Vec::new(alloc);
    if keeper.get(LOG, &at.to_be_bytes(), &mut log)? {
        Ok(is_of(id, &log))
    } else {
        Ok(false)
    }
}

/// Whether a text's record that stands under an id is shown: it is that of a revision below, whose record of the log has the id. It
/// asks for that record of the log at most.
pub fn is_shown<K: Keeper>(
    alloc: Global,
    keeper: &mut K,
    count: u64,
    id: &[u8],
    body: &[u8],
) -> Result<bool, KeepError>
    ensures stays { Stays K.contents K.leaves K.faults keeper.old keeper.new }
    ensures shown { IfSome (K.contents keeper.new) (λ c. IfOk result (λ shown. shown ≡ is_text_of count c id.now body.now)) }
    ensures failed { IsErrOf result KeepError.Failed → Rose (K.faults keeper.old) (K.faults keeper.new) }
{
    let at = match split_position(body) {
        Some((at, _)) => at,
        None => return Ok(false),
    };
    if at >= count {
        return Ok(false);
    }
    is_logged(alloc, keeper, at, id)
}

// The text under an id, if it is that of a revision below.
fn get_text<K: Keeper>(
    alloc: Global,
    keeper: &mut K,
    count: u64,
    id: &[u8],
    out: &mut Vec<u8>,
) -> Result<bool, KeepError>
    ensures stays { Stays K.contents K.leaves K.faults keeper.old keeper.new }
    ensures found { IfSome (K.contents keeper.new) (λ c. IfOk result (λ found. IsBody (body_at (below count c) 3 id.now) found out.new.items)) }
    ensures failed { IsErrOf result KeepError.Failed → Rose (K.faults keeper.old) (K.faults keeper.new) }
{
    if !keeper.get(TEXTS, id, out)? {
        return Ok(false);
    }
    is_shown(alloc, keeper, count, id, out)
}

// The record of table 4 or 5 at a key, if it is a position below.
fn get_placed<K: Keeper>(
    keeper: &mut K,
    count: u64,
    table: u8,
    key: &[u8],
    out: &mut Vec<u8>,
) -> Result<bool, KeepError>
    requires { (table ≡ 4) ⊎ (table ≡ 5) }
    ensures stays { Stays K.contents K.leaves K.faults keeper.old keeper.new }
    ensures found { IfSome (K.contents keeper.new) (λ c. IfOk result (λ found. IsBody (body_at (below count c) table key.now) found out.new.items)) }
    ensures failed { IsErrOf result KeepError.Failed → Rose (K.faults keeper.old) (K.faults keeper.new) }
{
    if !is_below(count, key) {
        return Ok(false);
    }
    keeper.get(table, key, out)
}

/// The body under a key, of what is shown.
pub fn get_shown<K: Keeper>(
    alloc: Global,
    keeper: &mut K,
    count: u64,
    table: u8,
    key: &[u8],
    out: &mut Vec<u8>,
) -> Result<bool, KeepError>
    ensures stays { Stays K.contents K.leaves K.faults keeper.old keeper.new }
    ensures found { IfSome (K.contents keeper.new) (λ c. IfOk result (λ found. IsBody (body_at (below count c) table key.now) found out.new.items)) }
    ensures failed { IsErrOf result KeepError.Failed → Rose (K.faults keeper.old) (K.faults keeper.new) }
{
    if table == META {
        return Ok(get_meta(count, key, out)?);
    }
    if table == FILES {
        return keeper.get(FILES, key, out);
    }
    if table == TEXTS {
        return get_text(alloc, keeper, count, key, out);
    }
    if table == LOG || table == ROSTERS {
        return get_placed(keeper, count, table, key, out);
    }
    Ok(false)
}
