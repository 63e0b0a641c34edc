// Table 1: `count` and `version`, and no other record.
ghost use Rattle.std.specs.Prelude.{◌≡◌, ◌≢◌, Some, Err, IfErr, IfOk, IfSome, OnOk};
ghost use Rattle.mtn_model.specs.Table.{body_at};
ghost use Rattle.mtn_history.specs.Errors.{IfDamage};
ghost use Rattle.mtn_history.specs.Meta.{VersionDamage, version, version_key};
ghost use Rattle.mtn_ports.specs.Causes.{Rose};
ghost use Rattle.mtn_ports.specs.Kept.{Stays};
ghost use Rattle.mtn_check.specs.Steps.{IsCountIn, IsCountOf, IsDamageOfAny};

use crate::empty::check_empty;
use crate::number::number_in;
use crate::scan::Test;
use mtn_base::{Bytes, MAX_LOG, NoMemory};
use mtn_history::{Damage, META, StoreError};
use mtn_ports::Keeper;
use std::alloc::Global;

// A record of table 1 that is bad.
fn bad_meta(alloc: Global, key: &[u8], body: Vec<u8>) -> StoreError
    ensures damaged { IfDamage result (λ d. d ≡ Damage.Bad 1 key.now body.items) }
    ensures failed { result ≢ StoreError.Failed }
{
    match Bytes::from_slice(alloc, key) {
        Ok(key) => StoreError::Damaged(Damage::Bad {
            table: META,
            key,
            body: Bytes::from_vec(body),
        }),
        Err(NoMemory) => StoreError::NoMemory,
    }
}

// The number of revisions that a body spells.
fn count_in(alloc: Global, body: &[u8]) -> Result<Option<u64>, NoMemory>
    ensures { IfOk result (IsCountIn body.now) }
{
    match number_in(alloc, body)? {
        Some(count) if count <= MAX_LOG => Ok(Some(count)),
        _ => Ok(None),
    }
}

/// The number of revisions; None where nothing is held. Any record of a store without `count` is damage, and a `count` that is no
/// number of revisions.
pub fn read_count<K: Keeper>(alloc: Global, keeper: &mut K) -> Result<Option<u64>, StoreError>
    ensures stays { Stays K.contents K.leaves K.faults keeper.old keeper.new }
    ensures counted { IfSome (K.contents keeper.new) (λ c. IfOk result (IsCountOf c)) }
    ensures damaged { IfSome (K.contents keeper.new) (λ c. IfErr result (λ e. IfDamage e (IsDamageOfAny c))) }
    ensures failed { result ≡ Err StoreError.Failed → Rose (K.faults keeper.old) (K.faults keeper.new) }
{
    let mut body = Vec::new(alloc);
    if !keeper.get(META, b"count", &mut body)? {
        check_empty(alloc, 0, 256, keeper)?;
        return Ok(None);
    }
    match count_in(alloc, &body)? {
        Some(count) => Ok(Some(count)),
        None => Err(bad_meta(alloc, b"count", body)),
    }
}

/// That the store has this version.
pub fn check_version<K: Keeper>(alloc: Global, keeper: &mut K) -> Result<(), StoreError>
    ensures stays { Stays K.contents K.leaves K.faults keeper.old keeper.new }
    ensures version { IfSome (K.contents keeper.new) (λ c. OnOk result (body_at c 1 version_key ≡ Some version)) }
    ensures damaged { IfSome (K.contents keeper.new) (λ c. IfErr result (λ e. IfDamage e (VersionDamage c))) }
    ensures failed { result ≡ Err StoreError.Failed → Rose (K.faults keeper.old) (K.faults keeper.new) }
{
    let mut body = Vec::new(alloc);
    if !keeper.get(META, b"version", &mut body)? {
        return Err(missing_version(alloc));
    }
    if body.as_slice() != b"2".as_slice() {
        return Err(bad_meta(alloc, b"version", body));
    }
    Ok(())
}

// No version is held.
fn missing_version(alloc: Global) -> StoreError
    ensures damaged { IfDamage result (λ d. d ≡ Damage.Missing 1 version_key) }
    ensures failed { result ≢ StoreError.Failed }
{
    match Bytes::from_slice(alloc, b"version") {
        Ok(key) => StoreError::Damaged(Damage::Missing { table: META, key }),
        Err(NoMemory) => StoreError::NoMemory,
    }
}

/// That a key of table 1 is one of the two.
#[derive(Clone, Copy)]
pub struct MetaKeys;

impl Test for MetaKeys {
    ghost use Rattle.mtn_check.specs.Steps.{MetaRule};

    ghost rule = { λ _ _ key body. MetaRule key body };

    fn keeps<K: Keeper>(
        &self,
        _alloc: Global,
        _keeper: &mut K,
        key: &[u8],
        _body: &[u8],
    ) -> Result<bool, StoreError> {
        Ok(key == b"count".as_slice() || key == b"version".as_slice())
    }
}
