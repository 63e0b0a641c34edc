// What a store of the older form becomes.
ghost use Rattle.std.specs.Prelude.{◌≡◌, ◌⊎◌, ℕ, List, Err, Some, IfErr, IfOk, IfSome, length};
ghost use Rattle.std.specs.List.{AllByRecursion};
ghost use Rattle.mtn_history.specs.Errors.{IfStoreDamage};
ghost use Rattle.mtn_history.specs.Stands.{Stands};
ghost use Rattle.mtn_model.specs.State.{State};
ghost use Rattle.mtn_model.specs.Table.{Contents};
ghost use Rattle.mtn_ports.specs.Causes.{Rose};
ghost use Rattle.mtn_ports.specs.Kept.{Stays};
ghost use Rattle.mtn_old_stores.specs.Older.{IsLawfulOldCertificate, OldState, StandsOld};
ghost use Rattle.mtn_migrating.specs.Migration.{Declines, Does, IsMigratingPut, IsNotOld, IsOldDamage};
ghost use Rattle.mtn_migrating.specs.Working.{IsLacking, IsUnknown, Makes, counts_text};

use crate::given::read_table;
use crate::ids::ids_of;
use crate::puts::{put_certs, put_keys};
use mtn_base::{Bytes, Cause, NoMemory};
use mtn_certs::KeyName;
use mtn_history::{HistoryError, META, StoreError};
use mtn_old_stores::{OldCert, is_older, old_certs};
use mtn_ports::{Batch, Keeper};
use std::alloc::Global;

/// What is put into an older store, and answered.
#[derive(Drop)]
pub struct Migration {
    pub batch: Batch,
    pub text: Bytes,
}

// The numbers of keys and of certificates.
fn counts(alloc: Global, keys: usize, certs: usize) -> Result<Bytes, NoMemory>
    ensures { IfOk result (λ text. text ≡ counts_text keys certs) }
{
    let mut text = Vec::new(alloc);
    text.extend_from_slice(b"keys ")?;
    text.extend_from_slice(keys.to_string(alloc)?.as_bytes())?;
    text.extend_from_slice(b"\ncerts ")?;
    text.extend_from_slice(certs.to_string(alloc)?.as_bytes())?;
    text.push(b'\n')?;
    Ok(Bytes::from_vec(text))
}

// The refusal of a name that the table lacks.
fn unknown_key(alloc: Global, name: &[u8]) -> HistoryError
    ensures { IsUnknown name.now result }
{
    match Bytes::from_slice(alloc, name) {
        Ok(name) => HistoryError::Refused(Cause::UnknownKey { name }),
        Err(NoMemory) => HistoryError::Store(StoreError::NoMemory),
    }
}

// The migration of these certificates by a key table.
fn migrated<'a>(
    alloc: Global,
    table: &'a [KeyName],
    certs: &'a [OldCert],
) -> Result<Migration, HistoryError>
    requires { AllByRecursion IsLawfulOldCertificate certs.now }
    ensures makes { IfOk result (Makes table.now certs.now) }
    ensures lacking { IfErr result (IsLacking table.now certs.now) }
{
    let ids = ids_of(alloc, table)?;
    let mut batch = Batch::new(alloc);
    batch.put(META, b"version", b"2")?;
    if let Some(name) = put_certs(alloc, &ids, certs, &mut batch)? {
        return Err(unknown_key(alloc, name));
    }
    put_keys(table, &mut batch)?;
    let text = counts(alloc, table.len(), certs.len())?;
    Ok(Migration { batch, text })
}

/// What the payload, a key table, makes of an older store. It is refused for the first fault of the table; then as NotOld where
/// there is no `count`, or the version is the present one; then as UnknownKey with the least name of a key that made a
/// certificate and that the table lacks. Damage is that of the version, or of a certificate's record.
pub fn migrate<K: Keeper>(
    alloc: Global,
    keeper: &mut K,
    payload: &[u8],
) -> Result<Migration, HistoryError>
    ensures stays { Stays K.contents K.leaves K.faults keeper.old keeper.new }
    ensures older { (f : List ℕ → List ℕ) (c : Contents) (s : OldState) → K.contents keeper.new ≡ Some c → StandsOld f c s → Does f c s payload.now result }
    ensures present { (f : List ℕ → List ℕ) (c : Contents) (s : State) → K.contents keeper.new ≡ Some c → Stands f c s → Declines f s payload.now result }
    ensures not_old { IfSome (K.contents keeper.new) (λ c. IfErr result (IsNotOld c)) }
    ensures puts { IfOk result (λ m. AllByRecursion IsMigratingPut m.batch) }
    ensures damaged { IfSome (K.contents keeper.new) (λ c. IfErr result (λ e. IfStoreDamage e (IsOldDamage c))) }
    ensures failed { result ≡ Err (HistoryError.Store StoreError.Failed) → Rose (K.faults keeper.old) (K.faults keeper.new) }
{
    let table = read_table(alloc, payload)?;
    if !is_older(alloc, keeper)? {
        return Err(HistoryError::Refused(Cause::NotOld));
    }
    let certs = old_certs(alloc, keeper)?;
    migrated(alloc, &table, &certs)
}
