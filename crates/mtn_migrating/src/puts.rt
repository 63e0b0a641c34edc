// The records of certificates and of key names.
ghost use Rattle.std.specs.Prelude.{◌≡◌, ◌++◌, [], ◌∷◌, List, IfOk, OnOk};
ghost use Rattle.std.specs.List.{AllByRecursion};
ghost use Rattle.std.specs.Option.{option_copied};
ghost use Rattle.mtn_certs.specs.Certificates.{IsIdBytes};
ghost use Rattle.mtn_certs.specs.declared.cert.KeyName.{KeyName as Named};
ghost use Rattle.mtn_history.specs.Certificates.{cert_key as key_text};
ghost use Rattle.mtn_history.specs.Records.{put_of};
ghost use Rattle.mtn_old_stores.specs.Older.{IsLawfulOldCertificate};
ghost use Rattle.mtn_old_stores.specs.Migrating.{cert_puts, id_named, key_puts, made_by, under_ids};
ghost use Rattle.mtn_old_stores.specs.Stores.{IsLeastUnknown};
ghost use Rattle.mtn_migrating.specs.Working.{Adds, AreIdsOf, lesser_of};

use mtn_base::{Id, NoMemory};
use mtn_certs::KeyName;
use mtn_history::{CERTS, KEYS};
use mtn_old_stores::OldCert;
use mtn_ports::Batch;
use mtn_records::Field;
use std::alloc::Global;
use std::collections::BTreeMap;

// The key of a certificate's record, where the key of an id made it.
fn cert_key(alloc: Global, cert: &OldCert, id: &Id) -> Result<Vec<u8>, NoMemory>
    requires { IsLawfulOldCertificate cert.now }
    ensures { IfOk result (λ key. key.items ≡ key_text (made_by id.now cert.now)) }
{
    let _revision = cert.revision.as_slice();
    let _id = id.as_slice();
    let mut key = Vec::new(alloc);
    cert.revision.write(&mut key)?;
    cert.name.write(&mut key)?;
    id.write(&mut key)?;
    cert.value.write(&mut key)?;
    cert.signature.write(&mut key)?;
    Ok(key)
}

// Puts the record of a certificate under an id.
fn put_cert(alloc: Global, cert: &OldCert, id: &Id, batch: &mut Batch) -> Result<(), NoMemory>
    requires { IsLawfulOldCertificate cert.now }
    ensures { OnOk result (batch.new ≡ batch.old ++ put_of 8 (key_text (made_by id.now cert.now)) [] ∷ []) }
{
    let _revision = cert.revision.as_slice();
    let key = cert_key(alloc, cert, id)?;
    batch.put(CERTS, &key, &[])
}

// The lesser of a name and one that was found before.
fn lesser<'a>(unknown: Option<&'a [u8]>, name: &'a [u8]) -> &'a [u8]
    ensures { result.now ≡ lesser_of (option_copied unknown.entry) name.now }
{
    match unknown {
        Some(other) if other.cmp(name).is_le() => other,
        _ => name,
    }
}

// Puts the record of one more certificate, where its key has an id; else its key is one more name without.
fn add<'a>(
    alloc: Global,
    ids: &BTreeMap<&'a [u8], Id>,
    cert: &'a OldCert,
    unknown: Option<&'a [u8]>,
    batch: &mut Batch,
) -> Result<Option<&'a [u8]>, NoMemory>
    requires { IsLawfulOldCertificate cert.now }
    ensures { (table : List Named) → AreIdsOf ids.now table → IfOk result (λ left. Adds (id_named table cert.now.key) cert.now (option_copied unknown.entry) (option_copied left) batch.old batch.new) }
{
    match ids.get(&cert.key.as_slice()) {
        Some(id) => {
            put_cert(alloc, cert, id, batch)?;
            Ok(unknown)
        }
        None => Ok(Some(lesser(unknown, cert.key.as_slice()))),
    }
}

/// Puts the records of the certificates whose keys have ids, and answers the least name of a key without, if there is one.
pub fn put_certs<'a>(
    alloc: Global,
    ids: &BTreeMap<&'a [u8], Id>,
    certs: &'a [OldCert],
    batch: &mut Batch,
) -> Result<Option<&'a [u8]>, NoMemory>
    requires { AllByRecursion IsLawfulOldCertificate certs.now }
    ensures puts { (table : List Named) → AreIdsOf ids.now table → OnOk result (batch.new ≡ batch.old ++ cert_puts (under_ids table certs.now)) }
    ensures unknown { (table : List Named) → AreIdsOf ids.now table → IfOk result (λ name. IsLeastUnknown table certs.now (option_copied name)) }
{
    let mut unknown = None;
    for cert in certs {
        unknown = add(alloc, ids, cert, unknown, batch)?;
    }
    Ok(unknown)
}

/// Puts the names of keys.
pub fn put_keys(table: &[KeyName], batch: &mut Batch) -> Result<(), NoMemory>
    ensures puts { OnOk result (batch.new ≡ batch.old ++ key_puts table.now) }
    ensures ids { OnOk result (AllByRecursion (λ k. IsIdBytes k.id.0) table.now) }
{
    for key in table {
        batch.put(KEYS, key.id.as_slice(), key.name.as_slice())?;
    }
    Ok(())
}
