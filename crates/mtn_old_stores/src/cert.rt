// Certificates of an older store, read back from the keys of their records.
ghost use Rattle.std.specs.Prelude.{◌≡◌, ◌≢◌, ◌↔◌, Err, Some, IfErr, IfOk, IsTrue};
ghost use Rattle.mtn_history.specs.Errors.{IfDamage};
ghost use Rattle.mtn_model.specs.Table.{Contents, body_at};
ghost use Rattle.mtn_old_stores.specs.Older.{IsLawfulOldCertificate, IsOldKey};
ghost use Rattle.mtn_old_stores.specs.Reading.{Finds, IsOldCertOf, IsOldRecordOf, IsPartsOf, OldCertDamage};

use crate::damaged::bad;
use mtn_base::{Bytes, Id, MAX_TEXT, NoMemory};
use mtn_certs::is_field;
use mtn_history::StoreError;
use mtn_records::{Field, RecordError};
use std::alloc::Global;
use std::marker::Model;

/// The table in which an older store keeps its certificates.
pub const OLD_CERTS: u8 = 6;

/// A certificate that was made by a key of a name.
#[derive(Drop)]
pub struct OldCert {
    pub revision: Id,
    pub name: Bytes,
    /// The name of the key that made it.
    pub key: Bytes,
    pub value: Bytes,
    pub signature: Bytes,
}

impl Model for OldCert {
    ghost use Rattle.mtn_old_stores.specs.Older.{OldCertificate};

    ghost Value = { OldCertificate };

    ghost view = { λ c. record { revision = c.revision; name = c.name; key = c.key; value = c.value; signature = c.signature } };
}

// Revision, name, key, value, signature.
type Parts = (Id, (Bytes, (Bytes, (Bytes, Bytes))));

// The parts whose text a key is, if it is one.
fn read_parts(alloc: Global, key: &[u8]) -> Result<Option<Parts>, NoMemory>
    ensures { IfOk result (IsPartsOf key.now) }
{
    match Parts::read(alloc, key) {
        Ok((parts, rest)) => {
            if rest.is_empty() {
                Ok(Some(parts))
            } else {
                Ok(None)
            }
        }
        Err(RecordError::Bad) => Ok(None),
        Err(RecordError::NoMemory) => Err(NoMemory),
    }
}

// Whether a certificate breaks no rule.
fn is_lawful(cert: &OldCert) -> bool
    ensures { IsTrue result ↔ IsLawfulOldCertificate cert.now }
{
    is_field(cert.name.as_slice())
        && is_field(cert.key.as_slice())
        && cert.value.as_slice().len() <= MAX_TEXT
        && cert.signature.as_slice().len() <= MAX_TEXT
}

// The certificate of these parts, unless they break a rule.
fn cert_of(parts: Parts) -> Option<OldCert>
    ensures { Finds parts result }
{
    let (revision, (name, (key, (value, signature)))) = parts;
    let _revision = revision.as_slice();
    let cert = OldCert {
        revision,
        name,
        key,
        value,
        signature,
    };
    if is_lawful(&cert) { Some(cert) } else { None }
}

/// The certificate whose record stands under a key of table 6, if the key is that of one.
pub fn read_old_cert(alloc: Global, key: &[u8]) -> Result<Option<OldCert>, NoMemory>
    ensures { IfOk result (IsOldCertOf key.now) }
{
    match read_parts(alloc, key)? {
        Some(parts) => Ok(cert_of(parts)),
        None => Ok(None),
    }
}

// The certificate of a record, if it is that of one.
fn cert_with(alloc: Global, key: &[u8], body: &[u8]) -> Result<Option<OldCert>, NoMemory>
    ensures { IfOk result (IsOldRecordOf key.now body.now) }
{
    if !body.is_empty() {
        return Ok(None);
    }
    read_old_cert(alloc, key)
}

/// The certificate of a record of table 6. One of none is damage.
pub fn cert_in(alloc: Global, key: &[u8], body: &[u8]) -> Result<OldCert, StoreError>
    ensures read { IfOk result (IsOldKey key.now) }
    ensures damaged { (c : Contents) → body_at c 6 key.now ≡ Some body.now → IfErr result (λ e. IfDamage e (OldCertDamage c)) }
    ensures failed { result ≢ Err StoreError.Failed }
{
    match cert_with(alloc, key, body)? {
        Some(cert) => Ok(cert),
        None => Err(bad(alloc, OLD_CERTS, key, body)),
    }
}
