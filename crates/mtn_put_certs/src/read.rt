// Certificates, read back from the keys of their records.
ghost use Rattle.std.specs.Prelude.{IfOk};
ghost use Rattle.mtn_put_certs.specs.Reading.{IsCertOf};
ghost use Rattle.mtn_put_certs.specs.Parts.{Finds, IsPartsOf};

use mtn_base::{Bytes, Id, NoMemory};
use mtn_certs::{Cert, CertError};
use mtn_records::{Field, RecordError};
use std::alloc::Global;

// Revision, name, key, value, signature.
type Parts = (Id, (Bytes, (Id, (Bytes, Bytes))));

// The parts whose text a key is, if it is one.
fn read_parts(alloc: Global, key: &[u8]) -> Result<Option<Parts>, NoMemory>
    ensures { IfOk result (IsPartsOf key.now) }
{
    match Parts::read(alloc, key) {
        Ok((parts, rest)) => {
            if rest.is_empty() {
                Ok(Some(parts))
            } else {
                Ok(None)
            }
        }
        Err(RecordError::Bad) => Ok(None),
        Err(RecordError::NoMemory) => Err(NoMemory),
    }
}

// The certificate of these parts, unless they break a rule.
fn cert_of(alloc: Global, parts: Parts) -> Result<Option<Cert>, NoMemory>
    ensures { IfOk result (Finds parts) }
{
    let (revision, (name, (key, (value, signature)))) = parts;
    let new = Cert::new(
        alloc,
        revision,
        name.as_slice(),
        key,
        value.as_slice(),
        signature.as_slice(),
    );
    match new {
        Ok(cert) => Ok(Some(cert)),
        Err(CertError::NoMemory) => Err(NoMemory),
        Err(_) => Ok(None),
    }
}

/// The certificate whose record stands under a key, if the key is that of one.
pub fn read_cert(alloc: Global, key: &[u8]) -> Result<Option<Cert>, NoMemory>
    ensures { IfOk result (IsCertOf key.now) }
{
    match read_parts(alloc, key)? {
        Some(parts) => cert_of(alloc, parts),
        None => Ok(None),
    }
}
