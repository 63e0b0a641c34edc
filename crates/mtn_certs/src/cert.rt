// Certificates and key names.
ghost use Rattle.std.specs.Prelude.{◌≡◌, ◌⊎◌, IfOk, IfErr, OnOk, None, Some};
ghost use Rattle.mtn_certs.specs.Certificates.{IsIdBytes, certificate, fault_of};

use crate::field::is_field;
use mtn_base::{Bytes, Field, Id, MAX_TEXT, NoMemory};
use std::alloc::Global;
use std::marker::Model;

/// Why no certificate has these parts.
#[derive(Clone, Copy)]
pub enum CertError {
    /// The name is no field.
    BadField(Field),
    /// The value, or else the signature, has more than 67,108,864 bytes: so many.
    TextTooLong { length: u64 },
    NoMemory,
}

impl From<NoMemory> for CertError {
    ghost use Rattle.mtn_certs.specs.declared.cert.CertError.TheVariants.{NoMemory};

    ghost from_gives = { λ _ e. e ≡ NoMemory };

    fn from(_: NoMemory) -> Self {
        CertError::NoMemory
    }
}

/// What somebody says of a revision. Its name is a field; its value and signature have at most 67,108,864 bytes.
#[derive(Drop)]
pub struct Cert {
    pub revision: Id,
    pub name: Bytes,
    /// The id of the key that made it.
    pub key: Id,
    pub value: Bytes,
    pub signature: Bytes,
}

impl Model for Cert {
    ghost use Rattle.mtn_certs.specs.Certificates.{Certificate, IsLawfulCertificate, certificate};

    ghost Value = { Certificate };

    ghost view = { λ c. certificate c.revision c.name c.key c.value c.signature };

    ghost invariant = { λ c. IsLawfulCertificate (certificate c.revision c.name c.key c.value c.signature) };
}

/// The name of a key, under the key's id.
#[derive(Drop)]
pub struct KeyName {
    pub id: Id,
    pub name: Bytes,
}

impl Cert {
    /// The certificate of these parts, or the first rule that they break: of the name, of the value, of the signature.
    pub fn new(
        alloc: Global,
        revision: Id,
        name: &[u8],
        key: Id,
        value: &[u8],
        signature: &[u8],
    ) -> Result<Cert, CertError>
        ensures ok { IfOk result (λ c. c ≡ certificate revision name.now key value.now signature.now) }
        ensures lawful { OnOk result (fault_of (certificate revision name.now key value.now signature.now) ≡ None) }
        ensures ids { OnOk result (IsIdBytes revision.0 × IsIdBytes key.0) }
        ensures err { IfErr result (λ e. (e ≡ CertError.NoMemory)
            ⊎ (fault_of (certificate revision name.now key value.now signature.now) ≡ Some e)) }
    {
        if !is_field(name) {
            return Err(CertError::BadField(Field::Name));
        }
        within(value)?;
        within(signature)?;
        let _revision = revision.as_slice();
        let _key = key.as_slice();
        Ok(Cert {
            revision,
            name: Bytes::from_slice(alloc, name)?,
            key,
            value: Bytes::from_slice(alloc, value)?,
            signature: Bytes::from_slice(alloc, signature)?,
        })
    }

    /// An equal certificate.
    pub fn copy(&self, alloc: Global) -> Result<Cert, NoMemory>
        ensures { IfOk result (λ c. c ≡ self.now) }
    {
        Ok(Cert {
            revision: self.revision,
            name: self.name.copy(alloc)?,
            key: self.key,
            value: self.value.copy(alloc)?,
            signature: self.signature.copy(alloc)?,
        })
    }
}

impl KeyName {
    /// An equal key name.
    pub fn copy(&self, alloc: Global) -> Result<KeyName, NoMemory>
        ensures { IfOk result (λ k. k ≡ self.now) }
    {
        Ok(KeyName {
            id: self.id,
            name: self.name.copy(alloc)?,
        })
    }
}

ghost use Rattle.std.specs.Prelude.{◌<◌, ◌≤◌, length};
ghost use Rattle.mtn_base.specs.declared.limits.TheConstants.{MAX_TEXT};

// That a value or a signature is within its limit.
fn within(text: &[u8]) -> Result<(), CertError>
    ensures ok { OnOk result (length text.now ≤ MAX_TEXT) }
    ensures err { IfErr result (λ e. (e ≡ CertError.TextTooLong (length text.now)) × (MAX_TEXT < length text.now)) }
{
    if text.len() <= MAX_TEXT {
        Ok(())
    } else {
        Err(CertError::TextTooLong {
            length: text.len() as u64,
        })
    }
}
