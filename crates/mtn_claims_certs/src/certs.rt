// Certificates and their list.
ghost use Rattle.std.specs.Prelude.{◌≡◌, ◌++◌, ◌⊎◌, None, Some, IfErr, IfOk, OnErr, OnOk};
ghost use Rattle.mtn_certs.specs.Certificates.{IsIdBytes, certificate, fault_of, is_field as field_test};
ghost use Rattle.mtn_certs.specs.Listing.{certs_text, name_in};

use mtn_base::{Id, NoMemory};
use mtn_certs::{Cert, CertError, KeyName};
use std::alloc::Global;

/// As `is_field`.
pub fn is_field(text: &[u8]) -> bool
    ensures { result ≡ field_test text.now }
{
    mtn_certs::is_field(text)
}

/// As `Cert::new`.
pub fn new(
    alloc: Global,
    revision: Id,
    name: &[u8],
    key: Id,
    value: &[u8],
    signature: &[u8],
) -> Result<Cert, CertError>
    ensures ok { IfOk result (λ c. c ≡ certificate revision name.now key value.now signature.now) }
    ensures lawful { OnOk result (fault_of (certificate revision name.now key value.now signature.now) ≡ None) }
    ensures ids { OnOk result (IsIdBytes revision.0 × IsIdBytes key.0) }
    ensures err { IfErr result (λ e. (e ≡ CertError.NoMemory)
        ⊎ (fault_of (certificate revision name.now key value.now signature.now) ≡ Some e)) }
{
    Cert::new(alloc, revision, name, key, value, signature)
}

/// As `list`.
pub fn list(certs: &[Cert], keys: &[KeyName], out: &mut Vec<u8>) -> Result<(), NoMemory>
    ensures ok { OnOk result (out.new.items ≡ out.old.items ++ certs_text (name_in keys.now) certs.now) }
    ensures err { OnErr result (out.new.items ≡ out.old.items) }
{
    mtn_certs::list(certs, keys, out)
}
