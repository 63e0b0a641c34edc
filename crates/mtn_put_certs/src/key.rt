// The key under which a certificate's record stands.
ghost use Rattle.std.specs.Prelude.{◌≡◌, IfOk, OnOk};
ghost use Rattle.mtn_certs.specs.Certificates.{IsIdBytes, IsLawfulCertificate};
ghost use Rattle.mtn_history.specs.Certificates.{cert_key as cert_text};

use mtn_base::NoMemory;
use mtn_certs::Cert;
use mtn_records::Field;
use std::alloc::Global;

/// The key of a certificate's record.
pub fn cert_key(alloc: Global, cert: &Cert) -> Result<Vec<u8>, NoMemory>
    ensures key { IfOk result (λ key. key.items ≡ cert_text cert.now) }
    ensures lawful { OnOk result (IsLawfulCertificate cert.now) }
    ensures revision { OnOk result (IsIdBytes cert.now.revision.0) }
    ensures made_by { OnOk result (IsIdBytes cert.now.key.0) }
{
    let _revision = cert.revision.as_slice();
    let _key = cert.key.as_slice();
    let mut key = Vec::new(alloc);
    cert.revision.write(&mut key)?;
    cert.name.write(&mut key)?;
    cert.key.write(&mut key)?;
    cert.value.write(&mut key)?;
    cert.signature.write(&mut key)?;
    Ok(key)
}
