//! Certificates and key names.
ghost use Rattle.std.specs.Prelude.{◌≡◌, IfOk, map};
ghost use Rattle.mtn_certs.specs.Order.{in_order};

use mtn_base::NoMemory;
use mtn_certs::{Cert, KeyName};
use std::alloc::Global;

/// As `Cert::copy`.
pub fn copy_cert(cert: &Cert, alloc: Global) -> Result<Cert, NoMemory>
    ensures { IfOk result (λ c. c ≡ cert.now) }
{
    cert.copy(alloc)
}

/// As `KeyName::copy`.
pub fn copy_key_name(named: &KeyName, alloc: Global) -> Result<KeyName, NoMemory>
    ensures { IfOk result (λ k. k ≡ named.now) }
{
    named.copy(alloc)
}

/// As `mtn_certs::sorted_of`.
pub fn sorted_of<'a>(alloc: Global, certs: &'a [Cert]) -> Result<Vec<&'a Cert>, NoMemory>
    ensures { IfOk result (λ v. map (λ b. b.now) v.items ≡ in_order certs.now) }
{
    mtn_certs::sorted_of(alloc, certs)
}
