// Which branches there are.
ghost use Rattle.std.specs.Prelude.{◌≡◌, Contains, map, IfOk};
ghost use Rattle.std.specs.Ordering.{is_eq};
ghost use Rattle.mtn_base.specs.Names.{bytes_cmp};
ghost use Rattle.mtn_base.specs.Lists.{IsListOf};
ghost use Rattle.mtn_branches.specs.Branches.{IsBranch, NamesBranch};
ghost use Rattle.mtn_branches.specs.Images.{IsImage};

use crate::naming::is_of_branch;
use mtn_base::{Bytes, NoMemory};
use mtn_certs::Cert;
use std::alloc::Global;
use std::cmp::Ordering;

fn compare(a: &Cert, b: &Cert) -> Ordering
    ensures { result ≡ bytes_cmp a.now.value b.now.value }
{
    a.value.as_slice().cmp(b.value.as_slice())
}

fn compare_refs(a: &&Cert, b: &&Cert) -> Ordering
    ensures { result ≡ bytes_cmp a.now.now.value b.now.now.value }
{
    compare(a, b)
}

fn same_refs(a: &mut &Cert, b: &mut &Cert) -> bool
    ensures same { result ≡ is_eq (bytes_cmp a.old.now.value b.old.now.value) }
    ensures first { a.new ≡ a.old }
    ensures second { b.new ≡ b.old }
{
    compare(a, b).is_eq()
}

// The certificates that make members.
fn naming<'a>(alloc: Global, certs: &'a [Cert]) -> Result<Vec<&'a Cert>, NoMemory>
    ensures { IfOk result (λ v. IsImage NamesBranch certs.now (map (λ b. b.now.value) v.items)) }
{
    let mut naming = Vec::new(alloc);
    for cert in certs {
        if is_of_branch(cert) {
            naming.push(cert)?;
        }
    }
    Ok(naming)
}

// The values of certificates.
fn values_of(alloc: Global, certs: &[&Cert]) -> Result<Vec<Bytes>, NoMemory>
    ensures { IfOk result (λ v. v.items ≡ map (λ b. b.now.value) certs.now) }
{
    let mut values = Vec::with_capacity(alloc, certs.len())?;
    for cert in certs {
        values.push(cert.value.copy(alloc)?)?;
    }
    Ok(values)
}

/// The branches that have a member, in the order of their bytes.
pub fn branches(alloc: Global, certs: &[Cert]) -> Result<Vec<Bytes>, NoMemory>
    ensures { IfOk result (λ values. IsListOf bytes_cmp (IsBranch (Contains certs.now)) values.items) }
{
    let mut naming = naming(alloc, certs)?;
    naming.sort_unstable_by(compare_refs);
    naming.dedup_by(same_refs);
    values_of(alloc, &naming)
}
