// The members of a branch.
ghost use Rattle.std.specs.Prelude.{◌≡◌, Contains, IfOk};
ghost use Rattle.mtn_base.specs.Ids.{by_id};
ghost use Rattle.mtn_base.specs.Lists.{IsListOf};
ghost use Rattle.mtn_branches.specs.Branches.{IsMember, NamesMember, is_of_branch as branch_test, is_for};
ghost use Rattle.mtn_branches.specs.Images.{IsImage};

use mtn_base::{Id, NoMemory, put_in_order};
use mtn_certs::Cert;
use std::alloc::Global;

/// The name of the certificates that make members.
const BRANCH: &[u8] = b"branch";

/// Whether a certificate makes its revision a member of some branch.
pub fn is_of_branch(cert: &Cert) -> bool
    ensures { result ≡ branch_test cert.now }
{
    cert.name.as_slice() == BRANCH
}

// Whether a certificate makes its revision a member of this branch.
fn is_for_branch(cert: &Cert, branch: &[u8]) -> bool
    ensures { result ≡ is_for branch.now cert.now }
{
    is_of_branch(cert) && cert.value.as_slice() == branch
}

/// The revisions that the certificates make members, in their order.
pub fn named(alloc: Global, certs: &[Cert], branch: &[u8]) -> Result<Vec<Id>, NoMemory>
    ensures { IfOk result (λ ids. IsImage (NamesMember branch.now) certs.now ids.items) }
{
    let mut ids = Vec::new(alloc);
    for cert in certs {
        if is_for_branch(cert, branch) {
            ids.push(cert.revision)?;
        }
    }
    Ok(ids)
}

/// The members of a branch, by ascending ids.
pub fn members(alloc: Global, certs: &[Cert], branch: &[u8]) -> Result<Vec<Id>, NoMemory>
    ensures { IfOk result (λ ids. IsListOf by_id (IsMember (Contains certs.now) branch.now) ids.items) }
{
    let mut ids = named(alloc, certs, branch)?;
    put_in_order(&mut ids);
    Ok(ids)
}
