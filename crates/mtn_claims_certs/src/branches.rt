// Members, heads and branches.
ghost use Rattle.std.specs.Prelude.{Contains, IfOk};
ghost use Rattle.mtn_base.specs.Ids.{by_id};
ghost use Rattle.mtn_base.specs.Names.{bytes_cmp};
ghost use Rattle.mtn_base.specs.declared.id.Id.{Id as Named};
ghost use Rattle.mtn_base.specs.Lists.{IsListOf};
ghost use Rattle.mtn_branches.specs.Branches.{IsBranch, IsHead, IsMember};
ghost use Rattle.mtn_branches.specs.Graphs.{IsHeldBy, IsProperlyAbove};

use mtn_ancestry::{Graph, ParentList, Pos};
use mtn_base::{Bytes, Id, NoMemory};
use mtn_certs::Cert;
use std::alloc::Global;

/// As `members`.
pub fn members(alloc: Global, certs: &[Cert], branch: &[u8]) -> Result<Vec<Id>, NoMemory>
    ensures { IfOk result (λ ids. IsListOf by_id (IsMember (Contains certs.now) branch.now) ids.items) }
{
    mtn_branches::members(alloc, certs, branch)
}

/// As `heads`.
pub fn heads(
    alloc: Global,
    graph: &Graph,
    certs: &[Cert],
    branch: &[u8],
) -> Result<Vec<Id>, NoMemory>
    requires { (r : Named) → IsMember (Contains certs.now) branch.now r → IsHeldBy graph.now r }
    ensures { IfOk result (λ ids. IsListOf by_id (IsHead (IsProperlyAbove graph.now) (IsMember (Contains certs.now) branch.now)) ids.items) }
{
    mtn_branches::heads(alloc, graph, certs, branch)
}

/// As `branches`.
pub fn branches(alloc: Global, certs: &[Cert]) -> Result<Vec<Bytes>, NoMemory>
    ensures { IfOk result (λ values. IsListOf bytes_cmp (IsBranch (Contains certs.now)) values.items) }
{
    mtn_branches::branches(alloc, certs)
}
