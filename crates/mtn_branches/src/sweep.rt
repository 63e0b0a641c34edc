// The heads of a branch.
ghost use Rattle.std.specs.Prelude.{Contains, IfOk};
ghost use Rattle.mtn_base.specs.Ids.{by_id};
ghost use Rattle.mtn_base.specs.declared.id.Id.{Id as Named};
ghost use Rattle.mtn_base.specs.Lists.{IsListOf};
ghost use Rattle.mtn_branches.specs.Branches.{IsHead, IsMember};
ghost use Rattle.mtn_branches.specs.Graphs.{IsHeldBy, IsProperlyAbove, StandsAt, IsIdAt};
ghost use Rattle.mtn_branches.specs.Images.{IsImage};

use crate::naming::named;
use mtn_ancestry::{Graph, Pos};
use mtn_base::{Id, NoMemory, put_in_order};
use mtn_certs::Cert;
use std::alloc::Global;

// Where revisions stand.
fn places_of(alloc: Global, graph: &Graph, ids: &[Id]) -> Result<Vec<Pos>, NoMemory>
    ensures { IfOk result (λ places. IsImage (StandsAt graph.now) ids.now places.items) }
{
    let mut places = Vec::new(alloc);
    for id in ids {
        match graph.find(*id) {
            Some(at) => places.push(at)?,
            None => {}
        }
    }
    Ok(places)
}

// The ids of what stands at positions.
fn ids_at(alloc: Global, graph: &Graph, places: &[Pos]) -> Result<Vec<Id>, NoMemory>
    ensures { IfOk result (λ ids. IsImage (IsIdAt graph.now) places.now ids.items) }
{
    let mut ids = Vec::new(alloc);
    for at in places {
        match graph.id(*at) {
            Some(id) => ids.push(id)?,
            None => {}
        }
    }
    Ok(ids)
}

/// The heads of a branch, by ascending ids. The graph has each member. It is one sweep over the graph.
pub fn heads(
    alloc: Global,
    graph: &Graph,
    certs: &[Cert],
    branch: &[u8],
) -> Result<Vec<Id>, NoMemory>
    requires { (r : Named) → IsMember (Contains certs.now) branch.now r → IsHeldBy graph.now r }
    ensures { IfOk result (λ ids. IsListOf by_id (IsHead (IsProperlyAbove graph.now) (IsMember (Contains certs.now) branch.now)) ids.items) }
{
    let _log = graph.len();
    let ids = named(alloc, certs, branch)?;
    let places = places_of(alloc, graph, &ids)?;
    let found = graph.erase_ancestors(alloc, &places)?;
    let mut heads = ids_at(alloc, graph, found.as_slice())?;
    put_in_order(&mut heads);
    Ok(heads)
}
