// The ids of positions.
ghost use Rattle.std.specs.Prelude.{◌≡◌, Contains, IfOk};
ghost use Rattle.mtn_ancestry.specs.Log.{IsLog};
ghost use Rattle.mtn_graph_queries.specs.Places.{ids_at as at_places};
ghost use Rattle.mtn_base.specs.Ids.{by_id};
ghost use Rattle.mtn_base.specs.Lists.{IsListOf};

use mtn_ancestry::{Graph, Pos};
use mtn_base::{Id, List, NoMemory, put_in_order};
use std::alloc::Global;

// The ids of the revisions at these positions, in their order.
pub fn ids_at(alloc: Global, graph: &Graph, at: &[Pos]) -> Result<Vec<Id>, NoMemory>
    ensures log { IsLog graph.now }
    ensures ids { IfOk result (λ ids. ids.items ≡ at_places graph.now at.now) }
{
    let _count = graph.len();
    Ok(at.iter().filter_map(|at| graph.id(*at)).collect(alloc)?)
}

// The same by ascending ids, each once.
pub fn sorted_ids(alloc: Global, graph: &Graph, at: &[Pos]) -> Result<List<Id>, NoMemory>
    ensures log { IsLog graph.now }
    ensures sorted { IfOk result (IsListOf by_id (Contains (at_places graph.now at.now))) }
{
    let mut ids = ids_at(alloc, graph, at)?;
    put_in_order(&mut ids);
    Ok(List::from_vec(ids))
}
