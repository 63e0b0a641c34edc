// Where the revisions that a query names stand.
ghost use Rattle.std.specs.Prelude.{◌∷◌, [], ◌<◌, List, length, All, IfOk, IfErr};
ghost use Rattle.std.specs.List.{AllZip};
ghost use Rattle.mtn_history_laws.specs.History.{IsPlaceOf, Revision};
ghost use Rattle.mtn_replay.specs.Graphs.{IsGraphOf};
ghost use Rattle.mtn_graph_queries.specs.Queries.{NamesUnknown};

use crate::QueryError;
use mtn_ancestry::{Graph, Pos};
use mtn_base::Id;
use std::alloc::Global;

// Where a revision stands.
pub fn place(graph: &Graph, id: Id) -> Result<Pos, QueryError>
    ensures within { IfOk result (λ at. at < length graph.now) }
    ensures found { (h : List Revision) → IsGraphOf h graph.now → IfOk result (IsPlaceOf h id) }
    ensures unknown { (h : List Revision) → IsGraphOf h graph.now → IfErr result (NamesUnknown h (id ∷ [])) }
{
    match graph.find(id) {
        Some(at) => Ok(at),
        None => Err(QueryError::Unknown(id)),
    }
}

// Where these stand, in their order, or the first that stands nowhere.
pub fn places(alloc: Global, graph: &Graph, ids: &[Id]) -> Result<Vec<Pos>, QueryError>
    ensures within { IfOk result (λ v. All (λ at. at < length graph.now) v.items) }
    ensures found { (h : List Revision) → IsGraphOf h graph.now → IfOk result (λ v. AllZip (IsPlaceOf h) ids.now v.items) }
    ensures unknown { (h : List Revision) → IsGraphOf h graph.now → IfErr result (NamesUnknown h ids.now) }
{
    let mut at = Vec::new(alloc);
    for id in ids {
        at.push(place(graph, *id)?)?;
    }
    Ok(at)
}
