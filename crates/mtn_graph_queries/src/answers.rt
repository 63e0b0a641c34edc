// Each query over the graph.
ghost use Rattle.std.specs.Prelude.{◌≡◌, ◌<◌, List as Seq, Some, length, IfOk};
ghost use Rattle.mtn_base.specs.declared.id.Id.{Id};
ghost use Rattle.mtn_history_laws.specs.History.{IsPlaceOf, Revision};
ghost use Rattle.mtn_replay.specs.Graphs.{IsGraphOf};
ghost use Rattle.mtn_base.specs.Ids.{by_id};
ghost use Rattle.mtn_base.specs.Lists.{IsListOf};
ghost use Rattle.mtn_answers.specs.Queries.{IsAnswer, IsParent};
ghost use Rattle.mtn_graph_queries.specs.Queries.{AnswersQuery};

use crate::ids::{ids_at, sorted_ids};
use crate::places::{place, places};
use crate::sets::{Wanted, places_of, without};
use crate::{Query, QueryError};
use mtn_ancestry::{Graph, ParentList, Pos, PosSet};
use mtn_base::{Id, List, NoMemory};
use std::alloc::Global;

/// The answer to a query; Unknown with the first id that it names and the graph does not have.
pub fn answer(alloc: Global, graph: &Graph, query: &Query) -> Result<List<Id>, QueryError>
    ensures { (h : Seq Revision) → IsGraphOf h graph.now → AnswersQuery h query.now result }
{
    match query {
        Query::Parents { of } => parents(alloc, graph, *of),
        Query::Children { of } => children(alloc, graph, *of),
        Query::Ancestors { of } => ancestors(alloc, graph, of.as_slice()),
        Query::Descendents { of } => descendents(alloc, graph, of.as_slice()),
        Query::CommonAncestors { of, others } => common(alloc, graph, *of, others.as_slice()),
        Query::EraseAncestors { of } => erase_ancestors(alloc, graph, of.as_slice()),
        Query::Toposort { of } => toposort(alloc, graph, of.as_slice()),
        Query::AncestryDifference { of, without } => difference(
            alloc,
            graph,
            *of,
            without.as_slice(),
        ),
        Query::Leaves => Ok(leaves(alloc, graph)?),
        Query::Roots => Ok(roots(alloc, graph)?),
    }
}

// The parents of the revision at a position, by ascending ids.
pub fn parents_at(alloc: Global, graph: &Graph, at: Pos) -> Result<List<Id>, NoMemory>
    requires { at < length graph.now }
    ensures { IfOk result (λ ids. (h : Seq Revision) → (id : Id) → IsGraphOf h graph.now → IsPlaceOf h id at → IsListOf by_id (λ x. IsParent h x id) ids) }
{
    match graph.entries()[at.0 as usize].parents {
        ParentList::Zero => sorted_ids(alloc, graph, &[]),
        ParentList::One(p) => sorted_ids(alloc, graph, &[p]),
        ParentList::Two(p, q) => sorted_ids(alloc, graph, &[p, q]),
    }
}

fn parents(alloc: Global, graph: &Graph, of: Id) -> Result<List<Id>, QueryError>
    ensures { (h : Seq Revision) → IsGraphOf h graph.now → AnswersQuery h (Query.Parents of) result }
{
    let at = place(graph, of)?;
    Ok(parents_at(alloc, graph, at)?)
}

fn children(alloc: Global, graph: &Graph, of: Id) -> Result<List<Id>, QueryError>
    ensures { (h : Seq Revision) → IsGraphOf h graph.now → AnswersQuery h (Query.Children of) result }
{
    let at = place(graph, of)?;
    let found = places_of(alloc, graph, &Wanted::Children { of: at })?;
    Ok(sorted_ids(alloc, graph, &found)?)
}

fn ancestors(alloc: Global, graph: &Graph, of: &[Id]) -> Result<List<Id>, QueryError>
    ensures { (h : Seq Revision) → IsGraphOf h graph.now → AnswersQuery h (Query.Ancestors of.now) result }
{
    let at = places(alloc, graph, of)?;
    let found = graph.ancestors(alloc, &at)?;
    Ok(sorted_ids(alloc, graph, found.as_slice())?)
}

fn descendents(alloc: Global, graph: &Graph, of: &[Id]) -> Result<List<Id>, QueryError>
    ensures { (h : Seq Revision) → IsGraphOf h graph.now → AnswersQuery h (Query.Descendents of.now) result }
{
    let at = places(alloc, graph, of)?;
    let found = graph.descendents(alloc, &at)?;
    Ok(sorted_ids(alloc, graph, found.as_slice())?)
}

fn common(alloc: Global, graph: &Graph, of: Id, others: &[Id]) -> Result<List<Id>, QueryError>
    ensures { (h : Seq Revision) → IsGraphOf h graph.now → AnswersQuery h (Query.CommonAncestors of others.now) result }
{
    let first = place(graph, of)?;
    let mut at = places(alloc, graph, others)?;
    at.push(first)?;
    let found = graph.common(alloc, &at)?;
    Ok(sorted_ids(alloc, graph, found.as_slice())?)
}

fn erase_ancestors(alloc: Global, graph: &Graph, of: &[Id]) -> Result<List<Id>, QueryError>
    ensures { (h : Seq Revision) → IsGraphOf h graph.now → AnswersQuery h (Query.EraseAncestors of.now) result }
{
    let at = places(alloc, graph, of)?;
    let found = graph.erase_ancestors(alloc, &at)?;
    Ok(sorted_ids(alloc, graph, found.as_slice())?)
}

fn toposort(alloc: Global, graph: &Graph, of: &[Id]) -> Result<List<Id>, QueryError>
    ensures { (h : Seq Revision) → IsGraphOf h graph.now → AnswersQuery h (Query.Toposort of.now) result }
{
    let at = places(alloc, graph, of)?;
    let found = graph.toposort(alloc, &at)?;
    Ok(List::from_vec(ids_at(alloc, graph, &found)?))
}

fn difference(alloc: Global, graph: &Graph, of: Id, others: &[Id]) -> Result<List<Id>, QueryError>
    ensures { (h : Seq Revision) → IsGraphOf h graph.now → AnswersQuery h (Query.AncestryDifference of others.now) result }
{
    let first = place(graph, of)?;
    let at = places(alloc, graph, others)?;
    let all = graph.common(alloc, &[first])?;
    let given = PosSet::new(alloc, graph.toposort(alloc, &at)?)?;
    let above = graph.ancestors(alloc, &at)?;
    let found = without(alloc, &all, &given, &above)?;
    Ok(List::from_vec(ids_at(alloc, graph, &found)?))
}

fn leaves(alloc: Global, graph: &Graph) -> Result<List<Id>, NoMemory>
    ensures { IfOk result (λ ids. (h : Seq Revision) → IsGraphOf h graph.now → IsAnswer h Query.Leaves ids) }
{
    let all = places_of(alloc, graph, &Wanted::Any)?;
    let found = graph.erase_ancestors(alloc, &all)?;
    sorted_ids(alloc, graph, found.as_slice())
}

fn roots(alloc: Global, graph: &Graph) -> Result<List<Id>, NoMemory>
    ensures { IfOk result (λ ids. (h : Seq Revision) → IsGraphOf h graph.now → IsAnswer h Query.Roots ids) }
{
    let found = places_of(alloc, graph, &Wanted::Roots)?;
    sorted_ids(alloc, graph, &found)
}
