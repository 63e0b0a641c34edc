//! The queries of `mtn_graph_queries`.
ghost use Rattle.std.specs.Prelude.{List as Seq, IfOk};
ghost use Rattle.mtn_answers.specs.Lines.{IsGraph};
ghost use Rattle.mtn_graph_queries.specs.Queries.{AnswersQuery};
ghost use Rattle.mtn_history_laws.specs.History.{Revision};
ghost use Rattle.mtn_replay.specs.Graphs.{IsGraphOf};

use mtn_ancestry::Graph;
use mtn_base::{Id, List, NoMemory};
use mtn_graph_queries::{Line, Query, QueryError, answer, lines};
use std::alloc::Global;

/// `answer`.
pub fn answered(alloc: Global, graph: &Graph, query: &Query) -> Result<List<Id>, QueryError>
    ensures { (h : Seq Revision) → IsGraphOf h graph.now → AnswersQuery h query.now result }
{
    answer(alloc, graph, query)
}

/// `lines`.
pub fn graph_lines(alloc: Global, graph: &Graph) -> Result<List<Line>, NoMemory>
    ensures { IfOk result (λ lines. (h : Seq Revision) → IsGraphOf h graph.now → IsGraph h lines) }
{
    lines(alloc, graph)
}
