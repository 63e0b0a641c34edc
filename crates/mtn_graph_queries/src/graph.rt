// The whole graph as lines.
ghost use Rattle.std.specs.Prelude.{◌≡◌, List as Seq, IfOk};
ghost use Rattle.mtn_history_laws.specs.History.{Revision};
ghost use Rattle.mtn_replay.specs.Graphs.{IsGraphOf};
ghost use Rattle.mtn_answers.specs.Lines.{HasParents, IsGraph};

use crate::Line;
use crate::answers::parents_at;
use crate::ids::sorted_ids;
use crate::sets::{Wanted, places_of};
use mtn_ancestry::Graph;
use mtn_base::{Id, List, NoMemory};
use std::alloc::Global;

// A revision with its parents; an id that the graph does not have has none.
fn line(alloc: Global, graph: &Graph, id: Id) -> Result<Line, NoMemory>
    ensures id { IfOk result (λ line. line.id ≡ id) }
    ensures parents { IfOk result (λ line. (h : Seq Revision) → IsGraphOf h graph.now → HasParents h line) }
{
    let parents = match graph.find(id) {
        Some(at) => parents_at(alloc, graph, at)?,
        None => List::new(alloc),
    };
    Ok(Line { id, parents })
}

/// A line for each revision, by ascending ids, with its parents, ascending too.
pub fn lines(alloc: Global, graph: &Graph) -> Result<List<Line>, NoMemory>
    ensures { IfOk result (λ lines. (h : Seq Revision) → IsGraphOf h graph.now → IsGraph h lines) }
{
    let all = places_of(alloc, graph, &Wanted::Any)?;
    let ids = sorted_ids(alloc, graph, &all)?;
    let mut lines = List::new(alloc);
    for id in ids.as_slice() {
        lines.push(line(alloc, graph, *id)?)?;
    }
    Ok(lines)
}
