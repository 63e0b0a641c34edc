//! Graphs of revisions.
ghost use Rattle.std.specs.List.Sorted.{IsStrictlyIncreasing};
ghost use Rattle.std.specs.Prelude.{[], ◌≡◌};
ghost use Rattle.mtn_ancestry.specs.Log.{IsLog};

use mtn_ancestry::{Graph, LogEntry, Pos, PosSet};
use std::alloc::Global;

/// As `Graph::new`.
pub fn new_graph(alloc: Global) -> Graph
    ensures { result ≡ [] }
{
    Graph::new(alloc)
}

/// As `Graph::entries`.
pub fn entries(graph: &Graph) -> &[LogEntry]
    ensures value { result.now ≡ graph.now }
    ensures log { IsLog result.now }
{
    graph.entries()
}

/// As `PosSet::as_slice`.
pub fn as_slice(set: &PosSet) -> &[Pos]
    ensures value { result.now ≡ set.now }
    ensures ascending { IsStrictlyIncreasing set.now }
{
    set.as_slice()
}
