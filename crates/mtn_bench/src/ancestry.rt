// The graph of revisions (bench/ancestry.sh).
ghost use Rattle.std.specs.Prelude.{◌≡◌, ◌<◌, ◌+◌, All, IsTrue, length};

use crate::sections::number_of;
use crate::watch::Watch;
use mtn_ancestry::{Graph, ParentList, Pos, uncommon};
use mtn_base::Id;
use mtn_case_trees::push;
use std::alloc::Global;

// The id of the revision at a position.
fn id_at(position: u64) -> Id {
    let mut bytes = [0; 20];
    bytes[..8].copy_from_slice(&position.to_be_bytes());
    Id(bytes)
}

// Appends a revision whose parents stand in the graph.
fn add(graph: &mut Graph, parents: ParentList) -> Option<()> {
    let id = id_at(graph.len());
    push(graph, id, parents)
}

// Appends a fork of two revisions and their merge.
fn add_diamond(graph: &mut Graph) -> Option<()> {
    let last = graph.len().saturating_sub(1);
    let left = last.saturating_add(1);
    add(graph, ParentList::One(Pos(last)))?;
    add(graph, ParentList::One(Pos(last)))?;
    add(
        graph,
        ParentList::Two(Pos(left), Pos(left.saturating_add(1))),
    )
}

fn diamonds(alloc: Global, count: u64) -> Option<Graph> {
    let mut graph = Graph::new(alloc);
    add(&mut graph, ParentList::Zero)?;
    for _ in 0..count {
        add_diamond(&mut graph)?;
    }
    Some(graph)
}

fn are_within(graph: &Graph, of: &[Pos]) -> bool
    ensures { IsTrue result → All (λ p. p < length graph.now) of.now }
{
    let len = graph.len();
    for at in of {
        if len <= at.0 {
            return false;
        }
    }
    true
}

fn common_of(alloc: Global, graph: &Graph, of: &[Pos]) -> Option<usize> {
    if of.is_empty() || !are_within(graph, of) {
        return None;
    }
    Some(graph.common(alloc, of).ok()?.as_slice().len())
}

// How many ancestors the newest four revisions have in common.
fn common_of_newest(alloc: Global, graph: &Graph) -> Option<usize> {
    let last = graph.len().checked_sub(4)?;
    let tips = [Pos(last + 3), Pos(last + 2), Pos(last + 1), Pos(last)];
    common_of(alloc, graph, &tips)
}

// How many ancestors the newest revision has.
fn ancestors_of_newest(alloc: Global, graph: &Graph) -> Option<usize> {
    let newest = [Pos(graph.len().checked_sub(1)?)];
    if !are_within(graph, &newest) {
        return None;
    }
    Some(graph.ancestors(alloc, &newest).ok()?.as_slice().len())
}

/// Whether the root is an ancestor of the newest revision. A step.
fn is_root_older(rt: &HostRuntime, watch: &mut Watch, graph: &Graph) -> Option<bool> {
    let newest = graph.len().checked_sub(1)?;
    watch.begin(rt);
    let is_older = graph.is_ancestor(rt.alloc(), Pos(0), Pos(newest)).ok()?;
    watch.lap(rt);
    Some(is_older)
}

/// How many revisions each side of the last fork has alone. A step.
fn uncommon_of_fork(
    rt: &HostRuntime,
    watch: &mut Watch,
    graph: &mut Graph,
) -> Option<(usize, usize)> {
    let fork = graph.len().checked_sub(3)?;
    watch.begin(rt);
    let sets = uncommon(rt.alloc(), graph, Pos(fork), Pos(fork + 1)).ok()?;
    let counts = (sets.0.as_slice().len(), sets.1.as_slice().len());
    watch.lap(rt);
    Some(counts)
}

fn answers_line(
    alloc: Global,
    is_old: bool,
    ancestors: usize,
    fork: (usize, usize),
    common: usize,
) -> Option<Vec<u8>> {
    let (left, right) = fork;
    let line = format!(in alloc; "{is_old} {ancestors} {left} {right} {common}\n").ok()?;
    Some(line.into_bytes())
}

/// What the steps behind the making of a graph tell.
fn answers_of(rt: &HostRuntime, watch: &mut Watch, graph: &mut Graph) -> Option<Vec<u8>> {
    let is_old = is_root_older(rt, watch, graph)?;
    let ancestors = ancestors_of_newest(rt.alloc(), graph)?;
    watch.lap(rt);
    let fork = uncommon_of_fork(rt, watch, graph)?;
    watch.begin(rt);
    let common = common_of_newest(rt.alloc(), graph)?;
    watch.lap(rt);
    answers_line(rt.alloc(), is_old, ancestors, fork, common)
}

/// Makes a graph of a root and as many diamonds as the text says, each a fork of two revisions and their merge.
/// Steps: making it; whether the root is an ancestor of the newest; the ancestors of the newest; what the last fork
/// has not in common; what the newest four have in common.
pub fn ancestry(rt: &HostRuntime, watch: &mut Watch, text: &[u8]) -> Option<Vec<u8>> {
    watch.begin(rt);
    let mut graph = diamonds(rt.alloc(), number_of(text))?;
    watch.lap(rt);
    answers_of(rt, watch, &mut graph)
}
