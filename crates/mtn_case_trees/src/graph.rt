// The graph of the revisions of a case.
use crate::id_of;
use mtn_ancestry::{Graph, ParentList, Pos, PosSet, uncommon};
use mtn_base::Id;
use std::alloc::Global;

fn push_two(graph: &mut Graph, id: Id, p: Pos, q: Pos) -> Option<()> {
    let len = graph.len();
    if p.0 >= len || q.0 >= len || graph.find(id).is_some() {
        return None;
    }
    graph.push(id, ParentList::Two(p, q)).ok()?;
    Some(())
}

fn push_one(graph: &mut Graph, id: Id, p: Pos) -> Option<()> {
    let len = graph.len();
    if p.0 >= len || graph.find(id).is_some() {
        return None;
    }
    graph.push(id, ParentList::One(p)).ok()?;
    Some(())
}

fn push_root(graph: &mut Graph, id: Id) -> Option<()> {
    if graph.find(id).is_some() {
        return None;
    }
    graph.push(id, ParentList::Zero).ok()?;
    Some(())
}

/// Appends a revision. None where the graph has its id, or lacks a parent.
pub fn push(graph: &mut Graph, id: Id, parents: ParentList) -> Option<()> {
    match parents {
        ParentList::Two(p, q) => push_two(graph, id, p, q),
        ParentList::One(p) => push_one(graph, id, p),
        ParentList::Zero => push_root(graph, id),
    }
}

/// The position of the revision of a digit.
pub fn find(graph: &Graph, digit: &[u8]) -> Option<Pos> {
    graph.find(id_of(digit)?)
}

fn two_of(graph: &Graph, first: &[u8], second: &[u8]) -> Option<ParentList> {
    let first = find(graph, first)?;
    Some(ParentList::Two(first, find(graph, second)?))
}

/// The parents that digits tell.
pub fn parents_of(graph: &Graph, digits: &[&[u8]]) -> Option<ParentList> {
    match digits {
        [] => Some(ParentList::Zero),
        [parent] => Some(ParentList::One(find(graph, parent)?)),
        [first, second] => two_of(graph, first, second),
        _ => None,
    }
}

/// The ancestors that each of two revisions has alone.
pub fn both_alone(
    alloc: Global,
    graph: &mut Graph,
    left: Pos,
    right: Pos,
) -> Option<(PosSet, PosSet)> {
    let len = graph.len();
    if left.0 < len && right.0 < len {
        uncommon(alloc, graph, left, right).ok()
    } else {
        None
    }
}
