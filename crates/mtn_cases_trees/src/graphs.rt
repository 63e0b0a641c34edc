// Questions about a graph.
ghost use Rattle.std.specs.Prelude.{◌<◌, All, IsTrue, length};

use crate::said::Said;
use crate::words::{place_of, position_of, positions_of};
use mtn_ancestry::{Graph, ParentList, Pos, PosSet};
use mtn_base::Id;
use mtn_case_trees::{both_alone, id_of, push};
use std::alloc::Global;

fn parents_at(words: &[Pos]) -> Option<ParentList> {
    match words {
        [] => Some(ParentList::Zero),
        [parent] => Some(ParentList::One(*parent)),
        [first, second] => Some(ParentList::Two(*first, *second)),
        _ => None,
    }
}

fn parents_of(alloc: Global, line: &[u8]) -> Option<Vec<Pos>> {
    let mut parents = Vec::new(alloc);
    for word in line.split(|byte| *byte == b' ') {
        if !word.is_empty() {
            parents.push(position_of(word)?).ok()?;
        }
    }
    Some(parents)
}

fn add_line(alloc: Global, graph: &mut Graph, line: &[u8]) -> Option<()> {
    let parents = parents_at(&parents_of(alloc, line)?)?;
    let id = Id([graph.len().min(255) as u8; 20]);
    push(graph, id, parents)
}

/// The graph of the lines of a case. The id of each revision is that of its position's digit.
fn graph_of(alloc: Global, case: &[u8]) -> Option<Graph> {
    let mut graph = Graph::new(alloc);
    for line in case.split(|byte| *byte == b'\n') {
        if let Some(rest) = line.strip_prefix(b"pos") {
            add_line(alloc, &mut graph, rest)?;
        }
    }
    Some(graph)
}

/// Whether the graph has all these positions.
fn are_within(graph: &Graph, of: &[Pos]) -> bool
    ensures { IsTrue result → All (λ p. p < length graph.now) of.now }
{
    let len = graph.len();
    of.iter().all(|at| at.0 < len)
}

// The words of questions, those of several positions first.
const WORDS: &str = "ancestors descendents common erase toposort is_ancestor uncommon find id";

/// The set that a question of several positions asks for.
fn set_of(alloc: Global, graph: &Graph, word: usize, of: &[Pos]) -> Option<PosSet> {
    if !are_within(graph, of) {
        return None;
    }
    match word {
        0 => graph.ancestors(alloc, of).ok(),
        1 => graph.descendents(alloc, of).ok(),
        2 if !of.is_empty() => graph.common(alloc, of).ok(),
        3 => graph.erase_ancestors(alloc, of).ok(),
        _ => None,
    }
}

fn put_sorted(alloc: Global, graph: &Graph, of: &[Pos], said: &mut Said) -> Option<()> {
    if !are_within(graph, of) {
        return None;
    }
    said.put_positions(&graph.toposort(alloc, of).ok()?);
    Some(())
}

/// Answers a question of several positions.
fn put_several(
    alloc: Global,
    graph: &Graph,
    word: usize,
    of: &[Pos],
    said: &mut Said,
) -> Option<()> {
    if word == 4 {
        return put_sorted(alloc, graph, of, said);
    }
    said.put_positions(set_of(alloc, graph, word, of)?.as_slice());
    Some(())
}

fn put_sets(sets: &(PosSet, PosSet), said: &mut Said) {
    said.put_positions(sets.0.as_slice());
    said.put(b" |");
    said.put_positions(sets.1.as_slice());
}

fn put_is_ancestor(
    alloc: Global,
    graph: &Graph,
    older: Pos,
    newer: Pos,
    said: &mut Said,
) -> Option<()> {
    let len = graph.len();
    if older.0 >= len || newer.0 >= len {
        return None;
    }
    let is_older = graph.is_ancestor(alloc, older, newer).ok()?;
    said.put(if is_older { b"yes" } else { b"no" });
    Some(())
}

fn put_position(graph: &Graph, digit: &[u8], said: &mut Said) -> Option<()> {
    match graph.find(id_of(digit)?) {
        Some(at) => said.put_number(at.0),
        None => said.put(b"nothing"),
    }
    Some(())
}

fn put_id_at(graph: &Graph, digit: &[u8], said: &mut Said) -> Option<()> {
    match graph.id(position_of(digit)?) {
        Some(id) => said.put_id(id),
        None => said.put(b"nothing"),
    }
    Some(())
}

/// Answers a question of two positions.
fn put_pair(
    alloc: Global,
    graph: &mut Graph,
    word: usize,
    first: Pos,
    second: Pos,
    said: &mut Said,
) -> Option<()> {
    if word == 5 {
        return put_is_ancestor(alloc, graph, first, second, said);
    }
    put_sets(&both_alone(alloc, graph, first, second)?, said);
    Some(())
}

/// Answers a question of positions.
fn put_of(
    alloc: Global,
    graph: &mut Graph,
    word: usize,
    of: &[Pos],
    said: &mut Said,
) -> Option<()> {
    match of {
        [first, second] if word > 4 => put_pair(alloc, graph, word, *first, *second, said),
        _ => put_several(alloc, graph, word, of, said),
    }
}

fn put_answer(
    alloc: Global,
    graph: &mut Graph,
    word: usize,
    rest: &[&[u8]],
    said: &mut Said,
) -> Option<()> {
    match word {
        7 => put_position(graph, rest.first()?, said),
        8 => put_id_at(graph, rest.first()?, said),
        _ => put_of(alloc, graph, word, &positions_of(alloc, rest)?, said),
    }
}

/// Answers a question about the graph of a case: `find DIGIT`, `id POSITION`, `is_ancestor OLDER NEWER`, `uncommon LEFT RIGHT`,
/// and of several positions `ancestors`, `descendents`, `common`, `erase` and `toposort`.
pub fn answer(alloc: Global, case: &[u8], args: &[&[u8]], said: &mut Said) -> Option<()> {
    let (word, rest) = args.split_first()?;
    let word = place_of(word, WORDS);
    put_answer(alloc, &mut graph_of(alloc, case)?, word, rest, said)?;
    said.put(b"\n");
    Some(())
}
