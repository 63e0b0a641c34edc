// Marks, rosters, and what a revision's text makes.
use crate::said::Said;
use mtn_ancestry::{Graph, Pos, PosSet};
use mtn_base::{Cause, Id, Refusal};
use mtn_case_trees::{History, both_alone, find, id_of};
use mtn_changes::read_revision;
use mtn_make_roster::{Basis, MakeError, Uncommon, WalkedTree, make, mark};
use mtn_marking::{AttrMarks, MarkMap, MarkedRoster, Marking};
use mtn_roster::Roster;
use mtn_roster_text::{IdTable, marked_positions, write};
use std::alloc::Global;
use std::collections::BTreeSet;

fn put_attrs(attrs: &[AttrMarks], said: &mut Said) {
    for attr in attrs {
        said.put(b" ");
        said.put(attr.key.as_slice());
        said.put_positions(attr.marks.as_slice());
    }
}

fn put_marking(marking: &Marking, said: &mut Said) {
    said.put(b" born ");
    said.put_number(marking.birth.0);
    said.put(b" slot");
    said.put_positions(marking.slot.as_slice());
    if let Some(content) = &marking.content {
        said.put(b" content");
        said.put_positions(content.as_slice());
    }
    put_attrs(marking.attrs.as_slice(), said);
}

fn put_map(map: &MarkMap, said: &mut Said) {
    for place in 0..map.len() {
        if let Some(node) = map.at_place(place as usize) {
            said.put_name(&node.name);
            put_marking(&node.marking, said);
            said.put(b"\n");
        }
    }
}

/// Prints the marks of a revision, a node a line.
pub fn put_marks_of(alloc: Global, case: &[u8], id: &[u8], said: &mut Said) -> Option<()> {
    let history = History::read(alloc, case)?;
    put_map(history.tree(id)?.marks(), said);
    Some(())
}

/// The ids of the revisions at positions.
fn ids_of(alloc: Global, graph: &Graph, places: &[Pos]) -> Option<Vec<Id>> {
    let mut ids = Vec::new(alloc);
    for at in places {
        ids.push(graph.id(*at)?).ok()?;
    }
    Some(ids)
}

/// The ids of the positions that a roster marks.
fn table_of(alloc: Global, graph: &Graph, marked: &MarkedRoster) -> Option<IdTable> {
    let places = marked_positions(alloc, marked).ok()?;
    let ids = ids_of(alloc, graph, &places)?;
    IdTable::new(alloc, &places, &ids).ok()
}

fn put_roster(alloc: Global, graph: &Graph, marked: &MarkedRoster, said: &mut Said) -> Option<()> {
    let done = write(marked, &table_of(alloc, graph, marked)?, &mut said.text);
    said.keep(done);
    Some(())
}

/// Prints the roster of a revision.
pub fn put_roster_of(alloc: Global, case: &[u8], id: &[u8], said: &mut Said) -> Option<()> {
    let history = History::read(alloc, case)?;
    put_roster(alloc, &history.graph, history.tree(id)?, said)
}

fn id_set(alloc: Global, graph: &Graph, places: &[Pos]) -> Option<BTreeSet<Id>> {
    let mut ids = BTreeSet::new(alloc);
    for at in places {
        ids.insert(graph.id(*at)?).ok()?;
    }
    Some(ids)
}

/// Positions that a parent has alone, and their ids.
fn uncommon_of(alloc: Global, graph: &Graph, positions: PosSet) -> Option<Uncommon> {
    let ids = id_set(alloc, graph, positions.as_slice())?;
    Some(Uncommon { positions, ids })
}

fn both_uncommon(
    alloc: Global,
    graph: &Graph,
    left: PosSet,
    right: PosSet,
) -> Option<(Uncommon, Uncommon)> {
    let left = uncommon_of(alloc, graph, left)?;
    Some((left, uncommon_of(alloc, graph, right)?))
}

/// What each of two revisions has alone.
fn only_of(
    alloc: Global,
    graph: &mut Graph,
    first: &[u8],
    second: &[u8],
) -> Option<(Uncommon, Uncommon)> {
    let first = find(graph, first)?;
    let second = find(graph, second)?;
    let (left, right) = both_alone(alloc, graph, first, second)?;
    both_uncommon(alloc, graph, left, right)
}

fn put_walked(alloc: Global, tree: Roster, basis: &Basis, at: Pos, said: &mut Said) -> Option<()> {
    said.put_tree(&tree);
    put_map(mark(alloc, tree, basis, at).ok()?.marks(), said);
    Some(())
}

fn put_refused(cause: Cause, said: &mut Said) {
    let done = Refusal { packet: 0, cause }.print(&mut said.text);
    said.keep(done);
}

fn put_error(error: MakeError, said: &mut Said) {
    match error {
        MakeError::Refused(cause) => put_refused(cause, said),
        MakeError::Damaged => said.put(b"damaged\n"),
        MakeError::NoMemory => said.is_whole = false,
    }
}

fn made_of(
    alloc: Global,
    basis: &Basis,
    id: Id,
    text: &[u8],
) -> Option<Result<WalkedTree, MakeError>> {
    let revision = read_revision(alloc, text).ok()?;
    Some(make(alloc, revision.edges.as_slice(), basis, id))
}

/// Prints the tree that a text makes over a basis, and its marks; or why there is none.
fn put_over(
    alloc: Global,
    basis: &Basis,
    id: Id,
    at: Pos,
    text: &[u8],
    said: &mut Said,
) -> Option<()> {
    match made_of(alloc, basis, id, text)? {
        Ok(made) => put_walked(alloc, made.tree, basis, at, said),
        Err(error) => {
            put_error(error, said);
            Some(())
        }
    }
}

/// The same over two revisions, of which it is told what each has alone.
fn put_over_known(
    alloc: Global,
    history: &History,
    sides: [&[u8]; 2],
    only: &(Uncommon, Uncommon),
    id: Id,
    text: &[u8],
    said: &mut Said,
) -> Option<()> {
    let basis = Basis::Two {
        left: history.tree(sides[0])?,
        right: history.tree(sides[1])?,
        only_left: &only.0,
        only_right: &only.1,
    };
    put_over(alloc, &basis, id, history.end(), text, said)
}

fn put_over_two(
    alloc: Global,
    history: &mut History,
    sides: [&[u8]; 2],
    id: Id,
    text: &[u8],
    said: &mut Said,
) -> Option<()> {
    let only = only_of(alloc, &mut history.graph, sides[0], sides[1])?;
    put_over_known(alloc, history, sides, &only, id, text, said)
}

fn put_over_one(
    alloc: Global,
    history: &History,
    parent: &[u8],
    id: Id,
    text: &[u8],
    said: &mut Said,
) -> Option<()> {
    let basis = Basis::One(history.tree(parent)?);
    put_over(alloc, &basis, id, history.end(), text, said)
}

fn put_over_parents(
    alloc: Global,
    history: &mut History,
    parents: &[&[u8]],
    id: Id,
    text: &[u8],
    said: &mut Said,
) -> Option<()> {
    match parents {
        [] => put_over(alloc, &Basis::Root, id, history.end(), text, said),
        [parent] => put_over_one(alloc, history, parent, id, text, said),
        [left, right] => put_over_two(alloc, history, [*left, *right], id, text, said),
        _ => None,
    }
}

/// Prints what a text makes over revisions of the case.
pub fn put_made(
    alloc: Global,
    case: &[u8],
    args: &[&[u8]],
    text: &[u8],
    said: &mut Said,
) -> Option<()> {
    let (id, parents) = args.split_first()?;
    let new = id_of(id)?;
    put_over_parents(
        alloc,
        &mut History::read(alloc, case)?,
        parents,
        new,
        text,
        said,
    )
}
