// Sets of positions that the graph has no call for.
ghost use Rattle.std.specs.Prelude.{◌≡◌, ◌<◌, ◌↔◌, ℕ, length, Contains, IsTrue, IfOk};
ghost use Rattle.mtn_ancestry.specs.Log.{list_of, parents_of};
ghost use Rattle.mtn_ancestry.specs.Sets.{IsAscendingListOf};
ghost use Rattle.mtn_graph_queries.specs.Places.{IsWanted};

use mtn_ancestry::{Graph, ParentList, Pos, PosSet};
use mtn_base::NoMemory;
use std::alloc::Global;

// Which revisions are wanted, by their parents.
#[derive(Clone, Copy)]
pub enum Wanted {
    Any,
    Roots,
    Children { of: Pos },
}

fn has_parent(parents: &ParentList, of: Pos) -> bool
    ensures { IsTrue result ↔ Contains (list_of parents.now) of }
{
    match parents {
        ParentList::Zero => false,
        ParentList::One(p) => p.0 == of.0,
        ParentList::Two(p, q) => p.0 == of.0 || q.0 == of.0,
    }
}

fn is_wanted(wanted: &Wanted, parents: &ParentList) -> bool
    ensures { IsTrue result ↔ IsWanted wanted.now (list_of parents.now) }
{
    match wanted {
        Wanted::Any => true,
        Wanted::Roots => matches!(parents, ParentList::Zero),
        Wanted::Children { of } => has_parent(parents, *of),
    }
}

// The positions of the wanted revisions.
pub fn places_of(alloc: Global, graph: &Graph, wanted: &Wanted) -> Result<Vec<Pos>, NoMemory>
    ensures { IfOk result (λ v. (x : ℕ) → Contains v.items x ↔ ((x < length graph.now) × IsWanted wanted.now (parents_of graph.now x))) }
{
    let log = graph.entries();
    let mut found = Vec::new(alloc);
    for at in 0..log.len() {
        if is_wanted(wanted, &log[at].parents) {
            found.push(Pos(at as u64))?;
        }
    }
    Ok(found)
}

fn is_in_neither(at: Pos, some: &PosSet, others: &PosSet) -> bool
    ensures { IsTrue result ↔ (¬ Contains some.now at × ¬ Contains others.now at) }
{
    !some.has(at) && !others.has(at)
}

// The positions of a set that are in neither of two others.
pub fn without(
    alloc: Global,
    all: &PosSet,
    some: &PosSet,
    others: &PosSet,
) -> Result<Vec<Pos>, NoMemory>
    ensures { IfOk result (λ v. IsAscendingListOf (λ x. Contains all.now x × ¬ Contains some.now x × ¬ Contains others.now x) v.items) }
{
    let mut found = Vec::new(alloc);
    for at in all.as_slice() {
        if is_in_neither(*at, some, others) {
            found.push(*at)?;
        }
    }
    Ok(found)
}
