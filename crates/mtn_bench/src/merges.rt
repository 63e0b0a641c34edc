// What a merge decides, and its conflicts (bench/decide.sh, bench/conflicts.sh).
use crate::tree::built;
use crate::watch::Watch;
use mtn_ancestry::{Pos, PosSet};
use mtn_case_trees::entries_of;
use mtn_conflicts::{Conflicts, conflicts};
use mtn_decide::{Decisions, decide};
use mtn_marking::{MarkedRoster, mark_one, mark_root};
use mtn_roster::Roster;
use std::alloc::Global;

/// The marked tree `base` of a text. A step: building its roster.
fn root_of(rt: &HostRuntime, watch: &mut Watch, text: &[u8]) -> Option<MarkedRoster> {
    let alloc = rt.alloc();
    let roster = built(rt, watch, entries_of(alloc, text, b"base ")?)?;
    let marks = mark_root(alloc, &roster, Pos(0)).ok()?;
    Some(MarkedRoster::new(roster, marks))
}

/// A marked child, whose tree has that name.
fn child_of(
    alloc: Global,
    parent: &MarkedRoster,
    text: &[u8],
    name: &[u8],
    at: Pos,
) -> Option<MarkedRoster> {
    let roster = Roster::build(alloc, entries_of(alloc, text, name)?).ok()?;
    let marks = mark_one(alloc, parent, &roster, at).ok()?;
    Some(MarkedRoster::new(roster, marks))
}

/// Two children, whose trees are `left` and `right`.
#[derive(Drop)]
struct Sides {
    left: MarkedRoster,
    right: MarkedRoster,
}

fn sides_of(alloc: Global, root: &MarkedRoster, text: &[u8]) -> Option<Sides> {
    let left = child_of(alloc, root, text, b"left ", Pos(1))?;
    let right = child_of(alloc, root, text, b"right ", Pos(2))?;
    Some(Sides { left, right })
}

/// The set of one position.
fn only(alloc: Global, at: Pos) -> Option<PosSet> {
    let mut items = Vec::new(alloc);
    items.push(at).ok()?;
    PosSet::new(alloc, items).ok()
}

/// What a merge of both decides, each with the revisions that it alone has. A step.
fn decided(
    rt: &HostRuntime,
    watch: &mut Watch,
    sides: &Sides,
    only_left: &PosSet,
    only_right: &PosSet,
) -> Option<Decisions> {
    watch.begin(rt);
    let decisions = decide(rt.alloc(), &sides.left, &sides.right, only_left, only_right).ok()?;
    watch.lap(rt);
    Some(decisions)
}

/// The conflicts. A step.
fn listed(rt: &HostRuntime, watch: &mut Watch, decisions: &Decisions) -> Option<Conflicts> {
    watch.begin(rt);
    let found = conflicts(rt.alloc(), decisions).ok()?;
    watch.lap(rt);
    Some(found)
}

/// How many nodes live, how many files are pending, how many directories are in loops and how many contents clash.
fn merge_line(alloc: Global, decisions: &Decisions, found: &Conflicts) -> Option<Vec<u8>> {
    let (nodes, pending) = (decisions.nodes().len(), decisions.pending().len());
    let loops = found.directory_loop.as_slice().len();
    let contents = found.content.as_slice().len();
    let line = format!(in alloc; "{nodes} {pending} {loops} {contents}\n").ok()?;
    Some(line.into_bytes())
}

fn decisions_of(rt: &HostRuntime, watch: &mut Watch, sides: &Sides) -> Option<Decisions> {
    let only_left = only(rt.alloc(), Pos(1))?;
    let only_right = only(rt.alloc(), Pos(2))?;
    decided(rt, watch, sides, &only_left, &only_right)
}

fn merged(rt: &HostRuntime, watch: &mut Watch, sides: &Sides) -> Option<Vec<u8>> {
    let decisions = decisions_of(rt, watch, sides)?;
    let found = listed(rt, watch, &decisions)?;
    merge_line(rt.alloc(), &decisions, &found)
}

/// Merges the trees `left` and `right` of a text, two children of its tree `base`; writes how many nodes live, how many files
/// are pending, how many directories are in loops and how many contents clash.
/// Steps: building the tree of their parent, deciding, listing the conflicts.
pub fn merge(rt: &HostRuntime, watch: &mut Watch, text: &[u8]) -> Option<Vec<u8>> {
    let root = root_of(rt, watch, text)?;
    let sides = sides_of(rt.alloc(), &root, text)?;
    merged(rt, watch, &sides)
}
