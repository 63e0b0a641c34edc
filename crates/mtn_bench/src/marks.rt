// Marking (bench/marks.sh).
use crate::tree::{BIRTH, built, entries_of};
use crate::watch::Watch;
use mtn_ancestry::Pos;
use mtn_base::Id;
use mtn_marking::{MarkMap, MarkedRoster, mark_one, mark_root};
use mtn_roster::{Body, Entry};
use std::alloc::Global;

/// The same entries, with another content of the last one.
fn changed_of(alloc: Global, text: &[u8]) -> Option<Vec<Entry>> {
    let mut entries = entries_of(alloc, text, BIRTH)?;
    let mut last = entries.pop()?;
    last.body = Body::File {
        content: Id([3; 20]),
    };
    entries.push(last).ok()?;
    Some(entries)
}

/// How many nodes have a content that was set at a position.
fn set_at(marks: &MarkMap, at: Pos) -> u64 {
    let mut count: u64 = 0;
    for place in 0..marks.len() as usize {
        if let Some(node) = marks.at_place(place) {
            if let Some(set) = &node.marking.content {
                if set.has(at) {
                    count = count.saturating_add(1);
                }
            }
        }
    }
    count
}

/// The marked root of these entries.
fn root_of(rt: &HostRuntime, watch: &mut Watch, entries: Vec<Entry>) -> Option<MarkedRoster> {
    let roster = built(rt, watch, entries)?;
    let marks = mark_root(rt.alloc(), &roster, Pos(0)).ok()?;
    watch.lap(rt);
    Some(MarkedRoster::new(roster, marks))
}

/// The marks of the child of these entries.
fn child_of(
    rt: &HostRuntime,
    watch: &mut Watch,
    parent: &MarkedRoster,
    entries: Vec<Entry>,
) -> Option<MarkMap> {
    let roster = built(rt, watch, entries)?;
    let marks = mark_one(rt.alloc(), parent, &roster, Pos(1)).ok()?;
    watch.lap(rt);
    Some(marks)
}

/// The marks of the child, once its parent is marked. All steps.
fn marks_of(
    rt: &HostRuntime,
    watch: &mut Watch,
    entries: Vec<Entry>,
    changed: Vec<Entry>,
) -> Option<MarkMap> {
    let root = root_of(rt, watch, entries)?;
    child_of(rt, watch, &root, changed)
}

fn marks_line(alloc: Global, marks: &MarkMap) -> Option<Vec<u8>> {
    let line = format!(in alloc; "{} {}\n", marks.len(), set_at(marks, Pos(1))).ok()?;
    Some(line.into_bytes())
}

/// Marks a tree as a root, and then the same tree with another content of its last file as the root's child; writes how
/// many nodes have a marking and how many of them a mark of the child.
/// Steps: building the root, marking it, building the child, marking it.
pub fn marks(rt: &HostRuntime, watch: &mut Watch, text: &[u8]) -> Option<Vec<u8>> {
    let entries = entries_of(rt.alloc(), text, BIRTH)?;
    let changed = changed_of(rt.alloc(), text)?;
    let marks = marks_of(rt, watch, entries, changed)?;
    marks_line(rt.alloc(), &marks)
}
