// Joining the trees of two edges (bench/join.sh).
use crate::sections::number_line;
use crate::tree::{BIRTH, built, entries_of};
use crate::watch::Watch;
use mtn_base::Id;
use mtn_join::{common_are_known, join};
use mtn_roster::{Entry, Roster};
use std::alloc::Global;
use std::collections::BTreeSet;

// The revision that joins them.
const NEW: Id = Id([9; 20]);

/// The joining of two trees whose births all are known.
fn join_known(alloc: Global, left: Roster, right: Roster) -> Option<Roster> {
    let lefts = BTreeSet::new(alloc);
    let rights = BTreeSet::new(alloc);
    if !common_are_known(&left, &right, NEW, &lefts, &rights) {
        return None;
    }
    join(alloc, left, right, NEW, &lefts, &rights).ok()
}

/// How many nodes the joining of two trees has. A step.
fn nodes_joined(rt: &HostRuntime, watch: &mut Watch, left: Roster, right: Roster) -> Option<u64> {
    watch.begin(rt);
    let both = join_known(rt.alloc(), left, right)?;
    watch.lap(rt);
    Some(both.len())
}

fn join_built(
    rt: &HostRuntime,
    watch: &mut Watch,
    first: Vec<Entry>,
    second: Vec<Entry>,
) -> Option<u64> {
    let left = built(rt, watch, first)?;
    let right = built(rt, watch, second)?;
    nodes_joined(rt, watch, left, right)
}

/// Builds a tree twice and joins the two; writes how many nodes the joined tree has.
/// Steps: building one, building the other, joining them with the test of births.
pub fn joined(rt: &HostRuntime, watch: &mut Watch, text: &[u8]) -> Option<Vec<u8>> {
    let first = entries_of(rt.alloc(), text, BIRTH)?;
    let second = entries_of(rt.alloc(), text, BIRTH)?;
    number_line(rt.alloc(), join_built(rt, watch, first, second)?)
}
