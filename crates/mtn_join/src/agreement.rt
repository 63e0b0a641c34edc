// How far the walks over two trees agree.
ghost use Rattle.std.specs.Prelude.{◌≡◌, IfOk, option_copied, slice_get};
ghost use Rattle.mtn_roster.specs.Tree.{IsSane};
ghost use Rattle.mtn_roster.specs.Walk.{by_path, AreStops};
ghost use Rattle.mtn_join.specs.Join.{is_outside};
ghost use Rattle.mtn_join.specs.Pairing.{hangs_alike, IsAgreement, path_along, lesser_path};

use crate::pair::{Births, PairFault, pair_fault};
use mtn_base::{NoMemory, Path};
use mtn_roster::{Entry, Roster, Slot, Stop};
use std::alloc::Global;

/// At how many stops both walks have one path and the nodes there can be joined, and what is wrong with the
/// next two nodes, where these are at one path.
#[derive(Clone, Copy)]
pub struct Agreement {
    pub count: usize,
    pub fault: Option<PairFault>,
}

/// The entry at a stop of the walk over a tree.
pub fn entry_along<'a>(roster: &'a Roster, stops: &[Stop], at: usize) -> Option<&'a Entry>
    requires { AreStops roster.now stops.now }
    ensures { option_copied result ≡ slice_get (by_path roster.now) at }
{
    match stops.get(at) {
        None => None,
        Some(stop) => roster.at_place(stop.place),
    }
}

/// Whether two nodes hang below parents of one number by one component, or both in the root slot.
fn hang_alike(x: &Slot, above_x: usize, y: &Slot, above_y: usize) -> bool
    ensures { result ≡ hangs_alike x.now above_x y.now above_y }
{
    match x {
        Slot::Root => match y {
            Slot::Root => true,
            Slot::Below { .. } => false,
        },
        Slot::Below { name, .. } => match y {
            Slot::Root => false,
            Slot::Below { name: other, .. } => above_x == above_y && name == other,
        },
    }
}

/// How far the walks over both trees agree: the parents of nodes at one path were met as one pair.
pub fn compare_walks(
    left: &Roster,
    right: &Roster,
    walk: &[Stop],
    beside: &[Stop],
    births: &Births,
) -> Agreement
    requires walk { AreStops left.now walk.now }
    requires beside { AreStops right.now beside.now }
    ensures { IsAgreement births.now.new (is_outside births.now.only_right.now) (is_outside births.now.only_left.now) left.now right.now result.count result.fault }
{
    let _nodes = left.len();
    let _others = right.len();
    let both = walk.len().min(beside.len());
    for count in 0..both {
        let x = entry_along(left, walk, count).unwrap();
        let y = entry_along(right, beside, count).unwrap();
        if !hang_alike(&x.slot, walk[count].above, &y.slot, beside[count].above) {
            return Agreement { count, fault: None };
        }
        if let Some(fault) = pair_fault(x, y, births) {
            return Agreement {
                count,
                fault: Some(fault),
            };
        }
    }
    Agreement {
        count: both,
        fault: None,
    }
}

/// The path at a stop of the walk over a tree.
fn path_at(
    alloc: Global,
    roster: &Roster,
    stops: &[Stop],
    at: usize,
) -> Result<Option<Path>, NoMemory>
    requires { AreStops roster.now stops.now }
    ensures { IfOk result (λ path. path ≡ path_along roster.now at) }
{
    match stops.get(at) {
        None => Ok(None),
        Some(stop) => roster.path_at(alloc, stop.place),
    }
}

fn lesser(first: Option<Path>, second: Option<Path>) -> Option<Path>
    ensures { result ≡ lesser_path first second }
{
    match first {
        None => second,
        Some(first) => match second {
            None => Some(first),
            Some(second) => {
                if second < first {
                    Some(second)
                } else {
                    Some(first)
                }
            }
        },
    }
}

/// The lesser of the paths at a stop of both walks; None where both are at their ends.
pub fn lesser_path_at(
    alloc: Global,
    left: &Roster,
    right: &Roster,
    walk: &[Stop],
    beside: &[Stop],
    at: usize,
) -> Result<Option<Path>, NoMemory>
    requires walk { AreStops left.now walk.now }
    requires beside { AreStops right.now beside.now }
    ensures { IfOk result (λ path. path ≡ lesser_path (path_along left.now at) (path_along right.now at)) }
{
    let first = path_at(alloc, left, walk, at)?;
    let second = path_at(alloc, right, beside, at)?;
    Ok(lesser(first, second))
}
