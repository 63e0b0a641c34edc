// Families put in order. A family is the places of the children of one node.
ghost use Rattle.std.specs.Prelude.{◌<◌, ◌≤◌, length};
ghost use Rattle.std.specs.List.Sorted.{IsPermutation};

use crate::Entry;
use crate::index::{component_at, up_at};

/// Where the family ends that begins at an index.
fn family_end(ups: &[usize], places: &[usize], start: usize) -> usize
    requires { start < length places.now }
    ensures more { start < result }
    ensures within { result ≤ length places.now }
{
    let up = up_at(ups, places[start]);
    let mut end = start + 1;
    while end < places.len() && up_at(ups, places[end]) == up {
        end += 1;
    }
    end
}

/// Puts the places of a family in the order of their components.
fn sort_family(entries: &[Entry], family: &mut [usize])
    ensures { IsPermutation family.old family.new }
{
    family.sort_unstable_by(|first, second| {
        component_at(entries, *first).cmp(component_at(entries, *second))
    });
}

/// Puts each family in order. They stand one behind the other.
fn sort_each_family(entries: &[Entry], ups: &[usize], places: &mut [usize])
    ensures { IsPermutation places.old places.new }
{
    let mut start = 0;
    while start < places.len() {
        let end = family_end(ups, places, start);
        sort_family(entries, &mut places[start..end]);
        start = end;
    }
}

/// The same of all places.
pub fn sort_families(entries: &[Entry], ups: &[usize], places: &mut Vec<usize>)
    ensures { IsPermutation places.old.items places.new.items }
{
    sort_each_family(entries, ups, places);
}
