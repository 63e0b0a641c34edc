// Entries brought in order where those born in a revision stand behind all others, which ascend.
ghost use Rattle.std.specs.Prelude.{◌≤◌, length};
ghost use Rattle.std.specs.List.Sorted.{IsPermutation};

use mtn_base::Id;
use mtn_roster::Entry;

/// How many entries stand before those at the end that are born in a revision.
fn kept_len(entries: &[Entry], new: Id) -> usize
    ensures { result ≤ length entries.now }
{
    let mut kept = entries.len();
    while kept > 0 && entries[kept - 1].name.birth == new {
        kept -= 1;
    }
    kept
}

/// Where a birth belongs among entries by ascending names.
fn place_of_birth(entries: &[Entry], new: Id) -> usize
    ensures { result ≤ length entries.now }
{
    entries.partition_point(|entry| entry.name.birth < new)
}

/// Sorts the entries from a place on.
fn sort_from(entries: &mut [Entry], start: usize)
    requires { start ≤ length entries.old }
    ensures { IsPermutation entries.old entries.new }
{
    entries[start..].sort_unstable_by(|first, second| first.name.compare(&second.name));
}

/// Turns the entries from a place on so that those from a later one come first.
fn turn_from(entries: &mut [Entry], start: usize, middle: usize)
    requires start { start ≤ middle }
    requires middle { middle ≤ length entries.old }
    ensures { IsPermutation entries.old entries.new }
{
    entries[start..].rotate_left(middle - start);
}

/// The same of a slice.
fn gather_slice(entries: &mut [Entry], new: Id)
    ensures { IsPermutation entries.old entries.new }
{
    let kept = kept_len(entries, new);
    sort_from(entries, kept);
    let start = place_of_birth(&entries[..kept], new);
    turn_from(entries, start, kept);
}

/// Sorts what is born in a revision, and brings it to its place among the others. Names ascend by birth
/// first, so that it stands together there.
pub fn gather(entries: &mut Vec<Entry>, new: Id)
    ensures { IsPermutation entries.old.items entries.new.items }
{
    gather_slice(entries, new);
}
