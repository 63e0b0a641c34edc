// Lists by ascending numbers.
ghost use Rattle.std.specs.Prelude.{◌≡◌, ◌↔◌, ◌==◌, ◌<◌, length, option_copied, option_and_then, slice_get, IsTrue, IfSome};
ghost use Rattle.std.specs.List.{list_all, list_any, AllByRecursion};
ghost use Rattle.std.specs.Ordering.{nat_cmp};
ghost use Rattle.mtn_records.specs.declared.entry.NumberedEntry.{NumberedEntry};
ghost use Rattle.mtn_base.specs.Lists.{rises};
ghost use Rattle.mtn_roster_deltas.specs.Chain.{ascend, entry_at, is_there};

use mtn_records::NumberedEntry;

/// Whether the numbers of entries ascend.
pub fn entries_ascend(entries: &[NumberedEntry]) -> bool
    ensures { result ≡ ascend entries.now }
{
    entries.is_sorted_by(|first, second| first.number < second.number)
}

/// Whether all numbers are above 0.
pub fn are_from_one(entries: &[NumberedEntry]) -> bool
    ensures { IsTrue result ↔ AllByRecursion (λ (e : NumberedEntry). 0 < e.number) entries.now }
{
    entries.iter().all(|entry| 0 < entry.number)
}

/// Whether the numbers of entries ascend from 1 on.
pub fn are_in_order(entries: &[NumberedEntry]) -> bool
    ensures { IsTrue result ↔ IsTrue (ascend entries.now) × AllByRecursion (λ (e : NumberedEntry). 0 < e.number) entries.now }
{
    entries_ascend(entries) && are_from_one(entries)
}

/// Whether numbers ascend.
pub fn numbers_ascend(numbers: &[u64]) -> bool
    ensures { result ≡ rises nat_cmp numbers.now }
{
    numbers.is_sorted_by(|first, second| *first < *second)
}

/// Whether a number is one of some.
pub fn is_among(numbers: &[u64], number: u64) -> bool
    requires { IsTrue (rises nat_cmp numbers.now) }
    ensures { result ≡ list_any (λ n. n == number) numbers.now }
{
    numbers.binary_search(&number).is_ok()
}

/// Where the entry of a number stands.
fn place_at(entries: &[NumberedEntry], number: u64) -> Option<usize>
    requires { IsTrue (ascend entries.now) }
    ensures within { IfSome result (λ place. place < length entries.now) }
    ensures entry { option_and_then (slice_get entries.now) result ≡ entry_at entries.now number }
{
    match entries.binary_search_by(|entry| entry.number.cmp(&number)) {
        Ok(place) => Some(place),
        Err(_) => None,
    }
}

/// The entry of a number.
pub fn entry_of(entries: &[NumberedEntry], number: u64) -> Option<&NumberedEntry>
    requires { IsTrue (ascend entries.now) }
    ensures { option_copied result ≡ entry_at entries.now number }
{
    let place = place_at(entries, number)?;
    entries.get(place)
}

/// Whether each of some numbers has an entry.
pub fn are_there(entries: &[NumberedEntry], numbers: &[u64]) -> bool
    requires { IsTrue (ascend entries.now) }
    ensures { result ≡ list_all (is_there entries.now) numbers.now }
{
    numbers
        .iter()
        .all(|number| entry_of(entries, *number).is_some())
}
