// Entries put in order.
ghost use Rattle.std.specs.Prelude.{◌≡◌, ◌↔◌, IsTrue, map};
ghost use Rattle.std.specs.List.{AllByRecursion, IsDistinct, IsAllAdjacentAnswer};
ghost use Rattle.mtn_roster.specs.declared.entry.Entry.{Entry};
ghost use Rattle.std.specs.List.Sorted.{IsPermutation, IsSortedBy};
ghost use Rattle.std.specs.Ordering.{is_lt};
ghost use Rattle.mtn_base.specs.Names.{same_bytes, bytes_cmp, name_cmp};
ghost use Rattle.mtn_base.specs.Lists.{ordered};
ghost use Rattle.mtn_roster.specs.Tree.{in_order};
ghost use Rattle.mtn_roster.specs.Building.{NamesDiffer, KeysDiffer, with_keys_in_order};

use crate::keys::arrange;
use crate::{Attr, Entry};
use mtn_base::{List, NoMemory};
use std::alloc::{AllocError, AllocFailed, Global};

/// Why entries make no roster.
#[derive(Clone, Copy)]
pub enum BuildError {
    /// A name or a key repeats, or the tree is not sane.
    Insane,
    NoMemory,
}

impl From<NoMemory> for BuildError {
    ghost use Rattle.mtn_roster.specs.declared.build.BuildError.{BuildError};
    ghost use Rattle.mtn_roster.specs.declared.build.BuildError.TheVariants as errors;
    ghost use Rattle.std.specs.Prelude.{◌≡◌};

    ghost from_gives = { λ _ r. r ≡ errors.NoMemory };

    fn from(_: NoMemory) -> Self {
        BuildError::NoMemory
    }
}

impl From<AllocError> for BuildError {
    ghost use Rattle.mtn_roster.specs.declared.build.BuildError.{BuildError};
    ghost use Rattle.mtn_roster.specs.declared.build.BuildError.TheVariants as errors;
    ghost use Rattle.std.specs.Prelude.{◌≡◌};

    ghost from_gives = { λ _ r. r ≡ errors.NoMemory };

    fn from(_: AllocError) -> Self {
        BuildError::NoMemory
    }
}

impl<T: Drop> From<AllocFailed<T>> for BuildError {
    ghost use Rattle.mtn_roster.specs.declared.build.BuildError.{BuildError};
    ghost use Rattle.mtn_roster.specs.declared.build.BuildError.TheVariants as errors;
    ghost use Rattle.std.specs.Prelude.{◌≡◌};

    ghost from_gives = { λ _ r. r ≡ errors.NoMemory };

    fn from(_: AllocFailed<T>) -> Self {
        BuildError::NoMemory
    }
}

/// Puts attributes in the order of their keys, and says whether these are apart.
fn sort_attrs(attrs: &mut Vec<Attr>) -> bool
    ensures apart { IsTrue result ↔ IsDistinct (λ (a : Attr) (b : Attr). same_bytes a.key b.key) attrs.old.items }
    ensures order { IsTrue result → attrs.new.items ≡ ordered bytes_cmp (λ (a : Attr). a.key) attrs.old.items }
{
    attrs.sort_unstable_by(|first, second| first.key.as_slice().cmp(second.key.as_slice()));
    attrs.is_sorted_by(|first, second| { first.key.as_slice().cmp(second.key.as_slice()).is_lt() })
}

/// Puts the attributes of an entry in the order of their keys, and says whether these are apart.
fn sort_keys(alloc: Global, entry: &mut Entry) -> bool
    ensures apart { IsTrue result ↔ KeysDiffer entry.old }
    ensures order { IsTrue result → entry.new ≡ with_keys_in_order entry.old }
{
    let mut attrs = std::mem::replace(&mut entry.attrs, List::new(alloc)).into_vec();
    let apart = sort_attrs(&mut attrs);
    entry.attrs = List::from_vec(attrs);
    apart
}

/// The same for all entries. Where a key repeats, what is left is of no use.
pub fn sort_all_keys(alloc: Global, entries: &mut [Entry]) -> bool
    ensures apart { IsTrue result ↔ AllByRecursion KeysDiffer entries.old }
    ensures order { IsTrue result → entries.new ≡ map with_keys_in_order entries.old }
{
    for entry in entries.iter_mut() {
        if !sort_keys(alloc, entry) {
            return false;
        }
    }
    true
}

/// Sorts entries by their names. Where the first half is said to ascend, as at an earlier tree's entries
/// with some more behind them, runs are kept and merged; where there is no memory for that, in place.
fn sort_entries(entries: &mut Vec<Entry>, half_ascends: bool)
    ensures permutation { IsPermutation entries.old.items entries.new.items }
    ensures sorted { IsSortedBy (λ (e : Entry) (f : Entry). is_lt (name_cmp e.name f.name)) entries.new.items }
{
    if half_ascends
        && entries
            .sort_by(|first, second| first.name.compare(&second.name))
            .is_ok()
    {
        return;
    }
    entries.sort_unstable_by(|first, second| first.name.compare(&second.name));
}

/// Whether the names of entries ascend.
fn names_ascend(entries: &[Entry]) -> bool
    ensures { IsAllAdjacentAnswer (λ (e : Entry) (f : Entry) b. b ≡ is_lt (name_cmp e.name f.name)) entries.now result }
{
    entries.is_sorted_by(|first, second| first.name.compare(&second.name).is_lt())
}

/// Whether the names of the first half ascend.
fn first_half_ascends(entries: &[Entry]) -> bool {
    names_ascend(&entries[..entries.len() / 2])
}

/// Puts entries in the order of their keys, unless the first half ascends: that sorts faster by runs. Says
/// whether it was done.
fn arrange_unless_half(alloc: Global, entries: &mut Vec<Entry>) -> bool
    ensures { IsPermutation entries.old.items entries.new.items }
{
    if first_half_ascends(entries) {
        return false;
    }
    arrange(alloc, entries);
    true
}

/// Puts entries in order by their names, and says whether these are apart. Where they ascend, as those of
/// an earlier tree, one look tells it; so it does once they stand by their keys.
pub fn sort_names(alloc: Global, entries: &mut Vec<Entry>) -> bool
    ensures apart { IsTrue result ↔ NamesDiffer entries.old.items }
    ensures order { IsTrue result → entries.new.items ≡ in_order entries.old.items }
{
    if names_ascend(entries) {
        return true;
    }
    let arranged = arrange_unless_half(alloc, entries);
    if arranged && names_ascend(entries) {
        return true;
    }
    sort_entries(entries, !arranged);
    names_ascend(entries)
}
