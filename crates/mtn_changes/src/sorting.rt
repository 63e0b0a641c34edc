// The order in which changes are written.
ghost use Rattle.std.specs.Prelude.{◌≡◌, map, IfOk};
ghost use Rattle.std.specs.Ordering.{ordering_then};
ghost use Rattle.mtn_base.specs.Names.{bytes_cmp, path_cmp};
ghost use Rattle.mtn_changes.specs.Targets.{target_cmp, target_of as target_for};
ghost use Rattle.mtn_changes.specs.Sorting.{IsSortedAs, place_cmp};

use crate::change::Change;
use crate::order::rank;
use mtn_base::{NoMemory, Path};
use std::alloc::Global;
use std::cmp::Ordering;

fn kind_of(change: &Change) -> u8
    ensures { result ≡ (target_for change.now).kind }
{
    match change {
        Change::Clear { path: _, key: _ } => 6,
        Change::Set {
            path: _,
            key: _,
            value: _,
        } => 6,
        _ => rank(change),
    }
}

fn path_of(change: &Change) -> &Path
    ensures { result.now ≡ (target_for change.now).path }
{
    match change {
        Change::Delete { path } => path,
        Change::Rename { path, to: _ } => path,
        Change::AddDir { path } => path,
        Change::AddFile { path, content: _ } => path,
        Change::Patch {
            path,
            from: _,
            to: _,
        } => path,
        Change::Clear { path, key: _ } => path,
        Change::Set {
            path,
            key: _,
            value: _,
        } => path,
    }
}

fn key_of(change: &Change) -> &[u8]
    ensures { result.now ≡ (target_for change.now).key }
{
    match change {
        Change::Clear { path: _, key } => key.as_slice(),
        Change::Set {
            path: _,
            key,
            value: _,
        } => key.as_slice(),
        _ => b"",
    }
}

/// By path, then by key, where the kinds are the same.
fn compare_rest(kinds: Ordering, a: &Change, b: &Change) -> Ordering
    ensures { result ≡ ordering_then kinds (ordering_then (path_cmp (target_for a.now).path (target_for b.now).path) (bytes_cmp (target_for a.now).key (target_for b.now).key)) }
{
    match kinds {
        Ordering::Less => Ordering::Less,
        Ordering::Greater => Ordering::Greater,
        Ordering::Equal => match path_of(a).cmp(path_of(b)) {
            Ordering::Less => Ordering::Less,
            Ordering::Greater => Ordering::Greater,
            Ordering::Equal => key_of(a).cmp(key_of(b)),
        },
    }
}

/// By rank, then by path, then by key.
fn compare(a: &Change, b: &Change) -> Ordering
    ensures { result ≡ place_cmp a.now b.now }
{
    compare_rest(rank(a).cmp(&rank(b)), a, b)
}

/// By what they change.
pub fn compare_targets(a: &Change, b: &Change) -> Ordering
    ensures { result ≡ target_cmp (target_for a.now) (target_for b.now) }
{
    compare_rest(kind_of(a).cmp(&kind_of(b)), a, b)
}

/// References to the changes, in their order.
pub fn refs_of<'a>(alloc: Global, changes: &'a [Change]) -> Result<Vec<&'a Change>, NoMemory>
    ensures { IfOk result (λ v. map (λ b. b.now) v.items ≡ changes.now) }
{
    let mut refs = Vec::with_capacity(alloc, changes.len())?;
    for change in changes {
        refs.push(change)?;
    }
    Ok(refs)
}

fn compare_refs(a: &&Change, b: &&Change) -> Ordering
    ensures { result ≡ place_cmp a.now.now b.now.now }
{
    compare(a, b)
}

/// The changes in the order in which they are written. It copies none.
pub fn sorted_of<'a>(alloc: Global, changes: &'a [Change]) -> Result<Vec<&'a Change>, NoMemory>
    ensures { IfOk result (λ v. IsSortedAs changes.now (map (λ b. b.now) v.items)) }
{
    let mut sorted = refs_of(alloc, changes)?;
    sorted.sort_by(compare_refs)?;
    Ok(sorted)
}
