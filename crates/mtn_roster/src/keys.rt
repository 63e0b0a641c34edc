// Entries put in place by the keys of their names. A name lies in as many pieces of memory as its path has
// components; its key lies in one, and all keys lie together, so that sorting them waits less for memory.
ghost use Rattle.std.specs.List.Sorted.{IsPermutation};

use crate::Entry;
use mtn_base::{NoMemory, NodeName};
use std::alloc::Global;

/// A place among entries, and where the key of the name there begins and ends.
#[derive(Clone, Copy)]
struct Keyed {
    place: usize,
    start: usize,
    end: usize,
}

/// Appends the key of a name. Keys stand as their names do: a byte 0, which no component has, ends each
/// component.
fn push_key(name: &NodeName, keys: &mut Vec<u8>) -> Result<(), NoMemory> {
    keys.extend_from_slice(&name.birth.0)?;
    for comp in name.path.comps() {
        keys.extend_from_slice(comp.bytes())?;
        keys.push(0)?;
    }
    Ok(())
}

/// A key among all.
fn key_in<'a>(keys: &'a [u8], keyed: &Keyed) -> &'a [u8] {
    match keys.get(keyed.start..keyed.end) {
        None => keys,
        Some(key) => key,
    }
}

/// The places of entries by ascending keys.
fn keyed_of(alloc: Global, entries: &[Entry]) -> Result<Vec<Keyed>, NoMemory> {
    let mut keys = Vec::new(alloc);
    let mut sources = Vec::with_capacity(alloc, entries.len())?;
    for (place, entry) in entries.iter().enumerate() {
        let start = keys.len();
        push_key(&entry.name, &mut keys)?;
        sources.push(Keyed {
            place,
            start,
            end: keys.len(),
        })?;
    }
    sources.sort_unstable_by(|first, second| key_in(&keys, first).cmp(key_in(&keys, second)));
    Ok(sources)
}

/// Brings an entry to a place from the place that is given for it, one to that from its own, and so on
/// round. A place where that is done has itself given.
fn close_round(entries: &mut [Entry], sources: &mut [Keyed], first: usize)
    ensures { IsPermutation entries.old entries.new }
{
    let mut at = first;
    for _ in 0..sources.len() {
        let Some(given) = sources.get_mut(at) else {
            return;
        };
        let source = std::mem::replace(&mut given.place, at);
        if source == first || source >= entries.len() || at >= entries.len() {
            return;
        }
        entries.swap(at, source);
        at = source;
    }
}

/// Brings to each place the entry from the place that is given for it.
fn bring(entries: &mut [Entry], sources: &mut [Keyed])
    ensures { IsPermutation entries.old entries.new }
{
    for first in 0..entries.len() {
        close_round(entries, sources, first);
    }
}

/// Puts entries in the order of their keys. Where there is no memory for that, they stay as they are.
pub fn arrange(alloc: Global, entries: &mut [Entry])
    ensures { IsPermutation entries.old entries.new }
{
    let Ok(mut sources) = keyed_of(alloc, entries) else {
        return;
    };
    bring(entries, &mut sources);
}
