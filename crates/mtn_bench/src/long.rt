// The largest rosters: 100,015 nodes with paths of up to 4,095 bytes (bench/roster.sh, for the peak of memory).
use crate::sections::{number_line, number_of};
use crate::tree::{BIRTH, FILE, entry_at};
use crate::watch::Watch;
use mtn_base::{Comp, MAX_COMP, Path};
use mtn_roster::{Body, Entry, Roster};
use std::alloc::Global;

/// A component of 255 bytes for each number.
fn long_comp(alloc: Global, number: u32) -> Option<Comp> {
    let mut text = Vec::with_capacity(alloc, MAX_COMP).ok()?;
    let mut rest = number;
    for _ in 0..MAX_COMP {
        text.push(b'0' + (rest % 10) as u8).ok()?;
        rest /= 10;
    }
    Comp::read(alloc, &text).ok()
}

fn path_below(alloc: Global, above: &Path, number: u32) -> Option<Path> {
    let mut path = above.copy(alloc).ok()?;
    path.push(long_comp(alloc, number)?).ok()?;
    Some(path)
}

fn push_at(alloc: Global, path: Path, body: Body, to: &mut Vec<Entry>) -> Option<()> {
    to.push(entry_at(alloc, path, BIRTH, body)?).ok()
}

/// A node below a path; gives its path.
fn push_long(
    alloc: Global,
    above: &Path,
    number: u32,
    body: Body,
    to: &mut Vec<Entry>,
) -> Option<Path> {
    let path = path_below(alloc, above, number)?;
    push_at(alloc, path.copy(alloc).ok()?, body, to)?;
    Some(path)
}

/// A directory with 19 files.
fn push_dir(alloc: Global, above: &Path, number: u32, to: &mut Vec<Entry>) -> Option<()> {
    let path = push_long(alloc, above, number, Body::Dir, to)?;
    for file in 0..19 {
        let _file = push_long(alloc, &path, file, FILE, to)?;
    }
    Some(())
}

/// The root with a chain of 14 directories; gives the path of the last.
fn push_chain(alloc: Global, to: &mut Vec<Entry>) -> Option<Path> {
    push_at(alloc, Path::root(alloc), Body::Dir, to)?;
    let mut path = Path::root(alloc);
    for number in 0..14 {
        path = push_long(alloc, &path, number, Body::Dir, to)?;
    }
    Some(path)
}

fn push_dirs(alloc: Global, to: &mut Vec<Entry>) -> Option<()> {
    let path = push_chain(alloc, to)?;
    for number in 0..5000 {
        push_dir(alloc, &path, number, to)?;
    }
    Some(())
}

/// A roster of 5,000 directories with 19 files each, 15 components deep.
fn long_roster(alloc: Global) -> Option<Roster> {
    let mut entries = Vec::new(alloc);
    push_dirs(alloc, &mut entries)?;
    Roster::build(alloc, entries).ok()
}

fn long_rosters(alloc: Global, count: u64) -> Option<Vec<Roster>> {
    let mut rosters = Vec::new(alloc);
    for _ in 0..count {
        rosters.push(long_roster(alloc)?).ok()?;
    }
    Some(rosters)
}

fn manifest_of(alloc: Global, roster: &Roster) -> Option<Vec<u8>> {
    let mut manifest = Vec::new(alloc);
    mtn_manifest::write(roster, &mut manifest).ok()?;
    Some(manifest)
}

/// Makes a roster and its manifest; gives the bytes of that. Ends the step.
fn last(rt: &HostRuntime, watch: &mut Watch) -> Option<u64> {
    let roster = long_roster(rt.alloc())?;
    let manifest = manifest_of(rt.alloc(), &roster)?;
    watch.lap(rt);
    Some(manifest.len() as u64)
}

/// Makes so many of the largest rosters, and the manifest of one more; writes how many bytes that has.
/// Steps: all.
pub fn long(rt: &HostRuntime, watch: &mut Watch, text: &[u8]) -> Option<Vec<u8>> {
    watch.begin(rt);
    let _others = long_rosters(rt.alloc(), number_of(text))?;
    number_line(rt.alloc(), last(rt, watch)?)
}
