// Trees given by the lines of their paths, as bench/tree.py writes them; a directory's line ends with a slash.
use crate::watch::Watch;
use mtn_base::{Comp, Id, List, NodeName, Path};
use mtn_roster::{Body, Entry, Roster, Slot};
use std::alloc::Global;

/// The revision in which nodes are born.
pub const BIRTH: Id = Id([1; 20]);

/// What each file is.
pub const FILE: Body = Body::File {
    content: Id([2; 20]),
};

fn push_copy(alloc: Global, comp: &Comp, path: &mut Path) -> Option<()> {
    path.push(comp.copy(alloc).ok()?).ok()
}

/// The path of some components; None where memory is wanting.
fn path_of(alloc: Global, comps: &[Comp]) -> Option<Path> {
    let mut path = Path::root(alloc);
    for comp in comps {
        push_copy(alloc, comp, &mut path)?;
    }
    Some(path)
}

/// Where a node hangs whose path is its birth path, below a parent of the same birth.
fn slot_of(alloc: Global, path: &Path, birth: Id) -> Option<Slot> {
    match path.comps() {
        [] => Some(Slot::Root),
        [above @ .., last] => {
            let path = path_of(alloc, above)?;
            Some(Slot::Below {
                parent: NodeName { birth, path },
                name: last.copy(alloc).ok()?,
            })
        }
    }
}

/// The entry of a node that stands where it was born.
pub fn entry_at(alloc: Global, path: Path, birth: Id, body: Body) -> Option<Entry> {
    Some(Entry {
        slot: slot_of(alloc, &path, birth)?,
        name: NodeName { birth, path },
        body,
        attrs: List::new(alloc),
    })
}

/// The entry of a line.
fn entry_of(alloc: Global, line: &[u8], birth: Id) -> Option<Entry> {
    let (body, text) = match line {
        [text @ .., b'/'] => (Body::Dir, text),
        text => (FILE, text),
    };
    entry_at(alloc, Path::read(alloc, text).ok()?, birth, body)
}

fn push_line(alloc: Global, line: &[u8], birth: Id, to: &mut Vec<Entry>) -> Option<()> {
    to.push(entry_of(alloc, line, birth)?).ok()
}

/// The entries of the lines of a text, born in this revision; None for a line without a path, or where memory is wanting.
pub fn entries_of(alloc: Global, text: &[u8], birth: Id) -> Option<Vec<Entry>> {
    let mut entries = Vec::new(alloc);
    for line in text.split(|byte| *byte == b'\n') {
        if !line.is_empty() {
            push_line(alloc, line, birth, &mut entries)?;
        }
    }
    Some(entries)
}

/// The roster of some entries. A step.
pub fn built(rt: &HostRuntime, watch: &mut Watch, entries: Vec<Entry>) -> Option<Roster> {
    watch.begin(rt);
    let roster = Roster::build(rt.alloc(), entries).ok()?;
    watch.lap(rt);
    Some(roster)
}
