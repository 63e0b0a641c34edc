// Trees of two edges that are joined.
use crate::said::Said;
use mtn_base::{Id, Path};
use mtn_case_trees::{entries_of, id_of};
use mtn_join::{JoinError, common_are_known, join};
use mtn_roster::Roster;
use std::alloc::Global;
use std::collections::BTreeSet;

fn set_of(alloc: Global, word: &[u8]) -> Option<BTreeSet<Id>> {
    let mut set = BTreeSet::new(alloc);
    if word != b"-".as_slice() {
        set.insert(id_of(word)?).ok()?;
    }
    Some(set)
}

fn put_fault(word: &[u8], path: &Path, said: &mut Said) {
    said.put(word);
    said.put_path(path);
    said.put(b"\n");
}

fn put_outcome(joined: Result<Roster, JoinError>, said: &mut Said) {
    match joined {
        Ok(tree) => said.put_tree(&tree),
        Err(JoinError::Disagree { path }) => put_fault(b"Disagree /", &path, said),
        Err(JoinError::Revived { path }) => put_fault(b"Revived /", &path, said),
        Err(JoinError::NoMemory) => said.is_whole = false,
    }
}

fn tree_of(alloc: Global, case: &[u8], word: &[u8]) -> Option<Roster> {
    Roster::build(alloc, entries_of(alloc, case, word)?).ok()
}

fn put_between(
    alloc: Global,
    left: Roster,
    right: Roster,
    new: Id,
    only: [&BTreeSet<Id>; 2],
    said: &mut Said,
) {
    if common_are_known(&left, &right, new, only[0], only[1]) {
        put_outcome(join(alloc, left, right, new, only[0], only[1]), said);
    } else {
        said.put(b"births that joining does not take\n");
    }
}

fn put_edges(
    alloc: Global,
    case: &[u8],
    new: Id,
    only: [&BTreeSet<Id>; 2],
    said: &mut Said,
) -> Option<()> {
    let left = tree_of(alloc, case, b"left ")?;
    let right = tree_of(alloc, case, b"right ")?;
    put_between(alloc, left, right, new, only, said);
    Some(())
}

fn put_words(
    alloc: Global,
    case: &[u8],
    new: Id,
    left: &[u8],
    right: &[u8],
    said: &mut Said,
) -> Option<()> {
    let only_left = set_of(alloc, left)?;
    let only_right = set_of(alloc, right)?;
    put_edges(alloc, case, new, [&only_left, &only_right], said)
}

/// Prints the tree that joins those of the case, or the path at which they cannot be joined.
pub fn put_joined(alloc: Global, case: &[u8], args: &[&[u8]], said: &mut Said) -> Option<()> {
    match args {
        [id, left, right] => put_words(alloc, case, id_of(id)?, left, right, said),
        _ => None,
    }
}
