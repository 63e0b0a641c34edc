// Questions about a tree.
use crate::said::Said;
use crate::words::place_of;
use mtn_base::{NodeName, Path};
use mtn_case_trees::{entries_of, name_of};
use mtn_roster::{BuildError, Entry, Roster};
use std::alloc::Global;

fn put_names(names: &[NodeName], said: &mut Said) {
    for name in names {
        said.put_name(name);
        said.put(b"\n");
    }
}

fn put_found(found: Option<&Entry>, said: &mut Said) {
    match found {
        Some(entry) => said.put_entry(entry),
        None => said.put(b"nothing\n"),
    }
}

fn put_path(path: &Option<Path>, said: &mut Said) {
    match path {
        Some(path) => {
            said.put(b"/");
            said.put_path(path);
            said.put(b"\n");
        }
        None => said.put(b"nothing\n"),
    }
}

fn put_manifest(tree: &Roster, said: &mut Said) {
    let done = mtn_manifest::write(tree, &mut said.text);
    said.keep(done);
}

// The words of questions.
const WORDS: &str = "build walk manifest at entry path children";

/// Answers about a node.
fn of_node(
    alloc: Global,
    tree: &Roster,
    word: usize,
    name: &NodeName,
    said: &mut Said,
) -> Option<()> {
    match word {
        4 => put_found(tree.entry(name), said),
        5 => put_path(&tree.path_of(alloc, name).ok()?, said),
        6 => put_names(&tree.children(alloc, name).ok()?, said),
        _ => return None,
    }
    Some(())
}

/// Answers about the whole tree, or the node at a path.
fn of_tree(alloc: Global, tree: &Roster, word: usize, path: &[u8], said: &mut Said) -> Option<()> {
    match word {
        0 => said.put(b"sane\n"),
        1 => put_names(&tree.walk(alloc).ok()?, said),
        2 => put_manifest(tree, said),
        _ => put_found(tree.at_path(&Path::read(alloc, path).ok()?), said),
    }
    Some(())
}

fn of_word(alloc: Global, tree: &Roster, word: usize, arg: &[u8], said: &mut Said) -> Option<()> {
    if word < 4 {
        return of_tree(alloc, tree, word, arg, said);
    }
    of_node(alloc, tree, word, &name_of(alloc, arg)?, said)
}

/// Answers a question about the tree of a case: `build` (whether it is sane), `walk`, `manifest`, `at PATH` (without one the root), `entry NODE`,
/// `path NODE` and `children NODE`.
pub fn answer(alloc: Global, case: &[u8], args: &[&[u8]], said: &mut Said) -> Option<()> {
    let (word, rest) = args.split_first()?;
    let arg: &[u8] = match rest {
        [] => b"",
        [arg, ..] => arg,
    };
    match Roster::build(alloc, entries_of(alloc, case, b"node ")?) {
        Ok(tree) => return of_word(alloc, &tree, place_of(word, WORDS), arg, said),
        Err(BuildError::Insane) => said.put(b"insane\n"),
        Err(BuildError::NoMemory) => said.is_whole = false,
    }
    Some(())
}
