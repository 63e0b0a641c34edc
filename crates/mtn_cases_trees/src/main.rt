//! Tries the calls of the crates of trees on the cases of standard input, and prints what each answers.
//!
//! A case begins with `#` and a title, which is printed again. Its other lines spell what is asked of, or ask. Nodes, ids and
//! entries are spelled as `mtn_case_trees` says, positions and numbers by a digit.
//!
//! - `node ENTRY`: an entry of the case's tree. `tree WORD ARGUMENT..` asks it (`trees`).
//! - `pos PARENT..`: one more revision of the case's graph, with up to two parents. `graph WORD POSITION..` asks it (`graphs`);
//!   `line K` asks for what two children of a long line have alone, where the K-th question for parents fails.
//! - `> TEXT`: a line of a text. `apply ID` applies the text that stands before it, as changes of the revision ID, to the tree.
//! - `left ENTRY`, `right ENTRY`: entries of two trees. `join ID LEFT RIGHT` joins them as edges of the revision ID; LEFT and
//!   RIGHT are the revision that the side's parent alone stands on, or `-`.
//! - `rev ID PARENT..`: a revision of the case's history, with the entries of the lines `ID ENTRY`. `marks ID` prints its marks,
//!   `roster ID` its roster, and `make ID PARENT..` what the text before it makes of its parents.
//! - `put NODE POSITION`: puts a marking into a map, which `map` prints.
//!
//! `no answer` is printed where none can be given.
#![tactic(auto)]

mod changes;
mod graphs;
mod joins;
mod long;
mod maps;
mod marks;
mod said;
mod trees;
mod words;

use mtn_case_trees::words_of;
use said::Said;
use std::alloc::Global;
use std::io::{self, Read, Write};
use words::place_of;

// The words that begin a line that asks.
const WORDS: &str = "tree graph line apply join map marks roster make";

/// Answers a line of one of these words, if it is one of them.
fn of_word(
    alloc: Global,
    case: &[u8],
    word: usize,
    args: &[&[u8]],
    text: &[u8],
    said: &mut Said,
) -> Option<()> {
    match word {
        0 => trees::answer(alloc, case, args, said),
        1 => graphs::answer(alloc, case, args, said),
        2 => long::answer(alloc, args.first()?, said),
        3 => changes::put_applied(alloc, case, args.first()?, text, said),
        4 => joins::put_joined(alloc, case, args, said),
        5 => maps::put_map(alloc, case, said),
        6 => marks::put_marks_of(alloc, case, args.first()?, said),
        7 => marks::put_roster_of(alloc, case, args.first()?, said),
        8 => marks::put_made(alloc, case, args, text, said),
        _ => Some(()),
    }
}

/// Answers a line, if it asks.
fn answer(alloc: Global, case: &[u8], line: &[u8], text: &[u8], said: &mut Said) -> Option<()> {
    let words = words_of(alloc, line)?;
    let (word, args) = words.split_first()?;
    of_word(alloc, case, place_of(word, WORDS), args, text, said)
}

/// Adds a line of a text, or answers a line behind the text that stands before it.
fn put_line(alloc: Global, case: &[u8], line: &[u8], text: &mut Said, said: &mut Said) {
    if let Some(rest) = line.strip_prefix(b">") {
        text.put(rest.strip_prefix(b" ").unwrap_or(rest));
        text.put(b"\n");
        return;
    }
    if answer(alloc, case, line, &text.text, said).is_none() {
        said.put(b"no answer\n");
    }
    text.text.clear();
}

/// Prints a case's title and its answers.
fn put_case(alloc: Global, case: &[u8], said: &mut Said) {
    let mut text = Said::new(alloc);
    said.put(b"#");
    for (number, line) in case.split(|byte| *byte == b'\n').enumerate() {
        if number == 0 {
            said.put(line);
            said.put(b"\n");
        } else {
            put_line(alloc, case, line, &mut text, said);
        }
    }
    said.is_whole &= text.is_whole;
}

fn put_cases(alloc: Global, cases: &[u8], said: &mut Said) {
    for case in cases.split(|byte| *byte == b'#') {
        if !case.is_empty() {
            put_case(alloc, case, said);
        }
    }
}

fn main(rt: HostRuntime) -> io::Result<()> {
    let mut cases = Vec::new(rt.alloc());
    rt.stdin().read_to_end(&mut cases)?;
    let mut said = Said::new(rt.alloc());
    put_cases(rt.alloc(), &cases, &mut said);
    if !said.is_whole {
        return Err(io::ErrorKind::OutOfMemory.into());
    }
    rt.stdout().write_all(&said.text)
}
