//! Tries the calls of `mtn_decide`, `mtn_conflicts` and `mtn_between` on the cases of standard input, and prints what each
//! answers.
//!
//! A case begins with `#` and a title, which is printed again. Its other lines make a history or decisions, or ask. Trees are
//! spelled as `mtn_case_trees` says, and a revision's id by its digit.
//!
//! - `rev ID PARENT..`: a revision of the history, with up to two parents. Its tree has the entries of the lines `ID ENTRY`.
//! - `node ENTRY`, `reborn ENTRY`: a decision made by hand. A case with such lines has these, and the two ids of a question are
//!   no revisions.
//! - `decide LEFT RIGHT`: prints the decisions, as entries with `|` between two values that clash, and the pending files.
//! - `conflicts LEFT RIGHT`: prints the items of the nine lists.
//! - `none LEFT RIGHT`: prints whether there is none.
//! - `write LEFT RIGHT`: prints the text of the conflicts; the first id is the lesser.
//! - `result LEFT RIGHT ID`: prints the tree of a merge without conflicts.
//! - `between`: prints the text of the canonical changeset from the tree of the lines `old ENTRY` to that of the lines
//!   `new ENTRY`.
//! - `choices`, `lives`: print the answer of `merge_scalar` and of `lives` for all sets of two positions.
//!
//! `no answer` is printed where none can be given.
#![tactic(auto)]

mod changes;
mod choices;
mod decided;
mod listed;
mod made;
mod merge;
mod question;
mod result;

use mtn_case_trees::words_of;
use question::question;
use std::alloc::Global;
use std::io::{self, Read, Write};

/// Answers a line of one word, if it asks.
fn of_word(alloc: Global, case: &[u8], word: &str, out: &mut Vec<u8>) -> Option<()> {
    match word {
        "between" => changes::put_between(alloc, case, out),
        "choices" => choices::choices(alloc, out),
        "lives" => choices::living(alloc, out),
        _ => Some(()),
    }
}

/// Answers the words of a line, if they ask.
fn of_words(alloc: Global, case: &[u8], words: &[&[u8]], out: &mut Vec<u8>) -> Option<()> {
    match words {
        [word] => of_word(alloc, case, str::from_utf8(word).ok()?, out),
        [word, left, right, rest @ ..] => {
            let word = str::from_utf8(word).ok()?;
            question(alloc, case, word, [*left, *right], rest, out)
        }
        _ => Some(()),
    }
}

/// Answers a line, if it asks.
fn answer(alloc: Global, case: &[u8], line: &[u8], out: &mut Vec<u8>) -> Option<()> {
    of_words(alloc, case, &words_of(alloc, line)?, out)
}

fn put_title(title: &[u8], out: &mut Vec<u8>) -> io::Result<()> {
    out.push(b'#')?;
    out.extend_from_slice(title)?;
    out.push(b'\n')?;
    Ok(())
}

fn put_answer(alloc: Global, case: &[u8], line: &[u8], out: &mut Vec<u8>) -> io::Result<()> {
    if answer(alloc, case, line, out).is_none() {
        out.extend_from_slice(b"no answer\n")?;
    }
    Ok(())
}

/// Prints a case's title and its answers.
fn answers(alloc: Global, case: &[u8], out: &mut Vec<u8>) -> io::Result<()> {
    for (number, line) in case.split(|byte| *byte == b'\n').enumerate() {
        if number == 0 {
            put_title(line, out)?;
        } else {
            put_answer(alloc, case, line, out)?;
        }
    }
    Ok(())
}

fn answer_all(alloc: Global, text: &[u8], out: &mut Vec<u8>) -> io::Result<()> {
    for case in text.split(|byte| *byte == b'#') {
        if !case.is_empty() {
            answers(alloc, case, out)?;
        }
    }
    Ok(())
}

fn main(rt: HostRuntime) -> io::Result<()> {
    let alloc = rt.alloc();
    let mut text = Vec::new(alloc);
    rt.stdin().read_to_end(&mut text)?;
    let mut out = Vec::new(alloc);
    answer_all(alloc, &text, &mut out)?;
    rt.stdout().write_all(&out)?;
    Ok(())
}
