// Questions about the decisions of a case.
use crate::decided::put_decisions;
use crate::listed::{put_lists, put_text};
use crate::made::made_by_hand;
use crate::merge::decided;
use crate::result::put_result;
use mtn_case_trees::{History, id_of};
use mtn_conflicts::{Conflicts, conflicts};
use mtn_decide::Decisions;
use std::alloc::Global;

/// Whether a line of a case begins so.
fn has_line(case: &[u8], word: &[u8]) -> bool {
    case.split(|byte| *byte == b'\n')
        .any(|line| line.starts_with(word))
}

fn merged(alloc: Global, case: &[u8], sides: [&[u8]; 2]) -> Option<Decisions> {
    let left = id_of(sides[0])?;
    let right = id_of(sides[1])?;
    decided(alloc, &mut History::read(alloc, case)?, left, right)
}

/// The decisions of a case: those that it makes by hand, or those of a merge of two of its revisions.
fn decisions_of(alloc: Global, case: &[u8], sides: [&[u8]; 2]) -> Option<Decisions> {
    if has_line(case, b"node ") {
        made_by_hand(alloc, case)
    } else {
        merged(alloc, case, sides)
    }
}

fn put_none(found: &Conflicts, out: &mut Vec<u8>) -> Option<()> {
    let said: &[u8] = if found.none() { b"none\n" } else { b"some\n" };
    out.extend_from_slice(said).ok()
}

fn put_written(found: &Conflicts, sides: [&[u8]; 2], out: &mut Vec<u8>) -> Option<()> {
    let left = id_of(sides[0])?;
    put_text(left, id_of(sides[1])?, found, out)
}

fn put_found(found: &Conflicts, word: &str, sides: [&[u8]; 2], out: &mut Vec<u8>) -> Option<()> {
    match word {
        "conflicts" => put_lists(found, out),
        "write" => put_written(found, sides, out),
        _ => put_none(found, out),
    }
}

fn conflicts_of(alloc: Global, case: &[u8], sides: [&[u8]; 2]) -> Option<Conflicts> {
    conflicts(alloc, &decisions_of(alloc, case, sides)?).ok()
}

fn put_decided(alloc: Global, case: &[u8], sides: [&[u8]; 2], out: &mut Vec<u8>) -> Option<()> {
    put_decisions(&decisions_of(alloc, case, sides)?, out)
}

fn put_merged(
    alloc: Global,
    case: &[u8],
    sides: [&[u8]; 2],
    id: &[u8],
    out: &mut Vec<u8>,
) -> Option<()> {
    let id = id_of(id)?;
    put_result(alloc, &decisions_of(alloc, case, sides)?, id, out)
}

/// Answers a question of two ids, if the word is one.
fn put_answer(
    alloc: Global,
    case: &[u8],
    word: &str,
    sides: [&[u8]; 2],
    out: &mut Vec<u8>,
) -> Option<()> {
    match word {
        "decide" => put_decided(alloc, case, sides, out),
        "conflicts" | "none" | "write" => {
            put_found(&conflicts_of(alloc, case, sides)?, word, sides, out)
        }
        _ => Some(()),
    }
}

/// Answers a line of a word, two ids and what stands behind them, if it asks.
pub fn question(
    alloc: Global,
    case: &[u8],
    word: &str,
    sides: [&[u8]; 2],
    rest: &[&[u8]],
    out: &mut Vec<u8>,
) -> Option<()> {
    match rest {
        [] => put_answer(alloc, case, word, sides, out),
        [id] if word == "result" => put_merged(alloc, case, sides, id, out),
        _ => Some(()),
    }
}
