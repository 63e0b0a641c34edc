//! Cases over a store: calls of `run` over objects in memory, and what stands below it, on lines of standard input. Each
//! line that asks gives one line that answers; lines of comment and empty lines are copied, so both files go side by side.
//!
//! A *session* begins with `store`; the lines behind it speak of its keeper. Texts are in escapes (`text.rt` of `mtn_case_records`),
//! so that a payload is one line; records are in hexadecimal digits.
//!
//! - `store plain|doubtful sha1|toy FAILING..`: a store without records; the keeper's calls of these numbers fail.
//! - `record TABLE KEY BODY`: puts a record into it, which is a call of the keeper.
//! - `give TEXT`, `fill COUNT`: the payload of the next command; so many `a`.
//! - `source FAILING..`, `sink ROOM FAILING..`: which calls of its source and its sink fail, and the room of the sink.
//! - `run WORD..`: does a command, and answers its status and what it wrote.
//! - `meet`, `met`: pieces of work wait for one another from then on; which of them met, a bit each: 3 where 0 and 1 did.
//! - `hashed`: how often one text was hashed, how often many were, and how many these are.
//! - `next TABLE KEY`, `body TABLE KEY`, `reads`: what the keeper holds then, and how often it was read.
//! - `rosters ID COUNT`: how many reads a draft takes that is asked so often for a revision's roster.
//! - `parts WORD..`: how words are parted.
//! - `frame ROOM CALL KEY WORD INPUT`: one of three made-up commands through the frame, over a keeper of its own: how many bytes
//!   the sink takes, which call of the keeper fails (0: none), the key of a record that should not be there (-: none), the one word,
//!   and what the source gives. It answers the status and what was written, and what `get` answers then.
//! - `roster AT BODY`, `log AT BODY`, `fits AT BODY KEY`, `fronts AT BODY`: records.
//! - `rebuild ..`, `delta ..`, `number ..`: chains of records.
#![tactic(auto)]

mod held;
mod ids;
mod parts;
mod running;
mod session;
mod toys;

use mtn_case_records::{chains, records, text};
use session::Session;
use std::alloc::Global;
use std::io::{self, Read, Write};
use std::thread::Threads;

// What stands alone: words, made-up commands, records, chains.
fn alone(alloc: Global, word: &str, rest: &[u8], out: &mut Vec<u8>) -> Option<()> {
    match word {
        "parts" => parts::parts(alloc, rest, out),
        "frame" => toys::answer(alloc, rest, out),
        "roster" | "log" | "fits" | "fronts" => records::answer(alloc, word, rest, out),
        _ => chains::answer(alloc, word, rest, out),
    }
}

// What a line answers. None where nothing can be answered.
fn answer<T: Threads + Sync>(
    threads: &T,
    alloc: Global,
    session: &mut Session,
    line: &[u8],
    out: &mut Vec<u8>,
) -> Option<()> {
    let (word, rest) = text::first_word(line);
    let word = str::from_utf8(word).ok()?;
    if session::sets(word) {
        return session.set(alloc, word, rest);
    }
    match word {
        "run" => session.run(threads, alloc, rest, out)?,
        "next" | "body" | "reads" | "rosters" => session.ask(alloc, word, rest, out)?,
        "met" | "hashed" => session.ask_ids(alloc, word, out)?,
        _ => alone(alloc, word, rest, out)?,
    }
    out.push(b'\n').ok()
}

// The answers to all lines.
fn answers<T: Threads + Sync>(threads: &T, alloc: Global, input: &[u8]) -> Option<Vec<u8>> {
    let mut session = Session::new(alloc)?;
    let mut out = Vec::new(alloc);
    for line in input.split_inclusive(|byte| *byte == b'\n') {
        let line = line.strip_suffix(b"\n").unwrap_or(line);
        if line.is_empty() || line.starts_with(b"#") {
            out.extend_from_slice(line).ok()?;
            out.push(b'\n').ok()?;
        } else if answer(threads, alloc, &mut session, line, &mut out).is_none() {
            out.extend_from_slice(b"no answer\n").ok()?;
        }
    }
    Some(out)
}

fn main(rt: HostRuntime) -> io::Result<()> {
    let mut input = Vec::new(rt.alloc());
    rt.stdin().read_to_end(&mut input)?;
    match answers(&rt, rt.alloc(), &input) {
        Some(out) => rt.stdout().write_all(&out),
        None => Err(io::Error::from(io::ErrorKind::OutOfMemory)),
    }
}
