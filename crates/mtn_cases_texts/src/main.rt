//! Tries the calls of `mtn_base`, `mtn_ports`, `mtn_basic_io` and `mtn_changes` on lines of standard input, and prints what
//! each answers in a line of its own.
//!
//! A line is a word, a blank, and what it takes: a text, which is the rest of the line, or fields with a blank between two.
//! Bytes stand in Rust's escapes, here and in the output: `\n`, `\\`, `\xff`. A line that begins with `#` is a remark. `?` is
//! printed where a line is no case.
#![tactic(auto)]

mod base;
mod batches;
mod changes;
mod escapes;
mod fields;
mod idents;
mod keepers;
mod refusals;
mod said;
mod streams;
mod texts;

use mtn_base::Bytes;
use said::Said;
use std::alloc::Global;
use std::io::{self, Read, Write};

// What takes all that stands behind the word as one text.
fn of_text(alloc: Global, word: &str, text: &[u8], said: &mut Said) -> Option<()> {
    match word {
        "path" | "comp" | "id" => return base::of_one(alloc, word, text, said),
        "stanzas" => texts::stanzas(alloc, text, said),
        "sha1" | "toy" => idents::answer(word, text, said),
        _ => return changes::answer(alloc, word, text, said),
    }
    Some(())
}

// What takes fields.
fn of_fields(alloc: Global, word: &str, args: &[Bytes], said: &mut Said) -> Option<()> {
    match word {
        "refused" => refusals::refused(alloc, args, said),
        "batch" => batches::batch(alloc, args, said),
        "keeper" | "doubtful" => keepers::answer(alloc, word, args, said),
        "example" => texts::twice(alloc, args, said),
        "ids" | "order" | "long" | "room" => base::answer(alloc, word, args, said),
        _ => streams::answer(alloc, word, args, said),
    }
}

// Whether a word takes a text.
fn takes_text(word: &str) -> bool {
    matches!(
        word,
        "path"
            | "comp"
            | "id"
            | "stanzas"
            | "sha1"
            | "toy"
            | "changes"
            | "revision"
            | "kinds"
            | "sorted"
    )
}

fn of_word(alloc: Global, word: &str, rest: &[u8], said: &mut Said) -> Option<()> {
    if takes_text(word) {
        of_text(alloc, word, &escapes::plain(alloc, rest)?, said)
    } else {
        of_fields(alloc, word, &fields::fields(alloc, rest, b' ')?, said)
    }
}

fn answer(alloc: Global, line: &[u8], said: &mut Said) -> Option<()> {
    let at = line
        .iter()
        .position(|byte| *byte == b' ')
        .unwrap_or(line.len());
    let word = str::from_utf8(&line[..at]).ok()?;
    of_word(alloc, word, line.get(at + 1..).unwrap_or(&[]), said)
}

// What a line prints.
fn said_of(alloc: Global, line: &[u8]) -> Said {
    let mut said = Said::new(alloc);
    if answer(alloc, line, &mut said).is_none() {
        said.is_whole = false;
    }
    said
}

fn print(alloc: Global, line: &[u8], out: &mut Said) {
    let said = said_of(alloc, line);
    if said.is_whole {
        escapes::escape(&said.text, out);
    } else {
        out.put(b"?");
    }
    out.put(b"\n");
}

fn print_all(alloc: Global, text: &[u8], out: &mut Said) {
    for line in text.split(|byte| *byte == b'\n') {
        if !line.is_empty() && !line.starts_with(b"#") {
            print(alloc, line, out);
        }
    }
}

fn main(rt: HostRuntime) -> io::Result<()> {
    let mut text = Vec::new(rt.alloc());
    rt.stdin().read_to_end(&mut text)?;
    let mut out = Said::new(rt.alloc());
    print_all(rt.alloc(), &text, &mut out);
    if !out.is_whole {
        return Err(io::ErrorKind::OutOfMemory.into());
    }
    rt.stdout().write_all(&out.text)
}
