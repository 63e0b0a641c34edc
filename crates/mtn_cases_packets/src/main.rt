//! Tries the calls of `mtn_packets` and `mtn_pieces` on lines of standard input, and those of `mtn_certs` and `mtn_branches` on the
//! cases behind them.
//!
//! A line is a word, a blank, and what it takes, and prints a line: an input, which is the rest of the line, or fields with a blank between two,
//! where two blanks in a row hold the empty field between them. Bytes stand in Rust's escapes, here and in the output: `\n`,
//! `\\`, `\xff`. A line that begins with `#` is a remark. `?` is printed where a line is no case.
//!
//! A case of certificates begins with `##` and a title, which is printed again. An id is spelled by the letter that each of its
//! bytes is.
//!
//! - `field TEXT`, `hex DIGITS`, `long COUNT`: whether a text is a field: the rest of the line, the bytes of digits, so many `a`.
//! - `new NAME COUNT COUNT`: a certificate whose value and signature have so many bytes, or why there is none.
//! - `rev ID PARENT..`: one more revision of the case's graph. `key ID NAME`: the name of a key.
//! - `cert ID NAME KEY VALUE SIGNATURE`: one more certificate; `-` is an empty signature.
//! - `members BRANCH`, `heads BRANCH`, `branches`, `list`: what the certificates of the case so far give.
//!
//! `no answer` is printed where none can be given.
#![tactic(auto)]

mod asking;
mod case;
mod certs;
mod fields;
mod inputs;
mod made;
mod pieces;
mod said;
mod words;

use bstr::ByteSlice;
use said::Said;
use std::alloc::Global;
use std::io::{self, Read, Write};
use std::thread::Threads;

// A word takes an input, or fields.
fn of_word<R: Threads + Sync>(
    rt: &R,
    alloc: Global,
    word: &str,
    rest: &[u8],
    said: &mut Said,
) -> Option<()> {
    match word {
        "read" | "again" | "cuts" => {
            inputs::answer(alloc, word, &words::plain(alloc, rest)?, said)
        }
        "ids" => pieces::ids(rt, alloc, &words::fields(alloc, rest)?, said),
        "pieces" => pieces::read(rt, alloc, &words::fields(alloc, rest)?, said),
        _ => made::answer(alloc, word, &words::fields(alloc, rest)?, said),
    }
}

fn answer<R: Threads + Sync>(rt: &R, alloc: Global, line: &[u8], said: &mut Said) -> Option<()> {
    let at = line
        .iter()
        .position(|byte| *byte == b' ')
        .unwrap_or(line.len());
    let word = str::from_utf8(&line[..at]).ok()?;
    of_word(rt, alloc, word, line.get(at + 1..).unwrap_or(&[]), said)
}

// What a line prints.
fn said_of<R: Threads + Sync>(rt: &R, alloc: Global, line: &[u8]) -> Said {
    let mut said = Said::new(alloc);
    if answer(rt, alloc, line, &mut said).is_none() {
        said.is_whole = false;
    }
    said
}

fn print<R: Threads + Sync>(
    rt: &R,
    alloc: Global,
    line: &[u8],
    out: &mut Vec<u8>,
) -> io::Result<()> {
    let said = said_of(rt, alloc, line);
    if said.is_whole {
        words::escape(&said.text, out)?;
    } else {
        out.push(b'?')?;
    }
    out.push(b'\n')?;
    Ok(())
}

fn print_lines<R: Threads + Sync>(
    rt: &R,
    alloc: Global,
    text: &[u8],
    out: &mut Vec<u8>,
) -> io::Result<()> {
    for line in text.split(|byte| *byte == b'\n') {
        if !line.is_empty() && !line.starts_with(b"#") {
            print(rt, alloc, line, out)?;
        }
    }
    Ok(())
}

// The lines, and behind them the cases of certificates.
fn print_all<R: Threads + Sync>(
    rt: &R,
    alloc: Global,
    text: &[u8],
    out: &mut Vec<u8>,
) -> io::Result<()> {
    let mut parts = text.split_str(b"\n##");
    if let Some(lines) = parts.next() {
        print_lines(rt, alloc, lines, out)?;
    }
    for case in parts {
        certs::print(alloc, case, out)?;
    }
    Ok(())
}

fn main(rt: HostRuntime) -> io::Result<()> {
    let alloc = rt.alloc();
    let mut text = Vec::new(alloc);
    rt.stdin().read_to_end(&mut text)?;
    let mut out = Vec::new(alloc);
    print_all(&rt, alloc, &text, &mut out)?;
    rt.stdout().write_all(&out)?;
    Ok(())
}
