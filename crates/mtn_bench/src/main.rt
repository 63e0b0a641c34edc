//! What the scripts in bench/ measure, a word for each: `mtn_bench WORD` reads standard input and writes what it made
//! of it; `mtn_bench WORD times` writes the microseconds of its steps by its own clock instead, which begins with what
//! is read in memory. Without a word it does the words of the sections on standard input, each over its own.
#![tactic(auto)]

mod ancestry;
mod canonical;
mod changeset;
mod joined;
mod long;
mod marks;
mod merges;
mod records;
mod revision;
mod roster;
mod sections;
mod stanzas;
mod tree;
mod watch;

use sections::{Section, next_section};
use std::env;
use std::io::{self, Read, Write};
use std::process::ExitCode;
use watch::Watch;

// The words that measure texts and graphs.
fn of_texts(rt: &HostRuntime, watch: &mut Watch, word: &str, text: &[u8]) -> Option<Vec<u8>> {
    match word {
        "stanzas" => stanzas::stanzas(rt, watch, text),
        "revision" => revision::revision(rt, watch, text),
        "ancestry" => ancestry::ancestry(rt, watch, text),
        "records" => records::records(rt, watch, text),
        _ => None,
    }
}

// What measures merges.
fn of_merges(rt: &HostRuntime, watch: &mut Watch, word: &str, text: &[u8]) -> Option<Vec<u8>> {
    match word {
        "merge" => merges::merge(rt, watch, text),
        _ => canonical::between(rt, watch, text),
    }
}

// What a word answers; None for no word, or where it cannot be done.
fn answer(rt: &HostRuntime, watch: &mut Watch, word: &str, text: &[u8]) -> Option<Vec<u8>> {
    match word {
        "roster" => roster::roster(rt, watch, text),
        "long" => long::long(rt, watch, text),
        "changeset" => changeset::changeset(rt, watch, text),
        "join" => joined::joined(rt, watch, text),
        "marks" => marks::marks(rt, watch, text),
        "merge" | "between" => of_merges(rt, watch, word, text),
        _ => of_texts(rt, watch, word, text),
    }
}

// What the word of a section answers.
fn put_answer(
    rt: &HostRuntime,
    watch: &mut Watch,
    section: &Section,
    out: &mut Vec<u8>,
) -> Option<()> {
    let word = str::from_utf8(section.word).ok()?;
    let told = answer(rt, watch, word, section.given)?;
    out.extend_from_slice(&told).ok()
}

// What the words of all sections answer.
fn answers(rt: &HostRuntime, watch: &mut Watch, input: &[u8]) -> Option<Vec<u8>> {
    let mut out = Vec::new(rt.alloc());
    let mut rest = input;
    for _ in 0..input.len() {
        if rest.is_empty() {
            break;
        }
        let next = next_section(rest)?;
        put_answer(rt, watch, &next, &mut out)?;
        rest = next.rest;
    }
    Some(out)
}

// Answers the word of the command line, or without one those of all sections.
fn answer_word(
    rt: &HostRuntime,
    watch: &mut Watch,
    word: Option<&str>,
    text: &[u8],
) -> Option<Vec<u8>> {
    match word {
        Some(word) => answer(rt, watch, word, text),
        None => answers(rt, watch, text),
    }
}

// What is written: the answer, or how long its steps took.
fn output_of(rt: &HostRuntime, word: Option<&str>, times: bool, text: &[u8]) -> Option<Vec<u8>> {
    let mut watch = Watch::start(rt)?;
    let out = answer_word(rt, &mut watch, word, text)?;
    if times {
        watch.line(rt.alloc())
    } else {
        Some(out)
    }
}

fn write_output(
    rt: &HostRuntime,
    word: Option<&str>,
    times: bool,
    text: &[u8],
) -> io::Result<ExitCode> {
    match output_of(rt, word, times, text) {
        Some(out) => {
            rt.stdout().write_all(&out)?;
            Ok(ExitCode::SUCCESS)
        }
        None => Ok(ExitCode::FAILURE),
    }
}

fn read_all(rt: &HostRuntime) -> io::Result<Vec<u8>> {
    let mut text = Vec::new(rt.alloc());
    rt.stdin().read_to_end(&mut text)?;
    Ok(text)
}

// The word of the command line, and whether another stands behind it.
fn words(rt: &HostRuntime) -> io::Result<(Option<String>, bool)> {
    let mut words = env::args(rt)?;
    let _program = words.next();
    let word = words.next();
    Ok((word, words.next().is_some()))
}

fn main(rt: HostRuntime) -> io::Result<ExitCode> {
    let text = read_all(&rt)?;
    let (word, times) = words(&rt)?;
    write_output(&rt, word.as_deref(), times, &text)
}
