// What the words of a command line ask for.
use crate::help::{COMMANDS, HELP, STATUSES, VERSION, paragraph};
use mtn_base::{Bytes, List, NoMemory};
use std::env;
use std::io::ErrorKind;

/// What is asked for.
#[derive(Drop)]
pub enum Line {
    /// A command over a store.
    Command { store: String, words: List<Bytes> },
    /// A text about the program.
    Text(&'static str),
    /// No store or one without a name, or words that are not UTF-8.
    Usage,
}

/// The words of this process.
pub fn line_of(rt: &HostRuntime) -> Result<Line, NoMemory> {
    let mut args = match env::args(rt) {
        Ok(args) => args.skip(1),
        Err(error) if error.kind() == ErrorKind::InvalidData => return Ok(Line::Usage),
        Err(_) => return Err(NoMemory),
    };
    let Some(store) = args.next() else {
        return Ok(Line::Usage);
    };
    if store.is_empty() {
        return Ok(Line::Usage);
    }
    let mut words = List::new(rt.alloc());
    for arg in args {
        words.push(List::from_vec(arg.into_bytes()))?;
    }
    match about(store.as_str(), words.as_slice()) {
        Some(line) => Ok(line),
        None => Ok(Line::Command { store, words }),
    }
}

// The words that ask for a text about the program; None for all others.
fn about(first: &str, words: &[Bytes]) -> Option<Line> {
    match (first, words) {
        ("--help", []) => Some(Line::Text(HELP)),
        ("--version", []) => Some(Line::Text(VERSION)),
        ("--help", [word]) => Some(explained(COMMANDS, word)),
        ("--explain", [word]) => Some(explained(STATUSES, word)),
        _ => None,
    }
}

// The paragraph of a text that a word names.
fn explained(text: &'static str, word: &Bytes) -> Line {
    let found = match std::str::from_utf8(word.as_slice()) {
        Ok(word) => paragraph(text, word),
        Err(_) => None,
    };
    match found {
        Some(part) => Line::Text(part),
        None => Line::Usage,
    }
}
