// How words are parted.
use mtn_case_records::text::{put_escaped, words_of};
use mtn_cli::{Command, OptionWord, WordsError, step_words};
use std::alloc::Global;

fn put_option(option: &OptionWord, out: &mut Vec<u8>) -> Option<()> {
    out.push(b' ').ok()?;
    put_escaped(option.name.as_slice(), out)?;
    if let Some(value) = &option.value {
        out.push(b'=').ok()?;
        put_escaped(value.as_slice(), out)?;
    }
    Some(())
}

fn put_command(command: &Command, out: &mut Vec<u8>) -> Option<()> {
    put_escaped(command.name.as_slice(), out)?;
    for option in command.options.as_slice() {
        put_option(option, out)?;
    }
    out.push(b':').ok()?;
    for word in command.positionals.as_slice() {
        out.push(b' ').ok()?;
        put_escaped(word.as_slice(), out)?;
    }
    Some(())
}

/// The name, each option, and behind a colon each positional; or `usage`.
pub fn parts(alloc: Global, rest: &[u8], out: &mut Vec<u8>) -> Option<()> {
    let words = words_of(alloc, rest)?;
    match step_words(alloc, words.as_slice()) {
        Ok(command) => put_command(&command, out),
        Err(WordsError::Usage) => out.extend_from_slice(b"usage").ok(),
        Err(WordsError::NoMemory) => None,
    }
}
