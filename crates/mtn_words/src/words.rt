//! The grammar of words: a command, its options, its positionals.
ghost use Rattle.std.specs.Prelude.{◌≡◌, ◌==◌, IfOk, map, position};
ghost use Rattle.std.specs.List.{list_all, prefix_len};
ghost use Rattle.std.specs.Str.{is_utf8 as utf8};
ghost use Rattle.mtn_words.specs.Words.{Reads, are_apart as apart, command_of, command_with, each_of, is_end as ends, is_option as optional, option_cut, option_of, positionals_of};

use mtn_base::{Bytes, List, NoMemory};
use std::alloc::Global;
use std::collections::BTreeSet;

/// An option: `--name=value`, or the flag `--resolve`, which has no value.
#[derive(Drop)]
pub struct OptionWord {
    /// The text behind `--`, up to the first `=`.
    pub name: Bytes,
    pub value: Option<Bytes>,
}

/// Words as the grammar parts them. Which options and positionals a command takes is another matter.
#[derive(Drop)]
pub struct Command {
    pub name: Bytes,
    /// In word order, each name once.
    pub options: List<OptionWord>,
    pub positionals: List<Bytes>,
}

/// Why words are no command.
#[derive(Clone, Copy, Drop, PartialEq, Eq)]
pub enum WordsError {
    /// They are outside the grammar.
    Usage,
    NoMemory,
}

impl From<NoMemory> for WordsError {
    ghost use Rattle.mtn_words.specs.declared.words.WordsError.TheVariants.{NoMemory};

    ghost from_gives = { λ _ e. e ≡ NoMemory };

    fn from(_: NoMemory) -> Self {
        WordsError::NoMemory
    }
}

/// The command that words spell. Each word is UTF-8. The first names the command; option words follow,
/// which begin with `--` and are not `--` itself, in any order and each name once. The word `--` ends
/// them and is dropped; any other word ends them and is kept. The rest are positionals.
pub fn step_words(alloc: Global, words: &[Bytes]) -> Result<Command, WordsError>
    ensures { Reads (command_of words.now) result }
{
    let [name, rest @ ..] = words else {
        return Err(WordsError::Usage);
    };
    if !are_utf8(words) {
        return Err(WordsError::Usage);
    }
    let count = count_options(rest);
    let options = read_options(alloc, &rest[..count])?;
    with_parts(alloc, name, options, positionals(&rest[count..]))
}

// A command whose options differ.
fn with_parts(
    alloc: Global,
    name: &Bytes,
    options: List<OptionWord>,
    positionals: &[Bytes],
) -> Result<Command, WordsError>
    ensures { Reads (command_with name.now positionals.now options) result }
{
    if !are_apart(alloc, options.as_slice())? {
        return Err(WordsError::Usage);
    }
    Ok(Command {
        name: name.copy(alloc)?,
        options,
        positionals: copies(alloc, positionals)?,
    })
}

fn is_utf8(word: &Bytes) -> bool
    ensures { result ≡ utf8 word.now }
{
    std::str::from_utf8(word.as_slice()).is_ok()
}

fn are_utf8(words: &[Bytes]) -> bool
    ensures { result ≡ list_all utf8 words.now }
{
    words.iter().all(|word| is_utf8(word))
}

fn is_end(word: &Bytes) -> bool
    ensures { result ≡ ends word.now }
{
    word.as_slice() == b"--".as_slice()
}

fn is_option(word: &Bytes) -> bool
    ensures { result ≡ optional word.now }
{
    word.as_slice().starts_with(b"--") && !is_end(word)
}

// How many of the first words are options.
fn count_options(words: &[Bytes]) -> usize
    ensures { result ≡ prefix_len optional words.now }
{
    words.iter().take_while(|word| is_option(word)).count()
}

// The words behind the options, without the `--` that ends these.
fn positionals(words: &[Bytes]) -> &[Bytes]
    ensures { result.now ≡ positionals_of words.now }
{
    match words {
        [word, rest @ ..] if is_end(word) => rest,
        _ => words,
    }
}

fn read_options(alloc: Global, words: &[Bytes]) -> Result<List<OptionWord>, WordsError>
    ensures { Reads (each_of option_of words.now) result }
{
    let mut options = List::new(alloc);
    for word in words {
        options.push(read_option(alloc, word.as_slice())?)?;
    }
    Ok(options)
}

// The option behind the `--` of a word.
fn read_option(alloc: Global, word: &[u8]) -> Result<OptionWord, WordsError>
    ensures { Reads (option_of word.now) result }
{
    let text = word.get(2..).unwrap_or(b"".as_slice());
    match equals_in(text) {
        Some(at) => Ok(OptionWord {
            name: Bytes::from_slice(alloc, &text[..at])?,
            value: Some(Bytes::from_slice(alloc, &text[at + 1..])?),
        }),
        None if text == b"resolve".as_slice() => Ok(OptionWord {
            name: Bytes::from_slice(alloc, text)?,
            value: None,
        }),
        None => Err(WordsError::Usage),
    }
}

fn equals_in(text: &[u8]) -> Option<usize>
    ensures { result ≡ position (λ b. b == 61) text.now }
{
    text.iter().position(|&byte| byte == b'=')
}

// Whether no name stands twice.
fn are_apart(alloc: Global, options: &[OptionWord]) -> Result<bool, NoMemory>
    ensures { IfOk result (λ b. b ≡ apart (map (λ o. o.name) options.now)) }
{
    let mut names = BTreeSet::new(alloc);
    let mut left = options.len();
    while left > 0 {
        left -= 1;
        if !names.insert(options[left].name.as_slice())? {
            return Ok(false);
        }
    }
    Ok(true)
}

fn copies(alloc: Global, words: &[Bytes]) -> Result<List<Bytes>, NoMemory>
    ensures { IfOk result (λ l. l ≡ words.now) }
{
    let mut copies = Vec::with_capacity(alloc, words.len())?;
    for word in words {
        copies.push(word.copy(alloc)?)?;
    }
    Ok(List::from_vec(copies))
}
