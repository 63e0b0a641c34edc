// Words that stand behind a command and its options.
ghost use Rattle.std.specs.Prelude.{◌≡◌, IfOk, bytes_eq, decimal};
ghost use Rattle.mtn_base.specs.Hex.{read_id};
ghost use Rattle.mtn_words.specs.Positionals.{ids as ids_of, no_words as nothing, one_count as count_of, one_id as id_of, one_word as word_of, read_count, read_path as path_of, some_ids as some_of, two_ids as pair_of};
ghost use Rattle.mtn_words.specs.Words.{Reads};

use crate::words::WordsError;
use mtn_base::{Bytes, Id, List, NoMemory, Path, PathError};
use std::alloc::Global;

/// No word.
pub fn no_words(words: &[Bytes]) -> Result<(), WordsError>
    ensures { Reads (nothing words.now) result }
{
    match words {
        [] => Ok(()),
        _ => Err(WordsError::Usage),
    }
}

/// One word.
pub fn one_word(alloc: Global, words: &[Bytes]) -> Result<Bytes, WordsError>
    ensures { Reads (word_of words.now) result }
{
    match words {
        [word] => Ok(word.copy(alloc)?),
        _ => Err(WordsError::Usage),
    }
}

/// One id.
pub fn one_id(words: &[Bytes]) -> Result<Id, WordsError>
    ensures { Reads (id_of words.now) result }
{
    match words {
        [word] => Id::read_hex(word.as_slice()).ok_or(WordsError::Usage),
        _ => Err(WordsError::Usage),
    }
}

/// The most revisions that are generated.
pub const MAX_GENERATED: u64 = 2000;

/// A number of revisions to be generated.
pub fn one_count(alloc: Global, words: &[Bytes]) -> Result<u64, WordsError>
    ensures { Reads (count_of words.now) result }
{
    match words {
        [word] => count_of_word(alloc, word),
        _ => Err(WordsError::Usage),
    }
}

// Whether the word is what the number writes.
fn is_written(alloc: Global, count: u64, word: &Bytes) -> Result<bool, NoMemory>
    ensures { IfOk result (λ b. b ≡ bytes_eq word.now (decimal count)) }
{
    let written = count.to_string(alloc)?;
    Ok(word.as_slice() == written.as_bytes())
}

fn count_of_word(alloc: Global, word: &Bytes) -> Result<u64, WordsError>
    ensures { Reads (read_count word.now) result }
{
    let Ok(text) = std::str::from_utf8(word.as_slice()) else {
        return Err(WordsError::Usage);
    };
    let Ok(count) = text.parse::<u64>() else {
        return Err(WordsError::Usage);
    };
    if count == 0 || count > MAX_GENERATED {
        return Err(WordsError::Usage);
    }
    if is_written(alloc, count, word)? {
        Ok(count)
    } else {
        Err(WordsError::Usage)
    }
}

/// Two ids.
pub fn two_ids(words: &[Bytes]) -> Result<(Id, Id), WordsError>
    ensures { Reads (pair_of (λ a b. (a, b)) words.now) result }
{
    match words {
        [a, b] => {
            let a = id_of_word(a)?;
            let b = id_of_word(b)?;
            Ok((a, b))
        }
        _ => Err(WordsError::Usage),
    }
}

/// The id that a word is.
pub fn id_of_word(word: &Bytes) -> Result<Id, WordsError>
    ensures { Reads (read_id word.now) result }
{
    Id::read_hex(word.as_slice()).ok_or(WordsError::Usage)
}

/// The path that a word spells.
pub fn path_word(alloc: Global, word: &Bytes) -> Result<Path, WordsError>
    ensures { Reads (path_of word.now) result }
{
    match Path::read(alloc, word.as_slice()) {
        Ok(path) => Ok(path),
        Err(PathError::Empty) => Err(WordsError::Usage),
        Err(PathError::Dots) => Err(WordsError::Usage),
        Err(PathError::TooLong) => Err(WordsError::Usage),
        Err(PathError::BadByte) => Err(WordsError::Usage),
        Err(PathError::NoMemory) => Err(WordsError::NoMemory),
    }
}

/// Ids, maybe none.
pub fn ids(alloc: Global, words: &[Bytes]) -> Result<List<Id>, WordsError>
    ensures { Reads (ids_of words.now) result }
{
    let mut ids = List::new(alloc);
    for word in words {
        ids.push(id_of_word(word)?)?;
    }
    Ok(ids)
}

/// One id or more.
pub fn some_ids(alloc: Global, words: &[Bytes]) -> Result<List<Id>, WordsError>
    ensures { Reads (some_of words.now) result }
{
    match words {
        [] => Err(WordsError::Usage),
        _ => ids(alloc, words),
    }
}
