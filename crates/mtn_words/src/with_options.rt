// The commands that take options.
ghost use Rattle.mtn_words.specs.Calls.{cert as cert_call, cert_by, commit as commit_call, merge as merge_call, merge_heads as merge_heads_call, said as said_by};
ghost use Rattle.mtn_words.specs.Words.{Reads};

use crate::options::{has_flag, key, takes, value, value_if_any};
use crate::positionals::{id_of_word, no_words, one_word, two_ids};
use crate::words::{OptionWord, WordsError};
use mtn_base::{Bytes, Id};
use mtn_step::{Call, Said};
use std::alloc::Global;

pub fn merge(options: &[OptionWord], words: &[Bytes]) -> Result<Call, WordsError>
    ensures { Reads (merge_call options.now words.now) result }
{
    if !takes(&["resolve"], &[], options) {
        return Err(WordsError::Usage);
    }
    let (a, b) = two_ids(words)?;
    let resolves = has_flag(options, "resolve");
    Ok(Call::Merge { a, b, resolves })
}

pub fn merge_heads(
    alloc: Global,
    options: &[OptionWord],
    words: &[Bytes],
) -> Result<Call, WordsError>
    ensures { Reads (merge_heads_call options.now words.now) result }
{
    if !takes(&["resolve"], &["author", "date", "key"], options) {
        return Err(WordsError::Usage);
    }
    Ok(Call::MergeHeads {
        branch: one_word(alloc, words)?,
        author: value(alloc, options, "author")?,
        date: value(alloc, options, "date")?,
        key: key(options)?,
        resolves: has_flag(options, "resolve"),
    })
}

// What is said of a revision, each by an option that must be there.
fn said(alloc: Global, options: &[OptionWord]) -> Result<Said, WordsError>
    ensures { Reads (said_by options.now) result }
{
    Ok(Said {
        author: value(alloc, options, "author")?,
        branch: value(alloc, options, "branch")?,
        changelog: value(alloc, options, "changelog")?,
        date: value(alloc, options, "date")?,
        key: key(options)?,
    })
}

pub fn commit(alloc: Global, options: &[OptionWord], words: &[Bytes]) -> Result<Call, WordsError>
    ensures { Reads (commit_call options.now words.now) result }
{
    if !takes(
        &[],
        &["author", "branch", "changelog", "date", "key"],
        options,
    ) {
        return Err(WordsError::Usage);
    }
    no_words(words)?;
    let said = said(alloc, options)?;
    Ok(Call::Commit { said })
}

fn cert_with(
    alloc: Global,
    key: Id,
    signature: Option<Bytes>,
    words: &[Bytes],
) -> Result<Call, WordsError>
    ensures { Reads (cert_by key signature words.now) result }
{
    let [revision, name, value] = words else {
        return Err(WordsError::Usage);
    };
    Ok(Call::Cert {
        revision: id_of_word(revision)?,
        name: name.copy(alloc)?,
        key,
        value: value.copy(alloc)?,
        signature,
    })
}

pub fn cert(alloc: Global, options: &[OptionWord], words: &[Bytes]) -> Result<Call, WordsError>
    ensures { Reads (cert_call options.now words.now) result }
{
    if !takes(&[], &["key", "sig"], options) {
        return Err(WordsError::Usage);
    }
    let key = key(options)?;
    let signature = value_if_any(alloc, options, "sig")?;
    cert_with(alloc, key, signature, words)
}
