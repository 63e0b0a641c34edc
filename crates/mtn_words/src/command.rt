// The commands, and the words of each.
ghost use Rattle.std.specs.Prelude.{◌≡◌, IfOk, is_some};
ghost use Rattle.mtn_words.specs.Calls.{ask_named as ask_by_name, call_named as call_by_name, call_of, call_with as call_by_options, call_without as call_by_no_option, content_changed as content_call, corresponding_path as corresponding_call, key_named as key_call, pick_named as pick_by_name, query_named as query_by_name, view_named as view_by_name};
ghost use Rattle.mtn_words.specs.Positionals.{id_and_ids, two_ids as pair_of};
ghost use Rattle.mtn_words.specs.Words.{Reads};

use crate::options::takes;
use crate::positionals::{
    id_of_word, ids, no_words, one_count, one_id, one_word, path_word, some_ids, two_ids,
};
use crate::with_options::{cert, commit, merge, merge_heads};
use crate::words::{OptionWord, WordsError, step_words};
use mtn_answers::Query;
use mtn_base::{Bytes, NoMemory};
use mtn_step::Call;
use std::alloc::Global;

/// The call that the words spell.
pub fn read_words(alloc: Global, words: &[Bytes]) -> Result<Call, WordsError>
    ensures { Reads (call_of words.now) result }
{
    let command = step_words(alloc, words)?;
    match std::str::from_utf8(command.name.as_slice()) {
        Ok(name) => call_with(
            alloc,
            command.options.as_slice(),
            name,
            command.positionals.as_slice(),
        ),
        Err(_) => Err(WordsError::Usage),
    }
}

/// Whether the words spell a command with what it takes.
pub fn is_command(alloc: Global, words: &[Bytes]) -> Result<bool, NoMemory>
    ensures { IfOk result (λ b. b ≡ is_some (call_of words.now)) }
{
    match read_words(alloc, words) {
        Ok(_) => Ok(true),
        Err(WordsError::Usage) => Ok(false),
        Err(WordsError::NoMemory) => Err(NoMemory),
    }
}

// A command with what its options say.
fn call_with(
    alloc: Global,
    options: &[OptionWord],
    name: &str,
    words: &[Bytes],
) -> Result<Call, WordsError>
    ensures { Reads (call_by_options options.now name.now words.now) result }
{
    match name {
        "merge" => merge(options, words),
        "merge_heads" => merge_heads(alloc, options, words),
        "commit" => commit(alloc, options, words),
        "cert" => cert(alloc, options, words),
        _ => call_without(alloc, options, name, words),
    }
}

// A command that takes no option.
fn call_without(
    alloc: Global,
    options: &[OptionWord],
    name: &str,
    words: &[Bytes],
) -> Result<Call, WordsError>
    ensures { Reads (call_by_no_option options.now name.now words.now) result }
{
    if takes(&[], &[], options) {
        call_named(alloc, name, words)
    } else {
        Err(WordsError::Usage)
    }
}

// A command by its name: one of these, or a question.
fn call_named(alloc: Global, name: &str, words: &[Bytes]) -> Result<Call, WordsError>
    ensures { Reads (call_by_name name.now words.now) result }
{
    match name {
        "put_file" => no_words(words).map(|()| Call::PutFile),
        "put_revision" => no_words(words).map(|()| Call::PutRevision),
        "get_file" => one_id(words).map(|id| Call::GetFile { id }),
        "get_revision" => one_id(words).map(|id| Call::GetRevision { id }),
        "key" => key_named(alloc, words),
        "read" => no_words(words).map(|()| Call::Read),
        "generate" => one_count(alloc, words).map(|count| Call::Generate { count }),
        "check" => no_words(words).map(|()| Call::Check),
        "migrate" => no_words(words).map(|()| Call::Migrate),
        _ => view_named(alloc, name, words),
    }
}

// A question about given revisions, or another one.
fn view_named(alloc: Global, name: &str, words: &[Bytes]) -> Result<Call, WordsError>
    ensures { Reads (view_by_name name.now words.now) result }
{
    match name {
        "get_manifest_of" => one_id(words).map(|id| Call::GetManifestOf { id }),
        "get_roster" => one_id(words).map(|id| Call::GetRoster { id }),
        "get_content_changed" => content_changed(alloc, words),
        "get_corresponding_path" => corresponding_path(alloc, words),
        "show_conflicts" => show_conflicts(words),
        "certs" => one_id(words).map(|id| Call::Certs { id }),
        _ => ask_named(alloc, name, words),
    }
}

// A question about the graph, the branches and packets.
fn ask_named(alloc: Global, name: &str, words: &[Bytes]) -> Result<Call, WordsError>
    ensures { Reads (ask_by_name name.now words.now) result }
{
    match name {
        "heads" => one_word(alloc, words).map(|branch| Call::Heads { branch }),
        "branches" => no_words(words).map(|()| Call::Branches),
        "graph" => no_words(words).map(|()| Call::Graph),
        "packets" => packets(alloc, words),
        _ => query_named(alloc, name, words).map(|query| Call::Ask { query }),
    }
}

// A query of what is above or below given revisions, or another one.
fn query_named(alloc: Global, name: &str, words: &[Bytes]) -> Result<Query, WordsError>
    ensures { Reads (query_by_name name.now words.now) result }
{
    match name {
        "parents" => one_id(words).map(|of| Query::Parents { of }),
        "children" => one_id(words).map(|of| Query::Children { of }),
        "ancestors" => some_ids(alloc, words).map(|of| Query::Ancestors { of }),
        "descendents" => some_ids(alloc, words).map(|of| Query::Descendents { of }),
        "common_ancestors" => common_ancestors(alloc, words),
        "ancestry_difference" => ancestry_difference(alloc, words),
        _ => pick_named(alloc, name, words),
    }
}

// A query that picks or orders revisions, given ones or all.
fn pick_named(alloc: Global, name: &str, words: &[Bytes]) -> Result<Query, WordsError>
    ensures { Reads (pick_by_name name.now words.now) result }
{
    match name {
        "erase_ancestors" => ids(alloc, words).map(|of| Query::EraseAncestors { of }),
        "toposort" => ids(alloc, words).map(|of| Query::Toposort { of }),
        "leaves" => no_words(words).map(|()| Query::Leaves),
        "roots" => no_words(words).map(|()| Query::Roots),
        _ => Err(WordsError::Usage),
    }
}

fn content_changed(alloc: Global, words: &[Bytes]) -> Result<Call, WordsError>
    ensures { Reads (content_call words.now) result }
{
    match words {
        [id, path] => {
            let id = id_of_word(id)?;
            let path = path_word(alloc, path)?;
            Ok(Call::GetContentChanged { id, path })
        }
        _ => Err(WordsError::Usage),
    }
}

fn corresponding_path(alloc: Global, words: &[Bytes]) -> Result<Call, WordsError>
    ensures { Reads (corresponding_call words.now) result }
{
    match words {
        [id, path, other] => {
            let id = id_of_word(id)?;
            let path = path_word(alloc, path)?;
            let other = id_of_word(other)?;
            Ok(Call::GetCorrespondingPath { id, path, other })
        }
        _ => Err(WordsError::Usage),
    }
}

fn show_conflicts(words: &[Bytes]) -> Result<Call, WordsError>
    ensures { Reads (pair_of Call.ShowConflicts words.now) result }
{
    let (a, b) = two_ids(words)?;
    Ok(Call::ShowConflicts { a, b })
}

fn key_named(alloc: Global, words: &[Bytes]) -> Result<Call, WordsError>
    ensures { Reads (key_call words.now) result }
{
    match words {
        [id, name] => {
            let id = id_of_word(id)?;
            let name = name.copy(alloc)?;
            Ok(Call::Key { id, name })
        }
        _ => Err(WordsError::Usage),
    }
}

fn packets(alloc: Global, words: &[Bytes]) -> Result<Call, WordsError>
    ensures { Reads (id_and_ids Call.Packets words.now) result }
{
    let [word, rest @ ..] = words else {
        return Err(WordsError::Usage);
    };
    let id = id_of_word(word)?;
    let have = ids(alloc, rest)?;
    Ok(Call::Packets { id, have })
}

fn common_ancestors(alloc: Global, words: &[Bytes]) -> Result<Query, WordsError>
    ensures { Reads (id_and_ids Query.CommonAncestors words.now) result }
{
    let [word, rest @ ..] = words else {
        return Err(WordsError::Usage);
    };
    let of = id_of_word(word)?;
    let others = ids(alloc, rest)?;
    Ok(Query::CommonAncestors { of, others })
}

fn ancestry_difference(alloc: Global, words: &[Bytes]) -> Result<Query, WordsError>
    ensures { Reads (id_and_ids Query.AncestryDifference words.now) result }
{
    let [word, rest @ ..] = words else {
        return Err(WordsError::Usage);
    };
    let of = id_of_word(word)?;
    let without = ids(alloc, rest)?;
    Ok(Query::AncestryDifference { of, without })
}
