// What the option words of a command say.
ghost use Rattle.std.specs.Prelude.{◌≡◌, IfOk, bytes_eq, find, map, option_map};
ghost use Rattle.std.specs.List.{list_any};
ghost use Rattle.mtn_words.specs.Options.{has_flag as flag_stands, key_of, option_value, is_taken as taken, takes as are_taken};
ghost use Rattle.mtn_words.specs.Words.{Reads};

use crate::positionals::id_of_word;
use crate::words::{OptionWord, WordsError};
use mtn_base::{Bytes, Id, NoMemory};
use std::alloc::Global;

fn is_among(name: &[u8], names: &[&str]) -> bool
    ensures { result ≡ list_any (λ other. bytes_eq name.now other.now) names.now }
{
    names.iter().any(|other| name == other.as_bytes())
}

// Whether an option is one that a command takes.
fn is_taken(flags: &[&str], names: &[&str], option: &OptionWord) -> bool
    ensures { result ≡ taken (map (λ s. s.now) flags.now) (map (λ s. s.now) names.now) option.now }
{
    if option.value.is_none() {
        is_among(option.name.as_slice(), flags)
    } else {
        is_among(option.name.as_slice(), names)
    }
}

/// Whether each option is one that the command takes: without a value one of these flags, with a value one of these names.
pub fn takes(flags: &[&str], names: &[&str], options: &[OptionWord]) -> bool
    ensures { result ≡ are_taken (map (λ s. s.now) flags.now) (map (λ s. s.now) names.now) options.now }
{
    options.iter().all(|option| is_taken(flags, names, option))
}

/// Whether an option of this name stands there without a value.
pub fn has_flag(options: &[OptionWord], name: &str) -> bool
    ensures { result ≡ flag_stands options.now name.now }
{
    options.iter().any(|option| option.value.is_none() && option.name.as_slice() == name.as_bytes())
}

fn option_named<'a>(options: &'a [OptionWord], name: &str) -> Option<&'a OptionWord>
    ensures { option_map (λ o. o.now) result ≡ find (λ o. bytes_eq o.name name.now) options.now }
{
    options
        .iter()
        .find(|option| option.name.as_slice() == name.as_bytes())
}

// The value of the option of this name.
fn value_named<'a>(options: &'a [OptionWord], name: &str) -> Option<&'a Bytes>
    ensures { option_map (λ b. b.now) result ≡ option_value options.now name.now }
{
    match option_named(options, name) {
        Some(option) => option.value.as_ref(),
        None => None,
    }
}

/// The value of the option of this name, which must be there.
pub fn value(alloc: Global, options: &[OptionWord], name: &str) -> Result<Bytes, WordsError>
    ensures { Reads (option_value options.now name.now) result }
{
    match value_named(options, name) {
        Some(value) => Ok(value.copy(alloc)?),
        None => Err(WordsError::Usage),
    }
}

/// The value of the option of this name, where it is there.
pub fn value_if_any(
    alloc: Global,
    options: &[OptionWord],
    name: &str,
) -> Result<Option<Bytes>, NoMemory>
    ensures { IfOk result (λ v. v ≡ option_value options.now name.now) }
{
    match value_named(options, name) {
        Some(value) => Ok(Some(value.copy(alloc)?)),
        None => Ok(None),
    }
}

/// The id that `--key` says.
pub fn key(options: &[OptionWord]) -> Result<Id, WordsError>
    ensures { Reads (key_of options.now) result }
{
    match value_named(options, "key") {
        Some(value) => id_of_word(value),
        None => Err(WordsError::Usage),
    }
}
