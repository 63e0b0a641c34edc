//! The command that words spell.
ghost use Rattle.std.specs.Prelude.{◌≡◌, IfOk, is_some};
ghost use Rattle.mtn_words.specs.Calls.{call_of};
ghost use Rattle.mtn_words.specs.Words.{Reads};

use mtn_base::{Bytes, NoMemory};
use mtn_step::Call;
use mtn_words::WordsError;
use std::alloc::Global;

/// As `mtn_words::read_words`.
pub fn read_words(alloc: Global, words: &[Bytes]) -> Result<Call, WordsError>
    ensures { Reads (call_of words.now) result }
{
    mtn_words::read_words(alloc, words)
}

/// As `mtn_words::is_command`.
pub fn is_command(alloc: Global, words: &[Bytes]) -> Result<bool, NoMemory>
    ensures { IfOk result (λ b. b ≡ is_some (call_of words.now)) }
{
    mtn_words::is_command(alloc, words)
}
