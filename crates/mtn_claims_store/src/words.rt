//! The words of a command line.
ghost use Rattle.std.specs.Prelude.{◌≡◌, IfOk};
ghost use Rattle.mtn_cli.specs.Store.{is_spelled};
ghost use Rattle.mtn_words.specs.Words.{Reads, command_of};
ghost use Rattle.mtn_frame.specs.Top.{in_grammar};

use mtn_base::{Bytes, NoMemory};
use mtn_cli::{Command, WordsError};
use std::alloc::Global;

/// `mtn_cli::are_words`.
pub fn are_words(alloc: Global, words: &[Bytes]) -> Result<bool, NoMemory>
    ensures { IfOk result (λ b. b ≡ in_grammar is_spelled words.now) }
{
    mtn_cli::are_words(alloc, words)
}

/// `mtn_cli::step_words`.
pub fn step_words(alloc: Global, words: &[Bytes]) -> Result<Command, WordsError>
    ensures { Reads (command_of words.now) result }
{
    mtn_cli::step_words(alloc, words)
}
