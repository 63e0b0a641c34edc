//! The grammar of words, and the call that words spell.
//!
//! The first word names a command, *option words* follow, the rest are *positionals*. The grammar (`specs/Words.antt`) parts
//! words of any command, known or not; which options and positionals a command takes is one line for each
//! (`specs/Calls.antt`), over what options say by their names (`specs/Options.antt`) and what positionals are
//! (`specs/Positionals.antt`).
//!
//! The crates above rely on this: [`read_words`] answers exactly the call that the words spell, and Usage exactly where they
//! spell none; [`is_command`] tells which of the two it is.
//!
//! Cost: words are gone over a few times and copied once; n options take n log n comparisons.
#![tactic(auto)]

mod command;
mod options;
mod positionals;
mod with_options;
mod words;

pub use command::{is_command, read_words};
pub use words::{Command, OptionWord, WordsError, step_words};
