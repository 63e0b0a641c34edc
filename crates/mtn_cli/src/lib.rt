//! One public call, `run`, that does all that the program does, and the theorem on it.
//!
//! *Words* are a command and its arguments, the *payload* is what the source gives, or, in a session, the last word of a request.
//! A command is done over a *draft* of the store (`mtn_history`): its function has the one clause `Drafts` that all have, and
//! answers a text; `check` and `migrate` alone go over the keeper itself (`mtn_check`, `mtn_migrating`). What each command does to a
//! state is one line of `Steps` (`mtn_step`), what words spell it one line of the grammar (`mtn_words`). What is done around a
//! command, alone or in a session, is said and proved by `mtn_frame` for any commands: a command joins by its words, its line, its
//! function and its arm.
//!
//! The program relies on this: the clauses of `run` say what each status leaves and when it comes, for a single command and for a
//! session of requests, whatever the source, the sink and the keeper do, and what a crash may leave.
#![tactic(auto)]

mod check;
mod damage;
mod laws;
mod migrate;
mod script;
mod session;
mod top;
mod works;

pub use laws::one_outcome;
pub use mtn_model::Status;
pub use mtn_words::{Command, OptionWord, WordsError, step_words};
pub use top::{are_words, run};
