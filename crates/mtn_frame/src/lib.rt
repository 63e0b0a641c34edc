//! The frame of the top call: what one command, or one session of requests, leaves of the records and writes, over any set of
//! commands.
//!
//! A *job* is a command by its words with a payload. A *script* is what the top call is to do: one job, whose answer is
//! written bare, or the jobs of a session, whose answers are framed. A job has an *outcome*: a state, an output and a status
//! from 0 to 3. Outcomes of the first jobs, each at the state that the one before left, are *reached*; every clause speaks of
//! such fronts (`specs/Frame.antt`), so that a single command and a session have the same clauses.
//!
//! The crate above relies on this: whoever meets `Commands`, the contract of one command (`specs/Works.antt`), has by
//! `run_frame` all clauses of the top call (`specs/Top.antt`). None of them names a command, and none looks into a state: what
//! contents stand for is a parameter of them all.
//!
//! A command may *vouch* for the store (`vouching` of `Commands`): whatever the records are that are told, it is done where they
//! stand for a state, shows their first damage where they stand for none, and is refused only over such as `refuses` names.
//!
//! A command only reads. Its answer is printed and framed before its records are put by one call of the keeper, and nothing
//! takes memory behind that. The requests of a session are read whole before the first is done.
#![tactic(auto)]

mod laws;
mod one;
mod payload;
mod raw;
mod requests;
mod script;
mod session;
pub mod settle;
mod top;
mod works;

pub use laws::{one_reading, single_command};
pub use one::{deliver, put_all};
pub use payload::ReadStop;
pub use raw::takes_last;
pub use requests::{Request, RequestStop, read_requests};
pub use script::{Form, Job, Script};
pub use session::goes_on;
pub use top::{feed, is_session, run_frame};
pub use works::{Commands, Reply, WorkError, Worked};
