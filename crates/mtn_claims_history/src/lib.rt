//! The promises of a draft: what it reads, keeps and remembers, and of the keeper over a database, call by call.
//!
//! Each function here restates the contract of one public call of a crate below, in the same words, with the call as its body; it
//! says nothing of its own. The edits of `must-fail/` put a wrong body in the place of a call, and each is refused: so a body that
//! means something else does not meet what the crate promises.
#![tactic(auto)]

pub mod files;
pub mod history;
pub mod keeper;
pub mod logs;
pub mod marked;
pub mod pending;
pub mod rebuilt;
pub mod rosters;
