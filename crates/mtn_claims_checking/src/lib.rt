//! The promises of the parts of a check: of a position, a job and a lot, call by call.
//!
//! Each function here restates the contract of one public call of a crate below, in the same words, with the call as its body; it
//! says nothing of its own. The edits of `must-fail/` put a wrong body in the place of a call, and each is refused: so a body that
//! means something else does not meet what the crate promises.
#![tactic(auto)]

pub mod check_hands;
pub mod check_log;
pub mod check_pieces;
pub mod check_records;
