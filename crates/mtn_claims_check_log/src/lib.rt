//! The promises of `mtn_check_log` and `mtn_check_walk`: the walk along the log.
//!
//! The functions here restate the contracts of the public walks, in the same words, with the call as the body; they say nothing of
//! their own. The edits of `must-fail/` put a wrong body in the place of the call, and each is refused: so a body that means something
//! else does not meet what the crate promises.
#![tactic(auto)]

pub mod jobs;
pub mod walk;
