//! The promises of what a merge and a new roster are made of, call by call: marks, manifests, limits, decisions, resolutions.
//!
//! Each function here restates the contract of one public call of a crate below, in the same words, with the call as its body; it
//! says nothing of its own. The edits of `must-fail/` put a wrong body in the place of a call, and each is refused: so a body that
//! means something else does not meet what the crate promises.
#![tactic(auto)]

pub mod conflicts;
pub mod decide;
pub mod deltas;
pub mod make_roster;
pub mod manifest;
pub mod marking;
pub mod resolve;
