//! The promises of the crates of trees, marks and their texts, call by call.
//!
//! Each function here restates the contract of one public call of a crate below, in the same words, with the call
//! as its body; it says nothing of its own. The edits of `must-fail/` put a wrong body in the place of a call, and
//! each is refused: so a body that means something else does not meet what the crate promises.
#![tactic(auto)]

pub mod applied;
pub mod joined;
pub mod made;
pub mod marks;
pub mod places;
pub mod queries;
pub mod texts;
pub mod trees;
