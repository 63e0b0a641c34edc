//! The promises of `read_keys`, `mtn_old_stores` and `mtn_migrating`, call by call: key tables and older stores that are
//! read, and an older store that is migrated.
//!
//! Each function here restates the contract of one public call, in the same words, with the call as its body; it says nothing of
//! its own. The edits of `must-fail/` put a wrong body in the place of a call, and each is refused: so a body that means something
//! else does not meet what the crates promise.
#![tactic(auto)]

pub mod migrate;
pub mod read;
