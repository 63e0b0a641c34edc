//! The promises of calls that other calls accept and read by: certificates held and read, the record that is due, what two revisions
//! lack of each other, the damage that is shown.
//!
//! Each function here restates the contract of one public call of a crate below, in the same words, with the call as its body; it
//! says nothing of its own. The edits of `must-fail/` put a wrong body in the place of a call, and each is refused: so a body that
//! means something else does not meet what the crate promises.
#![tactic(auto)]

pub mod merge;
pub mod old_stores;
pub mod put_certs;
pub mod put_revision;
pub mod reading;
