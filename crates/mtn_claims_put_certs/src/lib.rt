//! The promises of `mtn_put_certs`, call by call: certificates and the names of keys, put and read.
//!
//! Each function here restates the contract of one public call, in the same words, with the call as its body; it says nothing of
//! its own. The edits of `must-fail/` put a wrong body in the place of a call, and each is refused: so a body that means something
//! else does not meet what the crate promises.
#![tactic(auto)]

pub mod put;
pub mod read;
