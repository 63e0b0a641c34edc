//! The promises of values: ids, lists, stanzas, changes, records and what the outside is made of, call by call.
//!
//! Each function here restates the contract of one public call of a crate below, in the same words, with the call as its body; it
//! says nothing of its own. The edits of `must-fail/` put a wrong body in the place of a call, and each is refused: so a body that
//! means something else does not meet what the crate promises.
#![tactic(auto)]

pub mod ancestry;
pub mod base;
pub mod basic_io;
pub mod certs;
pub mod changes;
pub mod model;
pub mod pieces;
pub mod ports;
pub mod records;
pub mod sorted;
