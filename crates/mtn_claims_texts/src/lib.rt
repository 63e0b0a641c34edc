//! The promises of `mtn_base`, `mtn_ports`, `mtn_basic_io` and `mtn_changes`, each public call under its own clauses with the
//! call as its body. Nothing here runs.
//!
//! The wrong bodies of `must-fail/` stand in the place of a call, and the prover refuses each. Since the calls themselves
//! meet these clauses, a body that they refuse is no body of the call.
#![tactic(auto)]

pub mod base;
pub mod batches;
pub mod changes;
pub mod keepers;
pub mod paths;
pub mod streams;
pub mod texts;
pub mod writers;
