//! The promises of `mtn_frame`, each public call under its own clauses with the call as its body, and a made-up set of commands
//! that meets what the frame asks of one. Nothing here runs; `mtn_cases_store` runs the made-up commands.
//!
//! The wrong bodies of `must-fail/` stand in the place of a call, or of a made-up command, and the prover refuses each.
#![tactic(auto)]

pub mod claims;
pub mod toy;
