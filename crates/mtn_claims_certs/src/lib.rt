//! The promises of `mtn_ancestry`, `mtn_certs` and `mtn_branches`, each public call under its own clauses with the call as its
//! body. Nothing here runs.
//!
//! The wrong bodies of `must-fail/` stand in the place of a call, and the prover refuses each. Since the calls themselves
//! meet these clauses, a body that they refuse is no body of the call.
#![tactic(auto)]

pub mod branches;
pub mod certs;
pub mod graphs;
