//! The commands of certificates and branches under their own clauses, for the wrong bodies that these refuse. Nothing uses it.
#![tactic(auto)]

pub mod branches;
pub mod certs;
pub mod revisions;
