//! The promises of records and of chains of them, each public call under its own clauses with the call as its body.
//!
//! A reader finds here what is read, written, numbered and rebuilt, in one place. The wrong bodies of must-fail/ each stand in
//! the place of a call, and its clauses refuse them.
#![tactic(auto)]

pub mod deltas;
pub mod numbered;
pub mod records;
