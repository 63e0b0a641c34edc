//! What a store is, in definitions that every crate above cites: the records of its tables, and the
//! state that they stand for; and what a command comes to: the state after it, its output, its status.
//!
//! A store's *contents* are a finite map for each table, from keys to bodies. A *state* is four plain
//! collections: files under their ids, the log of revision texts in order of acceptance, a set of certificates, and the
//! names of keys under the ids of these.
#![tactic(auto)]

mod status;

pub use status::Status;
