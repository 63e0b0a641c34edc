//! Stores of the older form, turned into the present one.
//!
//! A *key table* gives each key that made a certificate an id (`mtn_certs`); what an older store becomes by it stands in
//! `mtn_old_stores`. A *migration* is the batch that makes it so, and the answer. The keeper is only asked.
//!
//! The crates above rely on this: over an older store [`migrate`] answers exactly what the payload comes to, and the batch put
//! over the store stands for the migrated state; over a store of the present form it is refused, as its step says
//! (`specs/Migration.antt`). Of table 1 the batch has the version alone, and otherwise key names and certificates.
//!
//! Cost: one walk of table 6, each record asked for once; for each certificate one look-up by the name of its key.
#![tactic(auto)]

mod given;
mod ids;
mod migrating;
mod puts;

pub use migrating::{Migration, migrate};
