//! A keeper of records in a SQLite database, over any store that the crate `sqlite` can alter.
//!
//! All records stand in one strict table `kept`: a table's number is a record's *kind*, a key its *name*.
//! A name stands once in its kind, and names are ordered byte by byte. A batch is one transaction.
//!
//! The layers above rely on this: `Failed` comes only where the count of faults rose in that call, a key that
//! `next` or `next_record` gives stands above the one that was asked for, and a read raises `reads` by at most one. An open database
//! tells no contents, so nothing is claimed of what a body or a key is.
//!
//! A database that is not there is opened, and so made, at the first batch. Until then the keeper tells that it has no records.
//!
//! Cost: a read or a put is one search in an index; a body is copied once out of the database's row.
#![tactic(auto)]

mod database;
mod file;
mod keeper;
mod lazy;
mod statements;

pub use file::DatabaseFile;
pub use keeper::SqliteKeeper;
pub use lazy::{LazyKeeper, Opener};
