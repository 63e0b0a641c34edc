//! The check of a store: all of its records, in a fixed order, up to the first damage.
//!
//! What a check looks at, and the order, stand in `mtn_check_laws`: table 1, the tables without a use, the files, the log position
//! by position (`mtn_check_log`), then what is beside it: records of positions that the log does not have, key names, certificates.
//!
//! The crates above rely on this: [`check_store`] answers a number only where the records stand for a state, and it is that of the
//! state's revisions; a damage is *the* first one, and shows a record that is there or a key under which nothing is. Nothing is
//! written.
//!
//! A *test* says of a record of one table whether it keeps a rule; the walk of a table by `next_record` answers the first record that
//! does not (`specs/Tables.antt`). What each step asks and finds stands in `specs/Steps.antt`.
//!
//! Cost: beside the walk along the log each file, key name and certificate is asked for once, by the walk of its table, a certificate
//! also for its revision's text. Texts, records of the log and rosters are counted by their keys, little by little while the walk
//! waits for the threads that accept, and then to their end: a table that has one for each position and no more has no other. Only
//! where it has more is each of its records asked for too, a text also for the log's record at its position. Each file is hashed once.
#![tactic(auto)]

mod begun;
mod beside;
mod check;
mod empty;
mod few;
mod form;
mod meta;
mod number;
mod places;
mod scan;

pub use check::check_store;
