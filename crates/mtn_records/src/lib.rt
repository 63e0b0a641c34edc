//! The records of rosters and of the log: bytes, and back.
//!
//! A *field* is a value with a text of its own: a number of eight bytes, greatest first, a flag of one, an id of
//! twenty, bytes behind their length, a set of positions behind their count, or a tuple, an option, a list of
//! fields. Bytes begin with the text of one value at most, so that reading is exact: the value, or `Bad` exactly
//! where the bytes begin with none. A *numbered* tree is its entries by ascending numbers, with the marks of each.
//!
//! A roster's record has all entries, or what differs from the roster of a *base*; a record of the log has a
//! revision's id, the least node number not given after it, and its parents. A record stands under its position,
//! its *key*: bases and parents stand below it, births and marks not above it.
//!
//! The crates above rely on this: [`read_roster`] and [`read_log`] answer the only record whose text the whole body
//! is and whose positions keep the bounds of the key, or Bad exactly where there is none; [`write_roster`] and
//! [`write_log`] append exactly that text, and [`is_record_at`] tells whether a roster's record can be written and is
//! read back under a key. `specs/Records.antt` has the texts, `specs/Bounds.antt` the bounds. What a delta stands on is
//! looked at above.
//!
//! Cost: linear in the bytes. Nothing is sorted.
#![tactic(auto)]

mod copies;
mod entries;
mod entry;
mod error;
mod field;
mod forms;
mod laws;
mod lists;
mod logs;
mod names;
mod record;
mod rosters;

pub use copies::copy_value;
pub use entry::{Numbered, NumberedAttr, NumberedBody, NumberedEntry};
pub use error::RecordError;
pub use field::Field;
pub use forms::is_record_at;
pub use laws::{log_again, one_record, roster_again};
pub use logs::{read_log, write_log};
pub use record::{LogRecord, RosterRecord};
pub use rosters::{read_roster, write_roster};
