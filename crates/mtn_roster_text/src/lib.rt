//! The text of a roster: each node of a revision's tree, with where it was born and the marks of its scalars.
//!
//! It is a text of stanzas, as a manifest: `format_version "1"`, then one for each node in the order of their
//! paths. Its lines are `dir` or `file` with the path, `content`, `birth` with the revision and the path of its
//! birth, `path_mark`, `content_mark`, and for each attribute in byte order of keys `attr` with the value, or
//! `dormant_attr` where it is cleared, and `attr_mark`. A mark line has the ids of the marks, ascending.
//!
//! The crates above rely on this: `write` appends the printed form of exactly these stanzas, with the ids that a
//! table has for the positions of the marks; `marked_positions` is what such a table needs.
//!
//! Cost: one walk; the path of a node is made from its parent's, each stanza is printed straight into the text,
//! and the id of each mark is found by halves.
#![tactic(auto)]

mod naming;
mod positions;
mod printing;
mod table;
mod walk;

pub use positions::marked_positions;
pub use table::{IdTable, Named};
pub use walk::write;
