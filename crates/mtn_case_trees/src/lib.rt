//! Trees and histories as the lines of cases spell them, for the programs that answer such lines.
//!
//! A line has a word, then the node, its parent, its component, `dir` or the digit of a content, and its attributes, with a
//! blank between two: `KEY=VALUE` where one is live and `KEY` where it is cleared. A node is spelled `BIRTH:PATH`. The digit of
//! an id is the one that each of its bytes has; the root slot is `- -`. A revision of a history is `rev ID PARENT..`.
#![tactic(auto)]

mod graph;
mod history;
mod read;
mod write;

pub use graph::{both_alone, find, push};
pub use history::History;
pub use read::{entries_of, entry_of, id_of, name_of, number_of, words_of};
pub use write::{put_attr, put_body, put_entry, put_id, put_name, put_slot};
