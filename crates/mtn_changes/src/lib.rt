//! Changes of a tree, revisions, and their texts.
//!
//! A *change* deletes, renames, adds or patches one path, or clears or sets one attribute of it; its
//! *rank* is the place of its kind in that order, and its *target* what it changes: a path, an
//! attribute of a path. An *edge* is the way from a parent revision: a list of changes, whose ranks
//! rise and whose targets differ. A *revision* names its manifest and has one edge or two.
//!
//! Its *text* is the printed form of its stanzas: `format_version "1"`, `new_manifest`, and for each
//! edge an `old_revision` and the stanzas of its changes. A list of changes has a text of its own.
//!
//! The crates above rely on this: what is read of a stanza is the one change that the stanza spells
//! (`specs/Stanzas.antt`), and None comes exactly where it spells none. A list of changes and a
//! revision are read exactly, with the changes in the text's order, and otherwise the first stanza at
//! fault has its number (`specs/ChangesText.antt`, `specs/RevisionText.antt`). The writers sort the
//! changes of each edge by rank, path and key, ask only that the value is lawful apart from order
//! (`specs/Sorting.antt`), and leave what was there where memory is wanting. A text spells one value,
//! and one that spells a value is not refused, so what is written is read back as the sorted value; a text
//! that spells no revision has one fault at most (`src/laws.rt`).
//!
//! Reading n changes sorts n references once, writing them sorts n more; only a text with a fault is
//! read a second time, with an ordered set, to find the first one.
#![tactic(auto)]

mod apart;
mod change;
mod error;
mod head;
mod lawful;
mod laws;
mod lines;
mod opening;
mod order;
mod reading;
mod revision;
mod sorting;
mod stanzas;
mod target;
mod writing;

pub use change::{Change, Changeset, Edge, Revision};
pub use error::ChangeTextError;
pub use head::{Head, head_of, stanza_of_head};
pub use laws::{
    lawful_in_any_order, lawful_is_read, one_fault, one_value, sorted_changes, sorted_revision,
};
pub use reading::read_changes;
pub use revision::read_revision;
pub use stanzas::{change_of, stanza_of};
pub use writing::{write_changes, write_revision};
