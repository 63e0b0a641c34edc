//! Accepting a revision: its text over the history that a draft stands on.
//!
//! A revision is put by its text. It names its parents by their ids; the tree that its edges make over theirs gets the marks
//! of the whole history, and is kept with the text: numbered, whole or as what differs from the first parent's.
//!
//! The crates above rely on this: [`put_revision`] answers the id of a text that is held already or is accepted, and then the
//! draft stands for the state with the text at the log's end; or the first refusal, in the order of `specs/Accepting.antt`.
//! Nothing else changes. A damage is answered only where the draft's records stand for no state. [`put_revision_as`] answers
//! the same of a text whose id is known beforehand, and maybe its tree, and makes neither again.
//!
//! Cost: linear in the revision's tree and its parents', and in what one of two parents has above it that the other lacks.
#![tactic(auto)]

mod contents;
mod keep;
mod over;
mod pair;
mod places;
mod put;
mod records;
mod tree;
mod typed;
mod uncommon;
mod unfit;

pub use put::{put_revision, put_revision_as};
pub use records::{KeptParents, Written, write_record};
pub use uncommon::uncommon_of;
pub use unfit::roster_held;
