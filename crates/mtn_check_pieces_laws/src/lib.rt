//! What the verdicts of `mtn_check_pieces` say behind a front of the log. Nothing here runs.
//!
//! A check that walks along the log has a front: the history below a position, and what is kept of it (`mtn_check_laws`). A job of
//! that position has the records of what is kept of its parents, and what each of two has above it that the other lacks
//! (`specs/Behind.antt`).
//!
//! A check by such verdicts can rely on this: where a job agrees, its text makes that tree with those marks of the history, so that
//! neither is made again; and a job agrees wherever its text is lawful and its record the one that is due. What is left to it are
//! the limits of the tree, the files, the manifest's id and the numbers of nodes, all of the stored roster.
#![tactic(auto)]

mod laws;

pub use laws::{agreeing_is_kept, agreeing_is_lawful, due_agrees, kept_agrees, numbered_is_kept};
