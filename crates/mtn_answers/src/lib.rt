//! What is asked of a history of revisions, and what answers it, in definitions and laws. Nothing here runs.
//!
//! A *query* names revisions by their ids, and its answer is a list of ids (`specs/Queries.antt`): exactly
//! those that it asks for, each once, by ascending ids, or in log order where the query says so. The graph is
//! answered as lines (`specs/Lines.antt`). A question about one revision has a text as its answer, or a
//! refusal (`specs/Views.antt`).
//!
//! The crates above rely on this: over a history a query has one answer, and so has a question; each scalar
//! of a tree has a mark that is named.
#![tactic(auto)]

mod laws;
mod query;

pub use laws::{marks_are_named, one_answer, some_answer};
pub use query::{Line, Query};
