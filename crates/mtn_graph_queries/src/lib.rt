//! The queries of the graph of revisions: Monotone's `parents`, `children`, `ancestors`, `descendents`,
//! `common_ancestors`, `erase_ancestors`, `toposort`, `ancestry_difference`, `leaves`, `roots` and `graph`.
//!
//! A query names revisions by their ids, and its answer is a list of ids (`specs/Queries.antt` of `mtn_answers`): exactly
//! those that it asks for, each once, by ascending ids, or in log order where the query says so. The first
//! id that the graph does not have is answered before all else.
//!
//! The crate above relies on this: an answer is that of every history that the graph tells, and there is
//! no other. Cost: at most one sweep of the log for each call of [`mtn_ancestry::Graph`], and the sorting of
//! the ids that are answered.
#![tactic(auto)]

mod answers;
mod graph;
mod ids;
mod places;
mod query;
mod sets;

pub use answers::answer;
pub use graph::lines;
pub use mtn_answers::{Line, Query};
pub use query::QueryError;
