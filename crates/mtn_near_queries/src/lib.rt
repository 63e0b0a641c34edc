//! Queries of the graph that read the log near the revisions which they name, and no more of it: Monotone's `parents`, and
//! `ancestry_difference` of a revision from one other.
//!
//! The answers are those that the whole graph gives (`specs/Queries.antt` of `mtn_answers`), found over a draft of a store
//! (`mtn_history`) from the records of the log that they need.
//!
//! The crate above relies on this: over records that stand for a state an answer is that of the history, and a refusal names the
//! first id that it does not have. Cost: four records for [`parents_of`]; for [`difference_of`] both texts', and at most twice those of
//! the log from the greater of both positions down to the least that one of them has alone, or a parent of such a one.
#![tactic(auto)]

mod difference;
mod ids;
mod parents;
mod place;

pub use difference::difference_of;
pub use parents::parents_of;
