//! The graph of revisions, and what follows from it alone.
//!
//! A *position* is a revision's place in the log, from 0; a revision is accepted only after its parents, so
//! each parent stands below its child. The *ancestors* of a revision are it and all that a path of parent
//! steps reaches from it. The *uncommon* revisions of two are the ancestors of one that are none of the other.
//!
//! The crates above rely on this: each call gives exactly such a set, as a list that ascends without repeats.
//! A call of [`Graph`] sweeps over the log once (`common` once for each 64 given positions). [`uncommon`] asks
//! whoever keeps the graph, and for no position twice or below the uncommon part.
#![tactic(auto)]

mod flags;
mod frontier;
mod graph;
mod pos;
mod set;
mod sweep;
mod walk;
mod words;

pub use graph::Graph;
pub use pos::{LogEntry, ParentList, Pos};
pub use set::PosSet;
pub use walk::{Parents, WalkError, uncommon};
