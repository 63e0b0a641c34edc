//! The check of stored rosters, in pieces on several threads: whether a revision's roster, its marks and its births are those
//! that its text makes of its parents' ones.
//!
//! A *job* has a revision's text and id, its position in the log, and the whole records of its own roster and its parents', which
//! jobs share; of two parents also what each has above it that the other lacks. The jobs of one call are cut by position into as
//! many runs as there are pieces, or jobs where these are fewer. Each run is a piece of work on a thread of its own, and passes a
//! gate before it begins.
//!
//! The crates above rely on this: the verdict is `Agrees` exactly where the text reads, its edges name as many parents as there
//! are records, each record is whole and spells a roster, the changes and the joining have no fault, and the stored roster is
//! what they make, with the marks of the rule and each birth; and [`check_pieces`] answers one verdict per job, in order, for
//! every number of pieces. Numbers of nodes are no part of it, nor are the limits of a tree, its manifest and its files. Over a
//! history, a stored roster that agrees is that of the next revision ([`laws`]). No clause says that several threads ran.
//!
//! Cost: of a job what reading its text, rebuilding its parents' rosters, applying, joining, marking, and a look at each stored
//! entry cost; the time of the longest run, on as many processors as there are pieces.
#![tactic(auto)]

mod job;
pub mod laws;
mod pieces;
mod reading;
mod same_marks;
mod shared;
mod trees;
mod verdict;

pub use job::{CheckJob, Verdict};
pub use pieces::check_pieces;
pub use reading::{revision_of, roster_of};
pub use shared::{SharedEntries, SharedRecord};
pub use verdict::check_one;
