//! The tree that a new revision makes, with its marks, or its first refusal.
//!
//! A revision has one *edge* or two, each with the changes from a parent's tree. What is known of the parents
//! is its *basis*: their trees with their marks and, of two, the *uncommon* ancestors that each has and the
//! other lacks.
//!
//! The crates above rely on this: over every grown history that has the parents so, `make` answers exactly the
//! tree that the definitions of `mtn_replay` make of the edges, or the first refusal in the order of its table:
//! a change that fails, a path at which two trees cannot be joined, too many nodes, a path that is too long.
//! `within_limits` tells the last two of any tree, `walk_within_limits` with its walk. `mark` gives the tree the marks of the whole history with the new revision.
//!
//! No call relies on the history: what a history never has is `Damaged`.
//!
//! Cost: `make` applies each edge, joins two trees and walks once over what is made; `mark` walks once more.
#![tactic(auto)]

mod basis;
mod contents;
mod edges;
mod error;
mod limits;
mod making;
mod marked;

pub use basis::{Basis, Uncommon};
pub use contents::new_content;
pub use error::MakeError;
pub use limits::{walk_within_limits, within_limits};
pub use making::{WalkedTree, make};
pub use marked::mark;
