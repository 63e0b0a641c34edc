//! The trees of two edges joined to one.
//!
//! Two trees can be joined if they have the same paths, and at each path two nodes that agree: both are added
//! by the revision, or one is, or they are the same old node; of one kind and content, with the same live
//! attributes. An old node that one side lost is not *revived* by the other.
//!
//! The crates above rely on this: `join` answers exactly the tree that the definitions of `mtn_changeset_laws` make of
//! two trees, or the least path at which they cannot be joined.
//!
//! Cost: one walk over each tree, and the building of the joined one.
#![tactic(auto)]

mod agreement;
mod attrs;
mod joining;
mod known;
mod pair;
mod two_edges;

pub use known::common_are_known;
pub use two_edges::{JoinError, join};
