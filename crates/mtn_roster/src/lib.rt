//! Trees of named nodes that are always sane.
//!
//! A node's name is the revision in which it was born and its path there. A tree gives each of its
//! nodes an entry: a slot (the root slot, or a parent with a component), a body (a directory, or a file
//! with its content) and attributes. It is sane if one node has the root slot and is a directory, every
//! other node's parent is a directory of the tree, no two nodes have the same slot, every chain of
//! parents ends at the root, and no node below the root is named `_MTN`.
//!
//! The crates above rely on this: a `Roster` is seen as the list of its entries by ascending name, and
//! that list is a sane tree; look-ups, paths and the walk are what the list says.
//!
//! Cost: `build` sorts once by name and once by slot, and visits each node twice to tell that all chains
//! end; a look-up is a binary search for each component; a walk visits each node once. An entry takes 16
//! bytes more than it has itself, and no name is kept twice; only while `build` sorts entries whose first
//! half does not ascend, their names are there once more.
#![tactic(auto)]

pub mod attrs;
mod build;
mod child;
mod entry;
mod families;
mod index;
mod keys;
pub mod laws;
mod roster;
mod sane;
mod walk;

pub use build::BuildError;
pub use entry::{Attr, Body, Entry, Slot};
pub use roster::Roster;
pub use walk::Stop;
