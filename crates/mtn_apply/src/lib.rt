//! The trees that revisions make: a changeset applied to a tree.
//!
//! An *edge* is an old tree with the changes from it. The paths that changes delete or move are paths of the
//! old tree, all other paths are of the new one. What stands at a path of the new tree is its *occupant*: what
//! the first change with that *target* puts there, and else, *targets aside*, the kept child of that name of
//! what stands above.
//!
//! The crates above rely on this: `apply` answers exactly the tree that the definitions of `mtn_changeset_laws` make of
//! an edge, or the first change that fails, with its first reason.
//!
//! Cost: `apply` copies the old tree and builds the new one; beyond that it looks up, for each change, each
//! component of its paths, and puts the attributes of each node that changes edit into an ordered map.
#![tactic(auto)]

mod after;
mod applying;
mod born;
mod draft;
mod edits;
mod fault;
mod gather;
mod index;
mod names;
mod occupant;
mod old;
mod places;
mod spare;
mod target;
mod why;

pub use applying::{ApplyError, apply};
pub use born::none_is_born;
