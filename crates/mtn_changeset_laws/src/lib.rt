//! What changesets make of trees, and when the trees of two edges agree: definitions, and their laws.
//!
//! A changeset speaks of whole trees: each path of the new tree is asked for its *occupant*, an old node or
//! one that a change adds. A change *fails* for the first reason of a table; a changeset without a fault makes
//! a sane tree of a sane one. Two trees are *joined* path by path where they agree at each path and no node
//! that one side added is *revived*: old, and known to the side that added it.
//!
//! The crates above rely on this: the functions of `laws` are empty bodies whose contracts hold over the
//! definitions alone: what is made is sane and stands where the rules put it, and it is a step of a grown
//! history. `worked` has worked cases, each by computation. Nothing here runs.
#![tactic(auto)]

pub mod laws;
pub mod worked;
