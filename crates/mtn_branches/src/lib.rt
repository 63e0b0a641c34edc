//! Branches: their members, their heads, and which there are.
//!
//! A revision is a *member* of a branch where some certificate of the set says so: one named `branch` whose value is the branch,
//! whatever its key and signature. A *head* is a member that is a proper ancestor of no member. The path between two members may
//! go through revisions that are none: a head is told by the ancestors of the whole graph (`specs/Branches.antt`).
//!
//! The crates above rely on this: each call answers exactly these, each once, in the order of their bytes. Certificates are a
//! set and revisions stand by their ids, so no answer depends on the order in which either was kept. A branch that has a member
//! has a head, and no head is an ancestor of another.
//!
//! Cost: each call looks at each certificate once; [`heads`] sweeps over the graph once more, whatever the number of members.
#![tactic(auto)]

mod laws;
mod naming;
mod sweep;
mod values;

pub use laws::{apart, has_member, one_answer, one_set, some_head};
pub use naming::members;
pub use sweep::heads;
pub use values::branches;
