//! The marks of a tree's scalars, from those of its parents.
//!
//! Each *scalar* of a revision (the slot of a node, the content of a file, an attribute, live or cleared) has
//! a set of *marks*: the positions of the events that its value comes from. The local rule makes them for a
//! new revision from the marks of its parents and the ancestors that each parent has and the other lacks. A
//! *marking* has the marks of a node's scalars and the position of its birth.
//!
//! The crates above rely on this: `mark_root`, `mark_one` and `mark_two` give exactly the marks of the rule,
//! for any trees, markings and sets; and where those of the parents are the marks of a grown history, what
//! comes out are the marks of the whole history with the new revision, and the positions of all births.
//!
//! Cost: one walk over the new tree with a search by halves in each parent for each node. A set that is a
//! parent's is shared, and so is the set of the new position alone.
#![tactic(auto)]

mod against;
mod entry;
mod fits;
mod known;
pub mod laws;
mod map;
mod mark;
mod marked;
mod node;
mod sets;
mod side;

pub use map::MarkMap;
pub use mark::{mark_one, mark_root, mark_two};
pub use marked::MarkedRoster;
pub use node::{AttrMarks, Marking, NodeMarks};
