//! The conflicts of a merge, and its result where there is none.
//!
//! A node's *decided parent* is the one of its decided slot; a node whose slot clashes has none. The conflicts
//! are nine lists, each a filter over all decisions: no live node has the root slot, nodes named `_MTN` below
//! it, nodes whose chains of decided parents return to them, nodes whose parents do not live, nodes whose slots
//! clash, nodes with a slot that another has, attributes and contents that clash, and pending files.
//!
//! The crates above rely on this: `conflicts` gives exactly these lists. Where none has an item, the live nodes
//! with their decided scalars are a sane tree, in which a reborn node is named by the new revision and its
//! path, and `result` gives it, or `under_old_names` and `under_new_names` one after the other. `laws` says so over the definitions alone, and that what is decided of a grown
//! history meets what `result` asks.
//!
//! Cost: a search by halves for each parent, one sort by slot, and as many rounds over all nodes as the
//! number of nodes has binary digits.
#![tactic(auto)]

mod all;
mod find;
mod flagged;
mod item;
mod kind;
pub mod laws;
mod lines;
mod lists;
mod loops;
mod make;
mod merged;
mod place;
mod text;
mod twins;

pub use all::conflicts;
pub use item::{Item, Side};
pub use lists::Conflicts;
pub use merged::{is_some_reborn, result, under_new_names, under_old_names};
pub use text::write;
