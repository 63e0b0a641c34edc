//! Records of trees in chains: what a chain gives, what to write behind it, and the numbers of nodes.
//!
//! A tree's record has all its entries, or what differs from another's: a *delta*. A *chain* is a whole record and then
//! deltas, each on what those before it give. The entries of a tree with marks stand by ascending *numbers*; each names its
//! parent by its number, and 0 stands for the root slot. Entries *spell* a marked tree where it has their nodes with their
//! marks, no others, and is sane.
//!
//! The crates above rely on this: [`rebuild`] answers the entries at the chain's end and the marked tree that they spell, and
//! is `Bad` exactly where there is none, as is [`marked_tree`] of entries that are lent; [`marks_on`] tells whether entries spell a
//! tree that is there, and gives their marks; a chain with [`delta`]'s record behind it gives the new entries; what [`number`] gives spells the marked tree that it was given, whatever lists it was given: where two
//! nodes would get one number it is a `Clash`. Where the known numbers are from 1 and below the next, one for each node, there is
//! no clash, known nodes keep their numbers, and new ones get the next. A [`NumberedRoster`] has the numbers beside the tree, and
//! makes the entries where they are asked for.
//!
//! Cost: rebuilding is one merge for each delta and one build of the tree; a delta is one walk over two lists; numbering is a
//! look-up by name for each known entry, one walk, one sort of numbers and one look along them.
#![tactic(auto)]

mod beside;
mod chain;
mod difference;
mod error;
pub mod laws;
mod merge;
mod noting;
mod numbering;
mod on_tree;
mod order;
mod rebuilding;
mod same;
mod sorted;
mod spell;
mod spelled;

pub use beside::NumberedRoster;
pub use chain::DEEPEST;
pub use difference::delta;
pub use error::NumberError;
pub use numbering::number;
pub use on_tree::marks_on;
pub use rebuilding::{entries_of, marked_tree, rebuild, rebuild_on};
