//! Rosters at hand, and positions of the log that are read with them.
//!
//! A check that walks along the log asks of each position its records, and of its roster the entries. These are rebuilt from those
//! of its first parent, which are *at hand*: those of the last positions, and those of older revisions that no child was met of. So
//! hardly a record is asked for twice, and no chain is rebuilt whole, but where what is at hand has too many nodes together, or a
//! parent is older and has had a child: then it is asked for once more.
//!
//! The crates above rely on this: what [`load_stretch`] reads is right over the front of the records below each of its positions, where
//! the rosters at hand are (`specs/Hands.antt`); it reads no position at which a record is missing or bad, and the keeper is only
//! asked.
//!
//! Cost: of a position its three records, one question for each content that its text brings, and what merging its entries into its
//! parent's costs; where it has two parents, the records of the log between them.
#![tactic(auto)]

mod asked;
mod below;
mod contents;
mod hands;
mod kin;
mod read;
mod records;
mod stored;
mod stretch;

pub use hands::Hands;
pub use stretch::{Stretch, load_stretch};
