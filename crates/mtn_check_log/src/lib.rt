//! The walk along the log of a check: position by position, whether the records there are those that its text asks for.
//!
//! A position is checked by accepting its text once more. [`walk_log`] stands over the keeper as it was before the position: it
//! shows of it the records of the revisions below, and all files, and nothing else, whatever is held there. Over these the text is
//! put as any other, and the records that it brings are compared with those that stand at the position, byte by byte. So no rule
//! of trees, marks, numbers or deltas is written here.
//!
//! The crate above relies on this: `Ok` says that the records of each position are right, over the front that those below it
//! spell; a damage is the first of the first position that has one; and the keeper is only asked.
//!
//! From position to position a draft's memory is handed on: what is remembered of the records that a text brings is true of those
//! that stand there, where they are the same. So the rosters of parents are seldom read along their chains.
//!
//! Cost: for each position what accepting its text costs in a store whose last few rosters are remembered; the memory of these, of
//! one position, and of the log records that the merges of the last 256 positions asked for.
#![tactic(auto)]

mod again;
mod below;
mod checked;
mod damaged;
mod due;
mod entry;
mod position;
mod shown;
mod walk;

pub use below::{Behind, Below, Lent};
pub use checked::check_position;
pub use damaged::{bad, undamaged};
pub use entry::{Entry, entry_at, record_of, text_in};
pub use shown::get_shown;
pub use walk::{walk_from, walk_log};
