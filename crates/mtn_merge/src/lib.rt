//! Planning a merge of two revisions over a draft: its text, its conflicts, or why it is refused.
//!
//! A merge has two *sides*, of which the one with the lesser id is left. What the history decides of them is
//! overridden by resolutions. Where conflicts are left, they are the answer; otherwise the live nodes make a
//! tree, over an id that is no birth on either side, and the text of the merge has the canonical changesets
//! from both sides to it.
//!
//! The crate above relies on this: [`plan`], [`plan_with`] and [`look`] answer exactly what the definitions of `mtn_plans` say
//! over the history that a draft stands on, and leave the draft's state. With a text comes its id, and the tree that it makes:
//! of each text that is new to the history. No body relies on the history: what a history never has is answered as damage of a
//! record. The first and the last step of a plan stand alone as well: [`sides_of`] finds the sides and what is decided of them, and
//! [`revision_text`] spells a tree over its two parents.
//!
//! Cost: each side's roster is read once, what both their chains share but once, and the draft remembers them; one walk between the sides; linear in
//! both trees. The manifest is printed and hashed once, and so is the text. The resulting tree is built once; where a node is
//! reborn its births are the text's own id, so that it is built again under that id from the same decisions.
#![tactic(auto)]

mod answer;
mod births;
mod dirs;
mod given;
mod made;
mod planning;
mod sides;
mod text;

pub use answer::Planned;
pub use births::unborn;
pub use mtn_plans::MergeOutcome;
pub use planning::{look, plan, plan_with};
pub use sides::{Compared, Side, sides_of};
pub use text::{Parent, revision_text};
