//! A history that is generated from a number, into a draft.
//!
//! The revisions and their files are those of `mtn_generated`: each goes in by the call that its command makes, and the first
//! refusal ends all. Of the history only the two tips and the last id are kept here; a tip's tree is asked of the draft, which
//! remembers it.
//!
//! The crate above relies on this: over records that stand for a state, [`generate`] answers the summary of what `Generates` comes
//! to there, and the draft stands for the state with all revisions; or the refusal. After an error the draft has pending what it had
//! before. Damage is answered only where the draft's records stand for no state. No merge of a generated history has conflicts, by a
//! law: where one finds some, the records stand for no state, and the first of them is shown as damage.
//!
//! A revision whose own changes fail over its parent's tree makes no tree, so that no text can name one: it is refused with the
//! cause that `put_revision` gives for such changes. Want of memory is answered only where memory is wanting.
//!
//! Cost: a revision with one edge makes its tree twice, once to name its manifest and once where it is accepted; a merge is planned
//! once. Trees have twelve nodes at most, so that the cost is linear in the number of revisions but for look-ups.
#![tactic(auto)]

mod add;
mod changes;
mod error;
mod files;
mod names;
mod put;
mod shown;
mod summary;
mod text;
mod tree;
mod whole;
mod work;

use error::GenerateError;
pub use whole::generate;
