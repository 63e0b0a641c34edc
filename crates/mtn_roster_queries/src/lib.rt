//! Questions about one revision: its manifest, its roster with the marks, the marks of a file's content, and
//! where a node stands in another revision.
//!
//! Each call asks a draft for rosters and answers a text, or a refusal: UnknownRevision with the first id
//! that the log does not have, before any other.
//!
//! The crate above relies on this: an answer is that of the history which the draft's log spells, and the
//! marks in it are those of the whole history (`specs/Views.antt` of `mtn_answers`); a damage is one of the records that the
//! draft stands on. Cost: the rosters, at most sixteen records each, and one record for each mark that is
//! printed.
#![tactic(auto)]

mod content;
mod corresponding;
mod manifest;
mod roster;

pub use content::get_content_changed;
pub use corresponding::get_corresponding_path;
pub use manifest::get_manifest_of;
pub use roster::get_roster;
