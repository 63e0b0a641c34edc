//! A revision and its ancestors, as the packets of a draft.
//!
//! The crate above relies on this: [`export`] answers the text of exactly the packets that the state sends (`mtn_exports`), or
//! refuses the first revision that its history does not have. Damage is answered only where the draft's records stand for no
//! state.
//!
//! Cost: the log is read once for the graph; each revision that is sent is read once, as is each file, and each certificate.
//! The text is written once, behind what was written of it before.
#![tactic(auto)]

mod brought;
mod exporting;
mod files;
mod said;
mod sending;
mod texts;

pub use exporting::export;
