//! The commands over a draft of a store, each by its line of the step.
//!
//! A command is done over a *draft* (`mtn_history`): its function answers a text, or, where it may find conflicts, a reply, and has
//! the one clause `Drafts` or `Replies` that all have (`specs/Drafts.antt`): over records that stand for a state the answer is the
//! outcome that its line of `Steps` (`mtn_step`) has there, and what is pending then stands for the state after it; an error comes
//! from its cause. Nothing reaches the keeper here.
//!
//! The crate above relies on this: [`perform::perform`] does any command. One joins by its function and its arm.
#![tactic(auto)]

pub mod ask;
pub mod cert;
pub mod certs;
pub mod error;
pub mod generate;
pub mod get_content_changed;
pub mod get_corresponding_path;
pub mod get_file;
pub mod get_manifest_of;
pub mod get_revision;
pub mod get_roster;
pub mod heads;
pub mod key;
pub mod merge;
pub mod merge_heads;
mod on_draft;
pub mod packets;
pub mod perform;
pub mod put_file;
pub mod put_revision;
mod put_text;
pub mod read;
mod said;
pub mod show_conflicts;
