//! Accepting into a store: a keeper together with records that wait for it stands for a state.
//!
//! A *draft* is a keeper with *pending* records; its state is what both together stand for. Each call on
//! a draft does to that state what its command does, and any error leaves the state as it was. Nothing
//! reaches the keeper before `finish`, which puts all pending records or none.
//!
//! The crate above relies on this: `Pending::open` finds the state that told records stand for, each
//! call answers exactly by it, `finish` makes the keeper stand for the draft's state, a fault is
//! answered only where the keeper's count of faults rose, and damage only where the records stand for
//! no state. A call costs a look-up in the pending records and one in the keeper.
#![tactic(auto)]

mod cache;
mod chains;
mod damaged;
mod draft;
mod errors;
mod files;
mod logs;
mod marked;
mod meeting;
mod memory;
mod meta;
mod parents;
mod pending;
mod places;
mod rebuilt;
mod rosters;
mod tables;
mod texts;

pub use draft::{Draft, just_below};
pub use errors::{Damage, HistoryError, StoreError};
pub use marked::{BothRosters, SharedRoster};
pub use memory::Memory;
pub use meta::Meta;
pub use pending::Pending;
pub use rebuilt::Rebuilt;
pub use tables::{CERTS, FILES, KEYS, LOG, META, ROSTERS, TEXTS};
