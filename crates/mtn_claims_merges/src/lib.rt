//! Public calls of the crates of merges under their own contracts, for the wrong bodies of must-fail/.
#![tactic(auto)]

mod canonical;
mod conflicts;
mod decide;
mod resolve;

pub use canonical::changes_of;
pub use conflicts::{find, made, none, written};
pub use decide::{choose, decided, living};
pub use resolve::{resolutions, resolved};
