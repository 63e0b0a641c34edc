//! The values that every crate above speaks of: ids, paths, node names, and what a command refuses.
//!
//! A list in a field is a `List`, bytes are `Bytes`; contracts see both as lists. What takes memory
//! answers `NoMemory`, the one answer that no contract ties to a cause; it leaves what was handed in
//! as its contract says.
//!
//! The crates above rely on this: ids, components and paths are read and printed exactly, compared by
//! their bytes, and a refusal prints exactly one line. Lists in the order of a key are `specs/Lists.antt`;
//! ids that are put in order are the same ids, ascending, each once, and two such lists with the same ids
//! are one (`proofs/IdOrder.antt`).
#![tactic(auto)]

mod id;
mod ids;
mod limits;
mod list;
mod name;
mod no_memory;
mod path;
mod pieces;
mod refusal;
mod refusal_line;
mod short_bytes;

pub use id::Id;
pub use ids::put_in_order;
pub use limits::{
    LAST_NUMBER, MAX_CHAIN, MAX_COMP, MAX_FIELD, MAX_INPUT, MAX_KEY, MAX_LOG, MAX_NODES, MAX_PATH,
    MAX_TEXT, room_in_log,
};
pub use list::{Bytes, List, Text};
pub use name::NodeName;
pub use no_memory::NoMemory;
pub use path::{Comp, Path, PathError};
pub use refusal::{Cause, Field, PacketWhy, Refusal, Why};
pub use short_bytes::ShortBytes;
