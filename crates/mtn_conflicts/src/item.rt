// What stands in a list of conflicts.
use mtn_base::{Bytes, Id, NodeName};
use mtn_roster::Slot;

/// What a side has of a scalar.
#[derive(Drop)]
pub enum Side {
    Nothing,
    At(Slot),
    Content(Id),
    Attr(Option<Bytes>),
}

/// A node in a list of conflicts, with the key of an attribute and what both sides have. A decided slot
/// stands in `left`.
#[derive(Drop)]
pub struct Item {
    pub node: NodeName,
    pub key: Bytes,
    pub left: Side,
    pub right: Side,
}
