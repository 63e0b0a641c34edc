// What a merge decides of a node.
use mtn_base::{Bytes, Id, List, NodeName};
use mtn_roster::{Entry, Slot};

/// A slot, or two that clash.
#[derive(Drop)]
pub enum SlotChoice {
    Fixed(Slot),
    Clash { left: Slot, right: Slot },
}

/// The content of a file, or two that clash; a directory has none.
#[derive(Clone, Copy)]
pub enum ContentChoice {
    Absent,
    Fixed(Id),
    Clash { left: Id, right: Id },
}

/// The value of an attribute, or two that clash; `None` is cleared.
#[derive(Drop)]
pub enum AttrChoice {
    Fixed(Option<Bytes>),
    Clash {
        left: Option<Bytes>,
        right: Option<Bytes>,
    },
}

/// What is decided of an attribute.
#[derive(Drop)]
pub struct AttrDecision {
    pub key: Bytes,
    pub choice: AttrChoice,
}

/// What is decided of a live node. One that is reborn has a new name in the merged revision.
#[derive(Drop)]
pub struct Decision {
    pub name: NodeName,
    pub is_dir: bool,
    pub slot: SlotChoice,
    pub content: ContentChoice,
    pub attrs: List<AttrDecision>,
    pub reborn: bool,
}

/// A file that one side dropped and the other changed, as the side has it that has it.
#[derive(Drop)]
pub struct Pending {
    pub entry: Entry,
    pub from_left: bool,
}
