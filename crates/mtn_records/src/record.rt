// Whole records of tables 4 and 5.
use crate::entry::Numbered;
use mtn_ancestry::{ParentList, Pos};
use mtn_base::{Id, List};

/// The body of a roster's record: all its entries, or what differs from the roster of `base`. A delta stands `depth`
/// records above a whole one; `gone` are the numbers, ascending, of the base's entries that are no more, and `changed`
/// the entries that are new or differ.
#[derive(Drop)]
pub enum RosterRecord {
    Whole(Numbered),
    Delta {
        base: Pos,
        depth: u8,
        gone: List<u64>,
        changed: Numbered,
    },
}

/// The body of a log's record: the revision, the least node number not given after it, and the positions of its
/// parents in the order of its edges.
#[derive(Drop)]
pub struct LogRecord {
    pub id: Id,
    pub next_node: u64,
    pub parents: ParentList,
}
