// What a merge comes to, with its id and its tree.
use mtn_base::{Bytes, Id};
use mtn_conflicts::Conflicts;
use mtn_roster::Roster;

/// What a merge comes to: the text of the merged revision, or its conflicts, the lesser id left. The id is the text's. The tree
/// is the one that the text makes, for a caller that puts it; there is none only where a revision with that id is held already.
#[derive(Drop)]
pub enum Planned {
    Merged {
        text: Bytes,
        id: Id,
        tree: Option<Roster>,
    },
    Conflicted {
        left: Id,
        right: Id,
        conflicts: Conflicts,
    },
}
