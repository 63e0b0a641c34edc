// What a merge comes to.
use mtn_base::{Bytes, Id};
use mtn_conflicts::Conflicts;

/// What a merge that is not refused comes to.
#[derive(Drop)]
pub enum MergeOutcome {
    /// The text of the merged revision.
    Merged {
        text: Bytes,
    },
    /// The conflicts of its sides.
    Conflicted {
        left: Id,
        right: Id,
        conflicts: Conflicts,
    },
}
