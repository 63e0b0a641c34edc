// Queries of the graph, and the lines of the whole graph.
use mtn_base::{Id, List};

/// A question about the graph.
#[derive(Drop)]
pub enum Query {
    /// The parents of a revision.
    Parents { of: Id },
    /// The revisions that have it as a parent.
    Children { of: Id },
    /// The proper ancestors of at least one of these.
    Ancestors { of: List<Id> },
    /// The proper descendents of at least one of these.
    Descendents { of: List<Id> },
    /// The ancestors of this one and of each of the others, which may be among these themselves.
    CommonAncestors { of: Id, others: List<Id> },
    /// Those of these that are proper ancestors of no other.
    EraseAncestors { of: List<Id> },
    /// These in log order.
    Toposort { of: List<Id> },
    /// This one and its ancestors, without these and theirs, in log order.
    AncestryDifference { of: Id, without: List<Id> },
    /// The revisions without children.
    Leaves,
    /// The revisions without parents.
    Roots,
}

/// A revision and its parents.
#[derive(Drop)]
pub struct Line {
    pub id: Id,
    pub parents: List<Id>,
}
