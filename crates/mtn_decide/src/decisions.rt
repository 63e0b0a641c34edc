// The decisions of a merge.
ghost use Rattle.std.specs.Prelude.{◌≡◌};
ghost use Rattle.mtn_decide.specs.Decisions.{IsInOrder};

use crate::decision::{Decision, Pending};
use std::marker::Model;

/// The decisions of a merge: those of the live nodes and the pending files, each by ascending names. Keys
/// ascend within a node, exactly directories have no content, and no pending file lives.
#[derive(Drop)]
pub struct Decisions {
    nodes: Vec<Decision>,
    pending: Vec<Pending>,
}

impl Model for Decisions {
    ghost use Rattle.mtn_decide.specs.Decisions.{Merge, IsInOrder};

    ghost Value = { Merge };

    ghost view = { λ d. record { nodes = d.nodes.items; pending = d.pending.items } };

    ghost invariant = { λ d. IsInOrder (record { nodes = d.nodes.items; pending = d.pending.items }) };
}

impl Decisions {
    /// The decisions of two lists that are in order. It takes no memory.
    pub fn new(nodes: Vec<Decision>, pending: Vec<Pending>) -> Decisions
        requires { IsInOrder (record { nodes = nodes.items; pending = pending.items }) }
        ensures { result ≡ record { nodes = nodes.items; pending = pending.items } }
    {
        Decisions { nodes, pending }
    }

    /// What is decided of the live nodes, by ascending names. It takes no memory.
    pub fn nodes(&self) -> &[Decision]
        ensures nodes { result.now ≡ self.now.nodes }
        ensures order { IsInOrder self.now }
    {
        &self.nodes
    }

    /// The pending files, by ascending names. It takes no memory.
    pub fn pending(&self) -> &[Pending]
        ensures { result.now ≡ self.now.pending }
    {
        &self.pending
    }
}
