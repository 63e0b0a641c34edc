//! Decisions.
ghost use Rattle.std.specs.Prelude.{◌≡◌};
ghost use Rattle.mtn_decide.specs.Decisions.{IsInOrder};

use mtn_decide::{Decision, Decisions, Pending};

/// As `Decisions::new`.
pub fn new_decisions(nodes: Vec<Decision>, pending: Vec<Pending>) -> Decisions
    requires { IsInOrder (record { nodes = nodes.items; pending = pending.items }) }
    ensures { result ≡ record { nodes = nodes.items; pending = pending.items } }
{
    Decisions::new(nodes, pending)
}

/// As `Decisions::nodes`.
pub fn nodes(decisions: &Decisions) -> &[Decision]
    ensures nodes { result.now ≡ decisions.now.nodes }
    ensures order { IsInOrder decisions.now }
{
    decisions.nodes()
}

/// As `Decisions::pending`.
pub fn pending(decisions: &Decisions) -> &[Pending]
    ensures { result.now ≡ decisions.now.pending }
{
    decisions.pending()
}
