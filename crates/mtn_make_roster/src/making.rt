// The tree of a new revision.
ghost use Rattle.std.specs.Prelude.{◌≡◌, List as Seq, None, IfOk, IfErr, OnOk};
ghost use Rattle.mtn_changes.specs.RevisionText.{AreEdges};
ghost use Rattle.mtn_history_laws.specs.History.{Revision};
ghost use Rattle.mtn_replay.specs.Making.{made_tree};
ghost use Rattle.mtn_roster.specs.Walk.{AreStops};
ghost use Rattle.mtn_make_roster.specs.Basis.{Underlies, IsCauseOf, edges_refusal, made_refusal};

use crate::edges::{edge_tree, joined_tree};
use crate::limits::walk_within_limits;
use crate::{Basis, MakeError};
use mtn_base::Id;
use mtn_changes::Edge;
use mtn_roster::{Roster, Stop};
use std::alloc::Global;

/// The tree of the edges, whatever it has.
fn tree_of_edges(alloc: Global, edges: &[Edge], basis: &Basis, new: Id) -> Result<Roster, MakeError>
    requires { AreEdges edges.now }
    ensures tree { IfOk result (λ roster. (h : Seq Revision) → Underlies h edges.now basis.now new → roster ≡ made_tree h new edges.now) }
    ensures fine { OnOk result ((h : Seq Revision) → Underlies h edges.now basis.now new → edges_refusal h new edges.now ≡ None) }
    ensures err { IfErr result (λ e. (h : Seq Revision) → Underlies h edges.now basis.now new → IsCauseOf (edges_refusal h new edges.now) e) }
{
    match basis {
        Basis::Root => match edges {
            [edge] => edge_tree(alloc, 1, None, edge, new),
            _ => Err(MakeError::Damaged),
        },
        Basis::One(parent) => match edges {
            [edge] => edge_tree(alloc, 1, Some(parent.roster()), edge, new),
            _ => Err(MakeError::Damaged),
        },
        Basis::Two {
            left,
            right,
            only_left,
            only_right,
        } => match edges {
            [first, second] => {
                let left = edge_tree(alloc, 1, Some(left.roster()), first, new)?;
                let right = edge_tree(alloc, 2, Some(right.roster()), second, new)?;
                joined_tree(alloc, left, right, new, only_left, only_right)
            }
            _ => Err(MakeError::Damaged),
        },
    }
}

/// A tree and the walk over it, for what is made along it.
#[derive(Drop)]
pub struct WalkedTree {
    pub tree: Roster,
    pub stops: Vec<Stop>,
}

/// The tree that the edges of a revision make, within its limits, with its walk, or the first refusal. `new` is the
/// revision's id. It costs the applying of each edge, the joining of two trees, and one walk.
pub fn make(alloc: Global, edges: &[Edge], basis: &Basis, new: Id) -> Result<WalkedTree, MakeError>
    requires { AreEdges edges.now }
    ensures walk { IfOk result (λ made. AreStops made.tree made.stops.items) }
    ensures tree { IfOk result (λ made. (h : Seq Revision) → Underlies h edges.now basis.now new → made.tree ≡ made_tree h new edges.now) }
    ensures fine { OnOk result ((h : Seq Revision) → Underlies h edges.now basis.now new → made_refusal h new edges.now ≡ None) }
    ensures err { IfErr result (λ e. (h : Seq Revision) → Underlies h edges.now basis.now new → IsCauseOf (made_refusal h new edges.now) e) }
{
    let tree = tree_of_edges(alloc, edges, basis, new)?;
    let stops = walk_within_limits(alloc, &tree)?;
    Ok(WalkedTree { tree, stops })
}
