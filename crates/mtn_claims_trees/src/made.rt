//! What `mtn_make_roster` makes of a revision's edges.
ghost use Rattle.std.specs.Prelude.{◌≡◌, ◌++◌, ◌∷◌, [], List as Seq, None, length, IfOk, IfErr, OnOk};
ghost use Rattle.mtn_base.specs.declared.id.Id.{Id};
ghost use Rattle.mtn_changes.specs.RevisionText.{AreEdges};
ghost use Rattle.mtn_changes.specs.declared.change.Edge.{Edge};
ghost use Rattle.mtn_history_laws.specs.History.{Revision};
ghost use Rattle.mtn_make_roster.specs.Basis.{Underlies, IsCauseOf, made_refusal};
ghost use Rattle.mtn_marking.specs.Graph.{IsMarkedAt};
ghost use Rattle.mtn_replay.specs.Making.{made as made_of, made_tree, new_content as content_of};
ghost use Rattle.mtn_roster.specs.Walk.{AreStops};

use mtn_ancestry::Pos;
use mtn_base::{Id, NoMemory};
use mtn_changes::{Change, Edge};
use mtn_make_roster::{Basis, MakeError, WalkedTree, make, mark, new_content};
use mtn_marking::MarkedRoster;
use mtn_roster::Roster;
use std::alloc::Global;

/// `make`.
pub fn made(alloc: Global, edges: &[Edge], basis: &Basis, new: Id) -> Result<WalkedTree, MakeError>
    requires { AreEdges edges.now }
    ensures walk { IfOk result (λ made. AreStops made.tree made.stops.items) }
    ensures tree { IfOk result (λ made. (h : Seq Revision) → Underlies h edges.now basis.now new → made.tree ≡ made_tree h new edges.now) }
    ensures fine { OnOk result ((h : Seq Revision) → Underlies h edges.now basis.now new → made_refusal h new edges.now ≡ None) }
    ensures err { IfErr result (λ e. (h : Seq Revision) → Underlies h edges.now basis.now new → IsCauseOf (made_refusal h new edges.now) e) }
{
    make(alloc, edges, basis, new)
}

/// `mark`.
pub fn marked(
    alloc: Global,
    roster: Roster,
    basis: &Basis,
    at: Pos,
) -> Result<MarkedRoster, NoMemory>
    ensures tree { IfOk result (λ t. t.tree ≡ roster) }
    ensures marks { IfOk result (λ t. (h : Seq Revision) (edges : Seq Edge) (new : Id) → Underlies h edges basis.now new → AreEdges edges →
        made_refusal h new edges ≡ None → roster ≡ made_tree h new edges → at ≡ length h →
        IsMarkedAt (h ++ made_of h new edges ∷ []) (length h) t) }
{
    mark(alloc, roster, basis, at)
}

/// `new_content`.
pub fn content(change: &Change) -> Option<Id>
    ensures { result ≡ content_of change.now }
{
    new_content(change)
}
