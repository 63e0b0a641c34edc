// The marks of a new revision's tree.
ghost use Rattle.std.specs.Prelude.{◌≡◌, ◌++◌, ◌∷◌, [], List as Seq, None, length, IfOk};
ghost use Rattle.mtn_base.specs.declared.id.Id.{Id};
ghost use Rattle.mtn_changes.specs.declared.change.Edge.{Edge};
ghost use Rattle.mtn_changes.specs.RevisionText.{AreEdges};
ghost use Rattle.mtn_history_laws.specs.History.{Revision};
ghost use Rattle.mtn_replay.specs.Making.{made, made_tree};
ghost use Rattle.mtn_marking.specs.Graph.{IsMarkedAt};
ghost use Rattle.mtn_marking.specs.Marking.{AreFor};
ghost use Rattle.mtn_make_roster.specs.Basis.{Underlies, made_refusal};

use crate::Basis;
use mtn_ancestry::Pos;
use mtn_base::NoMemory;
use mtn_marking::{MarkMap, MarkedRoster, mark_one, mark_root, mark_two};
use mtn_roster::Roster;
use std::alloc::Global;

/// The marks alone.
fn marks_of(alloc: Global, roster: &Roster, basis: &Basis, at: Pos) -> Result<MarkMap, NoMemory>
    ensures fits { IfOk result (AreFor roster.now) }
    ensures marks { IfOk result (λ marks. (h : Seq Revision) (edges : Seq Edge) (new : Id) → Underlies h edges basis.now new → AreEdges edges →
        made_refusal h new edges ≡ None → roster.now ≡ made_tree h new edges → at ≡ length h →
        IsMarkedAt (h ++ made h new edges ∷ []) at (record { tree = roster.now; marks = marks })) }
{
    match basis {
        Basis::Root => mark_root(alloc, roster, at),
        Basis::One(parent) => mark_one(alloc, parent, roster, at),
        Basis::Two {
            left,
            right,
            only_left,
            only_right,
        } => mark_two(
            alloc,
            left,
            right,
            roster,
            at,
            &only_left.positions,
            &only_right.positions,
        ),
    }
}

/// The tree that [`make`](crate::make) gave, with the marks of the whole history and the new revision, which
/// stands at `at`. It costs one walk, with a search by halves in each parent for each node.
pub fn mark(alloc: Global, roster: Roster, basis: &Basis, at: Pos) -> Result<MarkedRoster, NoMemory>
    ensures tree { IfOk result (λ t. t.tree ≡ roster) }
    ensures marks { IfOk result (λ t. (h : Seq Revision) (edges : Seq Edge) (new : Id) → Underlies h edges basis.now new → AreEdges edges →
        made_refusal h new edges ≡ None → roster ≡ made_tree h new edges → at ≡ length h →
        IsMarkedAt (h ++ made h new edges ∷ []) (length h) t) }
{
    let marks = marks_of(alloc, &roster, basis, at)?;
    Ok(MarkedRoster::new(roster, marks))
}
