//! Laws of marked trees, over the definitions alone.
ghost use Rattle.std.specs.Prelude.{◌↔◌, ◌<◌, ◌++◌, ◌∷◌, [], ℕ, List, length, Option, IsSome};
ghost use Rattle.mtn_base.specs.declared.name.NodeName.{NodeName};
ghost use Rattle.mtn_history_laws.specs.History.{Revision, IsGrown};
ghost use Rattle.mtn_history_laws.specs.Scalars.{Scalar, value_in};
ghost use Rattle.mtn_roster.specs.Tree.{Tree, entry_of};
ghost use Rattle.mtn_marking.specs.Graph.{AreMarksOf, IsMarkedAt};
ghost use Rattle.mtn_marking.specs.Marking.{Marks, MarkedTree, AreFor, marking_of, marks_in};

/// Marks that are for a tree are those of exactly its nodes and their scalars.
pub fn marks_are_exact()
    ensures nodes { (t : Tree) (ms : Marks) → AreFor t ms → (n : NodeName) → IsSome (entry_of t n) ↔ IsSome (marking_of ms n) }
    ensures scalars { (t : Tree) (ms : Marks) → AreFor t ms → (s : Scalar) → IsSome (value_in t s) ↔ IsSome (marks_in ms s) }
{}

/// The marks of a revision stay as the history grows.
pub fn marks_stay()
    ensures scalar { (log : List Revision) (next : Revision) (r : ℕ) (s : Scalar) (marks : Option (List ℕ)) →
        IsGrown (log ++ next ∷ []) → r < length log → AreMarksOf log r s marks → AreMarksOf (log ++ next ∷ []) r s marks }
    ensures tree { (log : List Revision) (next : Revision) (r : ℕ) (t : MarkedTree) →
        IsGrown (log ++ next ∷ []) → r < length log → IsMarkedAt log r t → IsMarkedAt (log ++ next ∷ []) r t }
{}
