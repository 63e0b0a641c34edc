//! Laws of merges, over the definitions alone: no code of a merge is called.
ghost use Rattle.std.specs.Prelude.{◌≡◌, ◌↔◌, ◌⊎◌, ℕ, List, Some};
ghost use Rattle.mtn_base.specs.declared.name.NodeName.{NodeName};
ghost use Rattle.mtn_history_laws.specs.History.{Revision, IsGrown, parents_at};
ghost use Rattle.mtn_history_laws.specs.Scalars.{Scalar, Value, value_at, WinsAt};
ghost use Rattle.mtn_history_laws.specs.Scalars.Scalar.{SlotOf};
ghost use Rattle.mtn_history_laws.specs.Scalars.Value.{SlotValue};
ghost use Rattle.mtn_mark_laws.specs.Rule.{AllKnown, AreUncommon};
ghost use Rattle.mtn_marking.specs.Graph.{AreMarksOf, IsMarkedAt};
ghost use Rattle.mtn_marking.specs.Marking.{MarkedTree};
ghost use Rattle.mtn_roster.specs.declared.entry.Slot.{Slot};
ghost use Rattle.mtn_decide.specs.Decisions.{Merge, IsInOrder};
ghost use Rattle.mtn_decide.specs.Graph.{IsMergeOf};
ghost use Rattle.mtn_decide.specs.Sets.{IsMergeBySets};
ghost use Rattle.mtn_decide.specs.Verdicts.{verdict_in};
ghost use Rattle.mtn_decide.specs.Verdicts.Verdict.{Settled};

/// The test: all marks of b are among the ancestors of a exactly where a wins over b; so what the sets decide
/// is what the graph decides.
pub fn the_test()
    ensures marks { (log : List Revision) → IsGrown log → (s : Scalar) (a b : ℕ) (v : Value) (marks only : List ℕ) → value_at log s b ≡ Some v →
        AreMarksOf log b s (Some marks) → AreUncommon (parents_at log) b a only → AllKnown marks only ↔ WinsAt log s a b }
    ensures merge { (log : List Revision) → IsGrown log → (a b : ℕ) (left right : MarkedTree) (only_left only_right : List ℕ) →
        IsMarkedAt log a left → IsMarkedAt log b right → AreUncommon (parents_at log) a b only_left → AreUncommon (parents_at log) b a only_right →
        (m : Merge) → IsMergeBySets left right only_left only_right m → IsMergeOf log a b m }
{}

/// One winner: two that win a scalar over each other have one value of it. So in no history do the mark sets of both sides let
/// both win with unlike values.
pub fn one_winner()
    ensures graph { (log : List Revision) → IsGrown log → (s : Scalar) (a b : ℕ) (v w : Value) →
        value_at log s a ≡ Some v → value_at log s b ≡ Some w → WinsAt log s a b → WinsAt log s b a → v ≡ w }
    ensures sets { (log : List Revision) → IsGrown log → (s : Scalar) (a b : ℕ) (v w : Value) (left right only_left only_right : List ℕ) →
        value_at log s a ≡ Some v → value_at log s b ≡ Some w → AreMarksOf log a s (Some left) → AreMarksOf log b s (Some right) →
        AreUncommon (parents_at log) a b only_left → AreUncommon (parents_at log) b a only_right →
        AllKnown right only_right → AllKnown left only_left → v ≡ w }
{}

/// Two at a slot: at most two live nodes have one decided slot.
pub fn two_at_a_slot()
    ensures { (log : List Revision) → IsGrown log → (a b : ℕ) (m : Merge) → IsMergeOf log a b m → (x y z : NodeName) (slot : Slot) →
        verdict_in m (SlotOf x) ≡ Some (Settled (SlotValue slot)) → verdict_in m (SlotOf y) ≡ Some (Settled (SlotValue slot)) →
        verdict_in m (SlotOf z) ≡ Some (Settled (SlotValue slot)) → (x ≡ y) ⊎ ((x ≡ z) ⊎ (y ≡ z)) }
{}
