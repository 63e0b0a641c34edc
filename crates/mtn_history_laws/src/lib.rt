//! Histories of trees that grow, what keeps them so, and the marks of every scalar in them.
//!
//! A *history* is a list of revisions, oldest first, each with an id, the positions of its parents and a
//! sane tree. It is *grown* if no id stands twice, parents stand before their child, each node's birth is an
//! ancestor, and a node comes from a parent's tree or is born here, keeps its kind and its attribute keys,
//! and never comes back to a line of descent that lost it. A *step* is what acceptance shows of one more
//! revision. A *scalar* is the slot of a node, the content of a file, or an attribute, live or cleared.
//!
//! The crates above rely on this: the functions here are laws, empty bodies whose contracts hold over the
//! definitions alone. A step keeps a history grown, and in a grown history the local rule over the marks of
//! the parents gives the marks of the whole graph, for every scalar. Nothing here runs.
#![tactic(auto)]

ghost use Rattle.std.specs.Prelude.{◌≡◌, ◌<◌, ◌↔◌, ℕ, List, [], ◌∷◌, ◌++◌, length, Some, None, Contains};
ghost use Rattle.mtn_ancestry.specs.Ancestors.{IsAncestor};
ghost use Rattle.mtn_base.specs.declared.name.NodeName.{NodeName};
ghost use Rattle.mtn_mark_laws.specs.Rule.{IsMarkByRule, AreUncommon};
ghost use Rattle.mtn_roster.specs.declared.entry.Entry.{Entry};
ghost use Rattle.mtn_roster.specs.Tree.{entry_of};
ghost use Rattle.mtn_history_laws.specs.History.{Revision, parents_at, entry_at, IsPlaceOf, IsGrown, IsStep};
ghost use Rattle.mtn_history_laws.specs.Scalars.{Scalar, Value, value_at, IsEvent, IsMark, WinsAt, AreMarksAt, side_of};

/// The history without revisions is grown, and what acceptance shows of a revision keeps a history grown.
pub fn growth()
    ensures nothing { IsGrown [] }
    ensures step { (log : List Revision) (new : Revision) → IsGrown log → IsStep log new → IsGrown (log ++ new ∷ []) }
{}

/// A node that no parent has is born in the new revision; every other birth keeps its position.
pub fn births()
    ensures here { (log : List Revision) (new : Revision) → IsGrown (log ++ new ∷ []) → (n : NodeName) (e : Entry) → entry_of new.tree n ≡ Some e →
        ((p : ℕ) → Contains new.parents p → entry_at log p n ≡ None) → IsPlaceOf (log ++ new ∷ []) n.birth (length log) }
    ensures kept { (log : List Revision) (new : Revision) → IsGrown (log ++ new ∷ []) → (n : NodeName) (b : ℕ) → b < length log →
        IsPlaceOf log n.birth b → IsPlaceOf (log ++ new ∷ []) n.birth b }
{}

/// Coverage: where a scalar is there it has a mark, and each of its events is known to one of its marks.
pub fn coverage()
    ensures some { (log : List Revision) → IsGrown log → (s : Scalar) (r : ℕ) (v : Value) → value_at log s r ≡ Some v →
        (x : ℕ) × IsMark log s r x }
    ensures covered { (log : List Revision) → IsGrown log → (s : Scalar) (r m : ℕ) (v : Value) → value_at log s r ≡ Some v →
        IsAncestor (parents_at log) m r → IsEvent log s m →
        (x : ℕ) × IsMark log s r x × IsAncestor (parents_at log) m x }
{}

/// The test: the marks of b are all known to a exactly where a knows each event of b.
pub fn marks_tell()
    ensures { (log : List Revision) → IsGrown log → (s : Scalar) (a b : ℕ) (v : Value) → value_at log s b ≡ Some v →
        ((x : ℕ) → IsMark log s b x → IsAncestor (parents_at log) x a) ↔ WinsAt log s a b }
{}

/// One winner: two that know each other's events have one value.
pub fn one_winner()
    ensures { (log : List Revision) → IsGrown log → (s : Scalar) (a b : ℕ) (v w : Value) →
        value_at log s a ≡ Some v → value_at log s b ≡ Some w → WinsAt log s a b → WinsAt log s b a → v ≡ w }
{}

/// Local equals global: the rule over the marks of the parents gives the marks of the whole graph with one
/// more revision, of no parent, of one, or of two, for every scalar.
pub fn local_equals_global()
    ensures root { (log : List Revision) (new : Revision) → IsGrown (log ++ new ∷ []) → (s : Scalar) (v : Value) →
        value_at (log ++ new ∷ []) s (length log) ≡ Some v → new.parents ≡ [] →
        (x : ℕ) → IsMarkByRule Value (length log) v [] [] None None x
        ↔ IsMark (log ++ new ∷ []) s (length log) x }
    ensures one { (log : List Revision) (new : Revision) → IsGrown (log ++ new ∷ []) → (s : Scalar) (v : Value) →
        value_at (log ++ new ∷ []) s (length log) ≡ Some v →
        (p : ℕ) → new.parents ≡ p ∷ [] → (marks : Scalar → List ℕ) → AreMarksAt log p marks →
        (x : ℕ) → IsMarkByRule Value (length log) v [] [] (side_of (value_at log s p) (marks s)) None x
        ↔ IsMark (log ++ new ∷ []) s (length log) x }
    ensures two { (log : List Revision) (new : Revision) → IsGrown (log ++ new ∷ []) → (s : Scalar) (v : Value) →
        value_at (log ++ new ∷ []) s (length log) ≡ Some v →
        (p q : ℕ) → new.parents ≡ p ∷ q ∷ [] → (left right : Scalar → List ℕ) →
        AreMarksAt log p left → AreMarksAt log q right → (only_left only_right : List ℕ) →
        AreUncommon (parents_at log) p q only_left → AreUncommon (parents_at log) q p only_right →
        (x : ℕ) → IsMarkByRule Value (length log) v only_left only_right (side_of (value_at log s p) (left s)) (side_of (value_at log s q) (right s)) x
        ↔ IsMark (log ++ new ∷ []) s (length log) x }
{}
