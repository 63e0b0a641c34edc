//! The marks of a scalar over the graph of revisions, and their laws.
//!
//! A *scalar* has a value at some positions of a log. A position is *marked* where an event set the value:
//! no parent has it, it differs from that of each parent that has it, or it was chosen against that of a
//! parent whose events the other parent does not know. The *marks* at a position are the nearest marked
//! positions with its value. One side *wins* over another where it knows each event of the other.
//!
//! The crates above rely on this: each function here is a law, an empty body whose contract holds over the
//! definitions alone, for any graph in which parents stand before their children. The lemmas that they rest
//! on hold for values of any type whose equality can be told. Nothing here runs.
#![tactic(auto)]

ghost use Rattle.std.specs.Prelude.{◌≡◌, ◌↔◌, ℕ, List, [], ◌∷◌, ◌++◌, length, Option, Some, None, Bool, IsTrue};
ghost use Rattle.mtn_ancestry.specs.Ancestors.{IsAncestor, ParentsAreEarlier};
ghost use Rattle.mtn_mark_laws.specs.Marks.{IsMarked, IsMarkOf, Wins, NeverComesBack};
ghost use Rattle.mtn_mark_laws.specs.Rule.{Side, IsMarkByRule, IsMarkByTests, IsSideAt, AreUncommon};
ghost use Rattle.mtn_mark_laws.specs.ScalarLog.{Entry, parents_of, value_of, IsMarkIn, IsGrownFor};
ghost use Rattle.mtn_mark_laws.specs.Ways.{IsMarkByWay};

/// Coverage: where the scalar is there it has a mark, and each of its events is known to one of its marks.
pub fn coverage()
    ensures some { (parents : ℕ → List ℕ) (value : ℕ → Option ℕ) →
        ParentsAreEarlier parents → NeverComesBack ℕ parents value →
        (r v : ℕ) → value r ≡ Some v → (x : ℕ) × IsMarkOf ℕ parents value r x }
    ensures covered { (parents : ℕ → List ℕ) (value : ℕ → Option ℕ) →
        ParentsAreEarlier parents → NeverComesBack ℕ parents value →
        (r v m : ℕ) → value r ≡ Some v → IsAncestor parents m r → IsMarked ℕ parents value m →
        (x : ℕ) × IsMarkOf ℕ parents value r x × IsAncestor parents m x }
{}

/// The test: the marks of b are all known to a exactly where a knows each event of b.
pub fn marks_tell()
    ensures { (parents : ℕ → List ℕ) (value : ℕ → Option ℕ) →
        ParentsAreEarlier parents → NeverComesBack ℕ parents value →
        (a b v : ℕ) → value b ≡ Some v →
        ((x : ℕ) → IsMarkOf ℕ parents value b x → IsAncestor parents x a)
        ↔ Wins ℕ parents value a b }
{}

/// One winner: two that know each other's events have one value.
pub fn one_winner()
    ensures { (parents : ℕ → List ℕ) (value : ℕ → Option ℕ) →
        ParentsAreEarlier parents → NeverComesBack ℕ parents value →
        (a b v w : ℕ) → value a ≡ Some v → value b ≡ Some w →
        Wins ℕ parents value a b → Wins ℕ parents value b a → v ≡ w }
{}

/// Local equals global: the rule over the marks of the parents gives the marks of the whole graph with one
/// more entry, of no parent, of one, or of two.
pub fn local_equals_global()
    ensures root { (log : List (Entry ℕ)) (e : Entry ℕ) (v : ℕ) →
        IsGrownFor ℕ (log ++ e ∷ []) → e.value ≡ Some v → e.parents ≡ [] →
        (x : ℕ) → IsMarkByRule ℕ (length log) v [] [] None None x
        ↔ IsMarkIn (log ++ e ∷ []) (length log) x }
    ensures one { (log : List (Entry ℕ)) (e : Entry ℕ) (v : ℕ) →
        IsGrownFor ℕ (log ++ e ∷ []) → e.value ≡ Some v →
        (p : ℕ) (l : Option (Side ℕ)) → e.parents ≡ p ∷ [] →
        IsSideAt ℕ (parents_of log) (value_of log) p l →
        (x : ℕ) → IsMarkByRule ℕ (length log) v [] [] l None x
        ↔ IsMarkIn (log ++ e ∷ []) (length log) x }
    ensures two { (log : List (Entry ℕ)) (e : Entry ℕ) (v : ℕ) →
        IsGrownFor ℕ (log ++ e ∷ []) → e.value ≡ Some v →
        (p q : ℕ) (l r : Option (Side ℕ)) → e.parents ≡ p ∷ q ∷ [] →
        IsSideAt ℕ (parents_of log) (value_of log) p l →
        IsSideAt ℕ (parents_of log) (value_of log) q r →
        (only_left only_right : List ℕ) →
        AreUncommon (parents_of log) p q only_left → AreUncommon (parents_of log) q p only_right →
        (x : ℕ) → IsMarkByRule ℕ (length log) v only_left only_right l r x
        ↔ IsMarkIn (log ++ e ∷ []) (length log) x }
{}

/// The marks are those that whole paths give.
pub fn two_spellings()
    ensures { (parents : ℕ → List ℕ) (value : ℕ → Option ℕ) (r x : ℕ) →
        IsMarkOf ℕ parents value r x ↔ IsMarkByWay ℕ parents value r x }
{}

/// What tests of the values say is the rule.
pub fn tests_are_the_rule()
    ensures { (at : ℕ) (v : ℕ) (l r : Side ℕ) (only_left only_right : List ℕ) (a b : Bool) →
        IsTrue a ↔ (v ≡ l.value) → IsTrue b ↔ (v ≡ r.value) → (x : ℕ) →
        IsMarkByTests at a b l.marks r.marks only_left only_right x
        ↔ IsMarkByRule ℕ at v only_left only_right (Some l) (Some r) x }
{}
