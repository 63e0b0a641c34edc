// Laws of the answers.
ghost use Rattle.std.specs.Prelude.{◌≡◌, ℕ, List, Some, None, Contains};
ghost use Rattle.mtn_answers.specs.Lines.{IsGraph};
ghost use Rattle.mtn_answers.specs.Queries.{IsAnswer, first_unknown, ids_of};
ghost use Rattle.mtn_answers.specs.Views.{TextAnswer, AreMarkIds, IsContentChanged, IsRoster};
ghost use Rattle.mtn_answers.specs.declared.query.Line.{Line};
ghost use Rattle.mtn_answers.specs.declared.query.Query.{Query};
ghost use Rattle.mtn_base.specs.declared.id.Id.{Id};
ghost use Rattle.mtn_history_laws.specs.History.{Revision, IsGrown};
ghost use Rattle.mtn_history_laws.specs.Scalars.{Scalar, Value, value_at};

/// A query has one answer at most, and so has the graph.
pub fn one_answer()
    ensures ids { (h : List Revision) (q : Query) (a b : List Id) → IsAnswer h q a → IsAnswer h q b → a ≡ b }
    ensures graph { (h : List Revision) (a b : List Line) → IsGraph h a → IsGraph h b → a ≡ b }
{}

/// Over a grown history a query whose ids are all known has an answer, and so have the graph and each question about a revision.
pub fn some_answer()
    ensures ids { (h : List Revision) → IsGrown h → (q : Query) → first_unknown h (ids_of q) ≡ None → (ids : List Id) × IsAnswer h q ids }
    ensures graph { (h : List Revision) → IsGrown h → (lines : List Line) × IsGraph h lines }
    ensures roster { (h : List Revision) → IsGrown h → (id : Id) → (answer : TextAnswer) × IsRoster h id answer }
    ensures content { (h : List Revision) → IsGrown h → (id : Id) (path : List (List ℕ)) → (answer : TextAnswer) × IsContentChanged h id path answer }
{}

/// Each scalar of a revision's tree has the id of a mark: no line of marks is without one.
pub fn marks_are_named()
    ensures { (h : List Revision) → IsGrown h → (s : Scalar) (r : ℕ) (v : Value) → value_at h s r ≡ Some v →
        (ids : List Id) → AreMarkIds h r s ids → (x : Id) × Contains ids x }
{}
