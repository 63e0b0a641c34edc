//! What a merge comes to, in the words of its conflicts: a law over the definitions of commands. Nothing here runs.
//!
//! The crate above relies on this: a merge that is in order changes nothing and answers exactly its conflicts where a list is left,
//! and otherwise, within the limits, makes the revision whose tree was decided. So its status is Ok exactly where no list is left.
//! A merge of heads is a merge of the two least with what is said of it, and a commit is a text that is put with what is said of it.
#![tactic(auto)]

ghost use Rattle.std.specs.Prelude.{◌≡◌, ℕ, Bool, List, ◌∷◌, None};
ghost use Rattle.mtn_base.specs.Hex.{id_of};
ghost use Rattle.mtn_base.specs.declared.id.Id.{Id};
ghost use Rattle.mtn_conflicts.specs.declared.lists.Conflicts.{Conflicts};
ghost use Rattle.mtn_conflicts.specs.Lists.{AreConflictsOf, IsNone};
ghost use Rattle.mtn_conflicts.specs.Result.{result_of};
ghost use Rattle.mtn_history_laws.specs.History.{Revision};
ghost use Rattle.mtn_headline.specs.Merging.{IsMergeInOrder, IsMergedBy, IsWithinLimits};
ghost use Rattle.mtn_headline.specs.Saying.{IsSaidToo};
ghost use Rattle.mtn_model.specs.Outcome.{Outcome};
ghost use Rattle.mtn_model.specs.State.{State};
ghost use Rattle.mtn_order.specs.Free.{MakesIds};
ghost use Rattle.mtn_plans.specs.Plans.{IsUnborn, merge_text};
ghost use Rattle.mtn_plans.specs.Sides.{left_of, right_of};
ghost use Rattle.mtn_replay.specs.Lawful.{IsHistory, IsLawful};
ghost use Rattle.mtn_resolve.specs.Overriding.{overridden};
ghost use Rattle.mtn_step.specs.Certifying.{AreHeads, merge_said, said_certs, said_refusal, with_certs};
ghost use Rattle.mtn_step.specs.Step.{Steps, conflict_text, conflicted, done};
ghost use Rattle.mtn_step.specs.declared.call.Call.{Call};
ghost use Rattle.mtn_step.specs.declared.call.Said.{Said};

/// A merge in order is decided by the lists after its resolutions alone.
pub fn merges()
    ensures conflicts { (f : List ℕ → List ℕ) (s : State) (h : List Revision) (a b : Id) (resolves : Bool) (payload : List ℕ) (o : Outcome) → IsHistory f s.files s.log h →
        Steps f (Call.Merge a b resolves) payload s o → (order : IsMergeInOrder s h a b resolves payload) (d : Conflicts) → AreConflictsOf (overridden order.resolutions order.merge) d →
        ¬ IsNone d → o ≡ conflicted s (conflict_text (left_of a b) (right_of a b) d) }
    ensures merged { (f : List ℕ → List ℕ) (s : State) (h : List Revision) (a b x : Id) (resolves : Bool) (payload : List ℕ) (o : Outcome) → MakesIds f → IsLawful f s → IsHistory f s.files s.log h →
        Steps f (Call.Merge a b resolves) payload s o → (order : IsMergeInOrder s h a b resolves payload) (d : Conflicts) → AreConflictsOf (overridden order.resolutions order.merge) d →
        IsNone d → IsUnborn h (left_of a b) (right_of a b) x → IsWithinLimits f s h (left_of a b) (right_of a b) (result_of (overridden order.resolutions order.merge) x) →
        IsMergedBy f s h (overridden order.resolutions order.merge) (merge_text f h (left_of a b) (right_of a b) (result_of (overridden order.resolutions order.merge) x)) o }
{}

/// A commit does what putting its text does, and where that is Ok it holds what is said of the revision besides.
pub fn commits()
    ensures { (f : List ℕ → List ℕ) (said : Said) (payload : List ℕ) (s : State) (o : Outcome) → Steps f (Call.Commit said) payload s o →
        (m : Outcome) × Steps f Call.PutRevision payload s m × IsSaidToo said (id_of (f payload)) s m o }
{}

/// A merge of heads does what a merge of the two least does, and where that is Ok it holds what is said of the revision besides
/// (`least`). So where a list is left, its conflicts are answered and the state stays; and otherwise, within the limits, the state
/// is that behind the merge with the certificates.
pub fn merges_heads()
    ensures least { (f : List ℕ → List ℕ) (s : State) (h : List Revision) (branch author date : List ℕ) (key : Id) (resolves : Bool) (payload : List ℕ) (l r : Id) (rest : List Id) (o : Outcome) →
        IsHistory f s.files s.log h → AreHeads s h branch (l ∷ r ∷ rest) → Steps f (Call.MergeHeads branch author date key resolves) payload s o →
        (m : Outcome) × (id : Id) × Steps f (Call.Merge l r resolves) payload s m × IsSaidToo (merge_said key author branch date l r) id s m o }
    ensures conflicts { (f : List ℕ → List ℕ) (s : State) (h : List Revision) (branch author date : List ℕ) (key : Id) (resolves : Bool) (payload : List ℕ) (l r : Id) (rest : List Id) (o : Outcome) →
        IsHistory f s.files s.log h → AreHeads s h branch (l ∷ r ∷ rest) → Steps f (Call.MergeHeads branch author date key resolves) payload s o →
        (order : IsMergeInOrder s h l r resolves payload) (d : Conflicts) → AreConflictsOf (overridden order.resolutions order.merge) d → ¬ IsNone d → o ≡ conflicted s (conflict_text (left_of l r) (right_of l r) d) }
    ensures merged { (f : List ℕ → List ℕ) (s : State) (h : List Revision) (branch author date : List ℕ) (key : Id) (resolves : Bool) (payload : List ℕ) (l r : Id) (rest : List Id) (x : Id) (o : Outcome) →
        MakesIds f → IsLawful f s → IsHistory f s.files s.log h → AreHeads s h branch (l ∷ r ∷ rest) → Steps f (Call.MergeHeads branch author date key resolves) payload s o →
        (order : IsMergeInOrder s h l r resolves payload) (d : Conflicts) → AreConflictsOf (overridden order.resolutions order.merge) d → IsNone d → IsUnborn h (left_of l r) (right_of l r) x →
        IsWithinLimits f s h (left_of l r) (right_of l r) (result_of (overridden order.resolutions order.merge) x) → said_refusal (merge_said key author branch date l r) ≡ None →
        (m : Outcome) × IsMergedBy f s h (overridden order.resolutions order.merge) (merge_text f h (left_of l r) (right_of l r) (result_of (overridden order.resolutions order.merge) x)) m ×
        (o ≡ done (with_certs m.state (said_certs (id_of (f (merge_text f h (left_of l r) (right_of l r) (result_of (overridden order.resolutions order.merge) x)))) (merge_said key author branch date l r))) m.output) }
{}
