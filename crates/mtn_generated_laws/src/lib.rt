//! Laws of generated histories that rest on those of the commands, over the definitions of `mtn_generated` alone. Nothing here runs.
//!
//! The crates above rely on this: generating comes to one thing, and over a lawful state to something; the state with all revisions
//! is lawful, and has every file that was put for them. Two children of one revision of which one patches and the other sets an
//! attribute do not conflict in a merge (`specs/Siblings.antt`), and the tips that a generated history merges are such children: none
//! of its merges has conflicts. A text with one edge is read as it was written.
#![tactic(auto)]

ghost use Rattle.std.specs.Prelude.{◌≡◌, ◌≢◌, ◌^◌, ◌<◌, ◌≤◌, ℕ, List, [], ◌∷◌, None, Some, Ok, Err, Contains};
ghost use Rattle.std.specs.FinMap.{get};
ghost use Rattle.mtn_base.specs.declared.id.Id.{Id};
ghost use Rattle.mtn_certs.specs.Certificates.{IsIdBytes};
ghost use Rattle.mtn_changes.specs.declared.change.Change.TheVariants.{Patch, Set};
ghost use Rattle.mtn_changeset_laws.specs.Changes.{first_fault, tree_after};
ghost use Rattle.mtn_conflicts.specs.Lists.{AreConflictsOf, IsNone};
ghost use Rattle.mtn_conflicts.specs.declared.lists.Conflicts.{Conflicts};
ghost use Rattle.mtn_decide.specs.Decisions.{IsInOrder, Merge};
ghost use Rattle.mtn_decide.specs.Graph.{IsMergeOf};
ghost use Rattle.mtn_generated.specs.Growing.{GrowthAnswer, Generates, Grown};
ghost use Rattle.mtn_generated.specs.Growing.Stop.{Conflicting};
ghost use Rattle.mtn_generated.specs.Numbered.{Tips, Work, changes_of, edge_of, files_of, work_at};
ghost use Rattle.mtn_generated.specs.Numbered.Work.{Begins, Joins};
ghost use Rattle.mtn_generated_laws.specs.Reading.{IsReadAs};
ghost use Rattle.mtn_generated_laws.specs.Siblings.{AreSiblings};
ghost use Rattle.mtn_history_laws.specs.History.{IsGrown, Revision, parents_at, tree_at};
ghost use Rattle.mtn_model.specs.State.{State};
ghost use Rattle.mtn_replay.specs.Lawful.{IsLawful, Keeps};

/// Generating a number of revisions over a state comes to one thing at most.
pub fn one_generation()
    ensures { (f : List ℕ → List ℕ) (n : ℕ) (s : State) (a b : GrowthAnswer) → Generates f n s a → Generates f n s b → a ≡ b }
{}

/// Over a lawful state it comes to something.
pub fn some_generation()
    ensures { (f : List ℕ → List ℕ) (n : ℕ) (s : State) → IsLawful f s → (answer : GrowthAnswer) × Generates f n s answer }
{}

/// The state with all revisions is lawful.
pub fn grown_is_lawful()
    ensures { (f : List ℕ → List ℕ) (n : ℕ) (s : State) (g : Grown) → IsLawful f s → Generates f n s (Ok g) → IsLawful f g.state }
{}

/// It has the files that were there before (`before`), and those of each revision, under their ids (`files`).
pub fn files_are_held()
    ensures before { (f : List ℕ → List ℕ) (n : ℕ) (s : State) (g : Grown) → Generates f n s (Ok g) → Keeps s.files g.state.files }
    ensures files { (f : List ℕ → List ℕ) (n i : ℕ) (s : State) (g : Grown) (text : List ℕ) → Generates f n s (Ok g) → 0 < i → i ≤ n →
        Contains (files_of i (work_at i)) text → get g.state.files (f text) ≡ Some text }
{}

/// A merge of two children of one revision has no conflict where they have the same nodes in the same slots, and none of them
/// changes a scalar that the other changes.
pub fn siblings_do_not_conflict()
    ensures { (h : List Revision) (parent left right : ℕ) (m : Merge) (c : Conflicts) → IsGrown h → AreSiblings h parent left right → IsInOrder m → IsMergeOf h left right m →
        AreConflictsOf m c → IsNone c }
{}

/// A child that patches a file, and another that sets an attribute, are such children.
pub fn patch_and_set_are_siblings()
    ensures { (h : List Revision) (parent left right : ℕ) (p q : List (List ℕ)) (from to x y : Id) (key value : List ℕ) → parents_at h left ≡ parent ∷ [] → parents_at h right ≡ parent ∷ [] →
        tree_at h left ≡ tree_after (tree_at h parent) (Patch p from to ∷ []) x → tree_at h right ≡ tree_after (tree_at h parent) (Set q key value ∷ []) y →
        AreSiblings h parent left right }
{}

/// No merge of a generated history has conflicts, where the ident makes ids.
pub fn merges_never_conflict()
    ensures { (f : List ℕ → List ℕ) (n : ℕ) (s : State) (left right : Id) (c : Conflicts) → ((text : List ℕ) → IsIdBytes (f text)) → n < 2 ^ 64 →
        Generates f n s (Err (Conflicting left right c)) → ⊥ }
{}

/// The text of each revision with one edge is read as it was written, where the ident makes ids.
pub fn texts_are_read()
    ensures first { (f : List ℕ → List ℕ) (h : List Revision) (tips : Tips) → ((text : List ℕ) → IsIdBytes (f text)) → IsReadAs f h (edge_of f 1 Begins tips) }
    ensures later { (f : List ℕ → List ℕ) (h : List Revision) (i : ℕ) (work : Work) (tips : Tips) → ((text : List ℕ) → IsIdBytes (f text)) → i < 2 ^ 64 →
        IsIdBytes tips.left.0 → IsIdBytes tips.right.0 → work ≢ Begins → work ≢ Joins → IsReadAs f h (edge_of f i work tips) }
{}

/// The changes of the first revision apply to no tree.
pub fn first_changes_apply()
    ensures { (f : List ℕ → List ℕ) → first_fault [] (changes_of f 1 Begins) ≡ None }
{}
