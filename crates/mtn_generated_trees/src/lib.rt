//! The trees of a generated history, in definitions and laws. Nothing here runs.
//!
//! The tree of a *tip*, the last revision of a side, has a root, one directory in it and ten files in that directory, whose
//! contents go by the number of the revision (`specs/Formed.antt`). The two tips that are merged are children of one revision:
//! left has a patch, and right an attribute (`specs/Joining.antt`).
//!
//! The crates above rely on this: such trees are within the limits of nodes and paths; the tree of a merge has the slots of both
//! tips, the contents of left and the attributes of right, and so the form again; and a merge of the tips comes to one tip with
//! such a tree, or is refused because other bytes are held under the id of its text (`specs/Joined.antt`). Nothing else stops it.
#![tactic(auto)]

ghost use Rattle.std.specs.Prelude.{◌≡◌, ◌≢◌, ◌<◌, ◌≤◌, ◌/◌, ◌^◌, ℕ, suc, false, List, [], ◌∷◌, length, Some, None};
ghost use Rattle.mtn_base.specs.Paths.{path_text};
ghost use Rattle.mtn_base.specs.declared.id.Id.{Id};
ghost use Rattle.mtn_base.specs.declared.limits.TheConstants.{MAX_LOG, MAX_TEXT};
ghost use Rattle.mtn_changes.specs.declared.change.Change.TheVariants.{Patch, Set};
ghost use Rattle.mtn_changeset_laws.specs.Changes.{tree_after};
ghost use Rattle.mtn_conflicts.specs.Result.{result_of};
ghost use Rattle.mtn_decide.specs.Decisions.{Merge};
ghost use Rattle.mtn_generated.specs.Growing.{GrowthAnswer, MergesTips};
ghost use Rattle.mtn_generated.specs.Numbered.{Tips, work_at};
ghost use Rattle.mtn_generated.specs.Numbered.Work.{Joins, Renames};
ghost use Rattle.mtn_generated_trees.specs.Formed.{IsFormed, is_patch};
ghost use Rattle.mtn_generated_trees.specs.Joined.{AreAt, IsJoined};
ghost use Rattle.mtn_generated_trees.specs.Joining.{AreTips, IsUnion, MergesThem};
ghost use Rattle.mtn_history_laws.specs.History.{IsGrown, Revision, parents_at, tree_at};
ghost use Rattle.mtn_model.specs.State.{State};
ghost use Rattle.mtn_order.specs.Free.{MakesIds};
ghost use Rattle.mtn_plans.specs.Plans.{merge_text};
ghost use Rattle.mtn_plans.specs.Sides.{side_refusal};
ghost use Rattle.mtn_replay.specs.Lawful.{IsHistory, IsLawful};
ghost use Rattle.mtn_replay.specs.Making.{parent_tree, too_long, too_many};
ghost use Rattle.mtn_roster.specs.Tree.{IsSane, Tree, node_at};
ghost use Rattle.mtn_roster.specs.declared.entry.Entry.{Entry};

/// A child that patches a file, and another that sets an attribute, are tips.
pub fn patch_and_set_are_tips()
    ensures { (h : List Revision) (parent left right : ℕ) (p q : List (List ℕ)) (from to x y : Id) (key value : List ℕ) → left ≢ right → parents_at h left ≡ parent ∷ [] → parents_at h right ≡ parent ∷ [] →
        tree_at h left ≡ tree_after (tree_at h parent) (Patch p from to ∷ []) x → tree_at h right ≡ tree_after (tree_at h parent) (Set q key value ∷ []) y →
        AreTips h parent left right }
{}

/// Tips may be merged: both are held, and neither is an ancestor of the other.
pub fn tips_may_be_merged()
    ensures { (h : List Revision) (tips : Tips) (parent left right : ℕ) → IsGrown h → AreAt h tips left right → AreTips h parent left right →
        side_refusal h tips.left tips.right ≡ None }
{}

/// The tree of their merge, in a revision of any id, has its scalars from them.
pub fn merged_trees_are_unions()
    ensures { (h : List Revision) (parent left right : ℕ) (m : Merge) (x : Id) → IsGrown h → AreTips h parent left right → MergesThem h left right m →
        IsUnion (tree_at h left) (tree_at h right) (result_of m x) }
{}

/// What has its scalars from two trees of the form has it, with the names and contents of left and the attributes of right
/// (`unions`). A revision that neither patches nor renames leaves the form of the one before it (`stay`), and so do more attributes
/// that may be there (`more`).
pub fn forms_are_kept()
    ensures unions { (f : List ℕ → List ℕ) (i m k n : ℕ) (left right t : Tree) → IsSane left → IsSane right → IsSane t →
        IsFormed f i m left → IsFormed f k n right → IsUnion left right t → IsFormed f i n t }
    ensures stay { (f : List ℕ → List ℕ) (i m : ℕ) (t : Tree) → 0 < i → is_patch (work_at (suc i)) ≡ false → work_at (suc i) ≢ Renames →
        IsFormed f i m t → IsFormed f (suc i) m t }
    ensures more { (f : List ℕ → List ℕ) (i m n : ℕ) (t : Tree) → m ≤ n → IsFormed f i m t → IsFormed f i n t }
{}

/// A tree of the form has twelve nodes at most, and no path of more than thirty bytes, and so is within the limits of both.
pub fn formed_trees_are_within_limits()
    ensures few { (f : List ℕ → List ℕ) (i m : ℕ) (t : Tree) → i < 2 ^ 64 → IsSane t → IsFormed f i m t → length t ≤ 12 }
    ensures nodes { (f : List ℕ → List ℕ) (i m : ℕ) (t : Tree) → i < 2 ^ 64 → IsSane t → IsFormed f i m t → too_many t ≡ None }
    ensures short { (f : List ℕ → List ℕ) (i m : ℕ) (t : Tree) (p : List (List ℕ)) (e : Entry) → i < 2 ^ 64 → IsFormed f i m t → node_at t p ≡ Some e → length (path_text p) ≤ 30 }
    ensures paths { (f : List ℕ → List ℕ) (i m : ℕ) (t : Tree) → i < 2 ^ 64 → IsSane t → IsFormed f i m t → too_long t ≡ None }
{}

/// The text of a merge whose trees are of the form is within its limit.
pub fn merge_texts_are_short()
    ensures { (f : List ℕ → List ℕ) (h : List Revision) (a b : Id) (i j k m n o : ℕ) (t : Tree) → MakesIds f → i < 2 ^ 64 → j < 2 ^ 64 → k < 2 ^ 64 → m < 2 ^ 64 → n < 2 ^ 64 → o < 2 ^ 64 →
        length a.0 ≡ 20 → length b.0 ≡ 20 → IsSane (parent_tree h (Some a)) → IsSane (parent_tree h (Some b)) → IsSane t →
        IsFormed f i m (parent_tree h (Some a)) → IsFormed f j n (parent_tree h (Some b)) → IsFormed f k o t → length (merge_text f h a b t) ≤ MAX_TEXT }
{}

/// Over a lawful state whose log has room, a merge of tips of the form comes to one tip of the form, with the names and contents of
/// left and the attributes of right; or to a collision.
pub fn merges_join_the_tips()
    ensures { (f : List ℕ → List ℕ) (s : State) (h : List Revision) (tips : Tips) (parent left right i m k n : ℕ) (answer : GrowthAnswer) → MakesIds f → IsLawful f s → IsHistory f s.files s.log h →
        length s.log < MAX_LOG → AreAt h tips left right → AreTips h parent left right → i < 2 ^ 64 → m < 2 ^ 64 → k < 2 ^ 64 → n < 2 ^ 64 →
        IsFormed f i m (tree_at h left) → IsFormed f k n (tree_at h right) → MergesTips f Joins tips s answer → IsJoined f i n s answer }
{}
