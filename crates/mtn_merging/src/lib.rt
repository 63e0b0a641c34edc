//! The revision that a merge makes over a history, in definitions and laws. Nothing here runs.
//!
//! Its text has two edges, each with the canonical changeset from its parent's tree to the tree on which the merge
//! decided. The crates above rely on this: that text is lawful, it is accepted within the limits, and its tree is that
//! tree. `mtn_between` says what the merge has to show of it.
#![tactic(auto)]

ghost use Rattle.std.specs.Prelude.{◌≡◌, ℕ, List, IsSome, Some, None};
ghost use Rattle.std.specs.FinMap.{get};
ghost use Rattle.std.specs.declared.cmp.Ordering.TheVariants.{Less};
ghost use Rattle.mtn_base.specs.Names.{bytes_cmp};
ghost use Rattle.mtn_base.specs.declared.id.Id.{Id};
ghost use Rattle.mtn_changes.specs.RevisionText.{AreEdges};
ghost use Rattle.mtn_history_laws.specs.History.{Revision, tree_at};
ghost use Rattle.mtn_model.specs.State.{Logged};
ghost use Rattle.mtn_model.specs.Table.{Table};
ghost use Rattle.mtn_roster.specs.Tree.{Tree, IsSane};
ghost use Rattle.mtn_changeset_laws.specs.Changes.{or_else};
ghost use Rattle.mtn_replay.specs.Making.{place_of, is_above, log_full, made_tree, refusal_of, tree_refusal, unknown_file};
ghost use Rattle.mtn_replay.specs.Lawful.{IsHistory};
ghost use Rattle.mtn_between.specs.Laws.{IsSpellable, IsContentIn};
ghost use Rattle.mtn_between.specs.Merging.{IsMerged};
ghost use Rattle.mtn_between.specs.Twins.{IsTwinOf};
ghost use Rattle.mtn_manifest.specs.Manifest.{manifest_of};
ghost use Rattle.mtn_merging.specs.MergeEdges.{merge_edges};

/// A text can spell each tree of the history of a log.
pub fn histories_are_spellable()
    ensures { (f : List ℕ → List ℕ) (files : Table) (log : List Logged) (h : List Revision) → IsHistory f files log h → (p : ℕ) → IsSpellable (tree_at h p) }
{}

/// The edges of a merge are lawful, so that a text spells them.
pub fn merge_edges_are_lawful()
    ensures { (f : List ℕ → List ℕ) (files : Table) (log : List Logged) (h : List Revision) (a b : Id) (p q : ℕ) (t : Tree) → IsHistory f files log h →
        place_of h a ≡ Some p → place_of h b ≡ Some q → bytes_cmp a.0 b.0 ≡ Less → IsSane t → IsSpellable t → AreEdges (merge_edges h a b t) }
{}

/// The revision of a merge has the tree on which the merge decided, and is refused for that tree's limits, contents or
/// manifest alone, or where the log is full.
pub fn merges_are_accepted()
    ensures made { (f : List ℕ → List ℕ) (files : Table) (log : List Logged) (h : List Revision) (a b new : Id) (p q : ℕ) (t : Tree) → IsHistory f files log h →
        place_of h a ≡ Some p → place_of h b ≡ Some q → place_of h new ≡ None →
        IsMerged (tree_at h p) (tree_at h q) new (is_above h (Some a)) (is_above h (Some b)) t → made_tree h new (merge_edges h a b t) ≡ t }
    ensures accepted { (f : List ℕ → List ℕ) (files : Table) (log : List Logged) (h : List Revision) (a b new manifest : Id) (p q : ℕ) (t : Tree) → IsHistory f files log h →
        place_of h a ≡ Some p → place_of h b ≡ Some q → place_of h new ≡ None →
        IsMerged (tree_at h p) (tree_at h q) new (is_above h (Some a)) (is_above h (Some b)) t →
        refusal_of f files h new (record { manifest = manifest; edges = merge_edges h a b t })
        ≡ or_else (log_full h) (tree_refusal f files (record { manifest = manifest; edges = merge_edges h a b t }) t) }
{}

/// The contents that it brings are held where those of the tree are.
pub fn merge_contents_are_held()
    ensures { (f : List ℕ → List ℕ) (files : Table) (log : List Logged) (h : List Revision) (a b : Id) (p q : ℕ) (t : Tree) → IsHistory f files log h →
        place_of h a ≡ Some p → place_of h b ≡ Some q → IsSane t → ((content : Id) → IsContentIn t content → IsSome (get files content.0)) →
        unknown_file files (merge_edges h a b t) ≡ None }
{}

/// The text of a merge is the same for every id of the revision that it makes: trees that differ in the names alone of nodes
/// which both parents lack have the same edges and one manifest.
pub fn merges_have_one_text()
    ensures edges { (f : List ℕ → List ℕ) (files : Table) (log : List Logged) (h : List Revision) (a b : Id) (p q : ℕ) (t u : Tree) → IsHistory f files log h →
        place_of h a ≡ Some p → place_of h b ≡ Some q → IsSane t → IsSane u → IsTwinOf (tree_at h p) t u → IsTwinOf (tree_at h q) t u →
        merge_edges h a b t ≡ merge_edges h a b u }
    ensures manifest { (old t u : Tree) → IsSane old → IsSane t → IsSane u → IsTwinOf old t u → manifest_of t ≡ manifest_of u }
{}
