//! The tree that a merge without conflicts makes, in definitions and laws. Nothing here runs.
//!
//! Decisions are *of the sides* where nodes, kinds, births, components and keys are those of the two trees that are merged
//! (`specs/Sides.antt`). What is decided of two revisions of a history is, and the tree that such decisions make shows all
//! that the canonical changesets to it need. The crates above rely on this: the revision of a merge without conflicts is
//! accepted within the limits, its tree is the one that was decided, and its text is the same for every id that is no birth
//! on either side. All of that holds after resolutions again.
#![tactic(auto)]

ghost use Rattle.std.specs.Prelude.{◌≡◌, ℕ, Bool, List, [], Some, None, IsSome, find, filter_map, is_none};
ghost use Rattle.std.specs.FinMap.{get};
ghost use Rattle.mtn_base.specs.declared.id.Id.{Id};
ghost use Rattle.mtn_history_laws.specs.History.{Revision, tree_at, IsGrown, TellsAncestors};
ghost use Rattle.mtn_model.specs.State.{Logged};
ghost use Rattle.mtn_model.specs.Table.{Table};
ghost use Rattle.mtn_base.specs.declared.name.NodeName.{NodeName};
ghost use Rattle.mtn_roster.specs.declared.entry.Body.TheVariants as Body;
ghost use Rattle.mtn_roster.specs.declared.entry.Entry.{Entry};
ghost use Rattle.mtn_roster.specs.Tree.{Tree, entry_of};
ghost use Rattle.mtn_changeset_laws.specs.Changes.{or_else};
ghost use Rattle.mtn_changeset_laws.specs.Laws.{NoneBornIn};
ghost use Rattle.mtn_replay.specs.Making.{place_of, is_above, log_full, made_tree, refusal_of, too_long, too_many, tree_refusal, unknown_file};
ghost use Rattle.mtn_replay.specs.Lawful.{IsHistory};
ghost use Rattle.mtn_between.specs.Laws.{IsSpellable};
ghost use Rattle.mtn_between.specs.Merging.{IsMerged};
ghost use Rattle.mtn_between.specs.Twins.{IsTwinOf};
ghost use Rattle.mtn_decide.specs.Decisions.{Merge, IsInOrder};
ghost use Rattle.mtn_decide.specs.Graph.{IsMergeOf};
ghost use Rattle.mtn_conflicts.specs.declared.lists.Conflicts.{Conflicts};
ghost use Rattle.mtn_conflicts.specs.Lists.{AreConflictsOf, IsNone};
ghost use Rattle.mtn_conflicts.specs.Result.{result_of, ParentsAreDirs, NoneBornIn as NoneDecidedIn};
ghost use Rattle.mtn_merging.specs.MergeEdges.{merge_edges};
ghost use Rattle.mtn_manifest.specs.Manifest.{manifest_of};
ghost use Rattle.mtn_resolve.specs.declared.resolution.Resolution.{Resolution};
ghost use Rattle.mtn_resolve.specs.Faults.{AreFitting};
ghost use Rattle.mtn_resolve.specs.Overriding.{overridden, pick_in};
ghost use Rattle.mtn_resolve.specs.Texts.{AreResolutions};
ghost use Rattle.mtn_merged_trees.specs.Sides.{AreOfSides};

/// What a merge decides of two revisions of a grown history is of their trees.
pub fn decisions_are_of_sides()
    ensures { (h : List Revision) (p q : ℕ) (above_left above_right : Id → Bool) (m : Merge) → IsGrown h → IsInOrder m → IsMergeOf h p q m →
        TellsAncestors h p above_left → TellsAncestors h q above_right → IsSpellable (tree_at h p) → IsSpellable (tree_at h q) →
        AreOfSides (tree_at h p) (tree_at h q) above_left above_right m }
{}

/// The tree that decisions of the sides make shows of them what the changesets to it need.
pub fn results_are_merged()
    ensures { (left right : Tree) (new : Id) (above_left above_right : Id → Bool) (m : Merge) (c : Conflicts) → IsInOrder m → AreConflictsOf m c → IsNone c →
        ParentsAreDirs m.nodes → NoneDecidedIn m.nodes new → NoneBornIn left new → NoneBornIn right new → AreOfSides left right above_left above_right m →
        IsMerged left right new above_left above_right (result_of m new) }
{}

/// For two ids that are no births, the trees differ in the names alone of what is reborn.
pub fn results_are_twins()
    ensures { (old : Tree) (x y : Id) (m : Merge) (c : Conflicts) → IsInOrder m → AreConflictsOf m c → IsNone c → ParentsAreDirs m.nodes →
        NoneDecidedIn m.nodes x → NoneDecidedIn m.nodes y → NoneBornIn old x → NoneBornIn old y → IsTwinOf old (result_of m x) (result_of m y) }
{}

/// The revision of a merge without conflicts has the tree that was decided, and is refused for that tree's limits, contents
/// or manifest alone, or where the log is full.
pub fn clear_merges_are_accepted()
    ensures made { (f : List ℕ → List ℕ) (files : Table) (log : List Logged) (h : List Revision) (a b new : Id) (p q : ℕ) (m : Merge) (c : Conflicts) → IsHistory f files log h →
        place_of h a ≡ Some p → place_of h b ≡ Some q → place_of h new ≡ None → IsInOrder m → IsMergeOf h p q m → AreConflictsOf m c → IsNone c →
        made_tree h new (merge_edges h a b (result_of m new)) ≡ result_of m new }
    ensures accepted { (f : List ℕ → List ℕ) (files : Table) (log : List Logged) (h : List Revision) (a b new manifest : Id) (p q : ℕ) (m : Merge) (c : Conflicts) → IsHistory f files log h →
        place_of h a ≡ Some p → place_of h b ≡ Some q → place_of h new ≡ None → IsInOrder m → IsMergeOf h p q m → AreConflictsOf m c → IsNone c →
        refusal_of f files h new (record { manifest = manifest; edges = merge_edges h a b (result_of m new) })
        ≡ or_else (log_full h) (tree_refusal f files (record { manifest = manifest; edges = merge_edges h a b (result_of m new) }) (result_of m new)) }
{}

/// What is decided after resolutions that fit, and whose text is lawful, is of the sides' trees again.
pub fn resolved_decisions_are_of_sides()
    ensures { (h : List Revision) (p q : ℕ) (above_left above_right : Id → Bool) (m : Merge) (c : Conflicts) (rs : List Resolution) → IsGrown h → IsInOrder m → IsMergeOf h p q m →
        AreFitting m c rs → AreResolutions [] rs → TellsAncestors h p above_left → TellsAncestors h q above_right → IsSpellable (tree_at h p) → IsSpellable (tree_at h q) →
        AreOfSides (tree_at h p) (tree_at h q) above_left above_right (overridden rs m) }
{}

/// What such decisions make may be made: what has the root slot or is a decided parent is a directory, and an id that is no
/// birth on either side is no birth of what lives.
pub fn resolved_merges_may_be_made()
    ensures dirs { (h : List Revision) (p q : ℕ) (m : Merge) (c : Conflicts) (rs : List Resolution) → IsGrown h → IsInOrder m → IsMergeOf h p q m → AreFitting m c rs →
        ParentsAreDirs (overridden rs m).nodes }
    ensures fresh { (h : List Revision) (p q : ℕ) (m : Merge) (rs : List Resolution) (id : Id) → IsMergeOf h p q m → NoneBornIn (tree_at h p) id → NoneBornIn (tree_at h q) id →
        NoneDecidedIn (overridden rs m).nodes id }
{}

/// After resolutions too, the revision of a merge without conflicts has the tree that was decided, and is refused for that
/// tree's limits, contents or manifest alone, or where the log is full.
pub fn resolved_merges_are_accepted()
    ensures made { (f : List ℕ → List ℕ) (files : Table) (log : List Logged) (h : List Revision) (a b new : Id) (p q : ℕ) (m : Merge) (c d : Conflicts) (rs : List Resolution) → IsHistory f files log h →
        place_of h a ≡ Some p → place_of h b ≡ Some q → place_of h new ≡ None → IsInOrder m → IsMergeOf h p q m → AreFitting m c rs → AreResolutions [] rs →
        AreConflictsOf (overridden rs m) d → IsNone d → made_tree h new (merge_edges h a b (result_of (overridden rs m) new)) ≡ result_of (overridden rs m) new }
    ensures accepted { (f : List ℕ → List ℕ) (files : Table) (log : List Logged) (h : List Revision) (a b new manifest : Id) (p q : ℕ) (m : Merge) (c d : Conflicts) (rs : List Resolution) → IsHistory f files log h →
        place_of h a ≡ Some p → place_of h b ≡ Some q → place_of h new ≡ None → IsInOrder m → IsMergeOf h p q m → AreFitting m c rs → AreResolutions [] rs →
        AreConflictsOf (overridden rs m) d → IsNone d →
        refusal_of f files h new (record { manifest = manifest; edges = merge_edges h a b (result_of (overridden rs m) new) })
        ≡ or_else (log_full h) (tree_refusal f files (record { manifest = manifest; edges = merge_edges h a b (result_of (overridden rs m) new) }) (result_of (overridden rs m) new)) }
{}

/// For two ids that are no births on either side, the edges and the manifest are the same, and so are the limits that the tree is
/// not within.
pub fn resolved_merges_have_one_text()
    ensures edges { (f : List ℕ → List ℕ) (files : Table) (log : List Logged) (h : List Revision) (a b x y : Id) (p q : ℕ) (m : Merge) (c d : Conflicts) (rs : List Resolution) → IsHistory f files log h →
        place_of h a ≡ Some p → place_of h b ≡ Some q → IsInOrder m → IsMergeOf h p q m → AreFitting m c rs → AreConflictsOf (overridden rs m) d → IsNone d →
        NoneBornIn (tree_at h p) x → NoneBornIn (tree_at h q) x → NoneBornIn (tree_at h p) y → NoneBornIn (tree_at h q) y →
        merge_edges h a b (result_of (overridden rs m) x) ≡ merge_edges h a b (result_of (overridden rs m) y) }
    ensures manifest { (f : List ℕ → List ℕ) (files : Table) (log : List Logged) (h : List Revision) (a b x y : Id) (p q : ℕ) (m : Merge) (c d : Conflicts) (rs : List Resolution) → IsHistory f files log h →
        place_of h a ≡ Some p → place_of h b ≡ Some q → IsInOrder m → IsMergeOf h p q m → AreFitting m c rs → AreConflictsOf (overridden rs m) d → IsNone d →
        NoneBornIn (tree_at h p) x → NoneBornIn (tree_at h q) x → NoneBornIn (tree_at h p) y → NoneBornIn (tree_at h q) y →
        manifest_of (result_of (overridden rs m) x) ≡ manifest_of (result_of (overridden rs m) y) }
    ensures limits { (f : List ℕ → List ℕ) (files : Table) (log : List Logged) (h : List Revision) (a b x y : Id) (p q : ℕ) (m : Merge) (c d : Conflicts) (rs : List Resolution) → IsHistory f files log h →
        place_of h a ≡ Some p → place_of h b ≡ Some q → IsInOrder m → IsMergeOf h p q m → AreFitting m c rs → AreConflictsOf (overridden rs m) d → IsNone d →
        NoneBornIn (tree_at h p) x → NoneBornIn (tree_at h q) x → NoneBornIn (tree_at h p) y → NoneBornIn (tree_at h q) y →
        (too_many (result_of (overridden rs m) x) ≡ too_many (result_of (overridden rs m) y)) × (too_long (result_of (overridden rs m) x) ≡ too_long (result_of (overridden rs m) y)) }
{}

/// The contents that the revision of a merge brings are held, where those that resolutions pick are.
pub fn resolved_merges_bring_held_contents()
    ensures trees { (f : List ℕ → List ℕ) (files : Table) (log : List Logged) (h : List Revision) (p : ℕ) (n : NodeName) (e : Entry) (content : Id) → IsHistory f files log h →
        entry_of (tree_at h p) n ≡ Some e → e.body ≡ Body.File content → IsSome (get files content.0) }
    ensures merges { (f : List ℕ → List ℕ) (files : Table) (log : List Logged) (h : List Revision) (a b x : Id) (p q : ℕ) (m : Merge) (c d : Conflicts) (rs : List Resolution) → IsHistory f files log h →
        place_of h a ≡ Some p → place_of h b ≡ Some q → IsInOrder m → IsMergeOf h p q m → AreFitting m c rs → AreConflictsOf (overridden rs m) d → IsNone d →
        find (λ (i : Id). is_none (get files i.0)) (filter_map pick_in rs) ≡ None → NoneBornIn (tree_at h p) x → NoneBornIn (tree_at h q) x →
        unknown_file files (merge_edges h a b (result_of (overridden rs m) x)) ≡ None }
{}
