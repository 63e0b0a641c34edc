//! Laws of canonical changesets and of the revisions that merges make of them, over the definitions alone.
ghost use Rattle.std.specs.Prelude.{◌≡◌, ℕ, ◌<◌, Bool, List, [], length, Some, None, All, Contains};
ghost use Rattle.mtn_base.specs.declared.id.Id.{Id};
ghost use Rattle.mtn_changes.specs.declared.change.Change.{Change};
ghost use Rattle.mtn_changes.specs.declared.change.Change.TheVariants.{AddFile, Patch};
ghost use Rattle.mtn_changes.specs.Changes.{IsChange};
ghost use Rattle.mtn_changes.specs.ChangesText.{AreChanges, IsChangesText};
ghost use Rattle.mtn_changes.specs.Sorting.{IsSortedAs, WritesChanges};
ghost use Rattle.mtn_roster.specs.Tree.{Tree, node_at, IsSane};
ghost use Rattle.mtn_history_laws.specs.History.{Revision, tree_at, IsGrown, TellsAncestors};
ghost use Rattle.mtn_changeset_laws.specs.Changes.{first_fault, tree_after};
ghost use Rattle.mtn_changeset_laws.specs.Joining.{join_fault, joined};
ghost use Rattle.mtn_changeset_laws.specs.Laws.{IsOldTree, NoneBornIn, IsFresh};
ghost use Rattle.mtn_between.specs.Between.{between};
ghost use Rattle.mtn_between.specs.Laws.{IsSpellable, KindsAgree, IsContentIn, IsCarriedAt};
ghost use Rattle.mtn_between.specs.Merging.{IsSide, IsMerged};
ghost use Rattle.mtn_between.specs.Twins.{IsTwinOf, shown};

/// A canonical changeset is lawful, so that a text can spell it; it is its own sorted form, and what is written of it reads
/// back as it is.
pub fn between_is_lawful()
    ensures lawful { (old new : Tree) → IsSane old → IsSane new → IsSpellable old → IsSpellable new → AreChanges (between old new) }
    ensures sorted { (old new : Tree) → IsSane old → IsSane new → (sorted : List Change) → IsSortedAs (between old new) sorted → sorted ≡ between old new }
    ensures reads_back { (old new : Tree) (text : List ℕ) → IsSane old → IsSane new → WritesChanges [] (between old new) text → IsChangesText text (between old new) }
{}

/// It has no fault over the old tree.
pub fn between_passes()
    ensures { (old new : Tree) → IsSane old → IsSane new → KindsAgree old new → first_fault old (between old new) ≡ None }
{}

/// Applied to the old tree it gives the new one: its paths, and at each path its kind, its content and its live attributes.
pub fn between_carries()
    ensures { (old new : Tree) (x : Id) → IsSane old → IsSane new → IsSpellable old → IsSpellable new → KindsAgree old new → NoneBornIn old x →
        (p : List (List ℕ)) → IsCarriedAt old x p (node_at new p) (node_at (tree_after old (between old new) x) p) }
{}

/// The contents that it brings are those of files of the new tree.
pub fn between_brings()
    ensures added { (old new : Tree) (p : List (List ℕ)) (content : Id) → IsSane old → IsSane new →
        Contains (between old new) (AddFile p content) → IsContentIn new content }
    ensures patched { (old new : Tree) (p : List (List ℕ)) (from to : Id) → IsSane old → IsSane new →
        Contains (between old new) (Patch p from to) → IsContentIn new to }
{}

/// The two canonical changesets to the tree of a merge make that tree: each has no fault over its side, and what they make
/// is joined to exactly that tree, with its names, its births and its cleared keys.
pub fn merges_are_trees()
    ensures left { (left right t : Tree) (new : Id) (above_left above_right : Id → Bool) → IsSide left new above_left → IsSide right new above_right →
        IsMerged left right new above_left above_right t → first_fault left (between left t) ≡ None }
    ensures right { (left right t : Tree) (new : Id) (above_left above_right : Id → Bool) → IsSide left new above_left → IsSide right new above_right →
        IsMerged left right new above_left above_right t → first_fault right (between right t) ≡ None }
    ensures agreed { (left right t : Tree) (new : Id) (above_left above_right : Id → Bool) → IsSide left new above_left → IsSide right new above_right →
        IsMerged left right new above_left above_right t →
        join_fault new above_left above_right (tree_after left (between left t) new) (tree_after right (between right t) new) ≡ None }
    ensures made { (left right t : Tree) (new : Id) (above_left above_right : Id → Bool) → IsSide left new above_left → IsSide right new above_right →
        IsMerged left right new above_left above_right t →
        joined (tree_after left (between left t) new) (tree_after right (between right t) new) new ≡ t }
{}

/// Trees that differ in the names alone of nodes which the old tree lacks, as of those that a merge brings back, have one canonical
/// changeset, and show the same.
pub fn twins_are_alike()
    ensures changes { (old new other : Tree) → IsSane old → IsSane new → IsSane other → IsTwinOf old new other → between old new ≡ between old other }
    ensures shown { (old new other : Tree) → IsSane old → IsSane new → IsSane other → IsTwinOf old new other → shown new ≡ shown other }
{}

/// What lawful changes make of a tree that a text can spell is such a tree, and so is what two of them are joined to.
pub fn spellings_stay()
    ensures nothing { IsSpellable [] }
    ensures after { (old : Tree) (all : List Change) (new : Id) → IsOldTree old → IsSpellable old → All IsChange all → IsSpellable (tree_after old all new) }
    ensures joined { (left right : Tree) (new : Id) → IsSane left → IsSane right → IsSpellable left → IsSpellable right → IsSpellable (joined left right new) }
{}

/// The tree of a revision of a grown history is such a side, where a text can spell it.
pub fn revisions_are_sides()
    ensures { (log : List Revision) (p : ℕ) (new : Id) (above : Id → Bool) → IsGrown log → p < length log → IsFresh log new → TellsAncestors log p above →
        IsSpellable (tree_at log p) → IsSide (tree_at log p) new above }
{}
