//! Laws of changesets and joinings, over the definitions alone.
ghost use Rattle.std.specs.Prelude.{◌≡◌, ◌≢◌, ℕ, ◌<◌, Bool, option_map, List, [], ◌∷◌, length, Some, None};
ghost use Rattle.mtn_base.specs.declared.id.Id.{Id};
ghost use Rattle.mtn_changes.specs.declared.change.Change.{Change};
ghost use Rattle.mtn_changes.specs.Sorting.{AreUnsorted};
ghost use Rattle.mtn_roster.specs.declared.entry.Entry.{Entry};
ghost use Rattle.mtn_roster.specs.Tree.{Tree, node_at, IsSane};
ghost use Rattle.mtn_history_laws.specs.History.{Revision, tree_at, BirthsAreKnown, IsStep};
ghost use Rattle.mtn_changeset_laws.specs.Changes.{Occupant, first_fault, tree_after, occupant, occupant_name};
ghost use Rattle.mtn_changeset_laws.specs.Joining.{join_fault, joined};
ghost use Rattle.mtn_changeset_laws.specs.Laws.{IsOldTree, RenamesDiffer, NoneBornIn, Descends, CommonAreKnown, IsFresh, PassesAncestors, AreNamedByPath, IsEditedOf, IsJoinedAt};

/// Changes that a text may spell, in any order, rename no path twice.
pub fn renames_differ()
    ensures { (all : List Change) → AreUnsorted all → RenamesDiffer all }
{}

/// No tree of a history has a node that is born in a revision which the history lacks.
pub fn none_is_born_later()
    ensures { (log : List Revision) (p : ℕ) (id : Id) → BirthsAreKnown log → IsFresh log id → NoneBornIn (tree_at log p) id }
{}

/// A changeset with no fault makes a sane tree of a sane one, and of none.
pub fn after_is_sane()
    ensures { (old : Tree) (all : List Change) (new : Id) → IsOldTree old → RenamesDiffer all → NoneBornIn old new →
        first_fault old all ≡ None → IsSane (tree_after old all new) }
{}

/// At each path of the new tree stands the occupant that the changeset gives it.
pub fn after_at_paths()
    ensures occupants { (old : Tree) (all : List Change) (new : Id) → IsOldTree old → RenamesDiffer all → NoneBornIn old new →
        first_fault old all ≡ None → (p : List (List ℕ)) →
        option_map (λ (e : Entry). e.name) (node_at (tree_after old all new) p) ≡ option_map (occupant_name new) (occupant old all p) }
    ensures named { (old : Tree) (all : List Change) (new : Id) → IsOldTree old → RenamesDiffer all → NoneBornIn old new →
        first_fault old all ≡ None → AreNamedByPath (tree_after old all new) new }
{}

/// What changes a text may spell leave of the content and the attributes of the node at each path.
pub fn after_edits()
    ensures { (old : Tree) (all : List Change) (new : Id) → IsOldTree old → AreUnsorted all → NoneBornIn old new →
        first_fault old all ≡ None → (p : List (List ℕ)) (x : Occupant) (e : Entry) → occupant old all p ≡ Some x →
        node_at (tree_after old all new) p ≡ Some e → IsEditedOf all p x e }
{}

/// What such a changeset makes has of the old nodes: no other, their kinds, and their keys.
pub fn after_descends()
    ensures { (old : Tree) (all : List Change) (new : Id) → IsOldTree old → RenamesDiffer all → NoneBornIn old new →
        first_fault old all ≡ None → Descends old (tree_after old all new) new }
{}

/// A changeset with no fault, over nothing or over the tree of one revision of the history, is a step.
pub fn one_edge_steps()
    ensures root { (log : List Revision) (all : List Change) (id : Id) → IsFresh log id → RenamesDiffer all →
        first_fault [] all ≡ None →
        IsStep log (record { id = id; parents = []; tree = tree_after [] all id }) }
    ensures one { (log : List Revision) (p : ℕ) (all : List Change) (id : Id) → BirthsAreKnown log → p < length log →
        IsSane (tree_at log p) → IsFresh log id → RenamesDiffer all → first_fault (tree_at log p) all ≡ None →
        IsStep log (record { id = id; parents = p ∷ []; tree = tree_after (tree_at log p) all id }) }
{}

/// Two sane trees that agree path by path, and of which no node is revived, are joined to a sane tree.
pub fn joined_is_sane()
    ensures { (left right : Tree) (new : Id) (above_left above_right : Id → Bool) → IsSane left → IsSane right →
        join_fault new above_left above_right left right ≡ None → CommonAreKnown left right new above_left above_right →
        IsSane (joined left right new) }
{}

/// At each path such trees are joined to what both have there.
pub fn joined_at_paths()
    ensures { (left right : Tree) (new : Id) (above_left above_right : Id → Bool) → IsSane left → IsSane right →
        join_fault new above_left above_right left right ≡ None → CommonAreKnown left right new above_left above_right →
        AreNamedByPath right new → (p : List (List ℕ)) →
        IsJoinedAt new p (node_at left p) (node_at right p) (node_at (joined left right new) p) }
{}

/// Two edges with no fault, over the trees of two revisions of the history, are a step where their trees agree and no
/// node is revived.
pub fn two_edges_step()
    ensures { (log : List Revision) (p q : ℕ) (left right : List Change) (id : Id) (above_left above_right : Id → Bool) →
        BirthsAreKnown log → p < length log → q < length log → p ≢ q → IsSane (tree_at log p) → IsSane (tree_at log q) →
        IsFresh log id → RenamesDiffer left → RenamesDiffer right →
        first_fault (tree_at log p) left ≡ None → first_fault (tree_at log q) right ≡ None →
        PassesAncestors log p above_left → PassesAncestors log q above_right →
        join_fault id above_left above_right (tree_after (tree_at log p) left id) (tree_after (tree_at log q) right id) ≡ None →
        IsStep log (record { id = id; parents = p ∷ q ∷ []; tree = joined (tree_after (tree_at log p) left id) (tree_after (tree_at log q) right id) id }) }
{}
