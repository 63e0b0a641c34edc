//! Laws of conflicts and results, over the definitions alone.
ghost use Rattle.std.specs.Prelude.{◌≡◌, ◌≢◌, ℕ, List, Some};
ghost use Rattle.mtn_base.specs.declared.id.Id.{Id};
ghost use Rattle.mtn_base.specs.declared.name.NodeName.{NodeName};
ghost use Rattle.mtn_history_laws.specs.History.{Revision, IsGrown, entry_at};
ghost use Rattle.mtn_decide.specs.Graph.{IsMergeOf};
ghost use Rattle.mtn_roster.specs.declared.entry.Entry.{Entry};
ghost use Rattle.mtn_decide.specs.Decisions.{Merge, IsInOrder};
ghost use Rattle.mtn_conflicts.specs.declared.lists.Conflicts.{Conflicts};
ghost use Rattle.mtn_conflicts.specs.Lists.{AreConflictsOf, IsNone};
ghost use Rattle.mtn_conflicts.specs.Result.{ParentsAreDirs, NoneBornIn, result_of};
ghost use Rattle.mtn_roster.specs.Tree.{IsSane};

/// Merges are trees: where decisions have no conflict, and what has the root slot or is a decided parent is a
/// directory, the result for an id that is no node's birth is sane.
pub fn merges_are_trees()
    ensures { (m : Merge) (c : Conflicts) (id : Id) → IsInOrder m → AreConflictsOf m c → IsNone c → ParentsAreDirs m.nodes → NoneBornIn m.nodes id →
        IsSane (result_of m id) }
{}

/// What a merge of a grown history decides may be made a tree: what has the root slot or is a decided parent is
/// a directory, and an id that is no birth in either tree is no birth of what lives.
pub fn merges_may_be_made()
    ensures dirs { (log : List Revision) (a b : ℕ) (m : Merge) → IsGrown log → IsInOrder m → IsMergeOf log a b m → ParentsAreDirs m.nodes }
    ensures fresh { (log : List Revision) (a b : ℕ) (m : Merge) (id : Id) → IsMergeOf log a b m →
        ((n : NodeName) (e : Entry) → entry_at log a n ≡ Some e → n.birth ≢ id) → ((n : NodeName) (e : Entry) → entry_at log b n ≡ Some e → n.birth ≢ id) → NoneBornIn m.nodes id }
{}
