//! Laws of overridden decisions, over the definitions alone.
ghost use Rattle.std.specs.Prelude.{◌≡◌, ◌≢◌, ℕ, List, Some, map, true, false};
ghost use Rattle.mtn_base.specs.declared.id.Id.{Id};
ghost use Rattle.mtn_base.specs.declared.name.NodeName.{NodeName};
ghost use Rattle.mtn_history_laws.specs.History.{Revision, IsGrown, entry_at};
ghost use Rattle.mtn_roster.specs.declared.entry.Entry.{Entry};
ghost use Rattle.mtn_decide.specs.declared.decision.AttrChoice.{AttrChoice};
ghost use Rattle.mtn_decide.specs.declared.decision.AttrChoice.TheVariants.{Fixed};
ghost use Rattle.mtn_decide.specs.declared.decision.AttrDecision.{AttrDecision};
ghost use Rattle.mtn_decide.specs.declared.decision.Decision.{Decision};
ghost use Rattle.mtn_decide.specs.Decisions.{Merge, IsInOrder, decision_of, choice_of};
ghost use Rattle.mtn_decide.specs.Graph.{IsMergeOf};
ghost use Rattle.mtn_conflicts.specs.declared.lists.Conflicts.{Conflicts};
ghost use Rattle.mtn_conflicts.specs.Result.{ParentsAreDirs, NoneBornIn};
ghost use Rattle.mtn_resolve.specs.declared.resolution.Resolution.{Resolution};
ghost use Rattle.mtn_resolve.specs.Faults.{AreFitting};
ghost use Rattle.mtn_resolve.specs.Overriding.{overridden, candidates};

/// Overridden decisions are in order again.
pub fn order_stays()
    ensures { (m : Merge) (rs : List Resolution) → IsInOrder m → IsInOrder (overridden rs m) }
{}

/// Each node that lives after resolutions lived before or was pending. Its kind stays, its keys stay, and it is
/// reborn exactly where it was pending.
pub fn scalars_stay()
    ensures { (m : Merge) (rs : List Resolution) (n : NodeName) (e : Decision) → decision_of (overridden rs m).nodes n ≡ Some e →
        (d : Decision) × (decision_of (candidates m) n ≡ Some d) × (e.is_dir ≡ d.is_dir) × (e.reborn ≡ d.reborn)
        × (map (λ (a : AttrDecision). a.key) e.attrs ≡ map (λ (a : AttrDecision). a.key) d.attrs) }
{}

/// What `result` asks holds again: of the nodes that may live it holds before, and each resolution fits.
pub fn may_be_made_again()
    ensures dirs { (m : Merge) (c : Conflicts) (rs : List Resolution) → IsInOrder m → ParentsAreDirs (candidates m) → AreFitting m c rs → ParentsAreDirs (overridden rs m).nodes }
    ensures fresh { (m : Merge) (rs : List Resolution) (id : Id) → NoneBornIn (candidates m) id → NoneBornIn (overridden rs m).nodes id }
{}

/// A node that is reborn has live attributes alone, and none clashes.
pub fn reborn_are_live()
    ensures { (m : Merge) (c : Conflicts) (rs : List Resolution) (n : NodeName) (e : Decision) → AreFitting m c rs →
        ((k : NodeName) (d : Decision) → decision_of m.nodes k ≡ Some d → d.reborn ≡ false) → decision_of (overridden rs m).nodes n ≡ Some e → e.reborn ≡ true →
        (key : List ℕ) (x : AttrChoice) → choice_of e.attrs key ≡ Some x → (v : List ℕ) × (x ≡ Fixed (Some v)) }
{}

/// It holds of the nodes that may live by what a merge of a grown history decides.
pub fn candidates_may_be_made()
    ensures dirs { (log : List Revision) (a b : ℕ) (m : Merge) → IsGrown log → IsInOrder m → IsMergeOf log a b m → ParentsAreDirs (candidates m) }
    ensures fresh { (log : List Revision) (a b : ℕ) (m : Merge) (id : Id) → IsMergeOf log a b m →
        ((n : NodeName) (e : Entry) → entry_at log a n ≡ Some e → n.birth ≢ id) → ((n : NodeName) (e : Entry) → entry_at log b n ≡ Some e → n.birth ≢ id) → NoneBornIn (candidates m) id }
{}
