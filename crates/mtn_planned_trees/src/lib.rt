//! That the tree which a plan of a merge decides is the one that its text makes, in laws. Nothing here runs.
//!
//! The crates above rely on this: whatever revision the text of a planned merge spells, where its id is new and the log has room
//! nothing of it is refused, and its tree is the one that was decided. Where no node is reborn that tree is the same under every
//! id. An id that is new to the history is the birth of no node that is decided.
#![tactic(auto)]

ghost use Rattle.std.specs.Prelude.{◌≡◌, false, ℕ, List, [], None};
ghost use Rattle.std.specs.List.{list_any};
ghost use Rattle.mtn_base.specs.Hex.{id_of};
ghost use Rattle.mtn_base.specs.declared.id.Id.{Id};
ghost use Rattle.mtn_basic_io.specs.Spelling.{AreStanzas};
ghost use Rattle.mtn_changes.specs.declared.change.Revision.{Revision as Spelled};
ghost use Rattle.mtn_changes.specs.RevisionText.{revision_stanzas};
ghost use Rattle.mtn_conflicts.specs.declared.lists.Conflicts.{Conflicts};
ghost use Rattle.mtn_conflicts.specs.Lists.{AreConflictsOf, IsNone};
ghost use Rattle.mtn_conflicts.specs.Result.{NoneBornIn, result_of};
ghost use Rattle.mtn_decide.specs.declared.decision.Decision.{Decision};
ghost use Rattle.mtn_decide.specs.Decisions.{Merge};
ghost use Rattle.mtn_history_laws.specs.History.{Revision, IsGrown};
ghost use Rattle.mtn_model.specs.State.{Logged};
ghost use Rattle.mtn_model.specs.Table.{Table};
ghost use Rattle.mtn_plans.specs.Given.{IsChecked};
ghost use Rattle.mtn_plans.specs.Plans.{IsUnborn, limit_refusal, merge_revision, merge_text};
ghost use Rattle.mtn_plans.specs.Sides.{IsMergeAt, left_of, right_of, side_refusal};
ghost use Rattle.mtn_replay.specs.Lawful.{IsHistory, Spells};
ghost use Rattle.mtn_replay.specs.Making.{log_full, made_tree, place_of, refusal_of};
ghost use Rattle.mtn_resolve.specs.declared.resolution.Resolution.{Resolution};
ghost use Rattle.mtn_resolve.specs.Overriding.{overridden};
ghost use Rattle.mtn_resolve.specs.Texts.{AreResolutions};

/// Nothing is refused of the text of a planned merge, and it makes the tree that was decided.
pub fn planned_trees_are_made()
    ensures { (f : List ℕ → List ℕ) (files : Table) (log : List Logged) (h : List Revision) (a b x : Id) (m : Merge) (rs : List Resolution) (before d : Conflicts) (r : Spelled) → IsHistory f files log h →
        side_refusal h a b ≡ None → IsMergeAt h (left_of a b) (right_of a b) m → IsChecked files m before rs None → AreResolutions [] rs → AreConflictsOf (overridden rs m) d → IsNone d →
        IsUnborn h (left_of a b) (right_of a b) x → limit_refusal f h (left_of a b) (right_of a b) (result_of (overridden rs m) x) ≡ None →
        AreStanzas (revision_stanzas (merge_revision f h (left_of a b) (right_of a b) (result_of (overridden rs m) x))) →
        Spells (merge_text f h (left_of a b) (right_of a b) (result_of (overridden rs m) x)) r →
        place_of h (id_of (f (merge_text f h (left_of a b) (right_of a b) (result_of (overridden rs m) x)))) ≡ None → log_full h ≡ None →
        (refusal_of f files h (id_of (f (merge_text f h (left_of a b) (right_of a b) (result_of (overridden rs m) x)))) r ≡ None)
        × (made_tree h (id_of (f (merge_text f h (left_of a b) (right_of a b) (result_of (overridden rs m) x)))) r.edges ≡ result_of (overridden rs m) (id_of (f (merge_text f h (left_of a b) (right_of a b) (result_of (overridden rs m) x))))) }
{}

/// Where no node is reborn the tree is the same in a revision of any id.
pub fn trees_stay()
    ensures { (m : Merge) (x y : Id) → list_any (λ (d : Decision). d.reborn) m.nodes ≡ false → result_of m x ≡ result_of m y }
{}

/// An id that no revision of the history has is the birth of no node that a merge decides.
pub fn births_are_held()
    ensures { (h : List Revision) (l r x : Id) (m : Merge) (rs : List Resolution) → IsGrown h → IsMergeAt h l r m → place_of h x ≡ None → NoneBornIn (overridden rs m).nodes x }
{}
