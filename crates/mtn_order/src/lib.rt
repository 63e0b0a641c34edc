//! What a command does does not depend on the order of the log. Nothing here runs.
//!
//! Two lawful states are *the same up to order* if they have the same files, the same revisions and the same
//! certificates; only the order in which the revisions were accepted may differ (`mtn_renaming`). Every command but
//! the three that answer in the order of the log gives the same output and status over both, and leaves states that
//! are again the same up to order. So replicas that exchanged the same texts answer alike.
//!
//! A command joins by one line of `proofs/Free.antt`: where its line of `Steps` is said of a history by ids, the lemma
//! `of_history_free` leaves only that what it says of one history holds of the other.
#![tactic(auto)]

ghost use Rattle.std.specs.Prelude.{◌≡◌, ℕ, List, false};
ghost use Rattle.mtn_base.specs.declared.id.Id.{Id};
ghost use Rattle.mtn_decide.specs.Decisions.{Merge};
ghost use Rattle.mtn_decide.specs.Graph.{IsMergeOf};
ghost use Rattle.mtn_history_laws.specs.History.{Revision};
ghost use Rattle.mtn_merging.specs.MergeEdges.{merge_edges};
ghost use Rattle.mtn_model.specs.Outcome.{Outcome};
ghost use Rattle.mtn_model.specs.State.{State};
ghost use Rattle.mtn_order.specs.Free.{IsOrderFree, IsSameOutcome, KeepsIds, in_log_order};
ghost use Rattle.mtn_renaming.specs.Order.{IsSameUpToOrder};
ghost use Rattle.mtn_renaming.specs.Renaming.{IsRenaming};
ghost use Rattle.mtn_roster.specs.Tree.{Tree};
ghost use Rattle.mtn_step.specs.Step.{Steps};
ghost use Rattle.mtn_step.specs.declared.call.Call.{Call};

/// A command does to a state what it does to each other one that is the same up to order (`step`), so any two of its outcomes are
/// the same (`same`), but where it answers in the order of the log. It is asked that what the command keeps in
/// certificates and key names are ids.
pub fn order_free()
    ensures step { (f : List ℕ → List ℕ) (call : Call) (payload : List ℕ) → in_log_order call ≡ false → KeepsIds f call → IsOrderFree f (Steps f call payload) }
    ensures same { (f : List ℕ → List ℕ) (call : Call) (payload : List ℕ) (s t : State) (o p : Outcome) → in_log_order call ≡ false → KeepsIds f call → IsSameUpToOrder f s t →
        Steps f call payload s o → Steps f call payload t p → IsSameOutcome f o p }
{}

/// What two revisions decide when they are merged, and the edges of the merged revision, do not depend on the order.
pub fn merges_free()
    ensures decisions { (h g : List Revision) (to back : ℕ → ℕ) → IsRenaming h g to back → (left right : ℕ) (m : Merge) → IsMergeOf h left right m → IsMergeOf g (to left) (to right) m }
    ensures edges { (h g : List Revision) (to back : ℕ → ℕ) → IsRenaming h g to back → (left right : Id) (t : Tree) → merge_edges g left right t ≡ merge_edges h left right t }
{}
