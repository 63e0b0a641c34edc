//! Laws of what commands do, over the definitions of `mtn_step` alone. Nothing here runs.
//!
//! The crates above, and readers, rely on this: over a lawful state a command has exactly one outcome, so that
//! what it does is a function of the state; and a merge is the same in both orders of its words.
#![tactic(auto)]

ghost use Rattle.std.specs.Prelude.{◌≡◌, ◌≢◌, ◌⊎◌, ℕ, Bool, List};
ghost use Rattle.mtn_base.specs.declared.id.Id.{Id};
ghost use Rattle.mtn_changes.specs.RevisionText.{IsRevisionFault};
ghost use Rattle.mtn_changes.specs.declared.change.Revision.{Revision};
ghost use Rattle.mtn_changes.specs.declared.error.ChangeTextError.{ChangeTextError};
ghost use Rattle.mtn_changes.specs.declared.error.ChangeTextError.TheVariants.{NoMemory};
ghost use Rattle.mtn_model.specs.Outcome.{Outcome};
ghost use Rattle.mtn_model.specs.State.{State};
ghost use Rattle.mtn_replay.specs.Lawful.{IsLawful, Spells};
ghost use Rattle.mtn_step.specs.Step.{Steps};
ghost use Rattle.mtn_step.specs.declared.call.Call.{Call};
ghost use Rattle.mtn_step_laws.specs.Held.{IsHeldIn};

/// Over a lawful state a command has no more than one outcome.
pub fn one_outcome()
    ensures { (f : List ℕ → List ℕ) (s : State) (call : Call) (payload : List ℕ) (o p : Outcome) → IsLawful f s → Steps f call payload s o → Steps f call payload s p → o ≡ p }
{}

/// Over a lawful state a command has an outcome, whatever its payload.
pub fn some_outcome()
    ensures { (f : List ℕ → List ℕ) (s : State) (call : Call) (payload : List ℕ) → IsLawful f s → (o : Outcome) × Steps f call payload s o }
{}

/// Each text spells a revision, or has a fault that is none of memory.
pub fn some_fault()
    ensures { (text : List ℕ) → ((r : Revision) × Spells text r) ⊎ ((e : ChangeTextError) × (e ≢ NoMemory) × IsRevisionFault text e) }
{}

/// A merge has one outcome in both orders of the words, where both revisions are held, and so has what is shown of it.
pub fn sides_in_any_order()
    ensures merge { (f : List ℕ → List ℕ) (s : State) (a b : Id) (resolves : Bool) (payload : List ℕ) (o : Outcome) → IsHeldIn f s a → IsHeldIn f s b →
        Steps f (Call.Merge a b resolves) payload s o → Steps f (Call.Merge b a resolves) payload s o }
    ensures show_conflicts { (f : List ℕ → List ℕ) (s : State) (a b : Id) (payload : List ℕ) (o : Outcome) → IsHeldIn f s a → IsHeldIn f s b →
        Steps f (Call.ShowConflicts a b) payload s o → Steps f (Call.ShowConflicts b a) payload s o }
{}
