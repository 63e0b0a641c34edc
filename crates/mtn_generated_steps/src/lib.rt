//! What stops a generated history, in laws. Nothing here runs.
//!
//! The tree of each tip has the form of `mtn_generated_trees`: a root, one directory and ten files. Over such a tree the changes of
//! the next revision apply and keep the form, whatever they are: a patch, an attribute, a rename. Its text is short and read as it
//! was written, it names the manifest of the tree that it makes, and the contents that it brings are held.
//!
//! The crates above rely on this: over a lawful state with an empty log nothing but a collision of ids stops a generation, where the
//! ident makes ids.
#![tactic(auto)]

ghost use Rattle.std.specs.Prelude.{◌≡◌, ◌≢◌, ◌⊎◌, ◌<◌, ◌≤◌, ◌-◌, ◌^◌, ℕ, suc, List, [], length, None, Ok, Err};
ghost use Rattle.mtn_base.specs.declared.id.Id.{Id};
ghost use Rattle.mtn_base.specs.declared.limits.TheConstants.{MAX_LOG};
ghost use Rattle.mtn_base.specs.declared.refusal.Cause.TheVariants.{Collision};
ghost use Rattle.mtn_changeset_laws.specs.Changes.{first_fault, tree_after};
ghost use Rattle.mtn_changeset_laws.specs.Laws.{NoneBornIn};
ghost use Rattle.mtn_generated.specs.Growing.{Generates, Grown, Stop};
ghost use Rattle.mtn_generated.specs.Growing.Stop.{Refused};
ghost use Rattle.mtn_generated.specs.Numbered.{changes_of, content_of, file_at, work_at};
ghost use Rattle.mtn_generated.specs.Numbered.Work.{Begins, Patches, Renames, Sets};
ghost use Rattle.mtn_generated_trees.specs.Formed.{IsFormed};
ghost use Rattle.mtn_model.specs.State.{State};
ghost use Rattle.mtn_order.specs.Free.{MakesIds};
ghost use Rattle.mtn_replay.specs.Lawful.{IsLawful};
ghost use Rattle.mtn_roster.specs.Tree.{IsSane, Tree};

/// The first revision makes a tree of the form.
pub fn first_tree_is_formed()
    ensures { (f : List ℕ → List ℕ) (x : Id) → IsFormed f 1 0 (tree_after [] (changes_of f 1 Begins) x) }
{}

/// A patch applies to a tree of the form (`fine`) and keeps it (`form`), where the new content has an id of its own.
pub fn patches_apply()
    ensures fine { (f : List ℕ → List ℕ) (i m : ℕ) (t : Tree) → IsSane t → IsFormed f i m t → 0 < i → work_at (suc i) ≡ Patches →
        content_of f (file_at (suc i)) (suc i - 40) ≢ content_of f (file_at (suc i)) (suc i) → first_fault t (changes_of f (suc i) Patches) ≡ None }
    ensures form { (f : List ℕ → List ℕ) (i m : ℕ) (t : Tree) (x : Id) → IsSane t → IsFormed f i m t → 0 < i → work_at (suc i) ≡ Patches →
        content_of f (file_at (suc i)) (suc i - 40) ≢ content_of f (file_at (suc i)) (suc i) → NoneBornIn t x → IsFormed f (suc i) m (tree_after t (changes_of f (suc i) Patches) x) }
{}

/// So does a rename of the directory.
pub fn renames_apply()
    ensures fine { (f : List ℕ → List ℕ) (i m : ℕ) (t : Tree) → IsSane t → IsFormed f i m t → 0 < i → suc i < 2 ^ 64 → work_at (suc i) ≡ Renames → first_fault t (changes_of f (suc i) Renames) ≡ None }
    ensures form { (f : List ℕ → List ℕ) (i m : ℕ) (t : Tree) (x : Id) → IsSane t → IsFormed f i m t → 0 < i → suc i < 2 ^ 64 → work_at (suc i) ≡ Renames → NoneBornIn t x →
        IsFormed f (suc i) m (tree_after t (changes_of f (suc i) Renames) x) }
{}

/// So does an attribute that is set beside the patch before it, over the tree that was patched.
pub fn attributes_apply()
    ensures fine { (f : List ℕ → List ℕ) (i m : ℕ) (t : Tree) → IsSane t → IsFormed f i m t → 0 < i → m ≤ i → suc (suc i) < 2 ^ 64 → work_at (suc i) ≡ Patches → work_at (suc (suc i)) ≡ Sets →
        first_fault t (changes_of f (suc (suc i)) Sets) ≡ None }
    ensures form { (f : List ℕ → List ℕ) (i m : ℕ) (t : Tree) (x : Id) → IsSane t → IsFormed f i m t → 0 < i → m ≤ i → suc (suc i) < 2 ^ 64 → work_at (suc i) ≡ Patches → work_at (suc (suc i)) ≡ Sets →
        NoneBornIn t x → IsFormed f i (suc (suc i)) (tree_after t (changes_of f (suc (suc i)) Sets) x) }
{}

/// Nothing but a collision stops a generation over a lawful state with an empty log, where the ident makes ids (`stops`): it comes
/// to all revisions, or to a collision (`comes`).
pub fn only_collisions_stop()
    ensures stops { (f : List ℕ → List ℕ) (n : ℕ) (s : State) (stop : Stop) → MakesIds f → IsLawful f s → length s.log ≡ 0 → n ≤ MAX_LOG → Generates f n s (Err stop) →
        (id : Id) × (stop ≡ Refused (Collision id)) }
    ensures comes { (f : List ℕ → List ℕ) (n : ℕ) (s : State) → MakesIds f → IsLawful f s → length s.log ≡ 0 → n ≤ MAX_LOG →
        ((g : Grown) × Generates f n s (Ok g)) ⊎ ((id : Id) × Generates f n s (Err (Refused (Collision id)))) }
{}
