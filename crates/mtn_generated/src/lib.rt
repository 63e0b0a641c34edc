//! The history that is generated from a number, in definitions and laws. Nothing here runs.
//!
//! Two sides are grown from one root with ten files: on the left a file is patched, on the right an attribute of that file is set,
//! both are merged, and the directory of the files is renamed; so it goes on by the number of the revision (`specs/Numbered.antt`).
//! Each file and each revision goes into the state as by the command that keeps it, and the first refusal ends all
//! (`specs/Growing.antt`).
//!
//! The crates above rely on this: how many merges and files there are is a formula of the number of revisions; no two of the files
//! are the same; a patch names the content that its file had; the directory keeps its name until a revision renames it; and a
//! revision that makes no tree is refused with the cause that its text is refused with.
#![tactic(auto)]

ghost use Rattle.std.specs.Prelude.{◌≡◌, ◌≢◌, ℕ, ◌+◌, ◌-◌, ◌/◌, ◌<◌, ◌≤◌, ◌^◌, List, [], ◌∷◌, ◌++◌, length, codes, decimal, None, Some, Err};
ghost use Rattle.mtn_base.specs.declared.id.Id.{Id};
ghost use Rattle.mtn_base.specs.declared.refusal.Cause.{Cause};
ghost use Rattle.mtn_base.specs.declared.refusal.Cause.TheVariants.{StoreNotEmpty};
ghost use Rattle.mtn_changes.specs.declared.change.Edge.{Edge};
ghost use Rattle.mtn_generated.specs.Growing.{GrowthAnswer, Generates, Grows, Stop};
ghost use Rattle.mtn_generated.specs.Growing.Stop.{Refused};
ghost use Rattle.mtn_generated.specs.Numbered.{directory_at, edge_fault, file_at, file_text, files_to, merges_to, work_at};
ghost use Rattle.mtn_generated.specs.Numbered.Work.{Patches, Renames};
ghost use Rattle.mtn_history_laws.specs.History.{Revision};
ghost use Rattle.mtn_model.specs.State.{State};
ghost use Rattle.mtn_model.specs.Table.{Table};
ghost use Rattle.mtn_replay.specs.Making.{log_full, refusal_of};

/// Every fourth revision is a merge. There are ten files at first, and one more every fourth revision from the second on.
pub fn counts()
    ensures merges { (n : ℕ) → merges_to n ≡ n / 4 }
    ensures files { (n : ℕ) → 0 < n → files_to n ≡ 10 + (n + 2) / 4 }
{}

/// The texts of two files, or of one file at two revisions, differ.
pub fn texts_differ()
    ensures { (j i k m : ℕ) → j < 2 ^ 64 → i < 2 ^ 64 → k < 2 ^ 64 → m < 2 ^ 64 → file_text j i ≡ file_text k m → (j ≡ k) × (i ≡ m) }
{}

/// A patch names the content that its file had: that of forty revisions before, where the same file was patched (`again`), or else
/// that of the first revision, under number 0; no revision between patches that file (`between`).
pub fn patches_follow()
    ensures again { (i : ℕ) → work_at i ≡ Patches → 40 < i → (work_at (i - 40) ≡ Patches) × (file_at (i - 40) ≡ file_at i) }
    ensures between { (i k : ℕ) → work_at i ≡ Patches → work_at k ≡ Patches → i - 40 < k → k < i → file_at k ≢ file_at i }
{}

/// The directory keeps its name until a revision renames it, which gives it its own number.
pub fn directories_stay()
    ensures kept { (i : ℕ) → 0 < i → work_at (i + 1) ≢ Renames → directory_at (i + 1) ≡ directory_at i }
    ensures renamed { (i : ℕ) → work_at i ≡ Renames → directory_at i ≡ codes "d" ++ decimal i }
{}

/// An edge that makes no tree is refused with the cause that a text with this edge alone is refused with, where the log has room.
pub fn faults_are_refusals()
    ensures { (f : List ℕ → List ℕ) (files : Table) (h : List Revision) (id manifest : Id) (e : Edge) (cause : Cause) → log_full h ≡ None → edge_fault h e ≡ Some cause →
        refusal_of f files h id (record { manifest = manifest; edges = e ∷ [] }) ≡ Some cause }
{}

/// Where the log has a revision, their number is the refusal.
pub fn log_must_be_empty()
    ensures { (f : List ℕ → List ℕ) (n : ℕ) (s : State) (answer : GrowthAnswer) → 0 < length s.log → Generates f n s answer → answer ≡ Err (Refused (StoreNotEmpty (length s.log))) }
{}

/// What has stopped at a revision stays so, however many more were asked for.
pub fn first_stop_stays()
    ensures { (f : List ℕ → List ℕ) (s : State) (m n : ℕ) (stop : Stop) → m ≤ n → Grows f s m (Err stop) → Grows f s n (Err stop) }
{}
