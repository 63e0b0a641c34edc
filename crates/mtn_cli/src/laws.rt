//! Laws of what words do.
ghost use Rattle.std.specs.Prelude.{◌≡◌, ℕ, List};
ghost use Rattle.mtn_cli.specs.Step.{Step};
ghost use Rattle.mtn_cli.specs.Run.{IsLawfulStore};
ghost use Rattle.mtn_frame.specs.Outcome.{JobOutcome};
ghost use Rattle.mtn_old_stores.specs.Stores.{Store};

use mtn_old_stores::one_migration;

/// Over a lawful store words with a payload have no more than one outcome (that of a command is `one_outcome` of `mtn_step_laws`).
pub fn one_outcome()
    ensures { (f : List ℕ → List ℕ) (s : Store) (words : List (List ℕ)) (payload : List ℕ) (o p : JobOutcome Store) → IsLawfulStore f s → Step f words payload s o → Step f words payload s p → o ≡ p }
{
    one_migration();
}
