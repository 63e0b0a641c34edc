// Why nothing is generated.
use mtn_base::{Id, NoMemory};
use mtn_conflicts::Conflicts;
use mtn_history::{HistoryError, StoreError};

/// Why `generate` keeps nothing.
#[derive(Drop)]
pub enum GenerateError {
    /// The conflicts of a merge, by the ids of its sides.
    Conflicting {
        left: Id,
        right: Id,
        conflicts: Conflicts,
    },
    /// A refusal, or what the store did.
    Failed(HistoryError),
}

impl From<NoMemory> for GenerateError {
    ghost use Rattle.std.specs.Prelude.{◌≡◌};
    ghost use Rattle.mtn_generating.specs.declared.error.GenerateError.TheVariants.{Failed};
    ghost use Rattle.mtn_history.specs.declared.errors.HistoryError.TheVariants.{Store};
    ghost use Rattle.mtn_history.specs.declared.errors.StoreError.TheVariants.{NoMemory};

    ghost from_gives = { λ _ e. e ≡ Failed (Store NoMemory) };

    fn from(_: NoMemory) -> Self {
        GenerateError::Failed(HistoryError::Store(StoreError::NoMemory))
    }
}
