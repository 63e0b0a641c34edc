// Why no tree is made.
use mtn_base::{Cause, NoMemory};

/// Why the edges of a revision make no tree.
#[derive(Drop)]
pub enum MakeError {
    /// The first refusal.
    Refused(Cause),
    /// No history has such parents: their number is not that of the edges, an old node is born in the new
    /// revision, or a node of both sides has a birth that one parent alone knows.
    Damaged,
    NoMemory,
}

impl From<NoMemory> for MakeError {
    ghost use Rattle.mtn_make_roster.specs.declared.error.MakeError.TheVariants as errors;
    ghost use Rattle.std.specs.Prelude.{◌≡◌};

    ghost from_gives = { λ _ e. e ≡ errors.NoMemory };

    fn from(_: NoMemory) -> Self {
        MakeError::NoMemory
    }
}
