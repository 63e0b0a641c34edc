use mtn_base::NoMemory;
use std::alloc::{AllocError, AllocFailed};

/// Why a marked tree gets no numbers.
#[derive(Drop)]
pub enum NumberError {
    /// Two nodes would get one number, or one would get 0.
    Clash,
    /// Memory ran out.
    NoMemory,
}

impl From<NoMemory> for NumberError {
    ghost use Rattle.mtn_roster_deltas.specs.declared.error.NumberError.TheVariants.{NoMemory};
    ghost use Rattle.std.specs.Prelude.{◌≡◌};

    ghost from_gives = { λ _ e. e ≡ NoMemory };

    fn from(_: NoMemory) -> Self {
        NumberError::NoMemory
    }
}

impl From<AllocError> for NumberError {
    ghost use Rattle.mtn_roster_deltas.specs.declared.error.NumberError.TheVariants.{NoMemory};
    ghost use Rattle.std.specs.Prelude.{◌≡◌};

    ghost from_gives = { λ _ e. e ≡ NoMemory };

    fn from(_: AllocError) -> Self {
        NumberError::NoMemory
    }
}

impl<T: Drop> From<AllocFailed<T>> for NumberError {
    ghost use Rattle.mtn_roster_deltas.specs.declared.error.NumberError.TheVariants.{NoMemory};
    ghost use Rattle.std.specs.Prelude.{◌≡◌};

    ghost from_gives = { λ _ e. e ≡ NoMemory };

    fn from(_: AllocFailed<T>) -> Self {
        NumberError::NoMemory
    }
}
