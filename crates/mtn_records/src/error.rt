// Why bytes are no record.
ghost use Rattle.std.specs.Prelude.{◌≡◌};

use mtn_base::NoMemory;
use std::alloc::{AllocError, AllocFailed};

/// Why the bytes of a record give no value.
#[derive(Clone, Copy)]
pub enum RecordError {
    /// The bytes are no record of this form.
    Bad,
    /// Memory ran out.
    NoMemory,
}

impl From<NoMemory> for RecordError {
    ghost use Rattle.mtn_records.specs.declared.error.RecordError.TheVariants.{NoMemory};

    ghost from_gives = { λ _ e. e ≡ NoMemory };

    fn from(_: NoMemory) -> Self {
        RecordError::NoMemory
    }
}

impl From<AllocError> for RecordError {
    ghost use Rattle.mtn_records.specs.declared.error.RecordError.TheVariants.{NoMemory};

    ghost from_gives = { λ _ e. e ≡ NoMemory };

    fn from(_: AllocError) -> Self {
        RecordError::NoMemory
    }
}

impl<T: Drop> From<AllocFailed<T>> for RecordError {
    ghost use Rattle.mtn_records.specs.declared.error.RecordError.TheVariants.{NoMemory};

    ghost from_gives = { λ _ e. e ≡ NoMemory };

    fn from(_: AllocFailed<T>) -> Self {
        RecordError::NoMemory
    }
}
