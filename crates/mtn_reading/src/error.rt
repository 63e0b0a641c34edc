// Why packets are not read.
use mtn_base::{NoMemory, Refusal};
use mtn_history::StoreError;

/// Why `read` answers no counts.
#[derive(Drop)]
pub enum ReadError {
    /// The cause with the number of the packet that has it, from 1; 0 where it is one of all packets.
    Refused(Refusal),
    Store(StoreError),
}

impl From<StoreError> for ReadError {
    ghost use Rattle.mtn_reading.specs.declared.error.ReadError.TheVariants.{Store};
    ghost use Rattle.std.specs.Prelude.{◌≡◌};

    ghost from_gives = { λ s e. e ≡ Store s };

    fn from(error: StoreError) -> Self {
        ReadError::Store(error)
    }
}

impl From<NoMemory> for ReadError {
    ghost use Rattle.mtn_reading.specs.declared.error.ReadError.TheVariants.{Store};
    ghost use Rattle.mtn_history.specs.declared.errors.StoreError.TheVariants.{NoMemory};
    ghost use Rattle.std.specs.Prelude.{◌≡◌};

    ghost from_gives = { λ _ e. e ≡ Store NoMemory };

    fn from(_: NoMemory) -> Self {
        ReadError::Store(StoreError::NoMemory)
    }
}
