// Why a text was not read.
use mtn_base::NoMemory as Wanting;

/// Why `read` gives no stanzas.
#[derive(Clone, Copy, PartialEq, Eq)]
pub enum ReadError {
    /// The text is no printed form; its first `offset` bytes begin one, and no more of it does.
    NotText { offset: u64 },
    /// Memory is wanting.
    NoMemory,
}

impl From<Wanting> for ReadError {
    ghost use Rattle.std.specs.Prelude.{◌≡◌};
    ghost use Rattle.mtn_basic_io.specs.declared.error.ReadError.TheVariants.{NoMemory};

    ghost from_gives = { λ _ e. e ≡ NoMemory };

    fn from(_: Wanting) -> Self {
        ReadError::NoMemory
    }
}
