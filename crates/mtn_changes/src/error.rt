// Why a text of changes was not read.
ghost use Rattle.std.specs.Prelude.{◌≡◌};
ghost use Rattle.mtn_changes.specs.Faults.{numbered_of, text_fault};

use crate::order::Fault;
use mtn_base::NoMemory as Wanting;
use mtn_basic_io::ReadError;

/// Why a text is no list of changes: its offset in bytes where it is no text of stanzas, and
/// otherwise the number, from 1, of the first stanza at fault.
#[derive(Clone, Copy, PartialEq, Eq)]
pub enum ChangeTextError {
    NotText { offset: u64 },
    /// It spells nothing that stands in such a text.
    BadStanza { number: u64 },
    /// It may not stand there.
    BadOrder { number: u64 },
    /// An earlier stanza of its edge changes the same thing.
    Repeated { number: u64 },
    /// It is the second parent, and does not follow the first.
    BadEdge { number: u64 },
    NoMemory,
}

impl From<Wanting> for ChangeTextError {
    ghost use Rattle.mtn_changes.specs.declared.error.ChangeTextError.TheVariants.{NoMemory};

    ghost from_gives = { λ _ e. e ≡ NoMemory };

    fn from(_: Wanting) -> Self {
        ChangeTextError::NoMemory
    }
}

/// The fault of the stanza of a number.
pub fn numbered(fault: Fault, number: u64) -> ChangeTextError
    ensures { result ≡ numbered_of fault number }
{
    match fault {
        Fault::BadStanza => ChangeTextError::BadStanza { number },
        Fault::BadOrder => ChangeTextError::BadOrder { number },
        Fault::Repeated => ChangeTextError::Repeated { number },
        Fault::BadEdge => ChangeTextError::BadEdge { number },
        Fault::NoMemory => ChangeTextError::NoMemory,
    }
}

/// The fault of a text that is none of stanzas.
pub fn of_text(error: ReadError) -> ChangeTextError
    ensures { result ≡ text_fault error }
{
    match error {
        ReadError::NotText { offset } => ChangeTextError::NotText { offset },
        ReadError::NoMemory => ChangeTextError::NoMemory,
    }
}
