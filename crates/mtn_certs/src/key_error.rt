// Why a text is no key table.
use mtn_base::NoMemory as Wanting;

/// Why a text is no key table: its offset in bytes where it is no text of stanzas, and otherwise the number, from 1, of the
/// first stanza at fault.
#[derive(Clone, Copy, PartialEq, Eq)]
pub enum KeyTextError {
    NotText { offset: u64 },
    /// It spells nothing that stands in such a text.
    BadStanza { number: u64 },
    /// It may not stand there.
    BadOrder { number: u64 },
    /// An earlier stanza has the same id or the same name.
    Repeated { number: u64 },
    NoMemory,
}

impl From<Wanting> for KeyTextError {
    ghost use Rattle.std.specs.Prelude.{◌≡◌};
    ghost use Rattle.mtn_certs.specs.declared.key_error.KeyTextError.TheVariants.{NoMemory};

    ghost from_gives = { λ _ e. e ≡ NoMemory };

    fn from(_: Wanting) -> Self {
        KeyTextError::NoMemory
    }
}
