// Why resolutions were refused.
use mtn_base::NoMemory as Wanting;

/// Why a text is none of resolutions: its offset in bytes where it is no text of stanzas, and otherwise the
/// number, from 1, of the first stanza at fault.
#[derive(Clone, Copy, PartialEq, Eq)]
pub enum ResolveTextError {
    NotText { offset: u64 },
    /// It spells nothing that stands in such a text.
    BadStanza { number: u64 },
    /// It may not stand there.
    BadOrder { number: u64 },
    /// An earlier stanza speaks of the same.
    Repeated { number: u64 },
    NoMemory,
}

impl From<Wanting> for ResolveTextError {
    ghost use Rattle.std.specs.Prelude.{◌≡◌};
    ghost use Rattle.mtn_resolve.specs.declared.error.ResolveTextError.TheVariants.{NoMemory};

    ghost from_gives = { λ _ e. e ≡ NoMemory };

    fn from(_: Wanting) -> Self {
        ResolveTextError::NoMemory
    }
}

/// Why resolutions do not fit decisions: the stanza's number of the first that does not.
#[derive(Clone, Copy, PartialEq, Eq)]
pub enum OverrideError {
    /// It names a node that is neither live nor pending, or hangs one below a node that does not live.
    UnknownNode { number: u64 },
    /// It hangs a node below a file, or gives the root slot to one.
    NotADirectory { number: u64 },
    NotAConflict { number: u64 },
    NoMemory,
}

impl From<Wanting> for OverrideError {
    ghost use Rattle.std.specs.Prelude.{◌≡◌};
    ghost use Rattle.mtn_resolve.specs.declared.error.OverrideError.TheVariants.{NoMemory};

    ghost from_gives = { λ _ e. e ≡ NoMemory };

    fn from(_: Wanting) -> Self {
        OverrideError::NoMemory
    }
}
