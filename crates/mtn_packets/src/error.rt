// Why an input was not read.
use mtn_base::{NoMemory as Wanting, PacketWhy};

/// Why `read_all` gives no packets.
#[derive(Clone, Copy, PartialEq, Eq)]
pub enum PacketError {
    /// The first bad packet, by its number from 1 (a public key counts too), and its first fault, in
    /// the order Truncated, Unsupported, NotPacket, BadBase64 (our choice).
    BadPacket { number: u64, why: PacketWhy },
    /// Memory is wanting.
    NoMemory,
}

impl From<Wanting> for PacketError {
    ghost use Rattle.std.specs.Prelude.{◌≡◌};
    ghost use Rattle.mtn_packets.specs.declared.error.PacketError.TheVariants.{NoMemory};

    ghost from_gives = { λ _ e. e ≡ NoMemory };

    fn from(_: Wanting) -> Self {
        PacketError::NoMemory
    }
}
