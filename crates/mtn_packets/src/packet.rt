// What packets hold.
use mtn_base::{Bytes, Id};

/// The key of a certificate, as its packet names it: forty lower-case hexadecimal digits are a
/// key's id, any other field a key's name (our choice; the Monotone manual has both).
#[derive(Drop)]
pub enum PacketKey {
    Id(Id),
    /// 1 to 255 bytes from `!` to `~` without brackets, which are no id.
    Name(Bytes),
}

/// What a packet holds. Nothing here says that an id is its payload's.
#[derive(Drop)]
pub enum Packet {
    /// `[fdata ..]`: a file.
    File {
        id: Id,
        bytes: Bytes,
    },
    /// `[rdata ..]`: the text of a revision.
    Revision {
        id: Id,
        text: Bytes,
    },
    /// `[rcert ..]`: a certificate of a revision. The name is a field as a key's name is.
    Cert {
        revision: Id,
        name: Bytes,
        key: PacketKey,
        value: Bytes,
        signature: Bytes,
    },
    /// `[pubkey ..]`: a public key. It is read and counted, nothing of it is kept, and none is
    /// written.
    Passed,
}
