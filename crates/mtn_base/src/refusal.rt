// What a command refuses, and the line that it prints for it.
ghost use Rattle.std.specs.Prelude.{◌≡◌, false, IfOk};
ghost use Rattle.mtn_base.specs.Refusals.{why_name, packet_why_name, field_name, cause_name, shows_text};

use crate::{Bytes, Id, NoMemory, Path};
use std::alloc::Global;

/// Why a change of a changeset fails.
#[derive(Clone, Copy, PartialEq, Eq)]
pub enum Why {
    NoPath,
    Taken,
    NoParent,
    NotDir,
    NotFile,
    NotEmpty,
    WrongContent,
    NoChange,
    NoAttr,
    NoRoot,
    Reserved,
}

/// Why a packet is not read.
#[derive(Clone, Copy, PartialEq, Eq)]
pub enum PacketWhy {
    Truncated,
    Unsupported,
    NotPacket,
    BadBase64,
}

/// A field of a certificate.
#[derive(Clone, Copy, PartialEq, Eq)]
pub enum Field {
    Signature,
    Name,
    Key,
}

/// Why a command is refused, with what its line shows. Lengths and offsets are in bytes, and numbers
/// count from 1.
#[derive(Drop)]
pub enum Cause {
    TextTooLong { length: u64 },
    NotText { offset: u64 },
    BadStanza { number: u64 },
    BadOrder { number: u64 },
    Repeated { number: u64 },
    BadEdge { number: u64 },
    Collision { id: Id },
    LogFull { count: u64 },
    UnknownParent { id: Id },
    BadChange { edge: u64, number: u64, why: Why },
    Disagree { path: Path },
    Revived { path: Path },
    TooManyNodes { count: u64 },
    PathTooLong { path: Path },
    UnknownFile { id: Id },
    ManifestDiffers { computed: Id },
    UnknownRevision { id: Id },
    NoSuchPath { path: Path },
    NotAFile { path: Path },
    Related { older: Id, newer: Id },
    UnknownNode { number: u64 },
    NotADirectory { number: u64 },
    NotAConflict { number: u64 },
    BadField { field: Field },
    NoBranch,
    OneHead { id: Id },
    BadPacket { number: u64, why: PacketWhy },
    IdMismatch { number: u64, computed: Id },
    StoreNotEmpty { count: u64 },
    BadRequest { number: u64 },
    OldStore,
    NotOld,
    KeyNamed { id: Id, held: Bytes },
    UnknownKey { name: Bytes },
}

/// A cause, and the number of the packet that has it; 0 where no packets are read.
#[derive(Drop)]
pub struct Refusal {
    pub packet: u64,
    pub cause: Cause,
}

impl Why {
    /// The reason's printed name.
    pub fn name(self) -> &'static str
        ensures { result.now ≡ why_name self }
    {
        match self {
            Why::NoPath => "NoPath",
            Why::Taken => "Taken",
            Why::NoParent => "NoParent",
            Why::NotDir => "NotDir",
            Why::NotFile => "NotFile",
            Why::NotEmpty => "NotEmpty",
            Why::WrongContent => "WrongContent",
            Why::NoChange => "NoChange",
            Why::NoAttr => "NoAttr",
            Why::NoRoot => "NoRoot",
            Why::Reserved => "Reserved",
        }
    }
}

impl PacketWhy {
    /// The reason's printed name.
    pub fn name(self) -> &'static str
        ensures { result.now ≡ packet_why_name self }
    {
        match self {
            PacketWhy::Truncated => "Truncated",
            PacketWhy::Unsupported => "Unsupported",
            PacketWhy::NotPacket => "NotPacket",
            PacketWhy::BadBase64 => "BadBase64",
        }
    }
}

impl Field {
    /// The field's printed name.
    pub fn name(self) -> &'static str
        ensures { result.now ≡ field_name self }
    {
        match self {
            Field::Signature => "signature",
            Field::Name => "name",
            Field::Key => "key",
        }
    }
}

impl Cause {
    /// The cause's printed name.
    pub fn name(&self) -> &'static str
        ensures { result.now ≡ cause_name self.now }
    {
        match self {
            Cause::TextTooLong { .. } => "TextTooLong",
            Cause::NotText { .. } => "NotText",
            Cause::BadStanza { .. } => "BadStanza",
            Cause::BadOrder { .. } => "BadOrder",
            Cause::Repeated { .. } => "Repeated",
            Cause::BadEdge { .. } => "BadEdge",
            Cause::Collision { .. } => "Collision",
            Cause::LogFull { .. } => "LogFull",
            Cause::UnknownParent { .. } => "UnknownParent",
            Cause::BadChange { .. } => "BadChange",
            Cause::Disagree { .. } => "Disagree",
            Cause::Revived { .. } => "Revived",
            Cause::TooManyNodes { .. } => "TooManyNodes",
            Cause::PathTooLong { .. } => "PathTooLong",
            Cause::UnknownFile { .. } => "UnknownFile",
            Cause::ManifestDiffers { .. } => "ManifestDiffers",
            Cause::UnknownRevision { .. } => "UnknownRevision",
            Cause::NoSuchPath { .. } => "NoSuchPath",
            Cause::NotAFile { .. } => "NotAFile",
            Cause::Related { .. } => "Related",
            Cause::UnknownNode { .. } => "UnknownNode",
            Cause::NotADirectory { .. } => "NotADirectory",
            Cause::NotAConflict { .. } => "NotAConflict",
            Cause::BadField { .. } => "BadField",
            Cause::NoBranch => "NoBranch",
            Cause::OneHead { .. } => "OneHead",
            Cause::BadPacket { .. } => "BadPacket",
            Cause::IdMismatch { .. } => "IdMismatch",
            Cause::StoreNotEmpty { .. } => "StoreNotEmpty",
            Cause::BadRequest { .. } => "BadRequest",
            Cause::OldStore => "OldStore",
            Cause::NotOld => "NotOld",
            Cause::KeyNamed { .. } => "KeyNamed",
            Cause::UnknownKey { .. } => "UnknownKey",
        }
    }

    /// An equal cause.
    pub fn copy(&self, alloc: Global) -> Result<Cause, NoMemory>
        ensures { IfOk result (λ cause. cause ≡ self.now) }
    {
        Ok(match self {
            Cause::Disagree { path } => Cause::Disagree {
                path: path.copy(alloc)?,
            },
            Cause::Revived { path } => Cause::Revived {
                path: path.copy(alloc)?,
            },
            Cause::PathTooLong { path } => Cause::PathTooLong {
                path: path.copy(alloc)?,
            },
            Cause::NoSuchPath { path } => Cause::NoSuchPath {
                path: path.copy(alloc)?,
            },
            Cause::NotAFile { path } => Cause::NotAFile {
                path: path.copy(alloc)?,
            },
            Cause::KeyNamed { id, held } => Cause::KeyNamed {
                id: *id,
                held: held.copy(alloc)?,
            },
            Cause::UnknownKey { name } => Cause::UnknownKey {
                name: name.copy(alloc)?,
            },
            _ => self.copy_fixed(),
        })
    }

    // The same of a cause that shows neither a path nor a name: it takes no memory.
    fn copy_fixed(&self) -> Cause
        requires { shows_text self.now ≡ false }
        ensures { result ≡ self.now }
    {
        match *self {
            Cause::TextTooLong { length } => Cause::TextTooLong { length },
            Cause::NotText { offset } => Cause::NotText { offset },
            Cause::BadStanza { number } => Cause::BadStanza { number },
            Cause::BadOrder { number } => Cause::BadOrder { number },
            Cause::Repeated { number } => Cause::Repeated { number },
            Cause::BadEdge { number } => Cause::BadEdge { number },
            Cause::Collision { id } => Cause::Collision { id },
            Cause::LogFull { count } => Cause::LogFull { count },
            Cause::UnknownParent { id } => Cause::UnknownParent { id },
            Cause::BadChange { edge, number, why } => Cause::BadChange { edge, number, why },
            Cause::TooManyNodes { count } => Cause::TooManyNodes { count },
            Cause::UnknownFile { id } => Cause::UnknownFile { id },
            Cause::ManifestDiffers { computed } => Cause::ManifestDiffers { computed },
            Cause::UnknownRevision { id } => Cause::UnknownRevision { id },
            Cause::Related { older, newer } => Cause::Related { older, newer },
            Cause::UnknownNode { number } => Cause::UnknownNode { number },
            Cause::NotADirectory { number } => Cause::NotADirectory { number },
            Cause::NotAConflict { number } => Cause::NotAConflict { number },
            Cause::BadField { field } => Cause::BadField { field },
            Cause::NoBranch => Cause::NoBranch,
            Cause::OneHead { id } => Cause::OneHead { id },
            Cause::BadPacket { number, why } => Cause::BadPacket { number, why },
            Cause::IdMismatch { number, computed } => Cause::IdMismatch { number, computed },
            Cause::StoreNotEmpty { count } => Cause::StoreNotEmpty { count },
            Cause::BadRequest { number } => Cause::BadRequest { number },
            Cause::OldStore => Cause::OldStore,
            Cause::NotOld => Cause::NotOld,
            _ => unreachable!(),
        }
    }
}

impl Refusal {
    /// An equal refusal.
    pub fn copy(&self, alloc: Global) -> Result<Refusal, NoMemory>
        ensures { IfOk result (λ refusal. refusal ≡ self.now) }
    {
        Ok(Refusal {
            packet: self.packet,
            cause: self.cause.copy(alloc)?,
        })
    }
}
