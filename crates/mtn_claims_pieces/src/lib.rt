//! The promises of `mtn_pieces`, each public call under its own clauses with the call as its body. Nothing here runs.
//!
//! The wrong bodies of `must-fail/` stand in the place of a call, and the prover refuses each. Since the calls themselves
//! meet these clauses, a body that they refuse is no body of the call.
#![tactic(auto)]

ghost use Rattle.std.specs.Prelude.{◌≡◌, List as Seq, IfErr, IfOk, MatchResult, map};
ghost use Rattle.sha1.specs.Sha1.{sha1};
ghost use Rattle.mtn_base.specs.Hex.{id_of};
ghost use Rattle.mtn_packets.specs.Faults.{IsError};
ghost use Rattle.mtn_packets.specs.Packets.{ArePackets};
ghost use Rattle.mtn_packets.specs.declared.packet.Packet.{Packet as P};

use mtn_base::{Id, NoMemory, Text};
use mtn_packets::{Packet, PacketError};
use mtn_pieces::{FreeGate, Gate, Sha1Many};
use mtn_ports::Ident;
use std::alloc::Global;
use std::thread::Threads;

/// As `Sha1Many::ids_of`.
pub fn ids_of<R: Threads + Sync, G: Gate>(
    many: &Sha1Many<G>,
    rt: &R,
    alloc: Global,
    texts: &[Text],
) -> Result<Vec<Id>, NoMemory>
    ensures { IfOk result (λ ids. ids.items ≡ map (λ text. id_of (sha1 text)) texts.now) }
{
    many.ids_of(rt, alloc, texts)
}

/// As `Sha1Many::ids`.
pub fn ids<R: Threads + Sync>(
    many: &Sha1Many<FreeGate>,
    rt: &R,
    alloc: Global,
    texts: &[Text],
) -> Result<Vec<Id>, NoMemory>
    ensures { IfOk result (λ ids. ids.items ≡ map (λ text. id_of (sha1 text)) texts.now) }
{
    many.ids(rt, alloc, texts)
}

/// As `Sha1Many::id`.
pub fn id(many: &Sha1Many<FreeGate>, text: &[u8]) -> Id
    ensures { result.0 ≡ sha1 text.now }
{
    many.id(text)
}

/// As `mtn_pieces::read_in_pieces`.
pub fn read_in_pieces<R: Threads>(
    rt: &R,
    alloc: Global,
    pieces: usize,
    text: &[u8],
) -> Result<Vec<Packet>, PacketError>
    ensures ok { IfOk result (λ v. ArePackets v.items text.now) }
    ensures err { IfErr result (λ e. IsError e text.now) }
    ensures only { (packets : Seq P) → ArePackets packets text.now → MatchResult result (λ v. v.items ≡ packets) (λ e. e ≡ PacketError.NoMemory) }
{
    mtn_pieces::read_in_pieces(rt, alloc, pieces, text)
}
