//! The promises of `mtn_packets`, each public call under its own clauses with the call as its body. Nothing here runs.
//!
//! The wrong bodies of `must-fail/` stand in the place of a call, and the prover refuses each. Since the calls themselves
//! meet these clauses, a body that they refuse is no body of the call.
#![tactic(auto)]

ghost use Rattle.std.specs.Prelude.{◌≡◌, ◌++◌, ◌↔◌, List as Seq, IfErr, IfOk, IsTrue, MatchResult, OnErr, OnOk};
ghost use Rattle.std.specs.List.{All};
ghost use Rattle.mtn_packets.specs.Faults.{IsError};
ghost use Rattle.mtn_packets.specs.Packets.{ArePackets};
ghost use Rattle.mtn_packets.specs.Printed.{IsOfBytes, IsWritable, printed};
ghost use Rattle.mtn_packets.specs.declared.packet.Packet.{Packet as P};

use mtn_base::NoMemory;
use mtn_packets::{Packet, PacketError};
use std::alloc::Global;

/// As `mtn_packets::read_all`.
pub fn read_all(alloc: Global, text: &[u8]) -> Result<Vec<Packet>, PacketError>
    ensures ok { IfOk result (λ v. ArePackets v.items text.now) }
    ensures err { IfErr result (λ e. IsError e text.now) }
    ensures only { (packets : Seq P) → ArePackets packets text.now → MatchResult result (λ v. v.items ≡ packets) (λ e. e ≡ PacketError.NoMemory) }
{
    mtn_packets::read_all(alloc, text)
}

/// As `mtn_packets::is_writable`.
pub fn is_writable(packet: &Packet) -> bool
    ensures { IsTrue result ↔ IsWritable packet.now }
{
    mtn_packets::is_writable(packet)
}

/// As `mtn_packets::write`.
pub fn write(packet: &Packet, out: &mut Vec<u8>) -> Result<(), NoMemory>
    requires { IsWritable packet.now }
    ensures ok { OnOk result (out.new.items ≡ out.old.items ++ printed packet.now) }
    ensures err { OnErr result (out.new.items ≡ out.old.items) }
    ensures lawful { OnOk result (IsOfBytes packet.now) }
{
    mtn_packets::write(packet, out)
}

/// As `mtn_packets::read_back`.
pub fn read_back(alloc: Global, packets: &[Packet]) -> Result<Vec<Packet>, PacketError>
    requires { All IsWritable packets.now }
    ensures same { IfOk result (λ v. v.items ≡ packets.now) }
    ensures memory { IfErr result (λ e. e ≡ PacketError.NoMemory) }
{
    mtn_packets::read_back(alloc, packets)
}
