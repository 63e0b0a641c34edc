// What holds of all inputs.
ghost use Rattle.std.specs.Prelude.{◌≡◌, ℕ, List as Seq, IfOk, IfErr};
ghost use Rattle.std.specs.List.{All, flat_map};
ghost use Rattle.mtn_base.specs.declared.refusal.PacketWhy.{PacketWhy as Why};
ghost use Rattle.mtn_packets.specs.declared.packet.Packet.{Packet as P};
ghost use Rattle.mtn_packets.specs.Packets.{ArePackets};
ghost use Rattle.mtn_packets.specs.Faults.{FailsAt};
ghost use Rattle.mtn_packets.specs.Printed.{printed, IsWritable, IsOfBytes};

use crate::{Packet, PacketError, read_all, write};
use std::alloc::Global;

/// An input is one list of packets at most.
pub fn one_list()
    ensures { (a b : Seq P) (text : Seq ℕ) → ArePackets a text → ArePackets b text → a ≡ b }
{}

/// An input that is no list of packets fails at one packet, by one fault; one that is fails nowhere.
pub fn one_fault()
    ensures one { (text : Seq ℕ) (n m : ℕ) (v w : Why) → FailsAt text n v → FailsAt text m w → (n ≡ m) × (v ≡ w) }
    ensures apart { (packets : Seq P) (text : Seq ℕ) (n : ℕ) (w : Why) → ArePackets packets text → FailsAt text n w → ⊥ }
{}

/// Packets that are printed one after the other are read as those packets.
pub fn printed_in_a_row()
    ensures { (packets : Seq P) → All IsWritable packets → All IsOfBytes packets → ArePackets packets (flat_map printed packets) }
{}

/// What is written is read back: a copy of the packets, made by way of their text.
pub fn read_back(alloc: Global, packets: &[Packet]) -> Result<Vec<Packet>, PacketError>
    requires { All IsWritable packets.now }
    ensures same { IfOk result (λ v. v.items ≡ packets.now) }
    ensures memory { IfErr result (λ e. e ≡ PacketError.NoMemory) }
{
    let mut text = Vec::new(alloc);
    for packet in packets {
        write(packet, &mut text)?;
    }
    read_all(alloc, text.as_slice())
}
