// Packets apart from their payloads.
ghost use Rattle.std.specs.Prelude.{IfOk};
ghost use Rattle.mtn_reading.specs.Heads.{Adds, AreHeads};

use mtn_base::{Bytes, Id, List, NoMemory, Text};
use mtn_packets::{Packet, PacketKey};
use std::alloc::Global;

/// A packet whose payload stands at a place among the payloads of all.
#[derive(Drop)]
pub enum Head {
    File { id: Id, place: usize },
    Revision { id: Id, place: usize },
    Cert(CertPacket),
    Passed,
}

/// What the packet of a certificate has.
#[derive(Drop)]
pub struct CertPacket {
    pub revision: Id,
    pub name: Bytes,
    pub key: PacketKey,
    pub value: Bytes,
    pub signature: Bytes,
}

// The head of a packet, whose payload becomes the last.
fn head_of(packet: Packet, payloads: &mut Vec<Text>) -> Result<Head, NoMemory>
    ensures { IfOk result (Adds payloads.old.items payloads.new.items packet) }
{
    let place = payloads.len();
    Ok(match packet {
        Packet::File { id, bytes } => {
            payloads.push(bytes)?;
            Head::File { id, place }
        }
        Packet::Revision { id, text } => {
            payloads.push(text)?;
            Head::Revision { id, place }
        }
        Packet::Cert {
            revision,
            name,
            key,
            value,
            signature,
        } => Head::Cert(CertPacket {
            revision,
            name,
            key,
            value,
            signature,
        }),
        Packet::Passed => Head::Passed,
    })
}

/// The heads of some packets, and the payloads of those that have one. No payload is copied.
pub fn split(alloc: Global, packets: Vec<Packet>) -> Result<(Vec<Head>, Vec<Text>), NoMemory>
    ensures { IfOk result (λ r. AreHeads r.1.items r.0.items packets.items) }
{
    let mut heads = Vec::with_capacity(alloc, packets.len())?;
    let mut payloads = Vec::new(alloc);
    for packet in packets {
        let head = head_of(packet, &mut payloads)?;
        heads.push(head)?;
    }
    Ok((heads, payloads))
}
