// What inputs are read as.
use crate::said::Said;
use mtn_base::Bytes;
use mtn_packets::{Packet, PacketError, PacketKey, is_writable, read_all, write};
use std::alloc::Global;

fn put_key(key: &PacketKey, said: &mut Said) {
    match key {
        PacketKey::Id(id) => {
            said.put(b" id");
            said.put_id(id);
        }
        PacketKey::Name(name) => {
            said.put(b" name");
            said.put_bytes(name.as_slice());
        }
    }
}

// Behind a semicolon what a packet holds.
fn put_packet(packet: &Packet, said: &mut Said) {
    match packet {
        Packet::File { id, bytes } => {
            said.put(b"; file");
            said.put_id(id);
            said.put_bytes(bytes.as_slice());
        }
        Packet::Revision { id, text } => {
            said.put(b"; revision");
            said.put_id(id);
            said.put_bytes(text.as_slice());
        }
        Packet::Cert {
            revision,
            name,
            key,
            value,
            signature,
        } => {
            said.put(b"; cert");
            said.put_id(revision);
            said.put_bytes(name.as_slice());
            put_key(key, said);
            said.put_bytes(value.as_slice());
            said.put_bytes(signature.as_slice());
        }
        Packet::Passed => said.put(b"; passed"),
    }
}

fn put_packets(packets: &[Packet], said: &mut Said) {
    for packet in packets {
        put_packet(packet, said);
    }
}

fn put_error(alloc: Global, error: PacketError, said: &mut Said) {
    match error {
        PacketError::BadPacket { number, why } => {
            said.put(b"bad ");
            said.put_number(alloc, number);
            said.put_bytes(why.name().as_bytes());
        }
        PacketError::NoMemory => said.is_whole = false,
    }
}

/// What an input was read as: the number of packets and what they hold, or the first bad one's number and fault.
pub fn put_read(alloc: Global, read: Result<Vec<Packet>, PacketError>, said: &mut Said) {
    match read {
        Ok(packets) => {
            said.put_number(alloc, packets.len() as u64);
            put_packets(&packets, said);
        }
        Err(error) => put_error(alloc, error, said),
    }
}

/// Writes those that can be written.
pub fn put_written(packets: &[Packet], said: &mut Said) {
    for packet in packets {
        if is_writable(packet) {
            let done = write(packet, &mut said.text);
            said.keep(done);
        }
    }
}

/// `again INPUT`: the printed forms of its packets, which are read, and of what they are read as.
fn again(alloc: Global, text: &[u8], said: &mut Said) -> Option<()> {
    put_written(&read_all(alloc, text).ok()?, said);
    Some(())
}

// The number of packets of a text, or the first bad one's number and fault.
fn count_of(alloc: Global, text: &[u8]) -> Bytes {
    let mut said = Said::new(alloc);
    match read_all(alloc, text) {
        Ok(packets) => said.put_number(alloc, packets.len() as u64),
        Err(error) => put_error(alloc, error, &mut said),
    }
    Bytes::from_vec(said.text)
}

// So many cuts, and what each is read as.
fn put_run(alloc: Global, count: u64, read_as: &Bytes, said: &mut Said) {
    if 0 < count {
        said.put_number(alloc, count);
        said.put_bytes(read_as.as_slice());
        said.put(b"; ");
    }
}

/// `cuts INPUT`: what the input is read as when it is cut off before each of its bytes, and whole: the
/// number of cuts in a row that are read as so many packets, or have the same bad packet.
fn cuts(alloc: Global, text: &[u8], said: &mut Said) {
    let mut before = Bytes::new(alloc);
    let mut count = 0u64;
    for at in 0..text.len() + 1 {
        let now = count_of(alloc, &text[..at]);
        if before.as_slice() != now.as_slice() {
            put_run(alloc, count, &before, said);
            before = now;
            count = 0;
        }
        count = count.saturating_add(1);
    }
    put_run(alloc, count, &before, said);
}

/// `read INPUT`: what it is read as; `again INPUT`, `cuts INPUT`.
pub fn answer(alloc: Global, word: &str, text: &[u8], said: &mut Said) -> Option<()> {
    match word {
        "read" => put_read(alloc, read_all(alloc, text), said),
        "cuts" => cuts(alloc, text, said),
        _ => return again(alloc, text, said),
    }
    Some(())
}
