// Packets made of fields.
use crate::inputs::put_written;
use crate::said::Said;
use crate::words::number;
use mtn_base::{Bytes, Id};
use mtn_packets::{Packet, PacketKey, is_writable, read_back, write};
use std::alloc::Global;

fn copy(alloc: Global, bytes: &Bytes) -> Option<Bytes> {
    bytes.copy(alloc).ok()
}

fn key_of(alloc: Global, kind: &Bytes, text: &Bytes) -> Option<PacketKey> {
    match str::from_utf8(kind.as_slice()).ok()? {
        "id" => Some(PacketKey::Id(Id::read_hex(text.as_slice())?)),
        "name" => Some(PacketKey::Name(copy(alloc, text)?)),
        _ => None,
    }
}

// A certificate with a copy of a value and of a signature.
fn signed(
    alloc: Global,
    revision: Id,
    name: Bytes,
    key: PacketKey,
    value: &Bytes,
    signature: &Bytes,
) -> Option<Packet> {
    let value = copy(alloc, value)?;
    let signature = copy(alloc, signature)?;
    Some(Packet::Cert {
        revision,
        name,
        key,
        value,
        signature,
    })
}

fn cert(alloc: Global, args: &[Bytes]) -> Option<Packet> {
    let [revision, name, kind, key, value, signature] = args else {
        return None;
    };
    let revision = Id::read_hex(revision.as_slice())?;
    let name = copy(alloc, name)?;
    signed(
        alloc,
        revision,
        name,
        key_of(alloc, kind, key)?,
        value,
        signature,
    )
}

fn payload(alloc: Global, args: &[Bytes]) -> Option<(Id, Bytes)> {
    let [id, bytes] = args else {
        return None;
    };
    Some((Id::read_hex(id.as_slice())?, copy(alloc, bytes)?))
}

fn file(alloc: Global, args: &[Bytes]) -> Option<Packet> {
    let (id, bytes) = payload(alloc, args)?;
    Some(Packet::File { id, bytes })
}

fn revision(alloc: Global, args: &[Bytes]) -> Option<Packet> {
    let (id, text) = payload(alloc, args)?;
    Some(Packet::Revision { id, text })
}

fn made(alloc: Global, word: &str, args: &[Bytes]) -> Option<Packet> {
    match word {
        "file" => file(alloc, args),
        "revision" => revision(alloc, args),
        "cert" => cert(alloc, args),
        "passed" => Some(Packet::Passed),
        _ => None,
    }
}

fn repeated(alloc: Global, byte: u8, count: u64) -> Option<Bytes> {
    let mut bytes = Vec::new(alloc);
    bytes.resize(usize::try_from(count).ok()?, byte).ok()?;
    Some(Bytes::from_vec(bytes))
}

// A file of so many bytes `a`.
fn long_file(alloc: Global, id: Id, count: u64) -> Option<Packet> {
    Some(Packet::File {
        id,
        bytes: repeated(alloc, b'a', count)?,
    })
}

// A certificate with a value of so many bytes `a`.
fn long_cert(alloc: Global, id: Id, count: u64) -> Option<Packet> {
    Some(Packet::Cert {
        revision: id,
        name: repeated(alloc, b'n', 1)?,
        key: PacketKey::Id(id),
        value: repeated(alloc, b'a', count)?,
        signature: repeated(alloc, b's', count)?,
    })
}

fn long_pair(alloc: Global, id: Id, count: u64) -> Option<[Packet; 2]> {
    let file = long_file(alloc, id, count)?;
    Some([file, long_cert(alloc, id, count)?])
}

// Two packets written, read back, and written; nothing where one has no printed form.
fn put_again(alloc: Global, packets: &[Packet; 2], said: &mut Said) -> Option<()> {
    let [file, cert] = packets;
    if !is_writable(file) || !is_writable(cert) {
        return None;
    }
    put_written(&read_back(alloc, packets).ok()?, said);
    Some(())
}

// A file and a certificate of so many bytes.
fn twice(alloc: Global, args: &[Bytes], said: &mut Said) -> Option<()> {
    let [count] = args else {
        return None;
    };
    let count = number(count.as_slice())?;
    put_again(alloc, &long_pair(alloc, Id([255; 20]), count)?, said)
}

fn put_made(packet: &Packet, said: &mut Said) {
    if is_writable(packet) {
        let done = write(packet, &mut said.text);
        said.keep(done);
    } else {
        said.put(b"no");
    }
}

/// `file ID BYTES`, `revision ID BYTES`, `cert REVISION NAME KIND KEY VALUE SIGNATURE` with the kind `id` or `name`, `passed`: the
/// printed form, or `no` where there is none. `long N`: a file and a certificate of so many bytes, read back.
pub fn answer(alloc: Global, word: &str, args: &[Bytes], said: &mut Said) -> Option<()> {
    if word == "long" {
        return twice(alloc, args, said);
    }
    put_made(&made(alloc, word, args)?, said);
    Some(())
}
