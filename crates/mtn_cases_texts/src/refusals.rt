// Lines of refusals.
use crate::fields::number;
use crate::said::Said;
use mtn_base::{Bytes, Cause, Field, Id, PacketWhy, Path, Refusal, Why};
use std::alloc::Global;

fn of_numbers(name: &str, first: u64, second: u64) -> Option<Cause> {
    match name {
        "TextTooLong" => Some(Cause::TextTooLong { length: first }),
        "BadChange" => Some(Cause::BadChange {
            edge: first,
            number: second,
            why: Why::NoParent,
        }),
        "BadPacket" => Some(Cause::BadPacket {
            number: first,
            why: PacketWhy::Truncated,
        }),
        _ => None,
    }
}

fn of_ids(name: &str, first: Id, second: Id) -> Option<Cause> {
    match name {
        "Collision" => Some(Cause::Collision { id: first }),
        "UnknownParent" => Some(Cause::UnknownParent { id: first }),
        "Related" => Some(Cause::Related {
            older: first,
            newer: second,
        }),
        "IdMismatch" => Some(Cause::IdMismatch {
            number: 1,
            computed: first,
        }),
        _ => None,
    }
}

fn of_words(alloc: Global, name: &str, text: &[u8]) -> Option<Cause> {
    match name {
        "PathTooLong" => Some(Cause::PathTooLong {
            path: Path::read(alloc, text).ok()?,
        }),
        "BadField" => Some(Cause::BadField {
            field: Field::Signature,
        }),
        "NoBranch" => Some(Cause::NoBranch),
        _ => None,
    }
}

// Digits are ids, other texts numbers or words.
fn cause(alloc: Global, name: &str, first: &[u8], second: &[u8]) -> Option<Cause> {
    if let Some(id) = Id::read_hex(first) {
        return of_ids(name, id, Id::read_hex(second)?);
    }
    if let Some(count) = number(first) {
        return of_numbers(name, count, number(second)?);
    }
    of_words(alloc, name, first)
}

fn put_refusal(packet: u64, cause: Cause, said: &mut Said) {
    let done = Refusal { packet, cause }.print(&mut said.text);
    said.keep(done);
}

/// `refused PACKET CAUSE FIRST SECOND`: the line of the refusal.
pub fn refused(alloc: Global, args: &[Bytes], said: &mut Said) -> Option<()> {
    let [packet, name, first, second] = args else {
        return None;
    };
    let packet = number(packet.as_slice())?;
    let name = str::from_utf8(name.as_slice()).ok()?;
    let cause = cause(alloc, name, first.as_slice(), second.as_slice())?;
    put_refusal(packet, cause, said);
    Some(())
}
