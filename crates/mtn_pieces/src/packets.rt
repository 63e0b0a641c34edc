// Inputs of packets, each piece read on a thread of its own.
ghost use Rattle.std.specs.Prelude.{◌≡◌, ◌≤◌, ◌++◌, ◌<◌, List as Seq, IfOk, IfErr, IfSome, MatchResult, length, take};
ghost use Rattle.mtn_packets.specs.declared.packet.Packet.{Packet as P};
ghost use Rattle.mtn_packets.specs.Packets.{ArePackets};
ghost use Rattle.mtn_packets.specs.Faults.{IsError};
ghost use Rattle.mtn_pieces.specs.Cuts.{EndsAtMark, FitsBehind, error_behind};

use crate::MAX_PIECES;
use memchr::memmem;
use mtn_base::NoMemory;
use mtn_packets::{Packet, PacketError, read_all};
use std::alloc::Global;
use std::thread::{Threads, join};

// The fewest bytes of an input for each of its pieces: fewer are not worth a thread.
const MIN_PIECE: usize = 16384;

// The place behind the first `[end]` that begins at this place or behind it.
fn behind_end(text: &[u8], from: usize) -> Option<usize>
    requires { from ≤ length text.now }
    ensures { IfSome result (λ at. (at ≤ length text.now) × EndsAtMark (take at text.now)) }
{
    let place = memmem::find(&text[from..], b"[end]".as_slice())?;
    Some(from + place + 5)
}

// The packets of both lists.
fn in_a_row(mut packets: Vec<Packet>, mut more: Vec<Packet>) -> Result<Vec<Packet>, NoMemory>
    ensures { IfOk result (λ v. v.items ≡ packets.items ++ more.items) }
{
    packets.append(&mut more)?;
    Ok(packets)
}

// The error of a text with so many packets in front of it.
fn behind(packets: usize, error: PacketError) -> PacketError
    requires { FitsBehind packets error }
    ensures { result ≡ error_behind packets error }
{
    match error {
        PacketError::BadPacket { number, why } => PacketError::BadPacket {
            number: packets as u64 + number,
            why,
        },
        PacketError::NoMemory => PacketError::NoMemory,
    }
}

// What `read_all` answers, with the text read in at most so many runs. All but the last end with an `[end]`, the first that
// begins where the run has its share of the text or behind. The first runs on another thread and the others from this one, so
// that no thread shares the handle.
fn read_in_runs<R: Threads>(
    rt: &R,
    alloc: Global,
    runs: usize,
    text: &[u8],
) -> Result<Vec<Packet>, PacketError>
    ensures ok { IfOk result (λ v. ArePackets v.items text.now) }
    ensures err { IfErr result (λ e. IsError e text.now) }
{
    if runs < 2 {
        return read_all(alloc, text);
    }
    let Some(at) = behind_end(text, text.len() / runs) else {
        return read_all(alloc, text);
    };
    let (first, others) = text.split_at(at);
    let (packets, rest) = join(
        rt,
        || -> Result<Vec<Packet>, PacketError>
            ensures ok { IfOk result (λ v. ArePackets v.items first.entry.now) }
            ensures err { IfErr result (λ e. IsError e first.entry.now) }
        { read_all(alloc, first) },
        || -> Result<Vec<Packet>, PacketError>
            requires { 1 < runs }
            ensures ok { IfOk result (λ v. ArePackets v.items others.entry.now) }
            ensures err { IfErr result (λ e. IsError e others.entry.now) }
        { read_in_runs(rt, alloc, runs - 1, others) },
    );
    let packets = match packets {
        Ok(packets) => packets,
        Err(error) => return Err(error),
    };
    match rest {
        Ok(more) => Ok(in_a_row(packets, more)?),
        Err(error) => Err(behind(packets.len(), error)),
    }
}

/// What [`mtn_packets::read_all`] answers, with the input read in at most so many pieces on several threads. A number below 1 is
/// taken as 1, one above 64 as 64, and an input has at most one piece for each 16 KiB (our choice). It is cut behind an `[end]`,
/// since each `[end]` ends a packet: behind the first that begins at an equal share of the bytes or later. Each byte is decoded
/// once, and searched and looked at as often as by `read_all`, but for those from a share's end to that `[end]` or to the input's
/// end, which are of one packet: the search for the cut looks at them once more. It takes, beside what it answers, the memory of
/// the longest packet of each piece, and that of the list of packets again while lists are joined.
pub fn read_in_pieces<R: Threads>(
    rt: &R,
    alloc: Global,
    pieces: usize,
    text: &[u8],
) -> Result<Vec<Packet>, PacketError>
    // What is read, the input is.
    ensures ok { IfOk result (λ v. ArePackets v.items text.now) }
    // The first bad packet, with its first fault.
    ensures err { IfErr result (λ e. IsError e text.now) }
    // An input of packets is read so, unless memory is wanting.
    ensures only { (packets : Seq P) → ArePackets packets text.now → MatchResult result (λ v. v.items ≡ packets) (λ e. e ≡ PacketError.NoMemory) }
{
    let runs = pieces.min(MAX_PIECES).min(text.len() / MIN_PIECE);
    read_in_runs(rt, alloc, runs, text)
}
