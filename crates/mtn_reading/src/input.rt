// The call `read`.
ghost use Rattle.std.specs.Prelude.{◌≡◌, ℕ, List as Seq, [], Some, Err, IfErr, IfOk, IfSome, MatchOption, None, All, length};
ghost use Rattle.mtn_history.specs.Meta.{IsMetaOf};
ghost use Rattle.mtn_history.specs.Stands.{IsDraft};
ghost use Rattle.mtn_imports.specs.Imports.{ReadsInput, first_mismatch};
ghost use Rattle.mtn_model.specs.State.{State};
ghost use Rattle.mtn_model.specs.Table.{Contents};
ghost use Rattle.mtn_packets.specs.declared.packet.Packet.{Packet};
ghost use Rattle.mtn_ports.specs.Causes.{Rose};
ghost use Rattle.mtn_ports.specs.Kept.{Stays, with_all};
ghost use Rattle.mtn_reading.specs.Heads.{IsWithin, packets_at};
ghost use Rattle.mtn_reading.specs.Reading.{Comes, IfReadDamage, IsFault};
ghost use Rattle.mtn_reading.specs.Unfit.{SpoilsReading};

use crate::all::read_heads;
use crate::head::{Head, split};
use crate::matched::first_of;
use crate::{Counts, ReadError};
use mtn_base::{Cause, NoMemory, Refusal, Text};
use mtn_history::{Draft, StoreError};
use mtn_packets::{Packet, PacketError};
use mtn_pieces::read_in_pieces;
use mtn_ports::{Ident, Keeper};
use std::alloc::Global;
use std::thread::Threads;

// In how many pieces an input is read.
const PIECES: usize = 4;

// A refusal of all packets together.
fn refused(cause: Cause) -> ReadError
    ensures { result ≡ ReadError.Refused (record { packet = 0; cause = cause }) }
{
    ReadError::Refused(Refusal { packet: 0, cause })
}

// Why an input was not read.
fn unread(error: PacketError) -> ReadError
    ensures { IsFault error result }
{
    match error {
        PacketError::BadPacket { number, why } => refused(Cause::BadPacket { number, why }),
        PacketError::NoMemory => ReadError::Store(StoreError::NoMemory),
    }
}

// The first packet whose id is another than its payload's. Each payload is hashed once, all by one call.
fn mismatch<R: Threads + Sync, I: Ident>(
    rt: &R,
    alloc: Global,
    ident: &I,
    heads: &[Head],
    payloads: &[Text],
) -> Result<Option<Cause>, NoMemory>
    requires { All (IsWithin (length payloads.now)) heads.now }
    ensures { IfOk result (λ cause. cause ≡ first_mismatch (I.meaning ident.now) 1 (packets_at payloads.now heads.now)) }
{
    let ids = ident.ids(rt, alloc, payloads)?;
    Ok(first_of(heads, &ids))
}

/// Reads the packets of an input into a draft, in their order, each as by the command that keeps what it holds, and counts the
/// files, revisions and certificates that were not held before. The first refusal is answered otherwise: BadPacket, with the first
/// bad packet's number, for an input that is no packets; IdMismatch, for the first packet whose id is another than its payload's;
/// and then that of the first packet whose command is refused. Only this last one has its packet's number, from 1, and the others
/// have 0. The input is read in four pieces, and all payloads are hashed by one call, each once; `rt` goes to both. The keeper is
/// only asked. After an error what is pending may have what the packets before it kept: give the draft up. It takes memory for the
/// payloads and for the ids. The draft is one that has nothing pending.
pub fn read<R: Threads + Sync, I: Ident, K: Keeper>(
    rt: &R,
    alloc: Global,
    ident: &I,
    draft: &mut Draft<'_, K>,
    text: &[u8],
) -> Result<Counts, ReadError>
    requires bare { draft.old.pending.batch ≡ [] }
    ensures same_reference { draft.new.keeper.ghost_name ≡ draft.old.keeper.ghost_name }
    ensures stays { Stays K.contents K.leaves K.faults draft.old.keeper.now draft.new.keeper.now }
    ensures reads { (c : Contents) (s : State) → K.contents draft.new.keeper.now ≡ Some c → IsDraft (I.meaning ident.now) c draft.old.pending s
        → Comes (ReadsInput (I.meaning ident.now) s text.now) (I.meaning ident.now) c result draft.new.pending }
    ensures damaged { IfSome (K.contents draft.new.keeper.now) (λ c. IsMetaOf (with_all c draft.old.pending.batch) (record { count = draft.old.pending.count; is_new = draft.old.pending.is_new }) →
        IfErr result (λ e. IfReadDamage e (SpoilsReading (I.meaning ident.now) (with_all c draft.old.pending.batch)))) }
    ensures failed { result ≡ Err (ReadError.Store StoreError.Failed) → Rose (K.faults draft.old.keeper.now) (K.faults draft.new.keeper.now) }
{
    let packets = match read_in_pieces(rt, alloc, PIECES, text) {
        Ok(packets) => packets,
        Err(error) => return Err(unread(error)),
    };
    let (heads, payloads) = split(alloc, packets)?;
    if let Some(cause) = mismatch(rt, alloc, ident, &heads, &payloads)? {
        return Err(refused(cause));
    }
    read_heads(alloc, ident, draft, &heads, &payloads)
}
