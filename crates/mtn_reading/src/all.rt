// Packets, one after the other.
ghost use Rattle.std.specs.Prelude.{◌≡◌, ◌+◌, ◌<◌, ◌^◌, [], All, Some, Err, IfErr, IfSome, length};
ghost use Rattle.mtn_history.specs.Meta.{IsMetaOf};
ghost use Rattle.mtn_history.specs.Stands.{IsDraft};
ghost use Rattle.mtn_imports.specs.Imports.{ReadsFrom, with_more};
ghost use Rattle.mtn_model.specs.State.{State};
ghost use Rattle.mtn_model.specs.Table.{Contents};
ghost use Rattle.mtn_ports.specs.Causes.{Rose};
ghost use Rattle.mtn_ports.specs.Kept.{Stays, with_all};
ghost use Rattle.mtn_reading.specs.Heads.{IsWithin, packets_at};
ghost use Rattle.mtn_reading.specs.Reading.{Comes, IfReadDamage, IsNumbered, IsOne, IsReadyHead, kept_of};
ghost use Rattle.mtn_reading.specs.Unfit.{SpoilsReading};

use crate::head::Head;
use crate::one::read_one;
use crate::unfit::kept_error;
use crate::{Counts, ReadError};
use mtn_base::{Refusal, Text};
use mtn_history::{Draft, HistoryError, StoreError};
use mtn_ports::{Ident, Keeper};
use std::alloc::Global;

// An error with the number of its packet.
fn numbered(packet: u64, error: HistoryError) -> ReadError
    ensures { IsNumbered packet error result }
{
    match error {
        HistoryError::Refused(cause) => ReadError::Refused(Refusal { packet, cause }),
        HistoryError::Store(error) => ReadError::Store(error),
    }
}

// Both counts together.
fn add(counts: &mut Counts, one: Counts)
    requires few { IsOne one }
    requires files { counts.old.files + 1 < 2 ^ 64 }
    requires revisions { counts.old.revisions + 1 < 2 ^ 64 }
    requires certs { counts.old.certs + 1 < 2 ^ 64 }
    ensures { kept_of counts.new ≡ with_more (kept_of counts.old) (kept_of one) }
{
    counts.files += one.files;
    counts.revisions += one.revisions;
    counts.certs += one.certs;
}

/// Reads packets into a draft in their order, and counts what was not held before. The first refusal has its packet's number,
/// from 1. An error leaves what the packets before it kept. A damage behind the first packet is shown by a record of the store
/// alone, which has none of what the packets before put: its records stand for no state.
pub fn read_heads<I: Ident, K: Keeper>(
    alloc: Global,
    ident: &I,
    draft: &mut Draft<'_, K>,
    heads: &[Head],
    payloads: &[Text],
) -> Result<Counts, ReadError>
    requires within { All (IsWithin (length payloads.now)) heads.now }
    requires ready { All (IsReadyHead (I.meaning ident.now) payloads.now) heads.now }
    requires bare { draft.old.pending.batch ≡ [] }
    ensures same_reference { draft.new.keeper.ghost_name ≡ draft.old.keeper.ghost_name }
    ensures stays { Stays K.contents K.leaves K.faults draft.old.keeper.now draft.new.keeper.now }
    ensures reads { (c : Contents) (s : State) → K.contents draft.new.keeper.now ≡ Some c → IsDraft (I.meaning ident.now) c draft.old.pending s
        → Comes (ReadsFrom (I.meaning ident.now) 1 s (packets_at payloads.now heads.now)) (I.meaning ident.now) c result draft.new.pending }
    ensures damaged { IfSome (K.contents draft.new.keeper.now) (λ c. IsMetaOf (with_all c draft.old.pending.batch) (record { count = draft.old.pending.count; is_new = draft.old.pending.is_new }) →
        IfErr result (λ e. IfReadDamage e (SpoilsReading (I.meaning ident.now) (with_all c draft.old.pending.batch)))) }
    ensures failed { result ≡ Err (ReadError.Store StoreError.Failed) → Rose (K.faults draft.old.keeper.now) (K.faults draft.new.keeper.now) }
{
    let mut counts = Counts::NONE;
    let mut number = 0;
    for head in heads {
        number += 1;
        match read_one(alloc, ident, draft, head, payloads) {
            Ok(one) => add(&mut counts, one),
            Err(error) => {
                if number == 1 {
                    return Err(numbered(number, error));
                }
                return Err(numbered(number, kept_error(draft, error)));
            }
        }
    }
    Ok(counts)
}
