// A file and a revision of a packet.
ghost use Rattle.std.specs.Prelude.{◌≡◌, ℕ, List as Seq, Some, Err, IfErr, IfOk, IfSome, OnErr};
ghost use Rattle.mtn_history.specs.Damage.{IsDamage};
ghost use Rattle.mtn_history.specs.Errors.{IfStoreDamage};
ghost use Rattle.mtn_history.specs.Meta.{IsMetaOf};
ghost use Rattle.mtn_history.specs.Stands.{IsDraft};
ghost use Rattle.mtn_model.specs.State.{State};
ghost use Rattle.mtn_model.specs.Table.{Contents};
ghost use Rattle.mtn_packets.specs.declared.packet.Packet.{Packet};
ghost use Rattle.mtn_ports.specs.Causes.{Rose};
ghost use Rattle.mtn_ports.specs.Kept.{Stays, with_all};
ghost use Rattle.mtn_reading.specs.Reading.{IsOne, ReadsTo};

use crate::Counts;
use crate::counts::one_where;
use mtn_base::{Bytes, Id};
use mtn_history::{Draft, HistoryError, StoreError};
use mtn_ports::{Ident, Keeper};
use mtn_put_revision::put_revision_as;
use std::alloc::Global;

/// Keeps a copy of a file under the id that it has.
pub fn read_file<K: Keeper>(
    draft: &mut Draft<'_, K>,
    id: Id,
    bytes: &[u8],
) -> Result<Counts, HistoryError>
    ensures same_reference { draft.new.keeper.ghost_name ≡ draft.old.keeper.ghost_name }
    ensures stays { Stays K.contents K.leaves K.faults draft.old.keeper.now draft.new.keeper.now }
    ensures reads { (f : Seq ℕ → Seq ℕ) (c : Contents) (s : State) → K.contents draft.new.keeper.now ≡ Some c → IsDraft f c draft.old.pending s
        → id.0 ≡ f bytes.now → ReadsTo f c s (Packet.File id bytes.now) result draft.new.pending }
    ensures few { IfOk result IsOne }
    ensures err { OnErr result (draft.new.pending ≡ draft.old.pending) }
    ensures sound { IfErr result (λ e. IfStoreDamage e (λ _. ⊥)) }
    ensures failed { result ≡ Err (HistoryError.Store StoreError.Failed) → Rose (K.faults draft.old.keeper.now) (K.faults draft.new.keeper.now) }
{
    let copy = Bytes::from_slice(draft.alloc(), bytes)?;
    let held = draft.has_file(id)?;
    draft.put_file_as(id, copy)?;
    Ok(Counts {
        files: one_where(!held),
        revisions: 0,
        certs: 0,
    })
}

/// Accepts a revision's text under the id that it has.
pub fn read_revision<I: Ident, K: Keeper>(
    alloc: Global,
    ident: &I,
    draft: &mut Draft<'_, K>,
    id: Id,
    text: &[u8],
) -> Result<Counts, HistoryError>
    requires id { id.0 ≡ I.meaning ident.now text.now }
    ensures same_reference { draft.new.keeper.ghost_name ≡ draft.old.keeper.ghost_name }
    ensures stays { Stays K.contents K.leaves K.faults draft.old.keeper.now draft.new.keeper.now }
    ensures reads { (c : Contents) (s : State) → K.contents draft.new.keeper.now ≡ Some c → IsDraft (I.meaning ident.now) c draft.old.pending s
        → ReadsTo (I.meaning ident.now) c s (Packet.Revision id text.now) result draft.new.pending }
    ensures few { IfOk result IsOne }
    ensures err { OnErr result (draft.new.pending ≡ draft.old.pending) }
    ensures damaged { IfSome (K.contents draft.new.keeper.now) (λ c. IsMetaOf (with_all c draft.old.pending.batch) (record { count = draft.old.pending.count; is_new = draft.old.pending.is_new }) →
        IfErr result (λ e. IfStoreDamage e (IsDamage (with_all c draft.old.pending.batch)))) }
    ensures failed { result ≡ Err (HistoryError.Store StoreError.Failed) → Rose (K.faults draft.old.keeper.now) (K.faults draft.new.keeper.now) }
{
    let before = draft.count();
    put_revision_as(alloc, ident, draft, id, text, None)?;
    Ok(Counts {
        files: 0,
        revisions: one_where(draft.count() != before),
        certs: 0,
    })
}
