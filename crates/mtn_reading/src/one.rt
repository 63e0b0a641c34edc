// One packet, read as by its own command.
ghost use Rattle.std.specs.Prelude.{◌≡◌, ℕ, List as Seq, Some, Err, IfErr, IfOk, IfSome, OnErr, length};
ghost use Rattle.mtn_history.specs.Damage.{IsDamage};
ghost use Rattle.mtn_history.specs.Errors.{IfStoreDamage};
ghost use Rattle.mtn_history.specs.Meta.{IsMetaOf};
ghost use Rattle.mtn_history.specs.Stands.{IsDraft};
ghost use Rattle.mtn_model.specs.State.{State};
ghost use Rattle.mtn_model.specs.Table.{Contents};
ghost use Rattle.mtn_ports.specs.Causes.{Rose};
ghost use Rattle.mtn_ports.specs.Kept.{Stays, with_all};
ghost use Rattle.mtn_reading.specs.Heads.{IsWithin, packet_at};
ghost use Rattle.mtn_reading.specs.Reading.{IsOne, IsReadyHead, ReadsTo};

use crate::Counts;
use crate::certs::read_cert;
use crate::head::Head;
use crate::kept::{read_file, read_revision};
use mtn_base::Text;
use mtn_history::{Draft, HistoryError, StoreError};
use mtn_ports::{Ident, Keeper};
use std::alloc::Global;

/// Reads the packet of a head into a draft, as by the command that keeps what it holds.
pub fn read_one<I: Ident, K: Keeper>(
    alloc: Global,
    ident: &I,
    draft: &mut Draft<'_, K>,
    head: &Head,
    payloads: &[Text],
) -> Result<Counts, HistoryError>
    requires within { IsWithin (length payloads.now) head.now }
    requires ready { IsReadyHead (I.meaning ident.now) payloads.now head.now }
    ensures same_reference { draft.new.keeper.ghost_name ≡ draft.old.keeper.ghost_name }
    ensures stays { Stays K.contents K.leaves K.faults draft.old.keeper.now draft.new.keeper.now }
    ensures reads { (c : Contents) (s : State) → K.contents draft.new.keeper.now ≡ Some c → IsDraft (I.meaning ident.now) c draft.old.pending s
        → ReadsTo (I.meaning ident.now) c s (packet_at payloads.now head.now) result draft.new.pending }
    ensures few { IfOk result IsOne }
    ensures err { OnErr result (draft.new.pending ≡ draft.old.pending) }
    ensures damaged { IfSome (K.contents draft.new.keeper.now) (λ c. IsMetaOf (with_all c draft.old.pending.batch) (record { count = draft.old.pending.count; is_new = draft.old.pending.is_new }) →
        IfErr result (λ e. IfStoreDamage e (IsDamage (with_all c draft.old.pending.batch)))) }
    ensures failed { result ≡ Err (HistoryError.Store StoreError.Failed) → Rose (K.faults draft.old.keeper.now) (K.faults draft.new.keeper.now) }
{
    match head {
        Head::File { id, place } => read_file(draft, *id, payloads[*place].as_slice()),
        Head::Revision { id, place } => {
            read_revision(alloc, ident, draft, *id, payloads[*place].as_slice())
        }
        Head::Cert(cert) => read_cert(draft, cert),
        Head::Passed => Ok(Counts::NONE),
    }
}
