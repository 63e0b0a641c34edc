//! Packets that are read.
ghost use Rattle.std.specs.Prelude.{◌≡◌, ℕ, List as Seq, [], Some, Err, IfErr, IfSome};
ghost use Rattle.mtn_history.specs.Meta.{IsMetaOf};
ghost use Rattle.mtn_history.specs.Stands.{IsDraft};
ghost use Rattle.mtn_imports.specs.Imports.{ReadsInput};
ghost use Rattle.mtn_model.specs.State.{State};
ghost use Rattle.mtn_model.specs.Table.{Contents};
ghost use Rattle.mtn_ports.specs.Causes.{Rose};
ghost use Rattle.mtn_ports.specs.Kept.{Stays, with_all};
ghost use Rattle.mtn_reading.specs.Reading.{Comes, IfReadDamage};
ghost use Rattle.mtn_reading.specs.Unfit.{SpoilsReading};

use mtn_history::{Draft, StoreError};
use mtn_ports::{Ident, Keeper};
use mtn_reading::{Counts, ReadError};
use std::alloc::Global;
use std::thread::Threads;

/// As `read`.
pub fn read<R: Threads + Sync, I: Ident, K: Keeper>(
    rt: &R,
    alloc: Global,
    ident: &I,
    draft: &mut Draft<'_, K>,
    text: &[u8],
) -> Result<Counts, ReadError>
    requires bare { draft.old.pending.batch ≡ [] }
    ensures same_reference { draft.new.keeper.ghost_name ≡ draft.old.keeper.ghost_name }
    ensures stays { Stays K.contents K.leaves K.faults draft.old.keeper.now draft.new.keeper.now }
    ensures reads { (c : Contents) (s : State) → K.contents draft.new.keeper.now ≡ Some c → IsDraft (I.meaning ident.now) c draft.old.pending s
        → Comes (ReadsInput (I.meaning ident.now) s text.now) (I.meaning ident.now) c result draft.new.pending }
    ensures damaged { IfSome (K.contents draft.new.keeper.now) (λ c. IsMetaOf (with_all c draft.old.pending.batch) (record { count = draft.old.pending.count; is_new = draft.old.pending.is_new }) →
        IfErr result (λ e. IfReadDamage e (SpoilsReading (I.meaning ident.now) (with_all c draft.old.pending.batch)))) }
    ensures failed { result ≡ Err (ReadError.Store StoreError.Failed) → Rose (K.faults draft.old.keeper.now) (K.faults draft.new.keeper.now) }
{
    mtn_reading::read(rt, alloc, ident, draft, text)
}
