// The call `generate`.
ghost use Rattle.std.specs.Prelude.{◌≡◌, [], Err, IfErr, IfSome, OnErr, Some};
ghost use Rattle.mtn_generating.specs.Generating.{IfGenerateDamage, Sums, TellsGrowth};
ghost use Rattle.mtn_generating.specs.Unfit.{IsShownWith};
ghost use Rattle.mtn_history.specs.Errors.{IfStoreDamage};
ghost use Rattle.mtn_history.specs.Meta.{IsMetaOf};
ghost use Rattle.mtn_history.specs.Stands.{IsDraft};
ghost use Rattle.mtn_model.specs.State.{State};
ghost use Rattle.mtn_model.specs.Table.{Contents};
ghost use Rattle.mtn_ports.specs.Causes.{Rose};
ghost use Rattle.mtn_ports.specs.Kept.{Stays, with_all};
ghost use Rattle.mtn_reading.specs.Unfit.{SpoilsReading};

use crate::GenerateError;
use crate::add::grow;
use crate::shown::told;
use crate::summary::summary;
use mtn_base::{Bytes, Cause};
use mtn_generated_laws::merges_never_conflict;
use mtn_history::{Draft, HistoryError, StoreError};
use mtn_ports::{Ident, Keeper};
use std::alloc::Global;

// The same, where an error may leave some of it pending.
fn generated<I: Ident, K: Keeper>(
    alloc: Global,
    ident: &I,
    count: u64,
    draft: &mut Draft<'_, K>,
) -> Result<Bytes, GenerateError>
    ensures same_reference { draft.new.keeper.ghost_name ≡ draft.old.keeper.ghost_name }
    ensures stays { Stays K.contents K.leaves K.faults draft.old.keeper.now draft.new.keeper.now }
    ensures generates { (c : Contents) (s : State) → K.contents draft.new.keeper.now ≡ Some c → IsDraft (I.meaning ident.now) c draft.old.pending s →
        Sums (I.meaning ident.now) c s count result draft.new.pending }
    ensures damaged { IfSome (K.contents draft.new.keeper.now) (λ c. IfErr result (λ e. IfGenerateDamage e (IsShownWith c))) }
    ensures failed { result ≡ Err (GenerateError.Failed (HistoryError.Store StoreError.Failed)) → Rose (K.faults draft.old.keeper.now) (K.faults draft.new.keeper.now) }
{
    let before = draft.count();
    if before > 0 {
        let cause = Cause::StoreNotEmpty { count: before };
        return Err(GenerateError::Failed(HistoryError::Refused(cause)));
    }
    match grow(alloc, ident, draft, count) {
        Ok(tips) => Ok(summary(alloc, count, tips.last)?),
        Err(error) => Err(error),
    }
}

/// Puts the revisions 1 to `count` of the generated history, with their files, and answers their summary. It is refused as
/// StoreNotEmpty where the log has a revision, and else by the first refusal of a file or a revision; no merge of a state's has
/// conflicts. Any error leaves what is pending as it was. The draft is one that has nothing pending.
pub fn generate<I: Ident, K: Keeper>(
    alloc: Global,
    ident: &I,
    count: u64,
    draft: &mut Draft<'_, K>,
) -> Result<Bytes, HistoryError>
    requires bare { draft.old.pending.batch ≡ [] }
    ensures same_reference { draft.new.keeper.ghost_name ≡ draft.old.keeper.ghost_name }
    ensures stays { Stays K.contents K.leaves K.faults draft.old.keeper.now draft.new.keeper.now }
    ensures generates { (c : Contents) (s : State) → K.contents draft.new.keeper.now ≡ Some c → IsDraft (I.meaning ident.now) c draft.old.pending s →
        TellsGrowth (I.meaning ident.now) c s count result draft.new.pending }
    ensures err { OnErr result (draft.new.pending ≡ draft.old.pending) }
    ensures damaged { IfSome (K.contents draft.new.keeper.now) (λ c. IsMetaOf (with_all c draft.old.pending.batch) (record { count = draft.old.pending.count; is_new = draft.old.pending.is_new }) →
        IfErr result (λ e. IfStoreDamage e (SpoilsReading (I.meaning ident.now) (with_all c draft.old.pending.batch)))) }
    ensures failed { result ≡ Err (HistoryError.Store StoreError.Failed) → Rose (K.faults draft.old.keeper.now) (K.faults draft.new.keeper.now) }
{
    merges_never_conflict();
    let pending = draft.nothing_pending();
    match generated(alloc, ident, count, draft) {
        Ok(text) => Ok(text),
        Err(error) => {
            draft.restore(pending);
            Err(told(draft, error))
        }
    }
}
