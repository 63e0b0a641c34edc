//! The revisions that `mtn_put_revision` accepts.
ghost use Rattle.std.specs.Prelude.{◌≡◌, Some, Err, IfErr, IfSome, OnErr};
ghost use Rattle.mtn_history.specs.Damage.{IsDamage};
ghost use Rattle.mtn_history.specs.Errors.{IfStoreDamage};
ghost use Rattle.mtn_history.specs.Meta.{IsMetaOf};
ghost use Rattle.mtn_history.specs.Stands.{IsDraft, IsFounded};
ghost use Rattle.mtn_model.specs.State.{State};
ghost use Rattle.mtn_model.specs.Table.{Contents};
ghost use Rattle.mtn_ports.specs.Causes.{Rose};
ghost use Rattle.mtn_ports.specs.Kept.{Stays, with_all};
ghost use Rattle.mtn_put_revision.specs.Accepting.{AcceptsRevision, KeepsRevision};
ghost use Rattle.mtn_put_revision.specs.Keeping.{IsPlanned};

use mtn_base::Id;
use mtn_history::{Draft, HistoryError, StoreError};
use mtn_ports::{Ident, Keeper};
use mtn_put_revision::{put_revision, put_revision_as};
use mtn_roster::Roster;
use std::alloc::Global;

/// `put_revision`.
pub fn accepted<I: Ident, K: Keeper>(
    alloc: Global,
    ident: &I,
    draft: &mut Draft<'_, K>,
    text: &[u8],
) -> Result<Id, HistoryError>
    ensures same_reference { draft.new.keeper.ghost_name ≡ draft.old.keeper.ghost_name }
    ensures stays { Stays K.contents K.leaves K.faults draft.old.keeper.now draft.new.keeper.now }
    ensures accepts { (c : Contents) (s : State) → K.contents draft.new.keeper.now ≡ Some c → IsDraft (I.meaning ident.now) c draft.old.pending s →
        AcceptsRevision (I.meaning ident.now) c s text.now result draft.new.pending }
    ensures err { OnErr result (draft.new.pending ≡ draft.old.pending) }
    ensures damaged { IfSome (K.contents draft.new.keeper.now) (λ c. IsMetaOf (with_all c draft.old.pending.batch) (record { count = draft.old.pending.count; is_new = draft.old.pending.is_new }) →
        IfErr result (λ e. IfStoreDamage e (IsDamage (with_all c draft.old.pending.batch)))) }
    ensures failed { result ≡ Err (HistoryError.Store StoreError.Failed) → Rose (K.faults draft.old.keeper.now) (K.faults draft.new.keeper.now) }
{
    put_revision(alloc, ident, draft, text)
}

/// `put_revision_as`.
pub fn accepted_as<I: Ident, K: Keeper>(
    alloc: Global,
    ident: &I,
    draft: &mut Draft<'_, K>,
    id: Id,
    text: &[u8],
    tree: Option<Roster>,
) -> Result<(), HistoryError>
    requires id { id.0 ≡ I.meaning ident.now text.now }
    requires planned { (s : State) → (d : IsFounded (I.meaning ident.now) (K.contents draft.old.keeper.now) draft.old.pending s) →
        IfSome tree (λ t. IsPlanned (I.meaning ident.now) s.files d.stands.history text.now t) }
    ensures same_reference { draft.new.keeper.ghost_name ≡ draft.old.keeper.ghost_name }
    ensures stays { Stays K.contents K.leaves K.faults draft.old.keeper.now draft.new.keeper.now }
    ensures accepts { (c : Contents) (s : State) → K.contents draft.new.keeper.now ≡ Some c → IsDraft (I.meaning ident.now) c draft.old.pending s →
        KeepsRevision (I.meaning ident.now) c s text.now result draft.new.pending }
    ensures err { OnErr result (draft.new.pending ≡ draft.old.pending) }
    ensures damaged { IfSome (K.contents draft.new.keeper.now) (λ c. IsMetaOf (with_all c draft.old.pending.batch) (record { count = draft.old.pending.count; is_new = draft.old.pending.is_new }) →
        IfErr result (λ e. IfStoreDamage e (IsDamage (with_all c draft.old.pending.batch)))) }
    ensures failed { result ≡ Err (HistoryError.Store StoreError.Failed) → Rose (K.faults draft.old.keeper.now) (K.faults draft.new.keeper.now) }
{
    put_revision_as(alloc, ident, draft, id, text, tree)
}
