// The parents of a revision.
ghost use Rattle.std.specs.Prelude.{◌≡◌, ◌<◌, List as Seq, ℕ, Contains, Err, IfErr, IfOk, IfSome};
ghost use Rattle.mtn_ancestry.specs.Log.{list_of};
ghost use Rattle.mtn_history.specs.Asking.{OnlyAsks};
ghost use Rattle.mtn_history.specs.Damage.{IsDamage};
ghost use Rattle.mtn_history.specs.Errors.{IfDamage, IfStoreDamage};
ghost use Rattle.mtn_history.specs.Marked.{IsCounted};
ghost use Rattle.mtn_history.specs.Stands.{IsFounded};
ghost use Rattle.mtn_model.specs.State.{State};
ghost use Rattle.mtn_near_queries.specs.Finding.{AreListedAt, AreNamedAt, FindsAnswer};
ghost use Rattle.mtn_ports.specs.Causes.{Rose};
ghost use Rattle.mtn_ports.specs.Kept.{with_all};

use crate::ids::ids_at;
use crate::place::place_of;
use mtn_ancestry::ParentList;
use mtn_base::{Id, List, put_in_order};
use mtn_graph_queries::Query;
use mtn_history::{Draft, HistoryError, StoreError};
use mtn_ports::Keeper;
use std::alloc::Global;

// The ids of the parents that the log's record of a revision has, in its order.
fn parent_ids<K: Keeper>(
    alloc: Global,
    draft: &mut Draft<'_, K>,
    parents: ParentList,
) -> Result<Vec<Id>, StoreError>
    requires below { (at : ℕ) → Contains (list_of parents) at → at < draft.old.pending.count }
    ensures asks { OnlyAsks K.contents K.leaves K.faults K.reads 2 draft.old draft.new }

    ensures found { (f : Seq ℕ → Seq ℕ) (s : State) (d : IsFounded f (K.contents draft.new.keeper.now) draft.old.pending s) → IfOk result (λ ids. AreNamedAt d.stands.history (list_of parents) ids.items) }
    ensures damaged { IfSome (K.contents draft.new.keeper.now) (λ c. IsCounted draft.old.pending c → IfErr result (λ e. IfDamage e (IsDamage (with_all c draft.old.pending.batch)))) }
    ensures failed { result ≡ Err StoreError.Failed → Rose (K.faults draft.old.keeper.now) (K.faults draft.new.keeper.now) }
{
    match parents {
        ParentList::Zero => ids_at(alloc, draft, &[]),
        ParentList::One(p) => ids_at(alloc, draft, &[p]),
        ParentList::Two(p, q) => ids_at(alloc, draft, &[p, q]),
    }
}

// The same by ascending ids.
fn sorted_parents<K: Keeper>(
    alloc: Global,
    draft: &mut Draft<'_, K>,
    parents: ParentList,
) -> Result<List<Id>, StoreError>
    requires below { (at : ℕ) → Contains (list_of parents) at → at < draft.old.pending.count }
    ensures asks { OnlyAsks K.contents K.leaves K.faults K.reads 2 draft.old draft.new }

    ensures found { (f : Seq ℕ → Seq ℕ) (s : State) (d : IsFounded f (K.contents draft.new.keeper.now) draft.old.pending s) → IfOk result (AreListedAt d.stands.history (list_of parents)) }
    ensures damaged { IfSome (K.contents draft.new.keeper.now) (λ c. IsCounted draft.old.pending c → IfErr result (λ e. IfDamage e (IsDamage (with_all c draft.old.pending.batch)))) }
    ensures failed { result ≡ Err StoreError.Failed → Rose (K.faults draft.old.keeper.now) (K.faults draft.new.keeper.now) }
{
    let mut ids = parent_ids(alloc, draft, parents)?;
    put_in_order(&mut ids);
    Ok(List::from_vec(ids))
}

/// The parents of a revision by ascending ids; UnknownRevision where the log has no such id. It asks for the record of the
/// revision's text, for that of the log, and for one of the log for each parent.
pub fn parents_of<K: Keeper>(
    alloc: Global,
    draft: &mut Draft<'_, K>,
    of: Id,
) -> Result<List<Id>, HistoryError>
    ensures asks { OnlyAsks K.contents K.leaves K.faults K.reads 4 draft.old draft.new }

    ensures found { (f : Seq ℕ → Seq ℕ) (s : State) (d : IsFounded f (K.contents draft.new.keeper.now) draft.old.pending s) → FindsAnswer d.stands.history (Query.Parents of) result }
    ensures damaged { IfSome (K.contents draft.new.keeper.now) (λ c. IsCounted draft.old.pending c → IfErr result (λ e. IfStoreDamage e (IsDamage (with_all c draft.old.pending.batch)))) }
    ensures failed { result ≡ Err (HistoryError.Store StoreError.Failed) → Rose (K.faults draft.old.keeper.now) (K.faults draft.new.keeper.now) }
{
    let at = place_of(alloc, draft, of)?;
    let log = draft.log_at(at)?;
    Ok(sorted_parents(alloc, draft, log.parents)?)
}
