// The call that exports.
ghost use Rattle.std.specs.Prelude.{◌≡◌, List as Seq, ℕ, Err, Contains, IfErr, IfOk, IfSome, Some};
ghost use Rattle.mtn_base.specs.declared.id.Id.{Id as Named};
ghost use Rattle.mtn_branches.specs.Graphs.{IsHeldBy};
ghost use Rattle.mtn_history.specs.Damage.{IsDamage};
ghost use Rattle.mtn_history.specs.Errors.{IfStoreDamage};
ghost use Rattle.mtn_history.specs.Marked.{IsCounted};
ghost use Rattle.mtn_history.specs.Stands.{IsDraft};
ghost use Rattle.mtn_history_laws.specs.History.{Revision};
ghost use Rattle.mtn_model.specs.State.{State};
ghost use Rattle.mtn_model.specs.Table.{Contents};
ghost use Rattle.mtn_ports.specs.Causes.{Rose};
ghost use Rattle.mtn_ports.specs.Kept.{Stays, with_all};
ghost use Rattle.mtn_replay.specs.Graphs.{IsGraphOf};
ghost use Rattle.mtn_replay.specs.Lawful.{IsHistory};
ghost use Rattle.mtn_sending.specs.Sending.{AsksFor, Exports};

use crate::sending::send_all;
use mtn_ancestry::Graph;
use mtn_base::{Bytes, Cause, Id, List};
use mtn_graph_queries::{Query, QueryError, answer};
use mtn_history::{Draft, HistoryError, StoreError};
use mtn_ports::Keeper;
use std::alloc::Global;

// The revisions that are sent, in log order.
fn revisions(alloc: Global, graph: &Graph, id: Id, have: &[Id]) -> Result<List<Id>, HistoryError>
    ensures found { (h : Seq Revision) → IsGraphOf h graph.now → AsksFor h id have.now result }
    ensures known { IfOk result (λ ids. (x : Named) → Contains ids x → IsHeldBy graph.now x) }
    ensures sound { IfErr result (λ e. IfStoreDamage e (λ _. ⊥)) }
    ensures not_failed { result ≡ Err (HistoryError.Store StoreError.Failed) → ⊥ }
{
    let mut without = Vec::with_capacity(alloc, have.len())?;
    without.extend_from_slice(have)?;
    let query = Query::AncestryDifference {
        of: id,
        without: List::from_vec(without),
    };
    match answer(alloc, graph, &query) {
        Ok(ids) => Ok(ids),
        Err(QueryError::Unknown(id)) => Err(HistoryError::Refused(Cause::UnknownRevision { id })),
        Err(QueryError::NoMemory) => Err(HistoryError::Store(StoreError::NoMemory)),
    }
}

/// The text of the packets of a revision and its ancestors, for one who has others and theirs, in log order: each behind the
/// files that it brings and that were not sent, and before its certificates. UnknownRevision with the first of `id` and `have`
/// that the log does not have.
pub fn export<K: Keeper>(
    alloc: Global,
    draft: &mut Draft<'_, K>,
    id: Id,
    have: &[Id],
) -> Result<Bytes, HistoryError>
    ensures same_reference { draft.new.keeper.ghost_name ≡ draft.old.keeper.ghost_name }
    ensures stays { Stays K.contents K.leaves K.faults draft.old.keeper.now draft.new.keeper.now }
    ensures pending { draft.new.pending ≡ draft.old.pending }
    ensures found { (f : Seq ℕ → Seq ℕ) (c : Contents) (s : State) → K.contents draft.new.keeper.now ≡ Some c → IsDraft f c draft.old.pending s
        → (h : Seq Revision) × IsHistory f s.files s.log h × Exports s h id have.now result }
    ensures damaged { IfSome (K.contents draft.new.keeper.now) (λ c. IsCounted draft.old.pending c
        → IfErr result (λ e. IfStoreDamage e (IsDamage (with_all c draft.old.pending.batch)))) }
    ensures failed { result ≡ Err (HistoryError.Store StoreError.Failed) → Rose (K.faults draft.old.keeper.now) (K.faults draft.new.keeper.now) }
{
    let graph = draft.graph()?;
    let ids = revisions(alloc, &graph, id, have)?;
    let mut text = Vec::new(alloc);
    send_all(draft, &graph, ids.as_slice(), &mut text)?;
    Ok(Bytes::from_vec(text))
}
