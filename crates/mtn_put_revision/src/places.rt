// Where the parents of a revision stand.
ghost use Rattle.std.specs.Prelude.{◌≡◌, ◌<◌, ◌≤◌, All, length, [], List, ℕ, Some, None, Err, IfOk, IfErr, IfSome, OnOk, ◌+◌};
ghost use Rattle.mtn_replay.specs.Making.{parents_of, place_of as place_in, unknown_parent};
ghost use Rattle.mtn_model.specs.State.{State};
ghost use Rattle.mtn_ports.specs.Causes.{Rose};
ghost use Rattle.mtn_ports.specs.Kept.{Stays, with_all};
ghost use Rattle.mtn_history.specs.Errors.{IfStoreDamage};
ghost use Rattle.mtn_history.specs.Stands.{IsFounded};
ghost use Rattle.mtn_put_revision.specs.Finding.{IsFound, IsRefusal, IsUnknown};

use mtn_ancestry::Pos;
use mtn_base::{Cause, Id};
use mtn_changes::Edge;
use mtn_history::{Draft, HistoryError, StoreError};
use mtn_ports::Keeper;
use std::alloc::Global;

// The position of one parent. `body` is room to read into.
fn place_of<K: Keeper>(
    draft: &mut Draft<'_, K>,
    parent: Id,
    body: &mut Vec<u8>,
) -> Result<Pos, HistoryError>
    ensures same_reference { draft.new.keeper.ghost_name ≡ draft.old.keeper.ghost_name }
    ensures stays { Stays K.contents K.leaves K.faults draft.old.keeper.now draft.new.keeper.now }
    ensures pending { draft.new.pending ≡ draft.old.pending }
    ensures below { IfOk result (λ p. p < draft.old.pending.count) }
    ensures placed { (f : List ℕ → List ℕ) (s : State) → (d : IsFounded f (K.contents draft.new.keeper.now) draft.old.pending s) →
        IfOk result (λ p. place_in d.stands.history parent ≡ Some p) }
    ensures refused { (f : List ℕ → List ℕ) (s : State) → (d : IsFounded f (K.contents draft.new.keeper.now) draft.old.pending s) →
        IfErr result (IsUnknown d.stands.history parent) }
    ensures reads { K.reads draft.new.keeper.now ≤ K.reads draft.old.keeper.now + 1 }
    ensures damaged { IfSome (K.contents draft.new.keeper.now) (λ c. IfErr result (λ e. IfStoreDamage e
        (IsFound (K.contents draft.new.keeper.now) draft.old.pending (with_all c draft.old.pending.batch)))) }
    ensures failed { result ≡ Err (HistoryError.Store StoreError.Failed) → Rose (K.faults draft.old.keeper.now) (K.faults draft.new.keeper.now) }
{
    match draft.placed(parent, body)? {
        Some(at) => Ok(at),
        None => Err(HistoryError::Refused(Cause::UnknownParent { id: parent })),
    }
}

/// The positions of the parents in the order of the edges; UnknownParent for the first that is not held. It asks for one
/// record for each.
pub fn places_of<K: Keeper>(
    alloc: Global,
    draft: &mut Draft<'_, K>,
    edges: &[Edge],
) -> Result<Vec<Pos>, HistoryError>
    ensures same_reference { draft.new.keeper.ghost_name ≡ draft.old.keeper.ghost_name }
    ensures stays { Stays K.contents K.leaves K.faults draft.old.keeper.now draft.new.keeper.now }
    ensures pending { draft.new.pending ≡ draft.old.pending }
    ensures few { IfOk result (λ ps. length ps.items ≤ length edges.now) }
    ensures below { IfOk result (λ ps. All (λ p. p < draft.old.pending.count) ps.items) }
    ensures none { IfOk result (λ ps. ps.items ≡ [] → All (λ e. e.parent ≡ None) edges.now) }
    ensures places { (f : List ℕ → List ℕ) (s : State) → (d : IsFounded f (K.contents draft.new.keeper.now) draft.old.pending s) →
        IfOk result (λ ps. ps.items ≡ parents_of d.stands.history edges.now) }
    ensures known { (f : List ℕ → List ℕ) (s : State) → (d : IsFounded f (K.contents draft.new.keeper.now) draft.old.pending s) →
        OnOk result (unknown_parent d.stands.history edges.now ≡ None) }
    ensures refused { (f : List ℕ → List ℕ) (s : State) → (d : IsFounded f (K.contents draft.new.keeper.now) draft.old.pending s) →
        IfErr result (IsRefusal (unknown_parent d.stands.history edges.now)) }
    ensures reads { K.reads draft.new.keeper.now ≤ K.reads draft.old.keeper.now + length edges.now }
    ensures damaged { IfSome (K.contents draft.new.keeper.now) (λ c. IfErr result (λ e. IfStoreDamage e
        (IsFound (K.contents draft.new.keeper.now) draft.old.pending (with_all c draft.old.pending.batch)))) }
    ensures failed { result ≡ Err (HistoryError.Store StoreError.Failed) → Rose (K.faults draft.old.keeper.now) (K.faults draft.new.keeper.now) }
{
    let mut places = Vec::new(alloc);
    let mut body = Vec::new(alloc);
    for edge in edges {
        if let Some(parent) = edge.parent {
            places.push(place_of(draft, parent, &mut body)?)?;
        }
    }
    Ok(places)
}
