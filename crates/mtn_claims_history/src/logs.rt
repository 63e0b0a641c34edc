//! The log of a draft: its texts, its records and its graph.
ghost use Rattle.std.specs.Prelude.{◌≡◌, ◌<◌, ◌≤◌, ◌+◌, List, ℕ, Some, Err, drop, IfOk, IfErr, IfSome};
ghost use Rattle.mtn_replay.specs.Graphs.{IsGraphOf};
ghost use Rattle.mtn_model.specs.State.{State};
ghost use Rattle.mtn_model.specs.Table.{Contents};
ghost use Rattle.mtn_ports.specs.Causes.{Rose};
ghost use Rattle.mtn_ports.specs.Kept.{Stays, with_all};
ghost use Rattle.mtn_records.specs.Bounds.{IsLogWithin};
ghost use Rattle.mtn_history.specs.Asking.{OnlyAsks};
ghost use Rattle.mtn_history.specs.Errors.{IfDamage, IfStoreDamage};
ghost use Rattle.mtn_history.specs.Logs.{IsLogged, IsLogOf, IsReadTo, UnloggedAt, WrongBelow};
ghost use Rattle.mtn_history.specs.Places.{IsFoundAt, IsPlaced, UnplacedBelow};
ghost use Rattle.mtn_history.specs.Stands.{IsDraft, IsFounded};
ghost use Rattle.mtn_history.specs.Texts.{FindsText, TextDamage};

use mtn_ancestry::{Graph, Pos};
use mtn_base::Id;
use mtn_history::{Draft, HistoryError, StoreError};
use mtn_ports::Keeper;
use mtn_records::LogRecord;

/// `Draft::text_of`.
pub fn text_of<K: Keeper>(
    draft: &mut Draft<'_, K>,
    id: Id,
    out: &mut Vec<u8>,
) -> Result<(), HistoryError>
    ensures asks { OnlyAsks K.contents K.leaves K.faults K.reads 1 draft.old draft.new }
    ensures finds { (f : List ℕ → List ℕ) (c : Contents) (s : State) → K.contents draft.new.keeper.now ≡ Some c → IsDraft f c draft.old.pending s
        → FindsText s id result out.new.items }
    ensures damaged { IfSome (K.contents draft.new.keeper.now) (λ c. IfErr result (λ e. IfStoreDamage e (TextDamage (with_all c draft.old.pending.batch)))) }
    ensures failed { result ≡ Err (HistoryError.Store StoreError.Failed) → Rose (K.faults draft.old.keeper.now) (K.faults draft.new.keeper.now) }
{
    draft.text_of(id, out)
}

/// `Draft::placed`.
pub fn placed<K: Keeper>(
    draft: &mut Draft<'_, K>,
    id: Id,
    body: &mut Vec<u8>,
) -> Result<Option<Pos>, StoreError>
    ensures asks { OnlyAsks K.contents K.leaves K.faults K.reads 1 draft.old draft.new }
    ensures found { (f : List ℕ → List ℕ) (s : State) (d : IsFounded f (K.contents draft.new.keeper.now) draft.old.pending s) → IfOk result (λ at. IsFoundAt s d.stands.history id at (drop 8 body.new.items)) }
    ensures read { IfSome (K.contents draft.new.keeper.now) (λ c. IfOk result (λ at. IsPlaced (with_all c draft.old.pending.batch) draft.old.pending.count id at (drop 8 body.new.items))) }
    ensures below { IfOk result (λ at. IfSome at (λ p. p < draft.old.pending.count)) }
    ensures damaged { IfSome (K.contents draft.new.keeper.now) (λ c. IfErr result (λ e. IfDamage e (UnplacedBelow draft.old.pending.count (with_all c draft.old.pending.batch)))) }
    ensures failed { result ≡ Err StoreError.Failed → Rose (K.faults draft.old.keeper.now) (K.faults draft.new.keeper.now) }
{
    draft.placed(id, body)
}

/// `Draft::log_at`.
pub fn log_at<K: Keeper>(draft: &mut Draft<'_, K>, at: Pos) -> Result<LogRecord, StoreError>
    ensures asks { OnlyAsks K.contents K.leaves K.faults K.reads 1 draft.old draft.new }
    ensures read { IfSome (K.contents draft.new.keeper.now) (λ c. IfOk result (IsLogged (with_all c draft.old.pending.batch) at)) }
    ensures found { (f : List ℕ → List ℕ) (s : State) (d : IsFounded f (K.contents draft.new.keeper.now) draft.old.pending s) → at < draft.old.pending.count → IfOk result (IsLogOf d.stands.history d.stands.kept at) }
    ensures below { IfOk result (IsLogWithin at) }
    ensures damaged { IfSome (K.contents draft.new.keeper.now) (λ c. IfErr result (λ e. IfDamage e (UnloggedAt (with_all c draft.old.pending.batch) at))) }
    ensures failed { result ≡ Err StoreError.Failed → Rose (K.faults draft.old.keeper.now) (K.faults draft.new.keeper.now) }
{
    draft.log_at(at)
}

/// `Draft::graph`.
pub fn graph<K: Keeper>(draft: &mut Draft<'_, K>) -> Result<Graph, StoreError>
    ensures asks { OnlyAsks K.contents K.leaves K.faults K.reads (draft.old.pending.count + 1) draft.old draft.new }
    ensures read { IfSome (K.contents draft.new.keeper.now) (λ c. IfOk result (IsReadTo (with_all c draft.old.pending.batch) draft.old.pending.count)) }
    ensures found { (f : List ℕ → List ℕ) (s : State) (d : IsFounded f (K.contents draft.new.keeper.now) draft.old.pending s) → IfOk result (IsGraphOf d.stands.history) }
    ensures damaged { IfSome (K.contents draft.new.keeper.now) (λ c. IfErr result (λ e. IfDamage e (WrongBelow draft.old.pending.count (with_all c draft.old.pending.batch)))) }
    ensures failed { result ≡ Err StoreError.Failed → Rose (K.faults draft.old.keeper.now) (K.faults draft.new.keeper.now) }
{
    draft.graph()
}
