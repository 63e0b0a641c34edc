// The log, and the graph that it tells.
ghost use Rattle.std.specs.Prelude.{◌≡◌, ◌<◌, ◌≤◌, ◌+◌, List, ℕ, Err, IfOk, IfErr, IfSome};
ghost use Rattle.mtn_history_laws.specs.History.{IsPlaceOf};
ghost use Rattle.mtn_replay.specs.Graphs.{IsGraphOf};
ghost use Rattle.mtn_model.specs.State.{State};
ghost use Rattle.mtn_ports.specs.Causes.{Rose};
ghost use Rattle.mtn_ports.specs.Kept.{with_all};
ghost use Rattle.mtn_records.specs.Bounds.{IsLogWithin};
ghost use Rattle.mtn_history.specs.Asking.{OnlyAsks};
ghost use Rattle.mtn_history.specs.Errors.{IfDamage};
ghost use Rattle.mtn_history.specs.Logs.{IsHeldAt, IsLogged, IsLogOf, UnloggedAt, WrongBelow, IsReadTo};
ghost use Rattle.mtn_history.specs.Stands.{IsFounded};

use crate::damaged::{bad, missing};
use crate::{Draft, LOG, StoreError};
use mtn_ancestry::{Graph, Pos};
use mtn_base::Id;
use mtn_ports::Keeper;
use mtn_records::{LogRecord, read_log};

impl<'a, K: Keeper> Draft<'a, K> {
    /// The log's record at a position. It asks for one record.
    pub fn logged(&mut self, at: Pos) -> Result<LogRecord, StoreError>
        ensures asks { OnlyAsks K.contents K.leaves K.faults K.reads 1 self.old self.new }

        ensures read { IfSome (K.contents self.new.keeper.now) (λ c. IfOk result (IsLogged (with_all c self.old.pending.batch) at)) }
        ensures below { IfOk result (IsLogWithin at) }
        ensures damaged { IfSome (K.contents self.new.keeper.now) (λ c. IfErr result (λ e. IfDamage e (UnloggedAt (with_all c self.old.pending.batch) at))) }
        ensures failed { result ≡ Err StoreError.Failed → Rose (K.faults self.old.keeper.now) (K.faults self.new.keeper.now) }
    {
        let key = at.0.to_be_bytes();
        let mut body = Vec::new(self.alloc());
        if !self.get(LOG, &key, &mut body)? {
            return Err(missing(self.alloc(), LOG, &key));
        }
        match read_log(at, &body) {
            Ok(log) => Ok(log),
            Err(_) => Err(bad(self.alloc(), LOG, &key, &body)),
        }
    }

    // The log's record at a position, read and remembered.
    fn read_log_at(&mut self, at: Pos) -> Result<LogRecord, StoreError>
        ensures asks { OnlyAsks K.contents K.leaves K.faults K.reads 1 self.old self.new }

        ensures read { IfSome (K.contents self.new.keeper.now) (λ c. IfOk result (IsLogged (with_all c self.old.pending.batch) at)) }
        ensures below { IfOk result (IsLogWithin at) }
        ensures damaged { IfSome (K.contents self.new.keeper.now) (λ c. IfErr result (λ e. IfDamage e (UnloggedAt (with_all c self.old.pending.batch) at))) }
        ensures failed { result ≡ Err StoreError.Failed → Rose (K.faults self.old.keeper.now) (K.faults self.new.keeper.now) }
    {
        let log = self.logged(at)?;
        if at.0 < self.count() {
            self.remember_log(at, &log);
        }
        Ok(log)
    }

    /// The log's record at a position, which is remembered: it asks for one record where this was not called before. Over
    /// records that stand for a state it is that of the revision there.
    pub fn log_at(&mut self, at: Pos) -> Result<LogRecord, StoreError>
        ensures asks { OnlyAsks K.contents K.leaves K.faults K.reads 1 self.old self.new }

        ensures read { IfSome (K.contents self.new.keeper.now) (λ c. IfOk result (IsLogged (with_all c self.old.pending.batch) at)) }
        ensures found { (f : List ℕ → List ℕ) (s : State) (d : IsFounded f (K.contents self.new.keeper.now) self.old.pending s) → at < self.old.pending.count → IfOk result (IsLogOf d.stands.history d.stands.kept at) }
        ensures below { IfOk result (IsLogWithin at) }
        ensures damaged { IfSome (K.contents self.new.keeper.now) (λ c. IfErr result (λ e. IfDamage e (UnloggedAt (with_all c self.old.pending.batch) at))) }
        ensures failed { result ≡ Err StoreError.Failed → Rose (K.faults self.old.keeper.now) (K.faults self.new.keeper.now) }
    {
        match self.recall_log(at) {
            Some(log) => Ok(log),
            None => self.read_log_at(at),
        }
    }

    /// The id of the revision at a position, if the log's record there is remembered: it is where a walk of this draft asked for it
    /// and there was memory. It asks for no record.
    pub fn recall_id(&self, at: Pos) -> Option<Id>
        ensures found { (f : List ℕ → List ℕ) (s : State) (d : IsFounded f (K.contents self.now.keeper.now) self.now.pending s) → at < self.now.pending.count
            → IfSome result (λ id. IsPlaceOf d.stands.history id at) }
    {
        match self.recall_log(at) {
            Some(log) => Some(log.id),
            None => None,
        }
    }

    /// The log's record at a position, shown as it is: it has the id of an earlier one, or a number that no history has.
    pub fn log_held(&mut self, at: Pos) -> StoreError
        ensures asks { OnlyAsks K.contents K.leaves K.faults K.reads 1 self.old self.new }

        ensures damaged { IfSome (K.contents self.new.keeper.now) (λ c. IfDamage result (IsHeldAt (with_all c self.old.pending.batch) at)) }
        ensures failed { result ≡ StoreError.Failed → Rose (K.faults self.old.keeper.now) (K.faults self.new.keeper.now) }
    {
        let key = at.0.to_be_bytes();
        let mut body = Vec::new(self.alloc());
        match self.get(LOG, &key, &mut body) {
            Ok(true) => bad(self.alloc(), LOG, &key, &body),
            Ok(false) => missing(self.alloc(), LOG, &key),
            Err(error) => error,
        }
    }

    /// The graph that the log tells. It asks for each record of the log once. Over records that stand for a state it is that
    /// of the history.
    pub fn graph(&mut self) -> Result<Graph, StoreError>
        ensures asks { OnlyAsks K.contents K.leaves K.faults K.reads (self.old.pending.count + 1) self.old self.new }

        ensures read { IfSome (K.contents self.new.keeper.now) (λ c. IfOk result (IsReadTo (with_all c self.old.pending.batch) self.old.pending.count)) }
        ensures found { (f : List ℕ → List ℕ) (s : State) (d : IsFounded f (K.contents self.new.keeper.now) self.old.pending s) → IfOk result (IsGraphOf d.stands.history) }
        ensures damaged { IfSome (K.contents self.new.keeper.now) (λ c. IfErr result (λ e. IfDamage e (WrongBelow self.old.pending.count (with_all c self.old.pending.batch)))) }
        ensures failed { result ≡ Err StoreError.Failed → Rose (K.faults self.old.keeper.now) (K.faults self.new.keeper.now) }
    {
        let mut graph = Graph::new(self.alloc());
        for at in 0..self.count() {
            let log = self.logged(Pos(at))?;
            if graph.find(log.id).is_some() {
                return Err(self.log_held(Pos(at)));
            }
            graph.push(log.id, log.parents)?;
        }
        Ok(graph)
    }
}
