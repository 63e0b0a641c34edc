// The rosters that records give.
ghost use Rattle.std.specs.Prelude.{◌≡◌, ◌<◌, ◌≤◌, ◌+◌, ◌++◌, ◌∷◌, length, slice_get, List, [], ℕ, Some, None, Ok, Err, IfOk, IfErr, IfSome, OnOk};
ghost use Rattle.mtn_base.specs.declared.limits.TheConstants.{MAX_CHAIN};
ghost use Rattle.mtn_marking.specs.Graph.{IsMarkedAt};
ghost use Rattle.mtn_model.specs.State.{State};
ghost use Rattle.mtn_ports.specs.Causes.{Rose};
ghost use Rattle.mtn_ports.specs.Kept.{with_all};
ghost use Rattle.mtn_records.specs.Bounds.{IsWithin};
ghost use Rattle.mtn_records.specs.declared.record.RosterRecord.{RosterRecord as Record};
ghost use Rattle.mtn_history.specs.Asking.{OnlyAsks};
ghost use Rattle.mtn_history.specs.Errors.{IfDamage};
ghost use Rattle.mtn_history.specs.Rosters.{AsksAlong, EndsAt, IsRostered, IsRosterHeld, IsOnWalk, IsOneMore, IsWalk, IsWalkOf, StepsTo, UnrosteredAt, UnmadeBelow, Rebuilds, base_of as base_in, places};
ghost use Rattle.mtn_history.specs.Stands.{IsFounded};

use crate::chains::{Chain, End, Step, base_of, base_on, meeting_at, rebuilt_by};
use crate::damaged::{bad, missing};
use crate::{Draft, ROSTERS, Rebuilt, StoreError};
use mtn_ancestry::Pos;
use mtn_base::{MAX_CHAIN, NoMemory};
use mtn_ports::Keeper;
use mtn_records::{RecordError, RosterRecord, read_roster};
use std::rc::Rc;

impl<'a, K: Keeper> Draft<'a, K> {
    // The roster's record at a position.
    fn rostered(&mut self, at: Pos) -> Result<RosterRecord, StoreError>
        ensures asks { OnlyAsks K.contents K.leaves K.faults K.reads 1 self.old self.new }

        ensures read { IfSome (K.contents self.new.keeper.now) (λ c. IfOk result (IsRostered (with_all c self.old.pending.batch) at)) }
        ensures below { IfOk result (IsWithin at) }
        ensures damaged { IfSome (K.contents self.new.keeper.now) (λ c. IfErr result (λ e. IfDamage e (UnrosteredAt (with_all c self.old.pending.batch) at))) }
        ensures failed { result ≡ Err StoreError.Failed → Rose (K.faults self.old.keeper.now) (K.faults self.new.keeper.now) }
    {
        let key = at.0.to_be_bytes();
        let mut body = Vec::new(self.alloc());
        if !self.get(ROSTERS, &key, &mut body)? {
            return Err(missing(self.alloc(), ROSTERS, &key));
        }
        match read_roster(self.alloc(), at, &body) {
            Ok(roster) => Ok(roster),
            Err(RecordError::Bad) => Err(bad(self.alloc(), ROSTERS, &key, &body)),
            Err(RecordError::NoMemory) => Err(StoreError::NoMemory),
        }
    }

    /// The roster's record at a position, shown as it is: with what it says no history goes on.
    pub fn roster_held(&mut self, at: Pos) -> StoreError
        ensures asks { OnlyAsks K.contents K.leaves K.faults K.reads 1 self.old self.new }

        ensures damaged { IfSome (K.contents self.new.keeper.now) (λ c. IfDamage result (IsRosterHeld (with_all c self.old.pending.batch) at)) }
        ensures failed { result ≡ StoreError.Failed → Rose (K.faults self.old.keeper.now) (K.faults self.new.keeper.now) }
    {
        let key = at.0.to_be_bytes();
        let mut body = Vec::new(self.alloc());
        match self.get(ROSTERS, &key, &mut body) {
            Ok(true) => bad(self.alloc(), ROSTERS, &key, &body),
            Ok(false) => missing(self.alloc(), ROSTERS, &key),
            Err(error) => error,
        }
    }

    // Puts the roster's record at a position behind others, and tells what it stands on.
    fn push_rostered(
        &mut self,
        at: Pos,
        records: &mut Vec<RosterRecord>,
    ) -> Result<Option<Pos>, StoreError>
        ensures asks { OnlyAsks K.contents K.leaves K.faults K.reads 1 self.old self.new }

        ensures pushed { IfOk result (λ base. (x : Record) × (records.new.items ≡ records.old.items ++ x ∷ []) × (base ≡ base_in x) × IsWithin at x ×
            IfSome (K.contents self.new.keeper.now) (λ c. IsRostered (with_all c self.old.pending.batch) at x)) }
        ensures damaged { IfSome (K.contents self.new.keeper.now) (λ c. IfErr result (λ e. IfDamage e (UnrosteredAt (with_all c self.old.pending.batch) at))) }
        ensures failed { result ≡ Err StoreError.Failed → Rose (K.faults self.old.keeper.now) (K.faults self.new.keeper.now) }
    {
        let record = self.rostered(at)?;
        let base = base_of(&record);
        records.push(record)?;
        Ok(base)
    }

    // What the records of a chain end at that stand above a position, if they end there: its roster is remembered, or it stands
    // on the chain beside it.
    fn end_at(&self, at: Pos, top: Pos, beside: &[RosterRecord]) -> Result<Option<End>, NoMemory>
        ensures ends { IfSome (K.contents self.now.keeper.now) (λ c. IfOk result (λ found. IfSome found (EndsAt (with_all c self.now.pending.batch) at top beside.now []))) }
        ensures none { result ≡ Ok None → (i : ℕ) → slice_get (places top beside.now) i ≡ Some at → ⊥ }
    {
        match self.recall(at)? {
            Some(known) => Ok(Some(End::ToBase(base_on(self.alloc(), &known)?))),
            None => Ok(meeting_at(beside, top, at)),
        }
    }

    // One step down from a position: what the records above it end at, or the position that its own record, put behind them,
    // stands on.
    fn step_down(
        &mut self,
        next: Pos,
        top: Pos,
        beside: &[RosterRecord],
        records: &mut Vec<RosterRecord>,
    ) -> Result<Step, StoreError>
        ensures asks { OnlyAsks K.contents K.leaves K.faults K.reads 1 self.old self.new }

        ensures walks { (at : ℕ) → IfSome (K.contents self.old.keeper.now) (λ c. IsOnWalk (with_all c self.old.pending.batch) at top beside.now records.old.items next) →
            IfSome (K.contents self.new.keeper.now) (λ c. IfOk result (StepsTo (with_all c self.old.pending.batch) at top beside.now records.new.items)) }
        ensures few { IfOk result (λ step. K.reads self.new.keeper.now + length records.old.items ≤ K.reads self.old.keeper.now + length records.new.items) }
        ensures long { IfOk result (λ step. IsOneMore next (length records.old.items) (length records.new.items) step) }
        ensures damaged { IfSome (K.contents self.new.keeper.now) (λ c. IfErr result (λ e. IfDamage e (UnrosteredAt (with_all c self.old.pending.batch) next))) }
        ensures failed { result ≡ Err StoreError.Failed → Rose (K.faults self.old.keeper.now) (K.faults self.new.keeper.now) }
    {
        if let Some(end) = self.end_at(next, top, beside)? {
            return Ok(Step::End(end));
        }
        match self.push_rostered(next, records)? {
            Some(base) => Ok(Step::To(base)),
            None => Ok(Step::End(End::ToWhole)),
        }
    }

    // The records from a position down to the first whose roster is remembered or that stands on the chain beside them, from
    // `top` down, or else to a whole one. None where there are more than a chain may have.
    fn chain(
        &mut self,
        at: Pos,
        top: Pos,
        beside: &[RosterRecord],
    ) -> Result<Option<Chain>, StoreError>
        ensures asks { OnlyAsks K.contents K.leaves K.faults K.reads MAX_CHAIN self.old self.new }

        ensures read { IfSome (K.contents self.new.keeper.now) (λ c. IfOk result (IsWalkOf (with_all c self.old.pending.batch) at top beside.now)) }
        ensures few { IfOk result (λ found. IfSome found (λ chain. K.reads self.new.keeper.now ≤ K.reads self.old.keeper.now + length chain.records.items)) }
        ensures short { IfOk result (λ found. IfSome found (λ chain. length chain.records.items ≤ MAX_CHAIN)) }
        ensures damaged { IfSome (K.contents self.new.keeper.now) (λ c. IfErr result (λ e. IfDamage e (UnmadeBelow (at + 1) (with_all c self.old.pending.batch)))) }
        ensures failed { result ≡ Err StoreError.Failed → Rose (K.faults self.old.keeper.now) (K.faults self.new.keeper.now) }
    {
        let mut records = Vec::new(self.alloc());
        let mut next = at;
        for depth in 0..MAX_CHAIN {
            match self.step_down(next, top, beside, &mut records)? {
                Step::End(end) => return Ok(Some(Chain { records, end })),
                Step::To(base) => next = base,
            }
        }
        Ok(None)
    }

    // The same; where there are more than a chain may have, the record at its top is shown.
    pub(crate) fn chain_or_shown(
        &mut self,
        at: Pos,
        top: Pos,
        beside: &[RosterRecord],
    ) -> Result<Chain, StoreError>
        ensures asks { OnlyAsks K.contents K.leaves K.faults K.reads (MAX_CHAIN + 1) self.old self.new }

        ensures read { IfSome (K.contents self.new.keeper.now) (λ c. IfOk result (λ chain. IsWalk (with_all c self.old.pending.batch) at top beside.now chain.records.items chain.end)) }
        ensures few { IfOk result (λ chain. K.reads self.new.keeper.now ≤ K.reads self.old.keeper.now + length chain.records.items) }
        ensures short { IfOk result (λ chain. length chain.records.items ≤ MAX_CHAIN) }
        ensures damaged { IfSome (K.contents self.new.keeper.now) (λ c. IfErr result (λ e. IfDamage e (UnmadeBelow (at + 1) (with_all c self.old.pending.batch)))) }
        ensures failed { result ≡ Err StoreError.Failed → Rose (K.faults self.old.keeper.now) (K.faults self.new.keeper.now) }
    {
        match self.chain(at, top, beside)? {
            Some(chain) => Ok(chain),
            None => Err(self.roster_held(at)),
        }
    }

    // A revision's roster, rebuilt from its records.
    fn rebuilt_at(&mut self, at: Pos) -> Result<Rebuilt, StoreError>
        ensures asks { OnlyAsks K.contents K.leaves K.faults K.reads (MAX_CHAIN + 1) self.old self.new }

        ensures rebuilt { IfSome (K.contents self.new.keeper.now) (λ c. IfOk result (Rebuilds (with_all c self.old.pending.batch) at)) }
        ensures few { OnOk result (K.reads self.new.keeper.now ≤ K.reads self.old.keeper.now + MAX_CHAIN) }
        ensures along { IfSome (K.contents self.new.keeper.now) (λ c. OnOk result (AsksAlong (with_all c self.old.pending.batch) at (K.reads self.old.keeper.now) (K.reads self.new.keeper.now))) }
        ensures damaged { IfSome (K.contents self.new.keeper.now) (λ c. IfErr result (λ e. IfDamage e (UnmadeBelow (at + 1) (with_all c self.old.pending.batch)))) }
        ensures failed { result ≡ Err StoreError.Failed → Rose (K.faults self.old.keeper.now) (K.faults self.new.keeper.now) }
    {
        let chain = self.chain_or_shown(at, at, &[])?;
        match rebuilt_by(self.alloc(), chain) {
            Ok(rebuilt) => Ok(rebuilt),
            Err(RecordError::Bad) => Err(self.roster_held(at)),
            Err(RecordError::NoMemory) => Err(StoreError::NoMemory),
        }
    }

    // Remembers the roster of a position, if it is one of the log, and shares it.
    pub(crate) fn keep_roster(&mut self, at: Pos, rebuilt: Rebuilt) -> Result<Rc<Rebuilt>, NoMemory>
        requires { IfSome (K.contents self.old.keeper.now) (λ c. Rebuilds (with_all c self.old.pending.batch) at rebuilt) }
        ensures keeper { self.new.keeper ≡ self.old.keeper }
        ensures pending { self.new.pending ≡ self.old.pending }
        ensures same { IfOk result (λ r. r.value ≡ rebuilt) }
    {
        let shared = Rc::new(self.alloc(), rebuilt)?;
        if at.0 < self.count() {
            self.remember(at, Rc::clone(&shared)?);
        }
        Ok(shared)
    }

    // The roster of a position, read and remembered.
    pub(crate) fn read_roster_at(&mut self, at: Pos) -> Result<Rc<Rebuilt>, StoreError>
        ensures asks { OnlyAsks K.contents K.leaves K.faults K.reads (MAX_CHAIN + 1) self.old self.new }

        ensures rebuilt { IfSome (K.contents self.new.keeper.now) (λ c. IfOk result (λ r. Rebuilds (with_all c self.old.pending.batch) at r.value)) }
        ensures few { OnOk result (K.reads self.new.keeper.now ≤ K.reads self.old.keeper.now + MAX_CHAIN) }
        ensures along { IfSome (K.contents self.new.keeper.now) (λ c. OnOk result (AsksAlong (with_all c self.old.pending.batch) at (K.reads self.old.keeper.now) (K.reads self.new.keeper.now))) }
        ensures damaged { IfSome (K.contents self.new.keeper.now) (λ c. IfErr result (λ e. IfDamage e (UnmadeBelow (at + 1) (with_all c self.old.pending.batch)))) }
        ensures failed { result ≡ Err StoreError.Failed → Rose (K.faults self.old.keeper.now) (K.faults self.new.keeper.now) }
    {
        let rebuilt = self.rebuilt_at(at)?;
        Ok(self.keep_roster(at, rebuilt)?)
    }

    /// A revision's roster. One of those that were read or accepted last is remembered; else it asks for its record and for
    /// those below it, down to one whose roster is remembered or to a whole one: at most sixteen, and no more than its chain
    /// has. Over records that stand for a state it is that of the history.
    pub fn roster_at(&mut self, at: Pos) -> Result<Rc<Rebuilt>, StoreError>
        ensures asks { OnlyAsks K.contents K.leaves K.faults K.reads (MAX_CHAIN + 1) self.old self.new }

        ensures found { (f : List ℕ → List ℕ) (s : State) (d : IsFounded f (K.contents self.new.keeper.now) self.old.pending s) → at < self.old.pending.count → IfOk result (λ r. IsMarkedAt d.stands.history at r.value.roster) }
        ensures rebuilt { IfSome (K.contents self.new.keeper.now) (λ c. IfOk result (λ r. Rebuilds (with_all c self.old.pending.batch) at r.value)) }
        ensures few { OnOk result (K.reads self.new.keeper.now ≤ K.reads self.old.keeper.now + MAX_CHAIN) }
        ensures along { IfSome (K.contents self.new.keeper.now) (λ c. OnOk result (AsksAlong (with_all c self.old.pending.batch) at (K.reads self.old.keeper.now) (K.reads self.new.keeper.now))) }
        ensures damaged { IfSome (K.contents self.new.keeper.now) (λ c. IfErr result (λ e. IfDamage e (UnmadeBelow (at + 1) (with_all c self.old.pending.batch)))) }
        ensures failed { result ≡ Err StoreError.Failed → Rose (K.faults self.old.keeper.now) (K.faults self.new.keeper.now) }
    {
        match self.recall(at)? {
            Some(rebuilt) => Ok(rebuilt),
            None => self.read_roster_at(at),
        }
    }
}
