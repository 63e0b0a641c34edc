// Two chains of records that may come to one position: what both have from there down is read and rebuilt once.
ghost use Rattle.std.specs.Prelude.{◌≡◌, ◌<◌, ◌≤◌, ◌+◌, length, max, slice_get, List, ℕ, Some, Err, IfOk, IfErr, IfSome, IsErrOf, OnOk};
ghost use Rattle.mtn_base.specs.declared.limits.TheConstants.{MAX_CHAIN};
ghost use Rattle.mtn_marking.specs.Graph.{IsMarkedAt};
ghost use Rattle.mtn_model.specs.State.{State};
ghost use Rattle.mtn_model.specs.Table.{Contents};
ghost use Rattle.mtn_ports.specs.Causes.{Rose};
ghost use Rattle.mtn_ports.specs.Kept.{with_all};
ghost use Rattle.mtn_history.specs.Asking.{OnlyAsks};
ghost use Rattle.mtn_history.specs.Errors.{IfDamage};
ghost use Rattle.mtn_history.specs.Rosters.{AsksAlong, AsksOnce, EndsAt, GivesNoTree, IsChainOf, IsPathDown, IsUnmade, Rebuilds, UnmadeBelow, meeting_of, places};
ghost use Rattle.mtn_history.specs.Stands.{IsFounded};

use crate::chains::{Base, Chain, End, Unmade, base_by, place_of, rebuilt_by};
use crate::{Draft, Rebuilt, StoreError};
use mtn_ancestry::Pos;
use mtn_base::NoMemory;
use mtn_ports::Keeper;
use mtn_records::{RecordError, RosterRecord};
use std::alloc::Global;
use std::rc::Rc;

// The records of a chain above a position that it has, and the chain of that position. Bad where it does not have it.
fn cut(ours: Chain, left: Pos, at: Pos) -> Result<(Vec<RosterRecord>, Chain), RecordError>
    ensures parts { (c : Contents) → IsChainOf c left ours → IfOk result (λ r. IsPathDown c left r.0.items at × IsChainOf c at r.1) }
    ensures bad { IsErrOf result RecordError.Bad → (i : ℕ) → slice_get (places left ours.records.items) i ≡ Some at → ⊥ }
{
    let Chain { mut records, end } = ours;
    let Some(place) = place_of(&records, left, at) else {
        return Err(RecordError::Bad);
    };
    let lower = records.split_off(place)?;
    let below = Chain {
        records: lower,
        end,
    };
    Ok((records, below))
}

// The entries twice.
fn twice(alloc: Global, base: Base) -> Result<(Base, Base), NoMemory>
    ensures { IfOk result (λ r. (r.0 ≡ base) × (r.1 ≡ base)) }
{
    let entries = base.entries.copy(alloc)?;
    let copy = Base {
        entries,
        depth: base.depth,
    };
    Ok((copy, base))
}

// A chain, and the records of another one down to a position of it, each on the entries there. Bad where these give no roster.
fn on_meeting(
    alloc: Global,
    left: Pos,
    ours: Chain,
    at: Pos,
    theirs: Vec<RosterRecord>,
) -> Result<(Chain, Chain), RecordError>
    ensures both { (c : Contents) (right : ℕ) → IsChainOf c left ours → IsPathDown c right theirs.items at → IfOk result (λ r. IsChainOf c left r.0 × IsChainOf c right r.1) }
    ensures bad { IsErrOf result RecordError.Bad → (c : Contents) (i : ℕ) → IsChainOf c left ours → slice_get (places left ours.records.items) i ≡ Some at → GivesNoTree c at }
{
    let (upper, below) = cut(ours, left, at)?;
    let base = base_by(alloc, below)?;
    let (copy, base) = twice(alloc, base)?;
    let one = Chain {
        records: upper,
        end: End::ToBase(copy),
    };
    let other = Chain {
        records: theirs,
        end: End::ToBase(base),
    };
    Ok((one, other))
}

impl Chain {
    // The position at which its records come to another chain.
    fn meeting(&self) -> Option<Pos>
        ensures { result ≡ meeting_of self.now.end }
    {
        match &self.end {
            End::ToMeeting(at) => Some(*at),
            _ => None,
        }
    }
}

// Two chains of which the second may come to the first, each with an end of its own.
fn parted(alloc: Global, left: Pos, ours: Chain, theirs: Chain) -> Result<(Chain, Chain), Unmade>
    ensures both { (c : Contents) (right : ℕ) → IsChainOf c left ours → EndsAt c right left ours.records.items theirs.records.items theirs.end → IfOk result (λ r. IsChainOf c left r.0 × IsChainOf c right r.1) }
    ensures unmade { (c : Contents) (right : ℕ) → IsChainOf c left ours → EndsAt c right left ours.records.items theirs.records.items theirs.end → IfErr result (IsUnmade c left right) }
{
    let Some(at) = theirs.meeting() else {
        return Ok((ours, theirs));
    };
    match on_meeting(alloc, left, ours, at, theirs.records) {
        Ok(both) => Ok(both),
        Err(error) => Err(Unmade { at, error }),
    }
}

// The roster of a position by its chain.
fn made(alloc: Global, at: Pos, chain: Chain) -> Result<Rebuilt, Unmade>
    ensures rebuilt { (c : Contents) → IsChainOf c at chain → IfOk result (Rebuilds c at) }
    ensures unmade { (c : Contents) → IsChainOf c at chain → IfErr result (λ u. IsUnmade c at at u) }
{
    match rebuilt_by(alloc, chain) {
        Ok(rebuilt) => Ok(rebuilt),
        Err(error) => Err(Unmade { at, error }),
    }
}

// The rosters of two positions by their chains, of which the second may come to the first.
fn both_by(
    alloc: Global,
    left: Pos,
    ours: Chain,
    right: Pos,
    theirs: Chain,
) -> Result<(Rebuilt, Rebuilt), Unmade>
    ensures rebuilt { (c : Contents) → IsChainOf c left ours → EndsAt c right left ours.records.items theirs.records.items theirs.end → IfOk result (λ r. Rebuilds c left r.0 × Rebuilds c right r.1) }
    ensures unmade { (c : Contents) → IsChainOf c left ours → EndsAt c right left ours.records.items theirs.records.items theirs.end → IfErr result (IsUnmade c left right) }
{
    let (ours, theirs) = parted(alloc, left, ours, theirs)?;
    let one = made(alloc, left, ours)?;
    let other = made(alloc, right, theirs)?;
    Ok((one, other))
}

impl<'a, K: Keeper> Draft<'a, K> {
    // What is wrong at a position whose roster cannot be made: its record is shown.
    fn shown(&mut self, unmade: Unmade) -> StoreError
        ensures asks { OnlyAsks K.contents K.leaves K.faults K.reads 1 self.old self.new }

        ensures damaged { (left right : ℕ) → IfSome (K.contents self.new.keeper.now) (λ c. IsUnmade (with_all c self.old.pending.batch) left right unmade → IfDamage result (UnmadeBelow (max left right + 1) (with_all c self.old.pending.batch))) }
        ensures failed { result ≡ StoreError.Failed → Rose (K.faults self.old.keeper.now) (K.faults self.new.keeper.now) }
    {
        match unmade.error {
            RecordError::Bad => self.roster_held(unmade.at),
            RecordError::NoMemory => StoreError::NoMemory,
        }
    }

    // Remembers two rosters.
    fn keep_rosters(
        &mut self,
        left: Pos,
        one: Rebuilt,
        right: Pos,
        other: Rebuilt,
    ) -> Result<(Rc<Rebuilt>, Rc<Rebuilt>), NoMemory>
        requires left { IfSome (K.contents self.old.keeper.now) (λ c. Rebuilds (with_all c self.old.pending.batch) left one) }
        requires right { IfSome (K.contents self.old.keeper.now) (λ c. Rebuilds (with_all c self.old.pending.batch) right other) }
        ensures keeper { self.new.keeper ≡ self.old.keeper }
        ensures pending { self.new.pending ≡ self.old.pending }
        ensures same { IfOk result (λ r. (r.0.value ≡ one) × (r.1.value ≡ other)) }
    {
        let one = self.keep_roster(left, one)?;
        let other = self.keep_roster(right, other)?;
        Ok((one, other))
    }

    // The rosters of two chains, remembered.
    fn make_rosters(
        &mut self,
        left: Pos,
        ours: Chain,
        right: Pos,
        theirs: Chain,
    ) -> Result<(Rc<Rebuilt>, Rc<Rebuilt>), StoreError>
        requires ours { IfSome (K.contents self.old.keeper.now) (λ c. IsChainOf (with_all c self.old.pending.batch) left ours) }
        requires theirs { IfSome (K.contents self.old.keeper.now) (λ c. EndsAt (with_all c self.old.pending.batch) right left ours.records.items theirs.records.items theirs.end) }
        ensures asks { OnlyAsks K.contents K.leaves K.faults K.reads 1 self.old self.new }

        ensures left { IfSome (K.contents self.new.keeper.now) (λ c. IfOk result (λ r. Rebuilds (with_all c self.old.pending.batch) left r.0.value)) }
        ensures right { IfSome (K.contents self.new.keeper.now) (λ c. IfOk result (λ r. Rebuilds (with_all c self.old.pending.batch) right r.1.value)) }
        ensures few { OnOk result (K.reads self.new.keeper.now ≤ K.reads self.old.keeper.now) }
        ensures damaged { IfSome (K.contents self.new.keeper.now) (λ c. IfErr result (λ e. IfDamage e (UnmadeBelow (max left right + 1) (with_all c self.old.pending.batch)))) }
        ensures failed { result ≡ Err StoreError.Failed → Rose (K.faults self.old.keeper.now) (K.faults self.new.keeper.now) }
    {
        match both_by(self.alloc(), left, ours, right, theirs) {
            Ok((one, other)) => Ok(self.keep_rosters(left, one, right, other)?),
            Err(unmade) => Err(self.shown(unmade)),
        }
    }

    // Two rosters, read and remembered.
    fn read_rosters_at(
        &mut self,
        left: Pos,
        right: Pos,
    ) -> Result<(Rc<Rebuilt>, Rc<Rebuilt>), StoreError>
        ensures asks { OnlyAsks K.contents K.leaves K.faults K.reads (MAX_CHAIN + (MAX_CHAIN + 1)) self.old self.new }

        ensures left { IfSome (K.contents self.new.keeper.now) (λ c. IfOk result (λ r. Rebuilds (with_all c self.old.pending.batch) left r.0.value)) }
        ensures right { IfSome (K.contents self.new.keeper.now) (λ c. IfOk result (λ r. Rebuilds (with_all c self.old.pending.batch) right r.1.value)) }
        ensures few { OnOk result (K.reads self.new.keeper.now ≤ K.reads self.old.keeper.now + (MAX_CHAIN + MAX_CHAIN)) }
        ensures once { IfSome (K.contents self.new.keeper.now) (λ c. OnOk result (AsksOnce (with_all c self.old.pending.batch) left right (K.reads self.old.keeper.now) (K.reads self.new.keeper.now))) }
        ensures damaged { IfSome (K.contents self.new.keeper.now) (λ c. IfErr result (λ e. IfDamage e (UnmadeBelow (max left right + 1) (with_all c self.old.pending.batch)))) }
        ensures failed { result ≡ Err StoreError.Failed → Rose (K.faults self.old.keeper.now) (K.faults self.new.keeper.now) }
    {
        let ours = self.chain_or_shown(left, left, &[])?;
        let theirs = self.chain_or_shown(right, left, &ours.records)?;
        self.make_rosters(left, ours, right, theirs)
    }

    // The same where the first is not remembered.
    fn rosters_from(
        &mut self,
        left: Pos,
        right: Pos,
    ) -> Result<(Rc<Rebuilt>, Rc<Rebuilt>), StoreError>
        ensures asks { OnlyAsks K.contents K.leaves K.faults K.reads (MAX_CHAIN + (MAX_CHAIN + 1)) self.old self.new }

        ensures left { IfSome (K.contents self.new.keeper.now) (λ c. IfOk result (λ r. Rebuilds (with_all c self.old.pending.batch) left r.0.value)) }
        ensures right { IfSome (K.contents self.new.keeper.now) (λ c. IfOk result (λ r. Rebuilds (with_all c self.old.pending.batch) right r.1.value)) }
        ensures few { OnOk result (K.reads self.new.keeper.now ≤ K.reads self.old.keeper.now + (MAX_CHAIN + MAX_CHAIN)) }
        ensures once { IfSome (K.contents self.new.keeper.now) (λ c. OnOk result (AsksOnce (with_all c self.old.pending.batch) left right (K.reads self.old.keeper.now) (K.reads self.new.keeper.now))) }
        ensures damaged { IfSome (K.contents self.new.keeper.now) (λ c. IfErr result (λ e. IfDamage e (UnmadeBelow (max left right + 1) (with_all c self.old.pending.batch)))) }
        ensures failed { result ≡ Err StoreError.Failed → Rose (K.faults self.old.keeper.now) (K.faults self.new.keeper.now) }
    {
        match self.recall(right)? {
            Some(other) => Ok((self.read_roster_at(left)?, other)),
            None => self.read_rosters_at(left, right),
        }
    }

    /// The rosters of two revisions, as [`Draft::roster_at`] gives each. Where neither is remembered and their chains come to one
    /// position, the records from there down are asked for once, and their entries made once.
    pub fn rosters_at(
        &mut self,
        left: Pos,
        right: Pos,
    ) -> Result<(Rc<Rebuilt>, Rc<Rebuilt>), StoreError>
        ensures asks { OnlyAsks K.contents K.leaves K.faults K.reads (MAX_CHAIN + (MAX_CHAIN + 1)) self.old self.new }

        ensures found_left { (f : List ℕ → List ℕ) (s : State) (d : IsFounded f (K.contents self.new.keeper.now) self.old.pending s) → left < self.old.pending.count → IfOk result (λ r. IsMarkedAt d.stands.history left r.0.value.roster) }
        ensures found_right { (f : List ℕ → List ℕ) (s : State) (d : IsFounded f (K.contents self.new.keeper.now) self.old.pending s) → right < self.old.pending.count → IfOk result (λ r. IsMarkedAt d.stands.history right r.1.value.roster) }
        ensures left { IfSome (K.contents self.new.keeper.now) (λ c. IfOk result (λ r. Rebuilds (with_all c self.old.pending.batch) left r.0.value)) }
        ensures right { IfSome (K.contents self.new.keeper.now) (λ c. IfOk result (λ r. Rebuilds (with_all c self.old.pending.batch) right r.1.value)) }
        ensures few { OnOk result (K.reads self.new.keeper.now ≤ K.reads self.old.keeper.now + (MAX_CHAIN + MAX_CHAIN)) }
        ensures once { IfSome (K.contents self.new.keeper.now) (λ c. OnOk result (AsksOnce (with_all c self.old.pending.batch) left right (K.reads self.old.keeper.now) (K.reads self.new.keeper.now))) }
        ensures damaged { IfSome (K.contents self.new.keeper.now) (λ c. IfErr result (λ e. IfDamage e (UnmadeBelow (max left right + 1) (with_all c self.old.pending.batch)))) }
        ensures failed { result ≡ Err StoreError.Failed → Rose (K.faults self.old.keeper.now) (K.faults self.new.keeper.now) }
    {
        match self.recall(left)? {
            Some(one) => Ok((one, self.roster_at(right)?)),
            None => self.rosters_from(left, right),
        }
    }
}
