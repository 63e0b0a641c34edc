// Rosters by the ids of their revisions, and the ids of what marks name.
ghost use Rattle.std.specs.Prelude.{◌≡◌, ◌<◌, ◌≤◌, ◌+◌, ◌∷◌, [], List, ℕ, length, Err, IfOk, IfErr, IfSome, OnOk};
ghost use Rattle.std.specs.List.{AllZip};
ghost use Rattle.mtn_base.specs.declared.limits.TheConstants.{MAX_CHAIN};
ghost use Rattle.mtn_history_laws.specs.History.{IsPlaceOf};
ghost use Rattle.mtn_model.specs.State.{State};
ghost use Rattle.mtn_ports.specs.Causes.{Rose};
ghost use Rattle.mtn_ports.specs.Kept.{with_all};
ghost use Rattle.mtn_history.specs.Damage.{IsDamage};
ghost use Rattle.mtn_history.specs.Asking.{OnlyAsks};
ghost use Rattle.mtn_history.specs.Errors.{IfDamage, IfStoreDamage};
ghost use Rattle.mtn_history.specs.Marked.{AreHeld, FindsPlace, FindsPlaces, FindsRoster, FindsRosters, IsCounted};
ghost use Rattle.mtn_history.specs.Rosters.{AsksOnce, IsRosterThere};
ghost use Rattle.mtn_history.specs.Stands.{IsFounded};

use crate::{Draft, HistoryError, Rebuilt, StoreError};
use mtn_ancestry::Pos;
use mtn_base::{Cause, Id};
use mtn_marking::MarkedRoster;
use mtn_ports::Keeper;
use std::marker::Model;
use std::rc::Rc;

/// Where two revisions stand, and their rosters with the marks.
#[derive(Drop)]
pub struct BothRosters {
    pub left: Pos,
    pub right: Pos,
    pub ours: SharedRoster,
    pub theirs: SharedRoster,
}

/// A revision's roster with its marks, which contracts see. The draft that remembers it shares it.
#[derive(Drop)]
pub struct SharedRoster {
    rebuilt: Rc<Rebuilt>,
}

impl Model for SharedRoster {
    ghost use Rattle.mtn_marking.specs.Marking.{MarkedTree};

    ghost Value = { MarkedTree };

    ghost view = { λ r. r.rebuilt.value.roster };
}

impl SharedRoster {
    fn new(rebuilt: Rc<Rebuilt>) -> SharedRoster
        ensures { result ≡ rebuilt.value.roster }
    {
        SharedRoster { rebuilt }
    }

    /// The roster. It takes no memory.
    pub fn marked(&self) -> &MarkedRoster
        ensures { result.now ≡ self.now }
    {
        self.rebuilt.as_ref().roster()
    }
}

impl<'a, K: Keeper> Draft<'a, K> {
    // Where a revision stands; UnknownRevision where the log has no such id.
    fn held_at(&mut self, id: Id) -> Result<Pos, HistoryError>
        ensures asks { OnlyAsks K.contents K.leaves K.faults K.reads 1 self.old self.new }

        ensures found { (f : List ℕ → List ℕ) (s : State) (d : IsFounded f (K.contents self.new.keeper.now) self.old.pending s) → FindsPlace d.stands.history id result }
        ensures below { IfOk result (λ at. at < self.old.pending.count) }
        ensures damaged { IfSome (K.contents self.new.keeper.now) (λ c. IsCounted self.old.pending c → IfErr result (λ e. IfStoreDamage e (IsDamage (with_all c self.old.pending.batch)))) }
        ensures failed { result ≡ Err (HistoryError.Store StoreError.Failed) → Rose (K.faults self.old.keeper.now) (K.faults self.new.keeper.now) }
    {
        if self.count() == 0 {
            return Err(HistoryError::Refused(Cause::UnknownRevision { id }));
        }
        let mut text = Vec::new(self.alloc());
        match self.placed(id, &mut text)? {
            Some(at) => Ok(at),
            None => Err(HistoryError::Refused(Cause::UnknownRevision { id })),
        }
    }

    /// Where a revision stands, and its roster with the marks; UnknownRevision where the log has no such id. It asks for the
    /// record of its text and, where the roster is not remembered, at most sixteen of rosters.
    pub fn roster_of(&mut self, id: Id) -> Result<(Pos, SharedRoster), HistoryError>
        ensures asks { OnlyAsks K.contents K.leaves K.faults K.reads (MAX_CHAIN + 2) self.old self.new }

        ensures found { (f : List ℕ → List ℕ) (s : State) (d : IsFounded f (K.contents self.new.keeper.now) self.old.pending s) → FindsRoster d.stands.history id result }
        ensures below { IfOk result (λ r. r.0 < self.old.pending.count) }
        ensures there { IfSome (K.contents self.new.keeper.now) (λ c. IfOk result (λ r. IsRosterThere (with_all c self.old.pending.batch) r.0)) }
        ensures few { OnOk result (K.reads self.new.keeper.now ≤ K.reads self.old.keeper.now + (MAX_CHAIN + 1)) }
        ensures damaged { IfSome (K.contents self.new.keeper.now) (λ c. IsCounted self.old.pending c → IfErr result (λ e. IfStoreDamage e (IsDamage (with_all c self.old.pending.batch)))) }
        ensures failed { result ≡ Err (HistoryError.Store StoreError.Failed) → Rose (K.faults self.old.keeper.now) (K.faults self.new.keeper.now) }
    {
        let at = self.held_at(id)?;
        let rebuilt = self.roster_at(at)?;
        Ok((at, SharedRoster::new(rebuilt)))
    }

    // Where two revisions stand; UnknownRevision for the first that the log does not have.
    fn both_held_at(&mut self, a: Id, b: Id) -> Result<(Pos, Pos), HistoryError>
        ensures asks { OnlyAsks K.contents K.leaves K.faults K.reads 2 self.old self.new }

        ensures found { (f : List ℕ → List ℕ) (s : State) (d : IsFounded f (K.contents self.new.keeper.now) self.old.pending s) → FindsPlaces d.stands.history a b result }
        ensures left { IfOk result (λ at. at.0 < self.old.pending.count) }
        ensures right { IfOk result (λ at. at.1 < self.old.pending.count) }
        ensures damaged { IfSome (K.contents self.new.keeper.now) (λ c. IsCounted self.old.pending c → IfErr result (λ e. IfStoreDamage e (IsDamage (with_all c self.old.pending.batch)))) }
        ensures failed { result ≡ Err (HistoryError.Store StoreError.Failed) → Rose (K.faults self.old.keeper.now) (K.faults self.new.keeper.now) }
    {
        let left = self.held_at(a)?;
        let right = self.held_at(b)?;
        Ok((left, right))
    }

    /// The same of two revisions; UnknownRevision for the first that the log does not have. It asks for the records of their texts,
    /// and what both rosters' chains share it asks for once, as [`Draft::rosters_at`] does.
    pub fn rosters_of(&mut self, a: Id, b: Id) -> Result<BothRosters, HistoryError>
        ensures asks { OnlyAsks K.contents K.leaves K.faults K.reads (MAX_CHAIN + (MAX_CHAIN + 3)) self.old self.new }

        ensures found { (f : List ℕ → List ℕ) (s : State) (d : IsFounded f (K.contents self.new.keeper.now) self.old.pending s) → FindsRosters d.stands.history a b result }
        ensures left { IfOk result (λ r. r.left < self.old.pending.count) }
        ensures right { IfOk result (λ r. r.right < self.old.pending.count) }
        ensures left_there { IfSome (K.contents self.new.keeper.now) (λ c. IfOk result (λ r. IsRosterThere (with_all c self.old.pending.batch) r.left)) }
        ensures right_there { IfSome (K.contents self.new.keeper.now) (λ c. IfOk result (λ r. IsRosterThere (with_all c self.old.pending.batch) r.right)) }
        ensures once { IfSome (K.contents self.new.keeper.now) (λ c. IfOk result (λ r. AsksOnce (with_all c self.old.pending.batch) r.left r.right (K.reads self.old.keeper.now + 2) (K.reads self.new.keeper.now))) }
        ensures damaged { IfSome (K.contents self.new.keeper.now) (λ c. IsCounted self.old.pending c → IfErr result (λ e. IfStoreDamage e (IsDamage (with_all c self.old.pending.batch)))) }
        ensures failed { result ≡ Err (HistoryError.Store StoreError.Failed) → Rose (K.faults self.old.keeper.now) (K.faults self.new.keeper.now) }
    {
        let (left, right) = self.both_held_at(a, b)?;
        let (ours, theirs) = self.rosters_at(left, right)?;
        Ok(BothRosters {
            left,
            right,
            ours: SharedRoster::new(ours),
            theirs: SharedRoster::new(theirs),
        })
    }

    // The id of the revision at a position that the roster at another names; a position that the log does not have is
    // damage of that roster.
    fn id_at(&mut self, roster: Pos, at: Pos) -> Result<Id, StoreError>
        requires below { roster < self.old.pending.count }
        requires there { IfSome (K.contents self.old.keeper.now) (λ c. IsRosterThere (with_all c self.old.pending.batch) roster) }
        ensures asks { OnlyAsks K.contents K.leaves K.faults K.reads 1 self.old self.new }

        ensures found { (f : List ℕ → List ℕ) (s : State) (d : IsFounded f (K.contents self.new.keeper.now) self.old.pending s) → IfOk result (λ id. IsPlaceOf d.stands.history id at) }
        ensures damaged { IfSome (K.contents self.new.keeper.now) (λ c. IsCounted self.old.pending c → AreHeld (K.contents self.new.keeper.now) self.old.pending (at ∷ [])
            → IfErr result (λ e. IfDamage e (IsDamage (with_all c self.old.pending.batch)))) }
        ensures failed { result ≡ Err StoreError.Failed → Rose (K.faults self.old.keeper.now) (K.faults self.new.keeper.now) }
    {
        if at.0 >= self.count() {
            return Err(self.roster_held(roster));
        }
        Ok(self.log_at(at)?.id)
    }

    /// The ids of the revisions at positions that the roster at another names, in their order. It asks for a record for each.
    pub fn ids_at(&mut self, roster: Pos, places: &[Pos]) -> Result<Vec<Id>, StoreError>
        requires below { roster < self.old.pending.count }
        requires there { IfSome (K.contents self.old.keeper.now) (λ c. IsRosterThere (with_all c self.old.pending.batch) roster) }
        ensures asks { OnlyAsks K.contents K.leaves K.faults K.reads (length places.now) self.old self.new }

        ensures found { (f : List ℕ → List ℕ) (s : State) (d : IsFounded f (K.contents self.new.keeper.now) self.old.pending s) → IfOk result (λ ids. AllZip (λ at id. IsPlaceOf d.stands.history id at) places.now ids.items) }
        ensures damaged { IfSome (K.contents self.new.keeper.now) (λ c. IsCounted self.old.pending c → AreHeld (K.contents self.new.keeper.now) self.old.pending places.now
            → IfErr result (λ e. IfDamage e (IsDamage (with_all c self.old.pending.batch)))) }
        ensures failed { result ≡ Err StoreError.Failed → Rose (K.faults self.old.keeper.now) (K.faults self.new.keeper.now) }
    {
        let mut ids = Vec::new(self.alloc());
        for at in places {
            ids.push(self.id_at(roster, *at)?)?;
        }
        Ok(ids)
    }
}
