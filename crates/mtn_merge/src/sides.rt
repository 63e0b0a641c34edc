// The sides of a merge, and what the history decides of them.
ghost use Rattle.std.specs.Prelude.{◌≡◌, ◌<◌, List, ℕ, Err, IfOk, IfErr, IfSome};
ghost use Rattle.mtn_base.specs.Ids.{by_id};
ghost use Rattle.mtn_conflicts.specs.ConflictText.{IsLesser};
ghost use Rattle.mtn_conflicts.specs.Lists.{AreConflictsOf};
ghost use Rattle.mtn_history.specs.Damage.{IsDamage};
ghost use Rattle.mtn_history.specs.Errors.{IfDamage, IfStoreDamage};
ghost use Rattle.mtn_history.specs.Marked.{IsCounted};
ghost use Rattle.mtn_history.specs.Rosters.{IsRosterThere};
ghost use Rattle.mtn_history.specs.Stands.{IsFounded};
ghost use Rattle.mtn_history_laws.specs.History.{IsGrown, Revision, parents_at};
ghost use Rattle.mtn_mark_laws.specs.Rule.{AreUncommon};
ghost use Rattle.mtn_model.specs.State.{State};
ghost use Rattle.mtn_ports.specs.Causes.{Rose};
ghost use Rattle.mtn_ports.specs.Kept.{Stays, with_all};
ghost use Rattle.mtn_merge.specs.Sides.{AreCompared, Compares, FindsSides, IsSideOf};

use mtn_ancestry::{Pos, PosSet, WalkError, uncommon};
use mtn_base::{Cause, Id, NoMemory};
use mtn_conflicts::{Conflicts, conflicts};
use mtn_decide::{Decisions, decide};
use mtn_history::{Draft, HistoryError, SharedRoster, StoreError};
use mtn_ports::Keeper;
use std::alloc::Global;
use std::cmp::Ordering;

/// A revision that is merged: its id, where it stands, and its roster with the marks.
#[derive(Drop)]
pub struct Side {
    pub id: Id,
    pub at: Pos,
    pub roster: SharedRoster,
}

/// Both sides, what is decided of them, and its conflicts.
#[derive(Drop)]
pub struct Compared {
    pub left: Side,
    pub right: Side,
    pub decisions: Decisions,
    pub conflicts: Conflicts,
}

// The order of two ids.
fn order_of(a: Id, b: Id) -> Ordering
    ensures { result ≡ by_id a b }
{
    a.as_slice().cmp(b.as_slice())
}

// What each of two revisions has above it that the other lacks.
fn uncommon_of<K: Keeper>(
    alloc: Global,
    draft: &mut Draft<'_, K>,
    left: Pos,
    right: Pos,
) -> Result<(PosSet, PosSet), StoreError>
    requires left { left < draft.old.pending.count }
    requires right { right < draft.old.pending.count }
    ensures same_reference { draft.new.keeper.ghost_name ≡ draft.old.keeper.ghost_name }
    ensures stays { Stays K.contents K.leaves K.faults draft.old.keeper.now draft.new.keeper.now }
    ensures pending { draft.new.pending ≡ draft.old.pending }
    ensures lefts { (f : List ℕ → List ℕ) (s : State) → (d : IsFounded f (K.contents draft.new.keeper.now) draft.old.pending s) →
        IfOk result (λ u. AreUncommon (parents_at d.stands.history) left right u.0) }
    ensures rights { (f : List ℕ → List ℕ) (s : State) → (d : IsFounded f (K.contents draft.new.keeper.now) draft.old.pending s) →
        IfOk result (λ u. AreUncommon (parents_at d.stands.history) right left u.1) }
    ensures damaged { IfSome (K.contents draft.new.keeper.now) (λ c. IsCounted draft.old.pending c → IfErr result (λ e. IfDamage e (IsDamage (with_all c draft.old.pending.batch)))) }
    ensures failed { result ≡ Err StoreError.Failed → Rose (K.faults draft.old.keeper.now) (K.faults draft.new.keeper.now) }
{
    match uncommon(alloc, draft, left, right) {
        Ok(sets) => Ok(sets),
        Err(WalkError::Asked(error)) => Err(error),
        Err(WalkError::NoMemory) => Err(StoreError::NoMemory),
    }
}

// Both sides and what is decided of them, by the sets of what each has above it that the other lacks.
fn decided(
    alloc: Global,
    left: Side,
    right: Side,
    only_left: &PosSet,
    only_right: &PosSet,
) -> Result<Compared, NoMemory>
    ensures compared { IfOk result (λ x. (h : List Revision) → IsGrown h → IsSideOf h left → IsSideOf h right →
        AreUncommon (parents_at h) left.at right.at only_left.now → AreUncommon (parents_at h) right.at left.at only_right.now → AreCompared h left.id right.id x) }
    ensures left { IfOk result (λ x. x.left ≡ left) }
    ensures right { IfOk result (λ x. x.right ≡ right) }
    ensures conflicts { IfOk result (λ x. AreConflictsOf x.decisions x.conflicts) }
{
    let decisions = decide(
        alloc,
        left.roster.marked(),
        right.roster.marked(),
        only_left,
        only_right,
    )?;
    let conflicts = conflicts(alloc, &decisions)?;
    Ok(Compared {
        left,
        right,
        decisions,
        conflicts,
    })
}

// What is decided of two sides, the lesser first; Related where one is above the other.
fn compare<K: Keeper>(
    alloc: Global,
    draft: &mut Draft<'_, K>,
    left: Side,
    right: Side,
) -> Result<Compared, HistoryError>
    requires left { left.at < draft.old.pending.count }
    requires right { right.at < draft.old.pending.count }
    requires sides { (f : List ℕ → List ℕ) (s : State) (d : IsFounded f (K.contents draft.old.keeper.now) draft.old.pending s) →
        IsSideOf d.stands.history left × IsSideOf d.stands.history right }
    ensures same_reference { draft.new.keeper.ghost_name ≡ draft.old.keeper.ghost_name }
    ensures stays { Stays K.contents K.leaves K.faults draft.old.keeper.now draft.new.keeper.now }
    ensures pending { draft.new.pending ≡ draft.old.pending }
    ensures compares { (f : List ℕ → List ℕ) (s : State) (d : IsFounded f (K.contents draft.new.keeper.now) draft.old.pending s) → Compares d.stands.history left.id right.id result }
    ensures left { IfOk result (λ x. x.left ≡ left) }
    ensures right { IfOk result (λ x. x.right ≡ right) }
    ensures conflicts { IfOk result (λ x. AreConflictsOf x.decisions x.conflicts) }
    ensures damaged { IfSome (K.contents draft.new.keeper.now) (λ c. IsCounted draft.old.pending c → IfErr result (λ e. IfStoreDamage e (IsDamage (with_all c draft.old.pending.batch)))) }
    ensures failed { result ≡ Err (HistoryError.Store StoreError.Failed) → Rose (K.faults draft.old.keeper.now) (K.faults draft.new.keeper.now) }
{
    let (only_left, only_right) = uncommon_of(alloc, draft, left.at, right.at)?;
    if !only_left.has(left.at) {
        return Err(HistoryError::Refused(Cause::Related {
            older: left.id,
            newer: right.id,
        }));
    }
    if !only_right.has(right.at) {
        return Err(HistoryError::Refused(Cause::Related {
            older: right.id,
            newer: left.id,
        }));
    }
    Ok(decided(alloc, left, right, &only_left, &only_right)?)
}

/// The sides of a merge with what is decided of them; UnknownRevision for the first that is not held, or Related. Each roster
/// is read once, and what both rosters' chains share but once.
pub fn sides_of<K: Keeper>(
    alloc: Global,
    draft: &mut Draft<'_, K>,
    a: Id,
    b: Id,
) -> Result<Compared, HistoryError>
    ensures same_reference { draft.new.keeper.ghost_name ≡ draft.old.keeper.ghost_name }
    ensures stays { Stays K.contents K.leaves K.faults draft.old.keeper.now draft.new.keeper.now }
    ensures pending { draft.new.pending ≡ draft.old.pending }
    ensures finds { (f : List ℕ → List ℕ) (s : State) (d : IsFounded f (K.contents draft.new.keeper.now) draft.old.pending s) → FindsSides d.stands.history a b result }
    ensures below { IfOk result (λ x. x.left.at < draft.old.pending.count) }
    ensures there { IfSome (K.contents draft.new.keeper.now) (λ c. IfOk result (λ x. IsRosterThere (with_all c draft.old.pending.batch) x.left.at)) }
    ensures lesser { IfOk result (λ x. IsLesser x.left.id x.right.id) }
    ensures conflicts { IfOk result (λ x. AreConflictsOf x.decisions x.conflicts) }
    ensures damaged { IfSome (K.contents draft.new.keeper.now) (λ c. IsCounted draft.old.pending c → IfErr result (λ e. IfStoreDamage e (IsDamage (with_all c draft.old.pending.batch)))) }
    ensures failed { result ≡ Err (HistoryError.Store StoreError.Failed) → Rose (K.faults draft.old.keeper.now) (K.faults draft.new.keeper.now) }
{
    let both = draft.rosters_of(a, b)?;
    let first = Side {
        id: a,
        at: both.left,
        roster: both.ours,
    };
    let second = Side {
        id: b,
        at: both.right,
        roster: both.theirs,
    };
    match order_of(a, b) {
        Ordering::Less => compare(alloc, draft, first, second),
        Ordering::Equal => Err(HistoryError::Refused(Cause::Related { older: a, newer: b })),
        Ordering::Greater => compare(alloc, draft, second, first),
    }
}
