// What each of two parents has above it that the other lacks.
ghost use Rattle.std.specs.Prelude.{◌≡◌, ◌<◌, ◌≤◌, ◌+◌, ◌-◌, max, All, List, ℕ, true, if◌then◌else◌, Err, IfOk, IfErr, IfSome, OnOk};
ghost use Rattle.std.specs.BTreeSet.{contains};
ghost use Rattle.std.specs.Ordering.{is_eq};
ghost use Rattle.mtn_base.specs.declared.id.Id.{Id as Named};
ghost use Rattle.mtn_join.specs.Join.{id_cmp};
ghost use Rattle.mtn_history_laws.specs.History.{IsPlaceOf, parents_at};
ghost use Rattle.mtn_ancestry.specs.Ancestors.{ReachesFrom};
ghost use Rattle.mtn_make_roster.specs.Basis.{AreUncommonIn};
ghost use Rattle.mtn_model.specs.State.{State};
ghost use Rattle.mtn_ports.specs.Causes.{Rose};
ghost use Rattle.mtn_ports.specs.Kept.{Stays, with_all};
ghost use Rattle.mtn_history.specs.Errors.{IfDamage};
ghost use Rattle.mtn_history.specs.Stands.{IsFounded};
ghost use Rattle.mtn_put_revision.specs.Finding.{IsFound, AreIdsAt};

use mtn_ancestry::{Pos, WalkError, uncommon};
use mtn_base::{Id, NoMemory};
use mtn_history::{Draft, StoreError};
use mtn_make_roster::Uncommon;
use mtn_ports::Keeper;
use std::alloc::Global;
use std::collections::BTreeSet;

// The id of a revision that the walk asked for, which the draft remembers where there was memory. It asks for no record.
fn id_at<K: Keeper>(draft: &Draft<'_, K>, at: Pos) -> Result<Id, NoMemory>
    requires { at < draft.now.pending.count }
    ensures { (f : List ℕ → List ℕ) (s : State) → (d : IsFounded f (K.contents draft.now.keeper.now) draft.now.pending s) →
        IfOk result (λ id. IsPlaceOf d.stands.history id at) }
{
    match draft.recall_id(at) {
        Some(id) => Ok(id),
        None => Err(NoMemory),
    }
}

// One more id.
fn add_id(ids: &mut BTreeSet<Id>, id: Id) -> Result<(), NoMemory>
    ensures { OnOk result ((i : Named) → contains id_cmp ids.new i ≡ (if is_eq (id_cmp id i) then true else contains id_cmp ids.old i)) }
{
    let _ = ids.insert(id)?;
    Ok(())
}

// The ids of revisions that the walk asked for. It asks for no record.
fn ids_of<K: Keeper>(
    alloc: Global,
    draft: &Draft<'_, K>,
    positions: &[Pos],
) -> Result<BTreeSet<Id>, NoMemory>
    requires { All (λ p. p < draft.now.pending.count) positions.now }
    ensures { (f : List ℕ → List ℕ) (s : State) → (d : IsFounded f (K.contents draft.now.keeper.now) draft.now.pending s) →
        IfOk result (AreIdsAt d.stands.history positions.now) }
{
    let mut ids = BTreeSet::new(alloc);
    for at in positions {
        add_id(&mut ids, id_at(draft, *at)?)?;
    }
    Ok(ids)
}

/// What each of two revisions has above it that the other lacks. It asks for the records of the log that the walk between
/// them asks for, which the draft remembers, and takes the ids from these.
pub fn uncommon_of<K: Keeper>(
    alloc: Global,
    draft: &mut Draft<'_, K>,
    left: Pos,
    right: Pos,
) -> Result<(Uncommon, Uncommon), StoreError>
    requires left { left < draft.old.pending.count }
    requires right { right < draft.old.pending.count }
    ensures same_reference { draft.new.keeper.ghost_name ≡ draft.old.keeper.ghost_name }
    ensures stays { Stays K.contents K.leaves K.faults draft.old.keeper.now draft.new.keeper.now }
    ensures pending { draft.new.pending ≡ draft.old.pending }
    ensures lefts { (f : List ℕ → List ℕ) (s : State) → (d : IsFounded f (K.contents draft.new.keeper.now) draft.old.pending s) →
        IfOk result (λ u. AreUncommonIn d.stands.history left right u.0) }
    ensures rights { (f : List ℕ → List ℕ) (s : State) → (d : IsFounded f (K.contents draft.new.keeper.now) draft.old.pending s) →
        IfOk result (λ u. AreUncommonIn d.stands.history right left u.1) }
    ensures reads { (f : List ℕ → List ℕ) (s : State) → (d : IsFounded f (K.contents draft.new.keeper.now) draft.old.pending s) → (low : ℕ) →
        ReachesFrom (parents_at d.stands.history) left right low → K.reads draft.new.keeper.now ≤ K.reads draft.old.keeper.now + (max left right + 1 - low) }
    ensures damaged { IfSome (K.contents draft.new.keeper.now) (λ c. IfErr result (λ e. IfDamage e
        (IsFound (K.contents draft.new.keeper.now) draft.old.pending (with_all c draft.old.pending.batch)))) }
    ensures failed { result ≡ Err StoreError.Failed → Rose (K.faults draft.old.keeper.now) (K.faults draft.new.keeper.now) }
{
    let (lefts, rights) = match uncommon(alloc, draft, left, right) {
        Ok(sets) => sets,
        Err(WalkError::Asked(error)) => return Err(error),
        Err(WalkError::NoMemory) => return Err(StoreError::NoMemory),
    };
    let left_ids = ids_of(alloc, draft, lefts.as_slice())?;
    let right_ids = ids_of(alloc, draft, rights.as_slice())?;
    let lefts = Uncommon {
        positions: lefts,
        ids: left_ids,
    };
    let rights = Uncommon {
        positions: rights,
        ids: right_ids,
    };
    Ok((lefts, rights))
}
