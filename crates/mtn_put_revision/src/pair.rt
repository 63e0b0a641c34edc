// Two parents of a revision.
ghost use Rattle.std.specs.Prelude.{◌≡◌, ◌<◌, ◌≤◌, List, ℕ, Err, IfOk, IfErr, IfSome, OnOk, max, ◌+◌, ◌-◌};
ghost use Rattle.mtn_ancestry.specs.Ancestors.{ReachesFrom};
ghost use Rattle.mtn_history_laws.specs.History.{parents_at};
ghost use Rattle.mtn_make_roster.specs.Basis.{AreUncommonIn};
ghost use Rattle.mtn_model.specs.State.{State};
ghost use Rattle.mtn_ports.specs.Causes.{Rose};
ghost use Rattle.mtn_ports.specs.Kept.{Stays, with_all};
ghost use Rattle.mtn_history.specs.Errors.{IfDamage};
ghost use Rattle.mtn_history.specs.Rosters.{Rebuilds};
ghost use Rattle.mtn_history.specs.Stands.{IsFounded};
ghost use Rattle.mtn_put_revision.specs.Finding.{IsFound};

use crate::uncommon::uncommon_of;
use mtn_ancestry::Pos;
use mtn_history::{Draft, Rebuilt, StoreError};
use mtn_make_roster::Uncommon;
use mtn_ports::Keeper;
use mtn_records::Numbered;
use std::alloc::Global;
use std::rc::Rc;

/// Two rosters, their entries, and what each has above it that the other lacks.
#[derive(Drop)]
pub struct TwoParents {
    pub left: Rc<Rebuilt>,
    pub right: Rc<Rebuilt>,
    pub left_entries: Numbered,
    pub right_entries: Numbered,
    pub only_left: Uncommon,
    pub only_right: Uncommon,
}

/// The rosters of two revisions, their entries, and what each has above it that the other lacks.
pub fn two_parents<K: Keeper>(
    alloc: Global,
    draft: &mut Draft<'_, K>,
    left: Pos,
    right: Pos,
) -> Result<TwoParents, StoreError>
    requires below { (left < draft.old.pending.count) × (right < draft.old.pending.count) }
    ensures same_reference { draft.new.keeper.ghost_name ≡ draft.old.keeper.ghost_name }
    ensures stays { Stays K.contents K.leaves K.faults draft.old.keeper.now draft.new.keeper.now }
    ensures pending { draft.new.pending ≡ draft.old.pending }
    ensures left { IfOk result (λ p. IfSome (K.contents draft.new.keeper.now) (λ c. Rebuilds (with_all c draft.old.pending.batch) left p.left.value)) }
    ensures right { IfOk result (λ p. IfSome (K.contents draft.new.keeper.now) (λ c. Rebuilds (with_all c draft.old.pending.batch) right p.right.value)) }
    ensures left_entries { IfOk result (λ p. p.left_entries ≡ p.left.value.entries) }
    ensures right_entries { IfOk result (λ p. p.right_entries ≡ p.right.value.entries) }
    ensures lefts { (f : List ℕ → List ℕ) (s : State) → (d : IsFounded f (K.contents draft.new.keeper.now) draft.old.pending s) →
        IfOk result (λ p. AreUncommonIn d.stands.history left right p.only_left) }
    ensures rights { (f : List ℕ → List ℕ) (s : State) → (d : IsFounded f (K.contents draft.new.keeper.now) draft.old.pending s) →
        IfOk result (λ p. AreUncommonIn d.stands.history right left p.only_right) }
    ensures reads { (f : List ℕ → List ℕ) (s : State) → (d : IsFounded f (K.contents draft.new.keeper.now) draft.old.pending s) → (low : ℕ) →
        ReachesFrom (parents_at d.stands.history) left right low → K.reads draft.new.keeper.now ≤ K.reads draft.old.keeper.now + (33 + (max left right + 1 - low)) }
    ensures few { (f : List ℕ → List ℕ) (s : State) → (d : IsFounded f (K.contents draft.new.keeper.now) draft.old.pending s) → (low : ℕ) →
        ReachesFrom (parents_at d.stands.history) left right low → OnOk result (K.reads draft.new.keeper.now ≤ K.reads draft.old.keeper.now + (32 + (max left right + 1 - low))) }
    ensures damaged { IfSome (K.contents draft.new.keeper.now) (λ c. IfErr result (λ e. IfDamage e
        (IsFound (K.contents draft.new.keeper.now) draft.old.pending (with_all c draft.old.pending.batch)))) }
    ensures failed { result ≡ Err StoreError.Failed → Rose (K.faults draft.old.keeper.now) (K.faults draft.new.keeper.now) }
{
    let (held_left, held_right) = draft.rosters_at(left, right)?;
    let (only_left, only_right) = uncommon_of(alloc, draft, left, right)?;
    let left_entries = held_left.as_ref().entries(alloc)?;
    let right_entries = held_right.as_ref().entries(alloc)?;
    Ok(TwoParents {
        left: held_left,
        right: held_right,
        left_entries,
        right_entries,
        only_left,
        only_right,
    })
}
