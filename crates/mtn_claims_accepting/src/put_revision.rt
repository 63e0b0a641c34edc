//! The record that is due, and what each of two revisions has above it that the other lacks.
ghost use Rattle.std.specs.Prelude.{◌+◌, ◌-◌, ◌<◌, ◌≡◌, ◌≤◌, All, Err, IfErr, IfOk, IfSome, List, None, Ok, max, ℕ};
ghost use Rattle.mtn_ancestry.specs.Ancestors.{ReachesFrom};
ghost use Rattle.mtn_history.specs.Errors.{IfDamage};
ghost use Rattle.mtn_history.specs.Stands.{IsFounded};
ghost use Rattle.mtn_history_laws.specs.History.{parents_at};
ghost use Rattle.mtn_make_roster.specs.Basis.{AreUncommonIn};
ghost use Rattle.mtn_model.specs.State.{State};
ghost use Rattle.mtn_ports.specs.Causes.{Rose};
ghost use Rattle.mtn_ports.specs.Kept.{Stays, with_all};
ghost use Rattle.mtn_put_revision.specs.Finding.{IsFound, IsUnfounded};
ghost use Rattle.mtn_put_revision.specs.Keeping.{IsWrittenOn};
ghost use Rattle.mtn_put_revision.specs.Writing.{AllAscend, NoneHas};
ghost use Rattle.mtn_roster_deltas.specs.Numbering.{shown};

use mtn_ancestry::Pos;
use mtn_base::NoMemory;
use mtn_history::{Draft, StoreError};
use mtn_make_roster::Uncommon;
use mtn_ports::Keeper;
use mtn_put_revision::{KeptParents, Written};
use mtn_records::Numbered;
use std::alloc::Global;

/// As `mtn_put_revision::write_record`.
pub fn write_record(
    alloc: Global,
    known: &KeptParents<'_>,
    entries: Numbered,
    at: Pos,
) -> Result<Option<Written>, NoMemory>
    ensures record { IfOk result (λ o. IfSome o (IsWrittenOn known.now.places.now (shown known.now.entries.now) known.now.depth entries at)) }
    ensures none { result ≡ Ok None → All (λ p. p < at) known.now.places.now → AllAscend (shown known.now.entries.now) → NoneHas at entries }
{
    mtn_put_revision::write_record(alloc, known, entries, at)
}

/// As `mtn_put_revision::uncommon_of`.
pub fn uncommon_of<K: Keeper>(
    alloc: Global,
    draft: &mut Draft<'_, K>,
    left: Pos,
    right: Pos,
) -> Result<(Uncommon, Uncommon), StoreError>
    requires left { left < draft.old.pending.count }
    requires right { right < draft.old.pending.count }
    ensures same_reference { draft.new.keeper.ghost_name ≡ draft.old.keeper.ghost_name }
    ensures stays { Stays K.contents K.leaves K.faults draft.old.keeper.now draft.new.keeper.now }
    ensures pending { draft.new.pending ≡ draft.old.pending }
    ensures lefts { (f : List ℕ → List ℕ) (s : State) → (d : IsFounded f (K.contents draft.new.keeper.now) draft.old.pending s) →
        IfOk result (λ u. AreUncommonIn d.stands.history left right u.0) }
    ensures rights { (f : List ℕ → List ℕ) (s : State) → (d : IsFounded f (K.contents draft.new.keeper.now) draft.old.pending s) →
        IfOk result (λ u. AreUncommonIn d.stands.history right left u.1) }
    ensures reads { (f : List ℕ → List ℕ) (s : State) → (d : IsFounded f (K.contents draft.new.keeper.now) draft.old.pending s) → (low : ℕ) →
        ReachesFrom (parents_at d.stands.history) left right low → K.reads draft.new.keeper.now ≤ K.reads draft.old.keeper.now + (max left right + 1 - low) }
    ensures damaged { IfSome (K.contents draft.new.keeper.now) (λ c. IfErr result (λ e. IfDamage e
        (IsFound (K.contents draft.new.keeper.now) draft.old.pending (with_all c draft.old.pending.batch)))) }
    ensures failed { result ≡ Err StoreError.Failed → Rose (K.faults draft.old.keeper.now) (K.faults draft.new.keeper.now) }
{
    mtn_put_revision::uncommon_of(alloc, draft, left, right)
}

/// As `mtn_put_revision::roster_held`.
pub fn roster_held<K: Keeper>(draft: &mut Draft<'_, K>, at: Pos) -> StoreError
    requires below { at < draft.old.pending.count }
    ensures same_reference { draft.new.keeper.ghost_name ≡ draft.old.keeper.ghost_name }
    ensures stays { Stays K.contents K.leaves K.faults draft.old.keeper.now draft.new.keeper.now }
    ensures pending { draft.new.pending ≡ draft.old.pending }
    ensures damaged { IsUnfounded (K.contents draft.old.keeper.now) draft.old.pending → IfSome (K.contents draft.new.keeper.now) (λ c. IfDamage result
        (IsFound (K.contents draft.new.keeper.now) draft.old.pending (with_all c draft.old.pending.batch))) }
    ensures failed { result ≡ StoreError.Failed → Rose (K.faults draft.old.keeper.now) (K.faults draft.new.keeper.now) }
{
    mtn_put_revision::roster_held(draft, at)
}
