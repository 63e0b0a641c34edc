//! Public calls of `mtn_merge` under their own contracts, for the wrong bodies of must-fail/.
#![tactic(auto)]

pub mod sides;
pub mod text;

ghost use Rattle.std.specs.Prelude.{◌≡◌, List, ℕ, Err, IfOk, IfErr, IfSome, [], option_copied};
ghost use Rattle.mtn_history.specs.Damage.{IsDamage};
ghost use Rattle.mtn_history.specs.Errors.{IfStoreDamage};
ghost use Rattle.mtn_history.specs.Marked.{IsCounted};
ghost use Rattle.mtn_history.specs.Stands.{IsFounded};
ghost use Rattle.mtn_model.specs.State.{State};
ghost use Rattle.mtn_plans.specs.Plans.{Looks, Plans};
ghost use Rattle.mtn_ports.specs.Causes.{Rose};
ghost use Rattle.mtn_ports.specs.Kept.{Stays, with_all};
ghost use Rattle.mtn_resolve.specs.Texts.{AreResolutions};
ghost use Rattle.mtn_merge.specs.Plans.{AreShown, Gives, HasIds, HasTree, MergesText, outcomes};

use mtn_base::{Bytes, Cause, Id, MAX_TEXT};
use mtn_history::{Draft, HistoryError, StoreError};
use mtn_merge::{MergeOutcome, Planned, look, plan, plan_with};
use mtn_ports::{Ident, Keeper};
use mtn_resolve::{Resolution, Resolutions};
use std::alloc::Global;

/// `look`.
pub fn looked<K: Keeper>(
    alloc: Global,
    draft: &mut Draft<'_, K>,
    a: Id,
    b: Id,
) -> Result<MergeOutcome, HistoryError>
    ensures same_reference { draft.new.keeper.ghost_name ≡ draft.old.keeper.ghost_name }
    ensures stays { Stays K.contents K.leaves K.faults draft.old.keeper.now draft.new.keeper.now }
    ensures pending { draft.new.pending ≡ draft.old.pending }
    ensures looks { (f : List ℕ → List ℕ) (s : State) (d : IsFounded f (K.contents draft.new.keeper.now) draft.old.pending s) → Gives (Looks d.stands.history a b) result }
    ensures shown { IfOk result AreShown }
    ensures damaged { IfSome (K.contents draft.new.keeper.now) (λ c. IsCounted draft.old.pending c → IfErr result (λ e. IfStoreDamage e (IsDamage (with_all c draft.old.pending.batch)))) }
    ensures failed { result ≡ Err (HistoryError.Store StoreError.Failed) → Rose (K.faults draft.old.keeper.now) (K.faults draft.new.keeper.now) }
{
    look(alloc, draft, a, b)
}

/// `plan`.
pub fn planned<I: Ident, K: Keeper>(
    alloc: Global,
    ident: &I,
    draft: &mut Draft<'_, K>,
    a: Id,
    b: Id,
    resolutions: &Resolutions,
) -> Result<Planned, HistoryError>
    ensures same_reference { draft.new.keeper.ghost_name ≡ draft.old.keeper.ghost_name }
    ensures stays { Stays K.contents K.leaves K.faults draft.old.keeper.now draft.new.keeper.now }
    ensures pending { draft.new.pending ≡ draft.old.pending }
    ensures plans { (s : State) (d : IsFounded (I.meaning ident.now) (K.contents draft.new.keeper.now) draft.old.pending s) →
        Gives (Plans (I.meaning ident.now) s.files d.stands.history a b resolutions.now) (outcomes result) }
    ensures ids { IfOk result (HasIds (I.meaning ident.now)) }
    // Only of lawful resolutions: with others the text may be none that is read.
    ensures tree { (s : State) (d : IsFounded (I.meaning ident.now) (K.contents draft.new.keeper.now) draft.old.pending s) → AreResolutions [] resolutions.now →
        IfOk result (HasTree (I.meaning ident.now) s.files d.stands.history) }
    ensures damaged { IfSome (K.contents draft.new.keeper.now) (λ c. IsCounted draft.old.pending c → IfErr result (λ e. IfStoreDamage e (IsDamage (with_all c draft.old.pending.batch)))) }
    ensures failed { result ≡ Err (HistoryError.Store StoreError.Failed) → Rose (K.faults draft.old.keeper.now) (K.faults draft.new.keeper.now) }
{
    plan(alloc, ident, draft, a, b, resolutions)
}

/// `plan_with`.
pub fn planned_with<I: Ident, K: Keeper>(
    alloc: Global,
    ident: &I,
    draft: &mut Draft<'_, K>,
    a: Id,
    b: Id,
    text: Option<&[u8]>,
) -> Result<Planned, HistoryError>
    ensures same_reference { draft.new.keeper.ghost_name ≡ draft.old.keeper.ghost_name }
    ensures stays { Stays K.contents K.leaves K.faults draft.old.keeper.now draft.new.keeper.now }
    ensures pending { draft.new.pending ≡ draft.old.pending }
    ensures merges { (s : State) (d : IsFounded (I.meaning ident.now) (K.contents draft.new.keeper.now) draft.old.pending s) →
        Gives (MergesText (I.meaning ident.now) s.files d.stands.history a b (option_copied text.entry)) (outcomes result) }
    ensures ids { IfOk result (HasIds (I.meaning ident.now)) }
    ensures tree { (s : State) (d : IsFounded (I.meaning ident.now) (K.contents draft.new.keeper.now) draft.old.pending s) → IfOk result (HasTree (I.meaning ident.now) s.files d.stands.history) }
    ensures damaged { IfSome (K.contents draft.new.keeper.now) (λ c. IsCounted draft.old.pending c → IfErr result (λ e. IfStoreDamage e (IsDamage (with_all c draft.old.pending.batch)))) }
    ensures failed { result ≡ Err (HistoryError.Store StoreError.Failed) → Rose (K.faults draft.old.keeper.now) (K.faults draft.new.keeper.now) }
{
    plan_with(alloc, ident, draft, a, b, text)
}
