// The calls `plan` and `look`.
ghost use Rattle.std.specs.Prelude.{◌≡◌, ◌<◌, List, ℕ, None, Ok, Err, IfOk, IfErr, IfSome, OnOk, [], option_copied};
ghost use Rattle.mtn_conflicts.specs.ConflictText.{IsLesser};
ghost use Rattle.mtn_conflicts.specs.Lists.{AreClear, AreConflictsOf};
ghost use Rattle.mtn_conflicts.specs.Result.{ParentsAreDirs};
ghost use Rattle.mtn_history.specs.Damage.{IsDamage};
ghost use Rattle.mtn_history.specs.Errors.{IfStoreDamage};
ghost use Rattle.mtn_history.specs.Marked.{IsCounted};
ghost use Rattle.mtn_history.specs.Stands.{IsFounded};
ghost use Rattle.mtn_history_laws.specs.History.{Revision};
ghost use Rattle.mtn_model.specs.State.{State};
ghost use Rattle.mtn_plans.specs.Plans.{Ends, Looks, Plans};
ghost use Rattle.mtn_plans.specs.Sides.{side_refusal};
ghost use Rattle.mtn_ports.specs.Causes.{Rose};
ghost use Rattle.mtn_ports.specs.Kept.{Stays, with_all};
ghost use Rattle.mtn_put_revision.specs.Finding.{IsRefusal};
ghost use Rattle.mtn_resolve.specs.Texts.{AreResolutions};
ghost use Rattle.mtn_merge.specs.Given.{GivesResolutions, Overrides, OverridesAll};
ghost use Rattle.mtn_merge.specs.Plans.{AreShown, Gives, HasClear, HasIds, HasKept, HasTree, IsMadeOf, MergesText, outcomes};
ghost use Rattle.mtn_merge.specs.Sides.{IsSideOf};

use crate::answer::Planned;
use crate::dirs::parents_are_dirs;
use crate::given::{read_resolutions, resolve};
use crate::made::merged;
use crate::sides::{Compared, Side, sides_of};
use mtn_base::Id;
use mtn_conflicts::{Conflicts, conflicts};
use mtn_decide::Decisions;
use mtn_history::{Draft, HistoryError, StoreError};
use mtn_plans::MergeOutcome;
use mtn_ports::{Ident, Keeper};
use mtn_put_revision::roster_held;
use mtn_resolve::Resolutions;
use std::alloc::Global;

// That two revisions may be merged; UnknownRevision for the first that is not held, or Related.
fn tell_sides<K: Keeper>(
    alloc: Global,
    draft: &mut Draft<'_, K>,
    a: Id,
    b: Id,
) -> Result<(), HistoryError>
    ensures same_reference { draft.new.keeper.ghost_name ≡ draft.old.keeper.ghost_name }
    ensures stays { Stays K.contents K.leaves K.faults draft.old.keeper.now draft.new.keeper.now }
    ensures pending { draft.new.pending ≡ draft.old.pending }
    ensures told { (f : List ℕ → List ℕ) (s : State) (d : IsFounded f (K.contents draft.new.keeper.now) draft.old.pending s) → OnOk result (side_refusal d.stands.history a b ≡ None) }
    ensures refused { (f : List ℕ → List ℕ) (s : State) (d : IsFounded f (K.contents draft.new.keeper.now) draft.old.pending s) → IfErr result (IsRefusal (side_refusal d.stands.history a b)) }
    ensures damaged { IfSome (K.contents draft.new.keeper.now) (λ c. IsCounted draft.old.pending c → IfErr result (λ e. IfStoreDamage e (IsDamage (with_all c draft.old.pending.batch)))) }
    ensures failed { result ≡ Err (HistoryError.Store StoreError.Failed) → Rose (K.faults draft.old.keeper.now) (K.faults draft.new.keeper.now) }
{
    let _ = sides_of(alloc, draft, a, b)?;
    Ok(())
}

/// The conflicts of a merge of two revisions, also where there are none; UnknownRevision for the first that is not held, or
/// Related.
pub fn look<K: Keeper>(
    alloc: Global,
    draft: &mut Draft<'_, K>,
    a: Id,
    b: Id,
) -> Result<MergeOutcome, HistoryError>
    ensures same_reference { draft.new.keeper.ghost_name ≡ draft.old.keeper.ghost_name }
    ensures stays { Stays K.contents K.leaves K.faults draft.old.keeper.now draft.new.keeper.now }
    ensures pending { draft.new.pending ≡ draft.old.pending }
    ensures looks { (f : List ℕ → List ℕ) (s : State) (d : IsFounded f (K.contents draft.new.keeper.now) draft.old.pending s) → Gives (Looks d.stands.history a b) result }
    ensures shown { IfOk result AreShown }
    ensures damaged { IfSome (K.contents draft.new.keeper.now) (λ c. IsCounted draft.old.pending c → IfErr result (λ e. IfStoreDamage e (IsDamage (with_all c draft.old.pending.batch)))) }
    ensures failed { result ≡ Err (HistoryError.Store StoreError.Failed) → Rose (K.faults draft.old.keeper.now) (K.faults draft.new.keeper.now) }
{
    let Compared {
        left,
        right,
        decisions: _,
        conflicts,
    } = sides_of(alloc, draft, a, b)?;
    Ok(MergeOutcome::Conflicted {
        left: left.id,
        right: right.id,
        conflicts,
    })
}

// The text of the tree of decisions without conflicts.
fn text_of<I: Ident, K: Keeper>(
    alloc: Global,
    ident: &I,
    draft: &mut Draft<'_, K>,
    left: &Side,
    right: &Side,
    decisions: &Decisions,
) -> Result<Planned, HistoryError>
    requires below { left.now.at < draft.old.pending.count }
    requires clear { AreClear decisions.now }
    requires dirs { (f : List ℕ → List ℕ) (s : State) (d : IsFounded f (K.contents draft.old.keeper.now) draft.old.pending s) → ParentsAreDirs decisions.now.nodes }
    ensures same_reference { draft.new.keeper.ghost_name ≡ draft.old.keeper.ghost_name }
    ensures stays { Stays K.contents K.leaves K.faults draft.old.keeper.now draft.new.keeper.now }
    ensures pending { draft.new.pending ≡ draft.old.pending }
    ensures made { (h : List Revision) → IsSideOf h left.now → IsSideOf h right.now → Gives (IsMadeOf (I.meaning ident.now) h left.now.id right.now.id decisions.now) (outcomes result) }
    ensures kept { (h : List Revision) → IsSideOf h left.now → IsSideOf h right.now → IfOk result (HasKept (I.meaning ident.now) h left.now.id right.now.id decisions.now) }
    ensures ids { IfOk result (HasIds (I.meaning ident.now)) }
    ensures damaged { IfSome (K.contents draft.new.keeper.now) (λ c. IsCounted draft.old.pending c → IfErr result (λ e. IfStoreDamage e (IsDamage (with_all c draft.old.pending.batch)))) }
    ensures failed { result ≡ Err (HistoryError.Store StoreError.Failed) → Rose (K.faults draft.old.keeper.now) (K.faults draft.new.keeper.now) }
{
    if !parents_are_dirs(decisions.nodes()) {
        return Err(HistoryError::Store(roster_held(draft, left.at)));
    }
    merged(alloc, ident, left, right, decisions)
}

// What decisions that no resolution overrides any more come to: conflicts, or the text of their tree.
fn ends<I: Ident, K: Keeper>(
    alloc: Global,
    ident: &I,
    draft: &mut Draft<'_, K>,
    compared: Compared,
) -> Result<Planned, HistoryError>
    requires below { compared.left.at < draft.old.pending.count }
    requires lesser { IsLesser compared.left.id compared.right.id }
    requires conflicts { AreConflictsOf compared.decisions compared.conflicts }
    requires dirs { (f : List ℕ → List ℕ) (s : State) (d : IsFounded f (K.contents draft.old.keeper.now) draft.old.pending s) → ParentsAreDirs compared.decisions.nodes }
    ensures same_reference { draft.new.keeper.ghost_name ≡ draft.old.keeper.ghost_name }
    ensures stays { Stays K.contents K.leaves K.faults draft.old.keeper.now draft.new.keeper.now }
    ensures pending { draft.new.pending ≡ draft.old.pending }
    ensures ends { (h : List Revision) → IsSideOf h compared.left → IsSideOf h compared.right → Gives (Ends (I.meaning ident.now) h compared.left.id compared.right.id compared.decisions) (outcomes result) }
    ensures ids { IfOk result (HasIds (I.meaning ident.now)) }
    ensures clear { (h : List Revision) → IsSideOf h compared.left → IsSideOf h compared.right → IfOk result (HasClear (I.meaning ident.now) h compared.left.id compared.right.id compared.decisions) }
    ensures damaged { IfSome (K.contents draft.new.keeper.now) (λ c. IsCounted draft.old.pending c → IfErr result (λ e. IfStoreDamage e (IsDamage (with_all c draft.old.pending.batch)))) }
    ensures failed { result ≡ Err (HistoryError.Store StoreError.Failed) → Rose (K.faults draft.old.keeper.now) (K.faults draft.new.keeper.now) }
{
    let Compared {
        left,
        right,
        decisions,
        conflicts,
    } = compared;
    if !conflicts.none() {
        return Ok(Planned::Conflicted {
            left: left.id,
            right: right.id,
            conflicts,
        });
    }
    text_of(alloc, ident, draft, &left, &right, &decisions)
}

// Decisions after resolutions, and their conflicts.
fn decided_anew<K: Keeper>(
    alloc: Global,
    draft: &mut Draft<'_, K>,
    decisions: &Decisions,
    found: &Conflicts,
    resolutions: &Resolutions,
) -> Result<(Decisions, Conflicts), HistoryError>
    requires conflicts { AreConflictsOf decisions.now found.now }
    ensures same_reference { draft.new.keeper.ghost_name ≡ draft.old.keeper.ghost_name }
    ensures stays { Stays K.contents K.leaves K.faults draft.old.keeper.now draft.new.keeper.now }
    ensures pending { draft.new.pending ≡ draft.old.pending }
    ensures overrides { (f : List ℕ → List ℕ) (s : State) → IsFounded f (K.contents draft.new.keeper.now) draft.old.pending s →
        IfOk result (λ r. Overrides s.files decisions.now found.now resolutions.now (Ok r.0)) }
    ensures refuses { (f : List ℕ → List ℕ) (s : State) → IsFounded f (K.contents draft.new.keeper.now) draft.old.pending s →
        IfErr result (λ e. Overrides s.files decisions.now found.now resolutions.now (Err e)) }
    ensures conflicts { IfOk result (λ r. AreConflictsOf r.0 r.1) }
    ensures sound { IfErr result (λ e. IfStoreDamage e (λ _. ⊥)) }
    ensures failed { result ≡ Err (HistoryError.Store StoreError.Failed) → Rose (K.faults draft.old.keeper.now) (K.faults draft.new.keeper.now) }
{
    let decisions = resolve(alloc, draft, decisions, found, resolutions)?;
    let conflicts = conflicts(alloc, &decisions)?;
    Ok((decisions, conflicts))
}

// The same sides with the decisions after resolutions, and their conflicts.
fn overridden<K: Keeper>(
    alloc: Global,
    draft: &mut Draft<'_, K>,
    compared: Compared,
    resolutions: &Resolutions,
) -> Result<Compared, HistoryError>
    requires conflicts { AreConflictsOf compared.decisions compared.conflicts }
    ensures same_reference { draft.new.keeper.ghost_name ≡ draft.old.keeper.ghost_name }
    ensures stays { Stays K.contents K.leaves K.faults draft.old.keeper.now draft.new.keeper.now }
    ensures pending { draft.new.pending ≡ draft.old.pending }
    ensures overrides { (f : List ℕ → List ℕ) (s : State) → IsFounded f (K.contents draft.new.keeper.now) draft.old.pending s →
        OverridesAll s.files compared.decisions compared.conflicts resolutions.now result }
    ensures left { IfOk result (λ x. x.left ≡ compared.left) }
    ensures right { IfOk result (λ x. x.right ≡ compared.right) }
    ensures conflicts { IfOk result (λ x. AreConflictsOf x.decisions x.conflicts) }
    ensures sound { IfErr result (λ e. IfStoreDamage e (λ _. ⊥)) }
    ensures failed { result ≡ Err (HistoryError.Store StoreError.Failed) → Rose (K.faults draft.old.keeper.now) (K.faults draft.new.keeper.now) }
{
    let (decisions, conflicts) = decided_anew(
        alloc,
        draft,
        &compared.decisions,
        &compared.conflicts,
        resolutions,
    )?;
    Ok(Compared {
        left: compared.left,
        right: compared.right,
        decisions,
        conflicts,
    })
}

/// What a merge of two revisions comes to: the text of the merged revision with its id and, where the text is new to the history,
/// the tree that it makes; or the conflicts that resolutions leave. It is refused, in this order, for the first revision that is
/// not held; for two that are related; for the first resolution that does not fit; for the first content that is picked and not
/// held; and where no conflict is left, for a tree of too many nodes, a path that is too long, and a text of more than 64 MiB.
/// The draft's state stays.
pub fn plan<I: Ident, K: Keeper>(
    alloc: Global,
    ident: &I,
    draft: &mut Draft<'_, K>,
    a: Id,
    b: Id,
    resolutions: &Resolutions,
) -> Result<Planned, HistoryError>
    ensures same_reference { draft.new.keeper.ghost_name ≡ draft.old.keeper.ghost_name }
    ensures stays { Stays K.contents K.leaves K.faults draft.old.keeper.now draft.new.keeper.now }
    ensures pending { draft.new.pending ≡ draft.old.pending }
    ensures plans { (s : State) (d : IsFounded (I.meaning ident.now) (K.contents draft.new.keeper.now) draft.old.pending s) →
        Gives (Plans (I.meaning ident.now) s.files d.stands.history a b resolutions.now) (outcomes result) }
    ensures ids { IfOk result (HasIds (I.meaning ident.now)) }
    // Only of lawful resolutions: with others the text may be none that is read.
    ensures tree { (s : State) (d : IsFounded (I.meaning ident.now) (K.contents draft.new.keeper.now) draft.old.pending s) → AreResolutions [] resolutions.now →
        IfOk result (HasTree (I.meaning ident.now) s.files d.stands.history) }
    ensures damaged { IfSome (K.contents draft.new.keeper.now) (λ c. IsCounted draft.old.pending c → IfErr result (λ e. IfStoreDamage e (IsDamage (with_all c draft.old.pending.batch)))) }
    ensures failed { result ≡ Err (HistoryError.Store StoreError.Failed) → Rose (K.faults draft.old.keeper.now) (K.faults draft.new.keeper.now) }
{
    let compared = sides_of(alloc, draft, a, b)?;
    if resolutions.items().is_empty() {
        return ends(alloc, ident, draft, compared);
    }
    let settled = overridden(alloc, draft, compared, resolutions)?;
    ends(alloc, ident, draft, settled)
}

// The resolutions of a text, or none where there is no text.
fn given(alloc: Global, text: Option<&[u8]>) -> Result<Resolutions, HistoryError>
    ensures { GivesResolutions (option_copied text.entry) result }
{
    match text {
        Some(text) => read_resolutions(alloc, text),
        None => Ok(Resolutions::new(Vec::new(alloc))),
    }
}

/// The same with the resolutions that a text spells, or none where there is no text. TextTooLong and the faults of the text come
/// behind UnknownRevision and Related.
pub fn plan_with<I: Ident, K: Keeper>(
    alloc: Global,
    ident: &I,
    draft: &mut Draft<'_, K>,
    a: Id,
    b: Id,
    text: Option<&[u8]>,
) -> Result<Planned, HistoryError>
    ensures same_reference { draft.new.keeper.ghost_name ≡ draft.old.keeper.ghost_name }
    ensures stays { Stays K.contents K.leaves K.faults draft.old.keeper.now draft.new.keeper.now }
    ensures pending { draft.new.pending ≡ draft.old.pending }
    ensures merges { (s : State) (d : IsFounded (I.meaning ident.now) (K.contents draft.new.keeper.now) draft.old.pending s) →
        Gives (MergesText (I.meaning ident.now) s.files d.stands.history a b (option_copied text.entry)) (outcomes result) }
    ensures ids { IfOk result (HasIds (I.meaning ident.now)) }
    ensures tree { (s : State) (d : IsFounded (I.meaning ident.now) (K.contents draft.new.keeper.now) draft.old.pending s) → IfOk result (HasTree (I.meaning ident.now) s.files d.stands.history) }
    ensures damaged { IfSome (K.contents draft.new.keeper.now) (λ c. IsCounted draft.old.pending c → IfErr result (λ e. IfStoreDamage e (IsDamage (with_all c draft.old.pending.batch)))) }
    ensures failed { result ≡ Err (HistoryError.Store StoreError.Failed) → Rose (K.faults draft.old.keeper.now) (K.faults draft.new.keeper.now) }
{
    match given(alloc, text) {
        Ok(resolutions) => plan(alloc, ident, draft, a, b, &resolutions),
        Err(error) => {
            tell_sides(alloc, draft, a, b)?;
            Err(error)
        }
    }
}
