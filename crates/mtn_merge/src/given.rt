// Resolutions: their text, and the decisions after them.
ghost use Rattle.std.specs.Prelude.{◌≡◌, List, ℕ, None, Err, IfOk, IfErr};
ghost use Rattle.mtn_conflicts.specs.Lists.{AreConflictsOf};
ghost use Rattle.mtn_history.specs.Errors.{IfDamage, IfStoreDamage};
ghost use Rattle.mtn_history.specs.Stands.{IsFounded};
ghost use Rattle.mtn_model.specs.State.{State};
ghost use Rattle.mtn_plans.specs.Given.{override_cause, text_cause};
ghost use Rattle.mtn_ports.specs.Causes.{Rose};
ghost use Rattle.mtn_ports.specs.Kept.{Stays};
ghost use Rattle.mtn_resolve.specs.Overriding.{pick_in};
ghost use Rattle.mtn_merge.specs.Given.{first_unknown, IsRefusedFor, Overrides, ReadsResolutions, unknown_in};

use mtn_base::{Cause, Id, MAX_TEXT};
use mtn_conflicts::Conflicts;
use mtn_decide::Decisions;
use mtn_history::{Draft, HistoryError, StoreError};
use mtn_ports::Keeper;
use mtn_resolve::{OverrideError, Resolution, Resolutions, ResolveTextError, override_with, read};
use std::alloc::Global;

// What a text that spells no resolutions is refused for.
fn unread(error: ResolveTextError) -> HistoryError
    ensures { IsRefusedFor (text_cause error) result }
{
    HistoryError::Refused(match error {
        ResolveTextError::NotText { offset } => Cause::NotText { offset },
        ResolveTextError::BadStanza { number } => Cause::BadStanza { number },
        ResolveTextError::BadOrder { number } => Cause::BadOrder { number },
        ResolveTextError::Repeated { number } => Cause::Repeated { number },
        ResolveTextError::NoMemory => return HistoryError::Store(StoreError::NoMemory),
    })
}

/// The resolutions that a text spells; TextTooLong, or the fault of a text that spells none.
pub fn read_resolutions(alloc: Global, text: &[u8]) -> Result<Resolutions, HistoryError>
    ensures { ReadsResolutions text.now result }
{
    if text.len() > MAX_TEXT {
        return Err(HistoryError::Refused(Cause::TextTooLong {
            length: text.len() as u64,
        }));
    }
    match read(alloc, text) {
        Ok(resolutions) => Ok(resolutions),
        Err(error) => Err(unread(error)),
    }
}

// What a resolution that does not fit is refused for.
fn unfitting(error: OverrideError) -> HistoryError
    ensures { IsRefusedFor (override_cause error) result }
{
    HistoryError::Refused(match error {
        OverrideError::UnknownNode { number } => Cause::UnknownNode { number },
        OverrideError::NotADirectory { number } => Cause::NotADirectory { number },
        OverrideError::NotAConflict { number } => Cause::NotAConflict { number },
        OverrideError::NoMemory => return HistoryError::Store(StoreError::NoMemory),
    })
}

// The content that a resolution picks.
fn pick_of(resolution: &Resolution) -> Option<Id>
    ensures { result ≡ pick_in resolution.now }
{
    match resolution {
        Resolution::Content { node: _, pick } => Some(*pick),
        _ => None,
    }
}

// The content that a resolution picks, where it is not held.
fn unknown_of<K: Keeper>(
    draft: &mut Draft<'_, K>,
    resolution: &Resolution,
) -> Result<Option<Id>, StoreError>
    ensures same_reference { draft.new.keeper.ghost_name ≡ draft.old.keeper.ghost_name }
    ensures stays { Stays K.contents K.leaves K.faults draft.old.keeper.now draft.new.keeper.now }
    ensures pending { draft.new.pending ≡ draft.old.pending }
    ensures found { (f : List ℕ → List ℕ) (s : State) → IsFounded f (K.contents draft.new.keeper.now) draft.old.pending s →
        IfOk result (λ id. id ≡ unknown_in s.files resolution.now) }
    ensures sound { IfErr result (λ e. IfDamage e (λ _. ⊥)) }
    ensures failed { result ≡ Err StoreError.Failed → Rose (K.faults draft.old.keeper.now) (K.faults draft.new.keeper.now) }
{
    match pick_of(resolution) {
        None => Ok(None),
        Some(id) => {
            if draft.has_file(id)? {
                Ok(None)
            } else {
                Ok(Some(id))
            }
        }
    }
}

// The first content that resolutions pick and that is not held. No content is read.
fn unknown_pick<K: Keeper>(
    draft: &mut Draft<'_, K>,
    resolutions: &[Resolution],
) -> Result<Option<Id>, StoreError>
    ensures same_reference { draft.new.keeper.ghost_name ≡ draft.old.keeper.ghost_name }
    ensures stays { Stays K.contents K.leaves K.faults draft.old.keeper.now draft.new.keeper.now }
    ensures pending { draft.new.pending ≡ draft.old.pending }
    ensures found { (f : List ℕ → List ℕ) (s : State) → IsFounded f (K.contents draft.new.keeper.now) draft.old.pending s →
        IfOk result (λ id. id ≡ first_unknown s.files resolutions.now) }
    ensures sound { IfErr result (λ e. IfDamage e (λ _. ⊥)) }
    ensures failed { result ≡ Err StoreError.Failed → Rose (K.faults draft.old.keeper.now) (K.faults draft.new.keeper.now) }
{
    for resolution in resolutions {
        if let Some(id) = unknown_of(draft, resolution)? {
            return Ok(Some(id));
        }
    }
    Ok(None)
}

/// The decisions after resolutions; the fault of the first that does not fit the decisions before any, or UnknownFile.
pub fn resolve<K: Keeper>(
    alloc: Global,
    draft: &mut Draft<'_, K>,
    decisions: &Decisions,
    conflicts: &Conflicts,
    resolutions: &Resolutions,
) -> Result<Decisions, HistoryError>
    requires conflicts { AreConflictsOf decisions.now conflicts.now }
    ensures same_reference { draft.new.keeper.ghost_name ≡ draft.old.keeper.ghost_name }
    ensures stays { Stays K.contents K.leaves K.faults draft.old.keeper.now draft.new.keeper.now }
    ensures pending { draft.new.pending ≡ draft.old.pending }
    ensures overrides { (f : List ℕ → List ℕ) (s : State) → IsFounded f (K.contents draft.new.keeper.now) draft.old.pending s →
        Overrides s.files decisions.now conflicts.now resolutions.now result }
    ensures sound { IfErr result (λ e. IfStoreDamage e (λ _. ⊥)) }
    ensures failed { result ≡ Err (HistoryError.Store StoreError.Failed) → Rose (K.faults draft.old.keeper.now) (K.faults draft.new.keeper.now) }
{
    let overridden = match override_with(alloc, decisions, conflicts, resolutions) {
        Ok(overridden) => overridden,
        Err(error) => return Err(unfitting(error)),
    };
    if let Some(id) = unknown_pick(draft, resolutions.items())? {
        return Err(HistoryError::Refused(Cause::UnknownFile { id }));
    }
    Ok(overridden)
}
