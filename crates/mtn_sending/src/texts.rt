// The text of a revision that the log has.
ghost use Rattle.std.specs.Prelude.{◌≡◌, ◌⊎◌, List, ℕ, Some, Err, IfErr, IfOk, IfSome};
ghost use Rattle.mtn_changes.specs.declared.change.Revision.{Revision as Spelled};
ghost use Rattle.mtn_history.specs.Errors.{IfDamage};
ghost use Rattle.mtn_history.specs.Logs.{IsHeldAt};
ghost use Rattle.mtn_history.specs.Stands.{IsFounded};
ghost use Rattle.mtn_history.specs.Texts.{TextDamage};
ghost use Rattle.mtn_model.specs.State.{State};
ghost use Rattle.mtn_ports.specs.Causes.{Rose};
ghost use Rattle.mtn_ports.specs.Kept.{Stays, with_all};
ghost use Rattle.mtn_replay.specs.Lawful.{Spells};
ghost use Rattle.mtn_replay.specs.Texts.{text_under};
ghost use Rattle.mtn_sending.specs.Sending.{Gives, is_wanting};

use mtn_ancestry::Pos;
use mtn_base::Id;
use mtn_changes::{ChangeTextError, Revision, read_revision};
use mtn_history::{Draft, HistoryError, StoreError};
use mtn_ports::Keeper;

/// Replaces `text` by the text of the revision at a position. Where it has none the log's record there is shown.
pub fn read_text<K: Keeper>(
    draft: &mut Draft<'_, K>,
    at: Pos,
    id: Id,
    text: &mut Vec<u8>,
) -> Result<(), StoreError>
    ensures same_reference { draft.new.keeper.ghost_name ≡ draft.old.keeper.ghost_name }
    ensures stays { Stays K.contents K.leaves K.faults draft.old.keeper.now draft.new.keeper.now }
    ensures pending { draft.new.pending ≡ draft.old.pending }
    ensures found { (f : List ℕ → List ℕ) (s : State) → IsFounded f (K.contents draft.new.keeper.now) draft.old.pending s
        → (held : List ℕ) → text_under s.log id.0 ≡ Some held → Gives result (λ _. held ≡ text.new.items) }
    ensures shown { IfSome (K.contents draft.new.keeper.now) (λ c. IfErr result (λ e. IfDamage e
        (λ d. TextDamage (with_all c draft.old.pending.batch) d ⊎ IsHeldAt (with_all c draft.old.pending.batch) at d))) }
    ensures failed { result ≡ Err StoreError.Failed → Rose (K.faults draft.old.keeper.now) (K.faults draft.new.keeper.now) }
{
    match draft.text_of(id, text) {
        Ok(()) => Ok(()),
        Err(HistoryError::Refused(_)) => Err(draft.log_held(at)),
        Err(HistoryError::Store(error)) => Err(error),
    }
}

// Whether a text was not read for want of memory alone.
fn wants_memory(error: ChangeTextError) -> bool
    ensures { result ≡ is_wanting error }
{
    match error {
        ChangeTextError::NoMemory => true,
        _ => false,
    }
}

/// The revision that a text spells. Where it spells none the log's record at its position is shown.
pub fn spelled<K: Keeper>(
    draft: &mut Draft<'_, K>,
    at: Pos,
    text: &[u8],
) -> Result<Revision, StoreError>
    ensures same_reference { draft.new.keeper.ghost_name ≡ draft.old.keeper.ghost_name }
    ensures stays { Stays K.contents K.leaves K.faults draft.old.keeper.now draft.new.keeper.now }
    ensures pending { draft.new.pending ≡ draft.old.pending }
    ensures read { IfOk result (λ r. Spells text.now r) }
    ensures sound { (r : Spelled) → Spells text.now r → IfErr result (λ e. IfDamage e (λ _. ⊥)) }
    ensures shown { IfSome (K.contents draft.new.keeper.now) (λ c. IfErr result (λ e. IfDamage e (IsHeldAt (with_all c draft.old.pending.batch) at))) }
    ensures failed { result ≡ Err StoreError.Failed → Rose (K.faults draft.old.keeper.now) (K.faults draft.new.keeper.now) }
{
    match read_revision(draft.alloc(), text) {
        Ok(revision) => Ok(revision),
        Err(error) => {
            if wants_memory(error) {
                Err(StoreError::NoMemory)
            } else {
                Err(draft.log_held(at))
            }
        }
    }
}
