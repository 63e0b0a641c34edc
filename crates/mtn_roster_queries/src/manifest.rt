// Manifests.
ghost use Rattle.std.specs.Prelude.{◌≡◌, List, ℕ, Err, IfOk, IfErr, IfSome};
ghost use Rattle.mtn_basic_io.specs.Spelling.{spelling};
ghost use Rattle.mtn_history.specs.Damage.{IsDamage};
ghost use Rattle.mtn_history.specs.Errors.{IfStoreDamage};
ghost use Rattle.mtn_history.specs.Marked.{IsCounted};
ghost use Rattle.mtn_history.specs.Stands.{IsFounded};
ghost use Rattle.mtn_manifest.specs.Manifest.{manifest_of};
ghost use Rattle.mtn_model.specs.State.{State};
ghost use Rattle.mtn_ports.specs.Causes.{Rose};
ghost use Rattle.mtn_ports.specs.Kept.{Stays, with_all};
ghost use Rattle.mtn_roster_queries.specs.Answers.{Gives};
ghost use Rattle.mtn_answers.specs.Views.{manifest_at};

use mtn_base::{Bytes, Id, NoMemory};
use mtn_history::{Draft, HistoryError, StoreError};
use mtn_ports::Keeper;
use mtn_roster::Roster;
use std::alloc::Global;

fn text_of(alloc: Global, roster: &Roster) -> Result<Bytes, NoMemory>
    ensures { IfOk result (λ text. text ≡ spelling (manifest_of roster.now)) }
{
    let mut text = Vec::new(alloc);
    mtn_manifest::write(roster, &mut text)?;
    Ok(Bytes::from_vec(text))
}

/// The manifest of a revision's tree; UnknownRevision where the log has no such id.
pub fn get_manifest_of<K: Keeper>(draft: &mut Draft<'_, K>, id: Id) -> Result<Bytes, HistoryError>
    ensures same_reference { draft.new.keeper.ghost_name ≡ draft.old.keeper.ghost_name }
    ensures stays { Stays K.contents K.leaves K.faults draft.old.keeper.now draft.new.keeper.now }
    ensures pending { draft.new.pending ≡ draft.old.pending }
    ensures found { (f : List ℕ → List ℕ) (s : State) (d : IsFounded f (K.contents draft.new.keeper.now) draft.old.pending s) → Gives (λ answer. answer ≡ manifest_at d.stands.history id) result }
    ensures damaged { IfSome (K.contents draft.new.keeper.now) (λ c. IsCounted draft.old.pending c → IfErr result (λ e. IfStoreDamage e (IsDamage (with_all c draft.old.pending.batch)))) }
    ensures failed { result ≡ Err (HistoryError.Store StoreError.Failed) → Rose (K.faults draft.old.keeper.now) (K.faults draft.new.keeper.now) }
{
    let (_, held) = draft.roster_of(id)?;
    let alloc = draft.alloc();
    Ok(text_of(alloc, held.marked().roster())?)
}
