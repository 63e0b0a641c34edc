//! The promise of `mtn_sending`: the call that exports, under its own clauses with the call as its body. It says nothing of its
//! own.
//!
//! The edits of `must-fail/` put a wrong body in the place of the call, and each is refused: so a body that means something else
//! does not meet what the crate promises.
#![tactic(auto)]

ghost use Rattle.std.specs.Prelude.{◌≡◌, List as Seq, ℕ, Some, Err, IfErr, IfSome};
ghost use Rattle.mtn_history.specs.Damage.{IsDamage};
ghost use Rattle.mtn_history.specs.Errors.{IfStoreDamage};
ghost use Rattle.mtn_history.specs.Marked.{IsCounted};
ghost use Rattle.mtn_history.specs.Stands.{IsDraft};
ghost use Rattle.mtn_history_laws.specs.History.{Revision};
ghost use Rattle.mtn_model.specs.State.{State};
ghost use Rattle.mtn_model.specs.Table.{Contents};
ghost use Rattle.mtn_ports.specs.Causes.{Rose};
ghost use Rattle.mtn_ports.specs.Kept.{Stays, with_all};
ghost use Rattle.mtn_replay.specs.Lawful.{IsHistory};
ghost use Rattle.mtn_sending.specs.Sending.{Exports};

use mtn_base::{Bytes, Id};
use mtn_history::{Draft, HistoryError, StoreError};
use mtn_ports::Keeper;
use std::alloc::Global;

/// As `export`.
pub fn export<K: Keeper>(
    alloc: Global,
    draft: &mut Draft<'_, K>,
    id: Id,
    have: &[Id],
) -> Result<Bytes, HistoryError>
    ensures same_reference { draft.new.keeper.ghost_name ≡ draft.old.keeper.ghost_name }
    ensures stays { Stays K.contents K.leaves K.faults draft.old.keeper.now draft.new.keeper.now }
    ensures pending { draft.new.pending ≡ draft.old.pending }
    ensures found { (f : Seq ℕ → Seq ℕ) (c : Contents) (s : State) → K.contents draft.new.keeper.now ≡ Some c → IsDraft f c draft.old.pending s
        → (h : Seq Revision) × IsHistory f s.files s.log h × Exports s h id have.now result }
    ensures damaged { IfSome (K.contents draft.new.keeper.now) (λ c. IsCounted draft.old.pending c
        → IfErr result (λ e. IfStoreDamage e (IsDamage (with_all c draft.old.pending.batch)))) }
    ensures failed { result ≡ Err (HistoryError.Store StoreError.Failed) → Rose (K.faults draft.old.keeper.now) (K.faults draft.new.keeper.now) }
{
    mtn_sending::export(alloc, draft, id, have)
}
