// Branches and heads.
ghost use Rattle.std.specs.Prelude.{◌≡◌, List as Seq, ℕ, Err, IfErr, IfOk, IfSome};
ghost use Rattle.mtn_commands.specs.Certifying.{AreHeadsOver};
ghost use Rattle.mtn_commands.specs.Drafts.{Drafts};
ghost use Rattle.mtn_history.specs.Damage.{IsDamage};
ghost use Rattle.mtn_history.specs.Errors.{IfDamage};
ghost use Rattle.mtn_history.specs.Marked.{IsCounted};
ghost use Rattle.mtn_ports.specs.Causes.{Rose};
ghost use Rattle.mtn_ports.specs.Kept.{Stays, with_all};
ghost use Rattle.mtn_step.specs.Step.{Steps};

use mtn_base::{Bytes, Id};
use mtn_history::{Draft, HistoryError, StoreError};
use mtn_ports::{Ident, Keeper};
use mtn_step::Call;
use std::alloc::Global;

/// `mtn_commands::heads::heads_of`.
pub fn heads_of<K: Keeper>(
    alloc: Global,
    draft: &mut Draft<'_, K>,
    branch: &[u8],
) -> Result<Vec<Id>, StoreError>
    ensures same_reference { draft.new.keeper.ghost_name ≡ draft.old.keeper.ghost_name }
    ensures stays { Stays K.contents K.leaves K.faults draft.old.keeper.now draft.new.keeper.now }
    ensures pending { draft.new.pending ≡ draft.old.pending }
    ensures found { IfOk result (λ ids. (f : Seq ℕ → Seq ℕ) → AreHeadsOver f (K.contents draft.new.keeper.now) draft.old.pending branch.now ids.items) }
    ensures damaged { IfSome (K.contents draft.new.keeper.now) (λ c. IsCounted draft.old.pending c → IfErr result (λ e. IfDamage e (IsDamage (with_all c draft.old.pending.batch)))) }
    ensures failed { result ≡ Err StoreError.Failed → Rose (K.faults draft.old.keeper.now) (K.faults draft.new.keeper.now) }
{
    mtn_commands::heads::heads_of(alloc, draft, branch)
}

/// `mtn_commands::heads::heads`.
pub fn heads<I: Ident, K: Keeper>(
    alloc: Global,
    ident: &I,
    branch: &Bytes,
    payload: &[u8],
    draft: &mut Draft<'_, K>,
) -> Result<Bytes, HistoryError>
    ensures same_reference { draft.new.keeper.ghost_name ≡ draft.old.keeper.ghost_name }
    ensures drafts { Drafts (I.meaning ident.now) K.contents K.leaves K.faults draft.old.keeper.now draft.new.keeper.now draft.old.pending draft.new.pending
        (Steps (I.meaning ident.now) (Call.Heads branch.now) payload.now) result }
{
    mtn_commands::heads::heads(alloc, ident, branch, payload, draft)
}

/// `mtn_commands::heads::branches`.
pub fn branches<I: Ident, K: Keeper>(
    alloc: Global,
    ident: &I,
    payload: &[u8],
    draft: &mut Draft<'_, K>,
) -> Result<Bytes, HistoryError>
    ensures same_reference { draft.new.keeper.ghost_name ≡ draft.old.keeper.ghost_name }
    ensures drafts { Drafts (I.meaning ident.now) K.contents K.leaves K.faults draft.old.keeper.now draft.new.keeper.now draft.old.pending draft.new.pending
        (Steps (I.meaning ident.now) Call.Branches payload.now) result }
{
    mtn_commands::heads::branches(alloc, ident, payload, draft)
}
