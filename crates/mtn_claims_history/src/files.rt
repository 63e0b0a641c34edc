//! Files of a draft.
ghost use Rattle.std.specs.Prelude.{◌≡◌, ◌≤◌, ◌+◌, List, ℕ, Some, Err, IfOk, IfErr, IfSome, OnErr};
ghost use Rattle.mtn_model.specs.State.{State};
ghost use Rattle.mtn_model.specs.Table.{Contents};
ghost use Rattle.mtn_ports.specs.Causes.{Rose};
ghost use Rattle.mtn_ports.specs.Kept.{Stays, with_all};
ghost use Rattle.mtn_history.specs.Asking.{OnlyAsks};
ghost use Rattle.mtn_history.specs.Errors.{IfDamage, IfStoreDamage};
ghost use Rattle.mtn_history.specs.Files.{AcceptsFile, FindsFile, IsFileHeld};
ghost use Rattle.mtn_history.specs.Stands.{IsDraft};

use mtn_base::{Bytes, Id};
use mtn_history::{Draft, HistoryError, StoreError};
use mtn_ports::{Ident, Keeper};

/// `Draft::put_file`.
pub fn put_file<I: Ident, K: Keeper>(
    draft: &mut Draft<'_, K>,
    ident: &I,
    bytes: Bytes,
) -> Result<Id, HistoryError>
    ensures same_reference { draft.new.keeper.ghost_name ≡ draft.old.keeper.ghost_name }
    ensures stays { Stays K.contents K.leaves K.faults draft.old.keeper.now draft.new.keeper.now }
    ensures accepts { (c : Contents) (s : State) → K.contents draft.new.keeper.now ≡ Some c → IsDraft (I.meaning ident.now) c draft.old.pending s
        → AcceptsFile (I.meaning ident.now) c s bytes result draft.new.pending }
    ensures err { OnErr result (draft.new.pending ≡ draft.old.pending) }
    ensures sound { IfErr result (λ e. IfStoreDamage e (λ _. ⊥)) }
    ensures failed { result ≡ Err (HistoryError.Store StoreError.Failed) → Rose (K.faults draft.old.keeper.now) (K.faults draft.new.keeper.now) }
    ensures reads { K.reads draft.new.keeper.now ≤ K.reads draft.old.keeper.now + 1 }
{
    draft.put_file(ident, bytes)
}

/// `Draft::has_file`.
pub fn has_file<K: Keeper>(draft: &mut Draft<'_, K>, id: Id) -> Result<bool, StoreError>
    ensures asks { OnlyAsks K.contents K.leaves K.faults K.reads 2 draft.old draft.new }
    ensures found { IfSome (K.contents draft.new.keeper.now) (λ c. IfOk result (IsFileHeld (with_all c draft.old.pending.batch) id)) }
    ensures failed { result ≡ Err StoreError.Failed → Rose (K.faults draft.old.keeper.now) (K.faults draft.new.keeper.now) }
    ensures sound { IfErr result (λ e. IfDamage e (λ _. ⊥)) }
{
    draft.has_file(id)
}

/// `Draft::file`.
pub fn file<K: Keeper>(
    draft: &mut Draft<'_, K>,
    id: Id,
    out: &mut Vec<u8>,
) -> Result<(), HistoryError>
    ensures asks { OnlyAsks K.contents K.leaves K.faults K.reads 1 draft.old draft.new }
    ensures finds { (f : List ℕ → List ℕ) (c : Contents) (s : State) → K.contents draft.new.keeper.now ≡ Some c → IsDraft f c draft.old.pending s
        → FindsFile s id result out.new.items }
    ensures sound { IfErr result (λ e. IfStoreDamage e (λ _. ⊥)) }
    ensures failed { result ≡ Err (HistoryError.Store StoreError.Failed) → Rose (K.faults draft.old.keeper.now) (K.faults draft.new.keeper.now) }
{
    draft.file(id, out)
}
