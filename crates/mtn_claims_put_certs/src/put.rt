//! Certificates and names that are put.
ghost use Rattle.std.specs.Prelude.{◌≡◌, ◌≤◌, ◌+◌, true, List, ℕ, Some, Err, IfErr, IfSome, OnErr};
ghost use Rattle.mtn_certs.specs.Certificates.{is_field};
ghost use Rattle.mtn_history.specs.Errors.{IfStoreDamage};
ghost use Rattle.mtn_history.specs.Stands.{IsDraft};
ghost use Rattle.mtn_history.specs.Texts.{TextDamage};
ghost use Rattle.mtn_model.specs.State.{State};
ghost use Rattle.mtn_model.specs.Table.{Contents};
ghost use Rattle.mtn_ports.specs.Causes.{Rose};
ghost use Rattle.mtn_ports.specs.Kept.{Stays, with_all};
ghost use Rattle.mtn_put_certs.specs.Accepting.{AcceptsCert, AcceptsKey};

use mtn_base::Id;
use mtn_certs::Cert;
use mtn_history::{Draft, HistoryError, StoreError};
use mtn_ports::Keeper;

/// As `put_cert`.
pub fn put_cert<K: Keeper>(draft: &mut Draft<'_, K>, cert: &Cert) -> Result<(), HistoryError>
    ensures same_reference { draft.new.keeper.ghost_name ≡ draft.old.keeper.ghost_name }
    ensures stays { Stays K.contents K.leaves K.faults draft.old.keeper.now draft.new.keeper.now }
    ensures accepts { (f : List ℕ → List ℕ) (c : Contents) (s : State) → K.contents draft.new.keeper.now ≡ Some c → IsDraft f c draft.old.pending s
        → AcceptsCert f c s cert.now result draft.new.pending }
    ensures err { OnErr result (draft.new.pending ≡ draft.old.pending) }
    ensures damaged { IfSome (K.contents draft.new.keeper.now) (λ c. IfErr result (λ e. IfStoreDamage e (TextDamage (with_all c draft.old.pending.batch)))) }
    ensures failed { result ≡ Err (HistoryError.Store StoreError.Failed) → Rose (K.faults draft.old.keeper.now) (K.faults draft.new.keeper.now) }
    ensures reads { K.reads draft.new.keeper.now ≤ K.reads draft.old.keeper.now + 2 }
{
    mtn_put_certs::put_cert(draft, cert)
}

/// As `put_key`.
pub fn put_key<K: Keeper>(draft: &mut Draft<'_, K>, id: Id, name: &[u8]) -> Result<(), HistoryError>
    requires { is_field name.now ≡ true }
    ensures same_reference { draft.new.keeper.ghost_name ≡ draft.old.keeper.ghost_name }
    ensures stays { Stays K.contents K.leaves K.faults draft.old.keeper.now draft.new.keeper.now }
    ensures accepts { (f : List ℕ → List ℕ) (c : Contents) (s : State) → K.contents draft.new.keeper.now ≡ Some c → IsDraft f c draft.old.pending s
        → AcceptsKey f c s id name.now result draft.new.pending }
    ensures err { OnErr result (draft.new.pending ≡ draft.old.pending) }
    ensures sound { IfErr result (λ e. IfStoreDamage e (λ _. ⊥)) }
    ensures failed { result ≡ Err (HistoryError.Store StoreError.Failed) → Rose (K.faults draft.old.keeper.now) (K.faults draft.new.keeper.now) }
    ensures reads { K.reads draft.new.keeper.now ≤ K.reads draft.old.keeper.now + 1 }
{
    mtn_put_certs::put_key(draft, id, name)
}
