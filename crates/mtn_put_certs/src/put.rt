// Certificates, held.
ghost use Rattle.std.specs.Prelude.{◌≡◌, ◌≤◌, ◌+◌, List, ℕ, Some, Err, IfErr, IfSome, IsSome, OnErr, OnOk};
ghost use Rattle.mtn_model.specs.Table.{Contents};
ghost use Rattle.mtn_model.specs.State.{State};
ghost use Rattle.mtn_ports.specs.Causes.{Rose};
ghost use Rattle.mtn_ports.specs.Kept.{Stays, with_all};
ghost use Rattle.mtn_history.specs.Errors.{IfDamage, IfStoreDamage};
ghost use Rattle.mtn_history.specs.Stands.{IsDraft};
ghost use Rattle.mtn_history.specs.Texts.{TextDamage};
ghost use Rattle.mtn_put_certs.specs.Accepting.{AcceptsCert};
ghost use Rattle.mtn_replay.specs.Certificates.{with_cert};
ghost use Rattle.mtn_replay.specs.Texts.{text_under};

use crate::key::cert_key;
use mtn_certs::Cert;
use mtn_history::{CERTS, Draft, HistoryError, StoreError};
use mtn_ports::Keeper;

/// Holds a certificate of a revision that the log is known to have, as one whose text was just put; one that is held is kept
/// already. The revision is not looked up: where the log does not have it, nothing is said. Any error leaves what is pending as
/// it was.
pub fn hold_cert<K: Keeper>(draft: &mut Draft<'_, K>, cert: &Cert) -> Result<(), StoreError>
    ensures same_reference { draft.new.keeper.ghost_name ≡ draft.old.keeper.ghost_name }
    ensures stays { Stays K.contents K.leaves K.faults draft.old.keeper.now draft.new.keeper.now }
    ensures holds { (f : List ℕ → List ℕ) (c : Contents) (s : State) → K.contents draft.new.keeper.now ≡ Some c → IsDraft f c draft.old.pending s
        → IsSome (text_under s.log cert.now.revision.0) → OnOk result (IsDraft f c draft.new.pending (with_cert s cert.now)) }
    ensures err { OnErr result (draft.new.pending ≡ draft.old.pending) }
    ensures sound { IfErr result (λ e. IfDamage e (λ _. ⊥)) }
    ensures failed { result ≡ Err StoreError.Failed → Rose (K.faults draft.old.keeper.now) (K.faults draft.new.keeper.now) }
    ensures reads { K.reads draft.new.keeper.now ≤ K.reads draft.old.keeper.now + 1 }
{
    let mut body = Vec::new(draft.alloc());
    let key = cert_key(draft.alloc(), cert)?;
    if draft.get(CERTS, &key, &mut body)? {
        return Ok(());
    }
    draft.keep(CERTS, &key, &[])?;
    Ok(())
}

/// Holds a certificate; one that is held is kept already. It is refused as UnknownRevision where the log has no such revision.
/// Any error leaves what is pending as it was.
pub fn put_cert<K: Keeper>(draft: &mut Draft<'_, K>, cert: &Cert) -> Result<(), HistoryError>
    ensures same_reference { draft.new.keeper.ghost_name ≡ draft.old.keeper.ghost_name }
    ensures stays { Stays K.contents K.leaves K.faults draft.old.keeper.now draft.new.keeper.now }
    ensures accepts { (f : List ℕ → List ℕ) (c : Contents) (s : State) → K.contents draft.new.keeper.now ≡ Some c → IsDraft f c draft.old.pending s
        → AcceptsCert f c s cert.now result draft.new.pending }
    ensures err { OnErr result (draft.new.pending ≡ draft.old.pending) }
    ensures damaged { IfSome (K.contents draft.new.keeper.now) (λ c. IfErr result (λ e. IfStoreDamage e (TextDamage (with_all c draft.old.pending.batch)))) }
    ensures failed { result ≡ Err (HistoryError.Store StoreError.Failed) → Rose (K.faults draft.old.keeper.now) (K.faults draft.new.keeper.now) }
    ensures reads { K.reads draft.new.keeper.now ≤ K.reads draft.old.keeper.now + 2 }
{
    let mut text = Vec::new(draft.alloc());
    draft.text_of(cert.revision, &mut text)?;
    hold_cert(draft, cert)?;
    Ok(())
}
