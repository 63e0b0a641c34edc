// The certificates that are held.
ghost use Rattle.std.specs.Prelude.{◌≡◌, ◌≢◌, ◌↔◌, List, ℕ, Some, Err, Contains, IfErr, IfOk, IfSome, OnOk};
ghost use Rattle.mtn_certs.specs.Certificates.{Certificate};
ghost use Rattle.mtn_model.specs.Table.{Contents, body_at};
ghost use Rattle.mtn_model.specs.State.{Holds, State};
ghost use Rattle.mtn_ports.specs.Causes.{Rose};
ghost use Rattle.mtn_ports.specs.Kept.{Stays, with_all};
ghost use Rattle.mtn_history.specs.Asking.{OnlyAsks};
ghost use Rattle.mtn_history.specs.Certificates.{CertDamage, IsCertKey};
ghost use Rattle.mtn_history.specs.Errors.{IfDamage};
ghost use Rattle.mtn_history.specs.Stands.{IsDraft};
ghost use Rattle.mtn_put_certs.specs.Reading.{AreAllBehind, AreRecorded, IsNextCert, IsRecordOf};
ghost use Rattle.mtn_put_certs.specs.Walking.{IsFrom};

use crate::damaged::bad;
use crate::read::read_cert;
use crate::walk::following;
use mtn_base::{Bytes, Id, NoMemory};
use mtn_certs::Cert;
use mtn_history::{CERTS, Draft, StoreError};
use mtn_ports::Keeper;
use std::alloc::Global;

// The certificate of a record, if it is that of one.
fn cert_with(alloc: Global, key: &[u8], body: &[u8]) -> Result<Option<Cert>, NoMemory>
    ensures { IfOk result (IsRecordOf key.now body.now) }
{
    if !body.is_empty() {
        return Ok(None);
    }
    read_cert(alloc, key)
}

// The same, where one of none is damage.
fn cert_in(alloc: Global, key: &[u8], body: &[u8]) -> Result<Cert, StoreError>
    ensures read { IfOk result (IsCertKey key.now) }
    ensures damaged { (c : Contents) → body_at c 8 key.now ≡ Some body.now → IfErr result (λ e. IfDamage e (CertDamage c)) }
    ensures failed { result ≢ Err StoreError.Failed }
{
    match cert_with(alloc, key, body)? {
        Some(cert) => Ok(cert),
        None => Err(bad(alloc, CERTS, key, body)),
    }
}

// The certificate of the first record above a key whose own key begins with a front and goes on. That key is the last one then.
fn next_cert<K: Keeper>(
    draft: &mut Draft<'_, K>,
    front: &[u8],
    last: &mut Bytes,
) -> Result<Option<Cert>, StoreError>
    requires { IsFrom front.now last.old }
    ensures asks { OnlyAsks K.contents K.leaves K.faults K.reads 1 draft.old draft.new }

    ensures from { OnOk result (IsFrom front.now last.new) }
    ensures found { IfSome (K.contents draft.new.keeper.now) (λ c. IfOk result (IsNextCert (with_all c draft.old.pending.batch) front.now last.old last.new)) }
    ensures damaged { IfSome (K.contents draft.new.keeper.now) (λ c. IfErr result (λ e. IfDamage e (CertDamage (with_all c draft.old.pending.batch)))) }
    ensures failed { result ≡ Err StoreError.Failed → Rose (K.faults draft.old.keeper.now) (K.faults draft.new.keeper.now) }
{
    let Some((key, body)) = following(draft, CERTS, front, last.as_slice())? else {
        return Ok(None);
    };
    let cert = cert_in(draft.alloc(), key.as_slice(), body.as_slice())?;
    *last = key;
    Ok(Some(cert))
}

// The certificates whose keys begin with a front and go on. Each is one record, which is asked for once, and one more is.
fn certs_behind<K: Keeper>(draft: &mut Draft<'_, K>, front: &[u8]) -> Result<Vec<Cert>, StoreError>
    ensures same_reference { draft.new.keeper.ghost_name ≡ draft.old.keeper.ghost_name }
    ensures stays { Stays K.contents K.leaves K.faults draft.old.keeper.now draft.new.keeper.now }
    ensures pending { draft.new.pending ≡ draft.old.pending }
    ensures read { IfSome (K.contents draft.new.keeper.now) (λ c. IfOk result (λ certs. AreAllBehind (with_all c draft.old.pending.batch) front.now certs.items)) }
    ensures damaged { IfSome (K.contents draft.new.keeper.now) (λ c. IfErr result (λ e. IfDamage e (CertDamage (with_all c draft.old.pending.batch)))) }
    ensures failed { result ≡ Err StoreError.Failed → Rose (K.faults draft.old.keeper.now) (K.faults draft.new.keeper.now) }
{
    let mut certs = Vec::new(draft.alloc());
    let mut last = Bytes::from_slice(draft.alloc(), front)?;
    for _ in 0..u64::MAX {
        let Some(cert) = next_cert(draft, front, &mut last)? else {
            return Ok(certs);
        };
        certs.push(cert)?;
    }
    Err(StoreError::NoMemory)
}

/// The certificates of a revision. A record that is that of no certificate is damage; that the revision has a text is not looked
/// at.
pub fn certs_of<K: Keeper>(draft: &mut Draft<'_, K>, revision: Id) -> Result<Vec<Cert>, StoreError>
    ensures same_reference { draft.new.keeper.ghost_name ≡ draft.old.keeper.ghost_name }
    ensures stays { Stays K.contents K.leaves K.faults draft.old.keeper.now draft.new.keeper.now }
    ensures pending { draft.new.pending ≡ draft.old.pending }
    ensures found { (f : List ℕ → List ℕ) (c : Contents) (s : State) → K.contents draft.new.keeper.now ≡ Some c → IsDraft f c draft.old.pending s
        → IfOk result (λ certs. (x : Certificate) → Contains certs.items x ↔ (Holds s.certs x × (x.revision ≡ revision))) }
    ensures sound { (f : List ℕ → List ℕ) (c : Contents) (s : State) → K.contents draft.new.keeper.now ≡ Some c → IsDraft f c draft.old.pending s
        → IfErr result (λ e. IfDamage e (λ _. ⊥)) }
    ensures damaged { IfSome (K.contents draft.new.keeper.now) (λ c. IfErr result (λ e. IfDamage e (CertDamage (with_all c draft.old.pending.batch)))) }
    ensures failed { result ≡ Err StoreError.Failed → Rose (K.faults draft.old.keeper.now) (K.faults draft.new.keeper.now) }
{
    certs_behind(draft, revision.as_slice())
}

/// All certificates. A record that is that of no certificate is damage; that their revisions have texts is not looked at.
pub fn certs<K: Keeper>(draft: &mut Draft<'_, K>) -> Result<Vec<Cert>, StoreError>
    ensures same_reference { draft.new.keeper.ghost_name ≡ draft.old.keeper.ghost_name }
    ensures stays { Stays K.contents K.leaves K.faults draft.old.keeper.now draft.new.keeper.now }
    ensures pending { draft.new.pending ≡ draft.old.pending }
    ensures found { (f : List ℕ → List ℕ) (c : Contents) (s : State) → K.contents draft.new.keeper.now ≡ Some c → IsDraft f c draft.old.pending s
        → IfOk result (λ certs. (x : Certificate) → Contains certs.items x ↔ Holds s.certs x) }
    ensures recorded { IfSome (K.contents draft.new.keeper.now) (λ c. IfOk result (λ certs. AreRecorded (with_all c draft.old.pending.batch) certs.items)) }
    ensures sound { (f : List ℕ → List ℕ) (c : Contents) (s : State) → K.contents draft.new.keeper.now ≡ Some c → IsDraft f c draft.old.pending s
        → IfErr result (λ e. IfDamage e (λ _. ⊥)) }
    ensures damaged { IfSome (K.contents draft.new.keeper.now) (λ c. IfErr result (λ e. IfDamage e (CertDamage (with_all c draft.old.pending.batch)))) }
    ensures failed { result ≡ Err StoreError.Failed → Rose (K.faults draft.old.keeper.now) (K.faults draft.new.keeper.now) }
{
    certs_behind(draft, &[])
}
