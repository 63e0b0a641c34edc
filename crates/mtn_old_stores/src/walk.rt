// The certificates of an older store, record by record.
ghost use Rattle.std.specs.Prelude.{◌≡◌, ◌↔◌, List, ℕ, Some, Err, Contains, IfErr, IfOk, IfSome, length};
ghost use Rattle.std.specs.FinMap.{len};
ghost use Rattle.std.specs.List.{AllByRecursion, IsDistinct};
ghost use Rattle.std.specs.Ordering.{eq_by_cmp};
ghost use Rattle.mtn_history.specs.Errors.{IfDamage};
ghost use Rattle.mtn_model.specs.Table.{Contents};
ghost use Rattle.mtn_ports.specs.Causes.{Rose};
ghost use Rattle.mtn_ports.specs.Kept.{Stays};
ghost use Rattle.mtn_old_stores.specs.Older.{HoldsOld, IsLawfulOldCertificate, OldCertificate, OldState, StandsOld, old_cmp};
ghost use Rattle.mtn_old_stores.specs.Reading.{AreAllOld, IsFurther, IsNextOld, OldCertDamage};

use crate::cert::{OLD_CERTS, OldCert, cert_in};
use mtn_base::{Bytes, List};
use mtn_history::StoreError;
use mtn_ports::Keeper;
use std::alloc::Global;

// The certificate of the first record of table 6 above a key. Its own key is the last one then.
fn next_old<K: Keeper>(
    alloc: Global,
    keeper: &mut K,
    last: &mut Bytes,
) -> Result<Option<OldCert>, StoreError>
    ensures stays { Stays K.contents K.leaves K.faults keeper.old keeper.new }
    ensures found { IfSome (K.contents keeper.new) (λ c. IfOk result (IsNextOld c last.old last.new)) }
    ensures above { IfOk result (IsFurther last.old last.new) }
    ensures damaged { IfSome (K.contents keeper.new) (λ c. IfErr result (λ e. IfDamage e (OldCertDamage c))) }
    ensures failed { result ≡ Err StoreError.Failed → Rose (K.faults keeper.old) (K.faults keeper.new) }
{
    let mut key = Vec::new(alloc);
    let mut body = Vec::new(alloc);
    if !keeper.next_record(OLD_CERTS, last.as_slice(), &mut key, &mut body)? {
        return Ok(None);
    }
    let cert = cert_in(alloc, &key, &body)?;
    *last = List::from_vec(key);
    Ok(Some(cert))
}

// All of them.
fn all_old<K: Keeper>(alloc: Global, keeper: &mut K) -> Result<Vec<OldCert>, StoreError>
    ensures stays { Stays K.contents K.leaves K.faults keeper.old keeper.new }
    ensures read { IfSome (K.contents keeper.new) (λ c. IfOk result (λ certs. AreAllOld c certs.items)) }
    ensures once { IfOk result (λ certs. IsDistinct (eq_by_cmp old_cmp) certs.items) }
    ensures lawful { IfOk result (λ certs. AllByRecursion IsLawfulOldCertificate certs.items) }
    ensures damaged { IfSome (K.contents keeper.new) (λ c. IfErr result (λ e. IfDamage e (OldCertDamage c))) }
    ensures failed { result ≡ Err StoreError.Failed → Rose (K.faults keeper.old) (K.faults keeper.new) }
{
    let mut certs = Vec::new(alloc);
    let mut last = Bytes::new(alloc);
    for _ in 0..u64::MAX {
        let Some(cert) = next_old(alloc, keeper, &mut last)? else {
            return Ok(certs);
        };
        certs.push(cert)?;
    }
    Err(StoreError::NoMemory)
}

/// All certificates of an older store, each once. A record that is that of no certificate is damage; that their revisions have texts is
/// not looked at. Each record is asked for once.
pub fn old_certs<K: Keeper>(alloc: Global, keeper: &mut K) -> Result<Vec<OldCert>, StoreError>
    ensures stays { Stays K.contents K.leaves K.faults keeper.old keeper.new }
    ensures read { IfSome (K.contents keeper.new) (λ c. IfOk result (λ certs. AreAllOld c certs.items)) }
    ensures found { (f : List ℕ → List ℕ) (c : Contents) (s : OldState) → K.contents keeper.new ≡ Some c → StandsOld f c s
        → IfOk result (λ certs. (x : OldCertificate) → Contains certs.items x ↔ HoldsOld s.certs x) }
    ensures count { (f : List ℕ → List ℕ) (c : Contents) (s : OldState) → K.contents keeper.new ≡ Some c → StandsOld f c s → IfOk result (λ certs. length certs.items ≡ len s.certs) }
    ensures lawful { IfOk result (λ certs. AllByRecursion IsLawfulOldCertificate certs.items) }
    ensures sound { (f : List ℕ → List ℕ) (c : Contents) (s : OldState) → K.contents keeper.new ≡ Some c → StandsOld f c s → IfErr result (λ e. IfDamage e (λ _. ⊥)) }
    ensures damaged { IfSome (K.contents keeper.new) (λ c. IfErr result (λ e. IfDamage e (OldCertDamage c))) }
    ensures failed { result ≡ Err StoreError.Failed → Rose (K.faults keeper.old) (K.faults keeper.new) }
{
    all_old(alloc, keeper)
}
