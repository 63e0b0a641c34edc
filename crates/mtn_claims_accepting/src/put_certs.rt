//! Certificates and key names, held and read.
ghost use Rattle.std.specs.FinMap.{get};
ghost use Rattle.std.specs.Prelude.{◌+◌, ◌↔◌, ◌≡◌, ◌≤◌, Contains, Err, IfErr, IfOk, IfSome, IsSome, List, OnErr, OnOk, Some, ℕ};
ghost use Rattle.mtn_certs.specs.Certificates.{Certificate};
ghost use Rattle.mtn_history.specs.Asking.{OnlyAsks};
ghost use Rattle.mtn_history.specs.Certificates.{CertDamage, KeyDamage};
ghost use Rattle.mtn_history.specs.Errors.{IfDamage};
ghost use Rattle.mtn_history.specs.Stands.{IsDraft};
ghost use Rattle.mtn_model.specs.Keys.{IsKeyOf};
ghost use Rattle.mtn_model.specs.State.{Holds, State};
ghost use Rattle.mtn_model.specs.Table.{Contents};
ghost use Rattle.mtn_ports.specs.Causes.{Rose};
ghost use Rattle.mtn_ports.specs.Kept.{Stays, with_all};
ghost use Rattle.mtn_put_certs.specs.Reading.{AreRecorded, IsCertOf};
ghost use Rattle.mtn_replay.specs.Certificates.{with_cert};
ghost use Rattle.mtn_replay.specs.Texts.{text_under};

use mtn_base::{Bytes, Id, NoMemory};
use mtn_certs::Cert;
use mtn_history::{Draft, StoreError};
use mtn_ports::Keeper;
use std::alloc::Global;

/// As `mtn_put_certs::certs`.
pub fn certs<K: Keeper>(draft: &mut Draft<'_, K>) -> Result<Vec<Cert>, StoreError>
    ensures same_reference { draft.new.keeper.ghost_name ≡ draft.old.keeper.ghost_name }
    ensures stays { Stays K.contents K.leaves K.faults draft.old.keeper.now draft.new.keeper.now }
    ensures pending { draft.new.pending ≡ draft.old.pending }
    ensures found { (f : List ℕ → List ℕ) (c : Contents) (s : State) → K.contents draft.new.keeper.now ≡ Some c → IsDraft f c draft.old.pending s
        → IfOk result (λ certs. (x : Certificate) → Contains certs.items x ↔ Holds s.certs x) }
    ensures recorded { IfSome (K.contents draft.new.keeper.now) (λ c. IfOk result (λ certs. AreRecorded (with_all c draft.old.pending.batch) certs.items)) }
    ensures sound { (f : List ℕ → List ℕ) (c : Contents) (s : State) → K.contents draft.new.keeper.now ≡ Some c → IsDraft f c draft.old.pending s
        → IfErr result (λ e. IfDamage e (λ _. ⊥)) }
    ensures damaged { IfSome (K.contents draft.new.keeper.now) (λ c. IfErr result (λ e. IfDamage e (CertDamage (with_all c draft.old.pending.batch)))) }
    ensures failed { result ≡ Err StoreError.Failed → Rose (K.faults draft.old.keeper.now) (K.faults draft.new.keeper.now) }
{
    mtn_put_certs::certs(draft)
}

/// As `mtn_put_certs::key_named`.
pub fn key_named<K: Keeper>(draft: &mut Draft<'_, K>, name: &[u8]) -> Result<Option<Id>, StoreError>
    ensures same_reference { draft.new.keeper.ghost_name ≡ draft.old.keeper.ghost_name }
    ensures stays { Stays K.contents K.leaves K.faults draft.old.keeper.now draft.new.keeper.now }
    ensures pending { draft.new.pending ≡ draft.old.pending }
    ensures found { (f : List ℕ → List ℕ) (c : Contents) (s : State) → K.contents draft.new.keeper.now ≡ Some c → IsDraft f c draft.old.pending s
        → IfOk result (IsKeyOf s.keys name.now) }
    ensures sound { (f : List ℕ → List ℕ) (c : Contents) (s : State) → K.contents draft.new.keeper.now ≡ Some c → IsDraft f c draft.old.pending s
        → IfErr result (λ e. IfDamage e (λ _. ⊥)) }
    ensures damaged { IfSome (K.contents draft.new.keeper.now) (λ c. IfErr result (λ e. IfDamage e (KeyDamage (with_all c draft.old.pending.batch)))) }
    ensures failed { result ≡ Err StoreError.Failed → Rose (K.faults draft.old.keeper.now) (K.faults draft.new.keeper.now) }
{
    mtn_put_certs::key_named(draft, name)
}

/// As `mtn_put_certs::key_name`.
pub fn key_name<K: Keeper>(draft: &mut Draft<'_, K>, id: Id) -> Result<Option<Bytes>, StoreError>
    ensures asks { OnlyAsks K.contents K.leaves K.faults K.reads 1 draft.old draft.new }

    ensures found { (f : List ℕ → List ℕ) (c : Contents) (s : State) → K.contents draft.new.keeper.now ≡ Some c → IsDraft f c draft.old.pending s
        → IfOk result (λ name. get s.keys id.0 ≡ name) }
    ensures sound { (f : List ℕ → List ℕ) (c : Contents) (s : State) → K.contents draft.new.keeper.now ≡ Some c → IsDraft f c draft.old.pending s
        → IfErr result (λ e. IfDamage e (λ _. ⊥)) }
    ensures damaged { IfSome (K.contents draft.new.keeper.now) (λ c. IfErr result (λ e. IfDamage e (KeyDamage (with_all c draft.old.pending.batch)))) }
    ensures failed { result ≡ Err StoreError.Failed → Rose (K.faults draft.old.keeper.now) (K.faults draft.new.keeper.now) }
{
    mtn_put_certs::key_name(draft, id)
}

/// As `mtn_put_certs::hold_cert`.
pub fn hold_cert<K: Keeper>(draft: &mut Draft<'_, K>, cert: &Cert) -> Result<(), StoreError>
    ensures same_reference { draft.new.keeper.ghost_name ≡ draft.old.keeper.ghost_name }
    ensures stays { Stays K.contents K.leaves K.faults draft.old.keeper.now draft.new.keeper.now }
    ensures holds { (f : List ℕ → List ℕ) (c : Contents) (s : State) → K.contents draft.new.keeper.now ≡ Some c → IsDraft f c draft.old.pending s
        → IsSome (text_under s.log cert.now.revision.0) → OnOk result (IsDraft f c draft.new.pending (with_cert s cert.now)) }
    ensures err { OnErr result (draft.new.pending ≡ draft.old.pending) }
    ensures sound { IfErr result (λ e. IfDamage e (λ _. ⊥)) }
    ensures failed { result ≡ Err StoreError.Failed → Rose (K.faults draft.old.keeper.now) (K.faults draft.new.keeper.now) }
    ensures reads { K.reads draft.new.keeper.now ≤ K.reads draft.old.keeper.now + 1 }
{
    mtn_put_certs::hold_cert(draft, cert)
}

/// As `mtn_put_certs::read_cert`.
pub fn read_cert(alloc: Global, key: &[u8]) -> Result<Option<Cert>, NoMemory>
    ensures { IfOk result (IsCertOf key.now) }
{
    mtn_put_certs::read_cert(alloc, key)
}
