//! Certificates and names that are read.
ghost use Rattle.std.specs.FinMap.{get};
ghost use Rattle.std.specs.List.Sorted.{IsStrictlySortedBy};
ghost use Rattle.std.specs.Prelude.{◌≡◌, ◌↔◌, List, ℕ, Some, Err, Contains, IfErr, IfOk, IfSome, map};
ghost use Rattle.mtn_base.specs.Ids.{by_id};
ghost use Rattle.mtn_certs.specs.Certificates.{Certificate};
ghost use Rattle.mtn_certs.specs.Listing.{name_in};
ghost use Rattle.mtn_history.specs.Certificates.{CertDamage, KeyDamage};
ghost use Rattle.mtn_history.specs.Damage.{IsDamage};
ghost use Rattle.mtn_history.specs.Errors.{IfDamage};
ghost use Rattle.mtn_history.specs.Logs.{IsReadTo};
ghost use Rattle.mtn_history.specs.Marked.{IsCounted};
ghost use Rattle.mtn_history.specs.Stands.{IsDraft};
ghost use Rattle.mtn_model.specs.State.{Holds, State};
ghost use Rattle.mtn_model.specs.Table.{Contents};
ghost use Rattle.mtn_ports.specs.Causes.{Rose};
ghost use Rattle.mtn_ports.specs.Kept.{Stays, with_all};
ghost use Rattle.mtn_put_certs.specs.Reading.{AreKnown};

use mtn_ancestry::Graph;
use mtn_base::Id;
use mtn_certs::{Cert, KeyName};
use mtn_history::{Draft, StoreError};
use mtn_ports::Keeper;

/// As `certs_of`.
pub fn certs_of<K: Keeper>(draft: &mut Draft<'_, K>, revision: Id) -> Result<Vec<Cert>, StoreError>
    ensures same_reference { draft.new.keeper.ghost_name ≡ draft.old.keeper.ghost_name }
    ensures stays { Stays K.contents K.leaves K.faults draft.old.keeper.now draft.new.keeper.now }
    ensures pending { draft.new.pending ≡ draft.old.pending }
    ensures found { (f : List ℕ → List ℕ) (c : Contents) (s : State) → K.contents draft.new.keeper.now ≡ Some c → IsDraft f c draft.old.pending s
        → IfOk result (λ certs. (x : Certificate) → Contains certs.items x ↔ (Holds s.certs x × (x.revision ≡ revision))) }
    ensures sound { (f : List ℕ → List ℕ) (c : Contents) (s : State) → K.contents draft.new.keeper.now ≡ Some c → IsDraft f c draft.old.pending s
        → IfErr result (λ e. IfDamage e (λ _. ⊥)) }
    ensures damaged { IfSome (K.contents draft.new.keeper.now) (λ c. IfErr result (λ e. IfDamage e (CertDamage (with_all c draft.old.pending.batch)))) }
    ensures failed { result ≡ Err StoreError.Failed → Rose (K.faults draft.old.keeper.now) (K.faults draft.new.keeper.now) }
{
    mtn_put_certs::certs_of(draft, revision)
}

/// As `names_of`.
pub fn names_of<K: Keeper>(
    draft: &mut Draft<'_, K>,
    certs: &[Cert],
) -> Result<Vec<KeyName>, StoreError>
    ensures same_reference { draft.new.keeper.ghost_name ≡ draft.old.keeper.ghost_name }
    ensures stays { Stays K.contents K.leaves K.faults draft.old.keeper.now draft.new.keeper.now }
    ensures pending { draft.new.pending ≡ draft.old.pending }
    ensures found { (f : List ℕ → List ℕ) (c : Contents) (s : State) → K.contents draft.new.keeper.now ≡ Some c → IsDraft f c draft.old.pending s
        → IfOk result (λ names. (x : Certificate) → Contains certs.now x → name_in names.items x.key ≡ get s.keys x.key.0) }
    ensures ascending { (f : List ℕ → List ℕ) (c : Contents) (s : State) → K.contents draft.new.keeper.now ≡ Some c → IsDraft f c draft.old.pending s
        → IfOk result (λ names. IsStrictlySortedBy by_id (map (λ n. n.id) names.items)) }
    ensures sound { (f : List ℕ → List ℕ) (c : Contents) (s : State) → K.contents draft.new.keeper.now ≡ Some c → IsDraft f c draft.old.pending s
        → IfErr result (λ e. IfDamage e (λ _. ⊥)) }
    ensures damaged { IfSome (K.contents draft.new.keeper.now) (λ c. IfErr result (λ e. IfDamage e (KeyDamage (with_all c draft.old.pending.batch)))) }
    ensures failed { result ≡ Err StoreError.Failed → Rose (K.faults draft.old.keeper.now) (K.faults draft.new.keeper.now) }
{
    mtn_put_certs::names_of(draft, certs)
}

/// As `graph_and_certs`.
pub fn graph_and_certs<K: Keeper>(
    draft: &mut Draft<'_, K>,
) -> Result<(Graph, Vec<Cert>), StoreError>
    ensures same_reference { draft.new.keeper.ghost_name ≡ draft.old.keeper.ghost_name }
    ensures stays { Stays K.contents K.leaves K.faults draft.old.keeper.now draft.new.keeper.now }
    ensures pending { draft.new.pending ≡ draft.old.pending }
    ensures read { IfSome (K.contents draft.new.keeper.now) (λ c. IfOk result (λ r. IsReadTo (with_all c draft.old.pending.batch) draft.old.pending.count r.0)) }
    ensures known { IfOk result (λ r. AreKnown r.0 r.1.items) }
    ensures found { (f : List ℕ → List ℕ) (c : Contents) (s : State) → K.contents draft.new.keeper.now ≡ Some c → IsDraft f c draft.old.pending s
        → IfOk result (λ r. (x : Certificate) → Contains r.1.items x ↔ Holds s.certs x) }
    ensures damaged { IfSome (K.contents draft.new.keeper.now) (λ c. IsCounted draft.old.pending c → IfErr result (λ e. IfDamage e (IsDamage (with_all c draft.old.pending.batch)))) }
    ensures failed { result ≡ Err StoreError.Failed → Rose (K.faults draft.old.keeper.now) (K.faults draft.new.keeper.now) }
{
    mtn_put_certs::graph_and_certs(draft)
}
