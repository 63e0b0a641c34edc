// The names of keys.
ghost use Rattle.std.specs.Prelude.{◌≡◌, ◌≤◌, ◌+◌, ◌++◌, true, List, ℕ, Some, Err, Contains, IfErr, IfOk, IfSome, OnErr, OnOk, map};
ghost use Rattle.std.specs.FinMap.{get};
ghost use Rattle.std.specs.List.Sorted.{IsStrictlySortedBy};
ghost use Rattle.mtn_base.specs.Ids.{by_id, in_id_order};
ghost use Rattle.mtn_certs.specs.Certificates.{Certificate, is_field as field_test};
ghost use Rattle.mtn_certs.specs.Listing.{name_in};
ghost use Rattle.mtn_model.specs.Table.{Contents};
ghost use Rattle.mtn_model.specs.State.{State};
ghost use Rattle.mtn_ports.specs.Causes.{Rose};
ghost use Rattle.mtn_ports.specs.Kept.{Stays, with_all};
ghost use Rattle.mtn_history.specs.Asking.{OnlyAsks};
ghost use Rattle.mtn_history.specs.Certificates.{KeyDamage};
ghost use Rattle.mtn_history.specs.Errors.{IfDamage, IfStoreDamage};
ghost use Rattle.mtn_history.specs.Stands.{IsDraft};
ghost use Rattle.mtn_put_certs.specs.Accepting.{AcceptsKey};
ghost use Rattle.mtn_put_certs.specs.Reading.{names_under, names_with};

use crate::damaged::bad;
use mtn_base::{Bytes, Cause, Id, List as Items, NoMemory, put_in_order};
use mtn_certs::{Cert, KeyName, is_field};
use mtn_history::{Draft, HistoryError, KEYS, StoreError};
use mtn_ports::Keeper;
use std::alloc::Global;

/// Gives a key its name, a field; the name that it has is given already. It is refused as KeyNamed where the key has another
/// name. Any error leaves what is pending as it was.
pub fn put_key<K: Keeper>(draft: &mut Draft<'_, K>, id: Id, name: &[u8]) -> Result<(), HistoryError>
    requires { field_test name.now ≡ true }
    ensures same_reference { draft.new.keeper.ghost_name ≡ draft.old.keeper.ghost_name }
    ensures stays { Stays K.contents K.leaves K.faults draft.old.keeper.now draft.new.keeper.now }
    ensures accepts { (f : List ℕ → List ℕ) (c : Contents) (s : State) → K.contents draft.new.keeper.now ≡ Some c → IsDraft f c draft.old.pending s
        → AcceptsKey f c s id name.now result draft.new.pending }
    ensures err { OnErr result (draft.new.pending ≡ draft.old.pending) }
    ensures sound { IfErr result (λ e. IfStoreDamage e (λ _. ⊥)) }
    ensures failed { result ≡ Err (HistoryError.Store StoreError.Failed) → Rose (K.faults draft.old.keeper.now) (K.faults draft.new.keeper.now) }
    ensures reads { K.reads draft.new.keeper.now ≤ K.reads draft.old.keeper.now + 1 }
{
    let key = id.as_slice();
    let mut held = Vec::new(draft.alloc());
    if !draft.get(KEYS, key, &mut held)? {
        draft.keep(KEYS, key, name)?;
        return Ok(());
    }
    if held.as_slice() == name {
        return Ok(());
    }
    Err(HistoryError::Refused(Cause::KeyNamed {
        id,
        held: Items::from_vec(held),
    }))
}

/// The name of a key, if it has one. A name that is no field is damage.
pub fn key_name<K: Keeper>(draft: &mut Draft<'_, K>, id: Id) -> Result<Option<Bytes>, StoreError>
    ensures asks { OnlyAsks K.contents K.leaves K.faults K.reads 1 draft.old draft.new }

    ensures found { (f : List ℕ → List ℕ) (c : Contents) (s : State) → K.contents draft.new.keeper.now ≡ Some c → IsDraft f c draft.old.pending s
        → IfOk result (λ name. get s.keys id.0 ≡ name) }
    ensures sound { (f : List ℕ → List ℕ) (c : Contents) (s : State) → K.contents draft.new.keeper.now ≡ Some c → IsDraft f c draft.old.pending s
        → IfErr result (λ e. IfDamage e (λ _. ⊥)) }
    ensures damaged { IfSome (K.contents draft.new.keeper.now) (λ c. IfErr result (λ e. IfDamage e (KeyDamage (with_all c draft.old.pending.batch)))) }
    ensures failed { result ≡ Err StoreError.Failed → Rose (K.faults draft.old.keeper.now) (K.faults draft.new.keeper.now) }
{
    let mut name = Vec::new(draft.alloc());
    if !draft.get(KEYS, id.as_slice(), &mut name)? {
        return Ok(None);
    }
    if !is_field(&name) {
        return Err(bad(draft.alloc(), KEYS, id.as_slice(), &name));
    }
    Ok(Some(Items::from_vec(name)))
}

// The keys that made certificates, in their order, each once.
fn keys_of(alloc: Global, certs: &[Cert]) -> Result<Vec<Id>, NoMemory>
    ensures { IfOk result (λ ids. ids.items ≡ in_id_order (map (λ x. x.key) certs.now)) }
{
    let mut ids = Vec::with_capacity(alloc, certs.len())?;
    for cert in certs {
        ids.push(cert.key)?;
    }
    put_in_order(&mut ids);
    Ok(ids)
}

// One more name, if it is one.
fn add_name(names: &mut Vec<KeyName>, id: Id, name: Option<Bytes>) -> Result<(), NoMemory>
    ensures { OnOk result (names.new.items ≡ names.old.items ++ names_with id name) }
{
    if let Some(name) = name {
        names.push(KeyName { id, name })?;
    }
    Ok(())
}

// The names that these keys have.
fn names_at<K: Keeper>(draft: &mut Draft<'_, K>, ids: &[Id]) -> Result<Vec<KeyName>, StoreError>
    ensures same_reference { draft.new.keeper.ghost_name ≡ draft.old.keeper.ghost_name }
    ensures stays { Stays K.contents K.leaves K.faults draft.old.keeper.now draft.new.keeper.now }
    ensures pending { draft.new.pending ≡ draft.old.pending }
    ensures found { (f : List ℕ → List ℕ) (c : Contents) (s : State) → K.contents draft.new.keeper.now ≡ Some c → IsDraft f c draft.old.pending s
        → IfOk result (λ names. names.items ≡ names_under s.keys ids.now) }
    ensures damaged { IfSome (K.contents draft.new.keeper.now) (λ c. IfErr result (λ e. IfDamage e (KeyDamage (with_all c draft.old.pending.batch)))) }
    ensures failed { result ≡ Err StoreError.Failed → Rose (K.faults draft.old.keeper.now) (K.faults draft.new.keeper.now) }
{
    let mut names = Vec::new(draft.alloc());
    for id in ids {
        let name = key_name(draft, *id)?;
        add_name(&mut names, *id, name)?;
    }
    Ok(names)
}

/// The names of the keys that made these certificates, by ascending ids; a key without a name is left out. Each key is looked up
/// once. A name that is no field is damage.
pub fn names_of<K: Keeper>(
    draft: &mut Draft<'_, K>,
    certs: &[Cert],
) -> Result<Vec<KeyName>, StoreError>
    ensures same_reference { draft.new.keeper.ghost_name ≡ draft.old.keeper.ghost_name }
    ensures stays { Stays K.contents K.leaves K.faults draft.old.keeper.now draft.new.keeper.now }
    ensures pending { draft.new.pending ≡ draft.old.pending }
    ensures found { (f : List ℕ → List ℕ) (c : Contents) (s : State) → K.contents draft.new.keeper.now ≡ Some c → IsDraft f c draft.old.pending s
        → IfOk result (λ names. (x : Certificate) → Contains certs.now x → name_in names.items x.key ≡ get s.keys x.key.0) }
    ensures ascending { (f : List ℕ → List ℕ) (c : Contents) (s : State) → K.contents draft.new.keeper.now ≡ Some c → IsDraft f c draft.old.pending s
        → IfOk result (λ names. IsStrictlySortedBy by_id (map (λ n. n.id) names.items)) }
    ensures sound { (f : List ℕ → List ℕ) (c : Contents) (s : State) → K.contents draft.new.keeper.now ≡ Some c → IsDraft f c draft.old.pending s
        → IfErr result (λ e. IfDamage e (λ _. ⊥)) }
    ensures damaged { IfSome (K.contents draft.new.keeper.now) (λ c. IfErr result (λ e. IfDamage e (KeyDamage (with_all c draft.old.pending.batch)))) }
    ensures failed { result ≡ Err StoreError.Failed → Rose (K.faults draft.old.keeper.now) (K.faults draft.new.keeper.now) }
{
    let ids = keys_of(draft.alloc(), certs)?;
    names_at(draft, &ids)
}
