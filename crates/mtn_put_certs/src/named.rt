// The key that has a name.
ghost use Rattle.std.specs.Prelude.{◌≡◌, ◌≢◌, ◌++◌, [], ◌∷◌, if◌then◌else◌, List, ℕ, Some, Err, IfErr, IfOk, IfSome, MatchOption, OnOk, length};
ghost use Rattle.mtn_model.specs.Table.{Contents};
ghost use Rattle.mtn_model.specs.State.{State};
ghost use Rattle.mtn_ports.specs.Causes.{Rose};
ghost use Rattle.mtn_ports.specs.Kept.{Stays, with_all};
ghost use Rattle.mtn_history.specs.Asking.{OnlyAsks};
ghost use Rattle.mtn_history.specs.Certificates.{KeyDamage};
ghost use Rattle.mtn_history.specs.Errors.{IfDamage};
ghost use Rattle.mtn_history.specs.Stands.{IsDraft};
ghost use Rattle.mtn_model.specs.Keys.{IsKeyOf};
ghost use Rattle.mtn_put_certs.specs.Named.{AreNamed, IsNextNamed, IsOnly};
ghost use Rattle.mtn_put_certs.specs.Walking.{IsFrom};

use crate::damaged::bad;
use crate::walk::following;
use mtn_base::{Bytes, Id, NoMemory};
use mtn_history::{Draft, KEYS, StoreError};
use mtn_ports::Keeper;

// Whether the first key above another has a name. That key is the last one then.
fn next_named<K: Keeper>(
    draft: &mut Draft<'_, K>,
    name: &[u8],
    last: &mut Bytes,
) -> Result<Option<bool>, StoreError>
    requires { IsFrom [] last.old }
    ensures asks { OnlyAsks K.contents K.leaves K.faults K.reads 1 draft.old draft.new }

    ensures from { OnOk result (IsFrom [] last.new) }
    ensures found { IfSome (K.contents draft.new.keeper.now) (λ c. IfOk result (IsNextNamed (with_all c draft.old.pending.batch) name.now last.old last.new)) }
    ensures sound { IfErr result (λ e. IfDamage e (λ _. ⊥)) }
    ensures failed { result ≡ Err StoreError.Failed → Rose (K.faults draft.old.keeper.now) (K.faults draft.new.keeper.now) }
{
    let Some((key, held)) = following(draft, KEYS, &[], last.as_slice())? else {
        return Ok(None);
    };
    *last = key;
    Ok(Some(held.as_slice() == name))
}

// One more key, if it is one.
fn add_key(named: &mut Vec<Bytes>, key: &Bytes, is: bool) -> Result<(), NoMemory>
    ensures { OnOk result (named.new.items ≡ named.old.items ++ (if is then key.now ∷ [] else [])) }
{
    if is {
        let key = key.copy(*named.allocator())?;
        named.push(key)?;
    }
    Ok(())
}

// The one that all of these keys are.
fn only(keys: &[Bytes]) -> Option<&[u8]>
    ensures { MatchOption result (IsOnly keys.now None) (λ key. IsOnly keys.now (Some key.now)) }
{
    let first = keys.first()?.as_slice();
    for key in keys {
        if key.as_slice() != first {
            return None;
        }
    }
    Some(first)
}

// The id that a key is, if it is one.
fn id_of(key: &[u8]) -> Option<Id>
    ensures { MatchOption result (length key.now ≢ 20) (λ id. id.0 ≡ key.now) }
{
    let (id, rest) = key.split_first_chunk::<20>()?;
    if rest.is_empty() { Some(Id(*id)) } else { None }
}

// The keys that have a name. Each key is asked for once, and one more is.
fn keys_named<K: Keeper>(draft: &mut Draft<'_, K>, name: &[u8]) -> Result<Vec<Bytes>, StoreError>
    ensures same_reference { draft.new.keeper.ghost_name ≡ draft.old.keeper.ghost_name }
    ensures stays { Stays K.contents K.leaves K.faults draft.old.keeper.now draft.new.keeper.now }
    ensures pending { draft.new.pending ≡ draft.old.pending }
    ensures read { (c : Contents) → K.contents draft.new.keeper.now ≡ Some c → IfOk result (λ named. AreNamed (with_all c draft.old.pending.batch) name.now named.items) }
    ensures sound { IfErr result (λ e. IfDamage e (λ _. ⊥)) }
    ensures failed { result ≡ Err StoreError.Failed → Rose (K.faults draft.old.keeper.now) (K.faults draft.new.keeper.now) }
{
    let mut named = Vec::new(draft.alloc());
    let mut last = Bytes::new(draft.alloc());
    for _ in 0..u64::MAX {
        let Some(has) = next_named(draft, name, &mut last)? else {
            return Ok(named);
        };
        add_key(&mut named, &last, has)?;
    }
    Err(StoreError::NoMemory)
}

/// The key that alone has a name: none where no key has it, or several have. Each key name is read. A key that is no id is damage.
pub fn key_named<K: Keeper>(draft: &mut Draft<'_, K>, name: &[u8]) -> Result<Option<Id>, StoreError>
    ensures same_reference { draft.new.keeper.ghost_name ≡ draft.old.keeper.ghost_name }
    ensures stays { Stays K.contents K.leaves K.faults draft.old.keeper.now draft.new.keeper.now }
    ensures pending { draft.new.pending ≡ draft.old.pending }
    ensures found { (f : List ℕ → List ℕ) (c : Contents) (s : State) → K.contents draft.new.keeper.now ≡ Some c → IsDraft f c draft.old.pending s
        → IfOk result (IsKeyOf s.keys name.now) }
    ensures sound { (f : List ℕ → List ℕ) (c : Contents) (s : State) → K.contents draft.new.keeper.now ≡ Some c → IsDraft f c draft.old.pending s
        → IfErr result (λ e. IfDamage e (λ _. ⊥)) }
    ensures damaged { IfSome (K.contents draft.new.keeper.now) (λ c. IfErr result (λ e. IfDamage e (KeyDamage (with_all c draft.old.pending.batch)))) }
    ensures failed { result ≡ Err StoreError.Failed → Rose (K.faults draft.old.keeper.now) (K.faults draft.new.keeper.now) }
{
    let named = keys_named(draft, name)?;
    let Some(key) = only(&named) else {
        return Ok(None);
    };
    match id_of(key) {
        Some(id) => Ok(Some(id)),
        None => Err(bad(draft.alloc(), KEYS, key, name)),
    }
}
