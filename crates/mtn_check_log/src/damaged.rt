// Damages, put into words.
ghost use Rattle.std.specs.Prelude.{◌≡◌, ◌≢◌, Err, None, Ok, Some, IfErr, IfOk, IfSome};
ghost use Rattle.mtn_history.specs.Errors.{IfDamage};

use mtn_base::{Bytes, NoMemory};
use mtn_history::{Damage, StoreError};
use std::alloc::Global;

/// A record that is bad.
pub fn bad(alloc: Global, table: u8, key: &[u8], body: &[u8]) -> StoreError
    ensures damaged { IfDamage result (λ d. d ≡ Damage.Bad table key.now body.now) }
    ensures failed { result ≢ StoreError.Failed }
{
    match (
        Bytes::from_slice(alloc, key),
        Bytes::from_slice(alloc, body),
    ) {
        (Ok(key), Ok(body)) => StoreError::Damaged(Damage::Bad { table, key, body }),
        _ => StoreError::NoMemory,
    }
}

/// A record that is due, and that is not there.
pub fn missing(alloc: Global, table: u8, key: &[u8]) -> StoreError
    ensures damaged { IfDamage result (λ d. d ≡ Damage.Missing table key.now) }
    ensures failed { result ≢ StoreError.Failed }
{
    match Bytes::from_slice(alloc, key) {
        Ok(key) => StoreError::Damaged(Damage::Missing { table, key }),
        Err(NoMemory) => StoreError::NoMemory,
    }
}

/// What was found, or none where there is damage. An error that is no damage is passed on as it is.
pub fn undamaged<T: Drop>(found: Result<T, StoreError>) -> Result<Option<T>, StoreError>
    ensures value { IfOk found (λ x. result ≡ Ok (Some x)) }
    ensures damaged { IfErr found (λ e. IfDamage e (λ _. result ≡ Ok None)) }
    ensures found { IfOk result (λ o. IfSome o (λ x. found ≡ Ok x)) }
    ensures sound { IfErr result (λ e. IfDamage e (λ _. ⊥)) }
    ensures failed { result ≡ Err StoreError.Failed → found ≡ Err StoreError.Failed }
    ensures failure { found ≡ Err StoreError.Failed → result ≡ Err StoreError.Failed }
    ensures memory { found ≡ Err StoreError.NoMemory → result ≡ Err StoreError.NoMemory }
{
    match found {
        Ok(value) => Ok(Some(value)),
        Err(StoreError::Damaged(_)) => Ok(None),
        Err(error) => Err(error),
    }
}
