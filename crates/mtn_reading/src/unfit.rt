// A damage behind the first packet, as the store's own records show it.
ghost use Rattle.std.specs.Prelude.{◌≡◌, ◌⊎◌, Some, Err, IfErr, IfOk, IfSome, OnOk};
ghost use Rattle.std.specs.Bool.{OnTrue};
ghost use Rattle.mtn_history.specs.Damage.{IsShown};
ghost use Rattle.mtn_history.specs.Errors.{IfDamage, IfStoreDamage};
ghost use Rattle.mtn_history.specs.Marked.{IsCounted};
ghost use Rattle.mtn_ports.specs.Causes.{Rose};
ghost use Rattle.mtn_ports.specs.Kept.{AreKeyed, Stays};
ghost use Rattle.mtn_reading.specs.Unfit.{IsAnswered, IsRecordIn, IsRecordOf, IsShownFor};

use mtn_base::Bytes;
use mtn_history::{Damage, Draft, HistoryError, StoreError};
use mtn_ports::Keeper;

// How many tables there may be.
const TABLES: u16 = 256;

// Whether a damage shows a record of the keeper's own, or one that it lacks.
fn is_kept<K: Keeper>(draft: &mut Draft<'_, K>, damage: &Damage) -> Result<bool, StoreError>
    ensures same_reference { draft.new.keeper.ghost_name ≡ draft.old.keeper.ghost_name }
    ensures stays { Stays K.contents K.leaves K.faults draft.old.keeper.now draft.new.keeper.now }
    ensures pending { draft.new.pending ≡ draft.old.pending }
    ensures shown { IfSome (K.contents draft.new.keeper.now) (λ c. IfOk result (λ kept. OnTrue kept (IsShown c damage.now))) }
    ensures counted { IfSome (K.contents draft.new.keeper.now) (IsCounted draft.new.pending) }
    ensures sound { IfErr result (λ e. IfDamage e (λ _. ⊥)) }
    ensures failed { result ≡ Err StoreError.Failed → Rose (K.faults draft.old.keeper.now) (K.faults draft.new.keeper.now) }
{
    let mut out = Vec::new(draft.alloc());
    match damage {
        Damage::Bad { table, key, body } => {
            let found = draft.get_kept(*table, key.as_slice(), &mut out)?;
            Ok(found && out.as_slice() == body.as_slice())
        }
        Damage::Missing { table, key } => {
            let found = draft.get_kept(*table, key.as_slice(), &mut out)?;
            Ok(!found)
        }
    }
}

// The first record of a table of the keeper's own, if it has one.
fn first_in<K: Keeper>(draft: &mut Draft<'_, K>, table: u8) -> Result<Option<Damage>, StoreError>
    ensures same_reference { draft.new.keeper.ghost_name ≡ draft.old.keeper.ghost_name }
    ensures stays { Stays K.contents K.leaves K.faults draft.old.keeper.now draft.new.keeper.now }
    ensures pending { draft.new.pending ≡ draft.old.pending }
    ensures first { IfSome (K.contents draft.new.keeper.now) (λ c. IfOk result (IsRecordIn c table)) }
    ensures keyed { OnOk result (IfSome (K.contents draft.new.keeper.now) AreKeyed) }
    ensures sound { IfErr result (λ e. IfDamage e (λ _. ⊥)) }
    ensures failed { result ≡ Err StoreError.Failed → Rose (K.faults draft.old.keeper.now) (K.faults draft.new.keeper.now) }
{
    let mut key = Vec::new(draft.alloc());
    let mut body = Vec::new(draft.alloc());
    if !draft.next_kept(table, &[], &mut key, &mut body)? {
        return Ok(None);
    }
    Ok(Some(Damage::Bad {
        table,
        key: Bytes::from_vec(key),
        body: Bytes::from_vec(body),
    }))
}

/// The first record of the keeper's own, by tables and keys, as a damage that shows it; None where the keeper has none. It is shown
/// where records stand for no state and none of them is known to be why.
pub fn first_kept<K: Keeper>(draft: &mut Draft<'_, K>) -> Result<Option<Damage>, StoreError>
    ensures same_reference { draft.new.keeper.ghost_name ≡ draft.old.keeper.ghost_name }
    ensures stays { Stays K.contents K.leaves K.faults draft.old.keeper.now draft.new.keeper.now }
    ensures pending { draft.new.pending ≡ draft.old.pending }
    ensures first { IfSome (K.contents draft.new.keeper.now) (λ c. IfOk result (IsRecordOf c)) }
    ensures sound { IfErr result (λ e. IfDamage e (λ _. ⊥)) }
    ensures failed { result ≡ Err StoreError.Failed → Rose (K.faults draft.old.keeper.now) (K.faults draft.new.keeper.now) }
{
    for table in 0..TABLES {
        if let Some(first) = first_in(draft, table as u8)? {
            return Ok(Some(first));
        }
    }
    Ok(None)
}

// What is shown for a damage that came.
fn kept_for<K: Keeper>(draft: &mut Draft<'_, K>, came: Damage) -> Result<Damage, StoreError>
    ensures same_reference { draft.new.keeper.ghost_name ≡ draft.old.keeper.ghost_name }
    ensures stays { Stays K.contents K.leaves K.faults draft.old.keeper.now draft.new.keeper.now }
    ensures pending { draft.new.pending ≡ draft.old.pending }
    ensures kept { IfSome (K.contents draft.new.keeper.now) (λ c. IfOk result (IsShownFor c came)) }
    ensures counted { IfSome (K.contents draft.new.keeper.now) (IsCounted draft.new.pending) }
    ensures sound { IfErr result (λ e. IfDamage e (λ _. ⊥)) }
    ensures failed { result ≡ Err StoreError.Failed → Rose (K.faults draft.old.keeper.now) (K.faults draft.new.keeper.now) }
{
    if is_kept(draft, &came)? {
        return Ok(came);
    }
    match first_kept(draft)? {
        Some(first) => Ok(first),
        None => Ok(came),
    }
}

/// An error behind the first packet. A damage is then one of the store's records together with what the packets before put: it
/// is shown as it is where it shows a record of the store's own or one that the store lacks, and else the store's first record
/// is shown. It asks the keeper for the record, and at most for the first record of each table.
pub fn kept_error<K: Keeper>(draft: &mut Draft<'_, K>, error: HistoryError) -> HistoryError
    ensures same_reference { draft.new.keeper.ghost_name ≡ draft.old.keeper.ghost_name }
    ensures stays { Stays K.contents K.leaves K.faults draft.old.keeper.now draft.new.keeper.now }
    ensures pending { draft.new.pending ≡ draft.old.pending }
    ensures answered { IsAnswered error result }
    ensures kept { IfSome (K.contents draft.new.keeper.now) (λ c. IfStoreDamage error (λ came. IfStoreDamage result (IsShownFor c came))) }
    ensures counted { IfSome (K.contents draft.new.keeper.now) (λ c. IfStoreDamage error (λ _. IsCounted draft.new.pending c)) }
    ensures failed { result ≡ HistoryError.Store StoreError.Failed → (error ≡ HistoryError.Store StoreError.Failed) ⊎ Rose (K.faults draft.old.keeper.now) (K.faults draft.new.keeper.now) }
{
    match error {
        HistoryError::Store(StoreError::Damaged(came)) => match kept_for(draft, came) {
            Ok(shown) => HistoryError::Store(StoreError::Damaged(shown)),
            Err(error) => HistoryError::Store(error),
        },
        other => other,
    }
}
