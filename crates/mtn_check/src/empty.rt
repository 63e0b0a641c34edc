// Tables that are to have no record.
ghost use Rattle.std.specs.Prelude.{◌≡◌, ◌+◌, ◌<◌, ◌≤◌, Err, IfErr, IfSome, OnOk};
ghost use Rattle.mtn_history.specs.Errors.{IfDamage};
ghost use Rattle.mtn_ports.specs.Causes.{Rose};
ghost use Rattle.mtn_ports.specs.Kept.{AreKeyed, Stays};
ghost use Rattle.mtn_check.specs.Tables.{AreEmpty, IsFirstOf};

use mtn_base::Bytes;
use mtn_history::{Damage, StoreError};
use mtn_ports::Keeper;
use std::alloc::Global;

// The first record of a table is damage.
fn check_bare<K: Keeper>(alloc: Global, table: u8, keeper: &mut K) -> Result<(), StoreError>
    ensures stays { Stays K.contents K.leaves K.faults keeper.old keeper.new }
    ensures empty { IfSome (K.contents keeper.new) (λ c. OnOk result (AreEmpty table (table + 1) c)) }
    ensures keyed { OnOk result (IfSome (K.contents keeper.new) AreKeyed) }
    ensures damaged { IfSome (K.contents keeper.new) (λ c. IfErr result (λ e. IfDamage e (IsFirstOf table (table + 1) c))) }
    ensures failed { result ≡ Err StoreError.Failed → Rose (K.faults keeper.old) (K.faults keeper.new) }
{
    let mut key = Vec::new(alloc);
    let mut body = Vec::new(alloc);
    if !keeper.next_record(table, &[], &mut key, &mut body)? {
        return Ok(());
    }
    Err(StoreError::Damaged(Damage::Bad {
        table,
        key: Bytes::from_vec(key),
        body: Bytes::from_vec(body),
    }))
}

/// Whether the tables from one up to another, which is not one of them, have no record: the first that they have is damage. It
/// asks for one record of each.
pub fn check_empty<K: Keeper>(
    alloc: Global,
    from: u16,
    to: u16,
    keeper: &mut K,
) -> Result<(), StoreError>
    requires some { from < to }
    requires tables { to ≤ 256 }
    ensures stays { Stays K.contents K.leaves K.faults keeper.old keeper.new }
    ensures empty { IfSome (K.contents keeper.new) (λ c. OnOk result (AreEmpty from to c)) }
    ensures keyed { OnOk result (IfSome (K.contents keeper.new) AreKeyed) }
    ensures damaged { IfSome (K.contents keeper.new) (λ c. IfErr result (λ e. IfDamage e (IsFirstOf from to c))) }
    ensures failed { result ≡ Err StoreError.Failed → Rose (K.faults keeper.old) (K.faults keeper.new) }
{
    for table in from..to {
        check_bare(alloc, table as u8, keeper)?;
    }
    Ok(())
}
