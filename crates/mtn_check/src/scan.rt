// The records of one table, one after the other.
ghost use Rattle.std.specs.Prelude.{◌≡◌, ◌↔◌, List, ℕ, Err, IfErr, IfOk, IfSome, IsTrue, OnOk};
ghost use Rattle.mtn_model.specs.Table.{Contents};
ghost use Rattle.mtn_history.specs.Errors.{IfDamage};
ghost use Rattle.mtn_ports.specs.Causes.{Rose};
ghost use Rattle.mtn_ports.specs.Kept.{AreKeyed, Stays};
ghost use Rattle.mtn_check.specs.Tables.{AllIn, IsBreakIn, IsNextBroken, IsNextKept};

use mtn_base::Bytes;
use mtn_history::{Damage, StoreError};
use mtn_ports::Keeper;
use std::alloc::Global;

/// What is asked of each record of a table.
pub trait Test {
    /// The rule, which may look at the other records.
    ghost rule: { Self → Contents → List ℕ → List ℕ → Type 0 };

    /// Whether a record keeps the rule.
    fn keeps<K: Keeper>(
        &self,
        alloc: Global,
        keeper: &mut K,
        key: &[u8],
        body: &[u8],
    ) -> Result<bool, StoreError>
        ensures stays { Stays K.contents K.leaves K.faults keeper.old keeper.new }
        ensures kept { IfSome (K.contents keeper.new) (λ c. IfOk result (λ kept. IsTrue kept ↔ rule self.now c key.now body.now)) }
        ensures sound { IfErr result (λ e. IfDamage e (λ _. ⊥)) }
        ensures failed { result ≡ Err StoreError.Failed → Rose (K.faults keeper.old) (K.faults keeper.new) };
}

// The key of the next record above another, if there is one. A record that breaks the rule is damage.
fn next_kept<T: Test, K: Keeper>(
    alloc: Global,
    test: &T,
    table: u8,
    last: &[u8],
    keeper: &mut K,
) -> Result<Option<Bytes>, StoreError>
    ensures stays { Stays K.contents K.leaves K.faults keeper.old keeper.new }
    ensures kept { IfSome (K.contents keeper.new) (λ c. IfOk result (IsNextKept table (T.rule test.now c) c last.now)) }
    ensures keyed { OnOk result (IfSome (K.contents keeper.new) AreKeyed) }
    ensures damaged { IfSome (K.contents keeper.new) (λ c. IfErr result (λ e. IfDamage e (λ d. AreKeyed c × IsNextBroken table (T.rule test.now c) c last.now d))) }
    ensures failed { result ≡ Err StoreError.Failed → Rose (K.faults keeper.old) (K.faults keeper.new) }
{
    let mut key = Vec::new(alloc);
    let mut body = Vec::new(alloc);
    if !keeper.next_record(table, last, &mut key, &mut body)? {
        return Ok(None);
    }
    if test.keeps(alloc, keeper, &key, &body)? {
        return Ok(Some(Bytes::from_vec(key)));
    }
    Err(StoreError::Damaged(Damage::Bad {
        table,
        key: Bytes::from_vec(key),
        body: Bytes::from_vec(body),
    }))
}

/// Whether each record of a table keeps the rule: the first that does not is damage.
pub fn check_table<T: Test, K: Keeper>(
    alloc: Global,
    test: &T,
    table: u8,
    keeper: &mut K,
) -> Result<(), StoreError>
    ensures stays { Stays K.contents K.leaves K.faults keeper.old keeper.new }
    ensures kept { IfSome (K.contents keeper.new) (λ c. OnOk result (AllIn table (T.rule test.now c) c)) }
    ensures damaged { IfSome (K.contents keeper.new) (λ c. IfErr result (λ e. IfDamage e (IsBreakIn table (T.rule test.now c) c))) }
    ensures failed { result ≡ Err StoreError.Failed → Rose (K.faults keeper.old) (K.faults keeper.new) }
{
    let mut last = Bytes::new(alloc);
    for _ in 0..u64::MAX {
        match next_kept(alloc, test, table, last.as_slice(), keeper)? {
            Some(key) => last = key,
            None => return Ok(()),
        }
    }
    Err(StoreError::NoMemory)
}
