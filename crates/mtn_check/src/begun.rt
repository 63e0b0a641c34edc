// What is looked at before the walk along the log.
ghost use Rattle.std.specs.Prelude.{◌≡◌, Err, IfErr, IfSome, OnOk};
ghost use Rattle.mtn_check_laws.specs.FirstDamage.{IsUsed};
ghost use Rattle.mtn_check_laws.specs.Records.{AllKeep, IsFirstBreak};
ghost use Rattle.mtn_history.specs.Errors.{IfDamage};
ghost use Rattle.mtn_ports.specs.Causes.{Rose};
ghost use Rattle.mtn_ports.specs.Kept.{Stays};
ghost use Rattle.mtn_check.specs.Steps.{Begins, IsEarlyDamage};

use crate::empty::check_empty;
use crate::meta::{MetaKeys, check_version};
use crate::scan::{Test, check_table};
use mtn_base::MAX_TEXT;
use mtn_history::{FILES, META, StoreError};
use mtn_ports::{Ident, Keeper};
use std::alloc::Global;

// That a file is within its limit, and stands under its id.
#[derive_where(Clone, Copy)]
struct Files<'a, I> {
    ident: &'a I,
}

impl<I: Ident> Test for Files<'_, I> {
    ghost use Rattle.mtn_check.specs.Steps.{FileRule};

    ghost rule = { λ files _ key body. FileRule (I.meaning files.ident.now) key body };

    fn keeps<K: Keeper>(
        &self,
        _alloc: Global,
        _keeper: &mut K,
        key: &[u8],
        body: &[u8],
    ) -> Result<bool, StoreError> {
        Ok(body.len() <= MAX_TEXT && self.ident.id(body).as_slice() == key)
    }
}

// That the tables without a use have no record.
fn check_unused<K: Keeper>(alloc: Global, keeper: &mut K) -> Result<(), StoreError>
    ensures stays { Stays K.contents K.leaves K.faults keeper.old keeper.new }
    ensures used { IfSome (K.contents keeper.new) (λ c. OnOk result (AllKeep IsUsed c)) }
    ensures damaged { IfSome (K.contents keeper.new) (λ c. IfErr result (λ e. IfDamage e (IsFirstBreak IsUsed c))) }
    ensures failed { result ≡ Err StoreError.Failed → Rose (K.faults keeper.old) (K.faults keeper.new) }
{
    check_empty(alloc, 0, 1, keeper)?;
    check_empty(alloc, 9, 256, keeper)
}

/// Looks at table 1 behind `count`, at the tables without a use, and at the files, each of which is hashed once.
pub fn check_begun<I: Ident, K: Keeper>(
    alloc: Global,
    ident: &I,
    keeper: &mut K,
) -> Result<(), StoreError>
    ensures stays { Stays K.contents K.leaves K.faults keeper.old keeper.new }
    ensures begun { IfSome (K.contents keeper.new) (λ c. OnOk result (Begins (I.meaning ident.now) c)) }
    ensures damaged { IfSome (K.contents keeper.new) (λ c. IfErr result (λ e. IfDamage e (IsEarlyDamage (I.meaning ident.now) c))) }
    ensures failed { result ≡ Err StoreError.Failed → Rose (K.faults keeper.old) (K.faults keeper.new) }
{
    check_version(alloc, keeper)?;
    check_table(alloc, &MetaKeys, META, keeper)?;
    check_unused(alloc, keeper)?;
    check_table(alloc, &Files { ident }, FILES, keeper)
}
