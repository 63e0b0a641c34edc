// What is looked at behind the walk along the log.
ghost use Rattle.std.specs.Prelude.{◌≡◌, Err, IfErr, IfSome, OnOk};
ghost use Rattle.mtn_history.specs.Errors.{IfDamage};
ghost use Rattle.mtn_ports.specs.Causes.{Rose};
ghost use Rattle.mtn_ports.specs.Kept.{Stays};
ghost use Rattle.mtn_check.specs.Steps.{IsLateDamage, IsRightBeside};
ghost use Rattle.mtn_check.specs.Tables.{AreTallied};

use crate::few::Tallies;
use crate::places::check_places;
use crate::scan::{Test, check_table};
use mtn_certs::is_field;
use mtn_check_laws::walk_stands;
use mtn_history::{CERTS, KEYS, StoreError, TEXTS};
use mtn_ports::Keeper;
use mtn_put_certs::read_cert;
use std::alloc::Global;

// How many bytes an id has.
const ID_LEN: usize = 20;

// That the name of a key is a field, under an id.
#[derive(Clone, Copy)]
struct Names;

impl Test for Names {
    ghost use Rattle.mtn_check.specs.Steps.{NameRule};

    ghost rule = { λ _ _ key body. NameRule key body };

    fn keeps<K: Keeper>(
        &self,
        _alloc: Global,
        _keeper: &mut K,
        key: &[u8],
        body: &[u8],
    ) -> Result<bool, StoreError> {
        Ok(key.len() == ID_LEN && is_field(body))
    }
}

// That a certificate is lawful and of a revision that has a text, and that its record has no body.
#[derive(Clone, Copy)]
struct Certs;

impl Test for Certs {
    ghost use Rattle.mtn_check.specs.Steps.{IsCertIn};

    ghost rule = { λ _ c key body. IsCertIn c key body };

    fn keeps<K: Keeper>(
        &self,
        alloc: Global,
        keeper: &mut K,
        key: &[u8],
        body: &[u8],
    ) -> Result<bool, StoreError> {
        if !body.is_empty() {
            return Ok(false);
        }
        let Some(cert) = read_cert(alloc, key)? else {
            return Ok(false);
        };
        let mut text = Vec::new(alloc);
        let found = keeper.get(TEXTS, cert.revision.as_slice(), &mut text)?;
        Ok(found)
    }
}

/// Looks at the records of positions, at the names of keys, and at the certificates.
pub fn check_beside<K: Keeper>(
    alloc: Global,
    tallies: Tallies,
    count: u64,
    keeper: &mut K,
) -> Result<(), StoreError>
    requires tallied { IfSome (K.contents keeper.old) (λ c. AreTallied count c tallies) }
    ensures stays { Stays K.contents K.leaves K.faults keeper.old keeper.new }
    ensures right { IfSome (K.contents keeper.new) (λ c. OnOk result (IsRightBeside count c)) }
    ensures damaged { IfSome (K.contents keeper.new) (λ c. IfErr result (λ e. IfDamage e (IsLateDamage count c))) }
    ensures failed { result ≡ Err StoreError.Failed → Rose (K.faults keeper.old) (K.faults keeper.new) }
{
    walk_stands();
    check_places(alloc, tallies, count, keeper)?;
    check_table(alloc, &Names, KEYS, keeper)?;
    check_table(alloc, &Certs, CERTS, keeper)
}
