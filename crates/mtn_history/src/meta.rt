// The two records of table 1.
ghost use Rattle.std.specs.Prelude.{◌≡◌, ◌≢◌, ◌≤◌, ◌+◌, Err, length, IfOk, IfErr, IfSome, MatchOption};
ghost use Rattle.std.specs.Int.{w64, from_be_bytes};
ghost use Rattle.mtn_ports.specs.Causes.{Rose};
ghost use Rattle.mtn_ports.specs.Kept.{Stays};
ghost use Rattle.mtn_history.specs.Meta.{HasOldVersion, IsMetaOf, IsUnopened, IsVersionOf, MetaDamage};
ghost use Rattle.mtn_history.specs.Errors.{IfDamage};

use crate::damaged::{bad, missing};
use crate::{HistoryError, META, StoreError};
use mtn_base::Cause;
use mtn_ports::Keeper;
use std::alloc::Global;

/// What table 1 says: the number of revisions, and whether the store has no records yet.
#[derive(Clone, Copy)]
pub struct Meta {
    pub count: u64,
    pub is_new: bool,
}

// The number that eight bytes spell.
fn number_of(body: &[u8]) -> Option<u64>
    ensures { MatchOption result (length body.now ≢ 8) (λ n. (length body.now ≡ 8) × (n ≡ from_be_bytes w64 body.now)) }
{
    match body {
        [a, b, c, d, e, f, g, h] => Some(u64::from_be_bytes([*a, *b, *c, *d, *e, *f, *g, *h])),
        _ => None,
    }
}

// What is held under `version`, where that is not the older version.
#[derive(Drop)]
enum Version {
    Present,
    Unheld,
    Other(Vec<u8>),
}

// The version. A store of the older form is refused.
fn read_version<K: Keeper>(alloc: Global, keeper: &mut K) -> Result<Version, HistoryError>
    ensures stays { Stays K.contents K.leaves K.faults keeper.old keeper.new }
    ensures version { IfSome (K.contents keeper.new) (λ c. IfOk result (IsVersionOf c)) }
    ensures unopened { IfSome (K.contents keeper.new) (λ c. IfErr result (IsUnopened c)) }
    ensures failed { result ≡ Err (HistoryError.Store StoreError.Failed) → Rose (K.faults keeper.old) (K.faults keeper.new) }
    ensures reads { K.reads keeper.new ≤ K.reads keeper.old + 1 }
{
    let mut body = Vec::new(alloc);
    if !keeper.get(META, b"version", &mut body)? {
        return Ok(Version::Unheld);
    }
    if body.as_slice() == b"2".as_slice() {
        return Ok(Version::Present);
    }
    if body.as_slice() == b"1".as_slice() {
        return Err(HistoryError::Refused(Cause::OldStore));
    }
    Ok(Version::Other(body))
}

// The number of revisions, beside this version.
fn read_count<K: Keeper>(
    alloc: Global,
    keeper: &mut K,
    version: Version,
) -> Result<Meta, StoreError>
    requires { IfSome (K.contents keeper.old) (λ c. IsVersionOf c version) }
    ensures stays { Stays K.contents K.leaves K.faults keeper.old keeper.new }
    ensures meta { IfSome (K.contents keeper.new) (λ c. IfOk result (IsMetaOf c)) }
    ensures damaged { IfSome (K.contents keeper.new) (λ c. IfErr result (λ e. IfDamage e (λ d. MetaDamage c d × ¬ HasOldVersion c))) }
    ensures failed { result ≡ Err StoreError.Failed → Rose (K.faults keeper.old) (K.faults keeper.new) }
    ensures reads { K.reads keeper.new ≤ K.reads keeper.old + 1 }
{
    let mut body = Vec::new(alloc);
    if !keeper.get(META, b"count", &mut body)? {
        return Ok(Meta {
            count: 0,
            is_new: true,
        });
    }
    let Some(count) = number_of(&body) else {
        return Err(bad(alloc, META, b"count", &body));
    };
    match version {
        Version::Present => Ok(Meta {
            count,
            is_new: false,
        }),
        Version::Unheld => Err(missing(alloc, META, b"version")),
        Version::Other(other) => Err(bad(alloc, META, b"version", &other)),
    }
}

/// What the records of table 1 say. Without `count` the store is empty. A store of the older form is refused, before anything else
/// is looked at.
pub fn read_meta<K: Keeper>(alloc: Global, keeper: &mut K) -> Result<Meta, HistoryError>
    ensures stays { Stays K.contents K.leaves K.faults keeper.old keeper.new }
    ensures meta { IfSome (K.contents keeper.new) (λ c. IfOk result (IsMetaOf c)) }
    ensures unopened { IfSome (K.contents keeper.new) (λ c. IfErr result (IsUnopened c)) }
    ensures failed { result ≡ Err (HistoryError.Store StoreError.Failed) → Rose (K.faults keeper.old) (K.faults keeper.new) }
    ensures reads { K.reads keeper.new ≤ K.reads keeper.old + 2 }
{
    let version = read_version(alloc, keeper)?;
    match read_count(alloc, keeper, version) {
        Ok(meta) => Ok(meta),
        Err(error) => Err(HistoryError::Store(error)),
    }
}
