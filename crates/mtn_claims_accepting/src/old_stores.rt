//! A certificate of the older form, read from its key.
ghost use Rattle.std.specs.Prelude.{IfOk};
ghost use Rattle.mtn_old_stores.specs.Reading.{IsOldCertOf};

use mtn_base::NoMemory;
use mtn_old_stores::OldCert;
use std::alloc::Global;

/// As `mtn_old_stores::read_old_cert`.
pub fn read_old_cert(alloc: Global, key: &[u8]) -> Result<Option<OldCert>, NoMemory>
    ensures { IfOk result (IsOldCertOf key.now) }
{
    mtn_old_stores::read_old_cert(alloc, key)
}
