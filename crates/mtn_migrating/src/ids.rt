// The ids of keys, by their names.
ghost use Rattle.std.specs.Prelude.{IfOk};
ghost use Rattle.mtn_migrating.specs.Working.{AreIdsOf};

use mtn_base::{Id, NoMemory};
use mtn_certs::KeyName;
use std::alloc::Global;
use std::collections::BTreeMap;

/// The id that a table gives each name.
pub fn ids_of<'a>(alloc: Global, table: &'a [KeyName]) -> Result<BTreeMap<&'a [u8], Id>, NoMemory>
    ensures { IfOk result (λ ids. AreIdsOf ids table.now) }
{
    let mut ids = BTreeMap::new(alloc);
    let mut at = table.len();
    while at > 0 {
        at -= 1;
        let key = &table[at];
        ids.insert(key.name.as_slice(), key.id)?;
    }
    Ok(ids)
}
