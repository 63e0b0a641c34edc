// Ids in their order, each once: as an answer lists them.
ghost use Rattle.std.specs.Prelude.{◌≡◌};
ghost use Rattle.mtn_base.specs.Ids.{in_id_order};

use crate::id::Id;

/// Puts ids in their order, ascending by their bytes, and takes out what repeats. It takes no memory.
pub fn put_in_order(ids: &mut Vec<Id>)
    ensures { ids.new.items ≡ in_id_order ids.old.items }
{
    ids.sort_unstable();
    ids.dedup();
}
