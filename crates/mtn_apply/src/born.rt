// What applying a changeset asks of births.
ghost use Rattle.std.specs.Prelude.{◌≡◌, ◌↔◌, IsTrue, slice_get};
ghost use Rattle.mtn_base.specs.Names.{same_id};
ghost use Rattle.mtn_roster.specs.declared.entry.Entry.{Entry};
ghost use Rattle.mtn_base.specs.Lists.{is_some_with};
ghost use Rattle.mtn_changeset_laws.specs.Laws.{NoneBornIn};
ghost use Rattle.mtn_apply.specs.Old.{tree_in};

use crate::old::{old_len, old_place};
use mtn_base::Id;
use mtn_roster::Roster;

/// Whether the old node at a place is born in a revision.
fn is_born(old: Option<&Roster>, place: usize, new: Id) -> bool
    ensures { result ≡ is_some_with (λ (e : Entry). same_id e.name.birth new) (slice_get (tree_in old.entry) place) }
{
    match old_place(old, place) {
        None => false,
        Some(node) => node.value.name.birth == new,
    }
}

/// Whether no old node is born in a revision, which `apply` asks for. It looks at each node once, and
/// takes no memory.
pub fn none_is_born(old: Option<&Roster>, new: Id) -> bool
    ensures { IsTrue result ↔ NoneBornIn (tree_in old.entry) new }
{
    let count = old_len(old) as usize;
    for place in 0..count {
        if is_born(old, place, new) {
            return false;
        }
    }
    true
}
