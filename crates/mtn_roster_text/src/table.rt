// Ids by positions.
ghost use Rattle.std.specs.Prelude.{◌≡◌, IfOk};
ghost use Rattle.std.specs.List.Sorted.{IsStrictlyIncreasing};
ghost use Rattle.mtn_roster_text.specs.Naming.{id_at, table_of};

use mtn_ancestry::Pos;
use mtn_base::{Id, NoMemory};
use std::alloc::Global;
use std::marker::Model;

/// A position and the id of the revision there.
#[derive(Clone, Copy)]
pub struct Named {
    pub at: Pos,
    pub id: Id,
}

/// The ids of some positions. Contracts see them as a list by ascending positions.
#[derive(Drop)]
pub struct IdTable {
    items: Vec<Named>,
}

impl Model for IdTable {
    ghost use Rattle.std.specs.Prelude.{List, IsTrue, map};
    ghost use Rattle.std.specs.Ordering.{nat_cmp};
    ghost use Rattle.mtn_base.specs.Lists.{rises};
    ghost use Rattle.mtn_roster_text.specs.declared.table.Named.{Named};

    ghost Value = { List Named };

    ghost view = { λ t. t.items.items };

    ghost invariant = { λ t. IsTrue (rises nat_cmp (map (λ (n : Named). n.at) t.items.items)) };
}

// Each position with the id beside it.
fn paired(alloc: Global, places: &[Pos], ids: &[Id]) -> Result<Vec<Named>, NoMemory>
    ensures { IfOk result (λ items. items.items ≡ table_of places.now ids.now) }
{
    Ok(
        places
            .iter()
            .zip(ids.iter())
            .map(|(at, id)| Named { at: *at, id: *id })
            .collect(alloc)?,
    )
}

impl IdTable {
    /// The table of ascending positions and the ids beside them.
    pub fn new(alloc: Global, places: &[Pos], ids: &[Id]) -> Result<IdTable, NoMemory>
        requires { IsStrictlyIncreasing places.now }
        ensures { IfOk result (λ table. table ≡ table_of places.now ids.now) }
    {
        let items = paired(alloc, places, ids)?;
        Ok(IdTable { items })
    }

    /// The id of the revision at a position; None where the table does not have it. It takes no memory.
    pub fn id(&self, at: Pos) -> Option<Id>
        ensures { result ≡ id_at self.now at }
    {
        match self.items.binary_search_by(|named| named.at.0.cmp(&at.0)) {
            Ok(place) => Some(self.items[place].id),
            Err(_) => None,
        }
    }
}
