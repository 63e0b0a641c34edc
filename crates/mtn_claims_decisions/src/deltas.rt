//! The marked tree that numbered entries spell.
ghost use Rattle.std.specs.Prelude.{IfOk, IsErrOf};
ghost use Rattle.mtn_marking.specs.Marking.{MarkedTree};
ghost use Rattle.mtn_roster_deltas.specs.Spelled.{Spells};

use mtn_marking::MarkedRoster;
use mtn_records::{Numbered, RecordError};
use std::alloc::Global;

/// As `mtn_roster_deltas::marked_tree`.
pub fn marked_tree(alloc: Global, entries: &Numbered) -> Result<MarkedRoster, RecordError>
    ensures spelled { IfOk result (Spells entries.now) }
    ensures bad { IsErrOf result RecordError.Bad → (t : MarkedTree) → Spells entries.now t → ⊥ }
{
    mtn_roster_deltas::marked_tree(alloc, entries)
}
