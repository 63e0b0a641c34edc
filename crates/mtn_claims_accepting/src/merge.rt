//! An id that no node was born with.
ghost use Rattle.std.specs.Prelude.{IfOk};
ghost use Rattle.mtn_changeset_laws.specs.Laws.{NoneBornIn};
ghost use Rattle.mtn_conflicts.specs.Result.{NoneBornIn as NoneDecidedIn};

use mtn_base::{Id, NoMemory};
use mtn_decide::Decision;
use mtn_roster::Roster;
use std::alloc::Global;

/// As `mtn_merge::unborn`.
pub fn unborn(
    alloc: Global,
    left: &Roster,
    right: &Roster,
    nodes: &[Decision],
) -> Result<Id, NoMemory>
    ensures left { IfOk result (NoneBornIn left.now) }
    ensures right { IfOk result (NoneBornIn right.now) }
    ensures nodes { IfOk result (NoneDecidedIn nodes.now) }
{
    mtn_merge::unborn(alloc, left, right, nodes)
}
