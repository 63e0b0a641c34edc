// The call of `mtn_between`.
ghost use Rattle.std.specs.Prelude.{◌≡◌, IfOk};
ghost use Rattle.mtn_between.specs.Between.{between as between_trees};

use mtn_base::NoMemory;
use mtn_between::between;
use mtn_changes::Changeset;
use mtn_roster::Roster;
use std::alloc::Global;

/// As `mtn_between::between`.
pub fn changes_of(alloc: Global, old: &Roster, new: &Roster) -> Result<Changeset, NoMemory>
    ensures { IfOk result (λ changes. changes ≡ between_trees old.now new.now) }
{
    let made = between(alloc, old, new)?;
    Ok(made)
}
