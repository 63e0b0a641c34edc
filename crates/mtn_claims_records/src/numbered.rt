// Trees with marks whose nodes have numbers beside them.
ghost use Rattle.mtn_roster_deltas.specs.Spelled.{Spells};
ghost use Rattle.std.specs.Prelude.{◌≡◌, IfOk};

use mtn_base::NoMemory;
use mtn_marking::MarkedRoster;
use mtn_records::Numbered;
use mtn_roster_deltas::NumberedRoster;
use std::alloc::Global;

/// As `NumberedRoster::new`.
pub fn new_numbered(
    alloc: Global,
    entries: &Numbered,
    roster: MarkedRoster,
) -> Result<NumberedRoster, NoMemory>
    requires { Spells entries.now roster }
    ensures { IfOk result (λ r. r ≡ record { entries = entries.now; roster = roster }) }
{
    NumberedRoster::new(alloc, entries, roster)
}

/// As `NumberedRoster::roster`.
pub fn numbered_tree(numbered: &NumberedRoster) -> &MarkedRoster
    ensures { result.now ≡ numbered.now.roster }
{
    numbered.roster()
}

/// As `NumberedRoster::entries`.
pub fn numbered_entries(numbered: &NumberedRoster, alloc: Global) -> Result<Numbered, NoMemory>
    ensures { IfOk result (λ es. es ≡ numbered.now.entries) }
{
    numbered.entries(alloc)
}
