//! Rosters as their records give them.
ghost use Rattle.mtn_roster_deltas.specs.Spelled.{Spells};
ghost use Rattle.std.specs.Prelude.{◌≡◌, IfOk};

use mtn_base::NoMemory;
use mtn_history::Rebuilt;
use mtn_marking::MarkedRoster;
use mtn_records::Numbered;
use std::alloc::Global;

/// As `Rebuilt::new`.
pub fn new_rebuilt(
    alloc: Global,
    entries: &Numbered,
    roster: MarkedRoster,
    depth: u8,
) -> Result<Rebuilt, NoMemory>
    requires { Spells entries.now roster }
    ensures { IfOk result (λ r. r ≡ record { entries = entries.now; roster = roster; depth = depth }) }
{
    Rebuilt::new(alloc, entries, roster, depth)
}

/// As `Rebuilt::roster`.
pub fn rebuilt_tree(rebuilt: &Rebuilt) -> &MarkedRoster
    ensures { result.now ≡ rebuilt.now.roster }
{
    rebuilt.roster()
}

/// As `Rebuilt::depth`.
pub fn rebuilt_depth(rebuilt: &Rebuilt) -> u8
    ensures { result ≡ rebuilt.now.depth }
{
    rebuilt.depth()
}

/// As `Rebuilt::entries`.
pub fn rebuilt_entries(rebuilt: &Rebuilt, alloc: Global) -> Result<Numbered, NoMemory>
    ensures { IfOk result (λ es. es ≡ rebuilt.now.entries) }
{
    rebuilt.entries(alloc)
}
