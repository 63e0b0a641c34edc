// Rosters as their records give them.
ghost use Rattle.std.specs.Prelude.{◌≡◌, IfOk};
ghost use Rattle.mtn_roster_deltas.specs.Spelled.{Spells};

use mtn_base::NoMemory;
use mtn_marking::MarkedRoster;
use mtn_records::Numbered;
use mtn_roster_deltas::NumberedRoster;
use std::alloc::Global;
use std::marker::Model;

/// A roster as its records give it: the roster with its marks, the numbers of its nodes, and how many deltas its record stands
/// above a whole one. It has no list of its entries.
#[derive(Drop)]
pub struct Rebuilt {
    numbered: NumberedRoster,
    depth: u8,
}

impl Model for Rebuilt {
    ghost use Rattle.mtn_history.specs.Remembered.{RebuiltRoster};

    ghost Value = { RebuiltRoster };

    ghost view = { λ r. record { entries = r.numbered.entries; roster = r.numbered.roster; depth = r.depth } };
}

impl Rebuilt {
    /// The roster that entries spell, at this depth. The entries are only looked at.
    pub fn new(
        alloc: Global,
        entries: &Numbered,
        roster: MarkedRoster,
        depth: u8,
    ) -> Result<Rebuilt, NoMemory>
        requires { Spells entries.now roster }
        ensures { IfOk result (λ r. r ≡ record { entries = entries.now; roster = roster; depth = depth }) }
    {
        let numbered = NumberedRoster::new(alloc, entries, roster)?;
        Ok(Rebuilt { numbered, depth })
    }

    /// The roster with its marks. It takes no memory.
    pub fn roster(&self) -> &MarkedRoster
        ensures { result.now ≡ self.now.roster }
    {
        self.numbered.roster()
    }

    /// How many deltas its record stands above a whole one. It takes no memory.
    pub fn depth(&self) -> u8
        ensures { result ≡ self.now.depth }
    {
        self.depth
    }

    /// Its entries, made anew.
    pub fn entries(&self, alloc: Global) -> Result<Numbered, NoMemory>
        ensures { IfOk result (λ es. es ≡ self.now.entries) }
    {
        self.numbered.entries(alloc)
    }
}
