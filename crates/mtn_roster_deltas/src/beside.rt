// Trees with marks whose nodes have numbers beside them.
ghost use Rattle.std.specs.Prelude.{◌≡◌, IfOk};
ghost use Rattle.mtn_roster_deltas.specs.Beside.{AreBeside, entries_beside};
ghost use Rattle.mtn_roster_deltas.specs.Spelled.{Spells};

use crate::noting::known_numbers;
use crate::numbering::numbered_entries;
use mtn_base::{List, NoMemory};
use mtn_marking::MarkedRoster;
use mtn_records::Numbered;
use std::alloc::Global;
use std::marker::Model;

/// A tree with marks and the numbers of its nodes, by their places. It tells the entries that it was made of, and has no list of
/// them.
#[derive(Drop)]
pub struct NumberedRoster {
    roster: MarkedRoster,
    numbers: Vec<u64>,
}

impl Model for NumberedRoster {
    ghost use Rattle.mtn_roster_deltas.specs.Beside.{AreBeside, NumberedTree, entries_beside};

    ghost Value = { NumberedTree };

    ghost view = { λ r. record { entries = entries_beside r.roster r.numbers.items; roster = r.roster } };

    ghost invariant = { λ r. AreBeside r.roster r.numbers.items };
}

impl NumberedRoster {
    /// The tree that entries spell, with their numbers. It costs a look-up by name for each entry, and keeps none of them.
    pub fn new(
        alloc: Global,
        entries: &Numbered,
        roster: MarkedRoster,
    ) -> Result<NumberedRoster, NoMemory>
        requires { Spells entries.now roster }
        ensures { IfOk result (λ r. r ≡ record { entries = entries.now; roster = roster }) }
    {
        let known = [entries];
        let _fits = roster.roster();
        let numbers = known_numbers(alloc, roster.marks(), known.as_slice())?;
        Ok(NumberedRoster { roster, numbers })
    }

    /// The tree with its marks. It takes no memory.
    pub fn roster(&self) -> &MarkedRoster
        ensures { result.now ≡ self.now.roster }
    {
        &self.roster
    }

    /// The entries, made anew: the look-up of a parent for each node, and one sort of numbers.
    pub fn entries(&self, alloc: Global) -> Result<Numbered, NoMemory>
        ensures { IfOk result (λ es. es ≡ self.now.entries) }
    {
        let _fits = self.roster.roster();
        let _sane = self.roster.roster().len();
        let mut entries = numbered_entries(alloc, &self.roster, &self.numbers)?;
        entries.sort_by(|first, second| first.number.cmp(&second.number))?;
        Ok(Numbered {
            entries: List::from_vec(entries),
        })
    }
}
