// The rosters at hand.
ghost use Rattle.std.specs.Prelude.{◌≡◌, ℕ, IfSome, OnOk};
ghost use Rattle.mtn_check_hands.specs.Hands.{Has};
ghost use Rattle.mtn_check_hands.specs.Reading.{AreOf, AreWith};
ghost use Rattle.mtn_check_records.specs.declared.hand.Hand.{Hand as Held};

use mtn_ancestry::ParentList;
use mtn_base::NoMemory;
use mtn_check_records::Hand;
use mtn_records::LogRecord;
use std::alloc::Global;
use std::collections::{BTreeMap, BTreeSet};

/// The most of the last positions.
const MAX_RECENT: usize = 64;

/// The most nodes of all that is at hand, beside those of the last position.
const MAX_NODES: u64 = 600_000;

/// What is kept of some revisions, by their positions: of the last ones, and of older ones that no child was met of. `childless`
/// has those of the last ones that no child was met of, and `nodes` counts the nodes of all.
#[derive(Drop)]
pub struct Hands {
    pub recent: BTreeMap<u64, Hand>,
    pub heads: BTreeMap<u64, Hand>,
    pub childless: BTreeSet<u64>,
    pub nodes: u64,
}

fn nodes_of(hand: &Hand) -> u64 {
    hand.entries.as_numbered().entries.as_slice().len() as u64
}

impl Hands {
    /// Nothing is at hand. It takes no memory.
    pub fn new(alloc: Global) -> Hands
        ensures { (p : ℕ) (hand : Held) → Has result p hand → ⊥ }
    {
        Hands {
            recent: BTreeMap::new(alloc),
            heads: BTreeMap::new(alloc),
            childless: BTreeSet::new(alloc),
            nodes: 0,
        }
    }

    /// What is kept of the revision at a position, if it is at hand. It takes no memory.
    pub fn get(&self, at: u64) -> Option<&Hand>
        ensures { IfSome result (λ hand. Has self.now at hand.now) }
    {
        match self.recent.get(&at) {
            Some(hand) => Some(hand),
            None => self.heads.get(&at),
        }
    }

    // A child was met of a revision: it is no head.
    fn meet(&mut self, at: u64)
        ensures { AreOf self.old self.new }
    {
        let _ = self.childless.remove(&at);
        if let Some(hand) = self.heads.remove(&at) {
            self.nodes = self.nodes.saturating_sub(nodes_of(&hand));
        }
    }

    fn meet_all(&mut self, parents: ParentList)
        ensures { AreOf self.old self.new }
    {
        match parents {
            ParentList::Zero => {}
            ParentList::One(parent) => self.meet(parent.0),
            ParentList::Two(left, right) => {
                self.meet(left.0);
                self.meet(right.0);
            }
        }
    }

    // The first of the last positions is no longer one. It is a head, or it is let go.
    fn retire(&mut self) -> Result<(), NoMemory>
        ensures { AreOf self.old self.new }
    {
        let Some((at, hand)) = self.recent.pop_first() else {
            return Ok(());
        };
        if self.childless.remove(&at) {
            let _ = self.heads.insert(at, hand)?;
            return Ok(());
        }
        self.nodes = self.nodes.saturating_sub(nodes_of(&hand));
        Ok(())
    }

    // Lets the lowest go, but not the last position.
    fn drop_lowest(&mut self)
        ensures { AreOf self.old self.new }
    {
        if let Some((_, hand)) = self.heads.pop_first() {
            self.nodes = self.nodes.saturating_sub(nodes_of(&hand));
            return;
        }
        if self.recent.len() <= 1 {
            return;
        }
        if let Some((at, hand)) = self.recent.pop_first() {
            let _ = self.childless.remove(&at);
            self.nodes = self.nodes.saturating_sub(nodes_of(&hand));
        }
    }

    fn make_room(&mut self)
        ensures { AreOf self.old self.new }
    {
        for _ in 0..self.heads.len().saturating_add(self.recent.len()) {
            if self.nodes <= MAX_NODES {
                return;
            }
            self.drop_lowest();
        }
    }

    // One more of the last positions.
    fn add(&mut self, at: u64, hand: Hand) -> Result<(), NoMemory>
        ensures { AreWith self.old at hand self.new }
    {
        self.nodes = self.nodes.saturating_add(nodes_of(&hand));
        let _ = self.childless.insert(at)?;
        let _ = self.recent.insert(at, hand)?;
        Ok(())
    }

    /// One position more, with its record of the log. What is too much is let go. It costs a few steps through the maps, and one
    /// for each that is let go.
    pub fn put(&mut self, at: u64, hand: Hand, entry: &LogRecord) -> Result<(), NoMemory>
        ensures { OnOk result (AreWith self.old at hand self.new) }
    {
        self.meet_all(entry.parents);
        self.add(at, hand)?;
        if self.recent.len() > MAX_RECENT {
            self.retire()?;
        }
        self.make_room();
        Ok(())
    }
}
