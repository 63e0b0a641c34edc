// Rosters with the marks of their nodes.
ghost use Rattle.std.specs.Prelude.{◌≡◌, ◌↔◌, IsTrue, IfOk};
ghost use Rattle.mtn_marking.specs.Marking.{AreFor};
ghost use Rattle.mtn_marking.specs.Marking.{known_in};
ghost use Rattle.mtn_marking.specs.Parts.{seen, IsOrderly};

use crate::MarkMap;
use crate::fits::are_for;
use crate::known::ParentNode;
use mtn_base::{NoMemory, NodeName};
use mtn_roster::Roster;
use std::alloc::Global;
use std::marker::Model;

/// A roster with the marks of exactly its nodes and their scalars.
#[derive(Drop)]
pub struct MarkedRoster {
    roster: Roster,
    marks: MarkMap,
}

impl Model for MarkedRoster {
    ghost use Rattle.mtn_marking.specs.Marking.{MarkedTree, AreFor};

    ghost Value = { MarkedTree };

    ghost view = { λ r. record { tree = r.roster; marks = r.marks } };

    ghost invariant = { λ r. AreFor r.roster r.marks };
}

impl MarkedRoster {
    /// Whether marks are those of exactly a roster's nodes and their scalars. It takes no memory.
    pub fn fits(roster: &Roster, marks: &MarkMap) -> bool
        ensures { IsTrue result ↔ AreFor roster.now marks.now }
    {
        are_for(roster, marks)
    }

    /// A roster with its marks, which `fits` tests; those that [`mark_root`](crate::mark_root) and its like give do.
    pub fn new(roster: Roster, marks: MarkMap) -> MarkedRoster
        requires { AreFor roster marks }
        ensures { result ≡ record { tree = roster; marks = marks } }
    {
        MarkedRoster { roster, marks }
    }

    /// The roster. It takes no memory.
    pub fn roster(&self) -> &Roster
        ensures tree { result.now ≡ self.now.tree }
        ensures fits { AreFor self.now.tree self.now.marks }
    {
        &self.roster
    }

    /// The marks. It takes no memory.
    pub fn marks(&self) -> &MarkMap
        ensures { result.now ≡ self.now.marks }
    {
        &self.marks
    }

    /// What the roster and the marks have of a node, which both have at one place. It is looked for at a guess first, and the
    /// next guess is the place behind it: so nodes that are asked for by ascending names are mostly found at once.
    pub fn known(&self, name: &NodeName, guess: &mut usize) -> Option<ParentNode>
        ensures known { seen result ≡ known_in self.now name.now }
        ensures orderly { IsOrderly (seen result) }
    {
        let _sane = self.roster.len();
        match self.marks.place_near(*guess, name) {
            None => None,
            Some(place) => {
                *guess = place.saturating_add(1);
                match self.roster.at_place(place) {
                    None => None,
                    Some(entry) => match self.marks.at_place(place) {
                        None => None,
                        Some(node) => Some(ParentNode {
                            node: entry,
                            marking: &node.marking,
                        }),
                    },
                }
            }
        }
    }

    /// An equal roster with equal marks, which share the sets.
    pub fn copy(&self, alloc: Global) -> Result<MarkedRoster, NoMemory>
        ensures { IfOk result (λ marked. marked ≡ self.now) }
    {
        let roster = self.roster.copy(alloc)?;
        Ok(MarkedRoster {
            roster,
            marks: self.marks.copy(alloc)?,
        })
    }
}
