// Markings by node names.
ghost use Rattle.std.specs.Prelude.{◌≡◌, ◌≢◌, ◌<◌, [], map, length, slice_get, option_and_then, option_copied, find, Some, IsTrue, IfOk, IfSome, OnOk, OnErr};
ghost use Rattle.mtn_base.specs.Names.{name_cmp, same_name};
ghost use Rattle.mtn_base.specs.declared.name.NodeName.{NodeName};
ghost use Rattle.mtn_base.specs.Lists.{rises};
ghost use Rattle.mtn_marking.specs.declared.node.NodeMarks.{NodeMarks};
ghost use Rattle.mtn_marking.specs.Marking.{marking_of};

use crate::{Marking, NodeMarks};
use mtn_base::{NoMemory, NodeName};
use std::alloc::Global;
use std::marker::Model;

/// Markings by node names. Contracts see the list of the nodes that have one, by ascending names.
#[derive(Drop)]
pub struct MarkMap {
    items: Vec<NodeMarks>,
}

impl Model for MarkMap {
    ghost use Rattle.std.specs.Prelude.{List, IsTrue, map};
    ghost use Rattle.mtn_base.specs.Names.{name_cmp};
    ghost use Rattle.mtn_base.specs.Lists.{rises};
    ghost use Rattle.mtn_marking.specs.declared.node.NodeMarks.{NodeMarks};

    ghost Value = { List NodeMarks };

    ghost view = { λ m. m.items.items };

    ghost invariant = { λ m. IsTrue (rises name_cmp (map (λ (n : NodeMarks). n.name) m.items.items)) };
}

impl MarkMap {
    /// A map without nodes. It takes no memory.
    pub fn new(alloc: Global) -> MarkMap
        ensures { result ≡ [] }
    {
        MarkMap {
            items: Vec::new(alloc),
        }
    }

    /// The map of nodes whose names ascend. It takes no memory.
    pub fn from_rising(items: Vec<NodeMarks>) -> MarkMap
        requires { IsTrue (rises name_cmp (map (λ (n : NodeMarks). n.name) items.items)) }
        ensures { result ≡ items.items }
    {
        MarkMap { items }
    }

    /// Keeps a marking under a name, in place of an earlier one there. A refused one leaves the map as it was.
    pub fn put(&mut self, name: NodeName, marking: Marking) -> Result<(), NoMemory>
        ensures here { OnOk result (marking_of self.new name ≡ Some marking) }
        ensures others { OnOk result ((n : NodeName) → n ≢ name → marking_of self.new n ≡ marking_of self.old n) }
        ensures refused { OnErr result (self.new ≡ self.old) }
    {
        let place = match self.items.binary_search_by(|node| node.name.compare(&name)) {
            Ok(place) => {
                self.items[place].marking = marking;
                return Ok(());
            }
            Err(place) => place,
        };
        self.items.insert(place, NodeMarks { name, marking })?;
        Ok(())
    }

    /// The marking of a node. It takes no memory.
    pub fn get(&self, name: &NodeName) -> Option<&Marking>
        ensures { option_copied result ≡ marking_of self.now name.now }
    {
        let place = self.place(name)?;
        let node = self.items.get(place)?;
        Some(&node.marking)
    }

    /// How many nodes have a marking.
    pub fn len(&self) -> u64
        ensures count { result ≡ length self.now }
        ensures rising { IsTrue (rises name_cmp (map (λ (n : NodeMarks). n.name) self.now)) }
    {
        self.items.len() as u64
    }

    /// The node at a place: they are numbered from 0 by ascending names. It takes no memory.
    pub fn at_place(&self, place: usize) -> Option<&NodeMarks>
        ensures { option_copied result ≡ slice_get self.now place }
    {
        self.items.get(place)
    }

    /// The place of a node. It takes no memory.
    pub fn place(&self, name: &NodeName) -> Option<usize>
        ensures within { IfSome result (λ place. place < length self.now) }
        ensures node { option_and_then (slice_get self.now) result ≡ find (λ (m : NodeMarks). same_name m.name name.now) self.now }
    {
        match self.items.binary_search_by(|node| node.name.compare(name)) {
            Ok(place) => Some(place),
            Err(_) => None,
        }
    }

    /// The place of a node, which is looked for at a guess first, and by halves where it does not stand there. It takes no
    /// memory.
    pub fn place_near(&self, guess: usize, name: &NodeName) -> Option<usize>
        ensures within { IfSome result (λ place. place < length self.now) }
        ensures node { option_and_then (slice_get self.now) result ≡ find (λ (m : NodeMarks). same_name m.name name.now) self.now }
    {
        let Some(node) = self.items.get(guess) else {
            return self.place(name);
        };
        if node.name.same(name) {
            Some(guess)
        } else {
            self.place(name)
        }
    }

    /// An equal map, which shares the sets.
    pub fn copy(&self, alloc: Global) -> Result<MarkMap, NoMemory>
        ensures { IfOk result (λ map. map ≡ self.now) }
    {
        Ok(MarkMap {
            items: copy_nodes(alloc, &self.items)?,
        })
    }
}

fn copy_nodes(alloc: Global, nodes: &[NodeMarks]) -> Result<Vec<NodeMarks>, NoMemory>
    ensures { IfOk result (λ copies. copies.items ≡ nodes.now) }
{
    let mut copies = Vec::with_capacity(alloc, nodes.len())?;
    for node in nodes {
        copies.push(node.copy(alloc)?)?;
    }
    Ok(copies)
}
