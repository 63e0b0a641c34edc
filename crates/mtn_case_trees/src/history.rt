// Small histories: revisions, their trees and their marks.
use crate::graph::{both_alone, find, parents_of, push};
use crate::{entries_of, id_of, words_of};
use mtn_ancestry::{Graph, ParentList, Pos, PosSet};
use mtn_marking::{MarkMap, MarkedRoster, mark_one, mark_root, mark_two};
use mtn_roster::Roster;
use std::alloc::Global;

/// The revisions of a case, and at its position in the graph the tree of each, with its marks.
#[derive(Drop)]
pub struct History {
    pub graph: Graph,
    pub trees: Vec<MarkedRoster>,
}

/// The tree that the lines `ID ENTRY` of a case spell.
fn tree_of(alloc: Global, case: &[u8], digit: &[u8]) -> Option<Roster> {
    let mut prefix = digit.to_vec(alloc).ok()?;
    prefix.push(b' ').ok()?;
    let entries = entries_of(alloc, case, &prefix)?;
    Roster::build(alloc, entries).ok()
}

impl History {
    /// The history of the lines of a case.
    pub fn read(alloc: Global, case: &[u8]) -> Option<History> {
        let mut history = History {
            graph: Graph::new(alloc),
            trees: Vec::new(alloc),
        };
        for line in case.split(|byte| *byte == b'\n') {
            if let Some(rest) = line.strip_prefix(b"rev ") {
                history.add_line(alloc, case, rest)?;
            }
        }
        Some(history)
    }

    /// The tree of the revision of a digit, with its marks.
    pub fn tree(&self, digit: &[u8]) -> Option<&MarkedRoster> {
        let at = find(&self.graph, digit)?;
        self.trees.get(at.0 as usize)
    }

    /// The position of the next revision.
    pub fn end(&self) -> Pos {
        Pos(self.trees.len() as u64)
    }

    fn marks_by(
        &self,
        alloc: Global,
        tree: &Roster,
        p: Pos,
        q: Pos,
        sets: &(PosSet, PosSet),
    ) -> Option<MarkMap> {
        let at = self.end();
        let left = self.trees.get(p.0 as usize)?;
        let right = self.trees.get(q.0 as usize)?;
        mark_two(alloc, left, right, tree, at, &sets.0, &sets.1).ok()
    }

    /// The marks of a tree over those of two revisions.
    fn marks_over(&mut self, alloc: Global, tree: &Roster, p: Pos, q: Pos) -> Option<MarkMap> {
        let sets = both_alone(alloc, &mut self.graph, p, q)?;
        self.marks_by(alloc, tree, p, q, &sets)
    }

    fn marks_on(&self, alloc: Global, tree: &Roster, p: Pos) -> Option<MarkMap> {
        let at = self.end();
        mark_one(alloc, self.trees.get(p.0 as usize)?, tree, at).ok()
    }

    /// The marks of a tree over those of its parents.
    fn marks_of(&mut self, alloc: Global, tree: &Roster, parents: ParentList) -> Option<MarkMap> {
        match parents {
            ParentList::Zero => mark_root(alloc, tree, self.end()).ok(),
            ParentList::One(p) => self.marks_on(alloc, tree, p),
            ParentList::Two(p, q) => self.marks_over(alloc, tree, p, q),
        }
    }

    fn marked(&mut self, alloc: Global, tree: Roster, parents: ParentList) -> Option<MarkedRoster> {
        let marks = self.marks_of(alloc, &tree, parents)?;
        if MarkedRoster::fits(&tree, &marks) {
            Some(MarkedRoster::new(tree, marks))
        } else {
            None
        }
    }

    /// Appends a revision with the tree that the case has for it.
    fn add(&mut self, alloc: Global, case: &[u8], digit: &[u8], parents: ParentList) -> Option<()> {
        let tree = self.marked(alloc, tree_of(alloc, case, digit)?, parents)?;
        push(&mut self.graph, id_of(digit)?, parents)?;
        self.trees.push(tree).ok()
    }

    fn add_words(&mut self, alloc: Global, case: &[u8], words: &[&[u8]]) -> Option<()> {
        let (digit, rest) = words.split_first()?;
        let parents = parents_of(&self.graph, rest)?;
        self.add(alloc, case, digit, parents)
    }

    /// Appends the revision of a line.
    fn add_line(&mut self, alloc: Global, case: &[u8], line: &[u8]) -> Option<()> {
        self.add_words(alloc, case, &words_of(alloc, line)?)
    }
}
