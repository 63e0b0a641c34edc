// The whole graph, in memory.
ghost use Rattle.std.specs.Prelude.{◌≡◌, ℕ, ◌↔◌, ◌<◌, ◌≤◌, [], ◌∷◌, ◌++◌, length, All, Contains, IsTrue, IsSome, IfOk, OnErr, IfSome, OnOk, refl};
ghost use Rattle.mtn_ancestry.specs.Ancestors.{IsAncestor, IsProperAncestor};
ghost use Rattle.mtn_ancestry.specs.Log.{list_of, parents_of, id_at, IsLog};
ghost use Rattle.mtn_ancestry.specs.Sets.{IsAscendingListOf};

use crate::flags::{flagged, flags_of, no_flags};
use crate::sweep::{
    common_ancestors, is_reached, no_ancestors, parents_at, proper_ancestors, proper_descendents,
};
use crate::{LogEntry, ParentList, Parents, Pos, PosSet};
use mtn_base::{Id, NoMemory};
use std::alloc::Global;
use std::collections::HashMap;
use std::convert::Infallible;
use std::marker::Model;

/// The graph of revisions, which contracts see as the log: its entries, oldest first.
///
/// Each call below that takes memory walks over the log once, and takes a byte or two for each position;
/// [`Graph::common`] alone walks once for each 64 of the given positions, and takes nine bytes for each of the log.
#[derive(Drop)]
pub struct Graph {
    log: Vec<LogEntry>,
    places: HashMap<[u8; 20], Pos>,
}

impl Model for Graph {
    ghost use Rattle.std.specs.Prelude.{List};
    ghost use Rattle.mtn_ancestry.specs.declared.pos.LogEntry.{LogEntry};
    ghost use Rattle.mtn_ancestry.specs.Log.{IsLog};
    ghost use Rattle.mtn_ancestry.specs.Places.{HasPlaces};

    ghost Value = { List LogEntry };

    ghost view = { λ g. g.log.items };

    ghost invariant = { λ g. HasPlaces g.log.items g.places };
}

impl Graph {
    /// The graph without revisions. It takes no memory.
    pub fn new(alloc: Global) -> Graph
        ensures { result ≡ [] }
    {
        Graph {
            log: Vec::new(alloc),
            places: HashMap::new(alloc),
        }
    }

    /// Appends a revision, and gives its position. A refused push leaves the graph as it was.
    pub fn push(&mut self, id: Id, parents: ParentList) -> Result<Pos, NoMemory>
        requires fresh { (r : ℕ) → ¬ (id_at self.old r ≡ Some id) }
        requires known { (p : ℕ) → Contains (list_of parents) p → p < length self.old }
        ensures at { IfOk result (λ at. at ≡ length self.old) }
        ensures ok { OnOk result (self.new ≡ self.old ++ record { id = id; parents = parents } ∷ []) }
        ensures err { OnErr result (self.new ≡ self.old) }
    {
        let at = Pos(self.log.len() as u64);
        self.log.reserve(1)?;
        self.places.insert(id.0, at)?;
        let _ = self.log.push(LogEntry { id, parents });
        Ok(at)
    }

    /// The number of revisions. It takes no memory.
    pub fn len(&self) -> u64
        ensures count { result ≡ length self.now }
        ensures log { IsLog self.now }
    {
        self.log.len() as u64
    }

    /// The position of a revision; None exactly where the log does not have it. It takes no memory.
    pub fn find(&self, id: Id) -> Option<Pos>
        ensures found { IfSome result (λ at. id_at self.now at ≡ Some id) }
        ensures all { (at : ℕ) → id_at self.now at ≡ Some id → result ≡ Some at }
    {
        self.places.get(&id.0).copied()
    }

    /// The id of the revision at a position; None exactly where that is not below `len`. It takes no memory.
    pub fn id(&self, at: Pos) -> Option<Id>
        ensures { result ≡ id_at self.now at }
    {
        self.log.get(at.0 as usize).map(|entry| entry.id)
    }

    /// The log, oldest first. It takes no memory.
    pub fn entries(&self) -> &[LogEntry]
        ensures value { result.now ≡ self.now }
        ensures log { IsLog result.now }
    {
        &self.log
    }

    /// Whether `older` is `newer` or an ancestor of it. It looks only at the positions between the two.
    pub fn is_ancestor(&self, alloc: Global, older: Pos, newer: Pos) -> Result<bool, NoMemory>
        requires older { older < length self.now }
        requires newer { newer < length self.now }
        ensures { IfOk result (λ b. IsTrue b ↔ IsAncestor (parents_of self.now) older newer) }
    {
        let log = self.entries();
        if newer < older {
            return Ok(false);
        }
        let mut flags = no_flags(alloc, newer.0 as usize + 1)?;
        Ok(is_reached(log, &mut flags, older, newer))
    }

    /// The proper ancestors of at least one of these.
    pub fn ancestors(&self, alloc: Global, of: &[Pos]) -> Result<PosSet, NoMemory>
        requires { All (λ r. r < length self.now) of.now }
        ensures { IfOk result (IsAscendingListOf (λ x. (r : ℕ) × Contains of.now r
            × IsProperAncestor (parents_of self.now) x r)) }
    {
        let flags = proper_ancestors(alloc, self.entries(), of)?;
        PosSet::new(alloc, flagged(alloc, &flags)?)
    }

    /// The proper descendents of at least one of these.
    pub fn descendents(&self, alloc: Global, of: &[Pos]) -> Result<PosSet, NoMemory>
        requires { All (λ r. r < length self.now) of.now }
        ensures { IfOk result (IsAscendingListOf (λ x. (r : ℕ) × Contains of.now r
            × IsProperAncestor (parents_of self.now) r x)) }
    {
        let flags = proper_descendents(alloc, self.entries(), of)?;
        PosSet::new(alloc, flagged(alloc, &flags)?)
    }

    /// The ancestors of every one of these, of which there must be one.
    pub fn common(&self, alloc: Global, of: &[Pos]) -> Result<PosSet, NoMemory>
        requires within { All (λ r. r < length self.now) of.now }
        requires some { 0 < length of.now }
        ensures { IfOk result (IsAscendingListOf (λ x. (r : ℕ) → Contains of.now r
            → IsAncestor (parents_of self.now) x r)) }
    {
        let flags = common_ancestors(alloc, self.entries(), of)?;
        PosSet::new(alloc, flagged(alloc, &flags)?)
    }

    /// Those of these that are proper ancestors of no other.
    pub fn erase_ancestors(&self, alloc: Global, of: &[Pos]) -> Result<PosSet, NoMemory>
        requires { All (λ r. r < length self.now) of.now }
        ensures { IfOk result (IsAscendingListOf (λ x. Contains of.now x
            × ((r : ℕ) → Contains of.now r → ¬ IsProperAncestor (parents_of self.now) x r))) }
    {
        let flags = no_ancestors(alloc, self.entries(), of)?;
        PosSet::new(alloc, flagged(alloc, &flags)?)
    }

    /// These in log order, each once.
    pub fn toposort(&self, alloc: Global, of: &[Pos]) -> Result<Vec<Pos>, NoMemory>
        requires { All (λ r. r < length self.now) of.now }
        ensures { IfOk result (λ v. IsAscendingListOf (Contains of.now) v.items) }
    {
        let flags = flags_of(alloc, self.entries().len(), of)?;
        flagged(alloc, &flags)
    }
}

impl Parents for Graph {
    type Error = Infallible;

    ghost use Rattle.std.specs.Prelude.{⊤};
    ghost use Rattle.mtn_ancestry.specs.Log.{IsToldBy};

    ghost tells = { IsToldBy };

    ghost asked = { λ _. 0 };

    ghost stays = { λ s t. t ≡ s };

    ghost caused = { λ _ _ _. ⊤ };

    fn parents(&mut self, at: Pos) -> Result<ParentList, Infallible> {
        Ok(parents_at(self.entries(), at))
    }

    ghost earlier = { λ s n g t. t.earlier };

    ghost stays_itself = { λ _. refl };

    ghost stays_on = { λ s t u p q. Prim.cc };

    ghost caused_before = { λ s t u e p c. c };
}
