// What a draft remembers of the records that it stands on.
ghost use Rattle.std.specs.Prelude.{◌≡◌, ◌<◌, ◌⊎◌, ◌↔◌, ℕ, List, [], Some, None, All, Contains, IfOk, IfSome, IsTrue};
ghost use Rattle.std.specs.BTreeMap.{get};
ghost use Rattle.std.specs.Ordering.{nat_cmp};
ghost use Rattle.mtn_ancestry.specs.Log.{list_of};
ghost use Rattle.mtn_records.specs.Bounds.{IsLogWithin};
ghost use Rattle.mtn_history.specs.Cache.{IsAmong, IsAdded, IsNoted};
ghost use Rattle.mtn_history.specs.declared.cache.Recalled.{Recalled as Remembered};

use crate::Rebuilt;
use mtn_ancestry::{ParentList, Pos};
use mtn_base::NoMemory;
use mtn_records::LogRecord;
use std::alloc::Global;
use std::collections::BTreeMap;
use std::rc::Rc;

/// The most rosters that are remembered.
const MAX_ROSTERS: usize = 4;

/// The most nodes of those beside the newest: as many as one tree may have.
const MAX_OTHER_NODES: u64 = 100_000;

/// The roster of the revision at a position.
#[derive(Drop)]
pub struct Recalled {
    pub at: Pos,
    pub rebuilt: Rc<Rebuilt>,
}

/// What a draft remembers: the rosters of the revisions that it read or accepted last, the newest at the end, and the
/// records of the log that a walk asked for.
#[derive(Drop)]
pub struct Cache {
    pub rosters: Vec<Recalled>,
    pub log: BTreeMap<Pos, LogRecord>,
}

impl Cache {
    /// Nothing is remembered.
    pub fn new(alloc: Global) -> Cache
        ensures rosters { result.rosters.items ≡ [] }
        ensures log { (at : ℕ) → get nat_cmp result.log at ≡ None }
    {
        Cache {
            rosters: Vec::new(alloc),
            log: BTreeMap::new(alloc),
        }
    }

    /// The roster of the revision at a position, if it is remembered: another reference to it.
    pub fn roster(&self, at: Pos) -> Result<Option<Rc<Rebuilt>>, NoMemory>
        ensures { IfOk result (λ found. IfSome found (λ r. IsAmong self.now.rosters.items at r.value)) }
    {
        for recalled in &self.rosters {
            if recalled.at == at {
                return Ok(Some(Rc::clone(&recalled.rebuilt)?));
            }
        }
        Ok(None)
    }

    /// Remembers a roster. The oldest are forgotten, so that at most four are remembered, and beside the new one those of at
    /// most 100,000 nodes. Where memory is wanting it is not remembered.
    pub fn add_roster(&mut self, at: Pos, rebuilt: Rc<Rebuilt>)
        ensures rosters { IsAdded self.old.rosters.items self.new.rosters.items (record { at = at; rebuilt = rebuilt }) }
        ensures log { self.new.log ≡ self.old.log }
    {
        make_room(&mut self.rosters);
        let _ = self.rosters.push(Recalled { at, rebuilt });
    }

    /// The log's record at a position, if it is remembered.
    pub fn log(&self, at: Pos) -> Option<LogRecord>
        ensures noted { IfSome result (λ l. get nat_cmp self.now.log at ≡ Some l) }
        ensures within { IfSome result (IsLogWithin at) }
    {
        let log = self.log.get(&at)?;
        if !are_below(log.parents, at) {
            return None;
        }
        Some(LogRecord {
            id: log.id,
            next_node: log.next_node,
            parents: log.parents,
        })
    }

    /// Remembers a record of the log. Where memory is wanting it is not remembered.
    pub fn add_log(&mut self, at: Pos, log: &LogRecord)
        ensures rosters { self.new.rosters ≡ self.old.rosters }
        ensures log { IsNoted self.old.log self.new.log at log.now }
    {
        let _ = self.log.insert(
            at,
            LogRecord {
                id: log.id,
                next_node: log.next_node,
                parents: log.parents,
            },
        );
    }
}

// Whether each parent stands below a position.
fn are_below(parents: ParentList, at: Pos) -> bool
    ensures { IsTrue result ↔ All (λ p. p < at) (list_of parents) }
{
    match parents {
        ParentList::Zero => true,
        ParentList::One(parent) => parent < at,
        ParentList::Two(first, second) => first < at && second < at,
    }
}

// How many nodes the rosters have.
fn nodes_of(rosters: &[Recalled]) -> u64 {
    let mut nodes = 0u64;
    for recalled in rosters {
        nodes = nodes.saturating_add(recalled.rebuilt.roster().roster().len());
    }
    nodes
}

// Whether there is room for one more.
fn has_room(rosters: &[Recalled]) -> bool {
    rosters.len() < MAX_ROSTERS && nodes_of(rosters) <= MAX_OTHER_NODES
}

fn forget_oldest(rosters: &mut Vec<Recalled>)
    ensures { (x : Remembered) → Contains rosters.new.items x → Contains rosters.old.items x }
{
    if !rosters.is_empty() {
        let _ = rosters.remove(0);
    }
}

// Forgets the oldest, until there is room for one more.
fn make_room(rosters: &mut Vec<Recalled>)
    ensures { (x : Remembered) → Contains rosters.new.items x → Contains rosters.old.items x }
{
    for _ in 0..rosters.len() {
        if has_room(rosters) {
            return;
        }
        forget_oldest(rosters);
    }
}
