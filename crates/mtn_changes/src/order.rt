// Changes of one edge, read one behind the other.
ghost use Rattle.std.specs.Prelude.{◌≡◌, ◌∷◌, [], ◌++◌, true, not, IfErr, IfOk, OnOk};
ghost use Rattle.std.specs.BTreeSet.{contains, Updates};
ghost use Rattle.mtn_changes.specs.Lists.{IsFault, IsNextChange, IsPart, StandsBehind};
ghost use Rattle.mtn_changes.specs.Changes.{IsChange, rank as rank_of_change};
ghost use Rattle.mtn_changes.specs.Targets.{target_cmp, target_of as target_for};
ghost use Rattle.mtn_changes.specs.Stanzas.{stanza_of as spelled};

use crate::change::Change;
use crate::head::head_of;
use crate::stanzas::change_of;
use crate::target::{Target, target_of};
use mtn_base::{List, NoMemory};
use mtn_basic_io::Stanza;
use std::alloc::Global;
use std::collections::BTreeSet;

/// Why a stanza may not stand behind changes.
#[derive(Clone, Copy, PartialEq, Eq)]
pub enum Fault {
    BadStanza,
    BadOrder,
    Repeated,
    BadEdge,
    NoMemory,
}

impl From<NoMemory> for Fault {
    ghost use Rattle.mtn_changes.specs.declared.order.Fault.TheVariants.{NoMemory};

    ghost from_gives = { λ _ e. e ≡ NoMemory };

    fn from(_: NoMemory) -> Self {
        Fault::NoMemory
    }
}

/// The changes that were read, and what they change.
#[derive(Drop)]
pub struct Part {
    pub changes: List<Change>,
    pub targets: BTreeSet<Target>,
    /// The rank of the last, 0 before the first.
    pub last: u8,
}

/// The place of its kind in an edge.
pub fn rank(change: &Change) -> u8
    ensures { result ≡ rank_of_change change.now }
{
    match change {
        Change::Delete { path: _ } => 1,
        Change::Rename { path: _, to: _ } => 2,
        Change::AddDir { path: _ } => 3,
        Change::AddFile {
            path: _,
            content: _,
        } => 4,
        Change::Patch {
            path: _,
            from: _,
            to: _,
        } => 5,
        Change::Clear { path: _, key: _ } => 6,
        Change::Set {
            path: _,
            key: _,
            value: _,
        } => 7,
    }
}

/// Takes what a change changes; true where no earlier change did.
fn take_target(
    alloc: Global,
    targets: &mut BTreeSet<Target>,
    change: &Change,
) -> Result<bool, NoMemory>
    ensures fresh { IfOk result (λ fresh. fresh ≡ not (contains target_cmp targets.old (target_for change.now))) }
    ensures taken { OnOk result (Updates target_cmp targets.old targets.new (target_for change.now) true) }
{
    let target = target_of(alloc, change)?;
    let Ok(fresh) = targets.insert(target) else {
        return Err(NoMemory);
    };
    Ok(fresh)
}

impl Part {
    pub fn new(alloc: Global) -> Part
        ensures { IsPart [] result.changes result.targets result.last }
    {
        Part {
            changes: List::new(alloc),
            targets: BTreeSet::new(alloc),
            last: 0,
        }
    }

    pub fn into_changes(self) -> List<Change>
        ensures { result ≡ self.changes }
    {
        let Part {
            changes,
            targets: _,
            last: _,
        } = self;
        changes
    }

    /// Puts a change behind the others.
    fn put(&mut self, alloc: Global, change: Change) -> Result<(), Fault>
        requires part { IsPart self.old.changes self.old.changes self.old.targets self.old.last }
        requires lawful { IsChange change }
        ensures ok { OnOk result (IsPart (self.old.changes ++ change ∷ []) self.new.changes self.new.targets self.new.last) }
        ensures stands { OnOk result (StandsBehind self.old.changes change) }
        ensures err { IfErr result (λ e. IsFault self.old.changes (spelled change) e) }
    {
        let rank = rank(&change);
        if rank < self.last {
            return Err(Fault::BadOrder);
        }
        let fresh = take_target(alloc, &mut self.targets, &change)?;
        if !fresh {
            return Err(Fault::Repeated);
        }
        self.changes.push(change)?;
        self.last = rank;
        Ok(())
    }

    /// Reads a stanza behind the others.
    pub fn add(&mut self, alloc: Global, stanza: &Stanza) -> Result<(), Fault>
        requires { IsPart self.old.changes self.old.changes self.old.targets self.old.last }
        ensures ok { OnOk result (IsNextChange self.old.changes stanza.now self.new.changes) }
        ensures part { OnOk result (IsPart self.new.changes self.new.changes self.new.targets self.new.last) }
        ensures err { IfErr result (λ e. IsFault self.old.changes stanza.now e) }
    {
        let Some(change) = change_of(alloc, stanza)? else {
            return Err(match head_of(stanza) {
                Some(_) => Fault::BadOrder,
                None => Fault::BadStanza,
            });
        };
        self.put(alloc, change)
    }
}
