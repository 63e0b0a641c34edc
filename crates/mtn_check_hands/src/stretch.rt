// Positions one behind the other, read ahead.
ghost use Rattle.std.specs.Prelude.{◌≡◌, ◌≤◌, ◌+◌, ◌++◌, ◌∷◌, [], length, Err, IfErr, IfOk, IfSome, OnOk};
ghost use Rattle.mtn_ports.specs.Causes.{Rose};
ghost use Rattle.mtn_ports.specs.Kept.{Stays};
ghost use Rattle.mtn_history.specs.Errors.{IfDamage};
ghost use Rattle.mtn_check_hands.specs.Hands.{AreRead, IsHandRead, NoneFrom};
ghost use Rattle.mtn_check_hands.specs.Reading.{AreWith, IsReadWith};

use crate::hands::Hands;
use crate::read::{Read, read_at};
use mtn_base::NoMemory;
use mtn_check_pieces::{CheckJob, SharedRecord};
use mtn_check_records::Position;
use mtn_history::StoreError;
use mtn_ports::Keeper;
use mtn_records::RosterRecord;
use std::alloc::Global;

/// The most nodes of a stretch with more than one position: of the stored rosters and their parents'.
const MAX_NODES: u64 = 300_000;

/// Positions one behind the other, and the job of each.
#[derive(Drop)]
pub struct Stretch {
    pub positions: Vec<Position>,
    pub jobs: Vec<CheckJob>,
}

// How many nodes there are already, and how many the last position had.
#[derive(Clone, Copy)]
struct Taken {
    positions: u64,
    nodes: u64,
    last: u64,
}

impl Taken {
    // Whether there is room for so many nodes more. There is for any before the first position.
    fn has_room(&self, more: u64) -> bool {
        self.positions == 0 || self.nodes.saturating_add(more) <= MAX_NODES
    }

    fn with(&self, more: u64) -> Taken {
        Taken {
            positions: self.positions.saturating_add(1),
            nodes: self.nodes.saturating_add(more),
            last: more,
        }
    }
}

fn nodes_in(record: &SharedRecord) -> u64 {
    match record.as_record() {
        RosterRecord::Whole(entries) => entries.entries.as_slice().len() as u64,
        RosterRecord::Delta { .. } => 0,
    }
}

// How many nodes the rosters of a job have together.
fn nodes_of(job: &CheckJob) -> u64 {
    let mut nodes = nodes_in(&job.stored);
    for parent in job.parents.as_slice() {
        nodes = nodes.saturating_add(nodes_in(parent));
    }
    nodes
}

// The next position, where there is room for it. As one has about as many nodes as the one before it, none is read in vain that
// is much too large.
fn read_more<K: Keeper>(
    alloc: Global,
    keeper: &mut K,
    hands: &Hands,
    at: u64,
    taken: Taken,
) -> Result<Option<Read>, StoreError>
    ensures stays { Stays K.contents K.leaves K.faults keeper.old keeper.new }
    ensures found { IfSome (K.contents keeper.new) (λ c. IfOk result (λ o. IfSome o (IsReadWith c at hands.now))) }
    ensures hand { IfOk result (λ o. IfSome o (λ read. IsHandRead read.position read.job read.hand)) }
    ensures sound { IfErr result (λ e. IfDamage e (λ _. ⊥)) }
    ensures failed { result ≡ Err StoreError.Failed → Rose (K.faults keeper.old) (K.faults keeper.new) }
{
    if !taken.has_room(taken.last) {
        return Ok(None);
    }
    let Some(read) = read_at(alloc, keeper, hands, at)? else {
        return Ok(None);
    };
    if !taken.has_room(nodes_of(&read.job)) {
        return Ok(None);
    }
    Ok(Some(read))
}

// One position more.
fn add(stretch: &mut Stretch, hands: &mut Hands, at: u64, read: Read) -> Result<(), NoMemory>
    ensures positions { OnOk result (stretch.new.positions.items ≡ stretch.old.positions.items ++ read.position ∷ []) }
    ensures jobs { OnOk result (stretch.new.jobs.items ≡ stretch.old.jobs.items ++ read.job ∷ []) }
    ensures hands { OnOk result (AreWith hands.old at read.hand hands.new) }
{
    let Read {
        position,
        job,
        hand,
    } = read;
    hands.put(at, hand, &position.entry)?;
    stretch.positions.push(position)?;
    stretch.jobs.push(job)?;
    Ok(())
}

/// The positions from one on, read with what is at hand of those below, which then has them too: at most so many, below `count`, and
/// of rosters with at most 300,000 nodes together where they are more than one. It ends before a position at which a record is
/// missing or bad, or a content that the text brings is not held; so there may be none. `Failed` where the keeper failed and
/// `NoMemory` where memory was wanting, and no other error: then some may be at hand that were read.
pub fn load_stretch<K: Keeper>(
    alloc: Global,
    keeper: &mut K,
    hands: &mut Hands,
    from: u64,
    count: u64,
    most: u64,
) -> Result<Stretch, StoreError>
    requires none { NoneFrom from hands.old }
    ensures stays { Stays K.contents K.leaves K.faults keeper.old keeper.new }
    ensures long { IfOk result (λ stretch. length stretch.positions.items ≡ length stretch.jobs.items) }
    ensures within { from ≤ count → IfOk result (λ stretch. from + length stretch.jobs.items ≤ count) }
    ensures few { IfOk result (λ stretch. length stretch.jobs.items ≤ most) }
    ensures none { IfOk result (λ stretch. NoneFrom (from + length stretch.jobs.items) hands.new) }
    ensures read { IfSome (K.contents keeper.new) (λ c. IfOk result (λ stretch. AreRead c from hands.old stretch.positions.items stretch.jobs.items hands.new)) }
    ensures sound { IfErr result (λ e. IfDamage e (λ _. ⊥)) }
    ensures failed { result ≡ Err StoreError.Failed → Rose (K.faults keeper.old) (K.faults keeper.new) }
{
    let mut stretch = Stretch {
        positions: Vec::new(alloc),
        jobs: Vec::new(alloc),
    };
    let mut taken = Taken {
        positions: 0,
        nodes: 0,
        last: 0,
    };
    for at in from..count.min(from.saturating_add(most)) {
        let Some(read) = read_more(alloc, keeper, hands, at, taken)? else {
            return Ok(stretch);
        };
        taken = taken.with(nodes_of(&read.job));
        add(&mut stretch, hands, at, read)?;
    }
    Ok(stretch)
}
