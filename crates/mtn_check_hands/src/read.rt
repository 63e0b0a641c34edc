// One position, read.
ghost use Rattle.std.specs.Prelude.{◌≡◌, Err, IfErr, IfOk, IfSome};
ghost use Rattle.mtn_ports.specs.Causes.{Rose};
ghost use Rattle.mtn_ports.specs.Kept.{Stays};
ghost use Rattle.mtn_history.specs.Errors.{IfDamage};
ghost use Rattle.mtn_check_hands.specs.Hands.{IsHandRead};
ghost use Rattle.mtn_check_hands.specs.Putting.{IsReadOf, read_of};
ghost use Rattle.mtn_check_hands.specs.Reading.{IsNextAt, IsReadWith};

use crate::Hands;
use crate::kin::{Kin, kin_at};
use crate::records::{Records, logged_at, records_at};
use crate::stored::{Stored, stored_in};
use mtn_ancestry::Pos;
use mtn_base::NoMemory;
use mtn_check_pieces::{CheckJob, SharedEntries};
use mtn_check_records::{Hand, Position};
use mtn_history::StoreError;
use mtn_ports::Keeper;
use std::alloc::Global;

/// A position, the job of its roster, and what is kept of its revision then.
#[derive(Drop)]
pub struct Read {
    pub position: Position,
    pub job: CheckJob,
    pub hand: Hand,
}

// The least number that no node has below a position, if the record of the log before it tells one.
fn next_at<K: Keeper>(
    alloc: Global,
    keeper: &mut K,
    hands: &Hands,
    at: u64,
) -> Result<Option<u64>, StoreError>
    ensures stays { Stays K.contents K.leaves K.faults keeper.old keeper.new }
    ensures found { IfSome (K.contents keeper.new) (λ c. IfOk result (λ o. IfSome o (IsNextAt c at hands.now))) }
    ensures sound { IfErr result (λ e. IfDamage e (λ _. ⊥)) }
    ensures failed { result ≡ Err StoreError.Failed → Rose (K.faults keeper.old) (K.faults keeper.new) }
{
    if at == 0 {
        return Ok(Some(1));
    }
    if let Some(hand) = hands.get(at - 1) {
        return Ok(Some(hand.next));
    }
    match logged_at(alloc, keeper, at - 1)? {
        Some(entry) => Ok(Some(entry.next_node)),
        None => Ok(None),
    }
}

// What was read, put together.
fn put_together(
    alloc: Global,
    at: u64,
    records: Records,
    next: u64,
    kin: Kin,
    stored: Stored,
) -> Result<Read, NoMemory>
    ensures { IfOk result (λ read. read ≡ read_of at records next kin stored) }
{
    let entries = SharedEntries::new(alloc, stored.entries)?;
    let whole = entries.whole()?;
    let hand = Hand {
        id: records.entry.id,
        next: records.entry.next_node,
        depth: stored.depth,
        entries,
    };
    let job = CheckJob {
        text: records.text,
        at: Pos(at),
        id: records.entry.id,
        parents: kin.records,
        stored: whole,
        only_left: kin.only_left,
        only_right: kin.only_right,
    };
    let position = Position {
        entry: records.entry,
        log: records.log,
        roster: records.roster,
        depth: stored.depth,
        next,
        parents: kin.parents,
        held: records.mentions.held,
    };
    Ok(Read {
        position,
        job,
        hand,
    })
}

// What was read of a position, with the roster that its record gives over its parents', if it gives one.
fn with_roster(
    alloc: Global,
    at: u64,
    records: Records,
    next: u64,
    kin: Kin,
) -> Result<Option<Read>, NoMemory>
    ensures { IfOk result (λ o. IfSome o (IsReadOf at records next kin)) }
{
    match stored_in(alloc, at, &records, &kin)? {
        Some(stored) => Ok(Some(put_together(alloc, at, records, next, kin, stored)?)),
        None => Ok(None),
    }
}

/// A position with what is at hand, where no record that is asked for is missing or bad.
pub fn read_at<K: Keeper>(
    alloc: Global,
    keeper: &mut K,
    hands: &Hands,
    at: u64,
) -> Result<Option<Read>, StoreError>
    ensures stays { Stays K.contents K.leaves K.faults keeper.old keeper.new }
    ensures found { IfSome (K.contents keeper.new) (λ c. IfOk result (λ o. IfSome o (IsReadWith c at hands.now))) }
    ensures hand { IfOk result (λ o. IfSome o (λ read. IsHandRead read.position read.job read.hand)) }
    ensures sound { IfErr result (λ e. IfDamage e (λ _. ⊥)) }
    ensures failed { result ≡ Err StoreError.Failed → Rose (K.faults keeper.old) (K.faults keeper.new) }
{
    let Some(next) = next_at(alloc, keeper, hands, at)? else {
        return Ok(None);
    };
    let Some(records) = records_at(alloc, keeper, at)? else {
        return Ok(None);
    };
    let Some(kin) = kin_at(alloc, keeper, hands, at, &records)? else {
        return Ok(None);
    };
    Ok(with_roster(alloc, at, records, next, kin)?)
}
