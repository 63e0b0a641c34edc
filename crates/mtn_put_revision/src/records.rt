// The records of a new revision.
ghost use Rattle.std.specs.Prelude.{◌≡◌, ◌<◌, ◌≤◌, All, List, ℕ, length, Ok, None, Err, IfOk, IfErr, IfSome, IsTrue, ◌+◌};
ghost use Rattle.mtn_ancestry.specs.Log.{list_of};
ghost use Rattle.mtn_base.specs.declared.limits.TheConstants.{LAST_NUMBER};
ghost use Rattle.mtn_roster_deltas.specs.Chain.{ascend};
ghost use Rattle.mtn_roster_deltas.specs.Numbering.{shown};
ghost use Rattle.mtn_model.specs.State.{State};
ghost use Rattle.mtn_ports.specs.Causes.{Rose};
ghost use Rattle.mtn_ports.specs.Kept.{Stays, with_all};
ghost use Rattle.mtn_records.specs.Bounds.{IsLogAt, IsRosterAt, IsWithin};
ghost use Rattle.mtn_records.specs.Records.{IsRosterRecord};
ghost use Rattle.mtn_records.specs.declared.record.RosterRecord.TheVariants.{Whole};
ghost use Rattle.mtn_history.specs.Errors.{IfDamage};
ghost use Rattle.mtn_history.specs.Revisions.{next_of};
ghost use Rattle.mtn_history.specs.Stands.{IsFounded};
ghost use Rattle.mtn_put_revision.specs.Finding.{IsFound};
ghost use Rattle.mtn_put_revision.specs.Keeping.{IsDeltaBody, IsLogBodyOf, IsWhole, IsWrittenOn};
ghost use Rattle.mtn_put_revision.specs.Writing.{AllAscend, IsTyped, NoneHas};

use crate::typed::typed_record;
use mtn_ancestry::{ParentList, Pos};
use mtn_base::{Bytes, Id, LAST_NUMBER, List as Items, NoMemory};
use mtn_history::{Draft, StoreError};
use mtn_ports::Keeper;
use mtn_records::{LogRecord, Numbered, RosterRecord, is_record_at, write_log, write_roster};
use mtn_roster_deltas::{DEEPEST, delta};
use std::alloc::Global;

/// The parents of a new revision: their positions in the order of the edges, the entries of each, and how deep the record of
/// the first stands.
#[derive(Clone, Copy)]
pub struct KeptParents<'a> {
    pub places: &'a [Pos],
    pub entries: &'a [&'a Numbered],
    pub depth: u8,
}

/// The least number that no node has yet, by the last record of the log, which the draft remembers where it put it.
pub fn next_number<K: Keeper>(draft: &mut Draft<'_, K>) -> Result<u64, StoreError>
    ensures same_reference { draft.new.keeper.ghost_name ≡ draft.old.keeper.ghost_name }
    ensures stays { Stays K.contents K.leaves K.faults draft.old.keeper.now draft.new.keeper.now }
    ensures pending { draft.new.pending ≡ draft.old.pending }
    ensures room { IfOk result (λ n. n ≤ LAST_NUMBER) }
    ensures first { draft.old.pending.count ≡ 0 → IfOk result (λ n. n ≡ 1) }
    ensures next { (f : List ℕ → List ℕ) (s : State) → (d : IsFounded f (K.contents draft.new.keeper.now) draft.old.pending s) →
        IfOk result (λ n. n ≡ next_of d.stands.kept) }
    ensures reads { (f : List ℕ → List ℕ) (s : State) → IsFounded f (K.contents draft.new.keeper.now) draft.old.pending s → K.reads draft.new.keeper.now ≤ K.reads draft.old.keeper.now + 1 }
    ensures damaged { IfSome (K.contents draft.new.keeper.now) (λ c. IfErr result (λ e. IfDamage e
        (IsFound (K.contents draft.new.keeper.now) draft.old.pending (with_all c draft.old.pending.batch)))) }
    ensures failed { result ≡ Err StoreError.Failed → Rose (K.faults draft.old.keeper.now) (K.faults draft.new.keeper.now) }
{
    let count = draft.count();
    if count == 0 {
        return Ok(1);
    }
    let at = Pos(count - 1);
    let log = draft.log_at(at)?;
    if log.next_node > LAST_NUMBER {
        return Err(draft.log_held(at));
    }
    Ok(log.next_node)
}

/// The body of a roster's record, with the entries that it tells and how many deltas it stands above a whole one.
#[derive(Drop)]
pub struct Written {
    pub body: Bytes,
    pub entries: Numbered,
    pub depth: u8,
}

// The body of a roster's record under its position, where it can be written.
fn record_body(alloc: Global, roster: &RosterRecord, at: Pos) -> Result<Option<Bytes>, NoMemory>
    ensures body { IfOk result (λ o. IfSome o (λ body. IsRosterAt at body roster.now)) }
    ensures none { result ≡ Ok None → IsTyped roster.now × ((IsRosterRecord roster.now × IsWithin at roster.now) → ⊥) }
{
    if !is_record_at(roster, at) {
        typed_record(roster);
        return Ok(None);
    }
    let mut body = Vec::new(alloc);
    write_roster(roster, &mut body)?;
    Ok(Some(Items::from_vec(body)))
}

// The entries of a whole record.
fn into_entries(roster: RosterRecord) -> Numbered
    requires { IsWhole roster }
    ensures { roster ≡ Whole result }
{
    match roster {
        RosterRecord::Whole(entries) => entries,
        RosterRecord::Delta { .. } => unreachable!(),
    }
}

// The record has all entries.
fn whole(alloc: Global, entries: Numbered, at: Pos) -> Result<Option<Written>, NoMemory>
    ensures record { IfOk result (λ o. IfSome o (λ w. IsRosterAt at w.body (Whole entries) × (w.entries ≡ entries) × (w.depth ≡ 0))) }
    ensures none { result ≡ Ok None → NoneHas at entries }
{
    let record = RosterRecord::Whole(entries);
    let Some(body) = record_body(alloc, &record, at)? else {
        return Ok(None);
    };
    Ok(Some(Written {
        body,
        entries: into_entries(record),
        depth: 0,
    }))
}

// The record has what differs from the entries of another.
fn differing(
    alloc: Global,
    below: &Numbered,
    base: Pos,
    depth: u8,
    entries: Numbered,
    at: Pos,
) -> Result<Option<Written>, NoMemory>
    ensures record { IfOk result (λ o. IfSome o (λ w. IsDeltaBody below.now base depth entries at w.body × (w.entries ≡ entries) × (w.depth ≡ depth))) }
    ensures none { result ≡ Ok None → base < at → IsTrue (ascend below.now) → NoneHas at entries }
{
    let record = delta(alloc, below, base, depth, &entries)?;
    let Some(body) = record_body(alloc, &record, at)? else {
        return Ok(None);
    };
    Ok(Some(Written {
        body,
        entries,
        depth,
    }))
}

/// The record of a roster: what differs from the first parent's, or whole where there is none or a chain would get too deep.
/// There is none where it cannot be written, as it can of each tree that a history may have next.
pub fn write_record(
    alloc: Global,
    known: &KeptParents<'_>,
    entries: Numbered,
    at: Pos,
) -> Result<Option<Written>, NoMemory>
    ensures record { IfOk result (λ o. IfSome o (IsWrittenOn known.now.places.now (shown known.now.entries.now) known.now.depth entries at)) }
    ensures none { result ≡ Ok None → All (λ p. p < at) known.now.places.now → AllAscend (shown known.now.entries.now) → NoneHas at entries }
{
    match (known.places, known.entries) {
        ([base, ..], [below, ..]) => {
            if known.depth < DEEPEST {
                differing(alloc, below, *base, known.depth + 1, entries, at)
            } else {
                whole(alloc, entries, at)
            }
        }
        _ => whole(alloc, entries, at),
    }
}

// The parents of a record of the log.
fn parent_list(places: &[Pos]) -> ParentList
    requires { length places.now ≤ 2 }
    ensures { list_of result ≡ places.now }
{
    match places {
        [] => ParentList::Zero,
        [one] => ParentList::One(*one),
        [first, second] => ParentList::Two(*first, *second),
        _ => unreachable!(),
    }
}

/// The record of the log of a revision with these parents, and its body under its position.
pub fn log_body(
    alloc: Global,
    id: Id,
    next_node: u64,
    places: &[Pos],
    at: Pos,
) -> Result<(LogRecord, Bytes), NoMemory>
    requires few { length places.now ≤ 2 }
    requires below { All (λ p. p < at) places.now }
    ensures body { IfOk result (λ r. IsLogBodyOf id next_node places.now at r.1) }
    ensures record_of { IfOk result (λ r. IsLogAt at r.1 r.0) }
{
    let log = LogRecord {
        id,
        next_node,
        parents: parent_list(places),
    };
    let _twenty = id.as_slice();
    let mut body = Vec::new(alloc);
    write_log(&log, &mut body)?;
    Ok((log, Items::from_vec(body)))
}
