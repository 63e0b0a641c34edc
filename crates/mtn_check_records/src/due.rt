// The records that are due of a stored roster.
ghost use Rattle.std.specs.Prelude.{◌≡◌, ◌≤◌, ◌∷◌, ◌↔◌, [], length, IfOk, IsTrue};
ghost use Rattle.std.specs.List.{AllZip};
ghost use Rattle.mtn_ancestry.specs.Log.{list_of};
ghost use Rattle.mtn_base.specs.declared.limits.TheConstants.{MAX_NODES};
ghost use Rattle.mtn_check_pieces.specs.Verdict.{IsWholeOf};
ghost use Rattle.mtn_roster_deltas.specs.Numbering.{shown};
ghost use Rattle.mtn_check_records.specs.Due.{first_depth as depth_of, HasEntries, IsFoundBeside, IsFoundOver, IsFoundWith};
ghost use Rattle.mtn_check_records.specs.Reading.{places_of};

use crate::hand::{Fit, Parent, Position};
use crate::numbers::numbers_due;
use mtn_ancestry::{ParentList, Pos};
use mtn_base::NoMemory;
use mtn_check_pieces::CheckJob;
use mtn_marking::MarkedRoster;
use mtn_put_revision::{KeptParents, write_record};
use mtn_records::RosterRecord;
use std::alloc::Global;

// What is found of the records over parents that are kept so.
fn over(
    alloc: Global,
    position: &Position,
    job: &CheckJob,
    stored: &MarkedRoster,
    known: &KeptParents<'_>,
) -> Result<Fit, NoMemory>
    requires nodes { length stored.now.tree ≤ MAX_NODES }
    requires spelled { IsWholeOf job.now.stored stored.now }
    ensures { IfOk result (IsFoundOver position.now job.now stored.now known.now.places.now (shown known.now.entries.now) known.now.depth) }
{
    let Some((entries, free)) = numbers_due(
        alloc,
        job.stored.as_record(),
        stored,
        known.entries,
        position.next,
    )?
    else {
        return Ok(Fit::Undecided);
    };
    if free != position.entry.next_node {
        return Ok(Fit::OtherLog);
    }
    let Some(written) = write_record(alloc, known, entries, job.at)? else {
        return Ok(Fit::Undecided);
    };
    if written.body.as_slice() != position.roster.as_slice() {
        return Ok(Fit::OtherRoster);
    }
    Ok(Fit::Fits)
}

// The same over the whole records of the parents, which are kept so.
fn over_known(
    alloc: Global,
    position: &Position,
    job: &CheckJob,
    stored: &MarkedRoster,
    known: &KeptParents<'_>,
) -> Result<Fit, NoMemory>
    requires nodes { length stored.now.tree ≤ MAX_NODES }
    requires spelled { IsWholeOf job.now.stored stored.now }
    requires whole { AllZip HasEntries job.now.parents (shown known.now.entries.now) }
    requires depth { known.now.depth ≡ depth_of position.now.parents }
    ensures { IfOk result (IsFoundWith position.now job.now stored.now known.now.places.now job.now.parents) }
{
    over(alloc, position, job, stored, known)
}

// How many deltas the record of the first parent stands above a whole one.
fn first_depth(parents: &[Parent]) -> u8
    ensures { result ≡ depth_of parents.now }
{
    match parents {
        [] => 0,
        [first, ..] => first.depth,
    }
}

// The same over no parent.
fn over_none(
    alloc: Global,
    position: &Position,
    job: &CheckJob,
    stored: &MarkedRoster,
) -> Result<Fit, NoMemory>
    requires nodes { length stored.now.tree ≤ MAX_NODES }
    requires spelled { IsWholeOf job.now.stored stored.now }
    ensures { IfOk result (IsFoundWith position.now job.now stored.now [] job.now.parents) }
{
    if !job.parents.as_slice().is_empty() {
        return Ok(Fit::Undecided);
    }
    let known = KeptParents {
        places: &[],
        entries: &[],
        depth: first_depth(position.parents.as_slice()),
    };
    over_known(alloc, position, job, stored, &known)
}

// The same over a parent at this position.
fn over_one(
    alloc: Global,
    position: &Position,
    job: &CheckJob,
    stored: &MarkedRoster,
    at: Pos,
) -> Result<Fit, NoMemory>
    requires nodes { length stored.now.tree ≤ MAX_NODES }
    requires spelled { IsWholeOf job.now.stored stored.now }
    ensures { IfOk result (IsFoundWith position.now job.now stored.now (at ∷ []) job.now.parents) }
{
    let [parent] = job.parents.as_slice() else {
        return Ok(Fit::Undecided);
    };
    let RosterRecord::Whole(below) = parent.as_record() else {
        return Ok(Fit::Undecided);
    };
    let places = [at];
    let entries = [below];
    let known = KeptParents {
        places: places.as_slice(),
        entries: entries.as_slice(),
        depth: first_depth(position.parents.as_slice()),
    };
    over_known(alloc, position, job, stored, &known)
}

// The same over two.
fn over_two(
    alloc: Global,
    position: &Position,
    job: &CheckJob,
    stored: &MarkedRoster,
    first: Pos,
    second: Pos,
) -> Result<Fit, NoMemory>
    requires nodes { length stored.now.tree ≤ MAX_NODES }
    requires spelled { IsWholeOf job.now.stored stored.now }
    ensures { IfOk result (IsFoundWith position.now job.now stored.now (first ∷ second ∷ []) job.now.parents) }
{
    let [left, right] = job.parents.as_slice() else {
        return Ok(Fit::Undecided);
    };
    let RosterRecord::Whole(ours) = left.as_record() else {
        return Ok(Fit::Undecided);
    };
    let RosterRecord::Whole(theirs) = right.as_record() else {
        return Ok(Fit::Undecided);
    };
    let places = [first, second];
    let entries = [ours, theirs];
    let known = KeptParents {
        places: places.as_slice(),
        entries: entries.as_slice(),
        depth: first_depth(position.parents.as_slice()),
    };
    over_known(alloc, position, job, stored, &known)
}

// The same over the parents that the record of the log has.
fn over_parents(
    alloc: Global,
    position: &Position,
    job: &CheckJob,
    stored: &MarkedRoster,
) -> Result<Fit, NoMemory>
    requires nodes { length stored.now.tree ≤ MAX_NODES }
    requires spelled { IsWholeOf job.now.stored stored.now }
    ensures { IfOk result (IsFoundWith position.now job.now stored.now (list_of position.now.entry.parents) job.now.parents) }
{
    match position.entry.parents {
        ParentList::Zero => over_none(alloc, position, job, stored),
        ParentList::One(at) => over_one(alloc, position, job, stored, at),
        ParentList::Two(first, second) => over_two(alloc, position, job, stored, first, second),
    }
}

// Whether a parent stands at this position.
fn stands_at(at: Pos, parent: &Parent) -> bool
    ensures { IsTrue result ↔ (at ≡ parent.now.at) }
{
    at.0 == parent.at.0
}

// Whether the record of the log has the parents at these places.
fn are_told(told: ParentList, parents: &[Parent]) -> bool
    ensures { IsTrue result ↔ (list_of told ≡ places_of parents.now) }
{
    match told {
        ParentList::Zero => parents.is_empty(),
        ParentList::One(at) => {
            let [one] = parents else {
                return false;
            };
            stands_at(at, one)
        }
        ParentList::Two(left, right) => {
            let [first, second] = parents else {
                return false;
            };
            stands_at(left, first) && stands_at(right, second)
        }
    }
}

/// What is found of the records of a position beside a text that is fit, over the whole records of its parents' rosters.
pub fn records_fit(
    alloc: Global,
    position: &Position,
    job: &CheckJob,
    stored: &MarkedRoster,
) -> Result<Fit, NoMemory>
    requires nodes { length stored.now.tree ≤ MAX_NODES }
    requires spelled { IsWholeOf job.now.stored stored.now }
    ensures { IfOk result (IsFoundBeside position.now job.now stored.now) }
{
    if !are_told(position.entry.parents, position.parents.as_slice()) {
        return Ok(Fit::OtherLog);
    }
    over_parents(alloc, position, job, stored)
}
