// Whole records of rosters.
ghost use Rattle.std.specs.Prelude.{◌≡◌, ◌↔◌, ◌++◌, length, take, All, IfOk, OnOk, OnErr, IsErrOf, IsTrue};
ghost use Rattle.std.specs.List.Sorted.{IsStrictlyIncreasing};
ghost use Rattle.mtn_records.specs.declared.record.RosterRecord.{RosterRecord as Roster};
ghost use Rattle.mtn_records.specs.Bounds.{AreUpTo, IsAttrWithin, IsBodyWithin, IsEntryWithin, IsRosterAt, IsWithin};
ghost use Rattle.mtn_records.specs.Records.{delta_text, roster_text, IsDelta, IsRosterRecord};

use crate::entry::{Numbered, NumberedAttr, NumberedBody, NumberedEntry};
use crate::error::RecordError;
use crate::field::Field;
use crate::lists::{read_list, write_list};
use crate::record::RosterRecord;
use mtn_ancestry::{Pos, PosSet};
use mtn_base::{List, NoMemory};
use std::alloc::Global;
use std::marker::Model;

// Ascending numbers, which contracts see as their list.
#[derive(Drop)]
struct Numbers {
    list: List<u64>,
}

impl Model for Numbers {
    ghost use Rattle.std.specs.Prelude.{ℕ, List as Seq};

    ghost Value = { Seq ℕ };

    ghost view = { λ n. n.list };
}

// Whether each is below the next.
pub(crate) fn ascend(numbers: &[u64]) -> bool
    ensures { IsTrue result ↔ IsStrictlyIncreasing numbers.now }
{
    for k in 1..numbers.len() {
        if numbers[k - 1] >= numbers[k] {
            return false;
        }
    }
    true
}

impl Field for Numbers {
    ghost use Rattle.mtn_records.specs.Records.{numbers_text, AreNumbers};
    ghost use Rattle.mtn_records.specs.RecordsApart.{numbers_apart};

    ghost text = { numbers_text };

    ghost form = { AreNumbers };

    fn read(alloc: Global, bytes: &[u8]) -> Result<(Numbers, &[u8]), RecordError> {
        let (list, rest) = read_list(alloc, bytes)?;
        if !ascend(list.as_slice()) {
            return Err(RecordError::Bad);
        }
        Ok((Numbers { list }, rest))
    }

    fn write(&self, out: &mut Vec<u8>) -> Result<(), NoMemory> {
        write_list(&self.list, out)
    }

    ghost apart = { numbers_apart };
}

// Base, depth, the numbers that are gone, and the entries that are new or differ.
type Delta = (Pos, (u8, (Numbers, Numbered)));

fn write_delta(
    base: Pos,
    depth: u8,
    gone: &List<u64>,
    changed: &Numbered,
    out: &mut Vec<u8>,
) -> Result<(), NoMemory>
    requires { IsDelta base depth gone.now changed.now }
    ensures ok { OnOk result (out.new.items ≡ out.old.items ++ delta_text base depth gone.now changed.now) }
    ensures err { OnErr result (take (length out.old.items) out.new.items ≡ out.old.items) }
{
    base.write(out)?;
    depth.write(out)?;
    write_list(gone, out)?;
    changed.write(out)
}

impl Field for RosterRecord {
    ghost use Rattle.mtn_records.specs.Records.{roster_text, IsRosterRecord};
    ghost use Rattle.mtn_records.specs.RecordsApart.{roster_apart};

    ghost text = { roster_text };

    ghost form = { IsRosterRecord };

    fn read(alloc: Global, bytes: &[u8]) -> Result<(RosterRecord, &[u8]), RecordError> {
        let (is_delta, rest) = bool::read(alloc, bytes)?;
        if !is_delta {
            let (entries, rest) = Numbered::read(alloc, rest)?;
            return Ok((RosterRecord::Whole(entries), rest));
        }
        let ((base, (depth, (gone, changed))), rest) = Delta::read(alloc, rest)?;
        let roster = RosterRecord::Delta {
            base,
            depth,
            gone: gone.list,
            changed,
        };
        Ok((roster, rest))
    }

    fn write(&self, out: &mut Vec<u8>) -> Result<(), NoMemory> {
        match self {
            RosterRecord::Whole(entries) => {
                false.write(out)?;
                entries.write(out)
            }
            RosterRecord::Delta {
                base,
                depth,
                gone,
                changed,
            } => {
                true.write(out)?;
                write_delta(*base, *depth, gone, changed, out)
            }
        }
    }

    ghost apart = { roster_apart };
}

// Whether no mark is above the key: the last is the greatest.
pub(crate) fn are_up_to(marks: &PosSet, at: Pos) -> bool
    ensures { IsTrue result ↔ AreUpTo at marks.now }
{
    match marks.as_slice().last() {
        Some(last) => *last <= at,
        None => true,
    }
}

fn is_body_within(body: &NumberedBody, at: Pos) -> bool
    ensures { IsTrue result ↔ IsBodyWithin at body.now }
{
    match body {
        NumberedBody::Dir => true,
        NumberedBody::File { marks, .. } => are_up_to(marks, at),
    }
}

fn are_attrs_within(attrs: &[NumberedAttr], at: Pos) -> bool
    ensures { IsTrue result ↔ All (IsAttrWithin at) attrs.now }
{
    for attr in attrs {
        if !are_up_to(&attr.marks, at) {
            return false;
        }
    }
    true
}

fn is_entry_within(entry: &NumberedEntry, at: Pos) -> bool
    ensures { IsTrue result ↔ IsEntryWithin at entry.now }
{
    entry.birth_at <= at
        && are_up_to(&entry.slot_marks, at)
        && is_body_within(&entry.body, at)
        && are_attrs_within(entry.attrs.as_slice(), at)
}

fn are_within(entries: &[NumberedEntry], at: Pos) -> bool
    ensures { IsTrue result ↔ All (IsEntryWithin at) entries.now }
{
    for entry in entries {
        if !is_entry_within(entry, at) {
            return false;
        }
    }
    true
}

// Whether a record under this key may name these positions.
fn is_within(roster: &RosterRecord, at: Pos) -> bool
    ensures { IsTrue result ↔ IsWithin at roster.now }
{
    match roster {
        RosterRecord::Whole(entries) => are_within(entries.entries.as_slice(), at),
        RosterRecord::Delta { base, changed, .. } => {
            *base < at && are_within(changed.entries.as_slice(), at)
        }
    }
}

/// The record under the key `at` whose text the whole body is: a base stands below the key, births and marks not
/// above it. Bad exactly where the body is none.
pub fn read_roster(alloc: Global, at: Pos, body: &[u8]) -> Result<RosterRecord, RecordError>
    ensures ok { IfOk result (IsRosterAt at body.now) }
    ensures only { IfOk result (λ r. (other : Roster) → IsRosterAt at body.now other → other ≡ r) }
    ensures bad { IsErrOf result RecordError.Bad → (roster : Roster) → IsRosterAt at body.now roster → ⊥ }
{
    let (roster, rest) = RosterRecord::read(alloc, body)?;
    if !rest.is_empty() || !is_within(&roster, at) {
        return Err(RecordError::Bad);
    }
    Ok(roster)
}

/// Appends the text of a record. A record that names positions within the bounds of a key is read back under it.
/// An error leaves `out` as it was.
pub fn write_roster(roster: &RosterRecord, out: &mut Vec<u8>) -> Result<(), NoMemory>
    requires { IsRosterRecord roster.now }
    ensures ok { OnOk result (out.new.items ≡ out.old.items ++ roster_text roster.now) }
    ensures err { OnErr result (out.new.items ≡ out.old.items) }
{
    let len = out.len();
    let written = roster.write(out);
    if written.is_err() {
        out.truncate(len);
    }
    written
}
