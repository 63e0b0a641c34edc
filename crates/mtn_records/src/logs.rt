// Whole records of the log.
ghost use Rattle.std.specs.Prelude.{◌≡◌, ◌↔◌, ◌++◌, ◌<◌, length, take, All, IfOk, IfErr, OnOk, OnErr, IsTrue, MatchOption};
ghost use Rattle.mtn_ancestry.specs.Log.{list_of};
ghost use Rattle.mtn_records.specs.declared.record.LogRecord.{LogRecord as Log};
ghost use Rattle.mtn_records.specs.Bounds.{IsLogAt};
ghost use Rattle.mtn_records.specs.Fields.{Begins, BeginsWithNone, number_text, pair_text, IsNumber, IsPair};
ghost use Rattle.mtn_records.specs.Records.{log_text, parents_text, AreParents, IsLogRecord};
ghost use Rattle.mtn_records.specs.RecordsApart.{from_next, IsFromNext};

use crate::error::RecordError;
use crate::field::{Field, read_byte, read_id, read_number};
use crate::record::LogRecord;
use mtn_ancestry::{ParentList, Pos};
use mtn_base::NoMemory;

// Two numbers.
fn read_two(bytes: &[u8]) -> Option<((u64, u64), &[u8])>
    ensures { MatchOption result (BeginsWithNone (pair_text number_text number_text) (IsPair IsNumber IsNumber) bytes.now) (λ r. Begins (pair_text number_text number_text) (IsPair IsNumber IsNumber) bytes.now r.0 r.1.now) }
{
    let (first, rest) = read_number(bytes)?;
    let (second, rest) = read_number(rest)?;
    Some(((first, second), rest))
}

// How many parents, and where they stand.
fn read_parents(bytes: &[u8]) -> Option<(ParentList, &[u8])>
    ensures { MatchOption result (BeginsWithNone parents_text AreParents bytes.now) (λ r. Begins parents_text AreParents bytes.now r.0 r.1.now) }
{
    let (count, rest) = read_byte(bytes)?;
    match count {
        0 => Some((ParentList::Zero, rest)),
        1 => {
            let (parent, rest) = read_number(rest)?;
            Some((ParentList::One(Pos(parent)), rest))
        }
        2 => {
            let ((first, second), rest) = read_two(rest)?;
            Some((ParentList::Two(Pos(first), Pos(second)), rest))
        }
        _ => None,
    }
}

fn write_parents(parents: ParentList, out: &mut Vec<u8>) -> Result<(), NoMemory>
    requires { AreParents parents }
    ensures ok { OnOk result (out.new.items ≡ out.old.items ++ parents_text parents) }
    ensures err { OnErr result (take (length out.old.items) out.new.items ≡ out.old.items) }
{
    match parents {
        ParentList::Zero => 0u8.write(out),
        ParentList::One(parent) => {
            1u8.write(out)?;
            parent.write(out)
        }
        ParentList::Two(first, second) => {
            2u8.write(out)?;
            first.write(out)?;
            second.write(out)
        }
    }
}

// The next node number, and the parents.
fn read_next(bytes: &[u8]) -> Option<((u64, ParentList), &[u8])>
    ensures { MatchOption result (BeginsWithNone from_next IsFromNext bytes.now) (λ r. Begins from_next IsFromNext bytes.now r.0 r.1.now) }
{
    let (next_node, rest) = read_number(bytes)?;
    // Not by `?`: the borrow checker has no rule for that at an enum beside a reference.
    let Some((parents, rest)) = read_parents(rest) else {
        return None;
    };
    Some(((next_node, parents), rest))
}

// The record that the bytes begin with.
fn read_front(bytes: &[u8]) -> Option<(LogRecord, &[u8])>
    ensures { MatchOption result (BeginsWithNone log_text IsLogRecord bytes.now) (λ r. Begins log_text IsLogRecord bytes.now r.0 r.1.now) }
{
    let (id, rest) = read_id(bytes)?;
    let Some(((next_node, parents), rest)) = read_next(rest) else {
        return None;
    };
    let log = LogRecord {
        id,
        next_node,
        parents,
    };
    Some((log, rest))
}

// Whether each parent stands below the key.
fn are_below(parents: ParentList, at: Pos) -> bool
    ensures { IsTrue result ↔ All (λ p. p < at) (list_of parents) }
{
    match parents {
        ParentList::Zero => true,
        ParentList::One(parent) => parent < at,
        ParentList::Two(first, second) => first < at && second < at,
    }
}

/// The record under the key `at` whose text the whole body is: its parents stand below the key. Bad exactly where
/// the body is none. It takes no memory.
pub fn read_log(at: Pos, body: &[u8]) -> Result<LogRecord, RecordError>
    ensures ok { IfOk result (IsLogAt at body.now) }
    ensures only { IfOk result (λ r. (other : Log) → IsLogAt at body.now other → other ≡ r) }
    ensures bad { IfErr result (λ e. (e ≡ RecordError.Bad) × ((log : Log) → IsLogAt at body.now log → ⊥)) }
{
    let Some((log, rest)) = read_front(body) else {
        return Err(RecordError::Bad);
    };
    if !rest.is_empty() || !are_below(log.parents, at) {
        return Err(RecordError::Bad);
    }
    Ok(log)
}

fn append_log(log: &LogRecord, out: &mut Vec<u8>) -> Result<(), NoMemory>
    requires { IsLogRecord log.now }
    ensures ok { OnOk result (out.new.items ≡ out.old.items ++ log_text log.now) }
    ensures err { OnErr result (take (length out.old.items) out.new.items ≡ out.old.items) }
{
    log.id.write(out)?;
    log.next_node.write(out)?;
    write_parents(log.parents, out)
}

/// Appends the text of a record. A record whose parents stand below a key is read back under it. An error leaves
/// `out` as it was.
pub fn write_log(log: &LogRecord, out: &mut Vec<u8>) -> Result<(), NoMemory>
    requires { IsLogRecord log.now }
    ensures ok { OnOk result (out.new.items ≡ out.old.items ++ log_text log.now) }
    ensures err { OnErr result (out.new.items ≡ out.old.items) }
{
    let len = out.len();
    let written = append_log(log, out);
    if written.is_err() {
        out.truncate(len);
    }
    written
}
