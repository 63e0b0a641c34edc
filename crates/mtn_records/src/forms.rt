// Whether a record can be written under a key.
ghost use Rattle.std.specs.Prelude.{◌↔◌, ◌≤◌, All, IsTrue};
ghost use Rattle.mtn_records.specs.Bounds.{AreUpTo, IsAttrWithin, IsBodyWithin, IsEntryWithin, IsWithin};
ghost use Rattle.mtn_records.specs.Entries.{AreEntries, IsAttr, IsBody, IsEntry, IsHead, IsName, IsPath};
ghost use Rattle.mtn_records.specs.Fields.{IsField, IsOption, IsSet};
ghost use Rattle.mtn_records.specs.Records.{AreNumbers, IsRosterRecord};

use crate::entries::{is_sound, numbers_ascend};
use crate::entry::{Numbered, NumberedAttr, NumberedBody, NumberedEntry};
use crate::record::RosterRecord;
use crate::rosters::{are_up_to, ascend};
use mtn_ancestry::{Pos, PosSet};
use mtn_base::{Bytes, NodeName, Path};

// The least length that a field cannot tell.
const TOO_LONG: usize = 4_294_967_296;

fn is_field(bytes: &[u8]) -> bool
    ensures { IsTrue result ↔ IsField bytes.now }
{
    bytes.len() < TOO_LONG
}

fn is_value(value: &Option<Bytes>) -> bool
    ensures { IsTrue result ↔ IsOption IsField value.now }
{
    match value {
        None => true,
        Some(value) => is_field(value.as_slice()),
    }
}

fn is_set_at(marks: &PosSet, at: Pos) -> bool
    ensures { IsTrue result ↔ (IsSet marks.now × AreUpTo at marks.now) }
{
    let count = marks.as_slice().len();
    0 < count && count < TOO_LONG && are_up_to(marks, at)
}

// The text has one byte less than its components with a slash behind each.
fn is_path(path: &Path) -> bool
    ensures { IsTrue result ↔ IsPath path.now }
{
    let mut length = 0;
    let comps = path.comps();
    for comp in comps {
        length += comp.bytes().len() + 1;
        if length > TOO_LONG {
            return false;
        }
    }
    true
}

fn is_name(name: &NodeName) -> bool
    ensures { IsTrue result ↔ IsName name.now }
{
    let _birth = name.birth.as_slice();
    is_path(&name.path)
}

fn is_attr_at(attr: &NumberedAttr, at: Pos) -> bool
    ensures { IsTrue result ↔ (IsAttr attr.now × IsAttrWithin at attr.now) }
{
    is_field(attr.key.as_slice()) && is_value(&attr.value) && is_set_at(&attr.marks, at)
}

fn are_attrs_at(attrs: &[NumberedAttr], at: Pos) -> bool
    ensures { IsTrue result ↔ All (λ a. IsAttr a × IsAttrWithin at a) attrs.now }
{
    for attr in attrs {
        if !is_attr_at(attr, at) {
            return false;
        }
    }
    true
}

fn is_body_at(body: &NumberedBody, at: Pos) -> bool
    ensures { IsTrue result ↔ (IsBody body.now × IsBodyWithin at body.now) }
{
    match body {
        NumberedBody::Dir => true,
        NumberedBody::File { content, marks } => {
            let _content = content.as_slice();
            is_set_at(marks, at)
        }
    }
}

fn is_head_at(entry: &NumberedEntry, at: Pos) -> bool
    ensures { IsTrue result ↔ (IsHead entry.now × ((entry.now.birth_at ≤ at) × AreUpTo at entry.now.slot_marks)) }
{
    let _number = entry.number;
    let _parent = entry.parent;
    if entry.birth_at > at {
        return false;
    }
    if !is_name(&entry.node) {
        return false;
    }
    is_field(entry.name.as_slice()) && is_set_at(&entry.slot_marks, at)
}

fn is_entry_at(entry: &NumberedEntry, at: Pos) -> bool
    ensures { IsTrue result ↔ (IsEntry entry.now × IsEntryWithin at entry.now) }
{
    let attrs = entry.attrs.as_slice();
    let _count = attrs.len();
    is_head_at(entry, at)
        && is_body_at(&entry.body, at)
        && are_attrs_at(attrs, at)
        && is_sound(entry.parent, &entry.name, &entry.attrs)
}

fn is_each_at(entries: &[NumberedEntry], at: Pos) -> bool
    ensures { IsTrue result ↔ All (λ e. IsEntry e × IsEntryWithin at e) entries.now }
{
    for entry in entries {
        if !is_entry_at(entry, at) {
            return false;
        }
    }
    true
}

fn are_entries_at(entries: &Numbered, at: Pos) -> bool
    ensures { IsTrue result ↔ (AreEntries entries.now × All (IsEntryWithin at) entries.now) }
{
    let entries = entries.entries.as_slice();
    let _count = entries.len();
    numbers_ascend(entries) && is_each_at(entries, at)
}

fn are_numbers(numbers: &[u64]) -> bool
    ensures { IsTrue result ↔ AreNumbers numbers.now }
{
    let _count = numbers.len();
    ascend(numbers)
}

/// Whether a record can be written and is read back under a key: each text and each set of marks has a length that its
/// field can tell, no set is empty, numbers and keys ascend, a root slot has no name, and no position breaks its
/// bound. Linear in the record; it takes no memory.
pub fn is_record_at(roster: &RosterRecord, at: Pos) -> bool
    ensures { IsTrue result ↔ (IsRosterRecord roster.now × IsWithin at roster.now) }
{
    match roster {
        RosterRecord::Whole(entries) => are_entries_at(entries, at),
        RosterRecord::Delta {
            base,
            depth,
            gone,
            changed,
        } => {
            let _depth = *depth;
            if *base >= at {
                return false;
            }
            are_numbers(gone.as_slice()) && are_entries_at(changed, at)
        }
    }
}
