// What the types of a record's values say of them. A record is looked at so only where it cannot be written, to tell that no
// history has it.
ghost use Rattle.std.specs.Prelude.{All};
ghost use Rattle.mtn_put_revision.specs.Writing.{AreTyped, AreTypedNumbers, IsTyped, IsTypedAttr, IsTypedBody, IsTypedEntry};

use mtn_records::{Numbered, NumberedAttr, NumberedBody, NumberedEntry, RosterRecord};

fn typed_attr(attr: &NumberedAttr)
    ensures { IsTypedAttr attr.now }
{
    let _marks = attr.marks.as_slice();
}

fn typed_attrs(attrs: &[NumberedAttr])
    ensures { All IsTypedAttr attrs.now }
{
    for attr in attrs {
        typed_attr(attr);
    }
}

fn typed_body(body: &NumberedBody)
    ensures { IsTypedBody body.now }
{
    match body {
        NumberedBody::Dir => {}
        NumberedBody::File { content, marks } => {
            let _content = content.as_slice();
            let _marks = marks.as_slice();
        }
    }
}

fn typed_entry(entry: &NumberedEntry)
    ensures { IsTypedEntry entry.now }
{
    let _number = entry.number;
    let _birth = entry.node.birth.as_slice();
    let _parent = entry.parent;
    let _marks = entry.slot_marks.as_slice();
    let attrs = entry.attrs.as_slice();
    let _count = attrs.len();
    typed_body(&entry.body);
    typed_attrs(attrs);
}

fn typed_each(entries: &[NumberedEntry])
    ensures { All IsTypedEntry entries.now }
{
    for entry in entries {
        typed_entry(entry);
    }
}

fn typed_entries(entries: &Numbered)
    ensures { AreTyped entries.now }
{
    let entries = entries.entries.as_slice();
    let _count = entries.len();
    typed_each(entries);
}

fn typed_numbers(numbers: &[u64])
    ensures { AreTypedNumbers numbers.now }
{
    let _count = numbers.len();
    for number in numbers {
        let _number = *number;
    }
}

/// Looks at each value of a record.
pub fn typed_record(roster: &RosterRecord)
    ensures { IsTyped roster.now }
{
    match roster {
        RosterRecord::Whole(entries) => typed_entries(entries),
        RosterRecord::Delta {
            depth,
            gone,
            changed,
            ..
        } => {
            let _depth = *depth;
            typed_numbers(gone.as_slice());
            typed_entries(changed);
        }
    }
}
