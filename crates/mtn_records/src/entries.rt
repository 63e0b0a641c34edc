// Entries in a body.
ghost use Rattle.std.specs.Prelude.{◌≡◌, ◌↔◌, ◌++◌, [], length, take, IfOk, OnOk, OnErr, IsErrOf, IsTrue};
ghost use Rattle.mtn_records.specs.Fields.{Begins, BeginsWithNone, list_text, pair_text, IsList, IsNumber, IsField, IsPair, IsSet};
ghost use Rattle.mtn_records.specs.EntriesApart.{with_parts};
ghost use Rattle.mtn_records.specs.Entries.{attr_text, birth_text, body_text, below_text, head_text, named_text, place_text, IsAttr, IsBody, IsBodyOf, IsHead, IsName, KeysAscend, NumbersAscend};

use crate::entry::{Numbered, NumberedAttr, NumberedBody, NumberedEntry};
use crate::error::RecordError;
use crate::field::Field;
use crate::lists::{read_list, write_list};
use mtn_ancestry::{Pos, PosSet};
use mtn_base::{Bytes, Id, List, NoMemory, NodeName, ShortBytes};
use std::alloc::Global;

impl Field for NumberedAttr {
    ghost use Rattle.mtn_records.specs.Entries.{attr_text, IsAttr};
    ghost use Rattle.mtn_records.specs.EntriesApart.{attr_apart};

    ghost text = { attr_text };

    ghost form = { IsAttr };

    fn read(alloc: Global, bytes: &[u8]) -> Result<(NumberedAttr, &[u8]), RecordError> {
        let ((key, (value, marks)), rest) = <(Bytes, (Option<Bytes>, PosSet))>::read(alloc, bytes)?;
        Ok((NumberedAttr { key, value, marks }, rest))
    }

    fn write(&self, out: &mut Vec<u8>) -> Result<(), NoMemory> {
        self.key.write(out)?;
        self.value.write(out)?;
        self.marks.write(out)
    }

    ghost apart = { attr_apart };
}

// The body of a file, or of a directory.
fn read_body(alloc: Global, file: bool, bytes: &[u8]) -> Result<(NumberedBody, &[u8]), RecordError>
    ensures ok { IfOk result (λ r. Begins body_text (IsBodyOf file) bytes.now r.0 r.1.now) }
    ensures bad { IsErrOf result RecordError.Bad → BeginsWithNone body_text (IsBodyOf file) bytes.now }
{
    if !file {
        return Ok((NumberedBody::Dir, bytes));
    }
    let ((content, marks), rest) = <(Id, PosSet)>::read(alloc, bytes)?;
    Ok((NumberedBody::File { content, marks }, rest))
}

fn write_body(body: &NumberedBody, out: &mut Vec<u8>) -> Result<(), NoMemory>
    requires { IsBody body.now }
    ensures ok { OnOk result (out.new.items ≡ out.old.items ++ body_text body.now) }
    ensures err { OnErr result (take (length out.old.items) out.new.items ≡ out.old.items) }
{
    match body {
        NumberedBody::Dir => Ok(()),
        NumberedBody::File { content, marks } => {
            content.write(out)?;
            marks.write(out)
        }
    }
}

// Whether keys ascend.
fn keys_ascend(attrs: &[NumberedAttr]) -> bool
    ensures { IsTrue result ↔ KeysAscend attrs.now }
{
    for k in 1..attrs.len() {
        let order = attrs[k - 1].key.as_slice().cmp(attrs[k].key.as_slice());
        if !order.is_lt() {
            return false;
        }
    }
    true
}

// Whether numbers ascend.
pub(crate) fn numbers_ascend(entries: &[NumberedEntry]) -> bool
    ensures { IsTrue result ↔ NumbersAscend entries.now }
{
    for k in 1..entries.len() {
        if entries[k - 1].number >= entries[k].number {
            return false;
        }
    }
    true
}

// Whether a root slot has no name, and the keys ascend.
pub(crate) fn is_sound(parent: u64, name: &ShortBytes, attrs: &List<NumberedAttr>) -> bool
    ensures { IsTrue result ↔ ((parent ≡ 0 → name.now ≡ []) × KeysAscend attrs.now) }
{
    if parent == 0 && !name.as_slice().is_empty() {
        return false;
    }
    keys_ascend(attrs.as_slice())
}

// The name below the parent, and the marks of both.
fn write_below(entry: &NumberedEntry, out: &mut Vec<u8>) -> Result<(), NoMemory>
    requires { IsField entry.now.name × IsSet entry.now.slot_marks }
    ensures ok { OnOk result (out.new.items ≡ out.old.items ++ below_text entry.now) }
    ensures err { OnErr result (take (length out.old.items) out.new.items ≡ out.old.items) }
{
    entry.name.write(out)?;
    entry.slot_marks.write(out)
}

fn write_place(entry: &NumberedEntry, out: &mut Vec<u8>) -> Result<(), NoMemory>
    requires { IsNumber entry.now.parent × (IsField entry.now.name × IsSet entry.now.slot_marks) }
    ensures ok { OnOk result (out.new.items ≡ out.old.items ++ place_text entry.now) }
    ensures err { OnErr result (take (length out.old.items) out.new.items ≡ out.old.items) }
{
    entry.body.is_file().write(out)?;
    entry.parent.write(out)?;
    write_below(entry, out)
}

fn write_named(entry: &NumberedEntry, out: &mut Vec<u8>) -> Result<(), NoMemory>
    requires { IsName entry.now.node × (IsNumber entry.now.parent × (IsField entry.now.name × IsSet entry.now.slot_marks)) }
    ensures ok { OnOk result (out.new.items ≡ out.old.items ++ named_text entry.now) }
    ensures err { OnErr result (take (length out.old.items) out.new.items ≡ out.old.items) }
{
    entry.node.write(out)?;
    write_place(entry, out)
}

fn write_birth(entry: &NumberedEntry, out: &mut Vec<u8>) -> Result<(), NoMemory>
    requires { IsNumber entry.now.birth_at × (IsName entry.now.node × (IsNumber entry.now.parent × (IsField entry.now.name × IsSet entry.now.slot_marks))) }
    ensures ok { OnOk result (out.new.items ≡ out.old.items ++ birth_text entry.now) }
    ensures err { OnErr result (take (length out.old.items) out.new.items ≡ out.old.items) }
{
    entry.birth_at.write(out)?;
    write_named(entry, out)
}

fn write_head(entry: &NumberedEntry, out: &mut Vec<u8>) -> Result<(), NoMemory>
    requires { IsHead entry.now }
    ensures ok { OnOk result (out.new.items ≡ out.old.items ++ head_text entry.now) }
    ensures err { OnErr result (take (length out.old.items) out.new.items ≡ out.old.items) }
{
    entry.number.write(out)?;
    write_birth(entry, out)
}

// Number, birth position, name, kind, the parent's number, the name below it, and the marks of both.
type Head = (u64, (Pos, (NodeName, (bool, (u64, (ShortBytes, PosSet))))));

type Contents = (NumberedBody, List<NumberedAttr>);

// The body of a file, or of a directory, and the attributes.
fn read_contents(alloc: Global, file: bool, bytes: &[u8]) -> Result<(Contents, &[u8]), RecordError>
    ensures ok { IfOk result (λ r. Begins (pair_text body_text (list_text attr_text)) (IsPair (IsBodyOf file) (IsList IsAttr)) bytes.now r.0 r.1.now) }
    ensures bad { IsErrOf result RecordError.Bad → BeginsWithNone (pair_text body_text (list_text attr_text)) (IsPair (IsBodyOf file) (IsList IsAttr)) bytes.now }
{
    let (body, rest) = read_body(alloc, file, bytes)?;
    let (attrs, rest) = read_list(alloc, rest)?;
    Ok(((body, attrs), rest))
}

// The entry of this head, body and attributes.
fn with_parts(head: Head, contents: Contents) -> NumberedEntry
    ensures { result ≡ with_parts head contents.0 contents.1 }
{
    let (number, (birth_at, (node, (_, (parent, (name, slot_marks)))))) = head;
    let (body, attrs) = contents;
    NumberedEntry {
        number,
        birth_at,
        node,
        parent,
        name,
        slot_marks,
        body,
        attrs,
    }
}

// The entry, where a root slot has no name and the keys ascend.
fn sound(entry: NumberedEntry) -> Result<NumberedEntry, RecordError>
    ensures ok { IfOk result (λ e. (e ≡ entry) × ((e.parent ≡ 0 → e.name ≡ []) × KeysAscend e.attrs)) }
    ensures bad { OnErr result ((entry.parent ≡ 0 → entry.name ≡ []) × KeysAscend entry.attrs → ⊥) }
{
    if !is_sound(entry.parent, &entry.name, &entry.attrs) {
        return Err(RecordError::Bad);
    }
    Ok(entry)
}

impl Field for NumberedEntry {
    ghost use Rattle.mtn_records.specs.Entries.{entry_text, IsEntry};
    ghost use Rattle.mtn_records.specs.EntriesApart.{entry_apart};

    ghost text = { entry_text };

    ghost form = { IsEntry };

    fn read(alloc: Global, bytes: &[u8]) -> Result<(NumberedEntry, &[u8]), RecordError> {
        let (head, rest) = Head::read(alloc, bytes)?;
        let (_, (_, (_, (file, _)))) = &head;
        let (contents, rest) = read_contents(alloc, *file, rest)?;
        let entry = sound(with_parts(head, contents))?;
        Ok((entry, rest))
    }

    fn write(&self, out: &mut Vec<u8>) -> Result<(), NoMemory> {
        write_head(self, out)?;
        write_body(&self.body, out)?;
        write_list(&self.attrs, out)
    }

    ghost apart = { entry_apart };
}

impl Field for Numbered {
    ghost use Rattle.mtn_records.specs.Entries.{entries_text, AreEntries};
    ghost use Rattle.mtn_records.specs.EntriesApart.{entries_apart};

    ghost text = { entries_text };

    ghost form = { AreEntries };

    fn read(alloc: Global, bytes: &[u8]) -> Result<(Numbered, &[u8]), RecordError> {
        let (entries, rest) = read_list(alloc, bytes)?;
        if !numbers_ascend(entries.as_slice()) {
            return Err(RecordError::Bad);
        }
        Ok((Numbered { entries }, rest))
    }

    fn write(&self, out: &mut Vec<u8>) -> Result<(), NoMemory> {
        write_list(&self.entries, out)
    }

    ghost apart = { entries_apart };
}
