// What a marked tree has of an entry's node.
ghost use Rattle.std.specs.Prelude.{◌≡◌, map, IfOk, IsErrOf, IsTrue};
ghost use Rattle.mtn_base.specs.Comps.{IsComp};
ghost use Rattle.mtn_base.specs.Names.{bytes_cmp};
ghost use Rattle.mtn_roster.specs.declared.entry.Slot.{Slot};
ghost use Rattle.mtn_roster.specs.declared.entry.Entry.{Entry};
ghost use Rattle.mtn_base.specs.Lists.{rises};
ghost use Rattle.mtn_roster_deltas.specs.Chain.{ascend};
ghost use Rattle.mtn_roster_deltas.specs.Parts.{numbered_key, IsKeyedEntryOf};
ghost use Rattle.mtn_roster_deltas.specs.Spelled.{attr_of, attr_marks_of, body_of, content_marks_of, marks_of, IsSlotOf};

use crate::order::entry_of;
use mtn_ancestry::PosSet;
use mtn_base::{Comp, List, NoMemory, PathError};
use mtn_marking::{AttrMarks, Marking, NodeMarks};
use mtn_records::{NumberedAttr, NumberedBody, NumberedEntry, RecordError, copy_value};
use mtn_roster::{Attr, Body, Entry, Slot};
use std::alloc::Global;

/// The component of a name.
fn comp_of(alloc: Global, name: &[u8]) -> Result<Comp, RecordError>
    ensures ok { IfOk result (λ comp. (comp ≡ name.now) × IsComp name.now) }
    ensures bad { IsErrOf result RecordError.Bad → IsComp name.now → ⊥ }
{
    match Comp::read(alloc, name) {
        Ok(comp) => Ok(comp),
        Err(PathError::NoMemory) => Err(RecordError::NoMemory),
        Err(_) => Err(RecordError::Bad),
    }
}

/// The slot of an entry; Bad where it has none.
fn slot_of(
    alloc: Global,
    entries: &[NumberedEntry],
    entry: &NumberedEntry,
) -> Result<Slot, RecordError>
    requires { IsTrue (ascend entries.now) }
    ensures ok { IfOk result (IsSlotOf entries.now entry.now) }
    ensures bad { IsErrOf result RecordError.Bad → (s : Slot) → IsSlotOf entries.now entry.now s → ⊥ }
{
    if entry.parent == 0 {
        if !entry.name.as_slice().is_empty() {
            return Err(RecordError::Bad);
        }
        return Ok(Slot::Root);
    }
    match entry_of(entries, entry.parent) {
        None => Err(RecordError::Bad),
        Some(above) => {
            let name = comp_of(alloc, entry.name.as_slice())?;
            let parent = above.node.copy(alloc)?;
            Ok(Slot::Below { parent, name })
        }
    }
}

/// Whether keys ascend.
fn keys_ascend(attrs: &[NumberedAttr]) -> bool
    ensures { result ≡ rises bytes_cmp (map numbered_key attrs.now) }
{
    attrs.is_sorted_by(|first, second| { first.key.as_slice().cmp(second.key.as_slice()).is_lt() })
}

/// Attributes without their marks.
fn attrs_of(alloc: Global, attrs: &[NumberedAttr]) -> Result<Vec<Attr>, NoMemory>
    ensures { IfOk result (λ v. v.items ≡ map attr_of attrs.now) }
{
    let mut plain = Vec::with_capacity(alloc, attrs.len())?;
    for attr in attrs {
        plain.push(Attr {
            key: attr.key.copy(alloc)?,
            value: copy_value(alloc, &attr.value)?,
        })?;
    }
    Ok(plain)
}

/// The marks of attributes.
fn attr_marks(alloc: Global, attrs: &[NumberedAttr]) -> Result<Vec<AttrMarks>, NoMemory>
    ensures { IfOk result (λ v. v.items ≡ map attr_marks_of attrs.now) }
{
    let mut marks = Vec::with_capacity(alloc, attrs.len())?;
    for attr in attrs {
        marks.push(AttrMarks {
            key: attr.key.copy(alloc)?,
            marks: attr.marks.copy()?,
        })?;
    }
    Ok(marks)
}

fn plain_body(body: &NumberedBody) -> Body
    ensures { result ≡ body_of body.now }
{
    match body {
        NumberedBody::Dir => Body::Dir,
        NumberedBody::File { content, marks: _ } => Body::File { content: *content },
    }
}

fn content_marks(body: &NumberedBody) -> Result<Option<PosSet>, NoMemory>
    ensures { IfOk result (λ v. v ≡ content_marks_of body.now) }
{
    match body {
        NumberedBody::Dir => Ok(None),
        NumberedBody::File { content: _, marks } => Ok(Some(marks.copy()?)),
    }
}

/// What the tree has of an entry's node; Bad where the entry has no slot, or its keys do not ascend.
pub fn plain_entry(
    alloc: Global,
    entries: &[NumberedEntry],
    entry: &NumberedEntry,
) -> Result<Entry, RecordError>
    requires { IsTrue (ascend entries.now) }
    ensures ok { IfOk result (IsKeyedEntryOf entries.now entry.now) }
    ensures bad { IsErrOf result RecordError.Bad → (n : Entry) → IsKeyedEntryOf entries.now entry.now n → ⊥ }
{
    let attrs = entry.attrs.as_slice();
    if !keys_ascend(attrs) {
        return Err(RecordError::Bad);
    }
    let slot = slot_of(alloc, entries, entry)?;
    Ok(Entry {
        name: entry.node.copy(alloc)?,
        slot,
        body: plain_body(&entry.body),
        attrs: List::from_vec(attrs_of(alloc, attrs)?),
    })
}

/// The marks of an entry's node.
pub fn node_marks(alloc: Global, entry: &NumberedEntry) -> Result<NodeMarks, NoMemory>
    ensures { IfOk result (λ m. m ≡ marks_of entry.now) }
{
    let marking = Marking {
        birth: entry.birth_at,
        slot: entry.slot_marks.copy()?,
        content: content_marks(&entry.body)?,
        attrs: List::from_vec(attr_marks(alloc, entry.attrs.as_slice())?),
    };
    Ok(NodeMarks {
        name: entry.node.copy(alloc)?,
        marking,
    })
}
