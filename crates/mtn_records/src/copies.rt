// Copies of entries and of records. Their sets of marks are shared.
ghost use Rattle.std.specs.Prelude.{◌≡◌, IfOk};

use crate::entry::{Numbered, NumberedAttr, NumberedBody, NumberedEntry};
use crate::record::RosterRecord;
use mtn_ancestry::PosSet;
use mtn_base::{Bytes, List, NoMemory, NodeName, ShortBytes};
use std::alloc::Global;

/// An equal value of an attribute.
pub fn copy_value(alloc: Global, value: &Option<Bytes>) -> Result<Option<Bytes>, NoMemory>
    ensures { IfOk result (λ v. v ≡ value.now) }
{
    match value {
        None => Ok(None),
        Some(bytes) => Ok(Some(bytes.copy(alloc)?)),
    }
}

fn copy_attrs(alloc: Global, attrs: &[NumberedAttr]) -> Result<Vec<NumberedAttr>, NoMemory>
    ensures { IfOk result (λ v. v.items ≡ attrs.now) }
{
    let mut copies = Vec::with_capacity(alloc, attrs.len())?;
    for attr in attrs {
        copies.push(attr.copy(alloc)?)?;
    }
    Ok(copies)
}

fn copy_entries(alloc: Global, entries: &[NumberedEntry]) -> Result<Vec<NumberedEntry>, NoMemory>
    ensures { IfOk result (λ v. v.items ≡ entries.now) }
{
    let mut copies = Vec::with_capacity(alloc, entries.len())?;
    for entry in entries {
        copies.push(entry.copy(alloc)?)?;
    }
    Ok(copies)
}

impl NumberedAttr {
    /// An equal attribute.
    pub fn copy(&self, alloc: Global) -> Result<NumberedAttr, NoMemory>
        ensures { IfOk result (λ a. a ≡ self.now) }
    {
        Ok(NumberedAttr {
            key: self.key.copy(alloc)?,
            value: copy_value(alloc, &self.value)?,
            marks: self.marks.copy()?,
        })
    }
}

impl NumberedBody {
    /// An equal body.
    pub fn copy(&self) -> Result<NumberedBody, NoMemory>
        ensures { IfOk result (λ b. b ≡ self.now) }
    {
        match self {
            NumberedBody::Dir => Ok(NumberedBody::Dir),
            NumberedBody::File { content, marks } => Ok(NumberedBody::File {
                content: *content,
                marks: marks.copy()?,
            }),
        }
    }
}

impl NumberedEntry {
    /// An equal entry.
    pub fn copy(&self, alloc: Global) -> Result<NumberedEntry, NoMemory>
        ensures { IfOk result (λ e. e ≡ self.now) }
    {
        let (node, name, slot_marks) = self.copy_place(alloc)?;
        let (body, attrs) = self.copy_contents(alloc)?;
        Ok(NumberedEntry {
            number: self.number,
            birth_at: self.birth_at,
            node,
            parent: self.parent,
            name,
            slot_marks,
            body,
            attrs,
        })
    }

    // The node's name, the name below the parent, and the marks of that.
    fn copy_place(&self, alloc: Global) -> Result<(NodeName, ShortBytes, PosSet), NoMemory>
        ensures { IfOk result (λ p. p ≡ (self.now.node, self.now.name, self.now.slot_marks)) }
    {
        Ok((
            self.node.copy(alloc)?,
            self.name.copy(alloc)?,
            self.slot_marks.copy()?,
        ))
    }

    fn copy_contents(&self, alloc: Global) -> Result<(NumberedBody, List<NumberedAttr>), NoMemory>
        ensures { IfOk result (λ p. p ≡ (self.now.body, self.now.attrs)) }
    {
        let body = self.body.copy()?;
        let attrs = copy_attrs(alloc, self.attrs.as_slice())?;
        Ok((body, List::from_vec(attrs)))
    }
}

impl Numbered {
    /// Equal entries.
    pub fn copy(&self, alloc: Global) -> Result<Numbered, NoMemory>
        ensures { IfOk result (λ n. n ≡ self.now) }
    {
        let entries = copy_entries(alloc, self.entries.as_slice())?;
        Ok(Numbered {
            entries: List::from_vec(entries),
        })
    }
}

impl RosterRecord {
    /// An equal record.
    pub fn copy(&self, alloc: Global) -> Result<RosterRecord, NoMemory>
        ensures { IfOk result (λ r. r ≡ self.now) }
    {
        Ok(match self {
            RosterRecord::Whole(entries) => RosterRecord::Whole(entries.copy(alloc)?),
            RosterRecord::Delta {
                base,
                depth,
                gone,
                changed,
            } => RosterRecord::Delta {
                base: *base,
                depth: *depth,
                gone: List::from_vec(gone.as_slice().to_vec(alloc)?),
                changed: changed.copy(alloc)?,
            },
        })
    }
}
