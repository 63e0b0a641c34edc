// The marks of a node's scalars.
ghost use Rattle.std.specs.Prelude.{◌≡◌, IfOk};

use mtn_ancestry::{Pos, PosSet};
use mtn_base::{Bytes, List, NoMemory, NodeName};
use std::alloc::Global;

/// The marks of an attribute.
#[derive(Drop)]
pub struct AttrMarks {
    pub key: Bytes,
    pub marks: PosSet,
}

/// The position of a node's birth and the marks of its scalars: a directory has none of a content, and the
/// keys of attributes ascend by bytes where the marking is one of a roster's node.
#[derive(Drop)]
pub struct Marking {
    pub birth: Pos,
    pub slot: PosSet,
    pub content: Option<PosSet>,
    pub attrs: List<AttrMarks>,
}

/// A node and its marking.
#[derive(Drop)]
pub struct NodeMarks {
    pub name: NodeName,
    pub marking: Marking,
}

impl AttrMarks {
    /// Equal marks, which share the set.
    pub fn copy(&self, alloc: Global) -> Result<AttrMarks, NoMemory>
        ensures { IfOk result (λ marks. marks ≡ self.now) }
    {
        Ok(AttrMarks {
            key: self.key.copy(alloc)?,
            marks: self.marks.copy()?,
        })
    }
}

impl Marking {
    /// An equal marking, which shares the sets.
    pub fn copy(&self, alloc: Global) -> Result<Marking, NoMemory>
        ensures { IfOk result (λ marking. marking ≡ self.now) }
    {
        Ok(Marking {
            birth: self.birth,
            slot: self.slot.copy()?,
            content: copy_content(&self.content)?,
            attrs: List::from_vec(copy_attr_marks(alloc, self.attrs.as_slice())?),
        })
    }
}

impl NodeMarks {
    /// An equal name and marking.
    pub fn copy(&self, alloc: Global) -> Result<NodeMarks, NoMemory>
        ensures { IfOk result (λ node. node ≡ self.now) }
    {
        Ok(NodeMarks {
            name: self.name.copy(alloc)?,
            marking: self.marking.copy(alloc)?,
        })
    }
}

fn copy_content(marks: &Option<PosSet>) -> Result<Option<PosSet>, NoMemory>
    ensures { IfOk result (λ m. m ≡ marks.now) }
{
    match marks {
        None => Ok(None),
        Some(marks) => Ok(Some(marks.copy()?)),
    }
}

fn copy_attr_marks(alloc: Global, attrs: &[AttrMarks]) -> Result<Vec<AttrMarks>, NoMemory>
    ensures { IfOk result (λ copies. copies.items ≡ attrs.now) }
{
    let mut copies = Vec::with_capacity(alloc, attrs.len())?;
    for attr in attrs {
        copies.push(attr.copy(alloc)?)?;
    }
    Ok(copies)
}
