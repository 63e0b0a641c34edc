// Entries of a tree under numbers.
ghost use Rattle.std.specs.Prelude.{◌≡◌};
ghost use Rattle.mtn_records.specs.Entries.{is_file};

use mtn_ancestry::{Pos, PosSet};
use mtn_base::{Bytes, Id, List, NodeName, ShortBytes};
use std::marker::Model;

/// An attribute and its marks; a value of None is cleared.
#[derive(Drop)]
pub struct NumberedAttr {
    pub key: Bytes,
    pub value: Option<Bytes>,
    pub marks: PosSet,
}

/// A directory, or a file with its content and the marks of that.
pub enum NumberedBody {
    Dir,
    File { content: Id, marks: PosSet },
}

// By hand, so that whoever drops a body calls this, and no proof above knows of two cases.
impl Drop for NumberedBody {
    fn drop(self) {
        match self {
            NumberedBody::Dir => {}
            NumberedBody::File { content: _, marks } => drop(marks),
        }
    }
}

/// A node under a number: where its birth stands in the log, its name, the number of its parent (0 for the root
/// slot) and its name below it (empty for the root slot), the marks of that, its body and its attributes.
#[derive(Drop)]
pub struct NumberedEntry {
    pub number: u64,
    pub birth_at: Pos,
    pub node: NodeName,
    pub parent: u64,
    pub name: ShortBytes,
    pub slot_marks: PosSet,
    pub body: NumberedBody,
    pub attrs: List<NumberedAttr>,
}

/// Entries by ascending numbers, which contracts see as their list.
#[derive(Drop)]
pub struct Numbered {
    pub entries: List<NumberedEntry>,
}

impl Model for Numbered {
    ghost use Rattle.std.specs.Prelude.{List as Seq};
    ghost use Rattle.mtn_records.specs.declared.entry.NumberedEntry.{NumberedEntry};

    ghost Value = { Seq NumberedEntry };

    ghost view = { λ n. n.entries };
}

impl NumberedBody {
    /// Whether it is a file.
    pub fn is_file(&self) -> bool
        ensures { result ≡ is_file self.now }
    {
        matches!(self, NumberedBody::File { .. })
    }
}
