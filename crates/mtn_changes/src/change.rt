// What changes a tree, and from where.
ghost use Rattle.std.specs.Prelude.{◌≡◌, IfOk};
ghost use Rattle.mtn_changes.specs.declared.change.Change.TheVariants.{Rename, Clear, Set};

use mtn_base::{Bytes, Id, List, NoMemory, Path};
use std::alloc::Global;
use std::marker::Model;

/// One change of a tree. A key is 1 to 255 bytes of UTF-8, a value any bytes.
#[derive(Drop)]
pub enum Change {
    Delete {
        path: Path,
    },
    Rename {
        path: Path,
        to: Path,
    },
    AddDir {
        path: Path,
    },
    AddFile {
        path: Path,
        content: Id,
    },
    Patch {
        path: Path,
        from: Id,
        to: Id,
    },
    Clear {
        path: Path,
        key: Bytes,
    },
    Set {
        path: Path,
        key: Bytes,
        value: Bytes,
    },
}

/// Changes in order, which contracts see as their list.
#[derive(Drop)]
pub struct Changeset {
    pub changes: List<Change>,
}

impl Model for Changeset {
    ghost use Rattle.std.specs.Prelude.{List as Seq};
    ghost use Rattle.mtn_changes.specs.declared.change.Change.{Change};

    ghost Value = { Seq Change };

    ghost view = { λ c. c.changes };
}

/// The changes from a parent; from nothing where there is none.
#[derive(Drop)]
pub struct Edge {
    pub parent: Option<Id>,
    pub changes: Changeset,
}

/// A manifest's id and the edges that lead to it.
#[derive(Drop)]
pub struct Revision {
    pub manifest: Id,
    pub edges: List<Edge>,
}

fn copy_rename(alloc: Global, path: &Path, to: &Path) -> Result<Change, NoMemory>
    ensures { IfOk result (λ c. c ≡ Rename path.now to.now) }
{
    let path = path.copy(alloc)?;
    let to = to.copy(alloc)?;
    Ok(Change::Rename { path, to })
}

fn copy_clear(alloc: Global, path: &Path, key: &Bytes) -> Result<Change, NoMemory>
    ensures { IfOk result (λ c. c ≡ Clear path.now key.now) }
{
    let path = path.copy(alloc)?;
    let key = key.copy(alloc)?;
    Ok(Change::Clear { path, key })
}

fn copy_set(alloc: Global, path: &Path, key: &Bytes, value: &Bytes) -> Result<Change, NoMemory>
    ensures { IfOk result (λ c. c ≡ Set path.now key.now value.now) }
{
    let path = path.copy(alloc)?;
    let key = key.copy(alloc)?;
    let value = value.copy(alloc)?;
    Ok(Change::Set { path, key, value })
}

impl Change {
    /// An equal change.
    pub fn copy(&self, alloc: Global) -> Result<Change, NoMemory>
        ensures { IfOk result (λ c. c ≡ self.now) }
    {
        match self {
            Change::Delete { path } => Ok(Change::Delete {
                path: path.copy(alloc)?,
            }),
            Change::Rename { path, to } => copy_rename(alloc, path, to),
            Change::AddDir { path } => Ok(Change::AddDir {
                path: path.copy(alloc)?,
            }),
            Change::AddFile { path, content } => Ok(Change::AddFile {
                path: path.copy(alloc)?,
                content: *content,
            }),
            Change::Patch { path, from, to } => Ok(Change::Patch {
                path: path.copy(alloc)?,
                from: *from,
                to: *to,
            }),
            Change::Clear { path, key } => copy_clear(alloc, path, key),
            Change::Set { path, key, value } => copy_set(alloc, path, key, value),
        }
    }
}

impl Changeset {
    /// An equal list of changes.
    pub fn copy(&self, alloc: Global) -> Result<Changeset, NoMemory>
        ensures { IfOk result (λ c. c ≡ self.now) }
    {
        Ok(Changeset {
            changes: copy_changes(alloc, self.changes.as_slice())?,
        })
    }
}

/// Equal changes in the same order.
fn copy_changes(alloc: Global, changes: &[Change]) -> Result<List<Change>, NoMemory>
    ensures { IfOk result (λ l. l ≡ changes.now) }
{
    let mut copies = List::new(alloc);
    for change in changes {
        copies.push(change.copy(alloc)?)?;
    }
    Ok(copies)
}

impl Edge {
    /// An equal edge.
    pub fn copy(&self, alloc: Global) -> Result<Edge, NoMemory>
        ensures { IfOk result (λ e. e ≡ self.now) }
    {
        Ok(Edge {
            parent: self.parent,
            changes: self.changes.copy(alloc)?,
        })
    }
}

impl Revision {
    /// An equal revision.
    pub fn copy(&self, alloc: Global) -> Result<Revision, NoMemory>
        ensures { IfOk result (λ r. r ≡ self.now) }
    {
        Ok(Revision {
            manifest: self.manifest,
            edges: copy_edges(alloc, self.edges.as_slice())?,
        })
    }
}

fn copy_edges(alloc: Global, edges: &[Edge]) -> Result<List<Edge>, NoMemory>
    ensures { IfOk result (λ l. l ≡ edges.now) }
{
    let mut copies = List::new(alloc);
    for edge in edges {
        copies.push(edge.copy(alloc)?)?;
    }
    Ok(copies)
}
