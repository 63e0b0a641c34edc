// The changes of a revision with one edge.
ghost use Rattle.std.specs.Prelude.{◌≡◌, ◌++◌, ◌-◌, ◌∷◌, [], IfOk, OnOk, codes, decimal, map};
ghost use Rattle.mtn_changes.specs.declared.change.Change.TheVariants.{AddDir, AddFile, Patch, Rename, Set};
ghost use Rattle.mtn_generated.specs.Numbered.{changes_of as changes_in, content_of, directory_at, edge_of as edge_in, file_at as file_in, path_at};
ghost use Rattle.mtn_generated.specs.Numbered.Work.{Begins};
ghost use Rattle.mtn_generating.specs.Numbered.{tips_of, work_of};

use crate::files::TEN;
use crate::names::{directory_path, file_path, file_text};
use crate::work::{Tips, Work, file_at, parent_of};
use mtn_base::{Bytes, Id, List, NoMemory, Path};
use mtn_changes::{Change, Changeset, Edge};
use mtn_ports::Ident;
use std::alloc::Global;

// The id of what a revision makes of a file.
fn content<I: Ident>(alloc: Global, ident: &I, file: u64, revision: u64) -> Result<Id, NoMemory>
    ensures { IfOk result (λ id. id ≡ content_of (I.meaning ident.now) file revision) }
{
    let text = file_text(alloc, file, revision)?;
    Ok(ident.id(text.as_slice()))
}

// Adds files, each with its first content.
fn push_files<I: Ident>(
    alloc: Global,
    ident: &I,
    revision: u64,
    files: &[u64],
    changes: &mut Vec<Change>,
) -> Result<(), NoMemory>
    ensures { OnOk result (changes.new.items ≡ changes.old.items ++ map (λ j. AddFile (path_at revision j) (content_of (I.meaning ident.now) j 0)) files.now) }
{
    for file in files {
        changes.push(Change::AddFile {
            path: file_path(alloc, revision, *file)?,
            content: content(alloc, ident, *file, 0)?,
        })?;
    }
    Ok(())
}

// The root, the directory and its files.
fn begins<I: Ident>(alloc: Global, ident: &I, revision: u64) -> Result<Vec<Change>, NoMemory>
    ensures { IfOk result (λ changes. changes.items ≡ changes_in (I.meaning ident.now) revision Begins) }
{
    let mut changes = Vec::new(alloc);
    changes.push(Change::AddDir {
        path: Path::root(alloc),
    })?;
    changes.push(Change::AddDir {
        path: directory_path(alloc, revision)?,
    })?;
    push_files(alloc, ident, revision, &TEN, &mut changes)?;
    Ok(changes)
}

fn patch<I: Ident>(alloc: Global, ident: &I, revision: u64) -> Result<Change, NoMemory>
    ensures { IfOk result (λ change. change ≡ Patch (path_at revision (file_in revision)) (content_of (I.meaning ident.now) (file_in revision) (revision - 40)) (content_of (I.meaning ident.now) (file_in revision) revision)) }
{
    let file = file_at(revision);
    Ok(Change::Patch {
        path: file_path(alloc, revision, file)?,
        from: content(alloc, ident, file, revision.saturating_sub(40))?,
        to: content(alloc, ident, file, revision)?,
    })
}

fn set(alloc: Global, revision: u64) -> Result<Change, NoMemory>
    ensures { IfOk result (λ change. change ≡ Set (path_at revision (file_in revision)) (codes "gen:step") (decimal revision)) }
{
    Ok(Change::Set {
        path: file_path(alloc, revision, file_at(revision))?,
        key: Bytes::from_slice(alloc, b"gen:step")?,
        value: Bytes::from_slice(alloc, revision.to_string(alloc)?.as_bytes())?,
    })
}

fn rename(alloc: Global, revision: u64) -> Result<Change, NoMemory>
    ensures { IfOk result (λ change. change ≡ Rename (directory_at (revision - 1) ∷ []) (directory_at revision ∷ [])) }
{
    Ok(Change::Rename {
        path: directory_path(alloc, revision.saturating_sub(1))?,
        to: directory_path(alloc, revision)?,
    })
}

// One change alone.
fn one(alloc: Global, change: Change) -> Result<Vec<Change>, NoMemory>
    ensures { IfOk result (λ changes. changes.items ≡ change ∷ []) }
{
    let mut changes = Vec::new(alloc);
    changes.push(change)?;
    Ok(changes)
}

fn changes_of<I: Ident>(
    alloc: Global,
    ident: &I,
    revision: u64,
    work: Work,
) -> Result<Vec<Change>, NoMemory>
    ensures { IfOk result (λ changes. changes.items ≡ changes_in (I.meaning ident.now) revision (work_of work)) }
{
    match work {
        Work::Begins => begins(alloc, ident, revision),
        Work::Patches => one(alloc, patch(alloc, ident, revision)?),
        Work::Sets => one(alloc, set(alloc, revision)?),
        Work::Renames => one(alloc, rename(alloc, revision)?),
        Work::Joins => Ok(Vec::new(alloc)),
    }
}

/// The edge of a revision over the tips.
pub fn edge_of<I: Ident>(
    alloc: Global,
    ident: &I,
    revision: u64,
    work: Work,
    tips: &Tips,
) -> Result<Edge, NoMemory>
    ensures { IfOk result (λ edge. edge ≡ edge_in (I.meaning ident.now) revision (work_of work) (tips_of tips.now)) }
{
    let changes = changes_of(alloc, ident, revision, work)?;
    Ok(Edge {
        parent: parent_of(work, tips),
        changes: Changeset {
            changes: List::from_vec(changes),
        },
    })
}
