// Writes texts of changes and of revisions.
ghost use Rattle.std.specs.Prelude.{◌≡◌, ◌++◌, ◌∷◌, map, OnOk, OnErr};
ghost use Rattle.mtn_changes.specs.Heads.{head_stanza};
ghost use Rattle.mtn_changes.specs.Sorting.{AreUnsorted, AreUnsortedEdges, EdgeWritten, EdgesWritten, WritesChanges, WritesRevision};
ghost use Rattle.mtn_changes.specs.Stanzas.{stanza_of as spelled};

use crate::change::{Change, Changeset, Edge, Revision};
use crate::head::{Head, stanza_of_head};
use crate::sorting::sorted_of;
use crate::stanzas::stanza_of;
use mtn_base::NoMemory;
use mtn_basic_io::{Stanza, write};
use std::alloc::Global;

fn push_changes(
    alloc: Global,
    changes: &[&Change],
    stanzas: &mut Vec<Stanza>,
) -> Result<(), NoMemory>
    ensures { OnOk result (stanzas.new.items ≡ stanzas.old.items ++ map spelled (map (λ b. b.now) changes.now)) }
{
    for change in changes {
        stanzas.push(stanza_of(alloc, change)?)?;
    }
    Ok(())
}

/// Appends the text of the changes, sorted by rank, path and key. An `Err` leaves `out` as it was.
pub fn write_changes(alloc: Global, changes: &Changeset, out: &mut Vec<u8>) -> Result<(), NoMemory>
    requires { AreUnsorted changes.now }
    ensures ok { OnOk result (WritesChanges out.old.items changes.now out.new.items) }
    ensures err { OnErr result (out.new.items ≡ out.old.items) }
{
    let sorted = sorted_of(alloc, changes.changes.as_slice())?;
    let mut stanzas = Vec::new(alloc);
    push_changes(alloc, sorted.as_slice(), &mut stanzas)?;
    write(stanzas.as_slice(), out)?;
    Ok(())
}

fn push_edge(alloc: Global, edge: &Edge, stanzas: &mut Vec<Stanza>) -> Result<(), NoMemory>
    ensures { OnOk result (EdgeWritten stanzas.old.items edge.now stanzas.new.items) }
{
    stanzas.push(stanza_of_head(alloc, &Head::Parent { id: edge.parent })?)?;
    let sorted = sorted_of(alloc, edge.changes.changes.as_slice())?;
    push_changes(alloc, sorted.as_slice(), stanzas)
}

fn push_edges(alloc: Global, edges: &[Edge], stanzas: &mut Vec<Stanza>) -> Result<(), NoMemory>
    ensures { OnOk result (EdgesWritten stanzas.old.items edges.now stanzas.new.items) }
{
    for edge in edges {
        push_edge(alloc, edge, stanzas)?;
    }
    Ok(())
}

/// Appends the text of the revision, the changes of each edge sorted by rank, path and key. An `Err`
/// leaves `out` as it was.
pub fn write_revision(alloc: Global, revision: &Revision, out: &mut Vec<u8>) -> Result<(), NoMemory>
    requires { AreUnsortedEdges revision.now.edges }
    ensures ok { OnOk result (WritesRevision out.old.items revision.now out.new.items) }
    ensures err { OnErr result (out.new.items ≡ out.old.items) }
{
    let mut stanzas = Vec::new(alloc);
    stanzas.push(stanza_of_head(alloc, &Head::Version)?)?;
    let manifest = Head::Manifest {
        id: revision.manifest,
    };
    stanzas.push(stanza_of_head(alloc, &manifest)?)?;
    push_edges(alloc, revision.edges.as_slice(), &mut stanzas)?;
    write(stanzas.as_slice(), out)?;
    Ok(())
}
