// The text of a revision with one edge.
ghost use Rattle.std.specs.Prelude.{◌≡◌, ◌++◌, IfOk, OnOk, map};
ghost use Rattle.mtn_base.specs.Hex.{id_of};
ghost use Rattle.mtn_basic_io.specs.Spelling.{spelling};
ghost use Rattle.mtn_changes.specs.RevisionText.{edge_stanzas};
ghost use Rattle.mtn_changes.specs.Stanzas.{stanza_of as spelled};
ghost use Rattle.mtn_generating.specs.Numbered.{text_over};
ghost use Rattle.mtn_manifest.specs.Manifest.{manifest_of};

use mtn_base::{Bytes, Id, NoMemory};
use mtn_basic_io::{Stanza, write};
use mtn_changes::{Change, Edge, Head, stanza_of, stanza_of_head};
use mtn_ports::Ident;
use mtn_roster::Roster;
use std::alloc::Global;

fn push_changes(
    alloc: Global,
    changes: &[Change],
    stanzas: &mut Vec<Stanza>,
) -> Result<(), NoMemory>
    ensures { OnOk result (stanzas.new.items ≡ stanzas.old.items ++ map spelled changes.now) }
{
    for change in changes {
        stanzas.push(stanza_of(alloc, change)?)?;
    }
    Ok(())
}

fn push_edge(alloc: Global, edge: &Edge, stanzas: &mut Vec<Stanza>) -> Result<(), NoMemory>
    ensures { OnOk result (stanzas.new.items ≡ stanzas.old.items ++ edge_stanzas edge.now) }
{
    stanzas.push(stanza_of_head(alloc, &Head::Parent { id: edge.parent })?)?;
    push_changes(alloc, edge.changes.changes.as_slice(), stanzas)
}

// The id of a tree's manifest.
fn manifest_id<I: Ident>(alloc: Global, ident: &I, tree: &Roster) -> Result<Id, NoMemory>
    ensures { IfOk result (λ id. id ≡ id_of (I.meaning ident.now (spelling (manifest_of tree.now)))) }
{
    let mut text = Vec::new(alloc);
    mtn_manifest::write(tree, &mut text)?;
    Ok(ident.id(&text))
}

/// The text of the revision that has this edge alone, and names the manifest of this tree. The changes stand in the order in which
/// they are given.
pub fn edge_text<I: Ident>(
    alloc: Global,
    ident: &I,
    edge: &Edge,
    tree: &Roster,
) -> Result<Bytes, NoMemory>
    ensures { IfOk result (λ text. text ≡ text_over (I.meaning ident.now) tree.now edge.now) }
{
    let manifest = manifest_id(alloc, ident, tree)?;
    let mut stanzas = Vec::new(alloc);
    stanzas.push(stanza_of_head(alloc, &Head::Version)?)?;
    stanzas.push(stanza_of_head(alloc, &Head::Manifest { id: manifest })?)?;
    push_edge(alloc, edge, &mut stanzas)?;
    let mut text = Vec::new(alloc);
    write(&stanzas, &mut text)?;
    Ok(Bytes::from_vec(text))
}
