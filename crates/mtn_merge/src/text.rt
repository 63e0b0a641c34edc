// The text of a merge.
ghost use Rattle.std.specs.Prelude.{◌≡◌, ◌++◌, map, IfOk, OnOk, Some};
ghost use Rattle.mtn_basic_io.specs.Spelling.{AreStanzas, spelling};
ghost use Rattle.mtn_between.specs.Between.{between as between_trees};
ghost use Rattle.mtn_changes.specs.RevisionText.{edge_stanzas, revision_stanzas};
ghost use Rattle.mtn_changes.specs.Stanzas.{stanza_of as spelled};
ghost use Rattle.mtn_manifest.specs.Manifest.{manifest_of};
ghost use Rattle.mtn_merge.specs.Plans.{revision_of_sides, text_of_sides};

use mtn_base::{Bytes, Id, NoMemory};
use mtn_basic_io::{Stanza, write};
use mtn_between::between;
use mtn_changes::{Change, Head, stanza_of, stanza_of_head};
use mtn_ports::Ident;
use mtn_roster::Roster;
use std::alloc::Global;

fn push_changes(
    alloc: Global,
    changes: &[Change],
    stanzas: &mut Vec<Stanza>,
) -> Result<(), NoMemory>
    ensures { OnOk result (stanzas.new.items ≡ stanzas.old.items ++ map spelled changes.now) }
{
    for change in changes {
        stanzas.push(stanza_of(alloc, change)?)?;
    }
    Ok(())
}

/// Appends the edge from a parent: its canonical changeset, which is in the order of the text.
fn push_edge(
    alloc: Global,
    parent: Id,
    old: &Roster,
    new: &Roster,
    stanzas: &mut Vec<Stanza>,
) -> Result<(), NoMemory>
    ensures { OnOk result (stanzas.new.items ≡ stanzas.old.items ++ edge_stanzas (record { parent = Some parent; changes = between_trees old.now new.now })) }
{
    let changes = between(alloc, old, new)?;
    stanzas.push(stanza_of_head(alloc, &Head::Parent { id: Some(parent) })?)?;
    push_changes(alloc, changes.changes.as_slice(), stanzas)
}

/// The id of a tree's manifest.
fn manifest_id<I: Ident>(alloc: Global, ident: &I, roster: &Roster) -> Result<Id, NoMemory>
    ensures { IfOk result (λ id. id.0 ≡ I.meaning ident.now (spelling (manifest_of roster.now))) }
{
    let mut text = Vec::new(alloc);
    mtn_manifest::write(roster, &mut text)?;
    Ok(ident.id(&text))
}

/// A parent and its tree.
#[derive(Clone, Copy)]
pub struct Parent<'a> {
    pub id: Id,
    pub tree: &'a Roster,
}

/// The text of a revision of this tree, with the canonical changesets from both parents.
pub fn revision_text<I: Ident>(
    alloc: Global,
    ident: &I,
    left: &Parent<'_>,
    right: &Parent<'_>,
    merged: &Roster,
) -> Result<Bytes, NoMemory>
    ensures text { IfOk result (λ text. text ≡ text_of_sides (I.meaning ident.now) left.now.id left.now.tree.now right.now.id right.now.tree.now merged.now) }
    ensures stanzas { OnOk result (AreStanzas (revision_stanzas (revision_of_sides (I.meaning ident.now) left.now.id left.now.tree.now right.now.id right.now.tree.now merged.now))) }
{
    let manifest = manifest_id(alloc, ident, merged)?;
    let mut stanzas = Vec::new(alloc);
    stanzas.push(stanza_of_head(alloc, &Head::Version)?)?;
    stanzas.push(stanza_of_head(alloc, &Head::Manifest { id: manifest })?)?;
    push_edge(alloc, left.id, left.tree, merged, &mut stanzas)?;
    push_edge(alloc, right.id, right.tree, merged, &mut stanzas)?;
    let mut text = Vec::new(alloc);
    write(&stanzas, &mut text)?;
    Ok(Bytes::from_vec(text))
}
