// The stanzas of a revision that are no changes.
ghost use Rattle.std.specs.Prelude.{◌≡◌, IfOk};
ghost use Rattle.mtn_changes.specs.Heads.{IsHeadRead, IsHeadReadOf, IsParentRead, head_stanza};

use crate::lines::{id_of, parent_of, text_of};
use mtn_base::{Id, NoMemory};
use mtn_basic_io::{Line, Stanza, Value};
use std::alloc::Global;

/// A stanza of a revision that is no change.
#[derive(Clone, Copy, PartialEq, Eq)]
pub enum Head {
    /// `format_version "1"`.
    Version,
    /// `new_manifest [id]`.
    Manifest { id: Id },
    /// `old_revision [id]`; without an id where there is no parent.
    Parent { id: Option<Id> },
}

fn version_in(stanza: &Stanza) -> Option<Head>
    ensures { IsHeadReadOf 1 stanza.now result }
{
    let [line] = stanza.lines.as_slice() else {
        return None;
    };
    let Some([b'1']) = text_of(line, b"format_version") else {
        return None;
    };
    Some(Head::Version)
}

fn manifest_in(stanza: &Stanza) -> Option<Head>
    ensures { IsHeadReadOf 2 stanza.now result }
{
    let [line] = stanza.lines.as_slice() else {
        return None;
    };
    let Some(id) = id_of(line, b"new_manifest") else {
        return None;
    };
    Some(Head::Manifest { id })
}

/// The parent that an `old_revision` names; None where the stanza is none.
pub fn parent_in(stanza: &Stanza) -> Option<Option<Id>>
    ensures { IsParentRead stanza.now result }
{
    let [line] = stanza.lines.as_slice() else {
        return None;
    };
    parent_of(line, b"old_revision")
}

fn parent_head_in(stanza: &Stanza) -> Option<Head>
    ensures { IsHeadReadOf 3 stanza.now result }
{
    match parent_in(stanza) {
        Some(id) => Some(Head::Parent { id }),
        None => None,
    }
}

/// The head that a stanza spells; None exactly where it spells none. It takes no memory.
pub fn head_of(stanza: &Stanza) -> Option<Head>
    ensures { IsHeadRead stanza.now result }
{
    let version = version_in(stanza);
    if version.is_some() {
        return version;
    }
    let manifest = manifest_in(stanza);
    if manifest.is_some() {
        return manifest;
    }
    parent_head_in(stanza)
}

/// The stanza of a head.
pub fn stanza_of_head(alloc: Global, head: &Head) -> Result<Stanza, NoMemory>
    ensures { IfOk result (λ s. s ≡ head_stanza head.now) }
{
    let line = match head {
        Head::Version => Line::new(alloc, b"format_version", Value::text(alloc, b"1")?)?,
        Head::Manifest { id } => Line::new(alloc, b"new_manifest", Value::Hex(Some(*id)))?,
        Head::Parent { id } => Line::new(alloc, b"old_revision", Value::Hex(*id))?,
    };
    Stanza::new(alloc, line)
}
