// Texts of changes.
ghost use Rattle.std.specs.Prelude.{◌≡◌, map, IfOk, IfErr};
ghost use Rattle.mtn_basic_io.specs.Spelling.{AreStanzas};
ghost use Rattle.mtn_changes.specs.ChangesText.{IsChangesFault, IsChangesText, IsList, IsListFault};
ghost use Rattle.mtn_changes.specs.Stanzas.{stanza_of};

use crate::change::{Change, Changeset};
use crate::error::{ChangeTextError, numbered, of_text};
use crate::lawful::{Run, lawful_run};
use crate::order::Part;
use mtn_base::List;
use mtn_basic_io::{Stanza, read};
use std::alloc::Global;

fn list_of(alloc: Global, stanzas: &[Stanza]) -> Result<List<Change>, ChangeTextError>
    ensures ok { IfOk result (λ cs. IsList stanzas.now cs) }
    ensures err { IfErr result (λ e. IsListFault stanzas.now e) }
{
    let mut part = Part::new(alloc);
    for (at, stanza) in stanzas.iter().enumerate() {
        if let Err(fault) = part.add(alloc, stanza) {
            return Err(numbered(fault, at as u64 + 1));
        }
    }
    Ok(part.into_changes())
}

/// The same: lawful changes are read with no set, and where they are none the exact pass decides.
fn list_in(alloc: Global, stanzas: &[Stanza]) -> Result<List<Change>, ChangeTextError>
    ensures ok { IfOk result (λ cs. IsList stanzas.now cs) }
    ensures err { IfErr result (λ e. IsListFault stanzas.now e) }
{
    if let Some(Run { changes, next }) = lawful_run(alloc, stanzas)? {
        if next.is_none() {
            return Ok(changes);
        }
    }
    list_of(alloc, stanzas)
}

/// The changes of one edge that a text spells, in its order.
pub fn read_changes(alloc: Global, text: &[u8]) -> Result<Changeset, ChangeTextError>
    ensures ok { IfOk result (λ cs. IsChangesText text.now cs) }
    // Its ids are twenty bytes, so no other value has this text.
    ensures stanzas { IfOk result (λ cs. AreStanzas (map stanza_of cs)) }
    ensures err { IfErr result (λ e. IsChangesFault text.now e) }
{
    let stanzas = match read(alloc, text) {
        Ok(stanzas) => stanzas,
        Err(error) => return Err(of_text(error)),
    };
    let changes = list_in(alloc, stanzas.as_slice())?;
    Ok(Changeset { changes })
}
