// The three stanzas that open a revision.
ghost use Rattle.std.specs.Prelude.{◌≡◌, ℕ, None, IfOk, IfErr, OnOk};
ghost use Rattle.mtn_changes.specs.Heads.{IsHeadRead, head_stanza};
ghost use Rattle.mtn_changes.specs.RevisionText.{IsHeadFault, IsStanzasFault};
ghost use Rattle.mtn_changes.specs.Runs.{IsOpening};

use crate::error::{ChangeTextError, numbered};
use crate::head::{Head, head_of};
use crate::order::Fault;
use crate::stanzas::change_of;
use mtn_base::Id;
use mtn_basic_io::Stanza;
use std::alloc::Global;

/// What the first three stanzas of a revision say.
#[derive(Clone, Copy)]
pub struct Opening {
    pub manifest: Id,
    pub parent: Option<Id>,
}

/// Why a stanza that spells no head may not stand where one has to.
fn no_head(alloc: Global, stanza: &Stanza) -> Fault
    requires { IsHeadRead stanza.now None }
    ensures { (r : ℕ) → IsHeadFault r stanza.now result }
{
    match change_of(alloc, stanza) {
        Ok(Some(_)) => Fault::BadOrder,
        Ok(None) => Fault::BadStanza,
        Err(_) => Fault::NoMemory,
    }
}

fn version_at(alloc: Global, stanza: &Stanza) -> Result<(), Fault>
    ensures ok { OnOk result (stanza.now ≡ head_stanza Head.Version) }
    ensures err { IfErr result (λ e. IsHeadFault 1 stanza.now e) }
{
    match head_of(stanza) {
        Some(Head::Version) => Ok(()),
        Some(Head::Manifest { id: _ }) => Err(Fault::BadOrder),
        Some(Head::Parent { id: _ }) => Err(Fault::BadOrder),
        None => Err(no_head(alloc, stanza)),
    }
}

fn manifest_at(alloc: Global, stanza: &Stanza) -> Result<Id, Fault>
    ensures ok { IfOk result (λ id. stanza.now ≡ head_stanza (Head.Manifest id)) }
    ensures err { IfErr result (λ e. IsHeadFault 2 stanza.now e) }
{
    match head_of(stanza) {
        Some(Head::Version) => Err(Fault::BadOrder),
        Some(Head::Manifest { id }) => Ok(id),
        Some(Head::Parent { id: _ }) => Err(Fault::BadOrder),
        None => Err(no_head(alloc, stanza)),
    }
}

fn parent_at(alloc: Global, stanza: &Stanza) -> Result<Option<Id>, Fault>
    ensures ok { IfOk result (λ id. stanza.now ≡ head_stanza (Head.Parent id)) }
    ensures err { IfErr result (λ e. IsHeadFault 3 stanza.now e) }
{
    match head_of(stanza) {
        Some(Head::Version) => Err(Fault::BadOrder),
        Some(Head::Manifest { id: _ }) => Err(Fault::BadOrder),
        Some(Head::Parent { id }) => Ok(id),
        None => Err(no_head(alloc, stanza)),
    }
}

/// Reads `format_version`, `new_manifest` and the first `old_revision`.
pub fn opening_of(alloc: Global, stanzas: &[Stanza]) -> Result<Opening, ChangeTextError>
    ensures ok { IfOk result (λ o. IsOpening stanzas.now o.manifest o.parent) }
    ensures err { IfErr result (λ e. IsStanzasFault stanzas.now e) }
{
    if stanzas.is_empty() {
        return Err(ChangeTextError::BadOrder { number: 1 });
    }
    if let Err(fault) = version_at(alloc, &stanzas[0]) {
        return Err(numbered(fault, 1));
    }
    if stanzas.len() == 1 {
        return Err(ChangeTextError::BadOrder { number: 2 });
    }
    let manifest = match manifest_at(alloc, &stanzas[1]) {
        Ok(id) => id,
        Err(fault) => return Err(numbered(fault, 2)),
    };
    if stanzas.len() == 2 {
        return Err(ChangeTextError::BadOrder { number: 3 });
    }
    match parent_at(alloc, &stanzas[2]) {
        Ok(parent) => Ok(Opening { manifest, parent }),
        Err(fault) => Err(numbered(fault, 3)),
    }
}
