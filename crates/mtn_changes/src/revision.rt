// Texts of revisions.
ghost use Rattle.std.specs.Prelude.{◌≡◌, ◌<◌, ◌+◌, ◌^◌, ◌↔◌, length, IfOk, IfErr, IsTrue};
ghost use Rattle.mtn_basic_io.specs.Spelling.{AreStanzas};
ghost use Rattle.mtn_changes.specs.RevisionText.{Ascend, IsRevision, IsRevisionFault, IsRevisionText, IsStanzasFault, revision_stanzas};
ghost use Rattle.mtn_changes.specs.Runs.{IsRun, IsRunFault, IsSecond, IsSecondFault};

use crate::change::{Changeset, Edge, Revision};
use crate::error::{ChangeTextError, numbered, of_text};
use crate::head::parent_in;
use crate::lawful::{Run, lawful_run};
use crate::opening::{Opening, opening_of};
use crate::order::Part;
use mtn_base::{Id, List};
use mtn_basic_io::{Stanza, read};
use std::alloc::Global;
use std::cmp::Ordering;

/// The changes at the front of the stanzas, which stand behind so many others.
fn run_of(alloc: Global, stanzas: &[Stanza], from: usize) -> Result<Run, ChangeTextError>
    requires { from + length stanzas.now < 2 ^ 64 }
    ensures ok { IfOk result (λ r. IsRun stanzas.now r.changes r.next) }
    ensures err { IfErr result (λ e. IsRunFault stanzas.now from e) }
{
    let mut part = Part::new(alloc);
    for (at, stanza) in stanzas.iter().enumerate() {
        if let Some(parent) = parent_in(stanza) {
            let changes = part.into_changes();
            return Ok(Run {
                changes,
                next: Some(parent),
            });
        }
        if let Err(fault) = part.add(alloc, stanza) {
            return Err(numbered(fault, (from + at) as u64 + 1));
        }
    }
    let changes = part.into_changes();
    Ok(Run {
        changes,
        next: None,
    })
}

/// The same: lawful changes are read with no set, and where they are none the exact pass decides.
fn run_in(alloc: Global, stanzas: &[Stanza], from: usize) -> Result<Run, ChangeTextError>
    requires { from + length stanzas.now < 2 ^ 64 }
    ensures ok { IfOk result (λ r. IsRun stanzas.now r.changes r.next) }
    ensures err { IfErr result (λ e. IsRunFault stanzas.now from e) }
{
    if let Some(run) = lawful_run(alloc, stanzas)? {
        return Ok(run);
    }
    run_of(alloc, stanzas, from)
}

/// Both parents are there, and the second follows the first.
fn ascend(first: Option<Id>, second: Option<Id>) -> bool
    ensures { IsTrue result ↔ Ascend first second }
{
    match (first, second) {
        (Some(first), Some(second)) => match first.as_slice().cmp(second.as_slice()) {
            Ordering::Less => true,
            Ordering::Equal => false,
            Ordering::Greater => false,
        },
        _ => false,
    }
}

/// The second edge, whose `old_revision` is the last of so many stanzas before these.
fn second_of(
    alloc: Global,
    stanzas: &[Stanza],
    from: usize,
    first: Option<Id>,
    parent: Option<Id>,
) -> Result<Edge, ChangeTextError>
    requires { from + length stanzas.now < 2 ^ 64 }
    ensures ok { IfOk result (λ e. IsSecond stanzas.now first parent e) }
    ensures err { IfErr result (λ e. IsSecondFault stanzas.now from first parent e) }
{
    if !ascend(first, parent) {
        return Err(ChangeTextError::BadEdge {
            number: from as u64,
        });
    }
    let Run { changes, next } = run_in(alloc, stanzas, from)?;
    if let Some(_) = next {
        let number = (from + changes.as_slice().len()) as u64 + 1;
        return Err(ChangeTextError::BadOrder { number });
    }
    let changes = Changeset { changes };
    Ok(Edge { parent, changes })
}

fn revision_of(alloc: Global, stanzas: &[Stanza]) -> Result<Revision, ChangeTextError>
    ensures ok { IfOk result (λ r. IsRevision stanzas.now r) }
    ensures err { IfErr result (λ e. IsStanzasFault stanzas.now e) }
{
    let Opening { manifest, parent } = opening_of(alloc, stanzas)?;
    let Run { changes, next } = run_in(alloc, &stanzas[3..], 3)?;
    let end = 3 + changes.as_slice().len();
    let changes = Changeset { changes };
    let mut edges = List::new(alloc);
    edges.push(Edge { parent, changes })?;
    let Some(next) = next else {
        return Ok(Revision { manifest, edges });
    };
    edges.push(second_of(alloc, &stanzas[end + 1..], end + 1, parent, next)?)?;
    Ok(Revision { manifest, edges })
}

/// The revision that a text spells, with each edge's changes in the text's order.
pub fn read_revision(alloc: Global, text: &[u8]) -> Result<Revision, ChangeTextError>
    ensures ok { IfOk result (λ r. IsRevisionText text.now r) }
    // Its ids are twenty bytes, so no other value has this text.
    ensures stanzas { IfOk result (λ r. AreStanzas (revision_stanzas r)) }
    ensures err { IfErr result (λ e. IsRevisionFault text.now e) }
{
    let stanzas = match read(alloc, text) {
        Ok(stanzas) => stanzas,
        Err(error) => return Err(of_text(error)),
    };
    revision_of(alloc, stanzas.as_slice())
}
