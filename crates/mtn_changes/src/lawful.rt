// Edges of lawful changes, read without a set of what they change.
ghost use Rattle.std.specs.Prelude.{◌≡◌, IfOk, IfSome};
ghost use Rattle.mtn_changes.specs.Targets.{AreApart};
ghost use Rattle.mtn_changes.specs.Runs.{IsRun};

use crate::apart::are_apart;
use crate::change::Change;
use crate::head::parent_in;
use crate::order::rank;
use crate::stanzas::change_of;
use mtn_base::{Id, List, NoMemory};
use mtn_basic_io::Stanza;
use std::alloc::Global;

/// The changes of one edge, and the parent of the next one where one follows.
#[derive(Drop)]
pub struct Run {
    pub changes: List<Change>,
    pub next: Option<Option<Id>>,
}

fn where_apart(
    alloc: Global,
    changes: List<Change>,
    next: Option<Option<Id>>,
) -> Result<Option<Run>, NoMemory>
    ensures { IfOk result (λ o. IfSome o (λ r. AreApart changes × (r.changes ≡ changes) × (r.next ≡ next))) }
{
    if !are_apart(alloc, changes.as_slice())? {
        return Ok(None);
    }
    Ok(Some(Run { changes, next }))
}

/// The changes at the front of the stanzas, only where they are lawful up to the next `old_revision`
/// or the end. None says nothing: the exact reader finds the first fault.
pub fn lawful_run(alloc: Global, stanzas: &[Stanza]) -> Result<Option<Run>, NoMemory>
    ensures { IfOk result (λ o. IfSome o (λ r. IsRun stanzas.now r.changes r.next)) }
{
    let mut changes = List::new(alloc);
    let mut last = 0;
    for stanza in stanzas {
        if let Some(parent) = parent_in(stanza) {
            return where_apart(alloc, changes, Some(parent));
        }
        let Some(change) = change_of(alloc, stanza)? else {
            return Ok(None);
        };
        let rank = rank(&change);
        if rank < last {
            return Ok(None);
        }
        changes.push(change)?;
        last = rank;
    }
    where_apart(alloc, changes, None)
}
