// The first change that fails.
ghost use Rattle.std.specs.Prelude.{◌≡◌, option_map, IfOk};
ghost use Rattle.mtn_changeset_laws.specs.Changes.{first_fault};
ghost use Rattle.mtn_apply.specs.Faults.{told};
ghost use Rattle.mtn_apply.specs.Index.{IsIndexed, old_of, changes_of};

use crate::index::Edge;
use crate::occupant::occupant_of;
use crate::why::why_of;
use mtn_base::{NoMemory, Path, Why};
use std::alloc::Global;

/// A failing change, by its number in its edge from 1 up, and its reason.
#[derive(Clone, Copy)]
pub struct Failure {
    pub number: u64,
    pub why: Why,
}

/// The first fault: that of a change, or that the root path has no occupant.
pub fn fault_of(alloc: Global, edge: &Edge) -> Result<Option<Failure>, NoMemory>
    requires { IsIndexed edge.now }
    ensures { IfOk result (λ f. option_map told f ≡ first_fault (old_of edge.now) (changes_of edge.now)) }
{
    for (at, change) in edge.all.iter().enumerate() {
        if let Some(why) = why_of(alloc, edge, at, change)? {
            let number = at as u64 + 1;
            return Ok(Some(Failure { number, why }));
        }
    }
    match occupant_of(alloc, edge, Path::root(alloc).comps())? {
        Some(_) => Ok(None),
        None => Ok(Some(Failure {
            number: edge.all.len() as u64 + 1,
            why: Why::NoRoot,
        })),
    }
}
