//! Changes and revisions.
ghost use Rattle.std.specs.Prelude.{◌≡◌, IfOk};

use mtn_base::NoMemory;
use mtn_changes::{Change, Changeset, Edge, Revision};
use std::alloc::Global;

/// As `Change::copy`.
pub fn copy_change(change: &Change, alloc: Global) -> Result<Change, NoMemory>
    ensures { IfOk result (λ c. c ≡ change.now) }
{
    change.copy(alloc)
}

/// As `Changeset::copy`.
pub fn copy_changeset(changeset: &Changeset, alloc: Global) -> Result<Changeset, NoMemory>
    ensures { IfOk result (λ c. c ≡ changeset.now) }
{
    changeset.copy(alloc)
}

/// As `Edge::copy`.
pub fn copy_edge(edge: &Edge, alloc: Global) -> Result<Edge, NoMemory>
    ensures { IfOk result (λ e. e ≡ edge.now) }
{
    edge.copy(alloc)
}

/// As `Revision::copy`.
pub fn copy_revision(revision: &Revision, alloc: Global) -> Result<Revision, NoMemory>
    ensures { IfOk result (λ r. r ≡ revision.now) }
{
    revision.copy(alloc)
}
