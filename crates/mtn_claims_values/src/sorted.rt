//! Changes and revisions in the writer's order.
ghost use Rattle.std.specs.Prelude.{◌≡◌, IfErr, IfOk};
ghost use Rattle.mtn_changes.specs.ChangesText.{AreChanges};
ghost use Rattle.mtn_changes.specs.RevisionText.{AreEdges};
ghost use Rattle.mtn_changes.specs.Sorting.{AreSortedAs, AreUnsorted, AreUnsortedEdges, IsSortedAs};
ghost use Rattle.mtn_changes.specs.declared.error.ChangeTextError.TheVariants.{NoMemory};

use mtn_changes::{ChangeTextError, Changeset, Revision};
use std::alloc::Global;

/// As `mtn_changes::sorted_changes`.
pub fn sorted_changes(alloc: Global, changes: &Changeset) -> Result<Changeset, ChangeTextError>
    requires { AreUnsorted changes.now }
    ensures sorted { IfOk result (λ cs. IsSortedAs changes.now cs) }
    ensures lawful { IfOk result (λ cs. AreChanges cs) }
    ensures memory { IfErr result (λ e. e ≡ NoMemory) }
{
    mtn_changes::sorted_changes(alloc, changes)
}

/// As `mtn_changes::sorted_revision`.
pub fn sorted_revision(alloc: Global, revision: &Revision) -> Result<Revision, ChangeTextError>
    requires { AreUnsortedEdges revision.now.edges }
    ensures manifest { IfOk result (λ r. r.manifest ≡ revision.now.manifest) }
    ensures edges { IfOk result (λ r. AreSortedAs revision.now.edges r.edges) }
    ensures lawful { IfOk result (λ r. AreEdges r.edges) }
    ensures memory { IfErr result (λ e. e ≡ NoMemory) }
{
    mtn_changes::sorted_revision(alloc, revision)
}
