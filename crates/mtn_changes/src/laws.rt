// Laws of lists of changes and of their texts, for callers that prove.
ghost use Rattle.std.specs.Prelude.{◌≡◌, ◌≢◌, ℕ, List as Seq, map, IfErr, IfOk};
ghost use Rattle.mtn_basic_io.specs.Spelling.{AreStanzas};
ghost use Rattle.mtn_changes.specs.declared.change.Change.{Change};
ghost use Rattle.mtn_changes.specs.declared.change.Edge.{Edge};
ghost use Rattle.mtn_changes.specs.declared.change.Revision.{Revision};
ghost use Rattle.mtn_changes.specs.declared.error.ChangeTextError.{ChangeTextError};
ghost use Rattle.mtn_changes.specs.declared.error.ChangeTextError.TheVariants.{NoMemory};
ghost use Rattle.mtn_changes.specs.ChangesText.{AreChanges, IsChangesText, IsChangesFault};
ghost use Rattle.mtn_changes.specs.RevisionText.{AreEdges, IsRevisionText, IsRevisionFault, revision_stanzas};
ghost use Rattle.mtn_changes.specs.Sorting.{AreSortedAs, AreUnsorted, AreUnsortedEdges, IsSortedAs};
ghost use Rattle.mtn_changes.specs.Stanzas.{stanza_of};

use crate::change::{Changeset, Revision};
use crate::error::ChangeTextError;
use crate::reading::read_changes;
use crate::revision::read_revision;
use crate::writing::{write_changes, write_revision};
use std::alloc::Global;

/// What was read may be written: lawful changes and edges are so apart from order.
pub fn lawful_in_any_order()
    ensures changes { (changes : Seq Change) → AreChanges changes → AreUnsorted changes }
    ensures edges { (edges : Seq Edge) → AreEdges edges → AreUnsortedEdges edges }
{}

/// A text spells one value, among those whose ids are twenty bytes each, so that their stanzas are stanzas.
pub fn one_value()
    ensures changes { (text : Seq ℕ) (a b : Seq Change) → AreStanzas (map stanza_of a) → AreStanzas (map stanza_of b) → IsChangesText text a → IsChangesText text b → a ≡ b }
    ensures revision { (text : Seq ℕ) (a b : Revision) → AreStanzas (revision_stanzas a) → AreStanzas (revision_stanzas b) → IsRevisionText text a → IsRevisionText text b → a ≡ b }
{}

/// A text that spells a value is not refused: only want of memory keeps a reader from answering it.
pub fn lawful_is_read()
    ensures changes { (text : Seq ℕ) (a : Seq Change) (e : ChangeTextError) → AreStanzas (map stanza_of a) → IsChangesText text a → IsChangesFault text e → e ≡ NoMemory }
    ensures revision { (text : Seq ℕ) (a : Revision) (e : ChangeTextError) → AreStanzas (revision_stanzas a) → IsRevisionText text a → IsRevisionFault text e → e ≡ NoMemory }
{}

/// A text that is no revision's has one fault at most, but for want of memory: one cause, with one offset or number.
pub fn one_fault()
    ensures { (text : Seq ℕ) (a b : ChangeTextError) → a ≢ NoMemory → b ≢ NoMemory → IsRevisionFault text a → IsRevisionFault text b → a ≡ b }
{}

/// What is written is read back: the changes in the order in which they are written, by way of their text.
pub fn sorted_changes(alloc: Global, changes: &Changeset) -> Result<Changeset, ChangeTextError>
    requires { AreUnsorted changes.now }
    ensures sorted { IfOk result (λ cs. IsSortedAs changes.now cs) }
    ensures lawful { IfOk result (λ cs. AreChanges cs) }
    ensures memory { IfErr result (λ e. e ≡ NoMemory) }
{
    let mut text = Vec::new(alloc);
    write_changes(alloc, changes, &mut text)?;
    read_changes(alloc, text.as_slice())
}

/// What is written is read back: the revision with each edge's changes in the order in which they are written.
pub fn sorted_revision(alloc: Global, revision: &Revision) -> Result<Revision, ChangeTextError>
    requires { AreUnsortedEdges revision.now.edges }
    ensures manifest { IfOk result (λ r. r.manifest ≡ revision.now.manifest) }
    ensures edges { IfOk result (λ r. AreSortedAs revision.now.edges r.edges) }
    ensures lawful { IfOk result (λ r. AreEdges r.edges) }
    ensures memory { IfErr result (λ e. e ≡ NoMemory) }
{
    let mut text = Vec::new(alloc);
    write_revision(alloc, revision, &mut text)?;
    read_revision(alloc, text.as_slice())
}
