// Changes, revisions and their texts.
ghost use Rattle.std.specs.Prelude.{◌≡◌, ◌≢◌, ℕ, List as Seq, IfErr, IfOk, OnErr, OnOk, map};
ghost use Rattle.mtn_basic_io.specs.Spelling.{AreStanzas};
ghost use Rattle.mtn_changes.specs.ChangesText.{IsChangesFault, IsChangesText};
ghost use Rattle.mtn_changes.specs.Heads.{IsHeadRead, head_stanza};
ghost use Rattle.mtn_changes.specs.RevisionText.{IsRevisionFault, IsRevisionText, revision_stanzas};
ghost use Rattle.mtn_changes.specs.Sorting.{AreUnsorted, AreUnsortedEdges, WritesChanges, WritesRevision};
ghost use Rattle.mtn_changes.specs.Stanzas.{IsRead, stanza_of as spelled};
ghost use Rattle.mtn_changes.specs.declared.error.ChangeTextError.{ChangeTextError as Fault};
ghost use Rattle.mtn_changes.specs.declared.error.ChangeTextError.TheVariants.{NoMemory as no_memory};

use mtn_base::NoMemory;
use mtn_basic_io::Stanza;
use mtn_changes::{Change, ChangeTextError, Changeset, Head, Revision};
use std::alloc::Global;

/// As `mtn_changes::change_of`.
pub fn change_of(alloc: Global, stanza: &Stanza) -> Result<Option<Change>, NoMemory>
    ensures { IfOk result (λ c. IsRead stanza.now c) }
{
    mtn_changes::change_of(alloc, stanza)
}

/// As `mtn_changes::stanza_of`.
pub fn stanza_of(alloc: Global, change: &Change) -> Result<Stanza, NoMemory>
    ensures { IfOk result (λ s. s ≡ spelled change.now) }
{
    mtn_changes::stanza_of(alloc, change)
}

/// As `mtn_changes::head_of`.
pub fn head_of(stanza: &Stanza) -> Option<Head>
    ensures { IsHeadRead stanza.now result }
{
    mtn_changes::head_of(stanza)
}

/// As `mtn_changes::stanza_of_head`.
pub fn stanza_of_head(alloc: Global, head: &Head) -> Result<Stanza, NoMemory>
    ensures { IfOk result (λ s. s ≡ head_stanza head.now) }
{
    mtn_changes::stanza_of_head(alloc, head)
}

/// As `mtn_changes::read_changes`.
pub fn read_changes(alloc: Global, text: &[u8]) -> Result<Changeset, ChangeTextError>
    ensures ok { IfOk result (λ cs. IsChangesText text.now cs) }
    ensures stanzas { IfOk result (λ cs. AreStanzas (map spelled cs)) }
    ensures err { IfErr result (λ e. IsChangesFault text.now e) }
{
    mtn_changes::read_changes(alloc, text)
}

/// As `mtn_changes::read_revision`.
pub fn read_revision(alloc: Global, text: &[u8]) -> Result<Revision, ChangeTextError>
    ensures ok { IfOk result (λ r. IsRevisionText text.now r) }
    ensures stanzas { IfOk result (λ r. AreStanzas (revision_stanzas r)) }
    ensures err { IfErr result (λ e. IsRevisionFault text.now e) }
{
    mtn_changes::read_revision(alloc, text)
}

/// As `mtn_changes::write_changes`.
pub fn write_changes(alloc: Global, changes: &Changeset, out: &mut Vec<u8>) -> Result<(), NoMemory>
    requires { AreUnsorted changes.now }
    ensures ok { OnOk result (WritesChanges out.old.items changes.now out.new.items) }
    ensures err { OnErr result (out.new.items ≡ out.old.items) }
{
    mtn_changes::write_changes(alloc, changes, out)
}

/// As `mtn_changes::write_revision`.
pub fn write_revision(alloc: Global, revision: &Revision, out: &mut Vec<u8>) -> Result<(), NoMemory>
    requires { AreUnsortedEdges revision.now.edges }
    ensures ok { OnOk result (WritesRevision out.old.items revision.now out.new.items) }
    ensures err { OnErr result (out.new.items ≡ out.old.items) }
{
    mtn_changes::write_revision(alloc, revision, out)
}

/// As `mtn_changes::one_fault`.
pub fn one_fault()
    ensures { (text : Seq ℕ) (a b : Fault) → a ≢ no_memory → b ≢ no_memory → IsRevisionFault text a → IsRevisionFault text b → a ≡ b }
{
    mtn_changes::one_fault()
}
