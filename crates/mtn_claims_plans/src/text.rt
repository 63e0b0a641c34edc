// The text of a merge.
ghost use Rattle.std.specs.Prelude.{◌≡◌, IfOk, OnOk};
ghost use Rattle.mtn_basic_io.specs.Spelling.{AreStanzas};
ghost use Rattle.mtn_changes.specs.RevisionText.{revision_stanzas};
ghost use Rattle.mtn_merge.specs.Plans.{revision_of_sides, text_of_sides};

use mtn_base::{Bytes, NoMemory};
use mtn_merge::Parent;
use mtn_ports::Ident;
use mtn_roster::Roster;
use std::alloc::Global;

/// `mtn_merge::revision_text`.
pub fn revision_text<I: Ident>(
    alloc: Global,
    ident: &I,
    left: &Parent<'_>,
    right: &Parent<'_>,
    merged: &Roster,
) -> Result<Bytes, NoMemory>
    ensures text { IfOk result (λ text. text ≡ text_of_sides (I.meaning ident.now) left.now.id left.now.tree.now right.now.id right.now.tree.now merged.now) }
    ensures stanzas { OnOk result (AreStanzas (revision_stanzas (revision_of_sides (I.meaning ident.now) left.now.id left.now.tree.now right.now.id right.now.tree.now merged.now))) }
{
    mtn_merge::revision_text(alloc, ident, left, right, merged)
}
