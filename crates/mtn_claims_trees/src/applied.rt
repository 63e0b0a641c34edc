//! What `mtn_apply` makes of a tree.
ghost use Rattle.std.specs.Prelude.{◌≡◌, ◌↔◌, None, IsTrue, IfOk, IfErr, OnOk};
ghost use Rattle.mtn_apply.specs.Faults.{IsFault};
ghost use Rattle.mtn_apply.specs.Old.{tree_in};
ghost use Rattle.mtn_changeset_laws.specs.Changes.{first_fault, tree_after};
ghost use Rattle.mtn_changeset_laws.specs.Laws.{NoneBornIn, RenamesDiffer};

use mtn_apply::{ApplyError, apply, none_is_born};
use mtn_base::Id;
use mtn_changes::Changeset;
use mtn_roster::Roster;
use std::alloc::Global;

/// `apply`.
pub fn applied(
    alloc: Global,
    old: Option<&Roster>,
    changes: &Changeset,
    new: Id,
) -> Result<Roster, ApplyError>
    requires renames { RenamesDiffer changes.now }
    requires unborn { NoneBornIn (tree_in old) new }
    ensures ok { IfOk result (λ roster. roster ≡ tree_after (tree_in old.entry) changes.now new) }
    ensures fine { OnOk result (first_fault (tree_in old.entry) changes.now ≡ None) }
    ensures err { IfErr result (λ e. IsFault (tree_in old.entry) changes.now e) }
{
    apply(alloc, old, changes, new)
}

/// `none_is_born`.
pub fn unborn(old: Option<&Roster>, new: Id) -> bool
    ensures { IsTrue result ↔ NoneBornIn (tree_in old.entry) new }
{
    none_is_born(old, new)
}
