// A changeset applied to a tree.
ghost use Rattle.std.specs.Prelude.{◌≡◌, None, OnOk, IfOk, IfErr};
ghost use Rattle.mtn_roster.specs.Building.{IsBuildable, tree_of};
ghost use Rattle.mtn_changeset_laws.specs.Changes.{first_fault, tree_after};
ghost use Rattle.mtn_changeset_laws.specs.Laws.{RenamesDiffer, NoneBornIn};
ghost use Rattle.mtn_apply.specs.Faults.{IsFault};
ghost use Rattle.mtn_apply.specs.Index.{IsIndexed, old_of, changes_of};
ghost use Rattle.mtn_apply.specs.Old.{tree_in};

use crate::after::entries_after;
use crate::fault::fault_of;
use crate::index::{Edge, indexed};
use mtn_base::{Id, NoMemory, Why};
use mtn_changes::Changeset;
use mtn_roster::{BuildError, Entry, Roster};
use std::alloc::Global;

/// Why a changeset is not applied.
#[derive(Clone, Copy)]
pub enum ApplyError {
    /// The first change that fails, by its number from 1 up, and its reason. Where every change passes
    /// and the root path has no occupant, it is `NoRoot` with the number of changes plus one.
    BadChange { number: u64, why: Why },
    NoMemory,
}

impl From<NoMemory> for ApplyError {
    ghost use Rattle.mtn_apply.specs.declared.applying.ApplyError.TheVariants as errors;
    ghost use Rattle.std.specs.Prelude.{◌≡◌};

    ghost from_gives = { λ _ e. e ≡ errors.NoMemory };

    fn from(_: NoMemory) -> Self {
        ApplyError::NoMemory
    }
}

/// The roster of entries of which one can be built.
fn built_of(alloc: Global, entries: Vec<Entry>) -> Result<Roster, NoMemory>
    requires { IsBuildable entries.items }
    ensures { IfOk result (λ roster. roster ≡ tree_of entries.items) }
{
    match Roster::build(alloc, entries) {
        Ok(roster) => Ok(roster),
        Err(BuildError::NoMemory) => Err(NoMemory),
        Err(BuildError::Insane) => unreachable!(),
    }
}

/// The new tree, where no change fails.
fn made_of(alloc: Global, edge: &Edge, new: Id) -> Result<Roster, NoMemory>
    requires indexed { IsIndexed edge.now }
    requires renames { RenamesDiffer (changes_of edge.now) }
    requires unborn { NoneBornIn (old_of edge.now) new }
    requires fine { first_fault (old_of edge.now) (changes_of edge.now) ≡ None }
    ensures { IfOk result (λ roster. roster ≡ tree_after (old_of edge.now) (changes_of edge.now) new) }
{
    let entries = entries_after(alloc, edge, new)?;
    built_of(alloc, entries)
}

/// The same of an edge.
fn applied(alloc: Global, edge: &Edge, new: Id) -> Result<Roster, ApplyError>
    requires indexed { IsIndexed edge.now }
    requires renames { RenamesDiffer (changes_of edge.now) }
    requires unborn { NoneBornIn (old_of edge.now) new }
    ensures ok { IfOk result (λ roster. roster ≡ tree_after (old_of edge.now) (changes_of edge.now) new) }
    ensures fine { OnOk result (first_fault (old_of edge.now) (changes_of edge.now) ≡ None) }
    ensures err { IfErr result (λ e. IsFault (old_of edge.now) (changes_of edge.now) e) }
{
    match fault_of(alloc, edge)? {
        Some(fault) => Err(ApplyError::BadChange {
            number: fault.number,
            why: fault.why,
        }),
        None => Ok(made_of(alloc, edge, new)?),
    }
}

/// The tree that a changeset makes of an old one, or of nothing, as revision `new`. It costs a copy of
/// the old tree and the building of the new one; beyond that, for each change, a look-up for each
/// component of its paths.
pub fn apply(
    alloc: Global,
    old: Option<&Roster>,
    changes: &Changeset,
    new: Id,
) -> Result<Roster, ApplyError>
    requires renames { RenamesDiffer changes.now }
    requires unborn { NoneBornIn (tree_in old) new }
    ensures ok { IfOk result (λ roster. roster ≡ tree_after (tree_in old.entry) changes.now new) }
    ensures fine { OnOk result (first_fault (tree_in old.entry) changes.now ≡ None) }
    ensures err { IfErr result (λ e. IsFault (tree_in old.entry) changes.now e) }
{
    let edge = indexed(alloc, old, changes.changes.as_slice())?;
    applied(alloc, &edge, new)
}
