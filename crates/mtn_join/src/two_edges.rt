// The joining of two trees.
ghost use Rattle.std.specs.Prelude.{◌≡◌, Some, None, IfOk, IfErr, OnOk};
ghost use Rattle.std.specs.Option.{option_map_or};
ghost use Rattle.mtn_changeset_laws.specs.Joining.{join_fault, joined};
ghost use Rattle.mtn_changeset_laws.specs.Joining.JoinWhy.{Disagree};
ghost use Rattle.mtn_changeset_laws.specs.Laws.{CommonAreKnown};
ghost use Rattle.mtn_join.specs.Join.{is_outside, IsFaultOf};
ghost use Rattle.mtn_join.specs.Pairing.{AreMates, why_of};

use crate::agreement::{Agreement, compare_walks, lesser_path_at};
use crate::joining::{joined_entries, mates_of};
use crate::pair::{Births, PairFault};
use mtn_base::{Id, NoMemory, Path};
use mtn_roster::{BuildError, Roster};
use std::alloc::Global;
use std::collections::BTreeSet;

/// Why two trees can not be joined: the least path, component by component, at which one side has no node, or two nodes that
/// disagree, or one that the other side revives.
#[derive(Drop)]
pub enum JoinError {
    Disagree { path: Path },
    Revived { path: Path },
    NoMemory,
}

impl From<NoMemory> for JoinError {
    ghost use Rattle.mtn_join.specs.declared.two_edges.JoinError.TheVariants.{NoMemory};

    ghost from_gives = { λ _ e. e ≡ NoMemory };

    fn from(_: NoMemory) -> Self {
        JoinError::NoMemory
    }
}

/// What is told of the least path at which the walks part or a pair has a fault.
fn error_of(fault: Option<PairFault>, path: Path) -> JoinError
    ensures { IsFaultOf result (Some (path, option_map_or why_of fault Disagree)) }
{
    match fault {
        None => JoinError::Disagree { path },
        Some(fault) => match fault {
            PairFault::Disagree => JoinError::Disagree { path },
            PairFault::Revived => JoinError::Revived { path },
        },
    }
}

/// The places of the pairs of two trees that can be joined, by those of the left one.
fn paired(
    alloc: Global,
    left: &Roster,
    right: &Roster,
    births: &Births,
) -> Result<Vec<usize>, JoinError>
    ensures mates { IfOk result (λ mates. AreMates left.now right.now mates.items) }
    ensures agreed { OnOk result (join_fault births.now.new (is_outside births.now.only_right.now) (is_outside births.now.only_left.now) left.now right.now ≡ None) }
    ensures err { IfErr result (λ e. IsFaultOf e (join_fault births.now.new (is_outside births.now.only_right.now) (is_outside births.now.only_left.now) left.now right.now)) }
{
    let _nodes = left.len();
    let _others = right.len();
    let walk = left.stops(alloc)?;
    let beside = right.stops(alloc)?;
    let Agreement { count, fault } = compare_walks(left, right, &walk, &beside, births);
    if let Some(path) = lesser_path_at(alloc, left, right, &walk, &beside, count)? {
        return Err(error_of(fault, path));
    }
    Ok(mates_of(alloc, left, right, &walk, &beside)?)
}

/// The joining of the trees that the two edges of the revision `new` make. The sets are the ancestors of each side's parent
/// alone: an old node of one side is known to the other's parent where its birth stands outside its own side's set. It costs
/// one walk over each tree, and a build; the entries of the left tree are used again.
pub fn join(
    alloc: Global,
    left: Roster,
    right: Roster,
    new: Id,
    only_left: &BTreeSet<Id>,
    only_right: &BTreeSet<Id>,
) -> Result<Roster, JoinError>
    requires { CommonAreKnown left right new (is_outside only_right.now) (is_outside only_left.now) }
    ensures ok { IfOk result (λ roster. roster ≡ joined left right new) }
    ensures agreed { OnOk result (join_fault new (is_outside only_right.now) (is_outside only_left.now) left right ≡ None) }
    ensures err { IfErr result (λ e. IsFaultOf e (join_fault new (is_outside only_right.now) (is_outside only_left.now) left right)) }
{
    let _nodes = left.len();
    let _others = right.len();
    let births = Births {
        new,
        only_left,
        only_right,
    };
    let mates = paired(alloc, &left, &right, &births)?;
    let entries = joined_entries(alloc, left.into_entries(), right, mates, new)?;
    match Roster::build(alloc, entries) {
        Ok(roster) => Ok(roster),
        Err(BuildError::NoMemory) => Err(JoinError::NoMemory),
        Err(BuildError::Insane) => unreachable!(),
    }
}
