// How much a tree may have.
ghost use Rattle.std.specs.Prelude.{◌≡◌, None, find, map, option_map, option_and_then, slice_get, IfOk, IfErr, OnOk};
ghost use Rattle.mtn_changeset_laws.specs.Changes.{or_else};
ghost use Rattle.mtn_replay.specs.Making.{is_long, too_many, too_long};
ghost use Rattle.mtn_roster.specs.Tree.{path_of};
ghost use Rattle.mtn_roster.specs.Walk.{by_path, AreStops};
ghost use Rattle.mtn_make_roster.specs.Basis.{IsCauseOf};
ghost use Rattle.mtn_make_roster.specs.Limits.{slashed_at, IsMet};

use crate::MakeError;
use mtn_base::{Cause, MAX_NODES, MAX_PATH, NoMemory, Path};
use mtn_roster::{Roster, Slot, Stop};
use std::alloc::Global;

/// The bytes of the path of what hangs there, with a slash behind each component, by those of the nodes before.
fn slashed_length(lengths: &[usize], slot: &Slot, above: usize) -> usize
    requires { IsMet lengths.now slot.now above }
    ensures { result ≡ slashed_at lengths.now slot.now above }
{
    match slot {
        Slot::Root => 0,
        Slot::Below { name, .. } => lengths[above] + name.bytes().len() + 1,
    }
}

/// The place of the first node along the walk whose path is too long.
fn long_place(alloc: Global, roster: &Roster, stops: &[Stop]) -> Result<Option<usize>, NoMemory>
    requires { AreStops roster.now stops.now }
    ensures { IfOk result (λ place. option_map (path_of roster.now) (option_and_then (slice_get roster.now) place) ≡ find is_long (map (path_of roster.now) (by_path roster.now))) }
{
    let _nodes = roster.len();
    let mut lengths = Vec::with_capacity(alloc, stops.len())?;
    for stop in stops {
        let entry = roster.at_place(stop.place).unwrap();
        let length = slashed_length(&lengths, &entry.slot, stop.above);
        if length > MAX_PATH + 1 {
            return Ok(Some(stop.place));
        }
        lengths.push(length)?;
    }
    Ok(None)
}

/// The least path that is too long, component by component.
fn long_path(alloc: Global, roster: &Roster, stops: &[Stop]) -> Result<Option<Path>, NoMemory>
    requires { AreStops roster.now stops.now }
    ensures { IfOk result (λ path. path ≡ find is_long (map (path_of roster.now) (by_path roster.now))) }
{
    match long_place(alloc, roster, stops)? {
        None => Ok(None),
        Some(place) => roster.path_at(alloc, place),
    }
}

/// The walk over a tree that has not too much: its nodes as [`Roster::stops`] gives them.
pub fn walk_within_limits(alloc: Global, roster: &Roster) -> Result<Vec<Stop>, MakeError>
    ensures walk { IfOk result (λ stops. AreStops roster.now stops.items) }
    ensures ok { OnOk result (or_else (too_many roster.now) (too_long roster.now) ≡ None) }
    ensures err { IfErr result (IsCauseOf (or_else (too_many roster.now) (too_long roster.now))) }
{
    let count = roster.len();
    if count > MAX_NODES as u64 {
        return Err(MakeError::Refused(Cause::TooManyNodes { count }));
    }
    let stops = roster.stops(alloc)?;
    match long_path(alloc, roster, &stops)? {
        None => Ok(stops),
        Some(path) => Err(MakeError::Refused(Cause::PathTooLong { path })),
    }
}

/// That a tree has not too much.
pub fn within_limits(alloc: Global, roster: &Roster) -> Result<(), MakeError>
    ensures ok { OnOk result (or_else (too_many roster.now) (too_long roster.now) ≡ None) }
    ensures err { IfErr result (IsCauseOf (or_else (too_many roster.now) (too_long roster.now))) }
{
    walk_within_limits(alloc, roster)?;
    Ok(())
}
