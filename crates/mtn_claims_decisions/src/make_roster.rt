//! The limits of a tree.
ghost use Rattle.std.specs.Prelude.{◌≡◌, IfErr, IfOk, None, OnOk};
ghost use Rattle.mtn_changeset_laws.specs.Changes.{or_else};
ghost use Rattle.mtn_make_roster.specs.Basis.{IsCauseOf};
ghost use Rattle.mtn_replay.specs.Making.{too_long, too_many};
ghost use Rattle.mtn_roster.specs.Walk.{AreStops};

use mtn_make_roster::MakeError;
use mtn_roster::{Roster, Stop};
use std::alloc::Global;

/// As `mtn_make_roster::walk_within_limits`.
pub fn walk_within_limits(alloc: Global, roster: &Roster) -> Result<Vec<Stop>, MakeError>
    ensures walk { IfOk result (λ stops. AreStops roster.now stops.items) }
    ensures ok { OnOk result (or_else (too_many roster.now) (too_long roster.now) ≡ None) }
    ensures err { IfErr result (IsCauseOf (or_else (too_many roster.now) (too_long roster.now))) }
{
    mtn_make_roster::walk_within_limits(alloc, roster)
}

/// As `mtn_make_roster::within_limits`.
pub fn within_limits(alloc: Global, roster: &Roster) -> Result<(), MakeError>
    ensures ok { OnOk result (or_else (too_many roster.now) (too_long roster.now) ≡ None) }
    ensures err { IfErr result (IsCauseOf (or_else (too_many roster.now) (too_long roster.now))) }
{
    mtn_make_roster::within_limits(alloc, roster)
}
