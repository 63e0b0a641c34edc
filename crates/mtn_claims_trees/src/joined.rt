//! What `mtn_join` makes of two trees.
ghost use Rattle.std.specs.Prelude.{◌≡◌, ◌↔◌, None, IsTrue, IfOk, IfErr, OnOk};
ghost use Rattle.mtn_changeset_laws.specs.Joining.{join_fault, joined as joining};
ghost use Rattle.mtn_changeset_laws.specs.Laws.{CommonAreKnown};
ghost use Rattle.mtn_join.specs.Join.{is_outside, IsFaultOf};

use mtn_base::Id;
use mtn_join::{JoinError, common_are_known, join};
use mtn_roster::Roster;
use std::alloc::Global;
use std::collections::BTreeSet;

/// `join`.
pub fn joined(
    alloc: Global,
    left: Roster,
    right: Roster,
    new: Id,
    only_left: &BTreeSet<Id>,
    only_right: &BTreeSet<Id>,
) -> Result<Roster, JoinError>
    requires { CommonAreKnown left right new (is_outside only_right.now) (is_outside only_left.now) }
    ensures ok { IfOk result (λ roster. roster ≡ joining left right new) }
    ensures agreed { OnOk result (join_fault new (is_outside only_right.now) (is_outside only_left.now) left right ≡ None) }
    ensures err { IfErr result (λ e. IsFaultOf e (join_fault new (is_outside only_right.now) (is_outside only_left.now) left right)) }
{
    join(alloc, left, right, new, only_left, only_right)
}

/// `common_are_known`.
pub fn known(
    left: &Roster,
    right: &Roster,
    new: Id,
    only_left: &BTreeSet<Id>,
    only_right: &BTreeSet<Id>,
) -> bool
    ensures { IsTrue result ↔ CommonAreKnown left.now right.now new (is_outside only_right.now) (is_outside only_left.now) }
{
    common_are_known(left, right, new, only_left, only_right)
}
