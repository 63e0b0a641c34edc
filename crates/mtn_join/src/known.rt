// What joining asks of births.
ghost use Rattle.std.specs.Prelude.{◌≡◌, ◌↔◌, IsTrue};
ghost use Rattle.mtn_changeset_laws.specs.Laws.{CommonAreKnown};
ghost use Rattle.mtn_join.specs.Join.{is_outside};
ghost use Rattle.mtn_join.specs.Pairing.{is_common_known};

use crate::pair::{Births, is_old};
use mtn_base::Id;
use mtn_roster::{Entry, Roster};
use std::collections::BTreeSet;

/// Whether a node, if it is old and stands in the other tree too, has its birth outside both sets.
fn is_known(entry: &Entry, right: &Roster, births: &Births) -> bool
    ensures { result ≡ is_common_known right.now births.now.new (is_outside births.now.only_right.now) (is_outside births.now.only_left.now) entry.now }
{
    let birth = entry.name.birth;
    !is_old(entry, births.new)
        || right.entry(&entry.name).is_none()
        || (!births.only_right.contains(&birth) && !births.only_left.contains(&birth))
}

/// Whether two trees, and the ancestors of each side's parent alone, are as `join` asks: a node of both trees that is not born
/// in `new` has its birth in neither set. It costs a look-up for each node, and takes no memory.
pub fn common_are_known(
    left: &Roster,
    right: &Roster,
    new: Id,
    only_left: &BTreeSet<Id>,
    only_right: &BTreeSet<Id>,
) -> bool
    ensures { IsTrue result ↔ CommonAreKnown left.now right.now new (is_outside only_right.now) (is_outside only_left.now) }
{
    let births = Births {
        new,
        only_left,
        only_right,
    };
    let count = left.len() as usize;
    for at in 0..count {
        let entry = left.at_place(at).unwrap();
        if !is_known(entry, right, &births) {
            return false;
        }
    }
    true
}
