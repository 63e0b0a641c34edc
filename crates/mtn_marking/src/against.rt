// What a new revision is marked on.
ghost use Rattle.std.specs.Prelude.{◌≡◌, ◌∷◌, [], option_map};
ghost use Rattle.mtn_marking.specs.Parts.{HasHere, basis_of};

use crate::MarkedRoster;
use mtn_ancestry::{Pos, PosSet};

/// The new position, the set of it alone, the parents, and the ancestors that each has and the other lacks.
#[derive(Clone, Copy)]
pub struct Against<'a> {
    pub at: Pos,
    pub here: &'a PosSet,
    pub left: Option<&'a MarkedRoster>,
    pub right: Option<&'a MarkedRoster>,
    pub only_left: &'a PosSet,
    pub only_right: &'a PosSet,
}

/// Where the next node by ascending names is looked for first in each parent: behind the one that was found there last.
#[derive(Clone, Copy)]
pub struct Guesses {
    pub left: usize,
    pub right: usize,
}

/// All of it, for a position and the set of it alone.
pub fn marked_on<'a>(
    at: Pos,
    here: &'a PosSet,
    left: Option<&'a MarkedRoster>,
    right: Option<&'a MarkedRoster>,
    only_left: &'a PosSet,
    only_right: &'a PosSet,
) -> Against<'a>
    requires { here.now ≡ at ∷ [] }
    ensures here { HasHere result }
    ensures basis { basis_of result ≡ record {
      at = at;
      left = option_map (λ t. t.now) left.entry;
      right = option_map (λ t. t.now) right.entry;
      only_left = only_left.now;
      only_right = only_right.now;
    } }
{
    Against {
        at,
        here,
        left,
        right,
        only_left,
        only_right,
    }
}
