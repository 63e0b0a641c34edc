// Calls of `mtn_decide`.
ghost use Rattle.std.specs.Prelude.{ℕ, List, ◌↔◌, IsTrue, IfOk};
ghost use Rattle.mtn_history_laws.specs.History.{Revision, IsGrown, parents_at};
ghost use Rattle.mtn_mark_laws.specs.Rule.{AreUncommon};
ghost use Rattle.mtn_marking.specs.Graph.{IsMarkedAt};
ghost use Rattle.mtn_decide.specs.Graph.{IsMergeOf};
ghost use Rattle.mtn_decide.specs.Sets.{IsChoice, IsMergeBySets, Lives};

use mtn_ancestry::{Pos, PosSet};
use mtn_base::NoMemory;
use mtn_decide::{Choice, Decisions, decide, lives, merge_scalar};
use mtn_marking::MarkedRoster;
use std::alloc::Global;

/// As `mtn_decide::merge_scalar`.
pub fn choose(
    equal: bool,
    left: &PosSet,
    right: &PosSet,
    only_left: &PosSet,
    only_right: &PosSet,
) -> Choice
    ensures { IsChoice equal left.now right.now only_left.now only_right.now result }
{
    merge_scalar(equal, left, right, only_left, only_right)
}

/// As `mtn_decide::lives`.
pub fn living(
    birth: Pos,
    in_left: bool,
    in_right: bool,
    only_left: &PosSet,
    only_right: &PosSet,
) -> bool
    ensures { IsTrue result ↔ Lives birth in_left in_right only_left.now only_right.now }
{
    lives(birth, in_left, in_right, only_left, only_right)
}

/// As `mtn_decide::decide`.
pub fn decided(
    alloc: Global,
    left: &MarkedRoster,
    right: &MarkedRoster,
    only_left: &PosSet,
    only_right: &PosSet,
) -> Result<Decisions, NoMemory>
    ensures sets { IfOk result (IsMergeBySets left.now right.now only_left.now only_right.now) }
    ensures graph { IfOk result (λ m. (log : List Revision) (a b : ℕ) → IsGrown log → IsMarkedAt log a left.now → IsMarkedAt log b right.now →
        AreUncommon (parents_at log) a b only_left.now → AreUncommon (parents_at log) b a only_right.now → IsMergeOf log a b m) }
{
    decide(alloc, left, right, only_left, only_right)
}
