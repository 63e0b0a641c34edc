//! The tree of a merge without conflicts, under old names and new ones.
ghost use Rattle.std.specs.List.{list_any};
ghost use Rattle.std.specs.Prelude.{◌≡◌, IfOk};
ghost use Rattle.mtn_conflicts.specs.Lists.{AreClear};
ghost use Rattle.mtn_conflicts.specs.Result.{NoneBornIn, ParentsAreDirs, result_of, tree_before};
ghost use Rattle.mtn_decide.specs.declared.decision.Decision.{Decision};

use mtn_base::{Id, NoMemory};
use mtn_decide::{Decision, Decisions};
use mtn_roster::Roster;
use std::alloc::Global;

/// As `mtn_conflicts::is_some_reborn`.
pub fn is_some_reborn(nodes: &[Decision]) -> bool
    ensures { result ≡ list_any (λ (d : Decision). d.reborn) nodes.now }
{
    mtn_conflicts::is_some_reborn(nodes)
}

/// As `mtn_conflicts::under_old_names`.
pub fn under_old_names(alloc: Global, decisions: &Decisions) -> Result<Roster, NoMemory>
    requires clear { AreClear decisions.now }
    requires dirs { ParentsAreDirs decisions.now.nodes }
    ensures { IfOk result (λ roster. roster ≡ tree_before decisions.now.nodes) }
{
    mtn_conflicts::under_old_names(alloc, decisions)
}

/// As `mtn_conflicts::under_new_names`.
pub fn under_new_names(
    alloc: Global,
    decisions: &Decisions,
    before: &Roster,
    reborn: Id,
) -> Result<Roster, NoMemory>
    requires clear { AreClear decisions.now }
    requires dirs { ParentsAreDirs decisions.now.nodes }
    requires tree { before.now ≡ tree_before decisions.now.nodes }
    requires fresh { NoneBornIn decisions.now.nodes reborn }
    ensures { IfOk result (λ roster. roster ≡ result_of decisions.now reborn) }
{
    mtn_conflicts::under_new_names(alloc, decisions, before, reborn)
}
