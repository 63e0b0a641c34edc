// Calls of `mtn_conflicts`.
ghost use Rattle.std.specs.Prelude.{◌≡◌, ◌++◌, ◌↔◌, IsTrue, IfOk, OnOk, OnErr};
ghost use Rattle.mtn_basic_io.specs.Spelling.{spelling};
ghost use Rattle.mtn_conflicts.specs.ConflictText.{IsLesser, conflict_stanzas};
ghost use Rattle.mtn_conflicts.specs.Lists.{AreClear, AreConflictsOf, IsNone};
ghost use Rattle.mtn_conflicts.specs.Result.{NoneBornIn, ParentsAreDirs, result_of};

use mtn_base::{Id, NoMemory};
use mtn_conflicts::{Conflicts, conflicts, result as result_tree, write};
use mtn_decide::Decisions;
use mtn_roster::Roster;
use std::alloc::Global;

/// As `mtn_conflicts::conflicts`.
pub fn find(alloc: Global, decisions: &Decisions) -> Result<Conflicts, NoMemory>
    ensures { IfOk result (AreConflictsOf decisions.now) }
{
    let found = conflicts(alloc, decisions)?;
    Ok(found)
}

/// As `Conflicts::none`.
pub fn none(found: &Conflicts) -> bool
    ensures { IsTrue result ↔ IsNone found.now }
{
    found.none()
}

/// As `mtn_conflicts::result`.
pub fn made(alloc: Global, decisions: &Decisions, reborn: Id) -> Result<Roster, NoMemory>
    requires clear { AreClear decisions.now }
    requires dirs { ParentsAreDirs decisions.now.nodes }
    requires fresh { NoneBornIn decisions.now.nodes reborn }
    ensures { IfOk result (λ roster. roster ≡ result_of decisions.now reborn) }
{
    result_tree(alloc, decisions, reborn)
}

/// As `mtn_conflicts::write`.
pub fn written(left: Id, right: Id, found: &Conflicts, out: &mut Vec<u8>) -> Result<(), NoMemory>
    requires { IsLesser left right }
    ensures ok { OnOk result (out.new.items ≡ out.old.items ++ spelling (conflict_stanzas left right found.now)) }
    ensures err { OnErr result (out.new.items ≡ out.old.items) }
{
    write(left, right, found, out)
}
