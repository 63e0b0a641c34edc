// Calls of `mtn_resolve`.
ghost use Rattle.std.specs.Prelude.{◌≡◌, ◌∷◌, map, IfOk, IfErr, OnOk};
ghost use Rattle.mtn_basic_io.specs.Spelling.{AreStanzas};
ghost use Rattle.mtn_conflicts.specs.Lists.{AreConflictsOf};
ghost use Rattle.mtn_resolve.specs.Faults.{AreFitting, IsOverrideFault};
ghost use Rattle.mtn_resolve.specs.Overriding.{overridden};
ghost use Rattle.mtn_resolve.specs.Texts.{IsResolutionsFault, IsResolutionsText, header, stanza_of};

use mtn_conflicts::Conflicts;
use mtn_decide::Decisions;
use mtn_resolve::{OverrideError, Resolutions, ResolveTextError, override_with, read};
use std::alloc::Global;

/// As `mtn_resolve::read`.
pub fn resolutions(alloc: Global, text: &[u8]) -> Result<Resolutions, ResolveTextError>
    ensures ok { IfOk result (λ rs. IsResolutionsText text.now rs) }
    ensures stanzas { IfOk result (λ rs. AreStanzas (header ∷ map stanza_of rs)) }
    ensures err { IfErr result (λ e. IsResolutionsFault text.now e) }
{
    read(alloc, text)
}

/// As `mtn_resolve::override_with`.
pub fn resolved(
    alloc: Global,
    decisions: &Decisions,
    conflicts: &Conflicts,
    resolutions: &Resolutions,
) -> Result<Decisions, OverrideError>
    requires { AreConflictsOf decisions.now conflicts.now }
    ensures ok { IfOk result (λ m. m ≡ overridden resolutions.now decisions.now) }
    ensures fitting { OnOk result (AreFitting decisions.now conflicts.now resolutions.now) }
    ensures err { IfErr result (λ e. IsOverrideFault decisions.now conflicts.now resolutions.now e) }
{
    override_with(alloc, decisions, conflicts, resolutions)
}
