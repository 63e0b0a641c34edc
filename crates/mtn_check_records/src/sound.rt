// The limits of a tree, and the id of its manifest.
ghost use Rattle.std.specs.Prelude.{◌≡◌, ◌↔◌, None, IfOk, IsTrue};
ghost use Rattle.mtn_basic_io.specs.Spelling.{spelling};
ghost use Rattle.mtn_changeset_laws.specs.Changes.{or_else};
ghost use Rattle.mtn_manifest.specs.Manifest.{manifest_of};
ghost use Rattle.mtn_replay.specs.Making.{too_many, too_long};
ghost use Rattle.mtn_check_records.specs.Due.{IsSound};

use mtn_base::{Id, NoMemory};
use mtn_make_roster::{MakeError, within_limits};
use mtn_manifest::write;
use mtn_ports::Ident;
use mtn_roster::Roster;
use std::alloc::Global;

// Whether a tree has not too much.
fn is_within_limits(alloc: Global, roster: &Roster) -> Result<bool, NoMemory>
    ensures { IfOk result (λ b. IsTrue b ↔ (or_else (too_many roster.now) (too_long roster.now) ≡ None)) }
{
    match within_limits(alloc, roster) {
        Ok(()) => Ok(true),
        Err(MakeError::NoMemory) => Err(NoMemory),
        Err(_) => Ok(false),
    }
}

// The id of a tree's manifest.
fn manifest_id<I: Ident>(alloc: Global, ident: &I, roster: &Roster) -> Result<Id, NoMemory>
    ensures { IfOk result (λ id. id.0 ≡ I.meaning ident.now (spelling (manifest_of roster.now))) }
{
    let mut text = Vec::new(alloc);
    write(roster, &mut text)?;
    Ok(ident.id(&text))
}

/// Whether a tree is within its limits, and its manifest has this id.
pub fn is_sound<I: Ident>(
    alloc: Global,
    ident: &I,
    roster: &Roster,
    manifest: Id,
) -> Result<bool, NoMemory>
    ensures { IfOk result (λ b. IsTrue b ↔ IsSound (I.meaning ident.now) roster.now manifest) }
{
    if !is_within_limits(alloc, roster)? {
        return Ok(false);
    }
    Ok(manifest_id(alloc, ident, roster)? == manifest)
}
