//! The texts of trees: the manifests of `mtn_manifest` and the rosters of `mtn_roster_text`.
ghost use Rattle.std.specs.Prelude.{◌≡◌, ◌↔◌, ◌++◌, ℕ, Contains, IfOk, OnErr, OnOk};
ghost use Rattle.std.specs.List.Sorted.{IsStrictlyIncreasing};
ghost use Rattle.mtn_basic_io.specs.Spelling.{spelling};
ghost use Rattle.mtn_manifest.specs.Manifest.{manifest_of};
ghost use Rattle.mtn_roster.specs.Walk.{AreStops};
ghost use Rattle.mtn_roster_text.specs.Naming.{id_at, ids_in, table_of};
ghost use Rattle.mtn_roster_text.specs.Positions.{IsMarkIn};
ghost use Rattle.mtn_roster_text.specs.RosterText.{roster_of};

use mtn_ancestry::Pos;
use mtn_base::{Id, NoMemory};
use mtn_marking::MarkedRoster;
use mtn_roster::{Roster, Stop};
use mtn_roster_text::{IdTable, marked_positions};
use std::alloc::Global;

/// `mtn_manifest::write`.
pub fn manifest(roster: &Roster, out: &mut Vec<u8>) -> Result<(), NoMemory>
    ensures ok { OnOk result (out.new.items ≡ out.old.items ++ spelling (manifest_of roster.now)) }
    ensures err { OnErr result (out.new.items ≡ out.old.items) }
{
    mtn_manifest::write(roster, out)
}

/// `mtn_manifest::write_along`.
pub fn manifest_along(roster: &Roster, stops: &[Stop], out: &mut Vec<u8>) -> Result<(), NoMemory>
    requires { AreStops roster.now stops.now }
    ensures ok { OnOk result (out.new.items ≡ out.old.items ++ spelling (manifest_of roster.now)) }
    ensures err { OnErr result (out.new.items ≡ out.old.items) }
{
    mtn_manifest::write_along(roster, stops, out)
}

/// `mtn_roster_text::write`.
pub fn roster_text(
    roster: &MarkedRoster,
    table: &IdTable,
    out: &mut Vec<u8>,
) -> Result<(), NoMemory>
    ensures ok { OnOk result (out.new.items ≡ out.old.items ++ spelling (roster_of roster.now.tree (ids_in table.now roster.now.marks))) }
    ensures err { OnErr result (out.new.items ≡ out.old.items) }
{
    mtn_roster_text::write(roster, table, out)
}

/// `marked_positions`.
pub fn positions(alloc: Global, roster: &MarkedRoster) -> Result<Vec<Pos>, NoMemory>
    ensures ascending { IfOk result (λ found. IsStrictlyIncreasing found.items) }
    ensures exact { IfOk result (λ found. (x : ℕ) → Contains found.items x ↔ IsMarkIn roster.now.marks x) }
{
    marked_positions(alloc, roster)
}

/// `IdTable::new`.
pub fn table(alloc: Global, places: &[Pos], ids: &[Id]) -> Result<IdTable, NoMemory>
    requires { IsStrictlyIncreasing places.now }
    ensures { IfOk result (λ table. table ≡ table_of places.now ids.now) }
{
    IdTable::new(alloc, places, ids)
}

/// `IdTable::id`.
pub fn id(table: &IdTable, at: Pos) -> Option<Id>
    ensures { result ≡ id_at table.now at }
{
    table.id(at)
}
