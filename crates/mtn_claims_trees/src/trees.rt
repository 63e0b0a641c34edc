//! Trees of `mtn_roster`: how they are built, and what they are taken apart to.
ghost use Rattle.std.specs.Prelude.{◌≡◌, ◌↔◌, IsTrue, map, option_copied, option_map, slice_get, IfOk, OnOk, IsErrOf};
ghost use Rattle.mtn_roster.specs.Building.{IsBuildable, tree_of};
ghost use Rattle.mtn_roster.specs.Tree.{child_of, entry_of, node_at, path_of as path_in, same_slot as have_same_slot};
ghost use Rattle.mtn_roster.specs.Walk.{by_path, children_of, AreStops};

use mtn_base::{Bytes, Comp, NoMemory, NodeName, Path};
use mtn_roster::attrs::{copy_value, same_value};
use mtn_roster::{Attr, BuildError, Entry, Roster, Slot, Stop};
use std::alloc::Global;

/// `Roster::build`.
pub fn build(alloc: Global, entries: Vec<Entry>) -> Result<Roster, BuildError>
    ensures ok { IfOk result (λ roster. roster ≡ tree_of entries.items) }
    ensures made { OnOk result (IsBuildable entries.items) }
    ensures insane { IsErrOf result BuildError.Insane → IsBuildable entries.items → ⊥ }
{
    Roster::build(alloc, entries)
}

/// `Roster::entry`.
pub fn entry<'a>(roster: &'a Roster, name: &NodeName) -> Option<&'a Entry>
    ensures { option_copied result ≡ entry_of roster.now name.now }
{
    roster.entry(name)
}

/// `Roster::at_path`.
pub fn at_path<'a>(roster: &'a Roster, path: &Path) -> Option<&'a Entry>
    ensures { option_copied result ≡ node_at roster.now path.now }
{
    roster.at_path(path)
}

/// `Roster::child`.
pub fn child<'a>(roster: &'a Roster, above: &Entry, name: &Comp) -> Option<&'a Entry>
    ensures { option_copied result ≡ child_of roster.now name.now above.now }
{
    roster.child(above, name)
}

/// `Roster::path_of`.
pub fn path_of(roster: &Roster, alloc: Global, name: &NodeName) -> Result<Option<Path>, NoMemory>
    ensures { IfOk result (λ path. path ≡ option_map (path_in roster.now) (entry_of roster.now name.now)) }
{
    roster.path_of(alloc, name)
}

/// `Roster::path_at`.
pub fn path_at(roster: &Roster, alloc: Global, place: usize) -> Result<Option<Path>, NoMemory>
    ensures { IfOk result (λ path. path ≡ option_map (path_in roster.now) (slice_get roster.now place)) }
{
    roster.path_at(alloc, place)
}

/// `Roster::children`.
pub fn children(roster: &Roster, alloc: Global, name: &NodeName) -> Result<Vec<NodeName>, NoMemory>
    ensures { IfOk result (λ names. names.items ≡ map (λ (e : Entry). e.name) (children_of roster.now name.now)) }
{
    roster.children(alloc, name)
}

/// `Roster::walk`.
pub fn walk(roster: &Roster, alloc: Global) -> Result<Vec<NodeName>, NoMemory>
    ensures { IfOk result (λ names. names.items ≡ map (λ (e : Entry). e.name) (by_path roster.now)) }
{
    roster.walk(alloc)
}

/// `Roster::stops`.
pub fn stops(roster: &Roster, alloc: Global) -> Result<Vec<Stop>, NoMemory>
    ensures { IfOk result (λ stops. AreStops roster.now stops.items) }
{
    roster.stops(alloc)
}

/// `Roster::into_entries`.
pub fn into_entries(roster: Roster) -> Vec<Entry>
    ensures { result.items ≡ roster }
{
    roster.into_entries()
}

/// `Roster::copy`.
pub fn copy(roster: &Roster, alloc: Global) -> Result<Roster, NoMemory>
    ensures { IfOk result (λ copy. copy ≡ roster.now) }
{
    roster.copy(alloc)
}

/// `Entry::copy`.
pub fn copy_entry(entry: &Entry, alloc: Global) -> Result<Entry, NoMemory>
    ensures { IfOk result (λ copy. copy ≡ entry.now) }
{
    entry.copy(alloc)
}

/// `Attr::copy`.
pub fn copy_attr(attr: &Attr, alloc: Global) -> Result<Attr, NoMemory>
    ensures { IfOk result (λ copy. copy ≡ attr.now) }
{
    attr.copy(alloc)
}

/// `Slot::copy`.
pub fn copy_slot(slot: &Slot, alloc: Global) -> Result<Slot, NoMemory>
    ensures { IfOk result (λ copy. copy ≡ slot.now) }
{
    slot.copy(alloc)
}

/// `attrs::copy_value`.
pub fn value_copied(alloc: Global, value: &Option<Bytes>) -> Result<Option<Bytes>, NoMemory>
    ensures { IfOk result (λ v. v ≡ value.now) }
{
    copy_value(alloc, value)
}

/// `Slot::same`.
pub fn same_slot(slot: &Slot, other: &Slot) -> bool
    ensures same { result ≡ have_same_slot slot.now other.now }
    ensures equal { IsTrue result ↔ (slot.now ≡ other.now) }
{
    slot.same(other)
}

/// `attrs::same_value`.
pub fn are_same_values(first: &Option<Bytes>, second: &Option<Bytes>) -> bool
    ensures { IsTrue result ↔ (first.now ≡ second.now) }
{
    same_value(first, second)
}
