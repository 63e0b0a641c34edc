// A sane tree in memory.
ghost use Rattle.std.specs.Prelude.{◌≡◌, ◌<◌, length, map, option_copied, option_map, option_and_then, slice_get, Some, IsTrue, IfSome, IfOk, OnOk, IsErrOf};
ghost use Rattle.std.specs.List.{All};
ghost use Rattle.mtn_base.specs.Names.{name_cmp};
ghost use Rattle.mtn_roster.specs.Building.{AreUps, IsBuildable, tree_of};
ghost use Rattle.mtn_roster.specs.Tree.{IsSane, entry_of, child_of, node_at, path_of};
ghost use Rattle.mtn_base.specs.Lists.{rises};
ghost use Rattle.mtn_roster.specs.Index.{IsIndex};
ghost use Rattle.mtn_roster.specs.Walk.{by_path, children_of, path_at, AreStops};

use crate::build::{sort_all_keys, sort_names};
use crate::child::child_at;
use crate::index::{child_place, root_place};
use crate::sane::checked_index;
use crate::walk::{Stop, run_of, stops_of};
use crate::{BuildError, Entry, Slot};
use mtn_base::{Comp, NoMemory, NodeName, Path};
use std::alloc::Global;
use std::marker::Model;

/// A sane tree, which contracts see as the list of its entries by ascending name.
#[derive(Drop)]
pub struct Roster {
    entries: Vec<Entry>,
    // For each place of an entry that of its parent; the root's is its own.
    ups: Vec<usize>,
    // The places of the entries by ascending slot: the children of a node stand together.
    by_slot: Vec<usize>,
}

impl Model for Roster {
    ghost use Rattle.mtn_roster.specs.Tree.{Tree, IsSane};
    ghost use Rattle.mtn_roster.specs.Index.{IsIndex};
    ghost use Rattle.mtn_roster.specs.Building.{AreUps};

    ghost Value = { Tree };

    ghost view = { λ r. r.entries.items };

    ghost invariant = { λ r. IsSane r.entries.items × IsIndex r.entries.items r.by_slot.items × AreUps r.entries.items r.ups.items };
}

impl Roster {
    /// The tree of some entries, in any order and with their attributes in any order. Insane exactly
    /// where a name repeats, where a key repeats within an entry, or where the tree is not sane.
    pub fn build(alloc: Global, mut entries: Vec<Entry>) -> Result<Roster, BuildError>
        ensures ok { IfOk result (λ roster. roster ≡ tree_of entries.items) }
        ensures made { OnOk result (IsBuildable entries.items) }
        ensures insane { IsErrOf result BuildError.Insane → IsBuildable entries.items → ⊥ }
    {
        if !sort_all_keys(alloc, &mut entries) {
            return Err(BuildError::Insane);
        }
        if !sort_names(alloc, &mut entries) {
            return Err(BuildError::Insane);
        }
        let (ups, by_slot) = checked_index(alloc, &entries)?;
        Ok(Roster {
            entries,
            ups,
            by_slot,
        })
    }

    /// How many nodes the tree has. It takes no memory.
    pub fn len(&self) -> u64
        ensures count { result ≡ length self.now }
        ensures sane { IsSane self.now }
    {
        self.entries.len() as u64
    }

    /// The entry of a node. It takes no memory.
    pub fn entry(&self, name: &NodeName) -> Option<&Entry>
        ensures { option_copied result ≡ entry_of self.now name.now }
    {
        let at = place_among(&self.entries, name)?;
        self.entries.get(at)
    }

    /// The entry of the node at a path. It takes no memory.
    pub fn at_path(&self, path: &Path) -> Option<&Entry>
        ensures { option_copied result ≡ node_at self.now path.now }
    {
        let at = self.place_at_path(path)?;
        self.entries.get(at)
    }

    /// The place of the node at a path. It takes no memory.
    pub fn place_at_path(&self, path: &Path) -> Option<usize>
        ensures { option_and_then (slice_get self.now) result ≡ node_at self.now path.now }
    {
        node_among(&self.entries, &self.ups, &self.by_slot, path.comps())
    }

    /// The place of a node. It takes no memory.
    pub fn place_of(&self, name: &NodeName) -> Option<usize>
        ensures { option_and_then (slice_get self.now) result ≡ entry_of self.now name.now }
    {
        place_among(&self.entries, name)
    }

    /// The place of the child of that name, of the node at a place. It takes no memory, and it compares
    /// numbers where `child` compares names.
    pub fn child_place(&self, above: usize, name: &Comp) -> Option<usize>
        ensures { option_and_then (slice_get self.now) result ≡ option_and_then (child_of self.now name.now) (slice_get self.now above) }
    {
        child_at(&self.entries, &self.ups, &self.by_slot, above, name)
    }

    /// The child of that name, of an entry of this tree or of another. It takes no memory.
    pub fn child(&self, above: &Entry, name: &Comp) -> Option<&Entry>
        ensures { option_copied result ≡ child_of self.now name.now above.now }
    {
        let at = child_place(&self.entries, &self.by_slot, above, name)?;
        self.entries.get(at)
    }

    /// The entry at a place: the nodes are numbered from 0 by ascending name. It takes no memory.
    pub fn at_place(&self, place: usize) -> Option<&Entry>
        ensures { option_copied result ≡ slice_get self.now place }
    {
        self.entries.get(place)
    }

    /// The path of a node, or None where there is no such node. It costs a look-up.
    pub fn path_of(&self, alloc: Global, name: &NodeName) -> Result<Option<Path>, NoMemory>
        ensures { IfOk result (λ path. path ≡ option_map (path_of self.now) (entry_of self.now name.now)) }
    {
        match place_among(&self.entries, name) {
            None => Ok(None),
            Some(place) => Ok(Some(path_from(alloc, &self.entries, &self.ups, place)?)),
        }
    }

    /// The path of the entry at a place, or None where there is no such place. It goes up by the places of
    /// parents and looks nothing up, so that it costs no more than to copy the path.
    pub fn path_at(&self, alloc: Global, place: usize) -> Result<Option<Path>, NoMemory>
        ensures { IfOk result (λ path. path ≡ option_map (path_of self.now) (slice_get self.now place)) }
    {
        match self.at_place(place) {
            None => Ok(None),
            Some(_) => Ok(Some(path_from(alloc, &self.entries, &self.ups, place)?)),
        }
    }

    /// The entries by ascending name, out of the tree. It takes no memory.
    pub fn into_entries(self) -> Vec<Entry>
        ensures { result.items ≡ self }
    {
        self.entries
    }

    /// An equal tree.
    pub fn copy(&self, alloc: Global) -> Result<Roster, NoMemory>
        ensures { IfOk result (λ roster. roster ≡ self.now) }
    {
        let entries = copy_entries(alloc, &self.entries)?;
        Ok(Roster {
            entries,
            ups: self.ups.clone()?,
            by_slot: self.by_slot.clone()?,
        })
    }

    /// The children of a node in byte order of their components; a file and a stranger have none.
    pub fn children(&self, alloc: Global, name: &NodeName) -> Result<Vec<NodeName>, NoMemory>
        ensures { IfOk result (λ names. names.items ≡ map (λ (e : Entry). e.name) (children_of self.now name.now)) }
    {
        names_of(
            alloc,
            &self.entries,
            run_of(&self.entries, &self.by_slot, name),
        )
    }

    /// All nodes depth first: a parent before its children, children in byte order of their components.
    pub fn walk(&self, alloc: Global) -> Result<Vec<NodeName>, NoMemory>
        ensures { IfOk result (λ names. names.items ≡ map (λ (e : Entry). e.name) (by_path self.now)) }
    {
        let stops = stops_of(alloc, &self.entries, &self.ups, &self.by_slot)?;
        names_along(alloc, &self.entries, &stops)
    }

    /// The same walk as places, each with the number of its parent's stop: for what is made along it.
    pub fn stops(&self, alloc: Global) -> Result<Vec<Stop>, NoMemory>
        ensures { IfOk result (λ stops. AreStops self.now stops.items) }
    {
        stops_of(alloc, &self.entries, &self.ups, &self.by_slot)
    }
}

/// Where the entry of a name stands.
pub fn place_among(entries: &[Entry], name: &NodeName) -> Option<usize>
    requires rising { IsTrue (rises name_cmp (map (λ (e : Entry). e.name) entries.now)) }
    ensures within { IfSome result (λ at. at < length entries.now) }
    ensures entry { option_and_then (slice_get entries.now) result ≡ entry_of entries.now name.now }
{
    match entries.binary_search_by(|entry| entry.name.compare(name)) {
        Ok(at) => Some(at),
        Err(_) => None,
    }
}

/// Where the entry at a path stands: that of the root, and then of a child for each component.
fn node_among(entries: &[Entry], ups: &[usize], by_slot: &[usize], comps: &[Comp]) -> Option<usize>
    requires rising { IsTrue (rises name_cmp (map (λ (e : Entry). e.name) entries.now)) }
    requires index { IsIndex entries.now by_slot.now }
    requires ups { AreUps entries.now ups.now }
    ensures within { IfSome result (λ at. at < length entries.now) }
    ensures entry { option_and_then (slice_get entries.now) result ≡ node_at entries.now comps.now }
{
    let mut at = root_place(entries, by_slot)?;
    for comp in comps {
        at = child_at(entries, ups, by_slot, at, comp)?;
    }
    Some(at)
}

/// The path of the entry at a place: its components are met from the last one up.
fn path_from(
    alloc: Global,
    entries: &[Entry],
    ups: &[usize],
    place: usize,
) -> Result<Path, NoMemory>
    requires sane { IsSane entries.now }
    requires ups { AreUps entries.now ups.now }
    requires within { place < length entries.now }
    ensures { IfOk result (λ path. path ≡ path_at entries.now place) }
{
    let mut names: Vec<&Comp> = Vec::new(alloc);
    let mut at = place;
    while let Slot::Below { name, .. } = &entries[at].slot {
        names.push(name)?;
        at = ups[at];
    }
    let mut path = Path::root(alloc);
    while let Some(name) = names.pop() {
        path.push(name.copy(alloc)?)?;
    }
    Ok(path)
}

/// The names of the entries at some places.
fn names_of(alloc: Global, entries: &[Entry], places: &[usize]) -> Result<Vec<NodeName>, NoMemory>
    requires { All (λ k. k < length entries.now) places.now }
    ensures { IfOk result (λ names. map Some names.items ≡ map (λ k. option_map (λ (e : Entry). e.name) (slice_get entries.now k)) places.now) }
{
    let mut names = Vec::with_capacity(alloc, places.len())?;
    for place in places {
        names.push(entries[*place].name.copy(alloc)?)?;
    }
    Ok(names)
}

/// The names of the entries at some stops.
fn names_along(alloc: Global, entries: &[Entry], stops: &[Stop]) -> Result<Vec<NodeName>, NoMemory>
    requires { All (λ (s : Stop). s.place < length entries.now) stops.now }
    ensures { IfOk result (λ names. map Some names.items ≡ map (λ (s : Stop). option_map (λ (e : Entry). e.name) (slice_get entries.now s.place)) stops.now) }
{
    let mut names = Vec::with_capacity(alloc, stops.len())?;
    for stop in stops {
        names.push(entries[stop.place].name.copy(alloc)?)?;
    }
    Ok(names)
}

/// Equal entries.
fn copy_entries(alloc: Global, entries: &[Entry]) -> Result<Vec<Entry>, NoMemory>
    ensures { IfOk result (λ copies. copies.items ≡ entries.now) }
{
    let mut copies = Vec::with_capacity(alloc, entries.len())?;
    for entry in entries {
        copies.push(entry.copy(alloc)?)?;
    }
    Ok(copies)
}
