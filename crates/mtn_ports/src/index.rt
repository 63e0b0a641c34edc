// Where the newest record of a batch stands, by table and key: a look-up, never a walk.
ghost use Rattle.std.specs.Prelude.{◌≡◌, ◌<◌, ◌≤◌, ◌+◌, ℕ, List, length, option_map, OnOk, OnErr, IfOk, IsSome, None, Some};
ghost use Rattle.mtn_ports.specs.Kept.{LeastOf};
ghost use Rattle.mtn_ports.specs.Newest.{place_in, place_under, SamePlaces, SetsPlace, SetsUnder};

use mtn_base::NoMemory;
use std::alloc::Global;
use std::collections::BTreeMap;
use std::ops::Bound;

// The places of one table, by key.
type Places = BTreeMap<Vec<u8>, usize>;

// One map for each table, up to the greatest one that was named.
#[derive(Drop)]
pub(crate) struct Index {
    tables: Vec<Places>,
}

impl Index {
    pub(crate) fn new(alloc: Global) -> Index
        ensures { (table : ℕ) → (key : List ℕ) → place_in result table key ≡ None }
    {
        Index {
            tables: Vec::new(alloc),
        }
    }

    pub(crate) fn get(&self, table: u8, key: &[u8]) -> Option<usize>
        ensures { result ≡ place_in self.now table key.now }
    {
        match self.tables.get(usize::from(table)) {
            Some(places) => places.get(key).copied(),
            None => None,
        }
    }

    // Puts a place under a key, and answers the one that was there. A refused call changes no place.
    pub(crate) fn put(
        &mut self,
        table: u8,
        key: &[u8],
        place: usize,
    ) -> Result<Option<usize>, NoMemory>
        ensures older { IfOk result (λ older. older ≡ place_in self.old table key.now) }
        ensures ok { OnOk result (SetsPlace self.old self.new table key.now (Some place)) }
        ensures err { OnErr result (SamePlaces self.old self.new) }
    {
        self.reach(table)?;
        let alloc = *self.tables.allocator();
        put_place(alloc, &mut self.tables[usize::from(table)], key, place)
    }

    // Puts back what was under a key before a `put`.
    pub(crate) fn restore(&mut self, table: u8, key: &[u8], older: Option<usize>)
        requires { IsSome (place_in self.old table key.now) }
        ensures { SetsPlace self.old self.new table key.now older }
    {
        restore_place(&mut self.tables[usize::from(table)], key, older);
    }

    // The least key of a table above another.
    pub(crate) fn least_above(
        &self,
        alloc: Global,
        table: u8,
        after: &[u8],
    ) -> Result<Option<&[u8]>, NoMemory>
        ensures { IfOk result (λ found. LeastOf (place_in self.now table) after.now (option_map (λ key. key.now) found)) }
    {
        match self.tables.get(usize::from(table)) {
            Some(places) => first_above(alloc, places, after),
            None => Ok(None),
        }
    }

    // Makes the map of a table.
    fn reach(&mut self, table: u8) -> Result<(), NoMemory>
        ensures places { SamePlaces self.old self.new }
        ensures room { OnOk result (table < length self.new.tables.items) }
    {
        let alloc = *self.tables.allocator();
        while self.tables.len() <= usize::from(table) {
            self.tables.push(BTreeMap::new(alloc))?;
        }
        Ok(())
    }
}

fn put_place(
    alloc: Global,
    places: &mut Places,
    key: &[u8],
    place: usize,
) -> Result<Option<usize>, NoMemory>
    ensures older { IfOk result (λ older. older ≡ place_under places.old key.now) }
    ensures ok { OnOk result (SetsUnder places.old places.new key.now (Some place)) }
    ensures err { OnErr result ((k : List ℕ) → place_under places.new k ≡ place_under places.old k) }
{
    match places.get_mut(key) {
        Some(at) => {
            let older = *at;
            *at = place;
            Ok(Some(older))
        }
        None => {
            places.insert(key.to_vec(alloc)?, place)?;
            Ok(None)
        }
    }
}

fn restore_place(places: &mut Places, key: &[u8], older: Option<usize>)
    requires { IsSome (place_under places.old key.now) }
    ensures { SetsUnder places.old places.new key.now older }
{
    match older {
        Some(place) => {
            if let Some(at) = places.get_mut(key) {
                *at = place;
            }
        }
        None => {
            places.remove(key);
        }
    }
}

fn first_above<'a>(
    alloc: Global,
    places: &'a Places,
    after: &[u8],
) -> Result<Option<&'a [u8]>, NoMemory>
    ensures { IfOk result (λ found. LeastOf (place_under places.now) after.now (option_map (λ key. key.now) found)) }
{
    let start = Bound::Excluded(after.to_vec(alloc)?);
    match places.range((start, Bound::Unbounded)).next() {
        Some((key, _)) => Ok(Some(key.as_slice())),
        None => Ok(None),
    }
}
