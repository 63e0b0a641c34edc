// Maps by names and by paths in which most that is looked up does not stand.
ghost use Rattle.std.specs.Prelude.{◌≡◌, ℕ, List, [], cond, Some, IfOk, OnOk};
ghost use Rattle.mtn_base.specs.Names.{same_name, same_path};
ghost use Rattle.mtn_base.specs.declared.name.NodeName.{NodeName};
ghost use Rattle.mtn_apply.specs.Maps.{of_name, of_path};

use crate::spare::{is_spare, take_spot};
use mtn_base::{NoMemory, NodeName, Path};
use std::alloc::Global;
use std::collections::BTreeMap;
use std::marker::Model;

/// How many marks there are for each entry that is meant to be put into a map.
const MARKS: usize = 8;

/// A map from names to positions, with marks that tell of most names that they are not in it.
#[derive(Drop)]
pub struct NameMap {
    map: BTreeMap<NodeName, usize>,
    spare: Vec<bool>,
}

impl Model for NameMap {
    ghost use Rattle.std.specs.Prelude.{◌≡◌, ℕ, List, true, None};
    ghost use Rattle.mtn_apply.specs.Maps.{of_name};
    ghost use Rattle.mtn_base.specs.declared.name.NodeName.{NodeName};
    ghost use Rattle.mtn_apply.specs.Spare.{is_spare};

    ghost Value = { List (NodeName × ℕ) };

    ghost view = { λ m. m.map.entries };

    ghost invariant = { λ m. (n : NodeName) → is_spare m.spare.items n.path ≡ true → of_name m.map.entries n ≡ None };
}

impl NameMap {
    /// A map without names, with marks for so many. It takes eight bytes for each.
    pub fn new(alloc: Global, count: usize) -> Result<NameMap, NoMemory>
        ensures { IfOk result (λ m. m ≡ []) }
    {
        Ok(NameMap {
            map: BTreeMap::new(alloc),
            spare: vec![in alloc; true; count.saturating_mul(MARKS)]?,
        })
    }

    /// What a name has.
    pub fn get(&self, name: &NodeName) -> Option<usize>
        ensures { result ≡ of_name self.now name.now }
    {
        if is_spare(&self.spare, &name.path) {
            return None;
        }
        self.map.get(name).copied()
    }

    /// Gives a name another position, and answers the one that it had.
    pub fn insert(&mut self, name: NodeName, at: usize) -> Result<Option<usize>, NoMemory>
        ensures old { IfOk result (λ old. old ≡ of_name self.old name) }
        ensures updates { OnOk result ((n : NodeName) → of_name self.new n ≡ cond (same_name name n) (Some at) (of_name self.old n)) }
    {
        take_spot(&mut self.spare, &name.path);
        Ok(self.map.insert(name, at)?)
    }
}

/// The same of paths.
#[derive(Drop)]
pub struct PathMap {
    map: BTreeMap<Path, usize>,
    spare: Vec<bool>,
}

impl Model for PathMap {
    ghost use Rattle.std.specs.Prelude.{◌≡◌, ℕ, List, true, None};
    ghost use Rattle.mtn_apply.specs.Maps.{of_path};
    ghost use Rattle.mtn_apply.specs.Spare.{is_spare};

    ghost Value = { List (List (List ℕ) × ℕ) };

    ghost view = { λ m. m.map.entries };

    ghost invariant = { λ m. (q : List (List ℕ)) → is_spare m.spare.items q ≡ true → of_path m.map.entries q ≡ None };
}

impl PathMap {
    /// A map without paths, with marks for so many. It takes eight bytes for each.
    pub fn new(alloc: Global, count: usize) -> Result<PathMap, NoMemory>
        ensures { IfOk result (λ m. m ≡ []) }
    {
        Ok(PathMap {
            map: BTreeMap::new(alloc),
            spare: vec![in alloc; true; count.saturating_mul(MARKS)]?,
        })
    }

    /// What a path has.
    pub fn get(&self, path: &Path) -> Option<usize>
        ensures { result ≡ of_path self.now path.now }
    {
        if is_spare(&self.spare, path) {
            return None;
        }
        self.map.get(path).copied()
    }

    /// Gives a path another position, and answers the one that it had.
    pub fn insert(&mut self, path: Path, at: usize) -> Result<Option<usize>, NoMemory>
        ensures { OnOk result ((q : List (List ℕ)) → of_path self.new q ≡ cond (same_path path q) (Some at) (of_path self.old q)) }
    {
        take_spot(&mut self.spare, &path);
        Ok(self.map.insert(path, at)?)
    }
}
