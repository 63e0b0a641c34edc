// Marks that tell of most paths that they are not in a map, with no comparison.
ghost use Rattle.std.specs.Prelude.{◌≡◌, ℕ, List, true, false, length};
ghost use Rattle.mtn_apply.specs.Spare.{number, last_number, spot, is_spare as spares};

use mtn_base::{Comp, Path};

/// A number of some bytes.
fn number_of(bytes: &[u8]) -> usize
    ensures { result ≡ number bytes.now }
{
    let mut number: usize = 0;
    for byte in bytes {
        number = (number * 31 + *byte as usize) % 65536;
    }
    number
}

/// The number of the last component.
fn last_number_of(comps: &[Comp]) -> usize
    ensures { result ≡ last_number comps.now }
{
    match comps.last() {
        None => 0,
        Some(comp) => number_of(comp.bytes()),
    }
}

/// Which of so many marks tells of a path.
fn spot_of(count: usize, path: &Path) -> usize
    ensures { result ≡ spot count path.now }
{
    if count == 0 {
        0
    } else {
        last_number_of(path.comps()) % count
    }
}

/// Whether the mark of a path says that it is not in the map. Other paths have the same mark.
pub fn is_spare(spare: &[bool], path: &Path) -> bool
    ensures { result ≡ spares spare.now path.now }
{
    match spare.get(spot_of(spare.len(), path)) {
        None => false,
        Some(spare) => *spare,
    }
}

/// Notes that a path is in the map.
pub fn take_spot(spare: &mut Vec<bool>, path: &Path)
    ensures taken { spares spare.new.items path.now ≡ false }
    ensures others { (q : List (List ℕ)) → spares spare.new.items q ≡ true → spares spare.old.items q ≡ true }
{
    let at = spot_of(spare.len(), path);
    if at < spare.len() {
        spare[at] = false;
    }
}
