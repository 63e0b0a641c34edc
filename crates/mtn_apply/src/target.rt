// The tests on the target of a change.
ghost use Rattle.std.specs.Prelude.{◌≡◌, ◌||◌, ◌&&◌, ◌∷◌, [], ℕ, List, not, take, reverse, option_map, option_and_then, option_copied, is_none, is_some, Some, IfOk};
ghost use Rattle.mtn_base.specs.Names.{same_path};
ghost use Rattle.mtn_base.specs.Lists.{is_some_with};
ghost use Rattle.mtn_roster.specs.Tree.{mtn};
ghost use Rattle.mtn_changeset_laws.specs.Changes.{aside_up, parent_up, is_empty, is_file as stands_file, is_taken as takes, lacks_parent as lacks, is_below_file as below_file, kept_child as kept_below, hangs_there as hangs, is_slot_below as slot_is_below, aims_at};
ghost use Rattle.std.specs.List.{list_any};
ghost use Rattle.mtn_changeset_laws.specs.Changes.Occupant.{Old};
ghost use Rattle.mtn_apply.specs.Old.{seen};
ghost use Rattle.mtn_apply.specs.Index.{IsIndexed, old_of, changes_of};

use crate::index::Edge;
use crate::occupant::{There, kept_child, kept_root, occupant_of};
use mtn_base::{Comp, NoMemory, Path};
use mtn_roster::{Entry, Slot};
use std::alloc::Global;

/// What stands at the parent path of a target, and what at the target itself, targets aside.
#[derive(Drop)]
pub struct Seat<'a> {
    pub parent: Option<There<'a>>,
    pub aside: Option<There<'a>>,
}

pub fn seat_of<'a>(alloc: Global, edge: &Edge<'a>, path: &Path) -> Result<Seat<'a>, NoMemory>
    requires { IsIndexed edge.now }
    ensures parent { IfOk result (λ s. option_map seen s.parent ≡ parent_up (old_of edge.now) (changes_of edge.now) (reverse path.now)) }
    ensures aside { IfOk result (λ s. option_map seen s.aside ≡ aside_up (old_of edge.now) (changes_of edge.now) (reverse path.now)) }
{
    match path.comps().split_last() {
        None => Ok(Seat {
            parent: None,
            aside: kept_root(alloc, edge),
        }),
        Some((name, above)) => {
            let parent = occupant_of(alloc, edge, above)?;
            Ok(Seat {
                parent,
                aside: kept_child(edge, parent, name),
            })
        }
    }
}

/// Whether it is the root path.
pub fn is_root(path: &Path) -> bool
    ensures { result ≡ is_empty path.now }
{
    match path.comps() {
        [] => true,
        _ => false,
    }
}

/// Whether it is the path `_MTN`.
pub fn is_reserved(path: &Path) -> bool
    ensures { result ≡ same_path path.now (mtn ∷ []) }
{
    match path.comps() {
        [name] => name.bytes() == b"_MTN".as_slice(),
        _ => false,
    }
}

/// Whether a file stands there.
pub fn is_file(there: Option<There>) -> bool
    ensures { result ≡ stands_file (option_map seen there.entry) }
{
    match there {
        None => false,
        Some(There::Old { node }) => !node.value.body.is_dir(),
        Some(There::Added { path: _, body }) => !body.is_dir(),
    }
}

/// Whether a change before a position has the target.
fn is_aimed_before(edge: &Edge, at: usize, path: &Path) -> bool
    requires { IsIndexed edge.now }
    ensures { result ≡ list_any (aims_at path.now) (take at (changes_of edge.now)) }
{
    match edge.index.targets.get(path) {
        None => false,
        Some(first) => first < at,
    }
}

/// Whether the target is taken for the change at a position.
pub fn is_taken(edge: &Edge, at: usize, path: &Path, seat: &Seat) -> bool
    requires indexed { IsIndexed edge.now }
    requires aside { option_map seen seat.now.aside ≡ aside_up (old_of edge.now) (changes_of edge.now) (reverse path.now) }
    ensures { result ≡ takes (old_of edge.now) (changes_of edge.now) (take at (changes_of edge.now)) path.now }
{
    is_aimed_before(edge, at, path) || seat.aside.is_some()
}

/// Whether the parent path of a target has no occupant.
pub fn lacks_parent(edge: &Edge, path: &Path, seat: &Seat) -> bool
    requires parent { option_map seen seat.now.parent ≡ parent_up (old_of edge.now) (changes_of edge.now) (reverse path.now) }
    ensures { result ≡ lacks (old_of edge.now) (changes_of edge.now) path.now }
{
    !is_root(path) && seat.parent.is_none()
}

/// Whether the node hangs at a target already.
pub fn hangs_there(edge: &Edge, path: &Path, seat: &Seat, node: &Entry) -> bool
    requires parent { option_map seen seat.now.parent ≡ parent_up (old_of edge.now) (changes_of edge.now) (reverse path.now) }
    ensures { result ≡ hangs (old_of edge.now) (changes_of edge.now) (reverse path.now) node.now }
{
    match path.comps().split_last() {
        None => false,
        Some((name, _)) => is_slot_below(&node.slot, name, seat.parent),
    }
}

/// Whether the slot is the one of that name below what stands there.
fn is_slot_below(slot: &Slot, name: &Comp, above: Option<There>) -> bool
    ensures { result ≡ slot_is_below slot.now name.now (option_map seen above.entry) }
{
    match slot {
        Slot::Root => false,
        Slot::Below { parent, name: own } => match above {
            Some(There::Old { node }) => parent.same(&node.value.name) && own == name,
            _ => false,
        },
    }
}
