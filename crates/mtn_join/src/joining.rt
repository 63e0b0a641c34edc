// The entries of a joined tree, made of those of the left one.
ghost use Rattle.std.specs.Prelude.{◌≡◌, IfOk, IsFalse, IsTrue, Some, map};
ghost use Rattle.mtn_changeset_laws.specs.Joining.{joined_name};
ghost use Rattle.mtn_join.specs.Pairing.{ArePaired, AreMates, paired_slot, paired_entry, unordered_entry};
ghost use Rattle.mtn_roster.specs.Attrs.{are_keyed};
ghost use Rattle.mtn_roster.specs.Tree.{IsSane};
ghost use Rattle.mtn_roster.specs.Walk.{AreStops};
ghost use Rattle.mtn_roster.specs.declared.entry.Slot.{Slot as Hanging};

use crate::attrs::attrs_of_both;
use mtn_base::{Id, NoMemory, NodeName};
use mtn_roster::{Entry, Roster, Slot, Stop};
use std::alloc::Global;

/// For each place of the left tree that of the node of its path in the right one.
pub fn mates_of(
    alloc: Global,
    left: &Roster,
    right: &Roster,
    walk: &[Stop],
    beside: &[Stop],
) -> Result<Vec<usize>, NoMemory>
    requires walk { AreStops left.now walk.now }
    requires beside { AreStops right.now beside.now }
    requires paired { ArePaired left.now right.now }
    ensures { IfOk result (λ mates. AreMates left.now right.now mates.items) }
{
    let _others = right.len();
    let mut mates: Vec<usize> = vec![in alloc; 0; left.len() as usize]?;
    for at in 0..walk.len() {
        mates[walk[at].place] = beside[at].place;
    }
    Ok(mates)
}

/// The name of the old one of two nodes; of two added ones, which have one name, that of the second.
fn name_of(alloc: Global, x: NodeName, y: &NodeName, new: Id) -> Result<NodeName, NoMemory>
    ensures { IfOk result (λ name. (e d : Entry) → e.name ≡ x → d.name ≡ y.now → name ≡ joined_name new e (Some d)) }
{
    if x.birth != new { Ok(x) } else { y.copy(alloc) }
}

/// Whether a slot is below a node that was added.
fn is_below_added(slot: &Slot, new: Id) -> bool
    ensures added { IsTrue result → (t : Hanging) → paired_slot new slot.now t ≡ t }
    ensures old { IsFalse result → (t : Hanging) → paired_slot new slot.now t ≡ slot.now }
{
    match slot {
        Slot::Root => false,
        Slot::Below { parent, name: _ } => {
            if parent.birth != new {
                return false;
            }
            true
        }
    }
}

/// The slot of the first of two nodes, by the joined name of its parent: where that was added, the second has it.
fn slot_of(alloc: Global, x: Slot, y: &Slot, new: Id) -> Result<Slot, NoMemory>
    ensures { IfOk result (λ slot. slot ≡ paired_slot new x y.now) }
{
    if is_below_added(&x, new) {
        y.copy(alloc)
    } else {
        Ok(x)
    }
}

/// What two nodes at one path are joined to.
fn entry_of_pair(alloc: Global, x: Entry, y: &Entry, new: Id) -> Result<Entry, NoMemory>
    requires { IsTrue (are_keyed x.attrs) }
    ensures { IfOk result (λ e. e ≡ paired_entry new x y.now) }
{
    let Entry {
        name,
        slot,
        body,
        attrs,
    } = x;
    Ok(Entry {
        name: name_of(alloc, name, &y.name, new)?,
        slot: slot_of(alloc, slot, &y.slot, new)?,
        body,
        attrs: attrs_of_both(alloc, attrs, y.attrs.as_slice())?,
    })
}

/// The joined entries of two trees with the same paths, by the names in the left one.
pub fn joined_entries(
    alloc: Global,
    left: Vec<Entry>,
    right: Roster,
    mates: Vec<usize>,
    new: Id,
) -> Result<Vec<Entry>, NoMemory>
    requires sane { IsSane left.items }
    requires mates { AreMates left.items right mates.items }
    ensures { IfOk result (λ entries. entries.items ≡ map (unordered_entry left.items right new) left.items) }
{
    let _others = right.len();
    let mut entries = Vec::with_capacity(alloc, left.len())?;
    for x in left {
        let y = right.at_place(mates[entries.len()]).unwrap();
        entries.push(entry_of_pair(alloc, x, y, new)?)?;
    }
    Ok(entries)
}
