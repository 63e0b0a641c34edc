// The walk over the nodes.
ghost use Rattle.std.specs.Prelude.{◌≡◌, ◌++◌, ◌∷◌, map, OnOk, OnErr, IsTrue};
ghost use Rattle.mtn_base.specs.Names.{bytes_cmp};
ghost use Rattle.mtn_base.specs.Front.{IsFront};
ghost use Rattle.mtn_basic_io.specs.Spelling.{spelling, stanza_text};
ghost use Rattle.mtn_marking.specs.declared.node.AttrMarks.{AttrMarks};
ghost use Rattle.mtn_marking.specs.Marking.{AreFor};
ghost use Rattle.mtn_base.specs.Lists.{rises};
ghost use Rattle.mtn_roster_text.specs.Naming.{ids_by, ids_in};
ghost use Rattle.mtn_roster_text.specs.RosterText.{marked_stanza, roster_of};

use crate::IdTable;
use crate::printing::{Spare, write_node};
use mtn_base::NoMemory;
use mtn_manifest::{kept_of, put_text, write_head};
use mtn_marking::{MarkMap, MarkedRoster, Marking};
use mtn_roster::{Entry, Roster};

/// Appends one more stanza.
fn write_next(
    table: &IdTable,
    path: &[u8],
    entry: &Entry,
    marking: &Marking,
    spare: &mut Spare,
    out: &mut Vec<u8>,
) -> Result<(), NoMemory>
    requires { IsTrue (rises bytes_cmp (map (λ (a : AttrMarks). a.key) marking.now.attrs)) }
    ensures ok { OnOk result (out.new.items ≡ out.old.items ++ 10 ∷ stanza_text (marked_stanza (ids_by table.now marking.now) path.now entry.now)) }
    ensures kept { IsFront out.old.items out.new.items }
{
    out.push(b'\n')?;
    write_node(table, path, entry, marking, spare, out)
}

/// Appends the stanzas, node by node along the walk.
fn write_all(
    tree: &Roster,
    marks: &MarkMap,
    table: &IdTable,
    out: &mut Vec<u8>,
) -> Result<(), NoMemory>
    requires { AreFor tree.now marks.now }
    ensures ok { OnOk result (out.new.items ≡ out.old.items ++ spelling (roster_of tree.now (ids_in table.now marks.now))) }
    ensures kept { IsFront out.old.items out.new.items }
{
    let alloc = *out.allocator();
    let _nodes = tree.len();
    let _marked = marks.len();
    let stops = tree.stops(alloc)?;
    let mut kept = Vec::with_capacity(alloc, stops.len())?;
    let mut text = Vec::new(alloc);
    let mut spare = Spare::new(alloc);
    write_head(out)?;
    for stop in &stops {
        let entry = tree.at_place(stop.place).unwrap();
        let node = marks.at_place(stop.place).unwrap();
        put_text(&kept, &entry.slot, stop.above, &mut text)?;
        kept.push(kept_of(alloc, &text, entry)?)?;
        write_next(table, &text, entry, &node.marking, &mut spare, out)?;
    }
    Ok(())
}

/// Appends the text of a roster, where the table has the ids of the positions of its marks; a mark whose position
/// the table lacks is left out. An `Err` leaves `out` as it was.
pub fn write(roster: &MarkedRoster, table: &IdTable, out: &mut Vec<u8>) -> Result<(), NoMemory>
    ensures ok { OnOk result (out.new.items ≡ out.old.items ++ spelling (roster_of roster.now.tree (ids_in table.now roster.now.marks))) }
    ensures err { OnErr result (out.new.items ≡ out.old.items) }
{
    let len = out.len();
    let written = write_all(roster.roster(), roster.marks(), table, out);
    if written.is_err() {
        out.truncate(len);
    }
    written
}
