//! The manifest of a tree: the text whose hash a revision names.
//!
//! A manifest is a text of stanzas: `format_version "1"`, then one stanza for each node in the order of
//! their paths, `dir "p"` or `file "p"` with `content [id]`, and one line `attr "k" "v"` for each live
//! attribute in byte order of keys. Cleared keys do not appear; the root is `dir ""`.
//!
//! The crates above rely on this: `write` appends the printed form of exactly these stanzas.
//!
//! Cost: one walk, or none where the caller has it (`write_along`); the path of a node is made from its parent's, and each
//! stanza is printed straight into the text. Besides that it takes the paths of the directories.
#![tactic(auto)]

ghost use Rattle.std.specs.Prelude.{◌≡◌, ◌++◌, ◌∷◌, IfOk, OnOk, OnErr};
ghost use Rattle.mtn_basic_io.specs.Spelling.{stanza_text, spelling};
ghost use Rattle.mtn_base.specs.Front.{IsFront};
ghost use Rattle.mtn_roster.specs.Walk.{AreStops};
ghost use Rattle.mtn_manifest.specs.Manifest.{node_stanza, manifest_of, text_at, kept_at, IsMet};

mod printing;

use crate::printing::write_node;
use mtn_base::{Bytes, NoMemory};
use mtn_roster::{Entry, Roster, Slot, Stop};
pub use printing::{write_body, write_head};
use std::alloc::Global;

/// Two texts as one.
fn joined(alloc: Global, front: &[u8], end: &[u8]) -> Result<Bytes, NoMemory>
    ensures { IfOk result (λ text. text ≡ front.now ++ end.now) }
{
    let mut text = Vec::with_capacity(alloc, front.len() + end.len())?;
    text.extend_from_slice(front)?;
    text.extend_from_slice(end)?;
    Ok(Bytes::from_vec(text))
}

/// Makes the text of the path of what hangs there, by what is kept of the nodes before: for a caller that walks
/// over a tree as `write` does.
pub fn put_text(
    kept: &[Bytes],
    slot: &Slot,
    above: usize,
    text: &mut Vec<u8>,
) -> Result<(), NoMemory>
    requires { IsMet kept.now slot.now above }
    ensures { OnOk result (text.new.items ≡ text_at kept.now slot.now above) }
{
    text.clear();
    if let Slot::Below { name, .. } = slot {
        text.extend_from_slice(kept[above].as_slice())?;
        text.extend_from_slice(name.bytes())?;
    }
    Ok(())
}

/// What is kept of a node at a path for its children: what stands before their components. A file has none.
pub fn kept_of(alloc: Global, text: &[u8], entry: &Entry) -> Result<Bytes, NoMemory>
    ensures { IfOk result (λ kept. kept ≡ kept_at text.now entry.now) }
{
    if entry.body.is_dir() && !entry.slot.is_root() {
        joined(alloc, text, b"/")
    } else {
        Ok(Bytes::new(alloc))
    }
}

/// Appends one more stanza.
fn write_next(path: &[u8], entry: &Entry, out: &mut Vec<u8>) -> Result<(), NoMemory>
    ensures ok { OnOk result (out.new.items ≡ out.old.items ++ 10 ∷ stanza_text (node_stanza path.now entry.now)) }
    ensures kept { IsFront out.old.items out.new.items }
{
    out.push(b'\n')?;
    write_node(path, entry, out)?;
    Ok(())
}

/// Appends the stanzas, node by node along the walk.
fn write_all(roster: &Roster, stops: &[Stop], out: &mut Vec<u8>) -> Result<(), NoMemory>
    requires { AreStops roster.now stops.now }
    ensures ok { OnOk result (out.new.items ≡ out.old.items ++ spelling (manifest_of roster.now)) }
    ensures kept { IsFront out.old.items out.new.items }
{
    let alloc = *out.allocator();
    let _nodes = roster.len();
    let mut kept = Vec::with_capacity(alloc, stops.len())?;
    let mut text = Vec::new(alloc);
    write_head(out)?;
    for stop in stops {
        let entry = roster.at_place(stop.place).unwrap();
        put_text(&kept, &entry.slot, stop.above, &mut text)?;
        kept.push(kept_of(alloc, &text, entry)?)?;
        write_next(&text, entry, out)?;
    }
    Ok(())
}

/// Appends the manifest of a tree whose walk the caller has. An `Err` leaves `out` as it was.
pub fn write_along(roster: &Roster, stops: &[Stop], out: &mut Vec<u8>) -> Result<(), NoMemory>
    requires { AreStops roster.now stops.now }
    ensures ok { OnOk result (out.new.items ≡ out.old.items ++ spelling (manifest_of roster.now)) }
    ensures err { OnErr result (out.new.items ≡ out.old.items) }
{
    let len = out.len();
    let written = write_all(roster, stops, out);
    if written.is_err() {
        out.truncate(len);
    }
    written
}

/// Appends the manifest of a tree. An `Err` leaves `out` as it was.
pub fn write(roster: &Roster, out: &mut Vec<u8>) -> Result<(), NoMemory>
    ensures ok { OnOk result (out.new.items ≡ out.old.items ++ spelling (manifest_of roster.now)) }
    ensures err { OnErr result (out.new.items ≡ out.old.items) }
{
    let stops = roster.stops(*out.allocator())?;
    write_along(roster, &stops, out)
}
