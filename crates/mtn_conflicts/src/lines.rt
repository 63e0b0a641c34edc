// The lines of an item of conflicts.
ghost use Rattle.std.specs.Prelude.{◌≡◌, ◌++◌, ◌∷◌, [], ◌≤◌, ℕ, List, None, length, max, replicate, OnOk};
ghost use Rattle.std.specs.List.{flat_map};
ghost use Rattle.mtn_basic_io.specs.Spelling.{line_text, longest};
ghost use Rattle.mtn_basic_io.specs.declared.stanza.Value.TheVariants.{Text, Hex};
ghost use Rattle.mtn_conflicts.specs.declared.item.Side.TheVariants.{Attr as OfAttr};
ghost use Rattle.mtn_conflicts.specs.ConflictText.{both_lines, item_stanza, left_lines, line_of, more_lines, name_line, node_line, parent_line, parent_lines, right_lines, slot_lines};

use crate::item::{Item, Side};
use crate::kind::Kind;
use mtn_base::{Bytes, NoMemory, NodeName};
use mtn_basic_io::{write_id_line, write_id_text_line, write_text_line};
use mtn_roster::Slot;

/// The length of the longest symbol of left's lines.
fn left_width(side: &Side) -> usize
    ensures { (key : List ℕ) → result ≡ longest (left_lines key side.now) }
{
    match side {
        Side::Nothing => 0,
        Side::At(_) => 11,
        Side::Content(_) => 12,
        Side::Attr(None) => 12,
        Side::Attr(Some(_)) => 10,
    }
}

/// The length of the longest symbol of right's lines.
fn right_width(side: &Side) -> usize
    ensures { (key : List ℕ) → result ≡ longest (right_lines key side.now) }
{
    match side {
        Side::Nothing => 0,
        Side::At(_) => 12,
        Side::Content(_) => 13,
        Side::Attr(None) => 13,
        Side::Attr(Some(_)) => 11,
    }
}

/// The column of a stanza of what both sides have, with a key or without.
fn both_column(item: &Item) -> usize
    ensures plain { result ≡ max 8 (max 4 (longest (both_lines item.now))) }
    ensures keyed { result ≡ max 8 (max 4 (max 3 (longest (both_lines item.now)))) }
{
    let left = left_width(&item.left);
    let right = right_width(&item.right);
    left.max(right).max(8)
}

/// The column at which the symbols of an item's stanza end.
#[tactic(auto, using(crate::proofs::Written::column_steps))]
pub fn column_of(kind: Kind, item: &Item) -> usize
    ensures { result ≡ longest (item_stanza kind item.now) }
{
    match kind {
        Kind::InvalidName => 8,
        Kind::DirectoryLoop => 8,
        Kind::OrphanedNode => 8,
        Kind::DuplicateName => 8,
        Kind::MultipleName => both_column(item),
        Kind::Attribute => both_column(item),
        Kind::Content => both_column(item),
        Kind::DroppedModified => both_column(item),
    }
}

/// Appends spaces.
fn write_spaces(count: usize, out: &mut Vec<u8>) -> Result<(), NoMemory>
    ensures { OnOk result (out.new.items ≡ out.old.items ++ replicate count 32) }
{
    for _ in 0..count {
        out.push(b' ')?;
    }
    Ok(())
}

/// Appends the line of no node.
#[tactic(auto, unfolding(mtn_basic_io::specs::Spelling::line_text, mtn_basic_io::specs::Spelling::value_text))]
fn write_nowhere(column: usize, symbol: &[u8], out: &mut Vec<u8>) -> Result<(), NoMemory>
    requires { length symbol.now ≤ column }
    ensures { OnOk result (out.new.items ≡ out.old.items ++ line_text column (line_of symbol.now (Hex None ∷ Text [] ∷ []))) }
{
    write_spaces(column - symbol.len(), out)?;
    out.extend_from_slice(symbol)?;
    out.extend_from_slice(b" [] \"\"\n")?;
    Ok(())
}

/// Appends the line of a node.
pub fn write_node(
    column: usize,
    symbol: &[u8],
    node: &NodeName,
    path: &mut Vec<u8>,
    out: &mut Vec<u8>,
) -> Result<(), NoMemory>
    requires { length symbol.now ≤ column }
    ensures { OnOk result (out.new.items ≡ out.old.items ++ line_text column (node_line symbol.now node.now)) }
{
    path.clear();
    node.path.write(path)?;
    write_id_text_line(column, symbol, &node.birth, path, out)
}

/// Appends the line of the parent in a slot.
fn write_parent(
    column: usize,
    symbol: &[u8],
    slot: &Slot,
    path: &mut Vec<u8>,
    out: &mut Vec<u8>,
) -> Result<(), NoMemory>
    requires { length symbol.now ≤ column }
    ensures { OnOk result (out.new.items ≡ out.old.items ++ line_text column (parent_line symbol.now slot.now)) }
{
    match slot {
        Slot::Root => write_nowhere(column, symbol, out),
        Slot::Below { parent, .. } => write_node(column, symbol, parent, path, out),
    }
}

/// Appends the line of the name in a slot.
fn write_name(column: usize, symbol: &[u8], slot: &Slot, out: &mut Vec<u8>) -> Result<(), NoMemory>
    requires { length symbol.now ≤ column }
    ensures { OnOk result (out.new.items ≡ out.old.items ++ line_text column (name_line symbol.now slot.now)) }
{
    match slot {
        Slot::Root => write_text_line(column, symbol, b"", out),
        Slot::Below { name, .. } => write_text_line(column, symbol, name.bytes(), out),
    }
}

/// Appends the decided parent.
fn write_place(
    column: usize,
    side: &Side,
    path: &mut Vec<u8>,
    out: &mut Vec<u8>,
) -> Result<(), NoMemory>
    requires { 8 ≤ column }
    ensures { OnOk result (out.new.items ≡ out.old.items ++ flat_map (line_text column) (parent_lines side.now)) }
{
    if let Side::At(slot) = side {
        write_parent(column, b"parent", slot, path, out)?;
    }
    Ok(())
}

/// Appends the decided parent and name.
fn write_slot(
    column: usize,
    side: &Side,
    path: &mut Vec<u8>,
    out: &mut Vec<u8>,
) -> Result<(), NoMemory>
    requires { 8 ≤ column }
    ensures { OnOk result (out.new.items ≡ out.old.items ++ flat_map (line_text column) (slot_lines side.now)) }
{
    if let Side::At(slot) = side {
        write_parent(column, b"parent", slot, path, out)?;
        write_name(column, b"name", slot, out)?;
    }
    Ok(())
}

/// Appends left's value of an attribute.
fn write_left_value(
    column: usize,
    key: &Bytes,
    value: &Option<Bytes>,
    out: &mut Vec<u8>,
) -> Result<(), NoMemory>
    requires { longest (left_lines key.now (OfAttr value.now)) ≤ column }
    ensures { OnOk result (out.new.items ≡ out.old.items ++ flat_map (line_text column) (left_lines key.now (OfAttr value.now))) }
{
    match value {
        None => write_text_line(column, b"left_cleared", key.as_slice(), out),
        Some(bytes) => write_text_line(column, b"left_value", bytes.as_slice(), out),
    }
}

/// Appends what left has.
fn write_left(
    column: usize,
    key: &Bytes,
    side: &Side,
    path: &mut Vec<u8>,
    out: &mut Vec<u8>,
) -> Result<(), NoMemory>
    requires { longest (left_lines key.now side.now) ≤ column }
    ensures { OnOk result (out.new.items ≡ out.old.items ++ flat_map (line_text column) (left_lines key.now side.now)) }
{
    match side {
        Side::Nothing => Ok(()),
        Side::At(slot) => {
            write_parent(column, b"left_parent", slot, path, out)?;
            write_name(column, b"left_name", slot, out)
        }
        Side::Content(content) => write_id_line(column, b"left_content", content, out),
        Side::Attr(value) => write_left_value(column, key, value, out),
    }
}

/// Appends right's value of an attribute.
fn write_right_value(
    column: usize,
    key: &Bytes,
    value: &Option<Bytes>,
    out: &mut Vec<u8>,
) -> Result<(), NoMemory>
    requires { longest (right_lines key.now (OfAttr value.now)) ≤ column }
    ensures { OnOk result (out.new.items ≡ out.old.items ++ flat_map (line_text column) (right_lines key.now (OfAttr value.now))) }
{
    match value {
        None => write_text_line(column, b"right_cleared", key.as_slice(), out),
        Some(bytes) => write_text_line(column, b"right_value", bytes.as_slice(), out),
    }
}

/// Appends what right has.
fn write_right(
    column: usize,
    key: &Bytes,
    side: &Side,
    path: &mut Vec<u8>,
    out: &mut Vec<u8>,
) -> Result<(), NoMemory>
    requires { longest (right_lines key.now side.now) ≤ column }
    ensures { OnOk result (out.new.items ≡ out.old.items ++ flat_map (line_text column) (right_lines key.now side.now)) }
{
    match side {
        Side::Nothing => Ok(()),
        Side::At(slot) => {
            write_parent(column, b"right_parent", slot, path, out)?;
            write_name(column, b"right_name", slot, out)
        }
        Side::Content(content) => write_id_line(column, b"right_content", content, out),
        Side::Attr(value) => write_right_value(column, key, value, out),
    }
}

/// Appends what both sides have.
#[tactic(auto, using(crate::proofs::Written::both_steps))]
fn write_both(
    column: usize,
    item: &Item,
    path: &mut Vec<u8>,
    out: &mut Vec<u8>,
) -> Result<(), NoMemory>
    requires { longest (both_lines item.now) ≤ column }
    ensures { OnOk result (out.new.items ≡ out.old.items ++ flat_map (line_text column) (both_lines item.now)) }
{
    write_left(column, &item.key, &item.left, path, out)?;
    write_right(column, &item.key, &item.right, path, out)
}

/// Appends the lines behind that of the node.
pub fn write_more(
    column: usize,
    kind: Kind,
    item: &Item,
    path: &mut Vec<u8>,
    out: &mut Vec<u8>,
) -> Result<(), NoMemory>
    requires least { 8 ≤ column }
    requires wide { longest (more_lines kind item.now) ≤ column }
    ensures { OnOk result (out.new.items ≡ out.old.items ++ flat_map (line_text column) (more_lines kind item.now)) }
{
    match kind {
        Kind::InvalidName => write_place(column, &item.left, path, out),
        Kind::DirectoryLoop => write_place(column, &item.left, path, out),
        Kind::OrphanedNode => write_slot(column, &item.left, path, out),
        Kind::DuplicateName => write_slot(column, &item.left, path, out),
        Kind::Attribute => {
            write_text_line(column, b"key", item.key.as_slice(), out)?;
            write_both(column, item, path, out)
        }
        Kind::MultipleName => write_both(column, item, path, out),
        Kind::Content => write_both(column, item, path, out),
        Kind::DroppedModified => write_both(column, item, path, out),
    }
}
