// The stanza of a node with its marks, printed without being made.
ghost use Rattle.std.specs.Prelude.{◌≡◌, ◌≤◌, ◌++◌, [], ℕ, List, false, true, is_none, map, unwrap_or, option_copied, codes, OnOk, IsTrue};
ghost use Rattle.std.specs.List.{flat_map, list_any};
ghost use Rattle.mtn_base.specs.Names.{bytes_cmp};
ghost use Rattle.mtn_base.specs.declared.id.Id.{Id};
ghost use Rattle.mtn_base.specs.declared.name.NodeName.{NodeName};
ghost use Rattle.mtn_basic_io.specs.Spelling.{line_text, longest, stanza_text};
ghost use Rattle.mtn_base.specs.Front.{IsFront};
ghost use Rattle.mtn_history_laws.specs.Scalars.{Scalar};
ghost use Rattle.mtn_marking.specs.declared.node.AttrMarks.{AttrMarks};
ghost use Rattle.mtn_roster.specs.declared.entry.Attr.{Attr};
ghost use Rattle.mtn_roster.specs.Tree.{is_dir_body};
ghost use Rattle.mtn_base.specs.Lists.{rises};
ghost use Rattle.mtn_roster_text.specs.Naming.{ids_at, ids_by};
ghost use Rattle.mtn_roster_text.specs.RosterText.{attr_lines, birth_line, content_marks, ids_line, marked_stanza, node_marks, value_line};

use crate::IdTable;
use crate::naming::{marks_of_key, positions_in, put_ids};
use mtn_ancestry::{Pos, PosSet};
use mtn_base::{Id, NoMemory, NodeName};
use mtn_basic_io::{
    write_id_text_line, write_ids_line, write_pair_line, write_text_ids_line, write_text_line,
};
use mtn_manifest::write_body;
use mtn_marking::Marking;
use mtn_roster::{Attr, Body, Entry};
use std::alloc::Global;

/// Room that is used again from node to node.
#[derive(Drop)]
pub struct Spare {
    ids: Vec<Id>,
    path: Vec<u8>,
}

impl Spare {
    pub fn new(alloc: Global) -> Spare {
        Spare {
            ids: Vec::new(alloc),
            path: Vec::new(alloc),
        }
    }
}

fn has_cleared(attrs: &[Attr]) -> bool
    ensures { result ≡ list_any (λ (a : Attr). is_none a.value) attrs.now }
{
    attrs.iter().any(|attr| attr.value.is_none())
}

/// The column at which the symbols of a node's stanza end.
fn column_of(entry: &Entry) -> usize
    ensures column { (ids : Scalar → List Id) (path : List ℕ) → result ≡ longest (marked_stanza ids path entry.now) }
    ensures least { 9 ≤ result }
    ensures file { is_dir_body entry.now.body ≡ false → 12 ≤ result }
    ensures cleared { list_any (λ (a : Attr). is_none a.value) entry.now.attrs ≡ true → 12 ≤ result }
{
    match entry.body {
        Body::File { .. } => 12,
        Body::Dir => {
            if has_cleared(entry.attrs.as_slice()) {
                12
            } else {
                9
            }
        }
    }
}

/// Appends where a node was born.
fn write_birth(
    column: usize,
    name: &NodeName,
    spare: &mut Spare,
    out: &mut Vec<u8>,
) -> Result<(), NoMemory>
    requires { 9 ≤ column }
    ensures ok { OnOk result (out.new.items ≡ out.old.items ++ line_text column (birth_line name.now)) }
    ensures kept { IsFront out.old.items out.new.items }
{
    spare.path.clear();
    name.path.write(&mut spare.path)?;
    write_id_text_line(column, b"birth", &name.birth, &spare.path, out)
}

/// Appends the marks of the slot of a node.
fn write_slot_marks(
    column: usize,
    table: &IdTable,
    marks: &[Pos],
    spare: &mut Spare,
    out: &mut Vec<u8>,
) -> Result<(), NoMemory>
    requires { 9 ≤ column }
    ensures ok { OnOk result (out.new.items ≡ out.old.items ++ line_text column (ids_line (codes "path_mark") (ids_at table.now marks.now))) }
    ensures kept { IsFront out.old.items out.new.items }
{
    put_ids(table, marks, &mut spare.ids)?;
    write_ids_line(column, b"path_mark", &spare.ids, out)
}

/// Appends the marks of the content of a node, if it is a file.
fn write_content_marks(
    column: usize,
    table: &IdTable,
    body: &Body,
    marks: Option<&PosSet>,
    spare: &mut Spare,
    out: &mut Vec<u8>,
) -> Result<(), NoMemory>
    requires { is_dir_body body.now ≡ false → 12 ≤ column }
    ensures ok { OnOk result (out.new.items ≡ out.old.items ++ flat_map (line_text column) (content_marks (ids_at table.now (unwrap_or (option_copied marks.entry) [])) body.now)) }
    ensures kept { IsFront out.old.items out.new.items }
{
    match body {
        Body::Dir => Ok(()),
        Body::File { .. } => {
            put_ids(table, positions_in(marks), &mut spare.ids)?;
            write_ids_line(column, b"content_mark", &spare.ids, out)
        }
    }
}

/// Appends an attribute, live or cleared.
fn write_value(column: usize, attr: &Attr, out: &mut Vec<u8>) -> Result<(), NoMemory>
    requires least { 9 ≤ column }
    requires cleared { is_none attr.now.value ≡ true → 12 ≤ column }
    ensures ok { OnOk result (out.new.items ≡ out.old.items ++ line_text column (value_line attr.now.key attr.now.value)) }
    ensures kept { IsFront out.old.items out.new.items }
{
    let key = attr.key.as_slice();
    match &attr.value {
        Some(value) => write_pair_line(column, b"attr", key, value.as_slice(), out),
        None => write_text_line(column, b"dormant_attr", key, out),
    }
}

/// Appends an attribute with its marks.
fn write_attr(
    column: usize,
    table: &IdTable,
    attr: &Attr,
    marking: &Marking,
    spare: &mut Spare,
    out: &mut Vec<u8>,
) -> Result<(), NoMemory>
    requires least { 9 ≤ column }
    requires cleared { is_none attr.now.value ≡ true → 12 ≤ column }
    requires rising { IsTrue (rises bytes_cmp (map (λ (a : AttrMarks). a.key) marking.now.attrs)) }
    ensures ok { OnOk result ((n : NodeName) → out.new.items ≡ out.old.items ++ flat_map (line_text column) (attr_lines (ids_by table.now marking.now) n attr.now)) }
    ensures kept { IsFront out.old.items out.new.items }
{
    let key = attr.key.as_slice();
    let marks = marks_of_key(marking.attrs.as_slice(), key);
    write_value(column, attr, out)?;
    put_ids(table, positions_in(marks), &mut spare.ids)?;
    write_text_ids_line(column, b"attr_mark", key, &spare.ids, out)
}

/// Appends the attributes with their marks.
fn write_attrs(
    column: usize,
    table: &IdTable,
    attrs: &[Attr],
    marking: &Marking,
    spare: &mut Spare,
    out: &mut Vec<u8>,
) -> Result<(), NoMemory>
    requires least { 9 ≤ column }
    requires cleared { list_any (λ (a : Attr). is_none a.value) attrs.now ≡ true → 12 ≤ column }
    requires rising { IsTrue (rises bytes_cmp (map (λ (a : AttrMarks). a.key) marking.now.attrs)) }
    ensures ok { OnOk result ((n : NodeName) → out.new.items ≡ out.old.items ++ flat_map (line_text column) (flat_map (attr_lines (ids_by table.now marking.now) n) attrs.now)) }
    ensures kept { IsFront out.old.items out.new.items }
{
    for attr in attrs {
        write_attr(column, table, attr, marking, spare, out)?;
    }
    Ok(())
}

/// Appends where a node was born, and the marks of its slot and of its content.
fn write_marks(
    column: usize,
    table: &IdTable,
    entry: &Entry,
    marking: &Marking,
    spare: &mut Spare,
    out: &mut Vec<u8>,
) -> Result<(), NoMemory>
    requires least { 9 ≤ column }
    requires file { is_dir_body entry.now.body ≡ false → 12 ≤ column }
    ensures ok { OnOk result (out.new.items ≡ out.old.items ++ flat_map (line_text column) (node_marks (ids_by table.now marking.now) entry.now.name entry.now.body)) }
    ensures kept { IsFront out.old.items out.new.items }
{
    write_birth(column, &entry.name, spare, out)?;
    write_slot_marks(column, table, marking.slot.as_slice(), spare, out)?;
    let content = marking.content.as_ref();
    write_content_marks(column, table, &entry.body, content, spare, out)
}

/// Appends the stanza of a node at a path.
pub fn write_node(
    table: &IdTable,
    path: &[u8],
    entry: &Entry,
    marking: &Marking,
    spare: &mut Spare,
    out: &mut Vec<u8>,
) -> Result<(), NoMemory>
    requires { IsTrue (rises bytes_cmp (map (λ (a : AttrMarks). a.key) marking.now.attrs)) }
    ensures ok { OnOk result (out.new.items ≡ out.old.items ++ stanza_text (marked_stanza (ids_by table.now marking.now) path.now entry.now)) }
    ensures kept { IsFront out.old.items out.new.items }
{
    let column = column_of(entry);
    let attrs = entry.attrs.as_slice();
    write_body(column, path, &entry.body, out)?;
    write_marks(column, table, entry, marking, spare, out)?;
    write_attrs(column, table, attrs, marking, spare, out)
}
