// The stanza of a node, printed without being made.
ghost use Rattle.std.specs.Prelude.{◌≡◌, ◌≤◌, ◌++◌, ◌∷◌, [], ℕ, List, filter_map, is_some, true, OnOk};
ghost use Rattle.std.specs.List.{flat_map, list_any, cons_option};
ghost use Rattle.mtn_basic_io.specs.Spelling.{line_text, longest, stanza_text, spelling};
ghost use Rattle.mtn_base.specs.Front.{IsFront};
ghost use Rattle.mtn_roster.specs.declared.entry.Attr.{Attr};
ghost use Rattle.mtn_manifest.specs.Manifest.{attr_line, body_lines, node_stanza, head_stanza};

use mtn_base::NoMemory;
use mtn_basic_io::{write_id_line, write_pair_line, write_text_line};
use mtn_roster::{Attr, Body, Entry};

fn has_live(attrs: &[Attr]) -> bool
    ensures { result ≡ list_any (λ (a : Attr). is_some a.value) attrs.now }
{
    attrs.iter().any(|attr| attr.value.is_some())
}

/// The column at which the symbols of a node's stanza end.
fn column_of(entry: &Entry) -> usize
    ensures column { (path : List ℕ) → result ≡ longest (node_stanza path entry.now) }
    ensures body { (path : List ℕ) → longest (body_lines path entry.now.body) ≤ result }
    ensures live { list_any (λ (a : Attr). is_some a.value) entry.now.attrs ≡ true → 4 ≤ result }
{
    match entry.body {
        Body::File { .. } => 7,
        Body::Dir => {
            if has_live(entry.attrs.as_slice()) {
                4
            } else {
                3
            }
        }
    }
}

/// Appends the lines of a body at a path, whose symbols end at a column. An error leaves what was there in front.
pub fn write_body(
    column: usize,
    path: &[u8],
    body: &Body,
    out: &mut Vec<u8>,
) -> Result<(), NoMemory>
    requires { longest (body_lines path.now body.now) ≤ column }
    ensures ok { OnOk result (out.new.items ≡ out.old.items ++ flat_map (line_text column) (body_lines path.now body.now)) }
    ensures kept { IsFront out.old.items out.new.items }
{
    match body {
        Body::Dir => write_text_line(column, b"dir", path, out)?,
        Body::File { content } => {
            write_text_line(column, b"file", path, out)?;
            write_id_line(column, b"content", content, out)?;
        }
    }
    Ok(())
}

/// Appends the line of an attribute, if it is live.
fn write_attr(column: usize, attr: &Attr, out: &mut Vec<u8>) -> Result<(), NoMemory>
    requires { is_some attr.now.value ≡ true → 4 ≤ column }
    ensures ok { OnOk result (out.new.items ≡ out.old.items ++ flat_map (line_text column) (cons_option (attr_line attr.now) [])) }
    ensures kept { IsFront out.old.items out.new.items }
{
    if let Some(value) = &attr.value {
        write_pair_line(column, b"attr", attr.key.as_slice(), value.as_slice(), out)?;
    }
    Ok(())
}

/// Appends the lines of the live attributes.
fn write_attrs(column: usize, attrs: &[Attr], out: &mut Vec<u8>) -> Result<(), NoMemory>
    requires { list_any (λ (a : Attr). is_some a.value) attrs.now ≡ true → 4 ≤ column }
    ensures ok { OnOk result (out.new.items ≡ out.old.items ++ flat_map (line_text column) (filter_map attr_line attrs.now)) }
    ensures kept { IsFront out.old.items out.new.items }
{
    for attr in attrs {
        write_attr(column, attr, out)?;
    }
    Ok(())
}

/// Appends the stanza of a node at a path.
pub fn write_node(path: &[u8], entry: &Entry, out: &mut Vec<u8>) -> Result<(), NoMemory>
    ensures ok { OnOk result (out.new.items ≡ out.old.items ++ stanza_text (node_stanza path.now entry.now)) }
    ensures kept { IsFront out.old.items out.new.items }
{
    let column = column_of(entry);
    write_body(column, path, &entry.body, out)?;
    write_attrs(column, entry.attrs.as_slice(), out)?;
    Ok(())
}

/// Appends the first stanza. An error leaves what was there in front.
pub fn write_head(out: &mut Vec<u8>) -> Result<(), NoMemory>
    ensures ok { OnOk result (out.new.items ≡ out.old.items ++ spelling (head_stanza ∷ [])) }
    ensures kept { IsFront out.old.items out.new.items }
{
    write_text_line(14, b"format_version", b"1", out)?;
    Ok(())
}
