// The text of conflicts.
ghost use Rattle.std.specs.Prelude.{◌≡◌, ◌++◌, ◌∷◌, map, OnOk, OnErr};
ghost use Rattle.std.specs.List.{flat_map};
ghost use Rattle.mtn_basic_io.specs.Spelling.{line_text, stanza_text, spelling};
ghost use Rattle.mtn_conflicts.specs.ConflictText.{IsLesser, conflict_line, conflict_stanzas, item_stanza, kind_name, list_stanzas, more_lines, node_line, root_stanzas, sides_stanza, version_stanza};
ghost use Rattle.mtn_conflicts.specs.Printing.{behind};

use crate::item::Item;
use crate::kind::Kind;
use crate::lines::{column_of, write_more, write_node};
use crate::lists::Conflicts;
use mtn_base::{Id, NoMemory};
use mtn_basic_io::{write_id_line, write_text_line};

/// Appends the stanza of an item.
fn write_item(
    kind: Kind,
    item: &Item,
    path: &mut Vec<u8>,
    out: &mut Vec<u8>,
) -> Result<(), NoMemory>
    ensures { OnOk result (out.new.items ≡ out.old.items ++ 10 ∷ stanza_text (item_stanza kind item.now)) }
{
    let column = column_of(kind, item);
    out.push(b'\n')?;
    write_text_line(column, b"conflict", kind.name(), out)?;
    write_node(column, b"node", &item.node, path, out)?;
    write_more(column, kind, item, path, out)
}

/// Appends the stanzas of the items of a list.
fn write_items(
    kind: Kind,
    items: &[Item],
    path: &mut Vec<u8>,
    out: &mut Vec<u8>,
) -> Result<(), NoMemory>
    ensures { OnOk result (out.new.items ≡ out.old.items ++ behind (map (item_stanza kind) items.now)) }
{
    for item in items {
        write_item(kind, item, path, out)?;
    }
    Ok(())
}

/// Appends the first two stanzas.
fn write_head(left: Id, right: Id, out: &mut Vec<u8>) -> Result<(), NoMemory>
    ensures { OnOk result (out.new.items ≡ out.old.items ++ (stanza_text version_stanza ++ 10 ∷ stanza_text (sides_stanza left right))) }
{
    write_text_line(14, b"format_version", b"1", out)?;
    out.push(b'\n')?;
    write_id_line(5, b"left", &left, out)?;
    write_id_line(5, b"right", &right, out)
}

/// Appends the stanza of a merge without a root, if it is one.
fn write_root(is_missing: bool, out: &mut Vec<u8>) -> Result<(), NoMemory>
    ensures { OnOk result (out.new.items ≡ out.old.items ++ behind (root_stanzas is_missing)) }
{
    if is_missing {
        out.push(b'\n')?;
        write_text_line(8, b"conflict", b"missing_root", out)?;
    }
    Ok(())
}

/// Appends the stanzas of the nine lists.
fn write_lists(conflicts: &Conflicts, path: &mut Vec<u8>, out: &mut Vec<u8>) -> Result<(), NoMemory>
    ensures { OnOk result (out.new.items ≡ out.old.items ++ behind (list_stanzas conflicts.now)) }
{
    let c = conflicts;
    write_root(c.missing_root, out)?;
    write_items(Kind::InvalidName, c.invalid_name.as_slice(), path, out)?;
    write_items(Kind::DirectoryLoop, c.directory_loop.as_slice(), path, out)?;
    write_items(Kind::OrphanedNode, c.orphaned_node.as_slice(), path, out)?;
    write_items(Kind::MultipleName, c.multiple_name.as_slice(), path, out)?;
    write_items(Kind::DuplicateName, c.duplicate_name.as_slice(), path, out)?;
    write_items(Kind::Attribute, c.attribute.as_slice(), path, out)?;
    write_items(Kind::Content, c.content.as_slice(), path, out)?;
    write_items(
        Kind::DroppedModified,
        c.dropped_modified.as_slice(),
        path,
        out,
    )
}

/// Appends the conflict text of a merge of two revisions: `format_version "1"`, the ids with the lesser one left,
/// and a stanza for each item, list by list. An `Err` leaves `out` as it was.
pub fn write(left: Id, right: Id, conflicts: &Conflicts, out: &mut Vec<u8>) -> Result<(), NoMemory>
    requires { IsLesser left right }
    ensures ok { OnOk result (out.new.items ≡ out.old.items ++ spelling (conflict_stanzas left right conflicts.now)) }
    ensures err { OnErr result (out.new.items ≡ out.old.items) }
{
    let alloc = *out.allocator();
    let mut path = Vec::new(alloc);
    let mut text = Vec::new(alloc);
    write_head(left, right, &mut text)?;
    write_lists(conflicts, &mut path, &mut text)?;
    out.extend_from_slice(&text)?;
    Ok(())
}
