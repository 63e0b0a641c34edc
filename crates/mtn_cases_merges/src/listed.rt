// Lists of conflicts as lines, and their text.
use mtn_base::{Bytes, Id, List, NoMemory};
use mtn_case_trees::{put_attr, put_id, put_name, put_slot};
use mtn_conflicts::{Conflicts, Item, Side, write};

fn put_side(word: &[u8], key: &Bytes, side: &Side, out: &mut Vec<u8>) -> Result<(), NoMemory> {
    match side {
        Side::Nothing => return Ok(()),
        _ => out.extend_from_slice(word)?,
    }
    match side {
        Side::Nothing => Ok(()),
        Side::At(slot) => put_slot(slot, out),
        Side::Content(content) => put_id(*content, out),
        Side::Attr(value) => put_attr(key, value, out),
    }
}

fn put_item(name: &[u8], item: &Item, out: &mut Vec<u8>) -> Result<(), NoMemory> {
    out.extend_from_slice(name)?;
    out.push(b' ')?;
    put_name(&item.node, out)?;
    put_side(b" left ", &item.key, &item.left, out)?;
    put_side(b" right ", &item.key, &item.right, out)?;
    out.push(b'\n')?;
    Ok(())
}

fn put_items(name: &[u8], items: &List<Item>, out: &mut Vec<u8>) -> Option<()> {
    for item in items.as_slice() {
        put_item(name, item, out).ok()?;
    }
    Some(())
}

/// Prints the items of the nine lists.
pub fn put_lists(found: &Conflicts, out: &mut Vec<u8>) -> Option<()> {
    if found.missing_root {
        out.extend_from_slice(b"missing_root\n").ok()?;
    }
    put_items(b"invalid_name", &found.invalid_name, out)?;
    put_items(b"directory_loop", &found.directory_loop, out)?;
    put_items(b"orphaned_node", &found.orphaned_node, out)?;
    put_items(b"multiple_name", &found.multiple_name, out)?;
    put_items(b"duplicate_name", &found.duplicate_name, out)?;
    put_items(b"attribute", &found.attribute, out)?;
    put_items(b"content", &found.content, out)?;
    put_items(b"dropped_modified", &found.dropped_modified, out)
}

/// Prints the text of conflicts; none where the first id is not the lesser.
pub fn put_text(left: Id, right: Id, found: &Conflicts, out: &mut Vec<u8>) -> Option<()> {
    if left.as_slice().cmp(right.as_slice()).is_lt() {
        write(left, right, found, out).ok()
    } else {
        None
    }
}
