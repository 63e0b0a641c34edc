// Entries written as lines spell them.
use mtn_base::{Bytes, Id, NoMemory, NodeName};
use mtn_roster::{Attr, Body, Entry, Slot};

/// Appends the digit of an id.
pub fn put_id(id: Id, out: &mut Vec<u8>) -> Result<(), NoMemory> {
    out.push(b'0'.saturating_add(id.0[0]))?;
    Ok(())
}

/// Appends a node's name.
pub fn put_name(name: &NodeName, out: &mut Vec<u8>) -> Result<(), NoMemory> {
    put_id(name.birth, out)?;
    out.push(b':')?;
    name.path.write(out)
}

/// Appends a slot.
pub fn put_slot(slot: &Slot, out: &mut Vec<u8>) -> Result<(), NoMemory> {
    match slot {
        Slot::Root => out.extend_from_slice(b"- -")?,
        Slot::Below { parent, name } => {
            put_name(parent, out)?;
            out.push(b' ')?;
            out.extend_from_slice(name.bytes())?;
        }
    }
    Ok(())
}

/// Appends a kind or a content.
pub fn put_body(body: Body, out: &mut Vec<u8>) -> Result<(), NoMemory> {
    match body {
        Body::Dir => out.extend_from_slice(b"dir")?,
        Body::File { content } => put_id(content, out)?,
    }
    Ok(())
}

/// Appends a key, and behind a `=` its value where it is live.
pub fn put_attr(key: &Bytes, value: &Option<Bytes>, out: &mut Vec<u8>) -> Result<(), NoMemory> {
    out.extend_from_slice(key.as_slice())?;
    if let Some(value) = value {
        out.push(b'=')?;
        out.extend_from_slice(value.as_slice())?;
    }
    Ok(())
}

fn put_attrs(attrs: &[Attr], out: &mut Vec<u8>) -> Result<(), NoMemory> {
    for attr in attrs {
        out.push(b' ')?;
        put_attr(&attr.key, &attr.value, out)?;
    }
    Ok(())
}

/// Appends an entry, as a line has it behind its first word.
pub fn put_entry(entry: &Entry, out: &mut Vec<u8>) -> Result<(), NoMemory> {
    put_name(&entry.name, out)?;
    out.push(b' ')?;
    put_slot(&entry.slot, out)?;
    out.push(b' ')?;
    put_body(entry.body, out)?;
    put_attrs(entry.attrs.as_slice(), out)
}
