// The list of certificates as text.
ghost use Rattle.std.specs.Prelude.{◌≡◌, ◌++◌, map, IfOk, OnOk, OnErr};
ghost use Rattle.std.specs.List.{flat_map};
ghost use Rattle.std.specs.Option.{option_copied};
ghost use Rattle.std.specs.BTreeMap.{get};
ghost use Rattle.mtn_base.specs.Ids.{by_id};
ghost use Rattle.mtn_base.specs.declared.id.Id.{Id as Named};
ghost use Rattle.mtn_basic_io.specs.Spelling.{line_between, line_text, spelling, stanza_text};
ghost use Rattle.mtn_certs.specs.Listing.{certs_text, name_in, said_lines, stanza_of, stanzas_of};

use crate::cert::{Cert, KeyName};
use crate::order::sorted_of;
use base64::engine::general_purpose::STANDARD;
use mtn_base::{Id, NoMemory};
use mtn_basic_io::{write_id_line, write_text_line};
use std::alloc::Global;
use std::collections::BTreeMap;

/// The length of the longest symbol of a stanza: `signature`.
const COLUMN: usize = 9;

// The name that each key has: the first of several.
fn names_of<'a>(alloc: Global, keys: &'a [KeyName]) -> Result<BTreeMap<Id, &'a [u8]>, NoMemory>
    ensures { IfOk result (λ names. (id : Named) → option_copied (get by_id names id) ≡ name_in keys.now id) }
{
    let mut names = BTreeMap::new(alloc);
    let mut at = keys.len();
    while at > 0 {
        at -= 1;
        let key = &keys[at];
        names.insert(key.id, key.name.as_slice())?;
    }
    Ok(names)
}

// Appends the lines of what a certificate says.
fn write_said(cert: &Cert, out: &mut Vec<u8>) -> Result<(), NoMemory>
    ensures { OnOk result (out.new.items ≡ out.old.items ++ flat_map (line_text 9) (said_lines cert.now)) }
{
    let alloc = *out.allocator();
    let signature = STANDARD.encode(alloc, cert.signature.as_slice())?;
    write_text_line(COLUMN, b"name", cert.name.as_slice(), out)?;
    write_text_line(COLUMN, b"value", cert.value.as_slice(), out)?;
    write_text_line(COLUMN, b"signature", signature.as_bytes(), out)
}

// Appends the stanza of a certificate whose key has this name, or none.
fn write_cert(cert: &Cert, name: Option<&[u8]>, out: &mut Vec<u8>) -> Result<(), NoMemory>
    ensures { OnOk result (out.new.items ≡ out.old.items ++ stanza_text (stanza_of (option_copied name.entry) cert.now)) }
{
    write_id_line(COLUMN, b"key", &cert.key, out)?;
    if let Some(name) = name {
        write_text_line(COLUMN, b"key_name", name, out)?;
    }
    write_said(cert, out)
}

// Appends the stanza of a certificate behind so many others.
fn write_behind(
    i: usize,
    cert: &Cert,
    name: Option<&[u8]>,
    out: &mut Vec<u8>,
) -> Result<(), NoMemory>
    ensures { OnOk result (out.new.items ≡ out.old.items ++ (line_between i ++ stanza_text (stanza_of (option_copied name.entry) cert.now))) }
{
    if i > 0 {
        out.push(b'\n')?;
    }
    write_cert(cert, name, out)
}

// Appends the stanzas of certificates that are in order.
fn write_all(
    certs: &[&Cert],
    names: &BTreeMap<Id, &[u8]>,
    out: &mut Vec<u8>,
) -> Result<(), NoMemory>
    ensures { OnOk result (out.new.items ≡ out.old.items
        ++ spelling (stanzas_of (λ (id : Named). option_copied (get by_id names.now id)) (map (λ b. b.now) certs.now))) }
{
    for (i, cert) in certs.iter().enumerate() {
        write_behind(i, cert, names.get(&cert.key).copied(), out)?;
    }
    Ok(())
}

/// Appends the printed form of the stanzas of the certificates, by name, key, value and signature, byte by byte, each
/// certificate once: `key`, `key_name` where the key has a name, `name`, `value`, and `signature` in base64 (RFC 4648). Of
/// several names of a key the first is taken. An `Err` leaves `out` as it was.
pub fn list(certs: &[Cert], keys: &[KeyName], out: &mut Vec<u8>) -> Result<(), NoMemory>
    ensures ok { OnOk result (out.new.items ≡ out.old.items ++ certs_text (name_in keys.now) certs.now) }
    ensures err { OnErr result (out.new.items ≡ out.old.items) }
{
    let alloc = *out.allocator();
    let sorted = sorted_of(alloc, certs)?;
    let names = names_of(alloc, keys)?;
    let mut text = Vec::new(alloc);
    write_all(&sorted, &names, &mut text)?;
    out.extend_from_slice(&text)?;
    Ok(())
}
