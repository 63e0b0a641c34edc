// What a stanza spells.
ghost use Rattle.std.specs.Prelude.{◌≡◌, ◌↔◌, IfOk, IsTrue};
ghost use Rattle.mtn_certs.specs.KeyTables.{IsRead, header};

use crate::cert::KeyName;
use crate::field::is_field;
use crate::key_lines::{id_of, text_of};
use mtn_base::{Bytes, NoMemory};
use mtn_basic_io::Stanza;
use std::alloc::Global;

/// The key name that a stanza spells; None exactly where it spells none.
pub fn key_of(alloc: Global, stanza: &Stanza) -> Result<Option<KeyName>, NoMemory>
    ensures { IfOk result (λ k. IsRead stanza.now k) }
{
    let [first, second] = stanza.lines.as_slice() else {
        return Ok(None);
    };
    let Some(id) = id_of(first, b"key") else {
        return Ok(None);
    };
    let Some(text) = text_of(second, b"name") else {
        return Ok(None);
    };
    if !is_field(text) {
        return Ok(None);
    }
    let name = Bytes::from_slice(alloc, text)?;
    Ok(Some(KeyName { id, name }))
}

/// Whether a stanza is the header.
pub fn is_header(stanza: &Stanza) -> bool
    ensures { IsTrue result ↔ (stanza.now ≡ header) }
{
    let [line] = stanza.lines.as_slice() else {
        return false;
    };
    let Some([b'1']) = text_of(line, b"format_version") else {
        return false;
    };
    true
}
