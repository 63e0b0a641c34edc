// The change that a stanza spells, kind by kind.
ghost use Rattle.std.specs.Prelude.{◌≡◌, ◌↔◌, ◌++◌, true, [], ◌∷◌, IfOk, IsTrue};
ghost use Rattle.mtn_basic_io.specs.Spelling.{is_symbol};
ghost use Rattle.mtn_changes.specs.Changes.{IsKey};
ghost use Rattle.mtn_changes.specs.declared.change.Change.TheVariants.{Rename, AddFile, Patch, Clear, Set};
ghost use Rattle.mtn_changes.specs.Stanzas.{IsRead, IsReadOf, id_line as id_spelled, path_line as path_spelled, stanza_of as spelled, text_line as text_spelled};

use crate::change::Change;
use crate::lines::{id_of, path_of, text_of};
use mtn_base::{Bytes, Id, MAX_KEY, NoMemory, Path};
use mtn_basic_io::{Line, Stanza, Value};
use std::alloc::Global;

fn is_key(text: &[u8]) -> bool
    ensures { IsTrue result ↔ IsKey text.now }
{
    !text.is_empty() && text.len() <= MAX_KEY && std::str::from_utf8(text).is_ok()
}

fn delete_in(alloc: Global, stanza: &Stanza) -> Result<Option<Change>, NoMemory>
    ensures { IfOk result (λ c. IsReadOf 1 stanza.now c) }
{
    let [line] = stanza.lines.as_slice() else {
        return Ok(None);
    };
    let Some(path) = path_of(alloc, line, b"delete")? else {
        return Ok(None);
    };
    Ok(Some(Change::Delete { path }))
}

fn rename_in(alloc: Global, stanza: &Stanza) -> Result<Option<Change>, NoMemory>
    ensures { IfOk result (λ c. IsReadOf 2 stanza.now c) }
{
    let [first, second] = stanza.lines.as_slice() else {
        return Ok(None);
    };
    let Some(path) = path_of(alloc, first, b"rename")? else {
        return Ok(None);
    };
    let Some(to) = path_of(alloc, second, b"to")? else {
        return Ok(None);
    };
    Ok(Some(Change::Rename { path, to }))
}

fn add_dir_in(alloc: Global, stanza: &Stanza) -> Result<Option<Change>, NoMemory>
    ensures { IfOk result (λ c. IsReadOf 3 stanza.now c) }
{
    let [line] = stanza.lines.as_slice() else {
        return Ok(None);
    };
    let Some(path) = path_of(alloc, line, b"add_dir")? else {
        return Ok(None);
    };
    Ok(Some(Change::AddDir { path }))
}

fn add_file_in(alloc: Global, stanza: &Stanza) -> Result<Option<Change>, NoMemory>
    ensures { IfOk result (λ c. IsReadOf 4 stanza.now c) }
{
    let [first, second] = stanza.lines.as_slice() else {
        return Ok(None);
    };
    let Some(content) = id_of(second, b"content") else {
        return Ok(None);
    };
    let Some(path) = path_of(alloc, first, b"add_file")? else {
        return Ok(None);
    };
    Ok(Some(Change::AddFile { path, content }))
}

fn patch_in(alloc: Global, stanza: &Stanza) -> Result<Option<Change>, NoMemory>
    ensures { IfOk result (λ c. IsReadOf 5 stanza.now c) }
{
    let [first, second, third] = stanza.lines.as_slice() else {
        return Ok(None);
    };
    let Some(from) = id_of(second, b"from") else {
        return Ok(None);
    };
    let Some(to) = id_of(third, b"to") else {
        return Ok(None);
    };
    let Some(path) = path_of(alloc, first, b"patch")? else {
        return Ok(None);
    };
    Ok(Some(Change::Patch { path, from, to }))
}

fn clear_in(alloc: Global, stanza: &Stanza) -> Result<Option<Change>, NoMemory>
    ensures { IfOk result (λ c. IsReadOf 6 stanza.now c) }
{
    let [first, second] = stanza.lines.as_slice() else {
        return Ok(None);
    };
    let Some(key) = text_of(second, b"attr") else {
        return Ok(None);
    };
    if !is_key(key) {
        return Ok(None);
    }
    let Some(path) = path_of(alloc, first, b"clear")? else {
        return Ok(None);
    };
    let key = Bytes::from_slice(alloc, key)?;
    Ok(Some(Change::Clear { path, key }))
}

fn set_in(alloc: Global, stanza: &Stanza) -> Result<Option<Change>, NoMemory>
    ensures { IfOk result (λ c. IsReadOf 7 stanza.now c) }
{
    let [first, second, third] = stanza.lines.as_slice() else {
        return Ok(None);
    };
    let Some(key) = text_of(second, b"attr") else {
        return Ok(None);
    };
    if !is_key(key) {
        return Ok(None);
    }
    let Some(value) = text_of(third, b"value") else {
        return Ok(None);
    };
    let Some(path) = path_of(alloc, first, b"set")? else {
        return Ok(None);
    };
    let key = Bytes::from_slice(alloc, key)?;
    let value = Bytes::from_slice(alloc, value)?;
    Ok(Some(Change::Set { path, key, value }))
}

/// The change that a stanza spells; None exactly where it spells none, with a path that is none, a
/// key that is none, an id without digits, or anything else amiss.
pub fn change_of(alloc: Global, stanza: &Stanza) -> Result<Option<Change>, NoMemory>
    ensures { IfOk result (λ c. IsRead stanza.now c) }
{
    if let Some(change) = delete_in(alloc, stanza)? {
        return Ok(Some(change));
    }
    if let Some(change) = rename_in(alloc, stanza)? {
        return Ok(Some(change));
    }
    if let Some(change) = add_dir_in(alloc, stanza)? {
        return Ok(Some(change));
    }
    if let Some(change) = add_file_in(alloc, stanza)? {
        return Ok(Some(change));
    }
    if let Some(change) = patch_in(alloc, stanza)? {
        return Ok(Some(change));
    }
    if let Some(change) = clear_in(alloc, stanza)? {
        return Ok(Some(change));
    }
    set_in(alloc, stanza)
}

fn path_line(alloc: Global, symbol: &[u8], path: &Path) -> Result<Line, NoMemory>
    requires { is_symbol symbol.now ≡ true }
    ensures { IfOk result (λ l. l ≡ path_spelled symbol.now path.now) }
{
    let mut text = Vec::new(alloc);
    path.write(&mut text)?;
    Line::new(alloc, symbol, Value::Text(Bytes::from_vec(text)))
}

fn stanza_of_path(alloc: Global, symbol: &[u8], path: &Path) -> Result<Stanza, NoMemory>
    requires { is_symbol symbol.now ≡ true }
    ensures { IfOk result (λ s. s ≡ path_spelled symbol.now path.now ∷ []) }
{
    let line = path_line(alloc, symbol, path)?;
    Stanza::new(alloc, line)
}

fn with_line(stanza: Stanza, line: Line) -> Result<Stanza, NoMemory>
    ensures { IfOk result (λ s. s ≡ stanza ++ line ∷ []) }
{
    let mut stanza = stanza;
    stanza.push(line)?;
    Ok(stanza)
}

fn with_text(alloc: Global, stanza: Stanza, symbol: &[u8], text: &Bytes) -> Result<Stanza, NoMemory>
    requires { is_symbol symbol.now ≡ true }
    ensures { IfOk result (λ s. s ≡ stanza ++ text_spelled symbol.now text.now ∷ []) }
{
    let text = text.copy(alloc)?;
    let line = Line::new(alloc, symbol, Value::Text(text))?;
    with_line(stanza, line)
}

fn with_id(alloc: Global, stanza: Stanza, symbol: &[u8], id: &Id) -> Result<Stanza, NoMemory>
    requires { is_symbol symbol.now ≡ true }
    ensures { IfOk result (λ s. s ≡ stanza ++ id_spelled symbol.now id.now ∷ []) }
{
    let line = Line::new(alloc, symbol, Value::Hex(Some(*id)))?;
    with_line(stanza, line)
}

fn rename_stanza(alloc: Global, path: &Path, to: &Path) -> Result<Stanza, NoMemory>
    ensures { IfOk result (λ s. s ≡ spelled (Rename path.now to.now)) }
{
    let stanza = stanza_of_path(alloc, b"rename", path)?;
    let line = path_line(alloc, b"to", to)?;
    with_line(stanza, line)
}

fn add_file_stanza(alloc: Global, path: &Path, content: &Id) -> Result<Stanza, NoMemory>
    ensures { IfOk result (λ s. s ≡ spelled (AddFile path.now content.now)) }
{
    let stanza = stanza_of_path(alloc, b"add_file", path)?;
    with_id(alloc, stanza, b"content", content)
}

fn patch_stanza(alloc: Global, path: &Path, from: &Id, to: &Id) -> Result<Stanza, NoMemory>
    ensures { IfOk result (λ s. s ≡ spelled (Patch path.now from.now to.now)) }
{
    let stanza = stanza_of_path(alloc, b"patch", path)?;
    let stanza = with_id(alloc, stanza, b"from", from)?;
    with_id(alloc, stanza, b"to", to)
}

fn clear_stanza(alloc: Global, path: &Path, key: &Bytes) -> Result<Stanza, NoMemory>
    ensures { IfOk result (λ s. s ≡ spelled (Clear path.now key.now)) }
{
    let stanza = stanza_of_path(alloc, b"clear", path)?;
    with_text(alloc, stanza, b"attr", key)
}

fn set_stanza(alloc: Global, path: &Path, key: &Bytes, value: &Bytes) -> Result<Stanza, NoMemory>
    ensures { IfOk result (λ s. s ≡ spelled (Set path.now key.now value.now)) }
{
    let stanza = stanza_of_path(alloc, b"set", path)?;
    let stanza = with_text(alloc, stanza, b"attr", key)?;
    with_text(alloc, stanza, b"value", value)
}

/// The stanza of a change.
pub fn stanza_of(alloc: Global, change: &Change) -> Result<Stanza, NoMemory>
    ensures { IfOk result (λ s. s ≡ spelled change.now) }
{
    match change {
        Change::Delete { path } => stanza_of_path(alloc, b"delete", path),
        Change::Rename { path, to } => rename_stanza(alloc, path, to),
        Change::AddDir { path } => stanza_of_path(alloc, b"add_dir", path),
        Change::AddFile { path, content } => add_file_stanza(alloc, path, content),
        Change::Patch { path, from, to } => patch_stanza(alloc, path, from, to),
        Change::Clear { path, key } => clear_stanza(alloc, path, key),
        Change::Set { path, key, value } => set_stanza(alloc, path, key, value),
    }
}
